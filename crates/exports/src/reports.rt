// Reports: the number that a call returns, and the three that it writes.
ghost use Rattle.std.specs.Prelude.{[], ◌∷◌, ◌≡◌, ◌≤◌, length};
ghost use Rattle.rules.specs.Slices.{overwrite};
ghost use Rattle.tables.specs.Answers.{number_of};
ghost use Rattle.exports.specs.Bytes.{number_bytes, numbers_in};

use crate::numbers::write_numbers;
use tables::Refusal;

// A report has three numbers of eight bytes each.
pub(crate) const REPORT_BYTES: usize = 24;

// Reports what a call that is carried out returns.
pub(crate) fn report_values(report: &mut [u8], numbers: [u64; 3]) -> u64
    requires { 24 ≤ length report.old }
    ensures number { result ≡ 0 }
    ensures report { report.new ≡ overwrite (number_bytes numbers) report.old }
    ensures read_back { numbers_in report.new ≡ numbers }
{
    write_numbers(&numbers, report);
    0
}

// Reports where a call is turned back.
pub(crate) fn report_refusal(report: &mut [u8], refusal: Refusal) -> u64
    requires { 24 ≤ length report.old }
    ensures number { result ≡ number_of refusal.reason }
    ensures report { report.new ≡ overwrite (number_bytes (refusal.place ∷ 0 ∷ 0 ∷ [])) report.old }
    ensures read_back { numbers_in report.new ≡ refusal.place ∷ 0 ∷ 0 ∷ [] }
{
    write_numbers(&[refusal.place as u64, 0, 0], report);
    refusal.reason.number() as u64
}
