// "The tool calls open, decide and run as C functions on numbers and byte slices" (document 02, L7): include/slots.h declares them. A report of three numbers
// stands for what the calls of `tables` and `checker` return, and marks and steps are two bytes each, low byte first. Nothing is asked of the caller but what
// the header says of its memory. A function has as many parameters as L7 lists: "numbers passed and returned are unsigned and 64 bits wide, the standing set
// 16". Relies on `tables` for Open, on `checker` for Decide and Run, by what they promise alone, on `questions` for what a question is about, and on `rules`
// for the limits.
#![tactic(auto)]

ghost use Rattle.std.specs.Prelude.{◌≡◌, ◌≢◌, ◌≤◌, length};
ghost use Rattle.tables.specs.Open.{open_of};
ghost use Rattle.exports.specs.Calls.{asked, returned, reported, written};
ghost use Rattle.exports.specs.Calls.{decide_lent, decide_lent_marks, run_lent, run_lent_marks, run_lent_steps};
ghost use Rattle.exports.specs.Calls.{AnswerAgrees, DecideAgrees, RunAgrees};

use checker::{Question, Side};
use reports::{REPORT_BYTES, report_refusal, report_values};
use tables::Reason;

mod calls;
mod numbers;
mod reports;

// The question that the numbers of a call ask.
fn from_numbers(demand: u64, supply: u64, t: u64, s: u64, standing: u16) -> Question
    ensures { result ≡ asked demand supply t s standing }
{
    Question {
        demand: Side {
            table: demand as usize,
            state: t as usize,
        },
        supply: Side {
            table: supply as usize,
            state: s as usize,
        },
        standing,
    }
}

// Open.
#[unsafe(no_mangle)]
pub extern "C" fn slots_open(file: &[u8], report: &mut [u8]) -> u64
    ensures number { result ≡ returned (open_of file.now) report.old }
    ensures report { report.new ≡ reported (open_of file.now) report.old }
    ensures agrees { 24 ≤ length report.old → AnswerAgrees (open_of file.now) result report.new }
{
    if report.len() < REPORT_BYTES {
        return Reason::NoRoom.number() as u64;
    }
    match tables::open(file) {
        Ok(k) => report_values(report, [k as u64, 0, 0]),
        Err(refusal) => report_refusal(report, refusal),
    }
}

// Decide. Of a call turned back the report "is then the only slice it writes".
#[unsafe(no_mangle)]
pub extern "C" fn slots_decide(
    file: &[u8],
    demand: u64,
    supply: u64,
    t: u64,
    s: u64,
    mode: u64,
    standing: u16,
    marks: &mut [u8],
    report: &mut [u8],
) -> u64
    ensures number { result ≡ returned (decide_lent file.now (asked demand supply t s standing) mode marks.old) report.old }
    ensures marks { marks.new ≡ written report.old (decide_lent_marks file.now (asked demand supply t s standing) mode marks.old) marks.old }
    ensures report { report.new ≡ reported (decide_lent file.now (asked demand supply t s standing) mode marks.old) report.old }
    ensures unchanged { result ≢ 0 → marks.new ≡ marks.old }
    ensures agrees { 24 ≤ length report.old → DecideAgrees file.now (asked demand supply t s standing) mode marks.old result marks.new report.new }
{
    if report.len() < REPORT_BYTES {
        return Reason::NoRoom.number() as u64;
    }
    let question = from_numbers(demand, supply, t, s, standing);
    match calls::decide(file, question, mode as usize, marks) {
        Ok(found) => report_values(
            report,
            [found.yes as u64, found.kept as u64, found.rounds as u64],
        ),
        Err(refusal) => report_refusal(report, refusal),
    }
}

// Run; a call turned back as in Decide.
#[unsafe(no_mangle)]
pub extern "C" fn slots_run(
    file: &[u8],
    demand: u64,
    supply: u64,
    t: u64,
    s: u64,
    mode: u64,
    standing: u16,
    marks: &mut [u8],
    steps: &mut [u8],
    report: &mut [u8],
) -> u64
    ensures number { result ≡ returned (run_lent file.now (asked demand supply t s standing) mode marks.old steps.old) report.old }
    ensures marks { marks.new ≡ written report.old (run_lent_marks file.now (asked demand supply t s standing) mode marks.old steps.old) marks.old }
    ensures steps { steps.new ≡ written report.old (run_lent_steps file.now (asked demand supply t s standing) mode marks.old steps.old) steps.old }
    ensures report { report.new ≡ reported (run_lent file.now (asked demand supply t s standing) mode marks.old steps.old) report.old }
    ensures unchanged { result ≢ 0 → (marks.new ≡ marks.old) × (steps.new ≡ steps.old) }
    ensures agrees { 24 ≤ length report.old
        → RunAgrees file.now (asked demand supply t s standing) mode marks.old steps.old result marks.new steps.new report.new }
{
    if report.len() < REPORT_BYTES {
        return Reason::NoRoom.number() as u64;
    }
    let question = from_numbers(demand, supply, t, s, standing);
    match calls::run(file, question, mode as usize, marks, steps) {
        Ok(count) => report_values(report, [count as u64, 0, 0]),
        Err(refusal) => report_refusal(report, refusal),
    }
}
