// The program: reads standard input as a file of tables, and writes the text that `report` makes of it. Relies on `report` for the text, on
// `rules` for the limit, and on `io`. What it prints is held to the file `stdout` beside this folder, for the file `stdin`.
#![tactic(auto)]

ghost use Rattle.std.specs.Prelude.{◌≤◌, ◌≡◌, length};
ghost use Rattle.rules.specs.Slices.{overwrite};
ghost use Rattle.report.specs.Report.{text};

use rules::Limits;

// Makes the text in a buffer with room for the longest one, so that no call is turned back, and has all of it written out. Returns its length.
fn print(file: &[u8], out: &mut [u8]) -> usize
    requires { 385321 ≤ length out.old }
    ensures count { result ≡ length (text file.now) }
    ensures bytes { out.new ≡ overwrite (text file.now) out.old }
{
    let count = report::write(file, out).unwrap();
    io::write_all(1, &out[..count]);
    count
}

// One byte more than the largest file is read, so that a longer one is turned back too.
fn main() {
    let mut input = [0u8; Limits::BYTES + 1];
    let n = io::read_full(0, &mut input);
    let mut out = [0u8; report::LONGEST];
    print(&input[..n], &mut out);
}
