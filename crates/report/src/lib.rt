// The whole text that the program prints for a file of tables, written to a lent buffer. Nothing is asked of the caller. Relies on `questions` to open
// the file and for what is asked about it, on `tables` for the count of its tables, on `checker` for the decisions and the runs, on `lines` for the
// lines of the text, on `text` for the writer, and on `rules` for the modes and limits.
#![tactic(auto)]

ghost use Rattle.std.specs.Prelude.{◌≡◌, length};
ghost use Rattle.tables.specs.Answers.{counted};
ghost use Rattle.report.specs.Report.{report_answer, report_bytes};

use pages::{STEP_ENTRIES, compose, put_page};
use tables::{Reason, Refusal};
use text::Writer;

mod pages;

// No text is longer (`text_fits`): 165 bytes of the first two lines, and for each mode 66 of its line and 4,096 steps of 47, every number taken as one
// of 20 digits.
pub const LONGEST: usize = 385321;

// Writes the text for a file, and returns its length.
pub fn write(file: &[u8], out: &mut [u8]) -> Result<usize, Refusal>
    ensures answer { counted result ≡ report_answer file.now (length out.old) }
    ensures bytes { out.new ≡ report_bytes file.now out.old }
{
    let mut full = [0u16; STEP_ENTRIES];
    let mut partial = [0u16; STEP_ENTRIES];
    let page = compose(file, &mut full, &mut partial);
    let mut spare = [0u8; 1];
    let mut counted = Writer::new(&mut spare);
    put_page(&mut counted, page);
    if out.len() < counted.at() {
        return Err(Refusal::new(Reason::NoRoom, 0));
    }
    let mut written = Writer::new(out);
    put_page(&mut written, page);
    Ok(written.at())
}
