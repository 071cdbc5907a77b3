// A page: the text for a file, composed and not yet written. So its length is known before a byte is written.
ghost use Rattle.std.specs.Prelude.{◌≤◌, ◌≡◌, length, Ok};
ghost use Rattle.text.specs.Writing.{Wrote};
ghost use Rattle.questions.specs.Pairs.{pair_checks};
ghost use Rattle.report.specs.Report.{text};
ghost use Rattle.report.specs.Pages.{verdict_at, steps_at, found_text, page_text};

use checker::{Question, Verdict};
use lines::{put_file, put_refused, put_start, put_steps, put_verdict};
use questions::{ask, number_of};
use rules::{Limits, Mode};
use tables::{Refusal, table_count};
use text::Writer;

// Entries for the longest run.
pub(crate) const STEP_ENTRIES: usize = 2 * Limits::PAIRS;

// What a mode finds: the verdict, and the steps that show a no.
#[derive(Clone, Copy)]
pub(crate) struct Found<'a> {
    pub verdict: Verdict,
    pub steps: &'a [u16],
}

// What the text tells of a file that has both kinds of table.
#[derive(Clone, Copy)]
pub(crate) struct Outcome<'a> {
    pub bytes: usize,
    pub tables: usize,
    pub question: Question,
    pub full: Found<'a>,
    pub partial: Found<'a>,
}

// What a mode finds. The run that shows a no goes to `steps`. Nothing turns back a call here.
fn find<'a>(file: &[u8], question: Question, mode: Mode, steps: &'a mut [u16]) -> Found<'a>
    requires { (pair_checks file.now question ≡ Ok tt) × (8192 ≤ length steps.old) }
    ensures verdict { result.verdict ≡ verdict_at mode file.now question }
    ensures steps { result.steps.now ≡ steps_at mode file.now question }
{
    let number = number_of(mode);
    let mut marks = [0u16; Limits::PAIRS];
    let verdict = checker::decide(file, question, number, &mut marks).unwrap();
    let count = checker::run(file, question, number, &mut marks, steps).unwrap();
    Found {
        verdict,
        steps: &steps[..2 * count],
    }
}

// Composes the text for a file. The steps of each mode go to the slice lent for it.
pub(crate) fn compose<'a>(
    file: &[u8],
    full: &'a mut [u16],
    partial: &'a mut [u16],
) -> Result<Outcome<'a>, Refusal>
    requires { (8192 ≤ length full.old) × (8192 ≤ length partial.old) }
    ensures { page_text result ≡ text file.now }
{
    let question = ask(file)?;
    let every = find(file, question, Mode::Full, full);
    let some = find(file, question, Mode::Partial, partial);
    Ok(Outcome {
        bytes: file.len(),
        tables: table_count(file),
        question,
        full: every,
        partial: some,
    })
}

// Writes what a mode found.
fn put_found(w: &mut Writer, mode: Mode, found: Found)
    ensures { Wrote (found_text mode found.entry) w.old w.new }
{
    let verdict = found.verdict;
    put_verdict(w, mode, verdict.yes, verdict.rounds, verdict.kept);
    put_steps(w, found.steps);
}

fn put_outcome(w: &mut Writer, outcome: Outcome)
    ensures { Wrote (page_text (Ok outcome.entry)) w.old w.new }
{
    put_file(w, outcome.bytes, outcome.tables);
    let asked = outcome.question;
    put_start(
        w,
        asked.demand.table,
        asked.supply.table,
        asked.demand.state,
        asked.supply.state,
    );
    put_found(w, Mode::Full, outcome.full);
    put_found(w, Mode::Partial, outcome.partial);
}

// Writes a text that is composed.
pub(crate) fn put_page(w: &mut Writer, page: Result<Outcome, Refusal>)
    ensures { Wrote (page_text page.entry) w.old w.new }
{
    match page {
        Ok(outcome) => put_outcome(w, outcome),
        Err(refusal) => put_refused(w, refusal.reason.number() as usize, refusal.place),
    }
}
