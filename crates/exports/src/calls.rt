// Decide and Run where marks and steps are bytes. The calls write to arrays, of which as many entries are lent as the bytes have, and what they wrote goes to
// the bytes. No call can ask for more than the arrays have, so a longer slice changes no answer (`decide_room`, `run_room`).
ghost use Rattle.std.specs.Prelude.{◌≡◌, ◌*◌, OnErr};
ghost use Rattle.tables.specs.Answers.{counted};
ghost use Rattle.questions.specs.Pairs.{demand_of, supply_of};
ghost use Rattle.checker.specs.Calls.{decided};
ghost use Rattle.exports.specs.Calls.{decide_lent, decide_lent_marks, run_lent, run_lent_marks, run_lent_steps};
ghost use Rattle.exports.specs.Lent.{Holds};

use crate::numbers::{count_words, write_words};
use checker::{Question, Verdict};
use rules::Limits;
use tables::{Refusal, states_of};

// The most entries for steps that a call can ask for.
const STEP_ENTRIES: usize = 2 * Limits::PAIRS;

// How many pairs of states a question is about.
fn pairs(file: &[u8], question: Question) -> usize
    ensures { result ≡ (demand_of file.now question).n * (supply_of file.now question).n }
{
    let demand = states_of(file, question.demand.table) as usize;
    let supply = states_of(file, question.supply.table) as usize;
    demand * supply
}

// Decide, lent bytes.
pub(crate) fn decide(
    file: &[u8],
    question: Question,
    mode: usize,
    marks: &mut [u8],
) -> Result<Verdict, Refusal>
    ensures answer { decided result ≡ decide_lent file.now question mode marks.old }
    ensures marks { Holds (decide_lent_marks file.now question mode marks.old) marks.old marks.new }
    ensures unchanged { OnErr result (marks.new ≡ marks.old) }
{
    let mut entries = [0u16; Limits::PAIRS];
    let lent = &mut entries[..count_words(marks, Limits::PAIRS)];
    let verdict = checker::decide(file, question, mode, lent)?;
    write_words(&lent[..pairs(file, question)], marks);
    Ok(verdict)
}

// Run, lent bytes.
pub(crate) fn run(
    file: &[u8],
    question: Question,
    mode: usize,
    marks: &mut [u8],
    steps: &mut [u8],
) -> Result<usize, Refusal>
    ensures answer { counted result ≡ run_lent file.now question mode marks.old steps.old }
    ensures marks { Holds (run_lent_marks file.now question mode marks.old steps.old) marks.old marks.new }
    ensures steps { Holds (run_lent_steps file.now question mode marks.old steps.old) steps.old steps.new }
    ensures unchanged { OnErr result ((marks.new ≡ marks.old) × (steps.new ≡ steps.old)) }
{
    let mut entries = [0u16; Limits::PAIRS];
    let mut rows = [0u16; STEP_ENTRIES];
    let lent = &mut entries[..count_words(marks, Limits::PAIRS)];
    let run = &mut rows[..count_words(steps, STEP_ENTRIES)];
    let count = checker::run(file, question, mode, lent, run)?;
    write_words(&lent[..pairs(file, question)], marks);
    write_words(&run[..2 * count], steps);
    Ok(count)
}
