// The picker for the twin-station panel, document 02, L6: which supply tables of a file fit a demand table. Relies on nothing but what the checker promises:
// on `checker` for Decide alone, its contract and its definition, and in the proof of the claim three laws of it; on `tables` and `questions` for the file, for
// what turns a call back and for the starts; on `rules` for limits, lists, and what it is to meet the definition. A reader sees it by the `use` lines of code,
// specs and proofs: none names an engine, and the code has no path to another crate beside them. crates.txt lists the engines, since the checker stands on
// them.
#![tactic(auto)]

ghost use Rattle.std.specs.Prelude.{◌≡◌, Ok, length};
ghost use Rattle.tables.specs.Answers.{counted};
ghost use Rattle.tables.specs.Open.{file_fault};
ghost use Rattle.picker.specs.Pick.{gets_yes, picked, pick_answer, pick_slice};
ghost use Rattle.picker.specs.Demands.{PickDemands};

use arrayvec::ArrayVec;
use checker::{Question, decide};
use questions::{Named, check_mode, check_table};
use rules::Limits;
use tables::{Kind, Reason, Refusal, table_count};

// Whether Decide says yes, lent room for the marks of the most pairs there can be. A table that is no supply is turned back by Decide, and gets no yes.
fn gets_yes(file: &[u8], question: Question, mode: usize) -> bool
    ensures { result ≡ gets_yes file.now question mode }
{
    let mut marks = [0u16; Limits::PAIRS];
    match decide(file, question, mode, &mut marks) {
        Ok(verdict) => verdict.yes,
        Err(_) => false,
    }
}

// The numbers of the supply tables that get a yes, rising.
fn collect(
    file: &[u8],
    demand: usize,
    mode: usize,
    standing: u16,
) -> ArrayVec<u8, { Limits::TABLES }>
    requires { file_fault file.now ≡ Ok tt }
    ensures { result.items ≡ picked file.now demand mode standing }
{
    let mut numbers = ArrayVec::new();
    for supply in 0..table_count(file) {
        let question = Question::from_starts(file, demand, supply, standing);
        if gets_yes(file, question, mode) {
            numbers.push(supply as u8);
        }
    }
    numbers
}

// Pick: the number of every supply table that fits a demand table, by mode 0 (full) or 1 (partial), all tables from their starts; rising, one byte each.
// How many there are is known only once all are asked, so the numbers are collected in an array of the call's own, and copied then.
pub fn pick(
    file: &[u8],
    demand: usize,
    mode: usize,
    standing: u16,
    out: &mut [u8],
) -> Result<usize, Refusal>
    ensures answer { counted result ≡ pick_answer file.now demand mode standing (length out.old) }
    ensures slice { out.new ≡ pick_slice file.now demand mode standing out.old }
    ensures demands { PickDemands file.now demand mode standing (counted result) out.new }
{
    let named = Named {
        table: demand,
        kind: Kind::Demand,
    };
    check_table(file, named)?;
    check_mode(mode)?;
    let numbers = collect(file, demand, mode, standing);
    let count = numbers.len();
    if out.len() < count {
        return Err(Refusal::new(Reason::NoRoom, 0));
    }
    out[..count].copy_from_slice(numbers.as_slice());
    Ok(count)
}
