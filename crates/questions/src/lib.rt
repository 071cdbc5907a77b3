// Questions about tables of a file: what turns back a call that names a demand or a supply table, or two such tables, and a question about a pair of their
// states, about a pair in a mode, and a join or a merge; the two machines that a question about a pair is about; the question about two tables from their
// starts, and the one that the programs ask about a file. Only `load_pair` asks something of its caller: that nothing turns the question back. Relies on
// `rules` for the meaning, on `tables` for the file, and on `machines` for loading.
#![tactic(auto)]

ghost use Rattle.std.specs.Prelude.{◌≡◌, Ok};
ghost use Rattle.questions.specs.Pairs.{pair_checks, PairLoaded};

use machines::{Machine, Sides};
use rules::Pair;
use tables::{Kind, Reason, Refusal, states_of};

mod modes;
mod named;
mod programs;
mod sizes;
mod starts;

pub use modes::{check_decision, check_mode, mode_of, number_of};
pub use named::{Named, check_named, check_table};
pub use programs::ask;
pub use sizes::check_operands;

// One side of a question: the number of a table, and a state of it.
#[derive(Clone, Copy)]
pub struct Side {
    pub table: usize,
    pub state: usize,
}

// What a call asks about: a state of a demand table beside a state of a supply table, with the standing set, whose resources the supply grants in every
// slot. One set holds for a whole call, so it stands in the question.
#[derive(Clone, Copy)]
pub struct Question {
    pub demand: Side,
    pub supply: Side,
    pub standing: u16,
}

// What turns back a question about a pair.
pub fn check_pair(file: &[u8], question: Question) -> Result<(), Refusal>
    ensures { result ≡ pair_checks file.now question }
{
    let demand = Named {
        table: question.demand.table,
        kind: Kind::Demand,
    };
    let supply = Named {
        table: question.supply.table,
        kind: Kind::Supply,
    };
    check_named(file, demand, supply)?;
    if (states_of(file, question.demand.table) as usize) <= question.demand.state {
        return Err(Refusal::new(Reason::NoState, 0));
    }
    if (states_of(file, question.supply.table) as usize) <= question.supply.state {
        return Err(Refusal::new(Reason::NoState, 0));
    }
    Ok(())
}

// The two tables that a question names, loaded, and the pair that it asks about.
#[derive(Drop)]
pub struct Loaded {
    pub demand: Machine,
    pub supply: Machine,
    pub start: Pair,
}

impl Loaded {
    // The two machines.
    pub fn sides(&self) -> Sides<'_>
        ensures demand { result.demand.now ≡ self.now.demand }
        ensures supply { result.supply.now ≡ self.now.supply }
    {
        Sides {
            demand: &self.demand,
            supply: &self.supply,
        }
    }
}

// Loads the two tables that a question names. The standing set comes in here, on the supply side alone.
pub fn load_pair(file: &[u8], question: Question) -> Loaded
    requires { pair_checks file.now question ≡ Ok tt }
    ensures { PairLoaded file.now question result }
{
    Loaded {
        demand: Machine::load(file, question.demand.table, 0),
        supply: Machine::load(file, question.supply.table, question.standing),
        start: Pair {
            demand: question.demand.state as u8,
            supply: question.supply.state as u8,
        },
    }
}
