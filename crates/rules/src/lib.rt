// The vocabulary of tables: rows, moves, pairs of states, the two modes, the limits, and the operations on sets of resources; and the meaning of it all.
// Specs: sets of any width, machines, PADS, the surviving moves of a pair, the two relations, rounds and marks, runs, the steps that show a no, the
// triples that tell why a pair is kept or struck, joins, and the worked examples. Their theorems stand in proofs/. Relies on nothing.
#![tactic(auto)]

ghost use Rattle.std.specs.Prelude.{◌≡◌};
ghost use Rattle.rules.specs.Sets.{difference, shares_outside, left, consumed, unmet, inside, larger};
ghost use Rattle.rules.specs.Rows.{row, move, idle, pair, rises};
ghost use Rattle.rules.specs.Moves.{left_of, consumed_of, unmet_of};

// The limits of document 01: resources in a set, states and rows of a table, tables and bytes of a file.
#[derive(Drop)]
pub struct Limits {}

impl Limits {
    pub const RESOURCES: usize = 16;

    pub const STATES: usize = 64;

    // Pairs of states of two tables.
    pub const PAIRS: usize = Self::STATES * Self::STATES;

    pub const ROWS: usize = 512;

    pub const TABLES: usize = 16;

    pub const BYTES: usize = 32866;
}

// What is asked of the maximal responses to a supply move: full, every one leads to a kept pair; partial, at least one does.
#[derive(Clone, Copy)]
pub enum Mode {
    Full,
    Partial,
}

// A row of a table: in state `from`, the set is requested or granted, and the table goes to state `target`.
#[derive(Clone, Copy, Default, PartialEq, Eq, PartialOrd, Ord)]
pub struct Row {
    pub from: u8,
    pub set: u16,
    pub target: u8,
}

impl Row {
    // The state that every table has, and that no row leaves.
    pub const FIN: u8 = 0;

    // The number of FIN's idle row.
    pub const IDLE: u16 = 65535;

    // The number that stands for a row where there is none: no task row responds, or the supply is stuck.
    pub const NO_RESPONSE: u16 = 65534;

    pub fn new(from: u8, target: u8, set: u16) -> Self
        ensures { result ≡ row from target set }
    {
        Row { from, target, set }
    }

    // Whether `next` stands above this row: by from, then set, then target. The derived order says the same; this is the name of document 01's word.
    pub fn rises_to(self, next: Row) -> bool
        ensures { result ≡ rises self next }
    {
        self < next
    }
}

// A move of a state: the number of its row, the row's set, and the state that it leads to.
#[derive(Clone, Copy, Default)]
pub struct Move {
    pub row: u16,
    pub set: u16,
    pub target: u8,
}

impl Move {
    pub fn new(row: u16, set: u16, target: u8) -> Self
        ensures { result ≡ move row set target }
    {
        Move { row, set, target }
    }

    // The one move of FIN.
    pub fn idle() -> Self
        ensures { result ≡ idle }
    {
        Move::new(Row::IDLE, 0, Row::FIN)
    }
}

// A move of a pair of states: one of the task and one of the supply.
#[derive(Clone, Copy)]
pub struct Candidate {
    pub task: Move,
    pub supply: Move,
}

#[tactic(auto, unfolding(crate::specs::Moves::left_of, crate::specs::Moves::consumed_of, crate::specs::Moves::unmet_of))]
impl Candidate {
    // The pair that it leads to.
    pub fn target(self) -> Pair
        ensures { result ≡ pair self.task.target self.supply.target }
    {
        Pair {
            demand: self.task.target,
            supply: self.supply.target,
        }
    }

    // What is granted and not requested.
    pub fn left(self) -> u16
        ensures { result ≡ left_of self }
    {
        left(self.task.set, self.supply.set)
    }

    // What is requested and granted.
    pub fn consumed(self) -> u16
        ensures { result ≡ consumed_of self }
    {
        consumed(self.task.set, self.supply.set)
    }

    // What is requested and not granted.
    pub fn unmet(self) -> u16
        ensures { result ≡ unmet_of self }
    {
        unmet(self.task.set, self.supply.set)
    }
}

// A pair of states: one of the demand, one of the supply.
#[derive(Clone, Copy, Default)]
pub struct Pair {
    pub demand: u8,
    pub supply: u8,
}

// What tells why a pair is kept or struck: a supply row, a task row, and the mark of the pair that they lead to.
#[derive(Clone, Copy)]
pub struct Triple {
    pub supply: u16,
    pub task: u16,
    pub mark: u16,
}

// Whether every resource of a is in b.
pub fn is_inside(a: u16, b: u16) -> bool
    ensures { result ≡ inside a b }
{
    a & b == a
}

// Whether a is strictly larger than b: b is inside a, and is not a.
pub fn is_larger(a: u16, b: u16) -> bool
    ensures { result ≡ larger a b }
{
    if a == b { false } else { is_inside(b, a) }
}

// Whether a and b share a resource outside the common ones.
pub fn shares_outside(common: u16, a: u16, b: u16) -> bool
    ensures { result ≡ shares_outside common a b }
{
    !is_inside(a & b, common)
}

// The resources of a that are not in b.
fn without(a: u16, b: u16) -> u16
    ensures { result ≡ difference a b }
{
    a - (a & b)
}

// What is granted and not requested.
pub fn left(requested: u16, granted: u16) -> u16
    ensures { result ≡ left requested granted }
{
    without(granted, requested)
}

// What is requested and granted.
pub fn consumed(requested: u16, granted: u16) -> u16
    ensures { result ≡ consumed requested granted }
{
    requested & granted
}

// What is requested and not granted.
pub fn unmet(requested: u16, granted: u16) -> u16
    ensures { result ≡ unmet requested granted }
{
    without(requested, granted)
}
