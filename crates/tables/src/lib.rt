// The file of tables: opening it, the body of a table, and the readers of k, of contents entries, of a table's n and of body rows. All are total.
// What an accepted file guarantees is `Accepted` in specs, shown in proofs/AcceptedLaws. Relies on `rules` for rows and limits.
#![tactic(auto)]

ghost use Rattle.std.specs.Prelude.{[], ◌≡◌};
ghost use Rattle.tables.specs.Checks.{refuse};
ghost use Rattle.tables.specs.Answers.{number_of, answer, counted};
ghost use Rattle.tables.specs.Open.{open_of};
ghost use Rattle.tables.specs.Part.{PartOf};
ghost use Rattle.tables.specs.Body.{number_fault, body_checks, body_answer, body_span};

mod checks;
mod kinds;
mod reads;

pub use kinds::{Kind, UnknownKind};
pub use reads::{Entry, entry_at, entry_body, row_at, states_of, table_count};

// Why a call is turned back: the numbers are those of documents 01 and 02.
#[derive(Clone, Copy, PartialEq, Eq)]
pub enum Reason {
    Short = 1,
    TableCount = 2,
    Kind = 3,
    StateCount = 4,
    RowCount = 5,
    Offset = 6,
    Length = 7,
    From = 8,
    Target = 9,
    Order = 10,
    NoTable = 11,
    WrongKind = 12,
    NoState = 13,
    NoRoom = 14,
    NoMode = 15,
    TooManyStates = 16,
    TooManyRows = 17,
}

impl Reason {
    // The number that a caller is told. A method says which number it is, where `u8::from` would not.
    pub fn number(self) -> u8
        ensures { result ≡ number_of self }
    {
        self as u8
    }
}

// What a call that is turned back returns: the reason, and the place at fault.
#[derive(Clone, Copy, PartialEq, Eq)]
pub struct Refusal {
    pub reason: Reason,
    pub place: usize,
}

impl Refusal {
    pub fn new(reason: Reason, place: usize) -> Self
        ensures { result ≡ refuse reason place }
    {
        Refusal { reason, place }
    }
}

// Opens a file, and returns the count of its tables.
pub fn open(file: &[u8]) -> Result<usize, Refusal>
    ensures { counted result ≡ open_of file.now }
{
    checks::check_file(file)?;
    Ok(table_count(file))
}

// Whether a number is that of one of k tables.
pub fn check_number(k: usize, table: usize) -> Result<(), Refusal>
    ensures { result ≡ number_fault k table }
{
    if k <= table {
        return Err(Refusal::new(Reason::NoTable, 0));
    }
    Ok(())
}

// Why a call of `body` on the same inputs is turned back. `let .. else` takes the count of tables from Open's answer, here and in `questions::ask`; all other
// calls open the file by this function.
pub fn check_body(file: &[u8], table: usize) -> Result<(), Refusal>
    ensures checks { result ≡ body_checks file.now table }
    ensures answer { answer result [] ≡ body_answer file.now table }
{
    let found = open(file);
    let Ok(k) = found else {
        return Err(found.unwrap_err());
    };
    check_number(k, table)
}

// The part of the file that holds the body of a table; turned back, the empty part at the file's start.
pub fn body(file: &[u8], table: usize) -> &[u8]
    ensures { PartOf file.entry result (body_span file.now table) }
{
    if check_body(file, table).is_err() {
        return &file[..0];
    }
    reads::entry_body(file, entry_at(file, table))
}
