// Readers of the file's fields. Each is total: a byte past the end is 0. They are open to others and cannot fail, so they give no `Option`.
ghost use Rattle.std.specs.Prelude.{◌≡◌, ◌+◌, ◌*◌, eqb, length};
ghost use Rattle.tables.specs.File.{byte_at, word_at, tables_of, entry_of, body_length, row_of};
ghost use Rattle.tables.specs.Kinds.{code_of};
ghost use Rattle.tables.specs.Part.{PartOf, entry_span};
ghost use Rattle.tables.specs.Tables.{table_of};

use crate::Kind;
use rules::Row;

// A contents entry as the file has it: `kind` is any byte, since Open tells of each whether it is a kind's; `states` is document 01's n, and `rows` its m.
#[derive(Clone, Copy)]
pub struct Entry {
    pub kind: u8,
    pub states: u8,
    pub rows: u16,
    pub offset: u16,
}

impl Entry {
    // How many bytes the body has.
    pub fn body_length(self) -> usize
        ensures { result ≡ body_length self }
    {
        4 * (self.rows as usize)
    }

    // Whether the table is of this kind.
    pub fn has_kind(self, kind: Kind) -> bool
        ensures { result ≡ eqb self.kind (code_of kind) }
    {
        self.kind == kind.code()
    }
}

fn byte(bytes: &[u8], at: usize) -> u8
    ensures { result ≡ byte_at bytes.now at }
{
    bytes.get(at).copied().unwrap_or(0)
}

// The little-endian number of two bytes, of which the second may be past the end.
fn word(bytes: &[u8], at: usize) -> u16
    ensures { result ≡ word_at bytes.now at }
{
    if bytes.len() <= at {
        return 0;
    }
    u16::from_le_bytes([byte(bytes, at), byte(bytes, at + 1)])
}

// The k of a file, the count of its tables.
pub fn table_count(file: &[u8]) -> usize
    ensures { result ≡ tables_of file.now }
{
    word(file, 0) as usize
}

// Contents entry i of a file.
pub fn entry_at(file: &[u8], i: usize) -> Entry
    ensures { result ≡ entry_of file.now i }
{
    if file.len() / 6 < i {
        return Entry {
            kind: 0,
            states: 0,
            rows: 0,
            offset: 0,
        };
    }
    let at = 2 + 6 * i;
    Entry {
        kind: byte(file, at),
        states: byte(file, at + 1),
        rows: word(file, at + 2),
        offset: word(file, at + 4),
    }
}

// The n of table i.
pub fn states_of(file: &[u8], i: usize) -> u8
    ensures { result ≡ (table_of file.now i).n }
{
    entry_at(file, i).states
}

// The part of a file that holds the body of an entry; where the file is shorter, the empty part at its start.
pub fn entry_body(file: &[u8], entry: Entry) -> &[u8]
    ensures { PartOf file.entry result (entry_span (length file.now) entry) }
{
    let start = entry.offset as usize;
    let end = start + entry.body_length();
    if file.len() < end {
        return &file[..0];
    }
    &file[start..end]
}

// Row i of a body; past its rows, a row from FIN to FIN with the empty set.
pub fn row_at(body: &[u8], i: usize) -> Row
    ensures { result ≡ row_of body.now i }
{
    if body.len() / 4 < i {
        return Row::new(Row::FIN, Row::FIN, 0);
    }
    let at = 4 * i;
    Row::new(byte(body, at), byte(body, at + 1), word(body, at + 2))
}
