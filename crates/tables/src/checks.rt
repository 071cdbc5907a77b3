// The checks of Open, in document 01's order: header, contents, length, bodies.
ghost use Rattle.std.specs.Prelude.{◌≡◌, ℕ, Err, ◌+◌, ◌*◌, ◌≤◌, ◌<◌, length, take, drop};
ghost use Rattle.tables.specs.Checks.{refuse, scan, ◌then◌};
ghost use Rattle.tables.specs.File.{tables_of, body_length, end_before};
ghost use Rattle.tables.specs.Open.{outside, header_fault, entry_fault, length_fault, row_fault, body_fault, file_fault};
ghost use Rattle.tables.specs.Accepted.{Laid};

use super::reads::Entry;
use super::{Kind, Reason, Refusal, reads};
use rules::{Limits, Row};

fn fault(reason: Reason, place: usize) -> Result<(), Refusal>
    ensures { result ≡ Err (refuse reason place) }
{
    Err(Refusal::new(reason, place))
}

fn is_outside(low: usize, high: usize, x: usize) -> bool
    ensures { result ≡ outside low high x }
{
    x < low || high < x
}

// The count of tables, and room for the contents.
fn check_header(file: &[u8]) -> Result<(), Refusal>
    ensures { result ≡ header_fault file.now }
{
    let len = file.len();
    if len < 2 {
        return fault(Reason::Short, len);
    }
    let k = reads::table_count(file);
    if is_outside(1, Limits::TABLES, k) {
        return fault(Reason::TableCount, 0);
    }
    if len < 2 + 6 * k {
        return fault(Reason::Short, len);
    }
    Ok(())
}

// Contents entry i, whose body has to start at end.
fn check_entry(file: &[u8], i: usize, end: usize) -> Result<(), Refusal>
    requires { (i < 16) × (end ≡ end_before file.now i) }
    ensures { result ≡ entry_fault file.now i }
{
    let at = 2 + 6 * i;
    let entry = reads::entry_at(file, i);
    if Kind::try_from(entry.kind).is_err() {
        return fault(Reason::Kind, at);
    }
    if is_outside(1, Limits::STATES, entry.states as usize) {
        return fault(Reason::StateCount, at + 1);
    }
    if Limits::ROWS < entry.rows as usize {
        return fault(Reason::RowCount, at + 2);
    }
    if entry.offset as usize != end {
        return fault(Reason::Offset, at + 4);
    }
    Ok(())
}

// The file's length, which has to be end.
fn check_length(file: &[u8], end: usize) -> Result<(), Refusal>
    requires { end ≡ end_before file.now (tables_of file.now) }
    ensures { result ≡ length_fault file.now }
{
    let len = file.len();
    if len != end {
        return fault(Reason::Length, len);
    }
    Ok(())
}

// The contents of a file of k tables, and its length. The entries are counted: where one starts goes by its number, and a fault ends the loop by `?`.
fn check_contents(file: &[u8], k: usize) -> Result<(), Refusal>
    requires { (k ≤ 16) × (k ≡ tables_of file.now) }
    ensures { result ≡ (scan (entry_fault file.now) k then length_fault file.now) }
{
    let mut end = 2 + 6 * k;
    for i in 0..k {
        check_entry(file, i, end)?;
        end += reads::entry_at(file, i).body_length();
    }
    check_length(file, end)
}

// Row j of a body that starts at start, in a table of n states.
fn check_row(body: &[u8], n: u8, start: usize, j: usize) -> Result<(), Refusal>
    requires { start + 4 * j < 32866 }
    ensures { result ≡ row_fault body.now n start j }
{
    let at = start + 4 * j;
    let row = reads::row_at(body, j);
    if row.from == Row::FIN {
        return fault(Reason::From, at);
    }
    if n <= row.from {
        return fault(Reason::From, at);
    }
    if n <= row.target {
        return fault(Reason::Target, at + 1);
    }
    if 0 < j {
        let before = reads::row_at(body, j - 1);
        if !before.rises_to(row) {
            return fault(Reason::Order, at);
        }
    }
    Ok(())
}

// The m rows of a body that starts at start, in a table of n states. They are counted, as entries are.
fn check_rows(body: &[u8], n: u8, start: usize, m: usize) -> Result<(), Refusal>
    requires { start + 4 * m ≤ 32866 }
    ensures { result ≡ scan (row_fault body.now n start) m }
{
    for j in 0..m {
        check_row(body, n, start, j)?;
    }
    Ok(())
}

// The body that an entry tells of.
fn check_body_rows(file: &[u8], entry: Entry) -> Result<(), Refusal>
    requires { (entry.offset + body_length entry ≤ length file.now) × (length file.now ≤ 32866) }
    ensures { result ≡ scan (row_fault (take (body_length entry) (drop entry.offset file.now)) entry.states entry.offset) entry.rows }
{
    let body = reads::entry_body(file, entry);
    check_rows(
        body,
        entry.states,
        entry.offset as usize,
        entry.rows as usize,
    )
}

// The bodies of a file of k tables, whose header, contents and length have passed. They are counted, as entries are.
fn check_bodies(file: &[u8], k: usize) -> Result<(), Refusal>
    requires { Laid file.now k }
    ensures { result ≡ scan (body_fault file.now) k }
{
    for i in 0..k {
        check_body_rows(file, reads::entry_at(file, i))?;
    }
    Ok(())
}

// The whole file.
pub(crate) fn check_file(file: &[u8]) -> Result<(), Refusal>
    ensures { result ≡ file_fault file.now }
{
    check_header(file)?;
    let k = reads::table_count(file);
    check_contents(file, k)?;
    check_bodies(file, k)
}
