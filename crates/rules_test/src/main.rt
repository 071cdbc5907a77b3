// Runs the operations of `rules` on the sets of document 01's worked moves and on edges, and writes every answer.
// The file `stdout` beside this folder has the answers that are due. Relies on `rules` and on `io`.
#![tactic(auto)]

use rules::{Move, Row};
use std::fmt;
use std::fmt::{Result, Write};

// Standard output by `io`, which calls no other C function than `write`. What cannot be written is missed in the output, and what follows is written still.
#[derive(Drop)]
struct Out {}

impl Write for Out {
    fn write_str(&mut self, s: &str) -> Result {
        io::write_all(1, s.as_bytes());
        Ok(())
    }
}

// A row as its numbers.
#[derive(Drop)]
struct RowText(Row);

impl fmt::Display for RowText {
    fn fmt<W: Write>(&self, f: &mut fmt::Formatter<W>) -> Result {
        let Row { from, set, target } = self.0;
        write!(f, "{from} {target} {set}")
    }
}

fn word(yes: bool) -> &'static str {
    if yes { "yes" } else { "no" }
}

// A requested and a granted set, combined and compared.
fn sets(out: &mut Out, requested: u16, granted: u16) -> Result {
    let left = rules::left(requested, granted);
    let consumed = rules::consumed(requested, granted);
    let unmet = rules::unmet(requested, granted);
    let inside = word(rules::is_inside(requested, granted));
    let larger = word(rules::is_larger(requested, granted));
    writeln!(
        out,
        "requested {requested} granted {granted}: left {left} consumed {consumed} unmet {unmet} inside {inside} larger {larger}"
    )
}

fn rows(out: &mut Out, first: Row, second: Row) -> Result {
    let rises = word(first.rises_to(second));
    writeln!(
        out,
        "row {} row {}: rises {rises}",
        RowText(first),
        RowText(second)
    )
}

// Document 01's file E, pair (1, 1): left, consumed and unmet 2 1 0 and 1 2 0; pair (1, 0): 0 0 1 and 0 0 2.
fn worked_moves(out: &mut Out) -> Result {
    sets(out, 1, 3)?;
    sets(out, 2, 3)?;
    sets(out, 1, 0)?;
    sets(out, 2, 0)
}

fn edges(out: &mut Out) -> Result {
    sets(out, 0, 0)?;
    sets(out, 0, 65535)?;
    sets(out, 65535, 0)?;
    sets(out, 65535, 65535)?;
    sets(out, 32768, 65535)?;
    sets(out, 65535, 32767)?;
    sets(out, 1, 6)?; // {0} and {1, 2}: neither holds the other
    sets(out, 6, 1)?;
    sets(out, 7, 6)?; // strictly larger
    sets(out, 5, 3)
}

fn orders(out: &mut Out) -> Result {
    rows(out, Row::new(1, 2, 3), Row::new(1, 2, 3))?; // equal
    rows(out, Row::new(1, 9, 9), Row::new(2, 0, 0))?; // by from
    rows(out, Row::new(2, 0, 0), Row::new(1, 9, 9))?;
    rows(out, Row::new(1, 9, 3), Row::new(1, 0, 4))?; // by set
    rows(out, Row::new(1, 0, 4), Row::new(1, 9, 3))?;
    rows(out, Row::new(1, 2, 3), Row::new(1, 3, 3))?; // by target
    rows(out, Row::new(1, 3, 3), Row::new(1, 2, 3))
}

fn show_move(out: &mut Out, word: &str, found: Move) -> Result {
    let Move { row, set, target } = found;
    writeln!(out, "{word} {row} {set} {target}")
}

fn answers(out: &mut Out) -> Result {
    worked_moves(out)?;
    edges(out)?;
    orders(out)?;
    show_move(out, "idle move", Move::idle())?;
    show_move(out, "move", Move::new(7, 65535, 63))
}

fn main() {
    let _ = answers(&mut Out {});
}
