// The lines that the program prints, of the numbers in them. Each function puts its piece behind what a writer has written. Relies on `text` for the
// writer, and on `rules` for modes and the numbers of rows.
#![tactic(auto)]

ghost use Rattle.std.specs.Prelude.{◌++◌};
ghost use Rattle.text.specs.Text.{decimal};
ghost use Rattle.text.specs.Writing.{Wrote};
ghost use Rattle.lines.specs.Lines.{refused_line, file_line, start_line, verdict_word, verdict_line, mode_word, row_word, step_line, step_lines};

use rules::{Mode, Row};
use text::Writer;

// Words and a number.
fn put_field(w: &mut Writer, words: &[u8], n: usize)
    ensures { Wrote (words.now ++ decimal n) w.old w.new }
{
    w.put(words);
    w.put_decimal(n);
}

pub fn put_refused(w: &mut Writer, number: usize, place: usize)
    ensures { Wrote (refused_line number place) w.old w.new }
{
    put_field(w, b"refused ", number);
    put_field(w, b" at ", place);
    w.put(b"\n");
}

pub fn put_file(w: &mut Writer, bytes: usize, tables: usize)
    ensures { Wrote (file_line bytes tables) w.old w.new }
{
    put_field(w, b"slots ", bytes);
    put_field(w, b" bytes ", tables);
    w.put(b" tables\n");
}

pub fn put_start(w: &mut Writer, demand: usize, supply: usize, t: usize, s: usize)
    ensures { Wrote (start_line demand supply t s) w.old w.new }
{
    put_field(w, b"demand ", demand);
    put_field(w, b" supply ", supply);
    put_field(w, b" start ", t);
    put_field(w, b" ", s);
    w.put(b"\n");
}

// The word of a mode. What a `Display` writes is promised of a `String`, and there is no heap here.
fn put_mode_word(w: &mut Writer, mode: Mode)
    ensures { Wrote (mode_word mode) w.old w.new }
{
    match mode {
        Mode::Full => w.put(b"full "),
        Mode::Partial => w.put(b"partial "),
    }
}

#[tactic(auto, unfolding(crate::specs::Lines::verdict_word))]
fn put_verdict_word(w: &mut Writer, yes: bool)
    ensures { Wrote (verdict_word yes) w.old w.new }
{
    if yes { w.put(b"yes") } else { w.put(b"no") }
}

pub fn put_verdict(w: &mut Writer, mode: Mode, yes: bool, rounds: u16, kept: u16)
    ensures { Wrote (verdict_line mode yes rounds kept) w.old w.new }
{
    put_mode_word(w, mode);
    put_verdict_word(w, yes);
    put_field(w, b" rounds ", rounds as usize);
    put_field(w, b" kept ", kept as usize);
    w.put(b"\n");
}

// A row's number, or its word.
#[tactic(auto, unfolding(crate::specs::Lines::row_word))]
fn put_row(w: &mut Writer, row: u16)
    ensures { Wrote (row_word row) w.old w.new }
{
    match row {
        Row::IDLE => w.put(b"idle"),
        Row::NO_RESPONSE => w.put(b"none"),
        _ => w.put_decimal(row as usize),
    }
}

fn put_step(w: &mut Writer, supply: u16, task: u16)
    ensures { Wrote (step_line supply task) w.old w.new }
{
    w.put(b"step ");
    put_row(w, supply);
    w.put(b" ");
    put_row(w, task);
    w.put(b"\n");
}

// The steps of a run, supply row and task row of each.
pub fn put_steps(w: &mut Writer, steps: &[u16])
    ensures { Wrote (step_lines steps.now) w.old w.new }
{
    for step in steps.chunks_exact(2) {
        put_step(w, step[0], step[1]);
    }
}
