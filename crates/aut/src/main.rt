// The program for the viewer: reads standard input as a file of tables, and writes the graph of its first demand table beside its first supply table as
// .aut text. Relies on `questions` for what is asked about the file, on `checker` for the text, on `lines` for the line of a refusal, on `rules` for the
// limit, and on `io`. What it prints is held to the file `stdout` beside this folder, for the file `stdin`.
#![tactic(auto)]

ghost use Rattle.std.specs.Prelude.{◌≡◌, length};
ghost use Rattle.rules.specs.Slices.{overwrite};
ghost use Rattle.aut.specs.Aut.{refusal_text, graph_printed, aut_text, Printed};

use checker::Question;
use lines::put_refused;
use questions::ask;
use rules::Limits;
use tables::Refusal;
use text::Writer;

// There is room for texts of 4 MiB.
const ROOM: usize = 4194304;

fn put_refusal(refusal: Refusal, out: &mut [u8; ROOM]) -> usize
    ensures count { result ≡ length (refusal_text refusal) }
    ensures bytes { out.new ≡ overwrite (refusal_text refusal) out.old }
{
    let mut w = Writer::new(out);
    put_refused(&mut w, refusal.reason.number() as usize, refusal.place);
    w.at()
}

fn put_graph(file: &[u8], question: Question, out: &mut [u8; ROOM]) -> usize
    ensures { Printed (graph_printed file.now question (length out.old)) out.old result out.new }
{
    match checker::graph(file, question, out) {
        Ok(count) => count,
        Err(refusal) => put_refusal(refusal, out),
    }
}

// Makes the text for a file in the buffer, and returns its length.
fn put_text(file: &[u8], out: &mut [u8; ROOM]) -> usize
    ensures { Printed (aut_text file.now (length out.old)) out.old result out.new }
{
    match ask(file) {
        Ok(question) => put_graph(file, question, out),
        Err(refusal) => put_refusal(refusal, out),
    }
}

// Makes the text in the buffer, and has all of it written out. Returns its length.
fn print(file: &[u8], out: &mut [u8; ROOM]) -> usize
    ensures { Printed (aut_text file.now (length out.old)) out.old result out.new }
{
    let count = put_text(file, out);
    io::write_all(1, &out[..count]);
    count
}

// A buffer with that room.
fn buffer() -> [u8; ROOM] {
    [0; ROOM]
}

// One byte more than the largest file is read, so that a longer one is turned back too.
fn main() {
    let mut input = [0u8; Limits::BYTES + 1];
    let n = io::read_full(0, &mut input);
    let mut out = buffer();
    print(&input[..n], &mut out);
}
