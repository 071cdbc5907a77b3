// Reads questions from standard input until its end, makes the call that each of them names, and writes what it answers and what the lent slices hold
// afterwards. The case files and the comparison below `tests` ask it many questions in one run. Relies on `input` for questions, on `word_answers` and
// `byte_answers` for the answers to them, on `output` for the line that ends one, and on `io`.
//
// A question is its length, then a head of nine numbers, then a file; the length is that of the head and the file. Numbers have 8 bytes and are
// little-endian. The head:
//   0 operation: 0 Open, 1 Body, 2 Moves of a pair, 3 Decide, 4 Run, 5 Join, 6 `report::write`, 7 the readers, 8 the constants, 9 Graph, 10 Explain,
//     11 Pick, 12 Reach, 13 Merge
//   1 mode
//   2 first table (the demand; for the readers the number of entry and row)    3 its state    4 second table (the supply)    5 its state
//   6 entries of the first lent slice (of Join, Merge, `report::write`, Graph and Pick: bytes)    7 entries of the second
//   8 a set of resources, of which the lowest 16 bits are read: the standing set of Moves of a pair, Decide, Run, Graph, Explain, Pick and Reach, the
//     common resources of Join
// The first line of an answer is the number and the place, 0 and 0 where the call is carried out, and three values that it returns, 0 where there are
// fewer. The lines after it are the slices, every entry of them: two for Moves of a pair, Decide, Run and Explain, of which Run and Explain are lent the
// second; one of bytes for Join, Merge, `report::write`, Graph and Pick; for Body the bytes of the part that it returns; none for Open and Reach. What slices
// hold before the call: `entry_before` and `byte_before` of `answer_parts`. The readers answer with a line for the entry, one for the row and one for the
// bytes of the entry's body, the constants with one line. A line with a single point ends each answer, and is all of it for a question shorter than a head, for
// another operation, and where a slice is to have more entries than `ROOM` of `answer_parts`. A question that is longer than `LONGEST`, or that the input
// ends in, ends the program.
#![tactic(auto)]

use input::{Call, Operation};

// The longest question.
const LONGEST: usize = 65535;

// More questions than are ever asked: a loop has to end.
const QUESTIONS: u64 = u64::MAX;

fn answer(call: Call) {
    match call.operation {
        Operation::Open => byte_answers::open(call),
        Operation::Body => byte_answers::body(call),
        Operation::Moves => word_answers::moves(call),
        Operation::Decide => word_answers::decide(call),
        Operation::Run => word_answers::run(call),
        Operation::Join => byte_answers::join(call),
        Operation::Report => byte_answers::report(call),
        Operation::Readers => byte_answers::readers(call),
        Operation::Constants => byte_answers::constants(),
        Operation::Graph => byte_answers::graph(call),
        Operation::Explain => word_answers::explain(call),
        Operation::Pick => byte_answers::pick(call),
        Operation::Reach => byte_answers::reach(call),
        Operation::Merge => byte_answers::merge(call),
    }
}

// Reads and answers the next question; None where there is none. The room stands first: behind another statement it was
// cleared twice, as measured.
fn answer_next() -> Option<()> {
    let mut room = [0u8; LONGEST];
    let length = input::next_length()?;
    let asked = room.get_mut(..length)?;
    if io::read_full(0, asked) < length {
        return None;
    }
    if let Some(call) = Call::read(asked) {
        answer(call);
    }
    output::end_answer();
    Some(())
}

fn main() {
    for _ in 0..QUESTIONS {
        if answer_next().is_none() {
            break;
        }
    }
}
