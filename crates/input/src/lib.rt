// Questions on standard input, for a program that answers them: the length in front of a question, and the call that its head names, with the file. What
// the input gives no contract states, and the case files hold it. Relies on `questions` for what a question about a pair is, and on `io`.
#![tactic(auto)]

ghost use Rattle.std.specs.Prelude.{◌≡◌};
ghost use Rattle.input.specs.Calls.{number, low_set, side, asked_of, told};

mod operations;

pub use operations::{Operation, UnknownOperation};
use questions::{Question, Side};

// The bytes of a head.
const HEAD: usize = 72;

// A call that is asked for, with what it takes: the mode's number, which may be any, a question, the lengths of the lent slices, and the file. A join takes
// the question's two tables, and its set as the common one; a merge the tables alone; the picker the demand's table and the set.
#[derive(Clone, Copy)]
pub struct Call<'a> {
    pub operation: Operation,
    pub mode: usize,
    pub question: Question,
    pub length: usize,
    pub second_length: usize,
    pub file: &'a [u8],
}

// The length of the next question; None where the input ends.
pub fn next_length() -> Option<usize> {
    let mut length = [0u8; 8];
    if io::read_full(0, &mut length) < 8 {
        return None;
    }
    Some(usize::from_le_bytes(length))
}

// The number in eight bytes.
fn number(bytes: &[u8; 8]) -> usize
    ensures { result ≡ number bytes.now }
{
    usize::from_le_bytes(*bytes)
}

// The set of resources in the lowest two of eight bytes.
fn low_set(bytes: &[u8; 8]) -> u16
    ensures { result ≡ low_set bytes.now }
{
    let [low, high, ..] = *bytes;
    u16::from_le_bytes([low, high])
}

// A side of a question, by the bytes of its numbers.
fn side(table: &[u8; 8], state: &[u8; 8]) -> Side
    ensures { result ≡ side table.now state.now }
{
    Side {
        table: number(table),
        state: number(state),
    }
}

impl<'a> Call<'a> {
    // The call that a question names; None where the question is shorter than a head, or for another operation.
    pub fn read(asked: &'a [u8]) -> Option<Self>
        ensures { told result ≡ asked_of asked.now }
    {
        let (head, file) = asked.split_at_checked(HEAD)?;
        let [
            operation,
            mode,
            table,
            state,
            second_table,
            second_state,
            length,
            second_length,
            set,
        ] = head.as_chunks::<8>().0
        else {
            return None;
        };
        Some(Call {
            operation: Operation::try_from(number(operation)).ok()?,
            mode: number(mode),
            question: Question {
                demand: side(table, state),
                supply: side(second_table, second_state),
                standing: low_set(set),
            },
            length: number(length),
            second_length: number(second_length),
            file,
        })
    }
}
