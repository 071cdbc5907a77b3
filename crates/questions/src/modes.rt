// Questions about a pair of states in a mode: what turns them back, and the mode that a number names.
ghost use Rattle.std.specs.Prelude.{◌≡◌, ◌≤◌};
ghost use Rattle.questions.specs.Modes.{mode_of, mode_fault, mode_checks};

use crate::{Question, check_pair};
use rules::Mode;
use tables::{Reason, Refusal};

// Whether a number is that of a mode; a caller may pass any.
pub fn check_mode(mode: usize) -> Result<(), Refusal>
    ensures { result ≡ mode_fault mode }
{
    if 1 < mode {
        return Err(Refusal::new(Reason::NoMode, 0));
    }
    Ok(())
}

// What turns back a question about a pair in a mode.
pub fn check_decision(file: &[u8], question: Question, mode: usize) -> Result<(), Refusal>
    ensures { result ≡ mode_checks file.now question mode }
{
    check_pair(file, question)?;
    check_mode(mode)
}

// The mode with a number: 0 full, 1 partial. It has an answer for every number, as a `TryFrom` would not: nothing turns back a number that is checked.
pub fn mode_of(number: usize) -> Mode
    ensures { result ≡ mode_of number }
{
    if number == 0 {
        return Mode::Full;
    }
    Mode::Partial
}

// The number of a mode; the name says so, where `usize::from` would not.
#[tactic(auto, unfolding(crate::specs::Modes::mode_of))]
pub fn number_of(mode: Mode) -> usize
    ensures mode { mode_of result ≡ mode }
    ensures few { result ≤ 1 }
{
    mode as usize
}
