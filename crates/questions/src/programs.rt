// What a program asks about a file: its first demand table beside its first supply table, each from its start, with no standing set.
ghost use Rattle.std.specs.Prelude.{◌≡◌};
ghost use Rattle.questions.specs.Questions.{first_found, asked_of};

use crate::Question;
use tables::{Kind, Reason, Refusal, entry_at, open};

// The first table of a kind.
fn first_table(file: &[u8], k: usize, kind: Kind) -> Option<usize>
    ensures { result ≡ first_found file.now kind k }
{
    (0..k).find(|i| entry_at(file, *i).has_kind(kind))
}

// What a program asks about a file.
pub fn ask(file: &[u8]) -> Result<Question, Refusal>
    ensures { result ≡ asked_of file.now }
{
    let found = open(file);
    let Ok(k) = found else {
        return Err(found.unwrap_err());
    };
    let missing = Refusal::new(Reason::WrongKind, 0);
    let demand = first_table(file, k, Kind::Demand).ok_or(missing)?;
    let supply = first_table(file, k, Kind::Supply).ok_or(missing)?;
    Ok(Question::from_starts(file, demand, supply, 0))
}
