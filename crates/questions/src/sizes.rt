// Two tables of one kind that are to be made one: what turns a join or a merge back before its rows are built, last of all by how many states it would have.
ghost use Rattle.std.specs.Prelude.{◌≡◌};
ghost use Rattle.questions.specs.Sizes.{size_checks};

use crate::named::{Named, check_named};
use rules::Limits;
use tables::{Kind, Reason, Refusal, states_of};

// What turns back a join of two demands, or a merge of two supplies, before its rows are built.
pub fn check_operands(file: &[u8], kind: Kind, first: usize, second: usize) -> Result<(), Refusal>
    ensures { result ≡ size_checks kind file.now first second }
{
    let first_named = Named { table: first, kind };
    let second_named = Named {
        table: second,
        kind,
    };
    check_named(file, first_named, second_named)?;
    let states = states_of(file, first) as usize * states_of(file, second) as usize;
    if Limits::STATES < states {
        return Err(Refusal::new(Reason::TooManyStates, 0));
    }
    Ok(())
}
