// Reach for a program in another language: the call that `bench/` measures beside the C functions of `exports`, of which none makes it. Nothing is asked of
// the caller. Relies on `checker` for the call.
#![tactic(auto)]

ghost use Rattle.std.specs.Prelude.{◌≡◌};
ghost use Rattle.checker.specs.Reach.{reach_answer};
ghost use Rattle.bench_calls.specs.Packed.{asked, packed};

use checker::{Question, Side};

// Reach, from the same state of both tables and with nothing standing: its answer as one number.
#[unsafe(no_mangle)]
pub extern "C" fn bench_reach(file: &[u8], demand: usize, supply: usize, state: usize) -> u64
    ensures { result ≡ packed (reach_answer file.now (asked demand supply state)) }
{
    let question = Question {
        demand: Side {
            table: demand,
            state,
        },
        supply: Side {
            table: supply,
            state,
        },
        standing: 0,
    };
    match checker::reach(file, question) {
        Ok(found) => found.yes as u64 * 65536 + found.count as u64 * 4294967296,
        Err(refusal) => refusal.reason.number() as u64,
    }
}
