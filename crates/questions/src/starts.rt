// The states that tables are started from, and the question about two tables, each from its start.
ghost use Rattle.std.specs.Prelude.{◌≡◌};
ghost use Rattle.questions.specs.Starts.{start_side, from_starts};

use crate::{Question, Side};
use rules::Row;
use tables::states_of;

// A table, with the state that it is started from.
fn start_side(file: &[u8], table: usize) -> Side
    ensures { result ≡ start_side file.now table }
{
    if states_of(file, table) == 1 {
        let state = Row::FIN as usize;
        return Side { table, state };
    }
    Side { table, state: 1 }
}

impl Question {
    // What is asked about two tables, each from its start.
    pub fn from_starts(file: &[u8], demand: usize, supply: usize, standing: u16) -> Self
        ensures { result ≡ from_starts file.now demand supply standing }
    {
        Question {
            demand: start_side(file, demand),
            supply: start_side(file, supply),
            standing,
        }
    }
}
