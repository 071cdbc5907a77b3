// Runs `moves::Responses`, which no other program calls, on a state whose moves stand in no table's order, and writes every answer.
// The file `stdout` beside this folder has the answers that are due. Relies on `moves`, and on `io`.
#![tactic(auto)]

ghost use Rattle.std.specs.Prelude.{◌≤◌, length};
ghost use Rattle.machines.specs.Targets.{Low};

use machines::StateSet;
use moves::Responses;
use rules::Move;
use std::fmt::{Result, Write};

// Standard output by `io`, which calls no other C function than `write`.
#[derive(Drop)]
struct Out {}

impl Write for Out {
    fn write_str(&mut self, s: &str) -> Result {
        io::write_all(1, s.as_bytes());
        Ok(())
    }
}

// The sets 3, 1, 4 and 3, which lead to the states 1, 2, 3 and 5.
fn task() -> [Move; 4]
    ensures { Low result }
{
    [
        Move::new(0, 3, 1),
        Move::new(1, 1, 2),
        Move::new(2, 4, 3),
        Move::new(3, 3, 5),
    ]
}

// The sets of the task's moves, each with whether it is maximal.
fn write_sets<const ROOM: usize>(
    out: &mut Out,
    task: &[Move],
    responses: &Responses<ROOM>,
) -> Result {
    for taken in task {
        let word = if responses.is_maximal(taken.set) {
            "yes"
        } else {
            "no"
        };
        write!(out, " {} {word}", taken.set)?;
    }
    Ok(())
}

fn write_targets(out: &mut Out, targets: StateSet) -> Result {
    for target in targets {
        write!(out, " {target}")?;
    }
    Ok(())
}

// The maximal responses to a grant, and where they lead. A set takes two bytes of the room, and a frame has room for so many.
fn write_answers<const ROOM: usize>(out: &mut Out, task: &[Move], grant: u16) -> Result
    requires room { (length task.now ≤ ROOM) × (ROOM ≤ 4611686018427387884) }
    requires low { Low task.now }
{
    let responses = Responses::<ROOM>::collect(task, grant);
    write!(out, "grant {grant}:")?;
    write_sets(out, task, &responses)?;
    write!(out, " targets")?;
    write_targets(out, responses.targets())?;
    writeln!(out)
}

fn answers(out: &mut Out) -> Result {
    let task = task();
    write_answers::<4>(out, &task, 3)?; // 1 is not maximal beside 3, and 4 is not met
    write_answers::<4>(out, &task, 5)?; // neither of 1 and 4 holds the other
    write_answers::<4>(out, &task, 7)?;
    write_answers::<4>(out, &task, 2)?; // none is met
    write_answers::<65536>(out, &task, 3) // more room than moves
}

fn main() {
    let _ = answers(&mut Out {});
}
