// The calls about a pair of states and about two tables, as documents 01 and 02 list them. Each opens the file, turns back what must be turned back, loads
// the two tables, and has an engine work out the answer. Nothing is asked of the caller. A file and a question stay two parameters, as the calls list them; a
// question has a standing set too, which the supply grants in every slot. Relies on `rules` for the meaning, on `tables` for the file, on `questions` for
// what turns back a call before its engine runs and for loading the tables of a pair, on `machines` for loading those of a join or a merge, and on the
// engines: `moves` for the surviving moves of a pair, `graphs` for those of all pairs as text, `marks` for the marks of all pairs, `runs` for the run that
// shows a no, `explanations` for the triples that tell why a pair is kept or struck, `reachability` for the pairs that a start can reach, `joins` and
// `merges` for the rows of a join and of a merge.
#![tactic(auto)]

ghost use Rattle.std.specs.Prelude.{◌≡◌, length};
ghost use Rattle.tables.specs.Answers.{counted};
ghost use Rattle.checker.specs.Calls.{decided, reached, sized};
ghost use Rattle.checker.specs.Moves.{moves_answer, moves_slice};
ghost use Rattle.checker.specs.Graph.{graph_answer, graph_slice, GraphDemands};
ghost use Rattle.checker.specs.Decide.{decide_answer, decide_slice};
ghost use Rattle.checker.specs.Run.{run_answer, run_marks, run_steps};
ghost use Rattle.checker.specs.Explain.{explain_answer, explain_marks, explain_triples};
ghost use Rattle.checker.specs.Reach.{reach_answer, ReachDemands};
ghost use Rattle.checker.specs.Demands.{MovesDemands, DecideDemands, RunDemands, ExplainDemands};
ghost use Rattle.checker.specs.Join.{join_answer, join_slice, JoinDemands};
ghost use Rattle.checker.specs.Merge.{merge_answer, merge_slice, MergeDemands};

use machines::Machine;
use questions::{check_decision, check_operands, check_pair, load_pair, mode_of};
pub use questions::{Question, Side};
use rules::Limits;
use tables::{Kind, Reason, Refusal};

// What Decide finds: yes or no for the start pair, the count kept, and rounds.
#[derive(Clone, Copy)]
pub struct Verdict {
    pub yes: bool,
    pub kept: u16,
    pub rounds: u16,
}

// What Reach finds: yes or no for the start pair, and how many pairs it can reach, itself included; 0 on a no.
#[derive(Clone, Copy)]
pub struct Reached {
    pub yes: bool,
    pub count: u16,
}

// How large a table is: `states` is document 01's n, and `rows` its m.
#[derive(Clone, Copy)]
pub struct TableSize {
    pub states: usize,
    pub rows: usize,
}

// Moves of a pair: left, consumed, unmet, demand target and supply target of each surviving move.
pub fn moves(file: &[u8], question: Question, out: &mut [u16]) -> Result<usize, Refusal>
    ensures answer { counted result ≡ moves_answer file.now question (length out.old) }
    ensures slice { out.new ≡ moves_slice file.now question out.old }
    ensures demands { MovesDemands file.now question (counted result) out.new }
{
    check_pair(file, question)?;
    let loaded = load_pair(file, question);
    let sides = loaded.sides();
    let count = moves::count(sides, loaded.start);
    if out.len() / moves::ENTRIES_PER_MOVE < count {
        return Err(Refusal::new(Reason::NoRoom, 0));
    }
    moves::write(sides, loaded.start, out);
    Ok(count)
}

// Graph: the surviving moves of all pairs of states as .aut text for a viewer, with the question's pair as its start.
pub fn graph(file: &[u8], question: Question, out: &mut [u8]) -> Result<usize, Refusal>
    ensures answer { counted result ≡ graph_answer file.now question (length out.old) }
    ensures slice { out.new ≡ graph_slice file.now question out.old }
    ensures demands { GraphDemands file.now question (counted result) out.new }
{
    check_pair(file, question)?;
    let loaded = load_pair(file, question);
    let sides = loaded.sides();
    let extent = graphs::measure(sides, loaded.start);
    if out.len() < extent.bytes {
        return Err(Refusal::new(Reason::NoRoom, 0));
    }
    graphs::write(sides, loaded.start, extent.lines, out);
    Ok(extent.bytes)
}

// Decide: the marks of all pairs of states, by mode 0 (full) or 1 (partial), and what they say of the start pair. Modes are numbers here, since a caller
// may pass any: 15 turns back another.
pub fn decide(
    file: &[u8],
    question: Question,
    mode: usize,
    marks: &mut [u16],
) -> Result<Verdict, Refusal>
    ensures answer { decided result ≡ decide_answer file.now question mode (length marks.old) }
    ensures slice { marks.new ≡ decide_slice file.now question mode marks.old }
    ensures demands { DecideDemands file.now question mode (decided result) marks.new }
{
    check_decision(file, question, mode)?;
    let loaded = load_pair(file, question);
    let sides = loaded.sides();
    if marks.len() < sides.pairs() {
        return Err(Refusal::new(Reason::NoRoom, 0));
    }
    let summary = marks::write(sides, mode_of(mode), marks);
    Ok(Verdict {
        yes: marks::mark_of(&loaded.supply, marks, loaded.start) == 0,
        kept: summary.kept,
        rounds: summary.rounds,
    })
}

// Run: the marks as Decide writes them, and the steps of the run from the start pair, supply row and task row of each. The mode is a number, as of Decide.
pub fn run(
    file: &[u8],
    question: Question,
    mode: usize,
    marks: &mut [u16],
    steps: &mut [u16],
) -> Result<usize, Refusal>
    ensures answer { counted result ≡ run_answer file.now question mode (length marks.old) (length steps.old) }
    ensures marks { marks.new ≡ run_marks file.now question mode marks.old (length steps.old) }
    ensures steps { steps.new ≡ run_steps file.now question mode (length marks.old) steps.old }
    ensures demands { RunDemands file.now question mode (counted result) marks.new steps.new }
{
    check_decision(file, question, mode)?;
    let loaded = load_pair(file, question);
    let sides = loaded.sides();
    let pairs = sides.pairs();
    if marks.len() < pairs {
        return Err(Refusal::new(Reason::NoRoom, 0));
    }
    if steps.len() < 2 * pairs {
        return Err(Refusal::new(Reason::NoRoom, 0));
    }
    let count = runs::write(sides, mode_of(mode), loaded.start, marks, steps);
    Ok(count as usize)
}

// Explain: the marks as Decide writes them, and the triples that tell why the pair is kept or struck: supply row, task row, and the mark of the pair that
// they lead to. Whether there is room for the triples is known only once the marks are, so the marks are made in an array of the call's own, and copied
// then.
pub fn explain(
    file: &[u8],
    question: Question,
    mode: usize,
    marks: &mut [u16],
    triples: &mut [u16],
) -> Result<usize, Refusal>
    ensures answer { counted result ≡ explain_answer file.now question mode (length marks.old) (length triples.old) }
    ensures marks { marks.new ≡ explain_marks file.now question mode marks.old (length triples.old) }
    ensures triples { triples.new ≡ explain_triples file.now question mode (length marks.old) triples.old }
    ensures demands { ExplainDemands file.now question mode (counted result) marks.new triples.new }
{
    check_decision(file, question, mode)?;
    let loaded = load_pair(file, question);
    let sides = loaded.sides();
    let pairs = sides.pairs();
    if marks.len() < pairs {
        return Err(Refusal::new(Reason::NoRoom, 0));
    }
    let mode = mode_of(mode);
    let mut made = [0u16; Limits::PAIRS];
    marks::write(sides, mode, &mut made);
    let entries = explanations::write(sides, mode, loaded.start, &made, &mut []);
    if triples.len() < entries {
        return Err(Refusal::new(Reason::NoRoom, 0));
    }
    marks[..pairs].copy_from_slice(&made[..pairs]);
    explanations::write(sides, mode, loaded.start, &made, triples);
    Ok(entries / explanations::ENTRIES_PER_TRIPLE)
}

// Reach: what Decide says in full mode, by following surviving moves from the start pair alone, and on a yes how many pairs are reached.
pub fn reach(file: &[u8], question: Question) -> Result<Reached, Refusal>
    ensures answer { reached result ≡ reach_answer file.now question }
    ensures demands { ReachDemands file.now question (reached result) }
{
    check_pair(file, question)?;
    let loaded = load_pair(file, question);
    let count = reachability::count(loaded.sides(), loaded.start);
    Ok(Reached {
        yes: count.is_some(),
        count: count.unwrap_or(0),
    })
}

// Join: two demand tables, perhaps the same one, as one table whose states are the pairs of their states. Two moves that share a resource which is not
// common are barred. The body is written.
pub fn join(
    file: &[u8],
    first: usize,
    second: usize,
    common: u16,
    out: &mut [u8],
) -> Result<TableSize, Refusal>
    ensures answer { sized result ≡ join_answer file.now first second common (length out.old) }
    ensures slice { out.new ≡ join_slice file.now first second common out.old }
    ensures demands { JoinDemands file.now first second common (sized result) out.new }
{
    check_operands(file, Kind::Demand, first, second)?;
    let first_machine = Machine::load(file, first, 0);
    let second_machine = Machine::load(file, second, 0);
    let states = first_machine.pairs_with(&second_machine);
    let rows = joins::write(&first_machine, &second_machine, common, out)?;
    Ok(TableSize { states, rows })
}

// Merge: two supply tables, perhaps the same one, as one table whose states are the pairs of their states. Two rows that share a resource give none, and a row
// of a pair without FIN leads to a live pair. The body is written.
pub fn merge(file: &[u8], first: usize, second: usize, out: &mut [u8]) -> Result<TableSize, Refusal>
    ensures answer { sized result ≡ merge_answer file.now first second (length out.old) }
    ensures slice { out.new ≡ merge_slice file.now first second out.old }
    ensures demands { MergeDemands file.now first second (sized result) out.new }
{
    check_operands(file, Kind::Supply, first, second)?;
    let first_machine = Machine::load(file, first, 0);
    let second_machine = Machine::load(file, second, 0);
    let states = first_machine.pairs_with(&second_machine);
    let rows = merges::write(&first_machine, &second_machine, out)?;
    Ok(TableSize { states, rows })
}
