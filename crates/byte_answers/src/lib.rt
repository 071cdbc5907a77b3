// The answers of the calls that are lent bytes, which are Join, Merge, Graph, `report::write` and Pick, and of those that are lent nothing, which are Open,
// Body, Reach, the readers and the constants, in the lines that the head of `calls_test` tells. What reaches the output no contract states, and the case files
// hold it. Relies on `tables`, `checker`, `picker` and `report` for the calls, on `rules` for the constants, on `input` for what a call takes, on
// `answer_parts` for the parts of an answer and on `output` for lines.
#![tactic(auto)]

use input::Call;
use rules::{Limits, Row};
use tables::Kind;

pub fn open(call: Call) {
    answer_parts::tell_count(tables::open(call.file));
}

pub fn body(call: Call) {
    let table = call.question.demand.table;
    answer_parts::tell(tables::check_body(call.file, table).map(|()| (0, 0, 0)));
    output::numbers(tables::body(call.file, table));
}

pub fn join(call: Call) {
    let first = call.question.demand.table;
    let second = call.question.supply.table;
    let common = call.question.standing;
    answer_parts::bytes(call.length, |out| {
        let found = checker::join(call.file, first, second, common, out);
        answer_parts::tell(found.map(|size| (size.states, size.rows, 0)));
    });
}

pub fn merge(call: Call) {
    let first = call.question.demand.table;
    let second = call.question.supply.table;
    answer_parts::bytes(call.length, |out| {
        let found = checker::merge(call.file, first, second, out);
        answer_parts::tell(found.map(|size| (size.states, size.rows, 0)));
    });
}

pub fn report(call: Call) {
    answer_parts::bytes(
        call.length,
        |out| answer_parts::tell_count(report::write(call.file, out)),
    );
}

pub fn graph(call: Call) {
    answer_parts::bytes(call.length, |out| {
        answer_parts::tell_count(checker::graph(call.file, call.question, out));
    });
}

pub fn pick(call: Call) {
    let demand = call.question.demand.table;
    let standing = call.question.standing;
    answer_parts::bytes(call.length, |out| {
        answer_parts::tell_count(picker::pick(call.file, demand, call.mode, standing, out));
    });
}

pub fn reach(call: Call) {
    let found = checker::reach(call.file, call.question);
    answer_parts::tell(found.map(|it| (it.yes as usize, it.count as usize, 0)));
}

// What the readers of contents entries and of rows find, with the file taken as contents and as a body, and the body that the entry tells of.
pub fn readers(call: Call) {
    let i = call.question.demand.table;
    let entry = tables::entry_at(call.file, i);
    let row = tables::row_at(call.file, i);
    output::numbers(&[
        entry.kind as u16,
        entry.states as u16,
        entry.rows,
        entry.offset,
    ]);
    output::numbers(&[row.from as u16, row.target as u16, row.set]);
    output::numbers(tables::entry_body(call.file, entry));
}

// The constants, in the order in which the case files name them.
pub fn constants() {
    let line = [
        Row::FIN as u16,
        Row::IDLE,
        Row::NO_RESPONSE,
        Kind::Demand.code() as u16,
        Kind::Supply.code() as u16,
        Limits::RESOURCES as u16,
        Limits::STATES as u16,
        Limits::ROWS as u16,
        Limits::TABLES as u16,
        Limits::BYTES as u16,
    ];
    output::numbers(&line);
}
