// The answers of the calls that are lent 16-bit numbers: Moves of a pair, Decide, Run and Explain, in the lines that the head of `calls_test` tells. What
// reaches the output no contract states, and the case files hold it. Relies on `checker` for the calls, on `input` for what a call takes, and on
// `answer_parts` for the parts of an answer.
#![tactic(auto)]

use input::Call;

pub fn moves(call: Call) {
    answer_parts::entries(call.length, call.second_length, |out, _| {
        answer_parts::tell_count(checker::moves(call.file, call.question, out));
    });
}

pub fn decide(call: Call) {
    answer_parts::entries(call.length, call.second_length, |marks, _| {
        let found = checker::decide(call.file, call.question, call.mode, marks);
        answer_parts::tell(found.map(|it| (it.yes as usize, it.kept as usize, it.rounds as usize)));
    });
}

pub fn run(call: Call) {
    answer_parts::entries(call.length, call.second_length, |marks, steps| {
        answer_parts::tell_count(checker::run(call.file, call.question, call.mode, marks, steps));
    });
}

pub fn explain(call: Call) {
    answer_parts::entries(call.length, call.second_length, |marks, triples| {
        answer_parts::tell_count(checker::explain(
            call.file,
            call.question,
            call.mode,
            marks,
            triples,
        ));
    });
}
