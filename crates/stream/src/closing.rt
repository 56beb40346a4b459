// How a run of the program ends, and the line that says so.
use lines::{Output, print_answer, print_ending};
use record::Answer;
use record_log::Cut;
use std::io::Print;

// What a run ends with: the answer to limits that cannot be, what stands behind the last record of the log, or a read that failed. Each is printed
// in its own way, and none is an error to be handed on.
#[derive(Clone, Copy)]
pub enum Ending {
    Limits(Answer),
    Log(Cut),
    Unread,
}

// Prints the last line of a run: the answer, `end` or 10. After a read that failed there is none.
pub fn print_closing<P: Print>(out: &mut Output<P>, ending: Ending) {
    match ending {
        Ending::Limits(answer) => print_answer(out, answer),
        Ending::Log(found) => print_ending(out, found),
        Ending::Unread => {}
    }
}
