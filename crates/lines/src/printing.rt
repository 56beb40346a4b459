// The lines, in decimal. Each function prints the numbers that it is given, in their order, and nothing else.
ghost use Rattle.std.specs.Prelude.{◌≡◌};
ghost use Rattle.lines.specs.Parts.{ending_answer};

use crate::output::Output;
use record::Answer;
use record_log::Cut;
use std::fmt;
use std::io::Print;

// What the line of a record says: its position, its answer and its looks.
#[derive(Clone, Copy)]
pub struct Line {
    pub position: u64,
    pub answer: Answer,
    pub looks: u32,
}

// The three numbers, with single spaces.
impl fmt::Display for Line {
    fn fmt<W: fmt::Write>(&self, f: &mut fmt::Formatter<W>) -> fmt::Result {
        write!(f, "{} {} {}", self.position, self.answer.number, self.looks)
    }
}

// Prints an answer's number, with a line feed.
pub fn print_answer<P: Print>(out: &mut Output<P>, answer: Answer) {
    out.say(format_args!("{}\n", answer.number));
}

// Prints a record's line, with a line feed.
pub fn print_line<P: Print>(out: &mut Output<P>, line: Line) {
    out.say(format_args!("{line}\n"));
}

// The answer that stands for what was found behind the last record: 10 for a torn log, 11 for an impossible length; none where the rules have none.
pub fn ending_answer(found: Cut) -> Option<Answer>
    ensures { result ≡ ending_answer found }
{
    match found {
        Cut::Torn => Some(Answer::TORN_LOG),
        Cut::Impossible => Some(Answer::IMPOSSIBLE_LENGTH),
        Cut::End | Cut::Record(_) => None,
    }
}

// Prints the line after the last record, what stands there: 10, 11 or `end`.
pub fn print_ending<P: Print>(out: &mut Output<P>, found: Cut) {
    match ending_answer(found) {
        Some(answer) => print_answer(out, answer),
        None => out.say("end\n"),
    }
}
