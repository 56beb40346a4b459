// The arguments: what is asked, and the position.
ghost use Rattle.std.specs.Prelude.{◌≤◌, ◌<◌};

use crate::Program;
use asking::decimal;
use std::env::{Env, FillError};
use std::io::Print;

// The most bytes that an argument may have.
pub const ARGUMENT: usize = 4096;

// What is asked about: which arguments name the log and give the position, or name the pool and the record.
#[derive(Clone, Copy)]
pub enum About {
    Log { log: usize, position: usize },
    Pool { pool: usize, record: usize },
}

// What is asked, and whether the answer is wanted in numbers.
#[derive(Clone, Copy)]
pub struct Question {
    pub about: About,
    pub in_numbers: bool,
}

// The bytes of an argument, put at the front of the bytes lent; none for one that is not there, and for one that is longer.
pub fn argument<'a, R: Env>(rt: &R, i: usize, text: &'a mut [u8]) -> Option<&'a [u8]> {
    let size = rt.arg(i, text).ok()?;
    Some(&text[..size])
}

// Whether there is an argument, however long.
fn is_there<R: Env>(rt: &R, i: usize) -> bool {
    let mut text = [0u8; 1];
    !matches!(rt.arg(i, &mut text), Err(FillError::NotPresent))
}

// Whether there are so many arguments and no more, the program's own name among them.
fn is_count<R: Env>(rt: &R, count: usize) -> bool
    requires { 0 < count }
{
    is_there(rt, count - 1) && !is_there(rt, count)
}

// Whether an argument is this word.
fn is_word<R: Env>(rt: &R, i: usize, word: &[u8]) -> bool {
    let mut text = [0u8; ARGUMENT];
    argument(rt, i, &mut text).is_some_and(|text| text == word)
}

// What the arguments from the first on ask about.
fn asked_from<R: Env>(rt: &R, first: usize) -> Option<About>
    requires { first ≤ 2 }
{
    if is_word(rt, first, b"--pool") {
        return is_count(rt, first + 3).then_some(About::Pool {
            pool: first + 1,
            record: first + 2,
        });
    }
    is_count(rt, first + 2).then_some(About::Log {
        log: first,
        position: first + 1,
    })
}

// What the arguments ask, if it is a question.
pub fn asked<R: Env>(rt: &R) -> Option<Question> {
    let in_numbers = is_word(rt, 1, b"--numbers");
    let first = if in_numbers { 2 } else { 1 };
    Some(Question {
        about: asked_from(rt, first)?,
        in_numbers,
    })
}

impl<R: Env, P, E: Print> Program<'_, R, P, E> {
    // Says how to ask.
    pub fn say_usage(&mut self) {
        self.complaints.say(
            "explain: asked by [--numbers] LOG POSITION, or by [--numbers] --pool POOL RECORD\n",
        );
    }

    // How many records stand before the position that an argument gives; none where it gives no position, which is said.
    pub fn before_position(&mut self, i: usize) -> Option<u32> {
        let mut text = [0u8; ARGUMENT];
        let text = argument(self.rt, i, &mut text).unwrap_or(b"");
        let before = decimal(text).and_then(|position| position.checked_sub(1));
        if before.is_none() {
            self.complaints.say("explain: ");
            self.complaints.say_bytes(text);
            self.complaints.say(
                ": no position; the first record has position 1, and the last that can be is 4294967295\n",
            );
        }
        before
    }
}
