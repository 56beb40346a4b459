// The files that the arguments name, as they are opened and read.
use crate::Program;
use crate::arguments::{ARGUMENT, argument};
use lines::Output;
use std::env::Env;
use std::fmt::Display;
use std::io::{Print, Read};
use std::rt::Files;
use std::{fs, io};
use stream::fill;

// An open file, and the error of the last read that failed, if one did: `fill` says that a read failed, and not why.
#[derive(Drop)]
pub struct Reading<F> {
    file: F,
    failure: Option<io::Error>,
}

impl<F: Read> Read for Reading<F> {
    fn read(&mut self, buf: &mut [u8]) -> io::Result<usize> {
        let got = self.file.read(buf);
        if let Err(failure) = &got {
            self.failure = Some(*failure);
        }
        got
    }
}

impl<F> Reading<F> {
    // Says what the system said of the last read that failed, where one did.
    pub fn say_failure<E: Print>(&self, complaints: &mut Output<E>, name: &[u8]) {
        if let Some(failure) = &self.failure {
            say_failed(complaints, name, failure);
        }
    }
}

// Says what is wrong with the file of a name.
fn say_failed<E: Print, D: Display + Drop>(complaints: &mut Output<E>, name: &[u8], what: D) {
    complaints.say("explain: ");
    complaints.say_bytes(name);
    complaints.say(format_args!(": {what}\n"));
}

impl<R: Env + Files, P: Print, E: Print> Program<'_, R, P, E> {
    // Opens the file of a name; none where it cannot be opened, which is said. A file's name is text.
    pub fn open_named(&mut self, name: &[u8]) -> Option<Reading<R::File>> {
        let Ok(path) = str::from_utf8(name) else {
            say_failed(
                &mut self.complaints,
                name,
                "a file's name is UTF-8, and this is not",
            );
            return None;
        };
        match fs::open(self.rt, path) {
            Ok(file) => Some(Reading {
                file,
                failure: None,
            }),
            Err(failure) => {
                say_failed(&mut self.complaints, name, failure);
                None
            }
        }
    }

    // Reads the file that an argument names into the bytes lent, and answers those that it fills; none where it cannot be read, which is said.
    pub fn load<'b>(&mut self, i: usize, bytes: &'b mut [u8]) -> Option<&'b [u8]> {
        let mut name = [0u8; ARGUMENT];
        let name = argument(self.rt, i, &mut name).unwrap_or(b"");
        let mut file = self.open_named(name)?;
        let filled = fill(&mut file, bytes, 0);
        if filled.failed {
            file.say_failure(&mut self.complaints, name);
            return None;
        }
        Some(&bytes[..filled.held])
    }
}
