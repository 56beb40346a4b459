// Where text goes, as standard output, and whether it got there.
ghost use Rattle.std.specs.Prelude.{◌≡◌};
ghost use Rattle.lines.specs.Output.{Kept, told_by};

use std::fmt::Display;
use std::io;
use std::io::Print;

// What prints, and the first failure to print, if there was one. Behind a failure nothing more is printed.
#[derive(Drop)]
pub struct Output<P> {
    to: P,
    failure: Option<io::Error>,
}

impl<P: Print> Output<P> {
    // Nothing has failed yet.
    pub fn new(to: P) -> Output<P>
        ensures { result.failure ≡ None }
    {
        Output { to, failure: None }
    }

    // Prints a text, unless printing has failed before.
    pub fn say<D: Display + Drop>(&mut self, text: D)
        ensures { Kept self.old.failure self.new.failure }
    {
        if self.failure.is_none() {
            self.failure = self.to.print(text).err();
        }
    }

    // Prints bytes, which need not be text, unless printing has failed before.
    pub fn say_bytes(&mut self, bytes: &[u8])
        ensures { Kept self.old.failure self.new.failure }
    {
        if self.failure.is_none() {
            self.failure = self.to.write_all(bytes).err();
        }
    }

    // The first failure, where printing has failed.
    pub fn end(self) -> io::Result<()>
    where
        P: Drop,
        ensures { result ≡ told_by self.failure }
    {
        let Output { to: _, failure } = self;
        match failure {
            None => Ok(()),
            Some(error) => Err(error),
        }
    }
}
