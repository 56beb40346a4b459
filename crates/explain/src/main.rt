#![tactic(auto)]

// THE PROGRAM `explain` (R52): why a record gets its answer. It is asked by `LOG POSITION` for a record of a log, or by `--pool POOL RECORD` for a
// record's bytes and a pool's; in front of either stands `--numbers` where one line of numbers is wanted. The answer goes to standard output. What is
// wrong with the question goes to standard error, in words, and then nothing goes to standard output.
mod arguments;
mod reading;

ghost use Rattle.std.specs.Prelude.{◌≤◌, ◌<◌, ◌^◌, length};
ghost use Rattle.lines.specs.Opening.{size_for};
ghost use Rattle.explain.specs.Program.{largest_n, ProgramAsks};

use arguments::{ARGUMENT, About, Question, argument, asked};
use asking::{Told, Unread, ask, tell};
use lines::Output;
use record::limits::MAX_SIZE;
use sentences::print_told;
use std::env::Env;
use std::io;
use std::io::{Print, Read};
use std::rt::Files;

// The largest N.
const MOST_KEYS: u32 = 65536;

// The bytes of the largest pool and one more, so that a file that is longer is not taken for a pool.
const POOL: usize = 4194369;

// The bytes of the largest record and one more.
const RECORD: usize = 13836;

// What the program runs with: the system, where the answer goes, and where what is wrong with the question goes.
struct Program<'a, R, P, E> {
    rt: &'a R,
    out: Output<P>,
    complaints: Output<E>,
}

// Asks for the record that so many records stand before, with bytes for a pool that are enough for the largest N.
fn ask_log<R: Read>(
    log: &mut R,
    pool: &mut [u8],
    window: &mut [u8],
    before: u32,
) -> Result<Told, Unread>
    requires { size_for largest_n ≤ length pool.old }
    ensures { ProgramAsks before pool.old window.old pool.new window.new result }
{
    ask(log, pool, window, MOST_KEYS, before)
}

impl<R: Env + Files, P: Print, E: Print> Program<'_, R, P, E> {
    // Explains the record at a position of a log, which these arguments give. The bound on the pool is asked for here, by `ask_log` and by `answer`
    // alone: a type of its own around the bytes lent would be no shorter.
    fn explain_log(&mut self, pool: &mut [u8], file: usize, place: usize, in_numbers: bool)
        requires { size_for largest_n ≤ length pool.old }
    {
        let Some(before) = self.before_position(place) else {
            return;
        };
        let mut name = [0u8; ARGUMENT];
        let name = argument(self.rt, file, &mut name).unwrap_or(b"");
        let Some(mut log) = self.open_named(name) else {
            return;
        };
        let mut window = [0u8; MAX_SIZE];
        match ask_log(&mut log, pool, &mut window, before) {
            Ok(told) => self.print(told, record_log::part(&window, 0), in_numbers),
            Err(Unread) => log.say_failure(&mut self.complaints, name),
        }
    }

    // Explains a record's bytes to a pool's, both in the files that these arguments name, and read into the bytes lent.
    fn explain_pool(
        &mut self,
        pool: &mut [u8],
        bytes: &mut [u8],
        file: usize,
        other: usize,
        in_numbers: bool,
    ) {
        let Some(pool) = self.load(file, pool) else {
            return;
        };
        let Some(bytes) = self.load(other, bytes) else {
            return;
        };
        self.print(tell(pool, bytes), bytes, in_numbers);
    }

    // Prints what was told of a record's bytes.
    fn print(&mut self, told: Told, bytes: &[u8], in_numbers: bool) {
        print_told(&mut self.out, &mut self.complaints, told, bytes, in_numbers);
    }

    // Answers what the arguments ask, with so many bytes for a pool.
    fn answer<const SIZE: usize>(&mut self)
        requires enough { size_for largest_n ≤ SIZE }
        requires addressed { SIZE < 2 ^ 63 }
    {
        let mut pool = [0u8; SIZE];
        let mut bytes = [0u8; RECORD];
        let Some(Question { about, in_numbers }) = asked(self.rt) else {
            self.say_usage();
            return;
        };
        match about {
            About::Log { log, position } => self.explain_log(&mut pool, log, position, in_numbers),
            About::Pool { pool: file, record } => {
                self.explain_pool(&mut pool, &mut bytes, file, record, in_numbers)
            }
        }
    }
}

fn main(rt: HostRuntime) -> io::Result<()> {
    let mut program = Program {
        rt: &rt,
        out: Output::new(rt.stdout()),
        complaints: Output::new(rt.stderr()),
    };
    program.answer::<POOL>();
    let Program {
        rt: _,
        out,
        complaints,
    } = program;
    out.end()?;
    complaints.end()
}
