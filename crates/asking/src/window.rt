// The window on a log: the bytes from the log's place on, as many as are held, at its front.
ghost use Rattle.std.specs.Prelude.{◌≤◌, length, IfOk};
ghost use Rattle.asking.specs.Window.{Shifted, Looked};

use record_log::{Cut, cut};
use std::io::Read;
use stream::fill;

// A record at the window's front: how many bytes are held, and how many of them are the record's.
#[derive(Clone, Copy)]
pub struct Front {
    pub held: usize,
    pub next: usize,
}

// Why there is none: a read failed, or no record stands there. Beside either, how many bytes are held, and what stands at their front.
#[derive(Clone, Copy)]
pub enum Stop {
    Unread { held: usize, found: Cut },
    Over { held: usize, found: Cut },
}

// Fills the window up behind the bytes held, and finds the record at its front.
pub fn look<R: Read>(log: &mut R, window: &mut [u8], held: usize) -> Result<Front, Stop>
    requires { held ≤ length window.old }
    ensures looked { Looked held window.old window.new result }
    ensures within { IfOk result (λ front. (front.next ≤ front.held) × (front.held ≤ length window.new)) }
{
    let filled = fill(log, window, held);
    let held = filled.held;
    let found = cut(&window[..held], 0);
    if filled.failed {
        return Err(Stop::Unread { held, found });
    }
    match found {
        Cut::Record(next) => Ok(Front { held, next }),
        found => Err(Stop::Over { held, found }),
    }
}

// Moves the bytes held behind the first `past` to the front, and answers how many they are.
pub fn shift(window: &mut [u8], past: usize, held: usize) -> usize
    requires past_le_held { past ≤ held }
    requires held_in_bounds { held ≤ length window.old }
    ensures { Shifted past held window.old window.new result }
{
    let left = held - past;
    window.copy_within(past..past + left, 0);
    left
}
