#![tactic(auto)]

// A PROGRAM OVER AN INPUT (R41, R46): limits N and Z and then a log, read to its end page by page and fed as it comes. A line is printed for
// each record as soon as it is whole. How large N may be, and the bytes for a pool of that size, are the program's own. Its reading, `fill`
// and `refill`, is there for other programs too.
pub mod closing;
pub mod input;
mod program;
mod turns;

pub use closing::{Ending, print_closing};
pub use input::{Filled, fill, refill};
pub use program::meld_input;
