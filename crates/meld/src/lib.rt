#![tactic(auto)]

// THE PUBLIC PART: a pool is created, looked into, melded into and refreshed against. No function here asks anything of what it is lent.
pub mod kept;
mod lists;
pub mod looking;
pub mod melding;
pub mod telling;

pub use create::create;
pub use in_force::in_force;
pub use kept::{Lookup, Status};
pub use looking::lookup;
pub use melding::{Melded, meld};
pub use refresh::refresh;
pub use telling::status;
