#![tactic(auto)]

// The pool's header and nodes as records of words. docs/LAYOUT.md gives every byte.
pub mod header;
pub mod mending;
pub mod node;

pub use header::{Header, LAST_POSITION, read_header, write_header, write_position};
pub use mending::{inner, mend};
pub use node::{FREE, LIVE, NO_NODE, NO_TOMBSTONE, Node, TOMBSTONE, read_node, write_node};
