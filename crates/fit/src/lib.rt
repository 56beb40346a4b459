#![tactic(auto)]

// FITNESS: whether any bytes are the image of a state. Nothing is asked of the bytes.
mod free;
mod head;
mod inner;
mod leaf;
mod leaves;
mod lent;
pub mod whole;

pub use whole::fit;
