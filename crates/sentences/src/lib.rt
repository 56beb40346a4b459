#![tactic(auto)]

// WHAT THE PROGRAM `explain` SAYS (R52): a record's answer and its reason in sentences, or as one line of numbers. Each function prints what it is
// given, and nothing else.
mod flaws;
mod printing;
mod sentences;

pub use printing::print_told;
