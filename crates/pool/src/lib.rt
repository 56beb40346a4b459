#![tactic(auto)]

// What a pool means: no functions, only definitions and the laws that the crates above cite.
