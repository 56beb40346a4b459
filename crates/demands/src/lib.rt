#![tactic(auto)]

// The three demands over the public functions' promises, on bytes: no functions, only definitions and theorems.
