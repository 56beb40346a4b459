#![tactic(auto)]

// The rules of docs/RULES.md as definitions (specs/) and the theorems about them (proofs/). No function stands here.
