#![tactic(auto)]

// What all crates share: checks in their order, and lists that are worked over in place. Definitions in specs/, lemmas in
// proofs/, and no code.
