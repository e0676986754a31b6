// The mathematics of code rows over any ring and field: definitions in specs/, theorems in proofs/, and polynomials in code.
#![tactic(auto)]

pub mod poly;
