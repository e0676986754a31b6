// Code rows over any field: filling them, and correcting them. Polynomials over any ring are those of crate algebra.
#![tactic(auto)]

pub use algebra::poly;

pub mod correct;
pub mod fill;
mod rows;
