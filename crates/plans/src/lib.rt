// The plain part of a page: its numbers, its marking, and why an order of them is refused.
#![tactic(auto)]

pub mod fault;
pub mod numbers;
pub mod plan;
