// Pages over any field: ordering one, and the calls on it.
#![tactic(auto)]

pub use rules::fault;

pub mod page;
pub mod read;
pub mod wear;
