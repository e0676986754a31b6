// The rules of a page: its contents, what is in reach, why a call is refused, what each call answers and leaves, and
// what follows from them for whatever the cells read and for every run of calls. No code but the refusals.
#![tactic(auto)]

pub mod fault;
