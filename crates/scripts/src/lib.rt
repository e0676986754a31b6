// The language of page scripts: the words of a line, and the command that they ask for.
#![tactic(auto)]

pub mod command;
pub mod words;
