//! What the program `cukvashe` may be asked for, as values. `des_arguments` makes them of the words
//! of a command line, and `des_commands` does what they ask for: neither knows of the other.
#![tactic(auto)]

pub mod command;
pub mod lines;
pub mod sources;
pub mod streams;
