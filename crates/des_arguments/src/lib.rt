//! What a command line of `cukvashe` asks for: `arguments` parses it by a table of commands and
//! makes a `Command` of `des_requests`, and `usage` shows help, or what is wrong with it.
#![tactic(auto)]

pub mod arguments;
pub mod usage;
