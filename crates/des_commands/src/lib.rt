//! What the program `cukvashe` does for a command: DES and triple DES for files and pipes, MACs,
//! and payment formats. How the command was typed is not known here.
#![tactic(auto)]

mod descriptors;
mod inputs;
mod lines;
mod mac;
mod outputs;
mod private_keys;
mod program;
mod streams;

pub use program::{occupy_descriptors, run, tell_fault};
