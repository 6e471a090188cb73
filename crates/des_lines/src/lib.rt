//! The lines that `cukvashe` writes: the answers of calculations by what was read, as check values,
//! PIN blocks, card values and key blocks, and those of all faults. Nothing here reads arguments or
//! opens files: `des_commands` does.
#![tactic(auto)]

pub mod calculations;
mod check_digit;
pub mod digits;
mod emv_lines;
pub mod fault;
pub mod key_block_lines;
pub mod keys;
mod lines;
pub mod names;
mod pin_lines;
pub mod report;
pub mod requests;
pub mod sentences;
pub mod source;
pub mod tags;
