//! Key blocks (ANSI X9.143, ASC X9 TR-31) over the ciphers of `des_fast` and the MACs of `des_mac`:
//! a key with what it is for, encrypted and authenticated under a protection key, as ASCII
//! characters.
//!
//! No call takes memory or panics, and no `Debug` text or error tells a key. No table is read at an
//! index that depends on a key: blocks go by the ciphers of `des_fast::no_tables`. No claim is made
//! on the time that a call takes.
#![tactic(auto)]

mod hex;
pub mod key_block_error;
pub mod key_block_header;
pub mod key_blocks;
pub mod optional_blocks;
mod protection_keys;
mod sealing;
