//! Contexts for callers in other languages: a cipher as plain words, in memory of the caller's own,
//! and what the calls of the library for C do over them, over lists and over passwords, once for
//! every cipher and every width. `des_c` exports these calls, and beside them those of other
//! crates.
#![tactic(auto)]

pub mod block_modes;
pub mod ciphers;
pub mod columns;
pub mod components;
pub mod contexts;
pub mod each_key;
pub mod jasypt;
pub mod mac_lists;
pub mod macs;
pub mod padding;
pub mod passwords;
pub mod payment_lists;
pub mod records;
pub mod salted;
pub mod status;
pub mod stream_modes;
