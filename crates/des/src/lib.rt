//! The block cipher DES and its triple forms (FIPS 46-3), after the Rust crate `des` 0.9.0.
//!
//! DES is broken: its key of 56 bits can be searched. It is here for data and protocols that still
//! use it. A block cipher hides nothing about repeated blocks and does not authenticate, and no
//! claim is made on the time that a call takes.
#![tactic(auto)]

pub mod cbc;
pub mod cipher;
pub mod consts;
pub mod des;
pub mod tdes;
pub mod utils;
pub mod weak_key;

pub use des::Des;
pub use tdes::{TdesEde2, TdesEde3, TdesEee2, TdesEee3};
pub use weak_key::{WEAK_KEYS, WeakKeyError, weak_key_test};
