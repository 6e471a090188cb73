//! Not part of the product: two ciphers that keep the laws of `des` and hide nothing, generic
//! callers that rest on the laws alone, and the tests of `des` over several of its modules.
#![tactic(auto)]

pub mod chaining;
pub mod lists;
pub mod names;
pub mod odd_ciphers;
pub mod related_lists;
#[cfg(test)]
mod tests;

pub use chaining::{decrypt_cbc, encrypt_cbc};
pub use lists::there_and_back;
pub use odd_ciphers::{Reverse, XorKey};
