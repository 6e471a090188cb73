//! Modes of operation of any lawful cipher: CFB, OFB and CTR, which make a stream cipher of it
//! (FIPS 81; NIST SP 800-38A).
//!
//! CFB, OFB and CTR hide a text only if no initialization vector or counter block is used twice
//! under a key. They authenticate nothing. In CTR and OFB, an attacker who knows a text can turn
//! its ciphertext into that of any other text of its length. In CFB, he can change any bits of a
//! segment, and the eight bytes after it become garbage.
#![tactic(auto)]

mod cfb;
mod cfb_bits;
mod ctr;
pub mod direction;
pub mod feedback;
pub mod lists;
pub mod modes;
mod ofb;
mod parts;
mod place;
pub mod stream;
pub mod xored;

pub use direction::Direction;
pub use feedback::Feedback;
