//! Ciphers that keep the laws of the traits and hide nothing, for generic code over ciphers.

mod reverse;
mod xor_key;

pub use reverse::Reverse;
pub use xor_key::XorKey;
