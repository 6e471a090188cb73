//! Message authentication codes over any block cipher with the traits of `des::cipher`, after the
//! Rust crates `cbc-mac`, `retail-mac` and `cmac`: CBC-MAC and the retail MAC (ISO/IEC 9797-1:2011,
//! algorithms 1 and 3, with padding methods 1 and 2), and CMAC (NIST SP 800-38B). A message comes
//! in pieces of any length, and a tag has 8 bytes. `many` has the tags of many messages at once.
//!
//! `CbcMac` is safe only if every message under a key has the same length. Padding method 1
//! cannot tell zeros at the end of a message. Blocks and tags have 64 bits: a key is for far fewer
//! than 2^32 messages, and of a tag that is cut to 4 bytes one guess in 2^32 is right. The retail
//! MAC over `Des` is DES with two keys. A tag says nothing of when a message was made, or how
//! often. No claim is made on the time that a call takes, and nothing here is a statement on
//! cryptographic strength.
#![tactic(auto)]

mod by_key;
pub mod cbc_mac;
mod chaining;
pub mod cmac;
pub mod mac;
pub mod many;
pub mod padding;
pub mod progress;
pub mod retail_mac;

pub use cbc_mac::CbcMac;
pub use cmac::Cmac;
pub use mac::{Mac, MacError};
pub use padding::{Method1, Method2, Padding, UnambiguousPadding};
pub use progress::Progress;
pub use retail_mac::RetailMac;
