//! The key wraps of triple DES, over any lawful cipher: that of CMS (RFC 3217), and TKW (NIST SP
//! 800-38F, 7).
#![tactic(auto)]

pub mod cms_key_wrap;
pub mod tkw;
pub mod unwrap_error;

pub use unwrap_error::UnwrapError;
