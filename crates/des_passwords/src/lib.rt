//! Keys from passwords: HMAC (RFC 2104), PBKDF1 and PBKDF2 (RFC 8018, section 5), the method of
//! PKCS #12 (RFC 7292, appendix B), and `bytes_to_key`, as OpenSSL's `EVP_BytesToKey` makes keys,
//! over MD5, SHA-1 and SHA-256. Files that others wrote under passwords: those of `openssl enc`
//! (`salted`, `derivation`), and encrypted private keys (`encrypted_keys`, `pem`). Readers of bytes
//! that are written as text: Base64 in lines (`base64_reader`), hexadecimal digits (`hex_reader`).
//!
//! These read what others wrote. MD5 and SHA-1 are broken as hashes, and `bytes_to_key` with one
//! iteration makes a password quick to guess: write nothing new by them.
#![tactic(auto)]

mod base64_lines;
pub mod base64_reader;
mod bmp_string;
pub mod bytes_to_key;
mod decoding;
mod der;
pub mod derivation;
pub mod encrypted_keys;
pub mod hash_function;
pub mod hex_reader;
pub mod hex_text;
pub mod hex_writer;
pub mod hmac;
pub mod key_file_error;
pub mod pbkdf1;
pub mod pbkdf2;
pub mod pem;
pub mod pkcs12;
mod repeated;
pub mod salted;
pub mod text_lines;
mod xored;

pub use base64_reader::Base64Reader;
pub use derivation::{Derivation, KeyAndVector};
pub use encrypted_keys::{
    EncryptedKey, Parameters, Scheme, read_encrypted_key, read_encrypted_key_of_many,
};
pub use hash_function::HashFunction;
pub use hex_reader::{HexFault, HexReader};
pub use hex_text::HexTextReader;
pub use hex_writer::HexWriter;
pub use hmac::Hmac;
pub use key_file_error::KeyFileError;
pub use pbkdf2::DeriveError;
pub use pem::{DekInfo, Label, PemCipher, PemError, PemKey, read_pem};
pub use salted::{Salted, SaltedError, read_salted};
