//! Bytes that go from a reader to a writer through a cipher: in a mode of operation (ECB or CBC)
//! and with a padding (PKCS#7, ISO/IEC 7816-4, zeros or none), or in a mode that makes a stream
//! cipher (CFB, OFB or CTR), which takes any number of bytes. They go a buffer at a time, over any
//! cipher with the trait `ManyBlocks` of `des_fast`. The reader, the writer and the buffer are the
//! caller's: no call takes memory, however much goes through.
//!
//! What is written is the ciphertext or the plaintext of all that was read; after an error it is a
//! prefix of it. Nothing is authenticated: a changed ciphertext decrypts to something, mostly with
//! no error.
//!
//! After an error the reader may be past the bytes whose ciphertext or plaintext was written; how
//! far is unspecified, so neither it nor the writer can be used further. No call flushes the
//! writer: the caller does after a success, if the writer buffers. The contents of the buffer after
//! a call are unspecified, and can be plaintext.
#![tactic(auto)]

pub mod decryption;
pub mod encryption;
pub mod error;
pub mod mode;
pub mod padding;
pub mod part;
pub mod pieces;
pub mod stream_cipher;
pub mod transformation;

pub use decryption::decrypt_stream;
pub use encryption::encrypt_stream;
pub use error::StreamError;
pub use mode::BlockMode;
pub use padding::Padding;
pub use part::{decrypt_part, skip_blocks};
pub use stream_cipher::apply_stream;
pub use transformation::Transformation;
