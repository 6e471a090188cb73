//! The exports of the stream modes, by the number of a mode: bytes of a stream, and whole texts.

ghost use Rattle.std.specs.Prelude.{◌≡◌, ◌≢◌, ◌↔◌, ◌++◌, ℕ, Bool, List};
ghost use Rattle.des.specs.Bits.{bits_of_bytes};
ghost use Rattle.des_modes.specs.Modes.{InModeUnder, IsMode, mode_by};
ghost use Rattle.des_modes.specs.States.{HasBegun, IsBitStreamAt, IsStreamAt};
ghost use Rattle.des_context.specs.CipherTypes.{encryption_of, relation_of};
ghost use Rattle.des_context.specs.Contexts.{HasMark, IsContextOf, IsSoundIfMarked};

use super::Width;
use des_context::ciphers::NO_MAC;
use des_context::status::{ERR_CONTEXT, ERR_MODE, ERR_STREAM, OK};
use des_context::stream_modes;
use des_modes::Direction;
use des_modes::stream::Stream;

/// Encrypts in place the bytes that come next in a stream: any number of them. The status for words
/// that are no stream is `ERR_STREAM`; they and the bytes are then unchanged.
#[unsafe(no_mangle)]
pub extern "C" fn cukvashe_internal_encrypt_stream(
    context: &[u64],
    stream: &mut Stream,
    bytes: &mut [u8],
) -> i32
    requires { IsSoundIfMarked context.now }
    ensures unmarked { (result ≡ ERR_CONTEXT) ↔ ¬ (HasMark NO_MAC context.now) }
    ensures accepted { (result ≡ OK) ↔ (HasMark NO_MAC context.now × HasBegun stream.old) }
    ensures refused { (result ≡ ERR_STREAM)
        ↔ (HasMark NO_MAC context.now × ¬ (HasBegun stream.old)) }
    ensures bytes { result ≡ OK → (number : ℕ) (key iv p c : List ℕ) → IsContextOf context.now key
        → IsStreamAt number (encryption_of key) iv p c stream.old
        → IsStreamAt number (encryption_of key) iv (p ++ bytes.old) (c ++ bytes.new) stream.new }
    ensures under { result ≡ OK → (number : ℕ) (key iv p c : List ℕ) → IsContextOf context.now key
        → IsStreamAt number (encryption_of key) iv p c stream.old
        → InModeUnder (mode_by number) (relation_of key) iv (p ++ bytes.old) (c ++ bytes.new) }
    ensures bits { result ≡ OK → (key iv : List ℕ) (p c : List Bool) → IsContextOf context.now key
        → IsBitStreamAt (encryption_of key) iv p c stream.old
        → IsBitStreamAt (encryption_of key) iv
        (p ++ bits_of_bytes bytes.old) (c ++ bits_of_bytes bytes.new) stream.new }
    ensures kept { result ≢ OK → (bytes.new ≡ bytes.old) × (stream.new ≡ stream.old) }
{
    stream_modes::apply_stream::<Width>(Direction::Encrypt, context, stream, bytes)
}

/// Decrypts in place the bytes that come next in a stream. The status is as for
/// `cukvashe_internal_encrypt_stream`.
#[unsafe(no_mangle)]
pub extern "C" fn cukvashe_internal_decrypt_stream(
    context: &[u64],
    stream: &mut Stream,
    bytes: &mut [u8],
) -> i32
    requires { IsSoundIfMarked context.now }
    ensures unmarked { (result ≡ ERR_CONTEXT) ↔ ¬ (HasMark NO_MAC context.now) }
    ensures accepted { (result ≡ OK) ↔ (HasMark NO_MAC context.now × HasBegun stream.old) }
    ensures refused { (result ≡ ERR_STREAM)
        ↔ (HasMark NO_MAC context.now × ¬ (HasBegun stream.old)) }
    ensures bytes { result ≡ OK → (number : ℕ) (key iv p c : List ℕ) → IsContextOf context.now key
        → IsStreamAt number (encryption_of key) iv p c stream.old
        → IsStreamAt number (encryption_of key) iv (p ++ bytes.new) (c ++ bytes.old) stream.new }
    ensures under { result ≡ OK → (number : ℕ) (key iv p c : List ℕ) → IsContextOf context.now key
        → IsStreamAt number (encryption_of key) iv p c stream.old
        → InModeUnder (mode_by number) (relation_of key) iv (p ++ bytes.new) (c ++ bytes.old) }
    ensures bits { result ≡ OK → (key iv : List ℕ) (p c : List Bool) → IsContextOf context.now key
        → IsBitStreamAt (encryption_of key) iv p c stream.old
        → IsBitStreamAt (encryption_of key) iv
        (p ++ bits_of_bytes bytes.new) (c ++ bits_of_bytes bytes.old) stream.new }
    ensures kept { result ≢ OK → (bytes.new ≡ bytes.old) × (stream.new ≡ stream.old) }
{
    stream_modes::apply_stream::<Width>(Direction::Decrypt, context, stream, bytes)
}

/// Encrypts a text in place by the mode of a number, from an initialization vector, or for the
/// counter mode the first counter block. The status for any other number is `ERR_MODE`; the text is
/// then unchanged.
#[unsafe(no_mangle)]
pub extern "C" fn cukvashe_internal_encrypt_mode(
    context: &[u64],
    mode: u32,
    iv: &[u8; 8],
    bytes: &mut [u8],
) -> i32
    requires { IsSoundIfMarked context.now }
    ensures unmarked { (result ≡ ERR_CONTEXT) ↔ ¬ (HasMark NO_MAC context.now) }
    ensures accepted { (result ≡ OK) ↔ (HasMark NO_MAC context.now × IsMode mode) }
    ensures refused { (result ≡ ERR_MODE) ↔ (HasMark NO_MAC context.now × ¬ (IsMode mode)) }
    ensures encrypted { result ≡ OK → (key : List ℕ) → IsContextOf context.now key
        → InModeUnder (mode_by mode) (relation_of key) iv.now bytes.old bytes.new }
    ensures kept { result ≢ OK → bytes.new ≡ bytes.old }
{
    stream_modes::apply_mode::<Width>(Direction::Encrypt, context, mode, iv, bytes)
}

/// Decrypts a text in place by the mode of a number. The status is as for
/// `cukvashe_internal_encrypt_mode`.
#[unsafe(no_mangle)]
pub extern "C" fn cukvashe_internal_decrypt_mode(
    context: &[u64],
    mode: u32,
    iv: &[u8; 8],
    bytes: &mut [u8],
) -> i32
    requires { IsSoundIfMarked context.now }
    ensures unmarked { (result ≡ ERR_CONTEXT) ↔ ¬ (HasMark NO_MAC context.now) }
    ensures accepted { (result ≡ OK) ↔ (HasMark NO_MAC context.now × IsMode mode) }
    ensures refused { (result ≡ ERR_MODE) ↔ (HasMark NO_MAC context.now × ¬ (IsMode mode)) }
    ensures decrypted { result ≡ OK → (key : List ℕ) → IsContextOf context.now key
        → InModeUnder (mode_by mode) (relation_of key) iv.now bytes.new bytes.old }
    ensures kept { result ≢ OK → bytes.new ≡ bytes.old }
{
    stream_modes::apply_mode::<Width>(Direction::Decrypt, context, mode, iv, bytes)
}
