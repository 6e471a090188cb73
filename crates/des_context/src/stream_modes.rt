//! CTR, OFB and CFB over any context and any width, by the number of the mode: a stream of bytes in
//! pieces, or a whole text. A call refuses first words that do not end with the mark of a cipher's
//! init, by `ERR_CONTEXT`, then words that are no stream, by `ERR_STREAM`. The cipher is made as
//! for ECB.

ghost use Rattle.std.specs.Prelude.{◌≡◌, ◌≢◌, ◌↔◌, ◌≤◌, ◌*◌, ◌++◌, ℕ, Bool, List, [], length, drop};
ghost use Rattle.des.specs.Bits.{bits_of_bytes};
ghost use Rattle.des_modes.specs.Cfb.{first_bits};
ghost use Rattle.des_modes.specs.Streams.{plaintext, ciphertext};
ghost use Rattle.des_modes.specs.Modes.{InModeUnder, IsMode, mode_by};
ghost use Rattle.des_modes.specs.States.{HasBegun, IsBitStreamAt, IsInMode, IsStreamAt};
ghost use Rattle.des_modes.specs.declared.modes.Mode.TheVariants.{BitFeedback};
ghost use Rattle.des_modes.specs.declared.modes.TheConstants.{CFB1};
ghost use Rattle.des_context.specs.CipherTypes.{encryption_of, relation_of};
ghost use Rattle.des_context.specs.Contexts.{HasCipherType, HasMark, IsContextOf, IsSoundIfMarked};
ghost use Rattle.des_context.specs.declared.ciphers.TheConstants.{NO_MAC};

use crate::ciphers::{CipherType, ContextCipher, NO_MAC, dispatch_cipher, opened};
use crate::status::{ERR_CONTEXT, ERR_MODE, ERR_STREAM, OK};
use des_fast::many::{ManyBlocks, Slice};
use des_modes::Direction;
use des_modes::lists::ByLists;
use des_modes::modes::{CFB1, Mode};
use des_modes::stream::Stream;
use std::simd::prelude::*;

// Encrypts or decrypts the bytes that come next, by a cipher.
#[inline(never)]
fn apply_by<C: ContextCipher + ManyBlocks, S: Slice>(
    direction: Direction,
    context: &[u64],
    no_tables: bool,
    mode: Mode,
    stream: &mut Stream,
    bytes: &mut [u8],
)
    requires cipher_type { HasCipherType C.CIPHER_TYPE context.now }
    requires made { (key : List ℕ) × IsContextOf context.now key }
    requires mode { IsInMode mode stream.old }
    ensures bytes { (number : ℕ) (key iv p c : List ℕ) → IsContextOf context.now key
        → IsStreamAt number (encryption_of key) iv p c stream.old
        → IsStreamAt number (encryption_of key) iv (p ++ plaintext direction bytes.old bytes.new)
        (c ++ ciphertext direction bytes.old bytes.new) stream.new }
    ensures under { (number : ℕ) (key iv p c : List ℕ) → IsContextOf context.now key
        → IsStreamAt number (encryption_of key) iv p c stream.old
        → InModeUnder (mode_by number) (relation_of key) iv
        (p ++ plaintext direction bytes.old bytes.new)
        (c ++ ciphertext direction bytes.old bytes.new) }
    ensures bits { (key iv : List ℕ) (p c : List Bool) → IsContextOf context.now key
        → IsBitStreamAt (encryption_of key) iv p c stream.old
        → IsBitStreamAt (encryption_of key) iv
        (p ++ bits_of_bytes (plaintext direction bytes.old bytes.new))
        (c ++ bits_of_bytes (ciphertext direction bytes.old bytes.new)) stream.new }
{
    let cipher = C::of(context);
    let cipher = ByLists::<C, S>::new(&cipher, no_tables);
    stream.apply(direction, mode, &cipher, bytes);
}

// Encrypts or decrypts the bytes that come next, by the cipher of a type.
#[inline(always)]
fn apply<S: Slice>(
    cipher: CipherType,
    direction: Direction,
    context: &[u64],
    no_tables: bool,
    mode: Mode,
    stream: &mut Stream,
    bytes: &mut [u8],
)
    requires cipher_type { HasCipherType cipher context.now }
    requires made { (key : List ℕ) × IsContextOf context.now key }
    requires mode { IsInMode mode stream.old }
    ensures bytes { (number : ℕ) (key iv p c : List ℕ) → IsContextOf context.now key
        → IsStreamAt number (encryption_of key) iv p c stream.old
        → IsStreamAt number (encryption_of key) iv (p ++ plaintext direction bytes.old bytes.new)
        (c ++ ciphertext direction bytes.old bytes.new) stream.new }
    ensures under { (number : ℕ) (key iv p c : List ℕ) → IsContextOf context.now key
        → IsStreamAt number (encryption_of key) iv p c stream.old
        → InModeUnder (mode_by number) (relation_of key) iv
        (p ++ plaintext direction bytes.old bytes.new)
        (c ++ ciphertext direction bytes.old bytes.new) }
    ensures bits { (key iv : List ℕ) (p c : List Bool) → IsContextOf context.now key
        → IsBitStreamAt (encryption_of key) iv p c stream.old
        → IsBitStreamAt (encryption_of key) iv
        (p ++ bits_of_bytes (plaintext direction bytes.old bytes.new))
        (c ++ bits_of_bytes (ciphertext direction bytes.old bytes.new)) stream.new }
{
    dispatch_cipher!(
        cipher,
        apply_by::<S>(direction, context, no_tables, mode, stream, bytes)
    )
}

// Encrypts or decrypts the first `bits` bits, which come next, by a cipher: bit after bit, so that
// no width is faster.
#[inline(never)]
fn apply_bits_by<C: ContextCipher + ManyBlocks>(
    direction: Direction,
    context: &[u64],
    no_tables: bool,
    stream: &mut Stream,
    bytes: &mut [u8],
    bits: usize,
)
    requires cipher_type { HasCipherType C.CIPHER_TYPE context.now }
    requires made { (key : List ℕ) × IsContextOf context.now key }
    requires mode { IsInMode BitFeedback stream.old }
    requires few { bits ≤ 8 * length bytes.old }
    ensures bits { (key iv : List ℕ) (p c : List Bool) → IsContextOf context.now key
        → IsBitStreamAt (encryption_of key) iv p c stream.old
        → IsBitStreamAt (encryption_of key) iv
        (p ++ first_bits bits (plaintext direction bytes.old bytes.new))
        (c ++ first_bits bits (ciphertext direction bytes.old bytes.new)) stream.new }
    ensures rest { drop bits (bits_of_bytes bytes.new) ≡ drop bits (bits_of_bytes bytes.old) }
{
    let cipher = C::of(context);
    let cipher = ByLists::<C, u64x2>::new(&cipher, no_tables);
    stream.apply_bits(direction, &cipher, bytes, bits);
}

// Encrypts or decrypts the first `bits` bits, which come next, by the cipher of a type.
#[inline(always)]
fn apply_bits(
    cipher: CipherType,
    direction: Direction,
    context: &[u64],
    no_tables: bool,
    stream: &mut Stream,
    bytes: &mut [u8],
    bits: usize,
)
    requires cipher_type { HasCipherType cipher context.now }
    requires made { (key : List ℕ) × IsContextOf context.now key }
    requires mode { IsInMode BitFeedback stream.old }
    requires few { bits ≤ 8 * length bytes.old }
    ensures bits { (key iv : List ℕ) (p c : List Bool) → IsContextOf context.now key
        → IsBitStreamAt (encryption_of key) iv p c stream.old
        → IsBitStreamAt (encryption_of key) iv
        (p ++ first_bits bits (plaintext direction bytes.old bytes.new))
        (c ++ first_bits bits (ciphertext direction bytes.old bytes.new)) stream.new }
    ensures rest { drop bits (bits_of_bytes bytes.new) ≡ drop bits (bits_of_bytes bytes.old) }
{
    dispatch_cipher!(
        cipher,
        apply_bits_by(direction, context, no_tables, stream, bytes, bits)
    )
}

/// Begins a stream in the mode of a number from an initialization vector, or for the counter mode
/// the first counter block. The status for any other number is `ERR_MODE`; the stream is then
/// unchanged.
pub fn begin(stream: &mut Stream, mode: u32, iv: &[u8; 8]) -> i32
    ensures accepted { (result ≡ OK) ↔ IsMode mode }
    ensures refused { (result ≡ ERR_MODE) ↔ ¬ (IsMode mode) }
    ensures begun { result ≡ OK → (encryption : List ℕ → List ℕ)
        → IsStreamAt mode encryption iv.now [] [] stream.new }
    ensures begun_bits { result ≡ OK → mode ≡ CFB1 → (encryption : List ℕ → List ℕ)
        → IsBitStreamAt encryption iv.now [] [] stream.new }
    ensures kept { result ≢ OK → stream.new ≡ stream.old }
{
    match Stream::new(mode, iv) {
        Some(begun) => {
            *stream = begun;
            OK
        }
        None => ERR_MODE,
    }
}

/// Encrypts or decrypts in place the bytes that come next in a stream: any number of them. In
/// pieces, wherever they are cut, they become what they become as one. The status for words that
/// are no stream is `ERR_STREAM`; they and the bytes are then unchanged.
pub fn apply_stream<S: Slice>(
    direction: Direction,
    context: &[u64],
    stream: &mut Stream,
    bytes: &mut [u8],
) -> i32
    requires { IsSoundIfMarked context.now }
    ensures unmarked { (result ≡ ERR_CONTEXT) ↔ ¬ (HasMark NO_MAC context.now) }
    ensures accepted { (result ≡ OK) ↔ (HasMark NO_MAC context.now × HasBegun stream.old) }
    ensures refused { (result ≡ ERR_STREAM)
        ↔ (HasMark NO_MAC context.now × ¬ (HasBegun stream.old)) }
    ensures bytes { result ≡ OK → (number : ℕ) (key iv p c : List ℕ) → IsContextOf context.now key
        → IsStreamAt number (encryption_of key) iv p c stream.old
        → IsStreamAt number (encryption_of key) iv (p ++ plaintext direction bytes.old bytes.new)
        (c ++ ciphertext direction bytes.old bytes.new) stream.new }
    ensures under { result ≡ OK → (number : ℕ) (key iv p c : List ℕ) → IsContextOf context.now key
        → IsStreamAt number (encryption_of key) iv p c stream.old
        → InModeUnder (mode_by number) (relation_of key) iv
        (p ++ plaintext direction bytes.old bytes.new)
        (c ++ ciphertext direction bytes.old bytes.new) }
    ensures bits { result ≡ OK → (key iv : List ℕ) (p c : List Bool) → IsContextOf context.now key
        → IsBitStreamAt (encryption_of key) iv p c stream.old
        → IsBitStreamAt (encryption_of key) iv
        (p ++ bits_of_bytes (plaintext direction bytes.old bytes.new))
        (c ++ bits_of_bytes (ciphertext direction bytes.old bytes.new)) stream.new }
    ensures kept { result ≢ OK → (bytes.new ≡ bytes.old) × (stream.new ≡ stream.old) }
{
    let Some((cipher, no_tables)) = opened(NO_MAC, context) else {
        return ERR_CONTEXT;
    };
    let mode = match stream.mode() {
        Some(mode) => mode,
        None => return ERR_STREAM,
    };
    apply::<S>(cipher, direction, context, no_tables, mode, stream, bytes);
    OK
}

/// Encrypts or decrypts in place the first `bits` bits, which come next in a stream of CFB1: any
/// number of them. The others are unchanged. The status for a stream of another mode is `ERR_MODE`,
/// and for words that are no stream `ERR_STREAM`; they and the bytes are then unchanged.
pub fn apply_stream_bits(
    direction: Direction,
    context: &[u64],
    stream: &mut Stream,
    bytes: &mut [u8],
    bits: usize,
) -> i32
    requires sound { IsSoundIfMarked context.now }
    requires few { bits ≤ 8 * length bytes.old }
    ensures unmarked { (result ≡ ERR_CONTEXT) ↔ ¬ (HasMark NO_MAC context.now) }
    ensures accepted { (result ≡ OK) ↔ (HasMark NO_MAC context.now × HasBegun stream.old
        × (stream.old.mode ≡ CFB1)) }
    ensures refused { (result ≡ ERR_STREAM)
        ↔ (HasMark NO_MAC context.now × ¬ (HasBegun stream.old)) }
    ensures other { (result ≡ ERR_MODE) ↔ (HasMark NO_MAC context.now × HasBegun stream.old
        × (stream.old.mode ≢ CFB1)) }
    ensures bits { result ≡ OK → (key iv : List ℕ) (p c : List Bool) → IsContextOf context.now key
        → IsBitStreamAt (encryption_of key) iv p c stream.old
        → IsBitStreamAt (encryption_of key) iv
        (p ++ first_bits bits (plaintext direction bytes.old bytes.new))
        (c ++ first_bits bits (ciphertext direction bytes.old bytes.new)) stream.new }
    ensures rest { drop bits (bits_of_bytes bytes.new) ≡ drop bits (bits_of_bytes bytes.old) }
    ensures kept { result ≢ OK → (bytes.new ≡ bytes.old) × (stream.new ≡ stream.old) }
{
    let Some((cipher, no_tables)) = opened(NO_MAC, context) else {
        return ERR_CONTEXT;
    };
    if stream.mode().is_none() {
        return ERR_STREAM;
    }
    if stream.number() != CFB1 {
        return ERR_MODE;
    }
    apply_bits(cipher, direction, context, no_tables, stream, bytes, bits);
    OK
}

/// Encrypts or decrypts a text in place by the mode of a number, from an initialization vector, or
/// for the counter mode the first counter block. The status for any other number is `ERR_MODE`; the
/// text is then unchanged.
pub fn apply_mode<S: Slice>(
    direction: Direction,
    context: &[u64],
    mode: u32,
    iv: &[u8; 8],
    bytes: &mut [u8],
) -> i32
    requires { IsSoundIfMarked context.now }
    ensures unmarked { (result ≡ ERR_CONTEXT) ↔ ¬ (HasMark NO_MAC context.now) }
    ensures accepted { (result ≡ OK) ↔ (HasMark NO_MAC context.now × IsMode mode) }
    ensures refused { (result ≡ ERR_MODE) ↔ (HasMark NO_MAC context.now × ¬ (IsMode mode)) }
    ensures text { result ≡ OK → (key : List ℕ) → IsContextOf context.now key
        → InModeUnder (mode_by mode) (relation_of key) iv.now
        (plaintext direction bytes.old bytes.new) (ciphertext direction bytes.old bytes.new) }
    ensures kept { result ≢ OK → bytes.new ≡ bytes.old }
{
    let Some((cipher, no_tables)) = opened(NO_MAC, context) else {
        return ERR_CONTEXT;
    };
    let Some(begun) = Stream::new(mode, iv) else {
        return ERR_MODE;
    };
    let mode = begun.mode().unwrap();
    let mut stream = begun;
    apply::<S>(
        cipher,
        direction,
        context,
        no_tables,
        mode,
        &mut stream,
        bytes,
    );
    OK
}
