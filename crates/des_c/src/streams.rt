//! The exports of streams that go byte by byte or bit by bit, so that no width of vectors is
//! faster.

ghost use Rattle.std.specs.Prelude.{◌≡◌, ◌≢◌, ◌↔◌, ◌≤◌, ◌*◌, ◌++◌, ℕ, Bool, List, [], length, drop};
ghost use Rattle.des.specs.Bits.{bits_of_bytes};
ghost use Rattle.des.specs.Blocks.{AreBytes};
ghost use Rattle.des_modes.specs.Cfb.{first_bits};
ghost use Rattle.des_modes.specs.Ctr.{Ctr};
ghost use Rattle.des_modes.specs.Modes.{IsMode};
ghost use Rattle.des_modes.specs.States.{HasBegun, IsBitStreamAt, IsStreamAt};
ghost use Rattle.des_modes.specs.declared.modes.TheConstants.{CFB1, CTR};
ghost use Rattle.des_context.specs.CipherTypes.{encryption_of};
ghost use Rattle.des_context.specs.Contexts.{HasMark, IsContextOf, IsSoundIfMarked};

use des_context::ciphers::NO_MAC;
use des_context::status::{ERR_CONTEXT, ERR_MODE, ERR_STREAM, OK};
use des_context::stream_modes;
use des_modes::Direction;
use des_modes::stream::Stream;

/// Begins a stream in the mode of a number from an initialization vector, or for the counter mode
/// the first counter block. The status for any other number is `ERR_MODE`; the stream is then
/// unchanged.
#[unsafe(no_mangle)]
pub extern "C" fn cukvashe_stream_begin(stream: &mut Stream, mode: u32, iv: &[u8; 8]) -> i32
    ensures accepted { (result ≡ OK) ↔ IsMode mode }
    ensures refused { (result ≡ ERR_MODE) ↔ ¬ (IsMode mode) }
    ensures begun { result ≡ OK → (encryption : List ℕ → List ℕ)
        → IsStreamAt mode encryption iv.now [] [] stream.new }
    ensures begun_bits { result ≡ OK → mode ≡ CFB1 → (encryption : List ℕ → List ℕ)
        → IsBitStreamAt encryption iv.now [] [] stream.new }
    ensures kept { result ≢ OK → stream.new ≡ stream.old }
{
    stream_modes::begin(stream, mode, iv)
}

/// Begins a stream of the counter mode `blocks` blocks into the text whose first counter block is
/// `counter`.
#[unsafe(no_mangle)]
pub extern "C" fn cukvashe_stream_begin_ctr_at(stream: &mut Stream, counter: &[u8; 8], blocks: u64)
    ensures { (encryption : List ℕ → List ℕ) (p c : List ℕ) → length p ≡ 8 * blocks → AreBytes c
        → Ctr encryption counter.now p c → IsStreamAt CTR encryption counter.now p c stream.new }
{
    *stream = Stream::ctr_at(counter, blocks);
}

/// Writes where a stream goes on: the feedback register, and how many bytes of the output block
/// that goes next are used.
#[unsafe(no_mangle)]
pub extern "C" fn cukvashe_stream_position(stream: &Stream, iv: &mut [u8; 8], used: &mut usize)
    ensures register { iv.new ≡ stream.now.place.register }
    ensures used { used.new ≡ stream.now.place.used }
{
    *iv = stream.register();
    *used = stream.used();
}

/// Encrypts in place the first `bits` bits, which come next in a stream of CFB1. The others are
/// unchanged. The status for a stream of another mode is `ERR_MODE`, and for words that are no
/// stream `ERR_STREAM`; they and the bytes are then unchanged.
#[unsafe(no_mangle)]
pub extern "C" fn cukvashe_internal_encrypt_stream_bits(
    context: &[u64],
    stream: &mut Stream,
    bytes: &mut [u8],
    bits: usize,
) -> i32
    requires sound { IsSoundIfMarked context.now }
    requires few { bits ≤ 8 * length bytes.old }
    ensures unmarked { (result ≡ ERR_CONTEXT) ↔ ¬ (HasMark NO_MAC context.now) }
    ensures accepted { (result ≡ OK) ↔ (HasMark NO_MAC context.now × HasBegun stream.old
        × (stream.old.mode ≡ CFB1)) }
    ensures refused { (result ≡ ERR_STREAM)
        ↔ (HasMark NO_MAC context.now × ¬ (HasBegun stream.old)) }
    ensures other { (result ≡ ERR_MODE) ↔ (HasMark NO_MAC context.now × HasBegun stream.old
        × (stream.old.mode ≢ CFB1)) }
    ensures bits { result ≡ OK → (key iv : List ℕ) (p c : List Bool) → IsContextOf context.now key
        → IsBitStreamAt (encryption_of key) iv p c stream.old
        → IsBitStreamAt (encryption_of key) iv
        (p ++ first_bits bits bytes.old) (c ++ first_bits bits bytes.new) stream.new }
    ensures rest { drop bits (bits_of_bytes bytes.new) ≡ drop bits (bits_of_bytes bytes.old) }
    ensures kept { result ≢ OK → (bytes.new ≡ bytes.old) × (stream.new ≡ stream.old) }
{
    stream_modes::apply_stream_bits(Direction::Encrypt, context, stream, bytes, bits)
}

/// Decrypts in place the first `bits` bits, which come next in a stream of CFB1. The status is as
/// for `cukvashe_internal_encrypt_stream_bits`.
#[unsafe(no_mangle)]
pub extern "C" fn cukvashe_internal_decrypt_stream_bits(
    context: &[u64],
    stream: &mut Stream,
    bytes: &mut [u8],
    bits: usize,
) -> i32
    requires sound { IsSoundIfMarked context.now }
    requires few { bits ≤ 8 * length bytes.old }
    ensures unmarked { (result ≡ ERR_CONTEXT) ↔ ¬ (HasMark NO_MAC context.now) }
    ensures accepted { (result ≡ OK) ↔ (HasMark NO_MAC context.now × HasBegun stream.old
        × (stream.old.mode ≡ CFB1)) }
    ensures refused { (result ≡ ERR_STREAM)
        ↔ (HasMark NO_MAC context.now × ¬ (HasBegun stream.old)) }
    ensures other { (result ≡ ERR_MODE) ↔ (HasMark NO_MAC context.now × HasBegun stream.old
        × (stream.old.mode ≢ CFB1)) }
    ensures bits { result ≡ OK → (key iv : List ℕ) (p c : List Bool) → IsContextOf context.now key
        → IsBitStreamAt (encryption_of key) iv p c stream.old
        → IsBitStreamAt (encryption_of key) iv
        (p ++ first_bits bits bytes.new) (c ++ first_bits bits bytes.old) stream.new }
    ensures rest { drop bits (bits_of_bytes bytes.new) ≡ drop bits (bits_of_bytes bytes.old) }
    ensures kept { result ≢ OK → (bytes.new ≡ bytes.old) × (stream.new ≡ stream.old) }
{
    stream_modes::apply_stream_bits(Direction::Decrypt, context, stream, bytes, bits)
}
