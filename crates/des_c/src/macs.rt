//! The exports of MACs of one message, by the number that ISO/IEC 9797-1:2011 gives the algorithm:
//! 1 is CBC-MAC, 3 the retail MAC over DES, 5 CMAC.

ghost use Rattle.std.specs.Prelude.{◌≡◌, ◌≢◌, ◌↔◌, ◌<◌, ℕ, List, [], ◌++◌, length, drop, slice_index_or, false, IsTrue};
ghost use Rattle.des_mac.specs.Tags.{IsTruncated};
ghost use Rattle.des_context.specs.Contexts.{IsMarked};
ghost use Rattle.des_context.specs.MacAlgorithms.{IsAlgorithm, mac_by};
ghost use Rattle.des_context.specs.MacContexts.{HasMacCipherType, HasMacMark, IsMacOf, IsSoundMacIfMarked, key_size_of, words_of_cbc};
ghost use Rattle.des_context.specs.PaddingMethods.{status_of};

use des_context::macs::{self, MessageState};
use des_context::status::{ERR_CONTEXT, ERR_COUNTS, ERR_TAG, OK};
use des_mac::many;

/// Makes the words of a MAC of the bytes of a key, without tables, so that its calls read none, or
/// with them, and of the message of no bytes, with padding method 1 or 2, which plays no part in
/// CMAC. The status for a key of a length that the words cannot hold is `ERR_KEY_LENGTH`, and for
/// any other padding `ERR_PADDING_METHOD`; the words and the message are then unchanged.
#[unsafe(no_mangle)]
pub extern "C" fn cukvashe_internal_mac_init(
    algorithm: u32,
    context: &mut [u64],
    message: &mut MessageState,
    key: &[u8],
    padding: u32,
    no_tables: bool,
) -> i32
    requires by { IsAlgorithm algorithm }
    requires cipher_type { HasMacCipherType algorithm context.old }
    ensures status { result ≡ status_of (key_size_of context.old) (length key.now) padding }
    ensures made { result ≡ OK → IsMacOf algorithm context.new message.new padding key.now [] }
    ensures no_tables { result ≡ OK → IsMarked algorithm no_tables (words_of_cbc algorithm context.new) }
    ensures second_no_tables { result ≡ OK → algorithm ≡ 3
        → IsMarked algorithm no_tables (drop 17 context.new) }
    ensures kept { result ≢ OK → (context.new ≡ context.old) × (message.new ≡ message.old) }
{
    macs::init(algorithm, context, message, key, padding, no_tables)
}

/// Adds bytes to the message, after those that it has. The status for words that no init made for
/// the algorithm is `ERR_CONTEXT`; the message is then unchanged.
#[unsafe(no_mangle)]
pub extern "C" fn cukvashe_internal_mac_update(
    algorithm: u32,
    context: &[u64],
    message: &mut MessageState,
    bytes: &[u8],
) -> i32
    requires cipher_type { HasMacCipherType algorithm context.now }
    requires sound { IsSoundMacIfMarked algorithm context.now message.old }
    ensures accepted { (result ≡ OK) ↔ HasMacMark algorithm context.now }
    ensures unmarked { (result ≡ ERR_CONTEXT) ↔ ¬ (HasMacMark algorithm context.now) }
    ensures added { result ≡ OK → (padding : ℕ) (key m : List ℕ)
        → IsMacOf algorithm context.now message.old padding key m
        → IsMacOf algorithm context.now message.new padding key (m ++ bytes.now) }
    ensures kept { result ≢ OK → message.new ≡ message.old }
{
    macs::update(algorithm, context, message, bytes)
}

/// Writes the tag of the message, which may go on. The status is as for
/// `cukvashe_internal_mac_update`; the tag of words that it refuses is unchanged.
#[unsafe(no_mangle)]
pub extern "C" fn cukvashe_internal_mac_final(
    algorithm: u32,
    context: &[u64],
    message: &MessageState,
    tag: &mut [u8; 8],
) -> i32
    requires cipher_type { HasMacCipherType algorithm context.now }
    requires sound { IsSoundMacIfMarked algorithm context.now message.now }
    ensures accepted { (result ≡ OK) ↔ HasMacMark algorithm context.now }
    ensures unmarked { (result ≡ ERR_CONTEXT) ↔ ¬ (HasMacMark algorithm context.now) }
    ensures tag { result ≡ OK → (padding : ℕ) (key m : List ℕ)
        → IsMacOf algorithm context.now message.now padding key m
        → tag.new ≡ mac_by algorithm padding key m }
    ensures kept { result ≢ OK → tag.new ≡ tag.old }
{
    macs::write_tag(algorithm, context, message, tag)
}

/// Accepts the first 4 to 8 bytes of the tag of the message: the status of all others is `ERR_TAG`.
/// That of words that no init made for the algorithm is `ERR_CONTEXT`.
#[unsafe(no_mangle)]
pub extern "C" fn cukvashe_internal_mac_verify(
    algorithm: u32,
    context: &[u64],
    message: &MessageState,
    tag: &[u8],
) -> i32
    requires cipher_type { HasMacCipherType algorithm context.now }
    requires sound { IsSoundMacIfMarked algorithm context.now message.now }
    ensures unmarked { (result ≡ ERR_CONTEXT) ↔ ¬ (HasMacMark algorithm context.now) }
    ensures accepted { (padding : ℕ) (key m : List ℕ)
        → IsMacOf algorithm context.now message.now padding key m
        → (result ≡ OK) ↔ (HasMacMark algorithm context.now
        × IsTruncated tag.now (mac_by algorithm padding key m)) }
    ensures refused { (padding : ℕ) (key m : List ℕ)
        → IsMacOf algorithm context.now message.now padding key m
        → (result ≡ ERR_TAG) ↔ (HasMacMark algorithm context.now
        × ¬ (IsTruncated tag.now (mac_by algorithm padding key m))) }
{
    macs::verify(algorithm, context, message, tag)
}

/// Writes of each tag whether it is the one at its place in `expected`. Every byte is looked at,
/// wherever two differ. The status for lists of different lengths is `ERR_COUNTS`; `right` then is
/// unchanged.
#[unsafe(no_mangle)]
pub extern "C" fn cukvashe_internal_compare_tags(
    tags: &[[u8; 8]],
    expected: &[[u8; 8]],
    right: &mut [bool],
) -> i32
    ensures accepted { (result ≡ OK) ↔ ((length tags.now ≡ length right.old)
        × (length expected.now ≡ length right.old)) }
    ensures refused { (result ≡ ERR_COUNTS) ↔ ¬ ((length tags.now ≡ length right.old)
        × (length expected.now ≡ length right.old)) }
    ensures count { length right.new ≡ length right.old }
    ensures right { result ≡ OK → (k : ℕ) → k < length right.old
        → IsTrue (slice_index_or right.new k false)
        ↔ (slice_index_or tags.now k [] ≡ slice_index_or expected.now k []) }
    ensures kept { result ≢ OK → right.new ≡ right.old }
{
    match many::verify_each(tags, expected, right) {
        Ok(()) => OK,
        Err(_) => ERR_COUNTS,
    }
}
