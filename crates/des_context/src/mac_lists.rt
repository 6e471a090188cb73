//! The calls that make the tags of many messages, once for every cipher and every width, by the
//! number that ISO/IEC 9797-1:2011 gives the algorithm: 1 is CBC-MAC, 3 the retail MAC over DES,
//! 5 CMAC.

ghost use Rattle.std.specs.Prelude.{◌≡◌, ◌≢◌, ◌↔◌, ◌≤◌, ◌<◌, ℕ, [], ◌++◌, length, map, slice_index_or, IsOk, OnOk, OnErr};
ghost use Rattle.std.specs.Simd.Lanes.{zip2};
ghost use Rattle.des.specs.Blocks.{part};
ghost use Rattle.des.specs.Des.{encryption, decryption};
ghost use Rattle.des_mac.specs.ManyMessages.{texts};
ghost use Rattle.des_mac.specs.Padding.{padded};
ghost use Rattle.des_mac.specs.RetailMac.{retail_mac_of};
ghost use Rattle.des_context.specs.Keys.{keys_of};
ghost use Rattle.des_context.specs.MacAlgorithms.{IsMacKeyLength, mac_by};
ghost use Rattle.des_context.specs.PaddingMethods.{padding_by, status_of_each, status_of_lists};

use crate::ciphers::{CipherType, ContextCipher, dispatch_cipher};
use crate::status::{ERR_COUNTS, ERR_PADDING_METHOD, OK};
use des::cipher::{KeyBytes, NotEqualError};
use des::tdes::key_part;
use des_fast::Des;
use des_fast::many::{KeyForEach, Slice};
use des_mac::{Method1, Method2, many};

// The tags of CBC-MAC (algorithm 1, by padding method 1 or 2), or of CMAC (5), under one key.
#[inline(never)]
fn one_cipher_macs_by<C: ContextCipher + KeyForEach, S: Slice>(
    algorithm: u32,
    padding: u32,
    key: &[u8],
    messages: &[&[u8]],
    tags: &mut [[u8; 8]],
) -> Result<(), NotEqualError>
    requires one_key { algorithm ≢ 3 }
    requires key { length key.now ≡ C.KEY_SIZE }
    ensures accepted { IsOk result ↔ (length tags.old ≡ length messages.now) }
    ensures tags { OnOk result
        (tags.new ≡ map (mac_by algorithm padding key.now) (texts messages.now)) }
    ensures kept { OnErr result (tags.new ≡ tags.old) }
{
    let key = C::Key::from_bytes(key).unwrap();
    if algorithm != 1 {
        many::cmacs_by::<S, C>(&key, messages, tags)
    } else if padding == 2 {
        many::cbc_macs_by::<S, C, Method2>(&key, messages, tags)
    } else {
        many::cbc_macs_by::<S, C, Method1>(&key, messages, tags)
    }
}

// CBC-MACs or CMACs of messages, each under the key at its place.
#[inline(never)]
fn one_cipher_macs_each_by<C: ContextCipher + KeyForEach, S: Slice>(
    algorithm: u32,
    padding: u32,
    keys: &[u8],
    messages: &[&[u8]],
    tags: &mut [[u8; 8]],
) -> Result<(), NotEqualError>
    requires { algorithm ≢ 3 }
    ensures accepted { IsOk result ↔ ((length (keys_of C.KEY_SIZE keys.now) ≡ length tags.old)
        × (length tags.old ≡ length messages.now)) }
    ensures tags { OnOk result (tags.new ≡ zip2 (mac_by algorithm padding)
        (keys_of C.KEY_SIZE keys.now) (texts messages.now)) }
    ensures kept { OnErr result (tags.new ≡ tags.old) }
{
    let keys = C::keys_in(keys);
    if algorithm != 1 {
        many::cmacs_each_by::<S, C>(keys, messages, tags)
    } else if padding == 2 {
        many::cbc_macs_each_by::<S, C, Method2>(keys, messages, tags)
    } else {
        many::cbc_macs_each_by::<S, C, Method1>(keys, messages, tags)
    }
}

// The tags of the retail MAC over DES under two keys, by padding method 2 or 1.
fn retail_macs_by<S: Slice>(
    first: &[u8; 8],
    second: &[u8; 8],
    padding: u32,
    messages: &[&[u8]],
    tags: &mut [[u8; 8]],
) -> Result<(), NotEqualError>
    ensures accepted { IsOk result ↔ (length tags.old ≡ length messages.now) }
    ensures tags { OnOk result (tags.new ≡ map (λ m. retail_mac_of 8 encryption decryption
        (first.now ++ second.now) (padded (padding_by padding) m)) (texts messages.now)) }
    ensures kept { OnErr result (tags.new ≡ tags.old) }
{
    if padding == 2 {
        many::retail_macs_by::<S, Des, Method2>(first, second, messages, tags)
    } else {
        many::retail_macs_by::<S, Des, Method1>(first, second, messages, tags)
    }
}

// The tags of the retail MAC over DES, each under the two keys at its place, by padding method 2 or
// 1.
fn retail_macs_each_by<S: Slice>(
    first: &[[u8; 8]],
    second: &[[u8; 8]],
    padding: u32,
    messages: &[&[u8]],
    tags: &mut [[u8; 8]],
) -> Result<(), NotEqualError>
    ensures accepted { IsOk result ↔ ((length first.now ≡ length tags.old)
        × (length second.now ≡ length tags.old) × (length tags.old ≡ length messages.now)) }
    ensures tags { OnOk result (tags.new ≡ zip2
        (λ key m. retail_mac_of 8 encryption decryption key (padded (padding_by padding) m))
        (zip2 (λ key more. key ++ more) first.now second.now) (texts messages.now)) }
    ensures kept { OnErr result (tags.new ≡ tags.old) }
{
    if padding == 2 {
        many::retail_macs_each_by::<S, Des, Method2>(first, second, messages, tags)
    } else {
        many::retail_macs_each_by::<S, Des, Method1>(first, second, messages, tags)
    }
}

// The most messages with keys of two halves that are treated together: the halves have arrays of
// their own.
const GROUP: usize = 256;

// Half `number`, from 1, of each key of a group.
fn key_halves(keys: &[[u8; 16]], number: usize) -> [[u8; 8]; GROUP]
    requires few { length keys.now ≤ 256 }
    requires from { 1 ≤ number }
    requires to { number ≤ 2 }
    ensures { (k : ℕ) → k < length keys.now
        → slice_index_or result k [] ≡ part number (slice_index_or keys.now k []) }
{
    let mut halves = [[0; 8]; GROUP];
    'keys: for k in 0..keys.len() {
        halves[k] = key_part(&keys[k], number);
    }
    halves
}

// The tags of the retail MAC of a group of messages, each under the two keys that are the halves of
// the key at its place.
fn write_retail_group<S: Slice>(
    keys: &[[u8; 16]],
    padding: u32,
    messages: &[&[u8]],
    tags: &mut [[u8; 8]],
)
    requires as_tags { length keys.now ≡ length tags.old }
    requires as_messages { length tags.old ≡ length messages.now }
    requires few { length tags.old ≤ 256 }
    ensures { tags.new ≡ zip2
        (λ key m. retail_mac_of 8 encryption decryption key (padded (padding_by padding) m))
        keys.now (texts messages.now) }
{
    let first = key_halves(keys, 1);
    let second = key_halves(keys, 2);
    let first = &first[..keys.len()];
    let second = &second[..keys.len()];
    retail_macs_each_by::<S>(first, second, padding, messages, tags).unwrap();
}

// The tags of the retail MAC, each under the two keys that are the halves of the key at its place.
// Groups of at most 256 are treated together.
fn write_retail_macs<S: Slice>(
    keys: &[[u8; 16]],
    padding: u32,
    messages: &[&[u8]],
    tags: &mut [[u8; 8]],
) -> Result<(), NotEqualError>
    ensures accepted { IsOk result ↔ ((length keys.now ≡ length tags.old)
        × (length tags.old ≡ length messages.now)) }
    ensures tags { OnOk result (tags.new ≡ zip2
        (λ key m. retail_mac_of 8 encryption decryption key (padded (padding_by padding) m))
        keys.now (texts messages.now)) }
    ensures kept { OnErr result (tags.new ≡ tags.old) }
{
    if keys.len() != tags.len() || messages.len() != tags.len() {
        return Err(NotEqualError);
    }
    let mut from = 0;
    'groups: while from < tags.len() {
        let end = from + GROUP.min(tags.len() - from);
        write_retail_group::<S>(
            &keys[from..end],
            padding,
            &messages[from..end],
            &mut tags[from..end],
        );
        from = end;
    }
    Ok(())
}

// The tags under one key, by padding method 2 or 1.
fn macs_by<S: Slice>(
    algorithm: u32,
    padding: u32,
    key: &[u8],
    messages: &[&[u8]],
    tags: &mut [[u8; 8]],
) -> Result<(), NotEqualError>
    requires { IsMacKeyLength algorithm (length key.now) }
    ensures accepted { IsOk result ↔ (length tags.old ≡ length messages.now) }
    ensures tags { OnOk result
        (tags.new ≡ map (mac_by algorithm padding key.now) (texts messages.now)) }
    ensures kept { OnErr result (tags.new ≡ tags.old) }
{
    if algorithm == 3 {
        let (first, second) = (key_part(key, 1), key_part(key, 2));
        return retail_macs_by::<S>(&first, &second, padding, messages, tags);
    }
    dispatch_cipher!(
        CipherType::of_key_size(key.len()),
        one_cipher_macs_by::<S>(algorithm, padding, key, messages, tags)
    )
}

/// Writes the tag of each message at its place, with padding method 1 or 2, which plays no part in
/// CMAC. The status for any other padding is `ERR_PADDING_METHOD`, and for different numbers of
/// messages and tags `ERR_COUNTS`; the tags are then unchanged.
pub fn macs<S: Slice>(
    algorithm: u32,
    padding: u32,
    key: &[u8],
    messages: &[&[u8]],
    tags: &mut [[u8; 8]],
) -> i32
    requires { IsMacKeyLength algorithm (length key.now) }
    ensures status { result ≡ status_of_lists padding (length messages.now) (length tags.old) }
    ensures tags { result ≡ OK
        → tags.new ≡ map (mac_by algorithm padding key.now) (texts messages.now) }
    ensures kept { result ≢ OK → tags.new ≡ tags.old }
{
    if padding != 1 && padding != 2 {
        return ERR_PADDING_METHOD;
    }
    match macs_by::<S>(algorithm, padding, key, messages, tags) {
        Ok(()) => OK,
        Err(_) => ERR_COUNTS,
    }
}

// The tags, each under the key at its place, by padding method 2 or 1.
fn macs_each_by<S: Slice>(
    algorithm: u32,
    padding: u32,
    key_size: usize,
    keys: &[u8],
    messages: &[&[u8]],
    tags: &mut [[u8; 8]],
) -> Result<(), NotEqualError>
    requires { IsMacKeyLength algorithm key_size }
    ensures accepted { IsOk result ↔ ((length (keys_of key_size keys.now) ≡ length tags.old)
        × (length tags.old ≡ length messages.now)) }
    ensures tags { OnOk result (tags.new ≡ zip2 (mac_by algorithm padding)
        (keys_of key_size keys.now) (texts messages.now)) }
    ensures kept { OnErr result (tags.new ≡ tags.old) }
{
    if algorithm == 3 {
        return write_retail_macs::<S>(keys.as_chunks().0, padding, messages, tags);
    }
    dispatch_cipher!(
        CipherType::of_key_size(key_size),
        one_cipher_macs_each_by::<S>(algorithm, padding, keys, messages, tags)
    )
}

/// Writes the tag of each message under the key at its place: `keys` are keys of `key_size` bytes,
/// one after another. Padding and status are as for `macs`, and the status is `ERR_COUNTS` also if
/// the number of keys differs.
pub fn macs_each<S: Slice>(
    algorithm: u32,
    padding: u32,
    key_size: usize,
    keys: &[u8],
    messages: &[&[u8]],
    tags: &mut [[u8; 8]],
) -> i32
    requires { IsMacKeyLength algorithm key_size }
    ensures status { result ≡ status_of_each padding (length (keys_of key_size keys.now))
        (length messages.now) (length tags.old) }
    ensures tags { result ≡ OK → tags.new ≡ zip2 (mac_by algorithm padding)
        (keys_of key_size keys.now) (texts messages.now) }
    ensures kept { result ≢ OK → tags.new ≡ tags.old }
{
    if padding != 1 && padding != 2 {
        return ERR_PADDING_METHOD;
    }
    match macs_each_by::<S>(algorithm, padding, key_size, keys, messages, tags) {
        Ok(()) => OK,
        Err(_) => ERR_COUNTS,
    }
}
