//! MACs of many messages at once, under one key or a key for each: their chains go in step, 128 or
//! 256 at a time, in bit slices.
//!
//! A batch takes the time of its longest message, since a message that has ended waits in its lane.
//! You need not sort the messages; if their lengths differ much, sorted ones take less time. No
//! call reads a table at an index that depends on a key or a message.

ghost use Rattle.std.specs.Prelude.{◌≡◌, ◌↔◌, ◌≤◌, false, IsTrue, ◌<◌, ◌+◌, ◌*◌, ℕ, List, [], ◌++◌, ◌/◌, length, take, drop, slice_index, slice_index_or, map, IsOk, OnOk, OnErr};
ghost use Rattle.std.specs.Simd.Lanes.{zip2};
ghost use Rattle.des_mac.specs.Padding.{last_count, AreWholeBlocks, padded};
ghost use Rattle.des_mac.specs.CbcMac.{block_after, cbc_mac, zero_block};
ghost use Rattle.des_mac.specs.ManyMessages.{texts, text_at};

mod masked;

use crate::by_key::are_key_bytes;
use crate::mac::{Mac, are_equal};
use crate::padding::Padding;
use crate::{CbcMac, RetailMac};
use des::cipher::{KeyBytes, KeyInit, KeyedCipher, NotEqualError};
use des_fast::many::{BlockLists, KeyForEach, ManyBlocks, Slice};
pub use masked::{cmacs_by, cmacs_each_by};
use std::marker::PhantomData;

// The number of bytes in the last block of n bytes.
fn count_in_last(n: usize) -> usize
    ensures { result ≡ last_count n }
{
    if n == 0 { 0 } else { (n - 1) % 8 + 1 }
}

// Byte `place`, from 0, of two lists of bytes, one after the other.
fn joined_byte(bytes: &[u8], more: &[u8], place: usize) -> u8
    requires { place < length bytes.now + length more.now }
    ensures { result ≡ slice_index (bytes.now ++ more.now) place }
{
    if place < bytes.len() {
        bytes[place]
    } else {
        more[place - bytes.len()]
    }
}

// The eight bytes from `place` on of two lists of bytes, one after the other.
fn joined_bytes(bytes: &[u8], more: &[u8], place: usize) -> [u8; 8]
    requires { place + 8 ≤ length bytes.now + length more.now }
    ensures { result ≡ take 8 (drop place (bytes.now ++ more.now)) }
{
    let mut block = [0; 8];
    for j in 0..8 {
        block[j] = joined_byte(bytes, more, place + j);
    }
    block
}

// Block `index`, from 0, of two lists of bytes, one after the other.
fn joined_block(bytes: &[u8], more: &[u8], index: usize) -> [u8; 8]
    requires { 8 * index + 8 ≤ length bytes.now + length more.now }
    ensures { result ≡ block_after (bytes.now ++ more.now) index }
{
    let place = 8 * index;
    if place + 8 > bytes.len() {
        return joined_bytes(bytes, more, place);
    }
    let mut block = [0; 8];
    block.copy_from_slice(&bytes[place..place + 8]);
    block
}

// How many whole blocks two lists of bytes make, one after the other.
fn joined_count(bytes: &[u8], more: &[u8]) -> usize
    ensures { result ≡ (length bytes.now + length more.now) / 8 }
{
    (bytes.len() + more.len()) / 8
}

// Makes each block zeros.
fn clear(blocks: &mut [[u8; 8]])
    ensures { (k : ℕ) → k < length blocks.old → slice_index_or blocks.new k [] ≡ zero_block }
{
    for block in blocks.iter_mut() {
        *block = [0; 8];
    }
}

// A function for the proof alone: keys have as many bytes as a key has.
fn are_keys<K: KeyBytes>(keys: &[K])
    ensures { (k : ℕ) → k < length keys.now
        → length (slice_index_or (map K.bytes_of keys.now) k []) ≡ K.LEN }
{
    for key in keys {
        are_key_bytes(key);
    }
}

// Encrypts each block under one key.
fn encrypt_many_by<S: Slice, C: KeyedCipher + ManyBlocks + Drop>(
    key: &C::Key,
    blocks: &mut [[u8; 8]],
)
    ensures { blocks.new ≡ map (C.encryption (C.Key.bytes_of key.now)) blocks.old }
{
    are_key_bytes(key);
    C::new(key).encrypt_many_by::<S>(blocks);
}

// Decrypts each block under one key.
fn decrypt_many_by<S: Slice, C: KeyedCipher + ManyBlocks + Drop>(
    key: &C::Key,
    blocks: &mut [[u8; 8]],
)
    ensures { blocks.new ≡ map (C.decryption (C.Key.bytes_of key.now)) blocks.old }
{
    are_key_bytes(key);
    C::new(key).decrypt_many_by::<S>(blocks);
}

// Messages with their padding, as blocks.
#[derive(Drop)]
struct PaddedMessages<'a, P> {
    messages: &'a [&'a [u8]],
    padding: PhantomData<P>,
}

impl<P: Padding> BlockLists for PaddedMessages<'_, P> {
    ghost list_count = { λ lists. length lists.messages.now };

    ghost count_of = { λ lists k.
        length (padded P.padding_after (text_at lists.messages.now k)) / 8 };

    ghost block_of = { λ lists k i.
        block_after (padded P.padding_after (text_at lists.messages.now k)) i };

    fn list_count(&self) -> usize {
        self.messages.len()
    }

    fn count(&self, list: usize) -> usize {
        let message = self.messages[list];
        let padding = P::padding(count_in_last(message.len()));
        joined_count(message, padding)
    }

    fn block(&self, list: usize, index: usize) -> [u8; 8] {
        let message = self.messages[list];
        let padding = P::padding(count_in_last(message.len()));
        joined_block(message, padding, index)
    }
}

/// The tags of CBC-MAC of many messages under one key, `S::BATCH` at a time: as `CbcMac::mac` makes
/// each. If the numbers of messages and tags differ, the answer is `NotEqualError`, and the tags
/// are unchanged.
pub fn cbc_macs_by<S: Slice, C: KeyForEach + Drop, P: Padding>(
    key: &C::Key,
    messages: &[&[u8]],
    tags: &mut [[u8; 8]],
) -> Result<(), NotEqualError>
    ensures accepted { IsOk result ↔ (length tags.old ≡ length messages.now) }
    ensures ok { OnOk result (tags.new ≡ map
        (⟦<CbcMac<C, P> as Mac>⟧.tag_of (C.Key.bytes_of key.now)) (texts messages.now)) }
    ensures err { OnErr result (tags.new ≡ tags.old) }
{
    if tags.len() != messages.len() {
        return Err(NotEqualError);
    }
    clear(tags);
    let lists: PaddedMessages<P> = PaddedMessages {
        messages,
        padding: PhantomData,
    };
    C::chaining_values_by::<S, PaddedMessages<P>>(key, tags, &lists)
}

/// The tags of CBC-MAC of many messages, each under the key at its place. If the numbers of keys,
/// messages and tags differ, the answer is `NotEqualError`, and the tags are unchanged.
pub fn cbc_macs_each_by<S: Slice, C: KeyForEach + Drop, P: Padding>(
    keys: &[C::Key],
    messages: &[&[u8]],
    tags: &mut [[u8; 8]],
) -> Result<(), NotEqualError>
    ensures accepted { IsOk result ↔ ((length keys.now ≡ length tags.old)
        × (length tags.old ≡ length messages.now)) }
    ensures ok { OnOk result (tags.new ≡ zip2 (⟦<CbcMac<C, P> as Mac>⟧.tag_of)
        (map C.Key.bytes_of keys.now) (texts messages.now)) }
    ensures err { OnErr result (tags.new ≡ tags.old) }
{
    if keys.len() != tags.len() || tags.len() != messages.len() {
        return Err(NotEqualError);
    }
    clear(tags);
    let lists: PaddedMessages<P> = PaddedMessages {
        messages,
        padding: PhantomData,
    };
    C::chaining_values_each_by::<S, PaddedMessages<P>>(keys, tags, &lists)
}

/// The tags of the retail MAC of many messages under two keys, `S::BATCH` at a time: as
/// `RetailMac::mac` makes each. If the numbers of messages and tags differ, the answer is
/// `NotEqualError`, and the tags are unchanged.
pub fn retail_macs_by<S: Slice, C: KeyForEach + ManyBlocks + Drop, P: Padding>(
    first: &C::Key,
    second: &C::Key,
    messages: &[&[u8]],
    tags: &mut [[u8; 8]],
) -> Result<(), NotEqualError>
    ensures accepted { IsOk result ↔ (length tags.old ≡ length messages.now) }
    ensures ok { OnOk result (tags.new ≡ map (⟦<RetailMac<C, P> as Mac>⟧.tag_of
        (C.Key.bytes_of first.now ++ C.Key.bytes_of second.now)) (texts messages.now)) }
    ensures err { OnErr result (tags.new ≡ tags.old) }
{
    are_key_bytes(first);
    cbc_macs_by::<S, C, P>(first, messages, tags)?;
    decrypt_many_by::<S, C>(second, tags);
    encrypt_many_by::<S, C>(first, tags);
    Ok(())
}

/// The tags of the retail MAC of many messages, each under the two keys at its place, `S::BATCH` at
/// a time: as `RetailMac::mac` makes each. If the numbers of keys, messages and tags differ, the
/// answer is `NotEqualError`, and the tags are unchanged.
pub fn retail_macs_each_by<S: Slice, C: KeyForEach + Drop, P: Padding>(
    first: &[C::Key],
    second: &[C::Key],
    messages: &[&[u8]],
    tags: &mut [[u8; 8]],
) -> Result<(), NotEqualError>
    ensures accepted { IsOk result ↔ ((length first.now ≡ length tags.old)
        × (length second.now ≡ length tags.old) × (length tags.old ≡ length messages.now)) }
    ensures ok { OnOk result (tags.new ≡ zip2 (⟦<RetailMac<C, P> as Mac>⟧.tag_of)
        (zip2 (λ key more. key ++ more) (map C.Key.bytes_of first.now)
        (map C.Key.bytes_of second.now)) (texts messages.now)) }
    ensures err { OnErr result (tags.new ≡ tags.old) }
{
    if second.len() != tags.len() {
        return Err(NotEqualError);
    }
    are_keys(first);
    cbc_macs_each_by::<S, C, P>(first, messages, tags)?;
    C::decrypt_each_by::<S>(second, tags)?;
    C::encrypt_each_by::<S>(first, tags)
}

/// Which tags are those of their messages: `right` says of each whether it is the one at its place
/// in `macs`, the tags that were made. Every byte is looked at, wherever two differ; nothing is
/// claimed on time. If the three lists differ in length, the result is `NotEqualError`, and
/// `right` is unchanged.
pub fn verify_each(
    tags: &[[u8; 8]],
    macs: &[[u8; 8]],
    right: &mut [bool],
) -> Result<(), NotEqualError>
    ensures accepted { IsOk result ↔ ((length tags.now ≡ length right.old)
        × (length macs.now ≡ length right.old)) }
    ensures ok { OnOk result ((k : ℕ) → k < length right.old
        → IsTrue (slice_index_or right.new k false)
        ↔ (slice_index_or tags.now k [] ≡ slice_index_or macs.now k [])) }
    ensures err { OnErr result (right.new ≡ right.old) }
{
    if tags.len() != right.len() || macs.len() != right.len() {
        return Err(NotEqualError);
    }
    for k in 0..right.len() {
        right[k] = are_equal(&tags[k], &macs[k]);
    }
    Ok(())
}
