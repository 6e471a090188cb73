//! CMAC (NIST SP 800-38B) of many messages at once.

ghost use Rattle.std.specs.Prelude.{◌≡◌, ◌↔◌, ◌≤◌, ◌<◌, ℕ, List, [], ◌/◌, length, map, slice_index_or, IsOk, OnOk, OnErr};
ghost use Rattle.std.specs.Simd.Lanes.{zip2};
ghost use Rattle.des_fast.specs.ChainingValues.{under_key};
ghost use Rattle.des_mac.specs.Padding.{last_count, one_bit_after};
ghost use Rattle.des_mac.specs.CbcMac.{block_after, zero_block};
ghost use Rattle.des_mac.specs.Cmac.{subkey_1, subkey_2, masked_message, cmac};
ghost use Rattle.des_mac.specs.ManyMessages.{texts, text_at};

use super::{clear, count_in_last, joined_block, joined_count};
use crate::Cmac;
use crate::cmac::doubled;
use crate::mac::Mac;
use crate::padding::{Method2, Padding};
use des::cbc::xor;
use des::cipher::NotEqualError;
use des_fast::many::{BlockLists, KeyForEach, Slice};

// The most messages with keys of their own that are treated together.
const GROUP: usize = 256;

// What goes after a message of which `count` bytes stand in its last block: nothing if that is
// whole, and otherwise a one bit and zeros.
fn mask_padding(count: usize) -> &'static [u8]
    requires { count ≤ 8 }
    ensures whole { count ≡ 8 → result.now ≡ [] }
    ensures part { count < 8 → (n : ℕ) → last_count n ≡ count → result.now ≡ one_bit_after n }
{
    if count == 8 {
        &[]
    } else {
        Method2::padding(count)
    }
}

// The subkey of a message of which `count` bytes stand in its last block, made from the block of
// zeros encrypted.
fn subkey(zeros: &[u8; 8], count: usize) -> [u8; 8]
    ensures whole { count ≡ 8 → result ≡ subkey_1 zeros.now }
    ensures part { count < 8 → result ≡ subkey_2 zeros.now }
{
    let first = doubled(zeros);
    if count < 8 { doubled(&first) } else { first }
}

// The number of blocks of a message that are chained.
fn masked_count(message: &[u8]) -> usize
    ensures { (zeros : List ℕ) → result ≡ length (masked_message zeros message.now) / 8 }
{
    joined_count(message, mask_padding(count_in_last(message.len())))
}

// Block `index`, from 0, of those of a message that are chained.
fn masked_block(message: &[u8], zeros: &[u8; 8], index: usize) -> [u8; 8]
    requires { index < length (masked_message zeros.now message.now) / 8 }
    ensures { result ≡ block_after (masked_message zeros.now message.now) index }
{
    let count = count_in_last(message.len());
    let padding = mask_padding(count);
    let mut block = joined_block(message, padding, index);
    if index + 1 == joined_count(message, padding) {
        xor(&mut block, &subkey(zeros, count));
    }
    block
}

// Messages with their last block masked under one key, of which the block of zeros is encrypted.
#[derive(Drop)]
struct MaskedMessages<'a> {
    messages: &'a [&'a [u8]],
    zeros: [u8; 8],
}

impl BlockLists for MaskedMessages<'_> {
    ghost list_count = { λ lists. length lists.messages.now };

    ghost count_of = { λ lists k.
        length (masked_message lists.zeros (text_at lists.messages.now k)) / 8 };

    ghost block_of = { λ lists k i.
        block_after (masked_message lists.zeros (text_at lists.messages.now k)) i };

    fn list_count(&self) -> usize {
        self.messages.len()
    }

    fn count(&self, list: usize) -> usize {
        masked_count(self.messages[list])
    }

    fn block(&self, list: usize, index: usize) -> [u8; 8] {
        masked_block(self.messages[list], &self.zeros, index)
    }
}

// Messages with their last block masked, each under a key of its own: of each key the block of
// zeros is encrypted.
#[derive(Drop)]
struct MaskedByEach<'a> {
    messages: &'a [&'a [u8]],
    zeros: &'a [[u8; 8]],
    ghost as_many: { length zeros.now ≡ length messages.now },
}

impl BlockLists for MaskedByEach<'_> {
    ghost list_count = { λ lists. length lists.messages.now };

    ghost count_of = { λ lists k. length (masked_message (slice_index_or lists.zeros.now k [])
        (text_at lists.messages.now k)) / 8 };

    ghost block_of = { λ lists k i. block_after (masked_message
        (slice_index_or lists.zeros.now k []) (text_at lists.messages.now k)) i };

    fn list_count(&self) -> usize {
        self.messages.len()
    }

    fn count(&self, list: usize) -> usize {
        masked_count(self.messages[list])
    }

    fn block(&self, list: usize, index: usize) -> [u8; 8] {
        masked_block(self.messages[list], &self.zeros[list], index)
    }
}

// Encrypts each block under the key at its place, if there is a key for each block.
fn encrypt_each<S: Slice, C: KeyForEach>(keys: &[C::Key], blocks: &mut [[u8; 8]])
    requires { length keys.now ≡ length blocks.old }
    ensures { blocks.new ≡ zip2 C.encryption (map C.Key.bytes_of keys.now) blocks.old }
{
    C::encrypt_each_by::<S>(keys, blocks).unwrap();
}

// The block of zeros, encrypted under a key.
fn zeros_under<S: Slice, C: KeyForEach>(key: &C::Key) -> [u8; 8]
    ensures { result ≡ C.encryption (C.Key.bytes_of key.now) zero_block }
{
    let mut blocks = [[0; 8]];
    encrypt_each::<S, C>(&[*key], &mut blocks);
    blocks[0]
}

// Makes blocks what each key makes of the block of zeros.
fn zeros_under_each<S: Slice, C: KeyForEach>(keys: &[C::Key], blocks: &mut [[u8; 8]])
    requires { length keys.now ≡ length blocks.old }
    ensures { (k : ℕ) → k < length keys.now → slice_index_or blocks.new k []
        ≡ under_key C.encryption (map C.Key.bytes_of keys.now) k zero_block }
{
    clear(blocks);
    encrypt_each::<S, C>(keys, blocks);
}

// Makes the tags of a group of messages, each under the key at its place.
fn write_group<S: Slice, C: KeyForEach>(keys: &[C::Key], messages: &[&[u8]], tags: &mut [[u8; 8]])
    requires as_tags { length keys.now ≡ length tags.old }
    requires as_messages { length tags.old ≡ length messages.now }
    requires few { length tags.old ≤ 256 }
    ensures { tags.new ≡ zip2 (λ key m. cmac (C.encryption key) m)
        (map C.Key.bytes_of keys.now) (texts messages.now) }
{
    let mut blocks = [[0; 8]; GROUP];
    let zeros = &mut blocks[..keys.len()];
    zeros_under_each::<S, C>(keys, zeros);
    clear(tags);
    let lists = MaskedByEach { messages, zeros };
    C::chaining_values_each_by::<S, MaskedByEach>(keys, tags, &lists).unwrap();
}

/// The tags of CMAC of many messages under one key, `S::BATCH` at a time: as `Cmac::mac` makes
/// each. If the numbers of messages and tags differ, the answer is `NotEqualError`, and the tags
/// are unchanged.
pub fn cmacs_by<S: Slice, C: KeyForEach + Drop>(
    key: &C::Key,
    messages: &[&[u8]],
    tags: &mut [[u8; 8]],
) -> Result<(), NotEqualError>
    ensures accepted { IsOk result ↔ (length tags.old ≡ length messages.now) }
    ensures ok { OnOk result (tags.new ≡ map
        (⟦<Cmac<C> as Mac>⟧.tag_of (C.Key.bytes_of key.now)) (texts messages.now)) }
    ensures err { OnErr result (tags.new ≡ tags.old) }
{
    if tags.len() != messages.len() {
        return Err(NotEqualError);
    }
    clear(tags);
    let lists = MaskedMessages {
        messages,
        zeros: zeros_under::<S, C>(key),
    };
    C::chaining_values_by::<S, MaskedMessages>(key, tags, &lists)
}

/// The tags of CMAC of many messages, each under the key at its place, at most 256 at a time.
/// If the numbers of keys, messages and tags differ, the answer is `NotEqualError`, and the tags
/// are unchanged.
pub fn cmacs_each_by<S: Slice, C: KeyForEach + Drop>(
    keys: &[C::Key],
    messages: &[&[u8]],
    tags: &mut [[u8; 8]],
) -> Result<(), NotEqualError>
    ensures accepted { IsOk result ↔ ((length keys.now ≡ length tags.old)
        × (length tags.old ≡ length messages.now)) }
    ensures ok { OnOk result (tags.new ≡ zip2 (⟦<Cmac<C> as Mac>⟧.tag_of)
        (map C.Key.bytes_of keys.now) (texts messages.now)) }
    ensures err { OnErr result (tags.new ≡ tags.old) }
{
    if keys.len() != tags.len() || tags.len() != messages.len() {
        return Err(NotEqualError);
    }
    let mut from = 0;
    'groups: while from < tags.len() {
        let end = from + GROUP.min(tags.len() - from);
        write_group::<S, C>(&keys[from..end], &messages[from..end], &mut tags[from..end]);
        from = end;
    }
    Ok(())
}
