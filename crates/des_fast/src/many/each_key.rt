//! Lists in which each block or each chain has a key of its own.

ghost use Rattle.std.specs.Prelude.{◌≡◌, ◌↔◌, ◌≤◌, IsOk, OnOk, OnErr, length, map};
ghost use Rattle.std.specs.Simd.Lanes.{zip2};
ghost use Rattle.des_fast.specs.Slices.{InEachBlock};
ghost use Rattle.des_fast.specs.SpreadKeys.{used};
ghost use Rattle.des_fast.specs.EachKey.{lane_output, last_part, triple_parts};
ghost use Rattle.des_fast.specs.LaneKeys.{RelateLanes, block_in};
ghost use Rattle.des_fast.specs.ChainingValues.{AreChainingValues, under_key};

use super::chain_keys::ChainKeys;
use super::lanes::{LaneKeys, PassPart, process_lanes_part};
use super::{BlockLists, MAX_BATCH, Slice, chaining_values};
use crate::Des;
use crate::slices::PassSlices;
use des::cipher::{KeyedCipher, NotEqualError};
use des::tdes::{Form, Parts, Triple};
use std::marker::PhantomData;

/// A block cipher that takes a list in which each block has a key of its own. Nothing is kept of
/// the keys, and no call reads a table at an index that depends on a key or a block.
pub trait KeyForEach: KeyedCipher + Sized {
    /// Makes the lanes' keys these, at most a batch of them, for decryption or encryption.
    fn spread_each<S: Slice>(keys: &[Self::Key], deciphers: bool, lanes: &mut LaneKeys<S>)
        requires { length keys.now ≤ S.BATCH }
        ensures { RelateLanes S.bit lanes.new
            (block_in deciphers Self.encryption Self.decryption)
            (map Self.Key.bytes_of keys.now) };

    /// Encrypts each block of 8 bytes in place under the key at its place, `S::BATCH` blocks at a
    /// time. If the two lists differ in length, the answer is `NotEqualError`, and the blocks
    /// are unchanged.
    final fn encrypt_each_by<S: Slice>(
        keys: &[Self::Key],
        blocks: &mut [[u8; 8]],
    ) -> Result<(), NotEqualError>
        ensures accepted { IsOk result ↔ (length keys.now ≡ length blocks.old) }
        ensures ok { OnOk result (blocks.new
            ≡ zip2 Self.encryption (map Self.Key.bytes_of keys.now) blocks.old) }
        ensures err { OnErr result (blocks.new ≡ blocks.old) }
    {
        process_equal::<S, Self>(keys, blocks, false)
    }

    /// Decrypts each block of 8 bytes in place under the key at its place, as `encrypt_each_by`
    /// encrypts it.
    final fn decrypt_each_by<S: Slice>(
        keys: &[Self::Key],
        blocks: &mut [[u8; 8]],
    ) -> Result<(), NotEqualError>
        ensures accepted { IsOk result ↔ (length keys.now ≡ length blocks.old) }
        ensures ok { OnOk result (blocks.new
            ≡ zip2 Self.decryption (map Self.Key.bytes_of keys.now) blocks.old) }
        ensures err { OnErr result (blocks.new ≡ blocks.old) }
    {
        process_equal::<S, Self>(keys, blocks, true)
    }

    /// Makes each block the end of the chain from it through the list at its place, all under one
    /// key, as `chaining_values_each_by` under many. If the numbers of blocks and lists differ, the
    /// answer is `NotEqualError`, and the blocks are unchanged.
    final fn chaining_values_by<S: Slice, L: BlockLists>(
        key: &Self::Key,
        chains: &mut [[u8; 8]],
        lists: &L,
    ) -> Result<(), NotEqualError>
        ensures accepted { IsOk result ↔ (length chains.old ≡ L.list_count lists.now) }
        ensures ok { OnOk result (AreChainingValues (λ k. Self.encryption (Self.Key.bytes_of key.now))
            (L.block_of lists.now) (L.count_of lists.now) chains.old chains.new) }
        ensures err { OnErr result (chains.new ≡ chains.old) }
    {
        if chains.len() != lists.list_count() {
            return Err(NotEqualError);
        }
        let mut lanes = LaneKeys::zeros();
        spread_batch::<S, Self>(&[*key; MAX_BATCH], &mut lanes);
        chaining_values::last_values(&lanes, chains, lists);
        Ok(())
    }

    /// Makes each block the end of the chain from it through the list at its place, under the key
    /// at its place: H(j + 1) = E(D(j + 1) ^ H(j)), with H(0) the block and D(j + 1) the block of
    /// the list at j. From blocks of zeros it makes the chains of CBC-MAC. The lists of a batch go
    /// in step, so that a batch takes the time of its longest list. If the numbers of keys,
    /// blocks and lists differ, the answer is `NotEqualError`, and the blocks are unchanged.
    final fn chaining_values_each_by<S: Slice, L: BlockLists>(
        keys: &[Self::Key],
        chains: &mut [[u8; 8]],
        lists: &L,
    ) -> Result<(), NotEqualError>
        ensures accepted { IsOk result ↔ ((length keys.now ≡ length chains.old)
            × (length chains.old ≡ L.list_count lists.now)) }
        ensures ok { OnOk result (AreChainingValues
            (under_key Self.encryption (map Self.Key.bytes_of keys.now))
            (L.block_of lists.now) (L.count_of lists.now) chains.old chains.new) }
        ensures err { OnErr result (chains.new ≡ chains.old) }
    {
        if keys.len() != chains.len() || chains.len() != lists.list_count() {
            return Err(NotEqualError);
        }
        chaining_values::last_values(&EachKey::<S, Self>::new(keys), chains, lists);
        Ok(())
    }
}

// A key for each chain.
#[derive(Drop)]
struct EachKey<'a, S, C: KeyForEach> {
    keys: &'a [C::Key],
    slices: PhantomData<S>,
}

impl<'a, S: Slice, C: KeyForEach> EachKey<'a, S, C> {
    // These keys, in the order of the chains.
    fn new(keys: &'a [C::Key]) -> EachKey<'a, S, C>
        ensures { result.keys.now ≡ keys.now }
    {
        EachKey {
            keys,
            slices: PhantomData,
        }
    }
}

impl<'a, S: Slice, C: KeyForEach> ChainKeys for EachKey<'a, S, C> {
    type Slices = S;

    ghost encrypt = { λ it answer. answer ≡ under_key C.encryption (map C.Key.bytes_of it.keys.now) };

    ghost are_for = { λ it count. length it.keys.now ≡ count };

    fn are_for(&self, count: usize) -> bool {
        self.keys.len() == count
    }

    fn encryption<'b>(
        &'b self,
        from: usize,
        count: usize,
        buffer: &'b mut LaneKeys<S>,
    ) -> &'b [PassSlices<S>] {
        C::spread_each::<S>(&self.keys[from..from + count], false, buffer);
        buffer.passes()
    }
}

// Makes the lanes' keys for encryption the first of these, a batch of them.
fn spread_batch<S: Slice, C: KeyForEach>(keys: &[C::Key; MAX_BATCH], lanes: &mut LaneKeys<S>)
    ensures { InEachBlock S.BATCH (λ b. lane_output (S.bit b)
        (used lanes.new.is_triple lanes.new.passes)
        ≡ under_key C.encryption (map C.Key.bytes_of keys.now) b) }
{
    C::spread_each(&keys[..S::BATCH], false, lanes);
}

// Takes at most a batch of blocks through a cipher, each under its key, which is spread over the
// lanes.
fn process_part<S: Slice, C: KeyForEach>(
    keys: &[C::Key],
    blocks: &mut [[u8; 8]],
    deciphers: bool,
    lanes: &mut LaneKeys<S>,
)
    requires same { length keys.now ≡ length blocks.old }
    requires batch { length blocks.old ≤ S.BATCH }
    ensures { blocks.new ≡ zip2 (block_in deciphers C.encryption C.decryption)
        (map C.Key.bytes_of keys.now) blocks.old }
{
    C::spread_each(keys, deciphers, lanes);
    process_lanes_part::<S>(blocks, lanes.passes());
}

// Takes each block through a cipher under its key, batch after batch, and then what is left over.
fn process_each<S: Slice, C: KeyForEach>(keys: &[C::Key], blocks: &mut [[u8; 8]], deciphers: bool)
    requires { length keys.now ≡ length blocks.old }
    ensures { blocks.new ≡ zip2 (block_in deciphers C.encryption C.decryption)
        (map C.Key.bytes_of keys.now) blocks.old }
{
    let mut lanes = LaneKeys::zeros();
    let mut from = 0;
    'parts: while from < blocks.len() {
        let count = S::BATCH.min(blocks.len() - from);
        let part = &keys[from..from + count];
        process_part::<S, C>(part, &mut blocks[from..from + count], deciphers, &mut lanes);
        from += count;
    }
}

// Encrypts or decrypts if there is a key for each block, and otherwise changes nothing.
fn process_equal<S: Slice, C: KeyForEach>(
    keys: &[C::Key],
    blocks: &mut [[u8; 8]],
    deciphers: bool,
) -> Result<(), NotEqualError>
    ensures accepted { IsOk result ↔ (length keys.now ≡ length blocks.old) }
    ensures ok { OnOk result (blocks.new ≡ zip2 (block_in deciphers C.encryption C.decryption)
        (map C.Key.bytes_of keys.now) blocks.old) }
    ensures err { OnErr result (blocks.new ≡ blocks.old) }
{
    if keys.len() != blocks.len() {
        return Err(NotEqualError);
    }
    process_each::<S, C>(keys, blocks, deciphers);
    Ok(())
}

impl KeyForEach for Des {
    fn spread_each<S: Slice>(keys: &[[u8; 8]], deciphers: bool, lanes: &mut LaneKeys<S>) {
        lanes.spread_one(keys, deciphers);
    }
}

// The number of the part of a third pass, which of two parts is the first again.
fn last_part<P: Parts>() -> usize
    ensures { result ≡ last_part P.has_three }
{
    if P::KEY_SIZE == 24 { 3 } else { 1 }
}

// The parts of a key under which the passes of a triple cipher are, in order.
fn parts_of<P: Parts, F: Form>(deciphers: bool) -> [PassPart; 3]
    ensures { result ≡ triple_parts P.has_three F.DECIPHERS_SECOND deciphers }
{
    let last = last_part::<P>();
    let second = F::DECIPHERS_SECOND;
    if deciphers {
        [
            PassPart::new(last, true),
            PassPart::new(2, !second),
            PassPart::new(1, true),
        ]
    } else {
        [
            PassPart::new(1, false),
            PassPart::new(2, second),
            PassPart::new(last, false),
        ]
    }
}

impl<P: Parts<Single = Des>, F: Form> KeyForEach for Triple<P, F> {
    fn spread_each<S: Slice>(keys: &[P::Key], deciphers: bool, lanes: &mut LaneKeys<S>) {
        lanes.spread_three(keys, &parts_of::<P, F>(deciphers));
    }
}
