//! Records of blocks, one after another in a list, each chained by CBC from a vector of its own.
//!
//! Encryption takes a group of records in step, a record in each lane of a batch: at each step the
//! next block of every record goes into its chain, and the chains go through the passes together.
//! Decryption waits for no other block, and takes the list a batch of blocks at a time.

ghost use Rattle.std.specs.Prelude.{◌≡◌, ◌↔◌, ◌≤◌, ◌<◌, ◌+◌, ◌-◌, ℕ, List, IsTrue, length, sum, slice_index};
ghost use Rattle.std.specs.List.{All};
ghost use Rattle.des.specs.Blocks.{IsBlock};
ghost use Rattle.des.specs.Cbc.{xor_blocks};
ghost use Rattle.des_fast.specs.Largest.{IsLargest};
ghost use Rattle.des_fast.specs.Records.{start, CbcEach, CbcDecryptsEach, GoOn};
ghost use Rattle.des_fast.specs.RecordStates.{HasBlock, AreWritten, AreChainedBelow, AreCbcDecryptedBelow};
ghost use Rattle.des_fast.specs.SpreadKeys.{AreSlicesFor};
ghost use Rattle.des_fast.specs.Transposition.{block_at};

use super::lanes::{process_filled, write_processed};
use super::{MAX_BATCH, Slice, xored};
use crate::slices::PassSlices;

/// Whether the sizes of records add up to a number.
pub fn add_up_to(sizes: &[usize], total: usize) -> bool
    ensures { IsTrue result ↔ (sum sizes.now ≡ total) }
{
    let mut left = total;
    'records: for k in 0..sizes.len() {
        let size = sizes[k];
        if left < size {
            return false;
        }
        left -= size;
    }
    left == 0
}

// The records from `from` on that go together, at most a batch, with the block at which the first
// of them begins.
#[derive(Clone, Copy)]
struct Group {
    from: usize,
    count: usize,
    start: usize,
}

// How many steps a group takes, as many as its longest record has blocks, and where the next group
// begins.
#[derive(Clone, Copy)]
struct Extent {
    steps: usize,
    end: usize,
}

impl Group {
    // The extent of the group.
    fn extent(self, sizes: &[usize]) -> Extent
        requires within { self.from + self.count ≤ length sizes.now }
        requires starts { self.start ≡ start sizes.now self.from }
        requires fits { sum sizes.now ≤ usize.MAX }
        ensures end { result.end ≡ start sizes.now (self.from + self.count) }
        ensures longest { IsLargest self.count
            (λ k. slice_index sizes.now (self.from + k)) result.steps }
    {
        let mut end = self.start;
        let mut steps = 0;
        'records: for k in 0..self.count {
            let size = sizes[self.from + k];
            end += size;
            steps = steps.max(size);
        }
        Extent { steps, end }
    }
}

// Makes the lane of each record of a group that has a block i, from 0, that block xor its chain.
fn fill_lanes(
    lanes: &mut [[u8; 8]; MAX_BATCH],
    vectors: &[[u8; 8]],
    sizes: &[usize],
    blocks: &[[u8; 8]],
    group: Group,
    i: usize,
)
    requires few { group.count ≤ 256 }
    requires within { group.from + group.count ≤ length sizes.now }
    requires starts { group.start ≡ start sizes.now group.from }
    requires vectors { length vectors.now ≡ length sizes.now }
    requires whole { length blocks.now ≡ sum sizes.now }
    ensures { (k : ℕ) → k < group.count → i < slice_index sizes.now (group.from + k)
        → block_at lanes.new k ≡ xor_blocks
        (block_at blocks.now (start sizes.now (group.from + k) + i))
        (block_at vectors.now (group.from + k)) }
{
    let mut start = group.start;
    'records: for k in 0..group.count {
        let size = sizes[group.from + k];
        if i < size {
            lanes[k] = xored(&blocks[start + i], &vectors[group.from + k]);
        }
        start += size;
    }
}

// Makes block i, from 0, of each record of a group that has one what its lane holds, and its chain
// too. The records that have ended are unchanged.
fn write_lanes(
    lanes: &[[u8; 8]; MAX_BATCH],
    vectors: &mut [[u8; 8]],
    sizes: &[usize],
    blocks: &mut [[u8; 8]],
    group: Group,
    i: usize,
)
    requires few { group.count ≤ 256 }
    requires within { group.from + group.count ≤ length sizes.now }
    requires starts { group.start ≡ start sizes.now group.from }
    requires vectors { length vectors.old ≡ length sizes.now }
    requires whole { length blocks.old ≡ sum sizes.now }
    ensures count { length blocks.new ≡ length blocks.old }
    ensures vectors { length vectors.new ≡ length vectors.old }
    ensures written { AreWritten sizes.now group.from group.count i lanes.now
        vectors.old blocks.old vectors.new blocks.new }
{
    let mut start = group.start;
    'records: for k in 0..group.count {
        let size = sizes[group.from + k];
        if i < size {
            blocks[start + i] = lanes[k];
            vectors[group.from + k] = lanes[k];
        }
        start += size;
    }
}

// Encrypts the records of a group by CBC, in step.
fn cbc_encrypt_group<S: Slice>(
    vectors: &mut [[u8; 8]],
    sizes: &[usize],
    blocks: &mut [[u8; 8]],
    group: Group,
    steps: usize,
    passes: &[PassSlices<S>],
)
    requires few { group.count ≤ S.BATCH }
    requires within { group.from + group.count ≤ length sizes.now }
    requires starts { group.start ≡ start sizes.now group.from }
    requires vectors { length vectors.old ≡ length sizes.now }
    requires whole { length blocks.old ≡ sum sizes.now }
    requires longest { (k : ℕ) → k < group.count
        → slice_index sizes.now (group.from + k) ≤ steps }
    ensures count { length blocks.new ≡ length blocks.old }
    ensures vectors { length vectors.new ≡ length vectors.old }
    ensures chained { (encryption : List ℕ → List ℕ) (first p : List (List ℕ))
        → AreSlicesFor S.BATCH S.bit passes.now encryption
        → AreChainedBelow encryption sizes.now first p vectors.old blocks.old group.from
        → AreChainedBelow encryption sizes.now first p vectors.new blocks.new
        (group.from + group.count) }
{
    let mut lanes = [[0; 8]; MAX_BATCH];
    'steps: for i in 0..steps {
        fill_lanes(&mut lanes, vectors, sizes, blocks, group, i);
        process_filled(&mut lanes, passes);
        write_lanes(&lanes, vectors, sizes, blocks, group, i);
    }
}

/// Encrypts each record by CBC from the vector at its place, a batch of records at a time, and
/// makes the vector the one with which the chain goes on.
pub(super) fn cbc_encrypt<S: Slice>(
    vectors: &mut [[u8; 8]],
    sizes: &[usize],
    blocks: &mut [[u8; 8]],
    passes: &[PassSlices<S>],
)
    requires vectors { length vectors.old ≡ length sizes.now }
    requires whole { length blocks.old ≡ sum sizes.now }
    requires blocks { All IsBlock blocks.old }
    ensures vectors { length vectors.new ≡ length vectors.old }
    ensures count { length blocks.new ≡ length blocks.old }
    ensures chained { (encryption : List ℕ → List ℕ)
        → AreSlicesFor S.BATCH S.bit passes.now encryption
        → CbcEach encryption sizes.now vectors.old blocks.old blocks.new }
    ensures goes_on { (encryption : List ℕ → List ℕ)
        → AreSlicesFor S.BATCH S.bit passes.now encryption
        → GoOn sizes.now vectors.old blocks.new vectors.new }
{
    let mut from = 0;
    let mut start = 0;
    'groups: while from < vectors.len() {
        let count = S::BATCH.min(vectors.len() - from);
        let group = Group { from, count, start };
        let extent = group.extent(sizes);
        cbc_encrypt_group(vectors, sizes, blocks, group, extent.steps, passes);
        from += count;
        start = extent.end;
    }
}

// A record, by its number from 0, with the block at which it begins.
#[derive(Clone, Copy)]
struct Record {
    number: usize,
    start: usize,
}

// The record in which a block is, from one on that does not begin after it.
fn record_with(sizes: &[usize], from: Record, place: usize) -> Record
    requires starts { from.start ≡ start sizes.now from.number }
    requires before { from.start ≤ place }
    requires within { place < sum sizes.now }
    requires fits { sum sizes.now ≤ usize.MAX }
    ensures starts { result.start ≡ start sizes.now result.number }
    ensures there { HasBlock sizes.now result.number place }
{
    let mut number = from.number;
    let mut start = from.start;
    'records: while start + sizes[number] <= place {
        start += sizes[number];
        number += 1;
    }
    Record { number, start }
}

// A part of the blocks: from which block on, how many, and the record that the first of them is in,
// or one before it.
#[derive(Clone, Copy)]
struct Span {
    from: usize,
    count: usize,
    current: Record,
}

// Takes a span of the blocks out of the chains, if the answers to its blocks are known, and
// returns the record of its last block, or of an empty span the one it was given.
fn take_out(
    vectors: &mut [[u8; 8]],
    sizes: &[usize],
    blocks: &mut [[u8; 8]],
    span: Span,
    answers: &[[u8; 8]; MAX_BATCH],
) -> Record
    requires few { span.count ≤ 256 }
    requires within { span.from + span.count ≤ length blocks.old }
    requires starts { span.current.start ≡ start sizes.now span.current.number }
    requires before { span.current.start ≤ span.from }
    requires vectors { length vectors.old ≡ length sizes.now }
    requires whole { length blocks.old ≡ sum sizes.now }
    ensures starts { result.start ≡ start sizes.now result.number }
    ensures before { result.start ≤ span.from + span.count }
    ensures count { length blocks.new ≡ length blocks.old }
    ensures vectors { length vectors.new ≡ length vectors.old }
    ensures cbc_decrypted { (decryption : List ℕ → List ℕ) (first q : List (List ℕ))
        → ((k : ℕ) → k < span.count
        → block_at answers.now k ≡ decryption (block_at blocks.old (span.from + k)))
        → AreCbcDecryptedBelow decryption sizes.now first q vectors.old blocks.old span.from
        → AreCbcDecryptedBelow decryption sizes.now first q vectors.new blocks.new
        (span.from + span.count) }
{
    let mut record = span.current;
    'answers: for k in 0..span.count {
        record = record_with(sizes, record, span.from + k);
        let ciphertext = blocks[span.from + k];
        blocks[span.from + k] = xored(&answers[k], &vectors[record.number]);
        vectors[record.number] = ciphertext;
    }
    record
}

// Takes a span of the blocks, at most a batch, out of the chains, as `take_out` does.
fn cbc_decrypt_part<S: Slice>(
    vectors: &mut [[u8; 8]],
    sizes: &[usize],
    blocks: &mut [[u8; 8]],
    span: Span,
    passes: &[PassSlices<S>],
) -> Record
    requires few { span.count ≤ S.BATCH }
    requires within { span.from + span.count ≤ length blocks.old }
    requires starts { span.current.start ≡ start sizes.now span.current.number }
    requires before { span.current.start ≤ span.from }
    requires vectors { length vectors.old ≡ length sizes.now }
    requires whole { length blocks.old ≡ sum sizes.now }
    ensures starts { result.start ≡ start sizes.now result.number }
    ensures before { result.start ≤ span.from + span.count }
    ensures count { length blocks.new ≡ length blocks.old }
    ensures vectors { length vectors.new ≡ length vectors.old }
    ensures cbc_decrypted { (decryption : List ℕ → List ℕ) (first q : List (List ℕ))
        → AreSlicesFor S.BATCH S.bit passes.now decryption
        → AreCbcDecryptedBelow decryption sizes.now first q vectors.old blocks.old span.from
        → AreCbcDecryptedBelow decryption sizes.now first q vectors.new blocks.new
        (span.from + span.count) }
{
    let mut answers = [[0; 8]; MAX_BATCH];
    let part = &blocks[span.from..span.from + span.count];
    write_processed(&mut answers, part, passes);
    take_out(vectors, sizes, blocks, span, &answers)
}

/// Takes each record out of the chain that begins with the vector at its place, a batch of blocks
/// at a time, and makes the vector the one with which the chain goes on.
pub(super) fn cbc_decrypt<S: Slice>(
    vectors: &mut [[u8; 8]],
    sizes: &[usize],
    blocks: &mut [[u8; 8]],
    passes: &[PassSlices<S>],
)
    requires vectors { length vectors.old ≡ length sizes.now }
    requires whole { length blocks.old ≡ sum sizes.now }
    ensures vectors { length vectors.new ≡ length vectors.old }
    ensures count { length blocks.new ≡ length blocks.old }
    ensures cbc_decrypted { (decryption : List ℕ → List ℕ)
        → AreSlicesFor S.BATCH S.bit passes.now decryption
        → CbcDecryptsEach decryption sizes.now vectors.old blocks.old blocks.new }
    ensures goes_on { (decryption : List ℕ → List ℕ)
        → AreSlicesFor S.BATCH S.bit passes.now decryption
        → GoOn sizes.now vectors.old blocks.old vectors.new }
{
    let mut current = Record {
        number: 0,
        start: 0,
    };
    let mut from = 0;
    'parts: while from < blocks.len() {
        let count = S::BATCH.min(blocks.len() - from);
        let span = Span {
            from,
            count,
            current,
        };
        current = cbc_decrypt_part(vectors, sizes, blocks, span, passes);
        from += count;
    }
}
