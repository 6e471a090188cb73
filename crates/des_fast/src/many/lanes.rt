//! Keys of the lanes of a batch: each block of it has a key of its own.
//!
//! The keys are transposed as blocks are, and their bits stand in slices as those of one key do
//! that is spread: a round takes as long as under one key.

ghost use Rattle.std.specs.Prelude.{◌≡◌, ◌≤◌, ◌<◌, ◌+◌, ◌*◌, ◌&&◌, ℕ, [], ◌∷◌, IsTrue, length, map, nat_lt};
ghost use Rattle.std.specs.List.{list_all};
ghost use Rattle.des.specs.Blocks.{part};
ghost use Rattle.des_fast.specs.Slices.{InEachBlock};
ghost use Rattle.des_fast.specs.Transposition.{block_at};
ghost use Rattle.des_fast.specs.RoundKeySlices.{round_keys_in};
ghost use Rattle.des_fast.specs.SpreadKeys.{used};
ghost use Rattle.des_fast.specs.EachKey.{round_keys_under, round_keys_of_parts, AreSpreadBelow, lane_output};

use crate::slices::{MAX_BATCH, PassSlices, Slice, halves_through_passes, read_blocks};
use des::cipher::KeyBytes;
use des::tdes::key_part;

/// A pass of DES under a part of a key.
#[derive(Clone, Copy)]
pub(super) struct PassPart {
    /// The number of the part, from 1.
    pub(super) number: usize,
    /// Whether the pass deciphers.
    pub(super) deciphers: bool,
}

impl PassPart {
    /// The pass under a part that deciphers, or enciphers.
    pub(super) fn new(number: usize, deciphers: bool) -> PassPart
        ensures { result ≡ record { number = number; deciphers = deciphers } }
    {
        PassPart { number, deciphers }
    }
}

/// The keys of the lanes of a batch, spread over slices for one direction: each lane's own. It
/// takes some 5,500 bytes over vectors of two words, and 11,000 over four.
#[derive(Drop)]
pub struct LaneKeys<S> {
    pub(super) passes: [PassSlices<S>; 3],
    pub(super) is_triple: bool,
}

impl<S: Slice> LaneKeys<S> {
    /// Zeros, for the caller to write over.
    #[inline(always)]
    pub(super) fn zeros() -> LaneKeys<S> {
        LaneKeys {
            passes: [PassSlices::zeros(); 3],
            is_triple: false,
        }
    }

    /// The passes of the keys: of single DES the first.
    #[inline(always)]
    pub(super) fn passes(&self) -> &[PassSlices<S>]
        ensures { result.now ≡ used self.now.is_triple self.now.passes }
    {
        if self.is_triple {
            &self.passes
        } else {
            &self.passes[..1]
        }
    }

    /// Makes the lanes' keys one pass under these keys of 8 bytes.
    pub(super) fn spread_one(&mut self, keys: &[[u8; 8]], deciphers: bool)
        requires batch { length keys.now ≤ S.BATCH }
        ensures { (k : ℕ) → k < length keys.now
            → map (round_keys_in (S.bit k)) (used self.new.is_triple self.new.passes)
            ≡ round_keys_of_parts (record { number = 1; deciphers = deciphers } ∷ [])
            (block_at keys.now k) }
    {
        spread_part(&mut self.passes[0], keys, PassPart::new(1, deciphers));
        self.is_triple = false;
    }

    /// Makes the lanes' keys three passes under parts of these keys.
    pub(super) fn spread_three<K: KeyBytes>(&mut self, keys: &[K], parts: &[PassPart; 3])
        requires batch { length keys.now ≤ S.BATCH }
        requires there { IsTrue (list_all
            (λ p. nat_lt 0 p.number && nat_lt (8 * p.number) (K.LEN + 1)) parts.now) }
        ensures { (k : ℕ) → k < length keys.now
            → map (round_keys_in (S.bit k)) (used self.new.is_triple self.new.passes)
            ≡ round_keys_of_parts parts.now (block_at (map K.bytes_of keys.now) k) }
    {
        spread_parts(&mut self.passes, keys, parts);
        self.is_triple = true;
    }
}

// Makes the first blocks those of a part of each key.
fn write_parts<K: KeyBytes>(parts: &mut [[u8; 8]; MAX_BATCH], keys: &[K], number: usize)
    requires from_one { 1 ≤ number }
    requires within { 8 * number ≤ K.LEN }
    requires batch { length keys.now ≤ 256 }
    ensures { (k : ℕ) → k < length keys.now
        → block_at parts.new k ≡ part number (block_at (map K.bytes_of keys.now) k) }
{
    'keys: for k in 0..keys.len() {
        parts[k] = key_part(keys[k].as_bytes(), number);
    }
}

// Makes the slices those of a pass under a part of each key.
fn spread_part<S: Slice, K: KeyBytes>(pass: &mut PassSlices<S>, keys: &[K], by: PassPart)
    requires from_one { 1 ≤ by.number }
    requires within { 8 * by.number ≤ K.LEN }
    requires batch { length keys.now ≤ S.BATCH }
    ensures { (k : ℕ) → k < length keys.now → round_keys_in (S.bit k) pass.new
        ≡ round_keys_under by.deciphers (part by.number (block_at (map K.bytes_of keys.now) k)) }
{
    let mut parts = [[0; 8]; MAX_BATCH];
    write_parts(&mut parts, keys, by.number);
    pass.spread_each(&parts[..S::BATCH], by.deciphers);
}

// Makes pass i, from 0, that of its part of each key, if those before it are. A third pass that
// is the first again is copied.
fn spread_pass<S: Slice, K: KeyBytes>(
    passes: &mut [PassSlices<S>; 3],
    keys: &[K],
    parts: &[PassPart; 3],
    i: usize,
)
    requires within { i < 3 }
    requires batch { length keys.now ≤ S.BATCH }
    requires there { IsTrue (list_all (λ p. nat_lt 0 p.number && nat_lt (8 * p.number) (K.LEN + 1))
        parts.now) }
    requires before { AreSpreadBelow S.bit parts.now (map K.bytes_of keys.now) passes.old i }
    ensures count { length passes.new ≡ length passes.old }
    ensures spread { AreSpreadBelow S.bit parts.now (map K.bytes_of keys.now) passes.new (i + 1) }
{
    if i == 2 && parts[2].number == parts[0].number && parts[2].deciphers == parts[0].deciphers {
        passes[2] = passes[0];
    } else {
        spread_part(&mut passes[i], keys, parts[i]);
    }
}

// Makes passes those under parts of each key.
fn spread_parts<S: Slice, K: KeyBytes>(
    passes: &mut [PassSlices<S>; 3],
    keys: &[K],
    parts: &[PassPart; 3],
)
    requires batch { length keys.now ≤ S.BATCH }
    requires there { IsTrue (list_all (λ p. nat_lt 0 p.number && nat_lt (8 * p.number) (K.LEN + 1))
        parts.now) }
    ensures { (k : ℕ) → k < length keys.now → map (round_keys_in (S.bit k)) passes.new
        ≡ round_keys_of_parts parts.now (block_at (map K.bytes_of keys.now) k) }
{
    'passes: for i in 0..3 {
        spread_pass(passes, keys, parts, i);
    }
}

/// Takes a batch of blocks through passes, each by the round keys that the slices hold for it.
pub(super) fn process_lanes<S: Slice>(blocks: &mut [[u8; 8]], passes: &[PassSlices<S>])
    requires { length blocks.old ≡ S.BATCH }
    ensures count { length blocks.new ≡ length blocks.old }
    ensures lanes { InEachBlock S.BATCH (λ b. block_at blocks.new b
        ≡ lane_output (S.bit b) passes.now (block_at blocks.old b)) }
{
    let mut left = [S::same(false); 32];
    let mut right = [S::same(false); 32];
    read_blocks(&mut left, &mut right, blocks);
    halves_through_passes(blocks, &mut left, &mut right, passes);
}

/// Takes the first lanes, a batch, through passes. A function of its own because a proof knows the
/// length of a borrowed array only if it is a parameter.
pub(super) fn process_filled<S: Slice>(lanes: &mut [[u8; 8]; MAX_BATCH], passes: &[PassSlices<S>])
    ensures { (k : ℕ) → k < S.BATCH
        → block_at lanes.new k ≡ lane_output (S.bit k) passes.now (block_at lanes.old k) }
{
    process_lanes(&mut lanes[..S::BATCH], passes);
}

/// Makes the first blocks of an array what passes make of at most a batch of blocks. They go
/// through the passes in a batch that is filled up with blocks of the array.
pub(super) fn write_processed<S: Slice>(
    answers: &mut [[u8; 8]; MAX_BATCH],
    blocks: &[[u8; 8]],
    passes: &[PassSlices<S>],
)
    requires { length blocks.now ≤ S.BATCH }
    ensures { (k : ℕ) → k < length blocks.now → block_at answers.new k
        ≡ lane_output (S.bit k) passes.now (block_at blocks.now k) }
{
    answers[..blocks.len()].copy_from_slice(blocks);
    process_filled(answers, passes);
}

/// Takes at most a batch of blocks through passes.
pub(super) fn process_lanes_part<S: Slice>(blocks: &mut [[u8; 8]], passes: &[PassSlices<S>])
    requires { length blocks.old ≤ S.BATCH }
    ensures count { length blocks.new ≡ length blocks.old }
    ensures lanes { (k : ℕ) → k < length blocks.old → block_at blocks.new k
        ≡ lane_output (S.bit k) passes.now (block_at blocks.old k) }
{
    if blocks.len() == S::BATCH {
        return process_lanes(blocks, passes);
    }
    let mut answers = [[0; 8]; MAX_BATCH];
    write_processed(&mut answers, blocks, passes);
    blocks.copy_from_slice(&answers[..blocks.len()]);
}
