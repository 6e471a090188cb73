//! Many chains in step, of which only the last block counts, as in MACs. Each step takes the next
//! block of every list into its chain, and all chains go through the rounds together, as a batch.
//! Lists that have ended wait in their lanes.

ghost use Rattle.std.specs.Prelude.{◌≡◌, ◌≤◌, ◌<◌, ◌+◌, ◌^◌, ℕ, List, length};
ghost use Rattle.des.specs.Cbc.{xor_blocks};
ghost use Rattle.des_fast.specs.Transposition.{block_at};
ghost use Rattle.des_fast.specs.EachKey.{lane_output};
ghost use Rattle.des_fast.specs.ChainingValues.{AreChainingValues};
ghost use Rattle.des_fast.specs.Largest.{IsLargest};

use super::chain_keys::ChainKeys;
use super::lanes::{LaneKeys, process_filled};
use super::{MAX_BATCH, Slice, xored};
use crate::slices::PassSlices;

/// Lists of blocks of 8 bytes, one for each of many chains, of which a call reads block after
/// block. They are numbered from 0, and so are their blocks.
pub trait BlockLists {
    // The number of lists.
    ghost list_count: { Self → ℕ };

    // The number of blocks of list k.
    ghost count_of: { Self → ℕ → ℕ };

    // Block i of list k.
    ghost block_of: { Self → ℕ → ℕ → List ℕ };

    /// The number of lists.
    fn list_count(&self) -> usize
        ensures { result ≡ list_count self.now };

    /// The number of blocks of the list.
    fn count(&self, list: usize) -> usize
        requires { list < list_count self.now }
        ensures { result ≡ count_of self.now list };

    /// A block of the list.
    fn block(&self, list: usize, index: usize) -> [u8; 8]
        requires there { list < list_count self.now }
        requires within { index < count_of self.now list }
        ensures { result ≡ block_of self.now list index };
}

// How many blocks the longest of `count` lists has, from number `from` on, and 0 of no lists.
fn longest<L: BlockLists>(lists: &L, from: usize, count: usize) -> usize
    requires there { from + count ≤ L.list_count lists.now }
    requires fits { from + count < 2 ^ 64 }
    ensures { IsLargest count (λ k. L.count_of lists.now (from + k)) result }
{
    let mut most = 0;
    'lists: for k in 0..count {
        most = most.max(lists.count(from + k));
    }
    most
}

// Makes each lane the xor of its chain and block i of its list, if that has one.
fn add_step<L: BlockLists>(
    lanes: &mut [[u8; 8]; MAX_BATCH],
    chains: &[[u8; 8]],
    lists: &L,
    from: usize,
    i: usize,
)
    requires few { length chains.now ≤ 256 }
    requires there { from + length chains.now ≤ L.list_count lists.now }
    requires fits { from + length chains.now < 2 ^ 64 }
    ensures { (k : ℕ) → k < length chains.now → i < L.count_of lists.now (from + k)
        → block_at lanes.new k
        ≡ xor_blocks (L.block_of lists.now (from + k) i) (block_at chains.now k) }
{
    'lists: for k in 0..chains.len() {
        if i < lists.count(from + k) {
            lanes[k] = xored(&lists.block(from + k, i), &chains[k]);
        }
    }
}

// Makes each chain its lane, if its list has a block i.
fn keep_step<L: BlockLists>(
    chains: &mut [[u8; 8]],
    lanes: &[[u8; 8]; MAX_BATCH],
    lists: &L,
    from: usize,
    i: usize,
)
    requires few { length chains.old ≤ 256 }
    requires there { from + length chains.old ≤ L.list_count lists.now }
    requires fits { from + length chains.old < 2 ^ 64 }
    ensures gone_on { (k : ℕ) → k < length chains.old → i < L.count_of lists.now (from + k)
        → block_at chains.new k ≡ block_at lanes.now k }
    ensures ended { (k : ℕ) → k < length chains.old → L.count_of lists.now (from + k) ≤ i
        → block_at chains.new k ≡ block_at chains.old k }
{
    'lists: for k in 0..chains.len() {
        if i < lists.count(from + k) {
            chains[k] = lanes[k];
        }
    }
}

// Makes at most a batch of blocks the ends of the chains from them through the lists from number
// `from` on.
fn last_values_of_group<S: Slice, L: BlockLists>(
    chains: &mut [[u8; 8]],
    lists: &L,
    from: usize,
    passes: &[PassSlices<S>],
)
    requires few { length chains.old ≤ S.BATCH }
    requires there { from + length chains.old ≤ L.list_count lists.now }
    requires fits { from + length chains.old < 2 ^ 64 }
    ensures count { length chains.new ≡ length chains.old }
    ensures ends { AreChainingValues (λ k. lane_output (S.bit k) passes.now)
        (λ k. L.block_of lists.now (from + k)) (λ k. L.count_of lists.now (from + k))
        chains.old chains.new }
{
    let mut lanes = [[0; 8]; MAX_BATCH];
    'steps: for i in 0..longest(lists, from, chains.len()) {
        add_step(&mut lanes, chains, lists, from, i);
        process_filled(&mut lanes, passes);
        keep_step(chains, &lanes, lists, from, i);
    }
}

/// Makes blocks the ends of the chains from them through the list of each, a batch at a time.
pub(super) fn last_values<K: ChainKeys, L: BlockLists>(keys: &K, chains: &mut [[u8; 8]], lists: &L)
    requires keys { K.are_for keys.now (length chains.old) }
    requires there { length chains.old ≡ L.list_count lists.now }
    ensures count { length chains.new ≡ length chains.old }
    ensures ends { (encryption : ℕ → List ℕ → List ℕ) → K.encrypt keys.now encryption
        → AreChainingValues encryption (L.block_of lists.now) (L.count_of lists.now)
        chains.old chains.new }
{
    let mut buffer = LaneKeys::zeros();
    let mut from = 0;
    'groups: while from < chains.len() {
        let count = <K::Slices as Slice>::BATCH.min(chains.len() - from);
        let passes = keys.encryption(from, count, &mut buffer);
        last_values_of_group(&mut chains[from..from + count], lists, from, passes);
        from += count;
    }
}
