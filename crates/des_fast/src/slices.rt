//! Bit slices: a batch of blocks at a time, a vector for each of their 64 bits, with one bit of
//! each block. A block of a batch has the same place in all of them.
//!
//! All is written once, over the width: what a slice must be is said by the trait `Slice`.

ghost use Rattle.std.specs.Prelude.{◌≡◌, ◌<◌, ◌*◌, ◌/◌, ◌%◌, ◌≤◌, ◌≢◌, ◌&&◌, ◌||◌, Bool, true, ℕ, [], ◌∷◌, IsTrue, length, not, slice_index_or};
ghost use Rattle.std.specs.Align.{type_align};
ghost use Rattle.std.specs.Mem.{type_size};
ghost use Rattle.des.specs.Bits.{bits_of_bytes, xor};
ghost use Rattle.des.specs.Blocks.{block_of_bits};
ghost use Rattle.des_fast.specs.Slices.{InEachBlock, place_of_block};
ghost use Rattle.des_fast.specs.Transposition.{ArePairwise, all_come_from, exchanged, interleaved, joined, bit_steps, byte_steps, bits_from, bytes_from, pairs_places, bits_of_lane};

mod boxes;
mod keys;
mod passes;
mod rounds;
mod rows;
mod selection;
mod transposition;
mod vectors;

pub(crate) use keys::{PassKeys, PassSlices};
pub(crate) use passes::halves_through_passes;
pub(crate) use rows::read_blocks;

/// The number of blocks in the largest batch.
pub(crate) const MAX_BATCH: usize = 256;

/// One bit of each block of a batch. A vector of words has the bits of 64 blocks in each word.
pub trait Slice: Copy {
    /// The number of blocks in a batch.
    const BATCH: usize;

    ghost BATCH: { ℕ };

    // The number of words.
    ghost words: { ℕ };

    // The bit of block b.
    ghost bit: { ℕ → Self → Bool };

    // The bit at a place: those of word w stand at the 64 places from 64 * w on.
    ghost place_bit: { ℕ → Self → Bool };

    /// The slice with the same bit for each block.
    fn same(value: bool) -> Self
        ensures { InEachBlock BATCH (λ b. bit b result ≡ value) };

    /// `self ^ other`.
    fn xor(self, other: Self) -> Self
        ensures { InEachBlock BATCH (λ b. bit b result ≡ xor (bit b self) (bit b other)) };

    /// `self & other`.
    fn and(self, other: Self) -> Self
        ensures { InEachBlock BATCH (λ b. bit b result ≡ (bit b self && bit b other)) };

    /// `self & !other`.
    fn and_not(self, other: Self) -> Self
        ensures { InEachBlock BATCH (λ b. bit b result ≡ (bit b self && not (bit b other))) };

    /// `self | other`.
    fn or(self, other: Self) -> Self
        ensures { InEachBlock BATCH (λ b. bit b result ≡ (bit b self || bit b other)) };

    /// `!self`.
    fn not(self) -> Self
        ensures { InEachBlock BATCH (λ b. bit b result ≡ not (bit b self)) };

    /// Exchanges the bits of `self` under the mask, in each word, with those of `lower` at this
    /// distance before them.
    fn exchange(self, lower: Self, distance: u64, mask: u64) -> [Self; 2]
        requires within { distance < 64 }
        requires pairs { IsTrue (pairs_places distance mask) }
        ensures { ArePairwise BATCH place_bit 1 (exchanged distance) (self ∷ lower ∷ []) result };

    /// Takes bytes of the two by turns: in each 16 bytes those of the first halves, and those of
    /// the second ones.
    fn interleave_bytes(self, other: Self) -> [Self; 2]
        ensures { ArePairwise BATCH place_bit 1 interleaved (self ∷ other ∷ []) result };

    /// Takes words of the two by turns: in each 16 bytes the first ones, and the second ones.
    fn join_words(self, other: Self) -> [Self; 2]
        ensures { ArePairwise BATCH place_bit 1 joined (self ∷ other ∷ []) result };

    /// Blocks side by side, one in each word: those after n such rows.
    fn row_of(blocks: &[[u8; 8]], n: usize) -> Self
        requires batch { length blocks.now ≡ BATCH }
        requires within { n < 64 }
        ensures { (k : ℕ) → k < BATCH → k / words ≡ n → bits_of_lane place_bit result (k % words)
            ≡ bits_of_bytes (slice_index_or blocks.now k []) };

    /// Writes blocks side by side, those after n such rows, a block of each word. All others are
    /// unchanged.
    fn write_row(&self, blocks: &mut [[u8; 8]], n: usize)
        requires batch { length blocks.old ≡ BATCH }
        requires within { n < 64 }
        ensures written { (k : ℕ) → k < BATCH → k / words ≡ n
            → slice_index_or blocks.new k []
            ≡ block_of_bits (bits_of_lane place_bit self.now (k % words)) }
        ensures kept { (k : ℕ) → k / words ≢ n
            → slice_index_or blocks.new k [] ≡ slice_index_or blocks.old k [] }
        ensures count { length blocks.new ≡ length blocks.old };

    // Rows of blocks side by side, transposed in each word, have the blocks at these places.
    ghost placed: { (b : ℕ) → (slice : Self) → bit b slice ≡ place_bit (place_of_block words b) slice };

    // A batch is not empty, has whole words, and is at most the largest one.
    ghost some_blocks: { 1 ≤ BATCH };

    ghost whole_words: { BATCH ≡ 64 * words };

    ghost at_most: { BATCH ≤ 256 };

    // A slice takes few bytes, and so do gaps before it, so that arrays of slices fit in memory.
    ghost few_bytes: { type_size Self.row ≤ 32 };

    ghost small_gaps: { type_align Self.row ≤ 64 };

    // These steps transpose the bytes of words, and the bits of bytes.
    ghost bytes: { all_come_from BATCH byte_steps bytes_from ≡ true };

    ghost bits: { all_come_from BATCH bit_steps bits_from ≡ true };
}
