//! Blocks as rows of bits, and as slices: the first row has the first blocks of a batch, one in
//! each word, the next row the next ones.

ghost use Rattle.std.specs.Prelude.{◌≡◌, ◌<◌, ◌≢◌, ◌/◌, ◌%◌, ℕ, length};
ghost use Rattle.std.specs.Int.{to_le_bytes, w64};
ghost use Rattle.des.specs.Bits.{bits_of_bytes};
ghost use Rattle.des.specs.Blocks.{block_of_bits};
ghost use Rattle.des_fast.specs.Transposition.{AreSlicesOf, AreBlocksOf, bits_of_row, block_at};

use super::Slice;
use super::transposition::{
    Half, every_eighth, exchange_bytes, transpose_bits, write_every_eighth,
};

/// The word of a block, whose first byte is the least significant: the bytes of a vector are then
/// in memory order. A function of its own because a proof knows of an element of a list of blocks
/// only that it is a block.
#[inline(always)]
pub(super) fn little_endian_word(block: &[u8; 8]) -> u64
    ensures { to_le_bytes w64 result ≡ block.now }
{
    u64::from_le_bytes(*block)
}

/// The block of a word, whose first byte is the least significant.
#[inline(always)]
pub(super) fn little_endian_block(word: u64) -> [u8; 8]
    ensures { result ≡ block_of_bits (bits_of_bytes (to_le_bytes w64 word)) }
{
    word.to_le_bytes()
}

// Every eighth row of a batch of blocks, from row i on.
#[inline(always)]
fn rows_of_blocks<S: Slice>(blocks: &[[u8; 8]], i: usize) -> [S; 8]
    requires batch { length blocks.now ≡ S.BATCH }
    requires within { i < 8 }
    ensures { (k : ℕ) → k < S.BATCH → k / S.words % 8 ≡ i
        → bits_of_row S.place_bit result (k / S.words / 8) (k % S.words)
        ≡ bits_of_bytes (block_at blocks.now k) }
{
    [
        S::row_of(blocks, i),
        S::row_of(blocks, 8 + i),
        S::row_of(blocks, 16 + i),
        S::row_of(blocks, 24 + i),
        S::row_of(blocks, 32 + i),
        S::row_of(blocks, 40 + i),
        S::row_of(blocks, 48 + i),
        S::row_of(blocks, 56 + i),
    ]
}

// Writes the blocks of every eighth row of a batch, from row i on.
#[inline(always)]
fn write_rows<S: Slice>(blocks: &mut [[u8; 8]], i: usize, rows: &[S; 8])
    requires batch { length blocks.old ≡ S.BATCH }
    requires within { i < 8 }
    ensures written { (k : ℕ) → k < S.BATCH → k / S.words % 8 ≡ i → block_at blocks.new k
        ≡ block_of_bits (bits_of_row S.place_bit rows.now (k / S.words / 8) (k % S.words)) }
    ensures kept { (k : ℕ) → k / S.words % 8 ≢ i → block_at blocks.new k ≡ block_at blocks.old k }
    ensures count { length blocks.new ≡ length blocks.old }
{
    for j in 0..8usize {
        rows[j].write_row(blocks, 8 * j + i);
    }
}

/// Makes halves those of a batch of blocks after the initial permutation.
pub(crate) fn read_blocks<S: Slice>(left: &mut Half<S>, right: &mut Half<S>, blocks: &[[u8; 8]])
    requires { length blocks.now ≡ S.BATCH }
    ensures { AreSlicesOf S.BATCH S.bit blocks.now left.new right.new }
{
    'bytes: for i in 0..8usize {
        let eight = exchange_bytes(rows_of_blocks(blocks, i));
        write_every_eighth(left, right, i, eight);
    }
    transpose_bits(left, right);
}

/// Writes the batch of blocks that two halves make under the final permutation. The halves are used
/// up.
pub(crate) fn write_blocks<S: Slice>(
    blocks: &mut [[u8; 8]],
    left: &mut Half<S>,
    right: &mut Half<S>,
)
    requires { length blocks.old ≡ S.BATCH }
    ensures written { AreBlocksOf S.BATCH S.bit left.old right.old blocks.new }
    ensures count { length blocks.new ≡ length blocks.old }
{
    transpose_bits(left, right);
    'bytes: for i in 0..8usize {
        let eight = exchange_bytes(every_eighth(left, right, i));
        write_rows(blocks, i, &eight);
    }
}
