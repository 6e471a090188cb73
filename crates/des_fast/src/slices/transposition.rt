//! The transposition of bits: from blocks to slices, and back.
//!
//! Each word of the vectors holds a square of 64 rows of 64 bits, and all are transposed at once,
//! in two steps: the bytes, across every eighth row, and the bits of each byte. Each step takes
//! eight rows from their places in two half blocks, where the initial permutation IP puts them, and
//! leaves eight there.

ghost use Rattle.std.specs.Prelude.{◌≡◌, ◌<◌, ◌≢◌, ◌*◌, ◌+◌, ◌/◌, ◌%◌, ℕ, false, IsTrue, map, slice_index_or, slice_set};
ghost use Rattle.des_fast.specs.Slices.{InEachBlock};
ghost use Rattle.des_fast.specs.Transposition.{pairs_places, ArePairwise, exchanged, interleaved, joined, AreBytesExchanged, AreBitsExchanged, bits_of_halves, AreBitsTransposed};

use super::Slice;

/// A half block of each block after the initial permutation.
pub(crate) type Half<S> = [S; 32];

// Exchanges the bits of the first four rows under the mask with those of rows 4, 5, 6 and 7 at this
// distance before them, which come out side by side. Three such exchanges, one after another, leave
// each row in its place.
#[inline(always)]
fn exchange_pairs<S: Slice>(rows: [S; 8], distance: u64, mask: u64) -> [S; 8]
    requires within { distance < 64 }
    requires pairs { IsTrue (pairs_places distance mask) }
    ensures { ArePairwise S.BATCH S.place_bit 4 (exchanged distance) rows result }
{
    let [a, b] = rows[0].exchange(rows[4], distance, mask);
    let [c, d] = rows[1].exchange(rows[5], distance, mask);
    let [e, f] = rows[2].exchange(rows[6], distance, mask);
    let [g, h] = rows[3].exchange(rows[7], distance, mask);
    [a, b, c, d, e, f, g, h]
}

// Takes bytes of the first four rows and of rows 4, 5, 6 and 7 by turns.
#[inline(always)]
fn interleave_pairs<S: Slice>(rows: [S; 8]) -> [S; 8]
    ensures { ArePairwise S.BATCH S.place_bit 4 interleaved rows result }
{
    let [a, b] = rows[0].interleave_bytes(rows[4]);
    let [c, d] = rows[1].interleave_bytes(rows[5]);
    let [e, f] = rows[2].interleave_bytes(rows[6]);
    let [g, h] = rows[3].interleave_bytes(rows[7]);
    [a, b, c, d, e, f, g, h]
}

// Takes words of the first four rows and of rows 4, 5, 6 and 7 by turns.
#[inline(always)]
fn join_pairs<S: Slice>(rows: [S; 8]) -> [S; 8]
    ensures { ArePairwise S.BATCH S.place_bit 4 joined rows result }
{
    let [a, b] = rows[0].join_words(rows[4]);
    let [c, d] = rows[1].join_words(rows[5]);
    let [e, f] = rows[2].join_words(rows[6]);
    let [g, h] = rows[3].join_words(rows[7]);
    [a, b, c, d, e, f, g, h]
}

/// Transposes the eight bytes of each word of eight rows. Three steps give each 16 bytes the bytes
/// of eight rows at one place of each of two words, and the last one divides these words.
#[inline(always)]
pub(super) fn exchange_bytes<S: Slice>(rows: [S; 8]) -> [S; 8]
    ensures { AreBytesExchanged S.BATCH S.place_bit rows result }
{
    join_pairs(interleave_pairs(interleave_pairs(interleave_pairs(rows))))
}

// Transposes the bits of each square of eight rows of eight bits.
#[inline(always)]
fn exchange_bits<S: Slice>(rows: [S; 8]) -> [S; 8]
    ensures { AreBitsExchanged S.BATCH S.place_bit rows result }
{
    let rows = exchange_pairs(rows, 4, 0x0f0f0f0f0f0f0f0f);
    let rows = exchange_pairs(rows, 2, 0x3333333333333333);
    exchange_pairs(rows, 1, 0x5555555555555555)
}

// The row of a bit of a byte, both from 0. Eight rows side by side in a half are those of one bit
// of each byte, from the last byte to the first; the left half has the second bit, the fourth, and
// so on.
#[inline(always)]
fn row<S: Slice>(left: &Half<S>, right: &Half<S>, byte: usize, bit: usize) -> S
    requires of_eight { byte < 8 }
    requires of_a_byte { bit < 8 }
    ensures { InEachBlock S.BATCH (λ b. S.place_bit b result
        ≡ slice_index_or (bits_of_halves (S.place_bit b) left.now right.now) (8 * byte + bit) false) }
{
    let place = 8 * (bit / 2) + 7 - byte;
    if bit % 2 == 0 {
        right[place]
    } else {
        left[place]
    }
}

// Writes the row of a bit of a byte.
#[inline(always)]
fn write_row<S: Slice>(left: &mut Half<S>, right: &mut Half<S>, byte: usize, bit: usize, row: S)
    requires of_eight { byte < 8 }
    requires of_a_byte { bit < 8 }
    ensures { InEachBlock S.BATCH (λ b. bits_of_halves (S.place_bit b) left.new right.new
        ≡ slice_set (bits_of_halves (S.place_bit b) left.old right.old) (8 * byte + bit)
        (S.place_bit b row)) }
{
    let place = 8 * (bit / 2) + 7 - byte;
    if bit % 2 == 0 {
        right[place] = row;
    } else {
        left[place] = row;
    }
}

/// Every eighth row, from row i on.
#[inline(always)]
pub(super) fn every_eighth<S: Slice>(left: &Half<S>, right: &Half<S>, i: usize) -> [S; 8]
    requires { i < 8 }
    ensures { InEachBlock S.BATCH (λ b. (j : ℕ) → j < 8
        → slice_index_or (map (S.place_bit b) result) j false
        ≡ slice_index_or (bits_of_halves (S.place_bit b) left.now right.now) (8 * j + i) false) }
{
    [
        row(left, right, 0, i),
        row(left, right, 1, i),
        row(left, right, 2, i),
        row(left, right, 3, i),
        row(left, right, 4, i),
        row(left, right, 5, i),
        row(left, right, 6, i),
        row(left, right, 7, i),
    ]
}

/// Writes eight rows in the place of every eighth row, from row i on.
#[inline(always)]
pub(super) fn write_every_eighth<S: Slice>(
    left: &mut Half<S>,
    right: &mut Half<S>,
    i: usize,
    eight: [S; 8],
)
    requires { i < 8 }
    ensures written { InEachBlock S.BATCH (λ b. (j : ℕ) → j < 8
        → slice_index_or (bits_of_halves (S.place_bit b) left.new right.new) (8 * j + i) false
        ≡ slice_index_or (map (S.place_bit b) eight) j false) }
    ensures kept { InEachBlock S.BATCH (λ b. (m : ℕ) → m % 8 ≢ i
        → slice_index_or (bits_of_halves (S.place_bit b) left.new right.new) m false
        ≡ slice_index_or (bits_of_halves (S.place_bit b) left.old right.old) m false) }
{
    for j in 0..8usize {
        write_row(left, right, j, i, eight[j]);
    }
}

// Eight rows side by side, from row 8 * i on.
#[inline(always)]
fn eight_rows<S: Slice>(left: &Half<S>, right: &Half<S>, i: usize) -> [S; 8]
    requires { i < 8 }
    ensures { InEachBlock S.BATCH (λ b. (j : ℕ) → j < 8
        → slice_index_or (map (S.place_bit b) result) j false
        ≡ slice_index_or (bits_of_halves (S.place_bit b) left.now right.now) (8 * i + j) false) }
{
    [
        row(left, right, i, 0),
        row(left, right, i, 1),
        row(left, right, i, 2),
        row(left, right, i, 3),
        row(left, right, i, 4),
        row(left, right, i, 5),
        row(left, right, i, 6),
        row(left, right, i, 7),
    ]
}

// Writes eight rows side by side, from row 8 * i on.
#[inline(always)]
fn write_eight<S: Slice>(left: &mut Half<S>, right: &mut Half<S>, i: usize, eight: [S; 8])
    requires { i < 8 }
    ensures written { InEachBlock S.BATCH (λ b. (j : ℕ) → j < 8
        → slice_index_or (bits_of_halves (S.place_bit b) left.new right.new) (8 * i + j) false
        ≡ slice_index_or (map (S.place_bit b) eight) j false) }
    ensures kept { InEachBlock S.BATCH (λ b. (m : ℕ) → m / 8 ≢ i
        → slice_index_or (bits_of_halves (S.place_bit b) left.new right.new) m false
        ≡ slice_index_or (bits_of_halves (S.place_bit b) left.old right.old) m false) }
{
    for j in 0..8usize {
        write_row(left, right, i, j, eight[j]);
    }
}

/// Transposes the bits of each byte across the eight rows of its number.
#[inline(always)]
pub(super) fn transpose_bits<S: Slice>(left: &mut Half<S>, right: &mut Half<S>)
    ensures { AreBitsTransposed S.BATCH (λ b. bits_of_halves (S.place_bit b) left.old right.old)
        (λ b. bits_of_halves (S.place_bit b) left.new right.new) }
{
    'bits: for i in 0..8usize {
        let eight = exchange_bits(eight_rows(left, right, i));
        write_eight(left, right, i, eight);
    }
}
