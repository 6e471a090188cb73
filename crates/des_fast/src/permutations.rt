//! The initial and the final permutation of two blocks side by side. Each of their rows is a
//! column: one bit of each of eight bytes, which a vector gives at once. For one block `one_block`
//! has the same, by `des::utils`; `halves` tells the layout.

ghost use Rattle.std.specs.Prelude.{◌≡◌, ◌<◌, ◌+◌, ◌-◌, ◌*◌, ◌/◌, ◌%◌, ◌^◌, ◌++◌, ℕ, List, Bool, length, map, slice_index};
ghost use Rattle.std.specs.Int.{w64, bit_at, to_le_bytes};
ghost use Rattle.des.specs.Bits.{bits_of_word};
ghost use Rattle.des_fast.specs.Groups.{IsExpansion, half_of};
ghost use Rattle.des_fast.specs.HalfBlocks.{first_halves, last_block};
ghost use Rattle.des_fast.specs.SideBySide.{AreExpansions, lane};
ghost use Rattle.des_fast.specs.Slices.{InEachBlock};

use std::simd::prelude::*;

// The bytes of two blocks, one after the other.
const BOTH: [usize; 16] = [0, 1, 2, 3, 4, 5, 6, 7, 8, 9, 10, 11, 12, 13, 14, 15];

// The groups 7, 5, 3 and 1 of the words of two vectors, a group of the one and then of the other:
// those of the first words, and then those of the second.
const ODD_GROUPS: [usize; 16] = [4, 20, 5, 21, 6, 22, 7, 23, 12, 28, 13, 29, 14, 30, 15, 31];

// The groups 8, 6, 4 and 2.
const EVEN_GROUPS: [usize; 16] = [0, 16, 1, 17, 2, 18, 3, 19, 8, 24, 9, 25, 10, 26, 11, 27];

// Every other byte of two vectors.
#[rattlefmt::skip]
const EVERY_OTHER: [usize; 16] = [0, 2, 4, 6, 8, 10, 12, 14, 16, 18, 20, 22, 24, 26, 28, 30];

// The most significant bit of each of sixteen bytes, that of the first byte in the last place.
#[inline(always)]
fn column(bytes: u8x16) -> u64
    ensures within { result < 2 ^ 16 }
    ensures bits { (i : ℕ) → i < 16 → bit_at result i ≡ bit_at (slice_index bytes i) 7 }
{
    bytes.simd_ge(u8x16::splat(0x80)).to_bitmask()
}

// The columns of the bits 1 to 8 of sixteen bytes, each as `column` has that of bit 1.
#[inline(always)]
fn columns(bytes: u8x16) -> [u64; 8]
    ensures within { (k : ℕ) → k < 8 → slice_index result k < 2 ^ 16 }
    ensures bits { (k i : ℕ) → k < 8 → i < 16
        → bit_at (slice_index result k) i ≡ bit_at (slice_index bytes i) (7 - k) }
{
    let from_second = bytes + bytes;
    let from_third = from_second + from_second;
    let from_fourth = from_third + from_third;
    let from_fifth = from_fourth + from_fourth;
    let from_sixth = from_fifth + from_fifth;
    let from_seventh = from_sixth + from_sixth;
    let last = from_seventh + from_seventh;
    [
        column(bytes),
        column(from_second),
        column(from_third),
        column(from_fourth),
        column(from_fifth),
        column(from_sixth),
        column(from_seventh),
        column(last),
    ]
}

// A number with another of two bytes after it.
#[inline(always)]
fn joined(number: u64, last: u64) -> u64
    requires number { number < 2 ^ 48 }
    requires last { last < 2 ^ 16 }
    ensures { result ≡ number * 2 ^ 16 + last }
{
    (number << 16) | last
}

// The words of two blocks whose rows are these columns, from the last row to the first.
#[inline(always)]
fn rows(columns: [u64; 8]) -> u64x2
    requires { (k : ℕ) → k < 8 → slice_index columns k < 2 ^ 16 }
    ensures { InEachBlock 2 (λ b. to_le_bytes w64 (lane b result)
        ≡ map (λ column. column / 2 ^ (8 * b) % 2 ^ 8) columns) }
{
    let last = joined(
        joined(joined(columns[3], columns[2]), columns[1]),
        columns[0],
    );
    let first = joined(
        joined(joined(columns[7], columns[6]), columns[5]),
        columns[4],
    );
    let words = u64x2::from_array([last, first]);
    let low: u8x16 = words.to_le_bytes();
    let high: u8x16 = (words >> 8).to_le_bytes();
    u64x2::from_le_bytes(low.shuffle(high, EVERY_OTHER))
}

// The expansions of half blocks that stand twice in each word: as in `halves_of_block`, the groups
// 1, 3, 5 and 7 are a half rotated right by three, the groups 2, 4, 6 and 8 one rotated left by
// one.
#[inline(always)]
fn expanded(words: u64x2) -> u64x2
    ensures { InEachBlock 2 (λ b. (half : List Bool) → length half ≡ 32
        → bits_of_word (lane b words) ≡ half ++ half
        → IsExpansion (lane b result) × (half_of (lane b result) ≡ half)) }
{
    ((words << 29) & u64x2::splat(0x3f3f3f3f00000000))
        | ((words >> 31) & u64x2::splat(0x000000003f3f3f3f))
}

/// The halves that the rounds of two blocks begin with.
#[inline(always)]
pub(crate) fn halves_of(first: &[u8; 8], second: &[u8; 8]) -> (u64x2, u64x2)
    ensures left { AreExpansions 2 lane result.0 }
    ensures right { AreExpansions 2 lane result.1 }
    ensures first { (half_of (lane 0 result.0), half_of (lane 0 result.1)) ≡ first_halves first.now }
    ensures second { (half_of (lane 1 result.0), half_of (lane 1 result.1))
        ≡ first_halves second.now }
{
    let first = u8x8::from_array(*first);
    let second = u8x8::from_array(*second);
    let c = columns(first.shuffle(second, BOTH));
    // Bits 2, 4, 6 and 8 of the bytes make the left half, the other bits the right one.
    let left = rows([c[7], c[5], c[3], c[1], c[7], c[5], c[3], c[1]]);
    let right = rows([c[6], c[4], c[2], c[0], c[6], c[4], c[2], c[0]]);
    (expanded(left), expanded(right))
}

/// The blocks that the halves after the rounds make.
#[inline(always)]
pub(crate) fn blocks_of(left: u64x2, right: u64x2) -> ([u8; 8], [u8; 8])
    ensures first { result.0 ≡ last_block (half_of (lane 0 left), half_of (lane 0 right)) }
    ensures second { result.1 ≡ last_block (half_of (lane 1 left), half_of (lane 1 right)) }
{
    // The middle four bits of a group are the half's own. Those of the groups 1, 3, 5 and 7 come
    // first in the bytes of the swapped halves, those of the groups 2, 4, 6 and 8 last.
    let left: u8x16 = left.to_le_bytes();
    let right: u8x16 = right.to_le_bytes();
    let o = columns(right.shuffle(left, ODD_GROUPS));
    let e = columns(right.shuffle(left, EVEN_GROUPS));
    let [first, second] = rows([e[6], e[5], e[4], e[3], o[6], o[5], o[4], o[3]]).to_array();
    (first.to_le_bytes(), second.to_le_bytes())
}
