//! The boxes S1 to S8, and P and E after them, of one block (FIPS 46-3, cipher function), with no
//! table read at an index that depends on the block or the key, and no branch on either.
//!
//! A group of six bits chooses an entry of its box by six selections, one for each of its bits,
//! between vectors that hold the entries of all boxes.

ghost use Rattle.std.specs.Prelude.{◌≡◌, ◌<◌, ℕ, length, slice_index};
ghost use Rattle.std.specs.Int.{w64, to_be_bytes};
ghost use Rattle.std.specs.List.{flat_map};
ghost use Rattle.des.specs.Bits.{bits_of, bits_of_bytes, bits_of_word, select};
ghost use Rattle.des.specs.Tables.{expansion, permutation};
ghost use Rattle.des.specs.CipherFunction.{box_entry, substitute};
ghost use Rattle.des_fast.specs.Groups.{IsOfGroups, IsExpansion, bits_of_groups, half_of, positions_in_word};
ghost use Rattle.des_fast.specs.GroupBytes.{box_of_byte, in_order};

use crate::halves::{RoundKey, word_of};
use crate::one_block::{block_of_halves, halves_of_block};
use crate::rounds::{Groups, OneWord};
use std::simd::prelude::*;

// The entries of the boxes S1, S3, S5, S7, S2, S4, S6 and S8, in the order of the groups in a word:
// a row for the last four bits of a group, with eight entries for each value of the first two.
#[rattlefmt::skip]
static ENTRIES: [[u8; 32]; 16] = [
    [
        14, 10, 2, 4, 15, 7, 12, 13, 3, 1, 8, 3, 9, 1, 0, 10,
        4, 13, 4, 1, 0, 10, 9, 7, 15, 11, 15, 10, 5, 15, 7, 0,
    ],
    [
        0, 13, 14, 13, 3, 13, 10, 1, 10, 2, 5, 14, 12, 4, 6, 12,
        15, 1, 11, 6, 13, 3, 4, 2, 5, 4, 6, 9, 11, 9, 11, 15,
    ],
    [
        4, 0, 12, 11, 1, 13, 1, 2, 10, 13, 5, 12, 7, 2, 13, 9,
        1, 6, 2, 4, 14, 6, 14, 11, 12, 1, 9, 15, 8, 1, 0, 6,
    ],
    [
        15, 7, 11, 0, 13, 8, 15, 15, 6, 8, 0, 3, 0, 7, 1, 5,
        12, 10, 8, 11, 8, 15, 3, 1, 11, 15, 15, 5, 6, 4, 14, 12,
    ],
    [
        13, 9, 4, 2, 8, 14, 10, 8, 6, 12, 3, 9, 2, 8, 3, 3,
        14, 4, 1, 11, 7, 9, 15, 4, 9, 2, 12, 6, 12, 3, 4, 10,
    ],
    [
        7, 0, 2, 11, 4, 11, 4, 13, 12, 5, 15, 5, 1, 2, 13, 6,
        8, 13, 12, 13, 10, 0, 2, 14, 3, 14, 0, 0, 7, 5, 1, 9,
    ],
    [
        1, 14, 1, 14, 14, 3, 15, 4, 12, 7, 15, 7, 13, 5, 4, 14,
        8, 9, 11, 13, 11, 0, 5, 1, 7, 12, 5, 8, 6, 14, 10, 13,
    ],
    [
        4, 9, 12, 7, 7, 5, 2, 8, 11, 14, 10, 12, 10, 12, 14, 11,
        2, 0, 7, 8, 1, 6, 12, 7, 14, 3, 9, 15, 12, 11, 7, 0,
    ],
    [
        2, 6, 7, 15, 6, 0, 9, 6, 5, 11, 13, 5, 12, 11, 14, 5,
        13, 8, 10, 12, 10, 12, 2, 9, 3, 5, 6, 0, 9, 5, 1, 15,
    ],
    [
        14, 3, 4, 4, 15, 6, 7, 10, 9, 12, 3, 2, 6, 1, 0, 0,
        4, 6, 1, 1, 3, 10, 9, 4, 10, 11, 10, 14, 0, 12, 6, 3,
    ],
    [
        15, 3, 10, 0, 11, 6, 2, 15, 9, 4, 0, 10, 0, 12, 7, 0,
        6, 15, 13, 3, 4, 11, 8, 12, 10, 10, 3, 5, 3, 2, 13, 3,
    ],
    [
        2, 4, 7, 9, 2, 15, 12, 3, 5, 11, 9, 15, 9, 10, 11, 14,
        9, 9, 14, 4, 15, 1, 5, 10, 0, 5, 4, 2, 5, 7, 0, 5,
    ],
    [
        11, 15, 11, 8, 3, 9, 6, 11, 0, 2, 14, 6, 5, 4, 5, 12,
        2, 3, 7, 7, 13, 7, 12, 14, 5, 14, 0, 9, 2, 8, 11, 5,
    ],
    [
        13, 6, 13, 1, 8, 0, 9, 7, 3, 15, 8, 8, 11, 14, 3, 9,
        1, 8, 2, 10, 4, 13, 15, 8, 6, 2, 5, 3, 14, 2, 8, 6,
    ],
    [
        8, 5, 6, 13, 4, 10, 8, 1, 7, 8, 9, 1, 10, 15, 11, 7,
        11, 0, 8, 14, 1, 13, 3, 2, 0, 7, 14, 2, 15, 4, 6, 8,
    ],
    [
        1, 10, 1, 10, 14, 3, 5, 4, 8, 1, 6, 6, 5, 9, 8, 2,
        7, 7, 13, 7, 2, 8, 10, 13, 13, 12, 3, 12, 9, 14, 13, 11,
    ],
];

// The eight bytes of a word from the first to the last, four times and twice, by their places from
// the last to the first.
const FOUR_TIMES: [usize; 32] = [
    7, 6, 5, 4, 3, 2, 1, 0, 7, 6, 5, 4, 3, 2, 1, 0, 7, 6, 5, 4, 3, 2, 1, 0, 7, 6, 5, 4, 3, 2, 1, 0,
];

const TWICE: [usize; 16] = [7, 6, 5, 4, 3, 2, 1, 0, 7, 6, 5, 4, 3, 2, 1, 0];

// For the last two bits of the groups of E, the two before them and the first two, what P and E
// take there: the byte of the box ..
#[rattlefmt::skip]
const BYTES_LAST: [usize; 16] = [7, 4, 7, 6, 0, 0, 2, 5, 6, 3, 5, 4, 2, 1, 1, 3];

#[rattlefmt::skip]
const BYTES_MIDDLE: [usize; 16] = [2, 6, 6, 7, 3, 7, 0, 0, 4, 5, 4, 5, 1, 2, 3, 1];

#[rattlefmt::skip]
const BYTES_FIRST: [usize; 16] = [5, 0, 0, 2, 7, 4, 7, 6, 3, 2, 1, 1, 6, 3, 5, 4];

// .. and the bit of its entry.
#[rattlefmt::skip]
const BITS_LAST: [u8; 16] = [8, 8, 1, 4, 8, 4, 2, 1, 8, 4, 4, 4, 8, 4, 8, 8];

#[rattlefmt::skip]
const BITS_MIDDLE: [u8; 16] = [1, 2, 1, 4, 1, 2, 2, 1, 2, 2, 1, 8, 1, 4, 2, 2];

#[rattlefmt::skip]
const BITS_FIRST: [u8; 16] = [1, 8, 4, 2, 8, 8, 1, 4, 8, 8, 4, 8, 8, 4, 4, 4];

// The places of these bits in a group.
#[rattlefmt::skip]
const LAST: [u8; 16] = [1, 1, 1, 1, 1, 1, 1, 1, 2, 2, 2, 2, 2, 2, 2, 2];

#[rattlefmt::skip]
const MIDDLE: [u8; 16] = [4, 4, 4, 4, 4, 4, 4, 4, 8, 8, 8, 8, 8, 8, 8, 8];

#[rattlefmt::skip]
const FIRST: [u8; 16] = [16, 16, 16, 16, 16, 16, 16, 16, 32, 32, 32, 32, 32, 32, 32, 32];

/// One block.
impl Groups for u64 {
    const CHANGES_AHEAD: bool = false;

    ghost BLOCKS = { 1 };

    ghost word = { λ b groups. groups };

    #[inline(always)]
    fn count(blocks: &[[u8; 8]]) -> usize {
        1
    }

    #[inline(always)]
    fn of_blocks(blocks: &[[u8; 8]]) -> (u64, u64) {
        halves_of_block(&blocks[0])
    }

    #[inline(always)]
    fn write_blocks(blocks: &mut [[u8; 8]], left: u64, right: u64) {
        blocks[0] = block_of_halves(left, right);
    }

    #[inline(always)]
    fn with_key(self, round_key: RoundKey) -> u64 {
        self ^ round_key.groups
    }

    #[inline(always)]
    fn xor_substituted(self, others: u64) -> u64 {
        self ^ substitute(others)
    }
}

impl OneWord for u64 {
    ghost use Rattle.std.specs.Prelude.{refl};

    #[inline(always)]
    fn xor(self, other: u64) -> u64 {
        self ^ other
    }

    ghost is_one = { refl };
}

/// The substitution by S1 to S8 of the 48 bits in a word of groups, and P after it, as the word of
/// groups of its expansion E (FIPS 46-3, cipher function).
#[inline]
fn substitute(word: u64) -> u64
    requires { IsOfGroups word }
    ensures expansion { IsExpansion result }
    ensures substituted { half_of result ≡ select permutation (substitute (bits_of_groups word)) }
{
    word_of(&expanded(entries(word)))
}

// The entries of the boxes for the groups of a word, each in the byte of its group, and twice.
#[inline(always)]
fn entries(word: u64) -> u8x16
    requires { IsOfGroups word }
    ensures count { length result ≡ 16 }
    ensures entries { (i : ℕ) → i < 8 → slice_index result i
        ≡ box_entry (box_of_byte i) (bits_of 6 (slice_index (to_be_bytes w64 word) i)) }
{
    let bytes: u8x8 = u64x1::splat(word).to_le_bytes();
    let by_four = bytes.swizzle(FOUR_TIMES);
    let sixth = (by_four & u8x32::splat(1)).simd_eq(u8x32::splat(1));
    let fifth = (by_four & u8x32::splat(2)).simd_eq(u8x32::splat(2));
    let fourth = (by_four & u8x32::splat(4)).simd_eq(u8x32::splat(4));
    let third = (by_four & u8x32::splat(8)).simd_eq(u8x32::splat(8));
    // Of sixteen rows eight are left, then four, two and one.
    let a0 = sixth.select(u8x32::from_array(ENTRIES[1]), u8x32::from_array(ENTRIES[0]));
    let a1 = sixth.select(u8x32::from_array(ENTRIES[3]), u8x32::from_array(ENTRIES[2]));
    let a2 = sixth.select(u8x32::from_array(ENTRIES[5]), u8x32::from_array(ENTRIES[4]));
    let a3 = sixth.select(u8x32::from_array(ENTRIES[7]), u8x32::from_array(ENTRIES[6]));
    let a4 = sixth.select(u8x32::from_array(ENTRIES[9]), u8x32::from_array(ENTRIES[8]));
    let a5 = sixth.select(
        u8x32::from_array(ENTRIES[11]),
        u8x32::from_array(ENTRIES[10]),
    );
    let a6 = sixth.select(
        u8x32::from_array(ENTRIES[13]),
        u8x32::from_array(ENTRIES[12]),
    );
    let a7 = sixth.select(
        u8x32::from_array(ENTRIES[15]),
        u8x32::from_array(ENTRIES[14]),
    );
    let b0 = fifth.select(a1, a0);
    let b1 = fifth.select(a3, a2);
    let b2 = fifth.select(a5, a4);
    let b3 = fifth.select(a7, a6);
    let c0 = fourth.select(b1, b0);
    let c1 = fourth.select(b3, b2);
    let chosen = third.select(c1, c0);
    // Of the four entries for each byte two are left, and then one.
    let twice = bytes.swizzle(TWICE);
    let halves = (twice & u8x16::splat(32))
        .simd_eq(u8x16::splat(32))
        .select(chosen.extract::<16, 16>(), chosen.extract::<0, 16>());
    (twice & u8x16::splat(16))
        .simd_eq(u8x16::splat(16))
        .select(halves.rotate_elements_left::<8>(), halves)
}

// The bytes of the word of groups of E of P of the entries.
#[inline(always)]
fn expanded(entries: u8x16) -> [u8; 8]
    requires { length entries ≡ 16 }
    ensures { bits_of_bytes result ≡ select positions_in_word (select expansion
        (select permutation (flat_map (bits_of 4) (in_order entries)))) }
{
    let last = (entries.swizzle(BYTES_LAST) & u8x16::from_array(BITS_LAST))
        .simd_eq(u8x16::from_array(BITS_LAST))
        .select(u8x16::from_array(LAST), u8x16::splat(0));
    let middle = (entries.swizzle(BYTES_MIDDLE) & u8x16::from_array(BITS_MIDDLE))
        .simd_eq(u8x16::from_array(BITS_MIDDLE))
        .select(u8x16::from_array(MIDDLE), u8x16::splat(0));
    let first = (entries.swizzle(BYTES_FIRST) & u8x16::from_array(BITS_FIRST))
        .simd_eq(u8x16::from_array(BITS_FIRST))
        .select(u8x16::from_array(FIRST), u8x16::splat(0));
    let all = last | middle | first;
    let both = all | all.rotate_elements_left::<8>();
    both.extract::<0, 8>().to_array()
}
