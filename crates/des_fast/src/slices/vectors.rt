//! Vectors of words as slices: the bits of a word are those of 64 blocks.

ghost use Rattle.std.specs.Prelude.{refl};
ghost use Rattle.std.proofs.Common.{lit≤};
ghost use Rattle.des.specs.Bits.{bits_of_bytes};
ghost use Rattle.des_fast.specs.Slices.{bit_at_place, bit_of_block};

use super::Slice;
use super::rows::{little_endian_block, little_endian_word};
use std::simd::prelude::*;

// Positions of the bytes of two vectors of 16 bytes, those of the second counted on from 16: by
// turns a byte of each, in each 16 those of the first halves, and those of the second halves.
#[rattlefmt::skip]
const FIRST_BYTES_OF_16: [usize; 16] = [
    0, 16, 1, 17, 2, 18, 3, 19, 4, 20, 5, 21, 6, 22, 7, 23,
];

#[rattlefmt::skip]
const SECOND_BYTES_OF_16: [usize; 16] = [
    8, 24, 9, 25, 10, 26, 11, 27, 12, 28, 13, 29, 14, 30, 15, 31,
];

// By turns a word of eight bytes of each.
#[rattlefmt::skip]
const FIRST_WORDS_OF_16: [usize; 16] = [
    0, 1, 2, 3, 4, 5, 6, 7, 16, 17, 18, 19, 20, 21, 22, 23,
];

#[rattlefmt::skip]
const SECOND_WORDS_OF_16: [usize; 16] = [
    8, 9, 10, 11, 12, 13, 14, 15, 24, 25, 26, 27, 28, 29, 30, 31,
];

// Positions of the bytes of two vectors of 32 bytes, those of the second counted on from 32: by
// turns a byte of each, in each 16 those of the first halves, and those of the second halves.
#[rattlefmt::skip]
const FIRST_BYTES_OF_32: [usize; 32] = [
    0, 32, 1, 33, 2, 34, 3, 35, 4, 36, 5, 37, 6, 38, 7, 39,
    16, 48, 17, 49, 18, 50, 19, 51, 20, 52, 21, 53, 22, 54, 23, 55,
];

#[rattlefmt::skip]
const SECOND_BYTES_OF_32: [usize; 32] = [
    8, 40, 9, 41, 10, 42, 11, 43, 12, 44, 13, 45, 14, 46, 15, 47,
    24, 56, 25, 57, 26, 58, 27, 59, 28, 60, 29, 61, 30, 62, 31, 63,
];

// By turns a word of eight bytes of each.
#[rattlefmt::skip]
const FIRST_WORDS_OF_32: [usize; 32] = [
    0, 1, 2, 3, 4, 5, 6, 7, 32, 33, 34, 35, 36, 37, 38, 39,
    16, 17, 18, 19, 20, 21, 22, 23, 48, 49, 50, 51, 52, 53, 54, 55,
];

#[rattlefmt::skip]
const SECOND_WORDS_OF_32: [usize; 32] = [
    8, 9, 10, 11, 12, 13, 14, 15, 40, 41, 42, 43, 44, 45, 46, 47,
    24, 25, 26, 27, 28, 29, 30, 31, 56, 57, 58, 59, 60, 61, 62, 63,
];

/// Slices of 128 blocks.
impl Slice for u64x2 {
    const BATCH: usize = 128;

    ghost BATCH = { 128 };

    ghost words = { 2 };

    ghost bit = { bit_of_block 2 };

    ghost place_bit = { bit_at_place };

    #[inline(always)]
    fn same(value: bool) -> Self {
        Self::splat(if value { u64::MAX } else { 0 })
    }

    #[inline(always)]
    fn xor(self, other: Self) -> Self {
        self ^ other
    }

    #[inline(always)]
    fn and(self, other: Self) -> Self {
        self & other
    }

    #[inline(always)]
    fn and_not(self, other: Self) -> Self {
        self & !other
    }

    #[inline(always)]
    fn or(self, other: Self) -> Self {
        self | other
    }

    #[inline(always)]
    fn not(self) -> Self {
        !self
    }

    #[inline(always)]
    fn exchange(self, lower: Self, distance: u64, mask: u64) -> [Self; 2] {
        let change = (self ^ (lower >> distance)) & Self::splat(mask);
        [self ^ change, lower ^ (change << distance)]
    }

    #[inline(always)]
    fn interleave_bytes(self, other: Self) -> [Self; 2] {
        let first = self.to_le_bytes();
        let second = other.to_le_bytes();
        [
            Self::from_le_bytes(first.shuffle(second, FIRST_BYTES_OF_16)),
            Self::from_le_bytes(first.shuffle(second, SECOND_BYTES_OF_16)),
        ]
    }

    #[inline(always)]
    fn join_words(self, other: Self) -> [Self; 2] {
        let first = self.to_le_bytes();
        let second = other.to_le_bytes();
        [
            Self::from_le_bytes(first.shuffle(second, FIRST_WORDS_OF_16)),
            Self::from_le_bytes(first.shuffle(second, SECOND_WORDS_OF_16)),
        ]
    }

    #[inline(always)]
    fn row_of(blocks: &[[u8; 8]], n: usize) -> Self {
        Self::from_array([
            little_endian_word(&blocks[2 * n]),
            little_endian_word(&blocks[2 * n + 1]),
        ])
    }

    #[inline(always)]
    fn write_row(&self, blocks: &mut [[u8; 8]], n: usize) {
        let [a, b] = self.to_array();
        blocks[2 * n] = little_endian_block(a);
        blocks[2 * n + 1] = little_endian_block(b);
    }

    ghost placed = { λ b slice. refl };

    ghost some_blocks = { lit≤ tt };

    ghost whole_words = { refl };

    ghost at_most = { lit≤ tt };

    ghost few_bytes = { lit≤ tt };

    ghost small_gaps = { lit≤ tt };

    ghost bytes = { refl };

    ghost bits = { refl };
}

/// Slices of 256 blocks.
impl Slice for u64x4 {
    const BATCH: usize = 256;

    ghost BATCH = { 256 };

    ghost words = { 4 };

    ghost bit = { bit_of_block 4 };

    ghost place_bit = { bit_at_place };

    #[inline(always)]
    fn same(value: bool) -> Self {
        Self::splat(if value { u64::MAX } else { 0 })
    }

    #[inline(always)]
    fn xor(self, other: Self) -> Self {
        self ^ other
    }

    #[inline(always)]
    fn and(self, other: Self) -> Self {
        self & other
    }

    #[inline(always)]
    fn and_not(self, other: Self) -> Self {
        self & !other
    }

    #[inline(always)]
    fn or(self, other: Self) -> Self {
        self | other
    }

    #[inline(always)]
    fn not(self) -> Self {
        !self
    }

    #[inline(always)]
    fn exchange(self, lower: Self, distance: u64, mask: u64) -> [Self; 2] {
        let change = (self ^ (lower >> distance)) & Self::splat(mask);
        [self ^ change, lower ^ (change << distance)]
    }

    #[inline(always)]
    fn interleave_bytes(self, other: Self) -> [Self; 2] {
        let first = self.to_le_bytes();
        let second = other.to_le_bytes();
        [
            Self::from_le_bytes(first.shuffle(second, FIRST_BYTES_OF_32)),
            Self::from_le_bytes(first.shuffle(second, SECOND_BYTES_OF_32)),
        ]
    }

    #[inline(always)]
    fn join_words(self, other: Self) -> [Self; 2] {
        let first = self.to_le_bytes();
        let second = other.to_le_bytes();
        [
            Self::from_le_bytes(first.shuffle(second, FIRST_WORDS_OF_32)),
            Self::from_le_bytes(first.shuffle(second, SECOND_WORDS_OF_32)),
        ]
    }

    #[inline(always)]
    fn row_of(blocks: &[[u8; 8]], n: usize) -> Self {
        Self::from_array([
            little_endian_word(&blocks[4 * n]),
            little_endian_word(&blocks[4 * n + 1]),
            little_endian_word(&blocks[4 * n + 2]),
            little_endian_word(&blocks[4 * n + 3]),
        ])
    }

    #[inline(always)]
    fn write_row(&self, blocks: &mut [[u8; 8]], n: usize) {
        let [a, b, c, d] = self.to_array();
        blocks[4 * n] = little_endian_block(a);
        blocks[4 * n + 1] = little_endian_block(b);
        blocks[4 * n + 2] = little_endian_block(c);
        blocks[4 * n + 3] = little_endian_block(d);
    }

    ghost placed = { λ b slice. refl };

    ghost some_blocks = { lit≤ tt };

    ghost whole_words = { refl };

    ghost at_most = { lit≤ tt };

    ghost few_bytes = { lit≤ tt };

    ghost small_gaps = { lit≤ tt };

    ghost bytes = { refl };

    ghost bits = { refl };
}
