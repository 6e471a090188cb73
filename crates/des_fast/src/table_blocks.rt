//! Two or three blocks side by side, by tables.

ghost use Rattle.des_fast.specs.TableBlocks.{word_of_two, word_of_three};

use crate::halves::RoundKey;
use crate::one_block::{block_of_halves, halves_of_block};
use crate::permutations::{blocks_of, halves_of};
use crate::rounds::Groups;
use crate::tables::xor_substituted;
use std::simd::prelude::*;

/// A word of groups of each of two blocks.
#[derive(Clone, Copy)]
pub struct TwoBlocks {
    first: u64,
    second: u64,
}

impl Groups for TwoBlocks {
    const CHANGES_AHEAD: bool = true;

    ghost BLOCKS = { 2 };

    ghost word = { word_of_two };

    #[inline(always)]
    fn count(blocks: &[[u8; 8]]) -> usize {
        2
    }

    #[inline(always)]
    fn of_blocks(blocks: &[[u8; 8]]) -> (TwoBlocks, TwoBlocks) {
        let (left, right) = halves_of(&blocks[0], &blocks[1]);
        let [first_left, second_left] = left.to_array();
        let [first_right, second_right] = right.to_array();
        (
            TwoBlocks {
                first: first_left,
                second: second_left,
            },
            TwoBlocks {
                first: first_right,
                second: second_right,
            },
        )
    }

    #[inline(always)]
    fn write_blocks(blocks: &mut [[u8; 8]], left: TwoBlocks, right: TwoBlocks) {
        let left = u64x2::from_array([left.first, left.second]);
        let right = u64x2::from_array([right.first, right.second]);
        let (first, second) = blocks_of(left, right);
        blocks[0] = first;
        blocks[1] = second;
    }

    #[inline(always)]
    fn with_key(self, round_key: RoundKey) -> TwoBlocks {
        TwoBlocks {
            first: self.first ^ round_key.groups,
            second: self.second ^ round_key.groups,
        }
    }

    #[inline(always)]
    fn xor_substituted(self, others: TwoBlocks) -> TwoBlocks {
        TwoBlocks {
            first: xor_substituted(self.first, others.first),
            second: xor_substituted(self.second, others.second),
        }
    }
}

/// A word of groups of each of three blocks.
#[derive(Clone, Copy)]
pub struct ThreeBlocks {
    first: u64,
    second: u64,
    third: u64,
}

impl Groups for ThreeBlocks {
    const CHANGES_AHEAD: bool = true;

    ghost BLOCKS = { 3 };

    ghost word = { word_of_three };

    #[inline(always)]
    fn count(blocks: &[[u8; 8]]) -> usize {
        3
    }

    #[inline(always)]
    fn of_blocks(blocks: &[[u8; 8]]) -> (ThreeBlocks, ThreeBlocks) {
        let (left, right) = halves_of(&blocks[0], &blocks[1]);
        let [first_left, second_left] = left.to_array();
        let [first_right, second_right] = right.to_array();
        let (third_left, third_right) = halves_of_block(&blocks[2]);
        (
            ThreeBlocks {
                first: first_left,
                second: second_left,
                third: third_left,
            },
            ThreeBlocks {
                first: first_right,
                second: second_right,
                third: third_right,
            },
        )
    }

    #[inline(always)]
    fn write_blocks(blocks: &mut [[u8; 8]], left: ThreeBlocks, right: ThreeBlocks) {
        blocks[2] = block_of_halves(left.third, right.third);
        let left = u64x2::from_array([left.first, left.second]);
        let right = u64x2::from_array([right.first, right.second]);
        let (first, second) = blocks_of(left, right);
        blocks[0] = first;
        blocks[1] = second;
    }

    #[inline(always)]
    fn with_key(self, round_key: RoundKey) -> ThreeBlocks {
        ThreeBlocks {
            first: self.first ^ round_key.groups,
            second: self.second ^ round_key.groups,
            third: self.third ^ round_key.groups,
        }
    }

    #[inline(always)]
    fn xor_substituted(self, others: ThreeBlocks) -> ThreeBlocks {
        ThreeBlocks {
            first: xor_substituted(self.first, others.first),
            second: xor_substituted(self.second, others.second),
            third: xor_substituted(self.third, others.third),
        }
    }
}
