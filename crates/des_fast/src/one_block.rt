//! One block: its initial and final permutation, by `des::utils`, and its word of groups, by
//! tables.

ghost use Rattle.std.specs.Prelude.{◌≡◌, ◌<◌, ◌^◌};
ghost use Rattle.des.specs.Bits.{bits_of};
ghost use Rattle.des.specs.Blocks.{IsBlock};
ghost use Rattle.des_fast.specs.Groups.{IsExpansion, half_of};
ghost use Rattle.des_fast.specs.HalfBlocks.{first_halves, last_block};
ghost use Rattle.des_fast.specs.TableBlocks.{word_of_one};

use crate::halves::{RoundKey, block_of};
use crate::rounds::{Groups, OneWord};
use crate::tables::substitute;
use des::utils;

/// The halves that the rounds of a block begin with: those of its initial permutation (FIPS 46-3,
/// enciphering), each as its expansion E.
#[inline(always)]
pub(crate) fn halves_of_block(block: &[u8; 8]) -> (u64, u64)
    ensures is_block { IsBlock block.now }
    ensures left { IsExpansion result.0 }
    ensures right { IsExpansion result.1 }
    ensures halves { (half_of result.0, half_of result.1) ≡ first_halves block.now }
{
    let word = utils::ip(u64::from_be_bytes(*block));
    // Both halves at once. The groups 1, 3, 5 and 7 are a half rotated right by three, the groups
    // 2, 4, 6 and 8 a half rotated left by one, without the first two bits of each byte. The second
    // term is what comes round: bit 32 of a half to the first bit of group 1, bit 1 to the last of
    // group 8.
    let odd = ((word >> 3) & 0x1f3f3f3f1f3f3f3f) | ((word << 29) & 0x2000000020000000);
    let even = ((word << 1) & 0x3f3f3f3e3f3f3f3e) | ((word >> 31) & 0x0000000100000001);
    (
        (odd & 0x3f3f3f3f00000000) | (even >> 32),
        (odd << 32) | (even & 0x000000003f3f3f3f),
    )
}

// The half block of an expansion in the last 32 bits of a word, with zeros before them.
#[inline(always)]
fn word_of_half(groups: u64) -> u64
    ensures within { result < 2 ^ 32 }
    ensures half { bits_of 32 result ≡ half_of groups }
{
    // The middle four bits of a group are the half's own: the first half of each byte comes from
    // the groups 1, 3, 5 and 7, the second from the groups 2, 4, 6 and 8.
    ((groups >> 29) & 0x00000000f0f0f0f0) | ((groups >> 1) & 0x000000000f0f0f0f)
}

/// The block that the halves after the rounds make: they are swapped, and the final permutation
/// follows (FIPS 46-3, enciphering).
#[inline(always)]
pub(crate) fn block_of_halves(left: u64, right: u64) -> [u8; 8]
    ensures { result ≡ last_block (half_of left, half_of right) }
{
    block_of(utils::fp((word_of_half(right) << 32) | word_of_half(left)))
}

/// A word of groups of one block.
#[derive(Clone, Copy)]
pub struct OneBlock {
    word: u64,
}

impl Groups for OneBlock {
    const CHANGES_AHEAD: bool = false;

    ghost BLOCKS = { 1 };

    ghost word = { word_of_one };

    #[inline(always)]
    fn count(blocks: &[[u8; 8]]) -> usize {
        1
    }

    #[inline(always)]
    fn of_blocks(blocks: &[[u8; 8]]) -> (OneBlock, OneBlock) {
        let (left, right) = halves_of_block(&blocks[0]);
        (OneBlock { word: left }, OneBlock { word: right })
    }

    #[inline(always)]
    fn write_blocks(blocks: &mut [[u8; 8]], left: OneBlock, right: OneBlock) {
        blocks[0] = block_of_halves(left.word, right.word);
    }

    #[inline(always)]
    fn with_key(self, round_key: RoundKey) -> OneBlock {
        OneBlock {
            word: self.word ^ round_key.groups,
        }
    }

    #[inline(always)]
    fn xor_substituted(self, others: OneBlock) -> OneBlock {
        OneBlock {
            word: self.word ^ substitute(others.word),
        }
    }
}

impl OneWord for OneBlock {
    ghost use Rattle.std.specs.Prelude.{refl};

    #[inline(always)]
    fn xor(self, other: OneBlock) -> OneBlock {
        OneBlock {
            word: self.word ^ other.word,
        }
    }

    ghost is_one = { refl };
}
