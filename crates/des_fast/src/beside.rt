//! Some blocks beside others.

ghost use Rattle.std.specs.Prelude.{◌+◌};
ghost use Rattle.des_fast.specs.Beside.{word_beside};

use crate::halves::RoundKey;
use crate::rounds::Groups;

/// Words of groups of some blocks, and then those of others.
#[derive(Clone, Copy)]
pub struct Beside<A, B> {
    first: A,
    second: B,
}

impl<A: Groups, B: Groups> Groups for Beside<A, B> {
    const CHANGES_AHEAD: bool = false;

    ghost BLOCKS = { A.BLOCKS + B.BLOCKS };

    ghost word = { word_beside A.BLOCKS A.word B.word };

    #[inline(always)]
    fn count(blocks: &[[u8; 8]]) -> usize {
        A::count(blocks) + B::count(blocks)
    }

    #[inline(always)]
    fn of_blocks(blocks: &[[u8; 8]]) -> (Beside<A, B>, Beside<A, B>) {
        let count = A::count(blocks);
        let (left, right) = A::of_blocks(&blocks[..count]);
        let (more_left, more_right) = B::of_blocks(&blocks[count..]);
        (
            Beside {
                first: left,
                second: more_left,
            },
            Beside {
                first: right,
                second: more_right,
            },
        )
    }

    #[inline(always)]
    fn write_blocks(blocks: &mut [[u8; 8]], left: Beside<A, B>, right: Beside<A, B>) {
        let count = A::count(blocks);
        A::write_blocks(&mut blocks[..count], left.first, right.first);
        B::write_blocks(&mut blocks[count..], left.second, right.second);
    }

    #[inline(always)]
    fn with_key(self, round_key: RoundKey) -> Beside<A, B> {
        Beside {
            first: self.first.with_key(round_key),
            second: self.second.with_key(round_key),
        }
    }

    #[inline(always)]
    fn xor_substituted(self, others: Beside<A, B>) -> Beside<A, B> {
        Beside {
            first: self.first.xor_substituted(others.first),
            second: self.second.xor_substituted(others.second),
        }
    }
}
