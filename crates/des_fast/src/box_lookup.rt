//! How S-boxes are looked up: by tables, or without.

ghost use Rattle.std.specs.Prelude.{◌≡◌, map};
ghost use Rattle.std.specs.List.{All};
ghost use Rattle.des.specs.Blocks.{IsBlock};

use crate::beside::Beside;
use crate::lists;
use crate::one_block::OneBlock;
use crate::side_by_side::{self, BlockTransform, SideBySide, process_padded, process_side_by_side};
use crate::table_blocks::{ThreeBlocks, TwoBlocks};

/// How S-boxes are looked up. The trait says no more than a cipher asks for, since a proof about a
/// cipher spells out its lookup at each use.
pub trait BoxLookup {
    /// Takes one block through passes.
    fn process_one<A: BlockTransform>(block: &mut [u8; 8], passes: &A)
        ensures { block.new ≡ A.output passes.now block.old };

    /// Takes each block of a list through passes, in order, some of them side by side.
    fn process_list<A: BlockTransform>(blocks: &mut [[u8; 8]], passes: &A)
        ensures blocks { All IsBlock blocks.old }
        ensures processed { blocks.new ≡ map (A.output passes.now) blocks.old };
}

type FourBlocks = Beside<TwoBlocks, TwoBlocks>;

/// By tables. The rounds of a block wait for its lookups, and those of others go on meanwhile:
/// three blocks take one and a half times as long as one. More than four would not have their words
/// in registers.
#[derive(Clone, Copy)]
pub struct Tables;

impl BoxLookup for Tables {
    #[inline(always)]
    fn process_one<A: BlockTransform>(block: &mut [u8; 8], passes: &A) {
        side_by_side::process_one::<OneBlock, A>(block, passes);
    }

    #[inline(always)]
    fn process_list<A: BlockTransform>(blocks: &mut [[u8; 8]], passes: &A) {
        lists::process::<Tables, A>(blocks, passes);
    }
}

impl SideBySide for Tables {
    type One = OneBlock;

    ghost MOST = { 4 };

    // Threes, the quickest, and fours so that no block is left alone.
    #[inline(always)]
    fn next_count(left: usize) -> usize {
        if left <= 4 {
            left
        } else if left == 5 || left % 3 == 0 {
            3
        } else {
            4
        }
    }

    #[inline(always)]
    fn process_some<A: BlockTransform>(blocks: &mut [[u8; 8]], passes: &A) {
        match blocks.len() {
            1 => process_side_by_side::<OneBlock, A>(blocks, passes),
            2 => process_side_by_side::<TwoBlocks, A>(blocks, passes),
            3 => process_side_by_side::<ThreeBlocks, A>(blocks, passes),
            _ => process_side_by_side::<FourBlocks, A>(blocks, passes),
        }
    }
}

/// By selections between vectors: no table is read at an index that depends on the key or a block.
/// Four blocks share a vector, and take two to three times the time of one.
#[derive(Clone, Copy)]
pub struct NoTables;

// No clause says that no table is read: tests do.
impl BoxLookup for NoTables {
    #[inline(always)]
    fn process_one<A: BlockTransform>(block: &mut [u8; 8], passes: &A) {
        side_by_side::process_one::<u64, A>(block, passes);
    }

    #[inline(always)]
    fn process_list<A: BlockTransform>(blocks: &mut [[u8; 8]], passes: &A) {
        lists::process::<NoTables, A>(blocks, passes);
    }
}

impl SideBySide for NoTables {
    type One = u64;

    ghost MOST = { 4 };

    // The last two go one by one.
    #[inline(always)]
    fn next_count(left: usize) -> usize {
        if left <= 2 { 1 } else { left.min(4) }
    }

    #[inline(always)]
    fn process_some<A: BlockTransform>(blocks: &mut [[u8; 8]], passes: &A) {
        if blocks.len() == 1 {
            process_side_by_side::<u64, A>(blocks, passes);
        } else {
            process_padded(blocks, passes);
        }
    }
}
