//! Blocks side by side through one pass of DES, or several.

ghost use Rattle.std.specs.Prelude.{◌≡◌, ◌≤◌, ℕ, List, length, map};
ghost use Rattle.des_fast.specs.Slices.{InEachBlock};
ghost use Rattle.des_fast.specs.Groups.{half_of};
ghost use Rattle.des_fast.specs.HalfBlocks.{first_halves, last_block};
ghost use Rattle.des_fast.specs.SideBySide.{AreExpansions};

use crate::rounds::{Groups, OneWord};
use std::simd::prelude::*;

/// A pass of DES, or several in a row.
pub trait BlockTransform {
    // The block that a block becomes.
    ghost output: { Self → List ℕ → List ℕ };

    /// Takes the halves of blocks side by side through the rounds.
    fn process_halves<G: Groups>(&self, left: G, right: G) -> (G, G)
        requires left { AreExpansions G.BLOCKS G.word left }
        requires right { AreExpansions G.BLOCKS G.word right }
        ensures left { AreExpansions G.BLOCKS G.word result.0 }
        ensures right { AreExpansions G.BLOCKS G.word result.1 }
        ensures output { InEachBlock G.BLOCKS (λ b. (block : List ℕ)
            → (half_of (G.word b left), half_of (G.word b right)) ≡ first_halves block
            → last_block (half_of (G.word b result.0), half_of (G.word b result.1))
            ≡ output self.now block) };
}

/// How many blocks of a list go side by side by a lookup, and what one takes.
pub trait SideBySide {
    /// The word of groups of one block.
    type One: OneWord;

    // The most blocks that go side by side in a list.
    ghost MOST: { ℕ };

    /// How many of the blocks left in a list go next. No clause says how many are quickest: the
    /// result is the same.
    fn next_count(left: usize) -> usize
        requires { 1 ≤ left }
        ensures some { 1 ≤ result }
        ensures few { result ≤ MOST }
        ensures within { result ≤ left };

    /// Takes some blocks through passes side by side.
    fn process_some<A: BlockTransform>(blocks: &mut [[u8; 8]], passes: &A)
        requires some { 1 ≤ length blocks.old }
        requires few { length blocks.old ≤ MOST }
        ensures { blocks.new ≡ map (A.output passes.now) blocks.old };
}

// Takes blocks through passes, side by side.
#[inline(always)]
fn process_groups<G: Groups, A: BlockTransform>(blocks: &mut [[u8; 8]], passes: &A)
    requires { length blocks.old ≡ G.BLOCKS }
    ensures { blocks.new ≡ map (A.output passes.now) blocks.old }
{
    let (left, right) = G::of_blocks(blocks);
    let (left, right) = passes.process_halves(left, right);
    G::write_blocks(blocks, left, right);
}

/// Takes blocks through passes, side by side. Not inlined: so each number of blocks has the
/// registers to itself.
#[inline(never)]
pub(crate) fn process_side_by_side<G: Groups, A: BlockTransform>(blocks: &mut [[u8; 8]], passes: &A)
    requires { length blocks.old ≡ G.BLOCKS }
    ensures { blocks.new ≡ map (A.output passes.now) blocks.old }
{
    process_groups::<G, A>(blocks, passes);
}

/// Takes at most four blocks through passes as four side by side: places after the last block
/// repeat it.
pub(crate) fn process_padded<A: BlockTransform>(blocks: &mut [[u8; 8]], passes: &A)
    requires some { 1 ≤ length blocks.old }
    requires few { length blocks.old ≤ 4 }
    ensures { blocks.new ≡ map (A.output passes.now) blocks.old }
{
    let last = blocks.len() - 1;
    let mut four = [
        blocks[0],
        blocks[last.min(1)],
        blocks[last.min(2)],
        blocks[last],
    ];
    process_side_by_side::<u64x4, A>(&mut four, passes);
    blocks[0] = four[0];
    blocks[last.min(1)] = four[1];
    blocks[last.min(2)] = four[2];
    blocks[last] = four[3];
}

/// Takes one block through passes.
#[inline(always)]
pub(crate) fn process_one<G: OneWord, A: BlockTransform>(block: &mut [u8; 8], passes: &A)
    ensures { block.new ≡ A.output passes.now block.old }
{
    let mut one = [*block];
    process_groups::<G, A>(&mut one, passes);
    *block = one[0];
}
