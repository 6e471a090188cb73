//! CBC encryption, and the output blocks of OFB and CFB, with no permutation between two blocks
//! (FIPS 81).
//!
//! The initial permutation of a xor is the xor of two initial permutations, and that of a
//! ciphertext block gives back the halves that its rounds ended with, exchanged. So a block's
//! rounds begin with these halves xored with those of its plaintext: they wait for the rounds
//! before them, and for no permutation.

ghost use Rattle.std.specs.Prelude.{◌≡◌};
ghost use Rattle.std.specs.List.{All};
ghost use Rattle.des.specs.Blocks.{IsBlock};
ghost use Rattle.des.specs.Cbc.{Cbc};
ghost use Rattle.des_fast.specs.Groups.{half_of};
ghost use Rattle.des_fast.specs.HalfBlocks.{last_block};
ghost use Rattle.des_fast.specs.ChainingValues.{AreOutputs};
ghost use Rattle.des_fast.specs.SideBySide.{AreExpansions, AreHalvesOf};

use crate::rounds::{Groups, OneWord};
use crate::side_by_side::{BlockTransform, SideBySide};
use des::cipher::are_blocks;

// The block of the halves after its rounds, which exchanged are its own.
#[inline(always)]
fn block_after<G: OneWord>(left: G, right: G) -> [u8; 8]
    requires left { AreExpansions G.BLOCKS G.word left }
    requires right { AreExpansions G.BLOCKS G.word right }
    ensures block { result ≡ last_block (half_of (G.word 0 left), half_of (G.word 0 right)) }
    ensures halves { AreHalvesOf G.word result (right, left) }
{
    let mut one = [[0; 8]];
    G::write_blocks(&mut one, left, right);
    one[0]
}

/// Encrypts blocks by CBC from `iv`, each through passes. Not inlined: with both lookups in one
/// function each of them is slower.
#[inline(never)]
pub(crate) fn cbc_encrypt<W: SideBySide, A: BlockTransform>(
    blocks: &mut [[u8; 8]],
    iv: &[u8; 8],
    passes: &A,
)
    ensures blocks { All IsBlock blocks.old }
    ensures chained { Cbc (A.output passes.now) iv.now blocks.old blocks.new }
{
    are_blocks(blocks);
    let mut halves = W::One::of_blocks(&[*iv]);
    for block in blocks.iter_mut() {
        let (block_left, block_right) = W::One::of_blocks(&[*block]);
        let (left, right) = passes.process_halves(
            block_left.xor(halves.0),
            block_right.xor(halves.1),
        );
        *block = block_after(left, right);
        halves = (right, left);
    }
}

/// Writes the output blocks of a feedback from `iv` along a plaintext, each through passes. Not
/// inlined, as `cbc_encrypt`.
#[inline(never)]
pub(crate) fn write_outputs<W: SideBySide, A: BlockTransform>(
    outputs: &mut [[u8; 8]],
    iv: &[u8; 8],
    plaintext: &[[u8; 8]],
    passes: &A,
)
    ensures { AreOutputs (A.output passes.now) iv.now plaintext.now outputs.new }
{
    let mut halves = W::One::of_blocks(&[*iv]);
    for j in 0..outputs.len() {
        let (left, right) = passes.process_halves(halves.0, halves.1);
        // What the next block waits for comes first.
        halves = match plaintext.get(j) {
            Some(block) => {
                let (block_left, block_right) = W::One::of_blocks(&[*block]);
                (block_left.xor(right), block_right.xor(left))
            }
            None => (right, left),
        };
        outputs[j] = block_after(left, right);
    }
}
