//! Lists of blocks, as many side by side as the lookup says.

ghost use Rattle.std.specs.Prelude.{◌≡◌, map};
ghost use Rattle.std.specs.List.{All};
ghost use Rattle.des.specs.Blocks.{IsBlock};

use crate::side_by_side::{BlockTransform, SideBySide};
use des::cipher::are_blocks;

/// Takes each block of a list through passes, as many side by side as the lookup says.
pub(crate) fn process<W: SideBySide, A: BlockTransform>(blocks: &mut [[u8; 8]], passes: &A)
    ensures blocks { All IsBlock blocks.old }
    ensures output { blocks.new ≡ map (A.output passes.now) blocks.old }
{
    are_blocks(blocks);
    let mut from = 0;
    'parts: while from < blocks.len() {
        let count = W::next_count(blocks.len() - from);
        W::process_some(&mut blocks[from..from + count], passes);
        from += count;
    }
}
