//! How a list is processed: in batches, which read no table, or side by side.

ghost use Rattle.std.specs.Prelude.{◌≡◌, ◌≢◌, ◌≤◌, ◌-◌, ◌%◌, map};
ghost use Rattle.std.specs.List.{All};
ghost use Rattle.des.specs.Blocks.{IsBlock};

use super::Slice;
use crate::box_lookup::{BoxLookup, NoTables, Tables};
use crate::side_by_side::BlockTransform;

/// The most blocks of a list that is quicker over vectors of two words, even if the processor
/// has vectors of four: a batch of 128 takes less time than one of 256. For those who choose the
/// width of a call by the length of a list: `bindings/describe` copies it for C.
pub const MAX_NARROW: usize = 128;

// The most blocks left over that go in no batch, if tables may be read and if none may be, whatever
// the cipher, the direction and the width: which lists read tables is promised to callers. 31
// blocks by tables take 0.83 (DES) and 0.86 (EDE3) of the time of a batch on Cascade Lake; without
// tables 8 blocks take 0.83 and 0.91 on Sapphire Rapids, but 9 blocks 1.00 and 1.11.
pub(super) const FEW_BY_TABLES: usize = 31;

const FEW_NO_TABLES: usize = 8;

/// How many blocks of a list go in batches, from the first on: the whole batches, and what is left
/// over too unless it is few blocks. Few go side by side. The clause `batches` is for speed alone:
/// no whole batch goes side by side.
#[inline(always)]
pub(super) fn in_batches<S: Slice>(count: usize, no_tables: bool) -> usize
    ensures there { result ≤ count }
    ensures batches { result ≢ count → result ≡ count - count % S.BATCH }
    ensures few { count - result ≤ 31 }
{
    let few = if no_tables {
        FEW_NO_TABLES
    } else {
        FEW_BY_TABLES
    };
    let left = count % S::BATCH;
    if left <= few { count - left } else { count }
}

/// Takes a few blocks through passes, some side by side.
pub(super) fn process_few<P: BlockTransform>(no_tables: bool, blocks: &mut [[u8; 8]], passes: &P)
    ensures blocks { All IsBlock blocks.old }
    ensures processed { blocks.new ≡ map (P.output passes.now) blocks.old }
{
    if no_tables {
        NoTables::process_list(blocks, passes);
    } else {
        Tables::process_list(blocks, passes);
    }
}
