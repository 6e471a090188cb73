//! Slices by their positions.

ghost use Rattle.std.specs.Prelude.{◌≡◌, ◌&&◌, ◌++◌, map, IsTrue, nat_lt};
ghost use Rattle.std.specs.List.{list_all};
ghost use Rattle.des.specs.Bits.{select};
ghost use Rattle.des_fast.specs.Slices.{InEachBlock};

use super::Slice;
use super::transposition::Half;

/// Makes slices those at these positions of two halves, from 1.
#[inline(always)]
pub(super) fn write_selection<S: Slice, const N: usize>(
    selected: &mut [S; N],
    left: &Half<S>,
    right: &Half<S>,
    positions: &[usize; N],
)
    requires { IsTrue (list_all (λ position. nat_lt 0 position && nat_lt position 65)
        positions.now) }
    ensures { InEachBlock S.BATCH (λ b. map (S.bit b) selected.new
        ≡ select positions.now (map (S.bit b) left.now ++ map (S.bit b) right.now)) }
{
    for i in 0..N {
        let place = positions[i] - 1;
        selected[i] = if place < 32 {
            left[place]
        } else {
            right[place - 32]
        };
    }
}
