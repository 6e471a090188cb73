//! Keys of chains: one for all, or one for each.

ghost use Rattle.std.specs.Prelude.{◌≡◌, ◌↔◌, ◌≤◌, ◌<◌, ◌+◌, ⊤, ℕ, List, IsTrue};
ghost use Rattle.des_fast.specs.EachKey.{lane_output};
ghost use Rattle.des_fast.specs.SpreadKeys.{AreSlicesFor, used};

use super::Slice;
use super::lanes::LaneKeys;
use crate::slices::PassSlices;

/// Keys under which chains go in step, by the number of a chain from 0: one for all, or one for
/// each.
pub trait ChainKeys {
    /// The slices of a batch.
    type Slices: Slice;

    // Whether the key of each chain encrypts a block so.
    ghost encrypt: { Self → (ℕ → List ℕ → List ℕ) → Type 0 };

    // Whether there is a key for each chain, by the number of chains.
    ghost are_for: { Self → ℕ → Type 0 };

    /// Whether there is a key for each of `count` chains.
    fn are_for(&self, count: usize) -> bool
        ensures { IsTrue result ↔ are_for self.now count };

    /// The passes of encryption by lanes: lane k has those of chain `from + k`. They may be written
    /// to `buffer`.
    fn encryption<'a>(
        &'a self,
        from: usize,
        count: usize,
        buffer: &'a mut LaneKeys<Self::Slices>,
    ) -> &'a [PassSlices<Self::Slices>]
        requires few { count ≤ Self.Slices.BATCH }
        requires within { (n : ℕ) × are_for self.now n × (from + count ≤ n) }
        ensures { (encryption : ℕ → List ℕ → List ℕ) → encrypt self.now encryption
            → (k : ℕ) → k < count
            → encryption (from + k) ≡ lane_output (Self.Slices.bit k) result.now };
}

// One key for all chains, if all lanes have the same: of other keys `encrypt` says nothing.
impl<S: Slice> ChainKeys for LaneKeys<S> {
    type Slices = S;

    ghost encrypt = { λ keys answer. (n : ℕ) → AreSlicesFor S.BATCH S.bit (used keys.is_triple keys.passes) (answer n) };

    ghost are_for = { λ _ _. ⊤ };

    fn are_for(&self, _count: usize) -> bool {
        true
    }

    #[inline(always)]
    fn encryption<'a>(
        &'a self,
        _from: usize,
        _count: usize,
        _buffer: &'a mut LaneKeys<S>,
    ) -> &'a [PassSlices<S>] {
        self.passes()
    }
}
