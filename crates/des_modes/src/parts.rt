//! Texts of any length, by modes that take a limited number of bytes at a time.

ghost use Rattle.std.specs.Prelude.{◌≡◌, ◌<◌, ◌≤◌, ℕ, List, length, bit_xor};
ghost use Rattle.des_modes.specs.Streams.{GoesOn};
ghost use Rattle.des_modes.specs.States.{IsPlace, size_of};
ghost use Rattle.des_modes.specs.declared.direction.Direction.{Direction as DirectionOf};
ghost use Rattle.des_modes.specs.declared.modes.Mode.{Mode as ModeOf};

use crate::direction::Direction;
use crate::feedback::Feedback;
use crate::place::Place;

/// The most blocks that go through the cipher in one call, which share its cost.
pub(crate) const BLOCKS_AT_A_TIME: usize = 256;

/// A mode that goes on from place to place, by a limited number of bytes at a time.
pub(crate) trait TakesParts<C: Feedback> {
    ghost mode: { Self → ModeOf };

    // The key stream under an encryption, from an initialization vector, along the ciphertext.
    ghost key_stream: { Self → (List ℕ → List ℕ) → List ℕ → List ℕ → ℕ → ℕ };

    // The most bytes of a part, if that many bytes of the output block are used.
    ghost limit: { Self → DirectionOf → ℕ → ℕ };

    /// The most bytes that may be encrypted or decrypted together.
    fn most(&self, direction: Direction, place: &Place) -> usize
        requires { place.now.used < size_of (mode self.now) }
        ensures some { 1 ≤ result }
        ensures most { result ≡ limit self.now direction place.now.used };

    /// Encrypts or decrypts the next bytes in place.
    fn apply_part(&self, direction: Direction, place: &mut Place, cipher: &C, bytes: &mut [u8])
        requires fits { place.old.used < size_of (mode self.now) }
        requires some { 1 ≤ length bytes.old }
        requires few { length bytes.old ≤ limit self.now direction place.old.used }
        ensures fits { place.new.used < size_of (mode self.now) }
        ensures goes { (iv : List ℕ) → GoesOn bit_xor 0 (IsPlace (mode self.now) (C.encrypted cipher.now) iv)
            (key_stream self.now (C.encrypted cipher.now) iv) direction place.old place.new bytes.old bytes.new };
}

/// Encrypts or decrypts the bytes that come next in place, part after part.
pub(crate) fn apply_parts<C: Feedback, P: TakesParts<C>>(
    mode: &P,
    direction: Direction,
    place: &mut Place,
    cipher: &C,
    bytes: &mut [u8],
)
    requires { place.old.used < size_of (P.mode mode.now) }
    ensures fits { place.new.used < size_of (P.mode mode.now) }
    ensures goes { (iv : List ℕ) → GoesOn bit_xor 0 (IsPlace (P.mode mode.now) (C.encrypted cipher.now) iv)
        (P.key_stream mode.now (C.encrypted cipher.now) iv) direction place.old place.new bytes.old bytes.new }
{
    let mut from = 0;
    'parts: while from < bytes.len() {
        let count = mode.most(direction, place).min(bytes.len() - from);
        mode.apply_part(direction, place, cipher, &mut bytes[from..from + count]);
        from += count;
    }
}
