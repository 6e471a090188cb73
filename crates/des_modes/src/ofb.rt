//! Output feedback of 64 bits over any block cipher (FIPS 81, output feedback mode; NIST SP
//! 800-38A, 6.4).

ghost use Rattle.std.specs.Prelude.{◌≡◌, ◌<◌, ◌≤◌, ◌+◌, ◌-◌, ◌/◌, ℕ, List, length, nat_eq, if◌then◌else◌, bit_xor};
ghost use Rattle.des_modes.specs.Ofb.{ofb_stream, output_block};
ghost use Rattle.des_modes.specs.States.{IsAtOutput, IsPlace};
ghost use Rattle.des_modes.specs.Streams.{GoesOn};
ghost use Rattle.des_modes.specs.declared.direction.Direction.{Direction as DirectionOf};
ghost use Rattle.des_modes.specs.declared.modes.Mode.TheVariants.{OutputFeedback};

use crate::direction::Direction;
use crate::feedback::Feedback;
use crate::parts::{BLOCKS_AT_A_TIME, TakesParts};
use crate::place::Place;
use crate::xored::{xor_block_from, xor_blocks_from};
use des::cipher::{BlockCipherEncrypt, are_blocks};

// The output block for the next byte.
#[inline]
fn current<C: BlockCipherEncrypt>(place: &Place, cipher: &C) -> [u8; 8]
    ensures { (iv : List ℕ) (n : ℕ)
        → IsAtOutput (C.encrypted cipher.now) iv n place.now.register place.now.used
        → result ≡ output_block (C.encrypted cipher.now) iv (n / 8 + 1) }
{
    let mut block = place.register;
    if place.used == 0 {
        cipher.encrypt_block(&mut block);
    }
    block
}

// Encrypts or decrypts bytes from the beginning of an output block on. Not inlined, so that a text
// of one block clears no buffer for many.
#[inline(never)]
fn apply_chained<C: Feedback>(place: &mut Place, cipher: &C, bytes: &mut [u8])
    requires between { place.old.used ≡ 0 }
    requires some { 1 ≤ length bytes.old }
    requires few { length bytes.old ≤ 2048 }
    ensures fits { place.new.used < 8 }
    ensures goes { (direction : DirectionOf) (iv : List ℕ) → GoesOn bit_xor 0
        (IsPlace OutputFeedback (C.encrypted cipher.now) iv)
        (λ c. ofb_stream (C.encrypted cipher.now) iv)
        direction place.old place.new bytes.old bytes.new }
{
    let mut outputs = [[0; 8]; BLOCKS_AT_A_TIME];
    let part = &mut outputs[..bytes.len().div_ceil(8)];
    cipher.write_outputs(&place.register, &[], part);
    are_blocks(part);
    xor_blocks_from(bytes, part, 0);
    place.register = part[part.len() - 1];
    place.used = bytes.len() % 8;
}

/// Output feedback. The register of a place holds the last output block; `used` is 0 again when all
/// its bytes are used.
pub(crate) struct OfbMode;

impl<C: Feedback> TakesParts<C> for OfbMode {
    ghost mode = { λ ofb. OutputFeedback };

    ghost key_stream = { λ ofb encryption iv c. ofb_stream encryption iv };

    ghost limit = { λ ofb direction used. if nat_eq used 0 then 2048 else 8 - used };

    fn most(&self, _direction: Direction, place: &Place) -> usize {
        if place.used == 0 {
            8 * BLOCKS_AT_A_TIME
        } else {
            8 - place.used
        }
    }

    fn apply_part(&self, _direction: Direction, place: &mut Place, cipher: &C, bytes: &mut [u8]) {
        if bytes.len() > 8 {
            apply_chained(place, cipher, bytes);
        } else {
            let output = current(place, cipher);
            xor_block_from(bytes, &output, place.used);
            place.register = output;
            place.used = (place.used + bytes.len()) % 8;
        }
    }
}
