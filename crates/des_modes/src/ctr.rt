//! The counter mode over any block cipher (NIST SP 800-38A, 6.5), with the standard incrementing
//! function over all 64 bits.

ghost use Rattle.std.specs.Prelude.{◌≡◌, ◌<◌, ◌≤◌, ◌+◌, ◌-◌, ◌/◌, ◌%◌, ◌^◌, ℕ, [], length, slice_index, slice_index_or, bit_xor};
ghost use Rattle.std.specs.Int.{w64, to_be_bytes};
ghost use Rattle.des_modes.specs.Ctr.{ctr_stream};
ghost use Rattle.des_modes.specs.declared.modes.Mode.TheVariants.{Counter};

use crate::direction::Direction;
use crate::feedback::Feedback;
use crate::parts::{BLOCKS_AT_A_TIME, TakesParts};
use crate::place::Place;
use crate::xored::{xor_block_from, xor_blocks_from};
use des::cipher::BlockCipherEncrypt;

// Writes a counter and those that follow it, one into each block.
fn write_counters(blocks: &mut [[u8; 8]], counter: u64)
    ensures { (j : ℕ) → j < length blocks.old
        → slice_index_or blocks.new j [] ≡ to_be_bytes w64 ((counter + j) % 2 ^ 64) }
{
    let mut next = counter;
    for block in blocks.iter_mut() {
        *block = next.to_be_bytes();
        next = next.wrapping_add(1);
    }
}

// Writes the output blocks of a counter and of those that follow it.
fn write_outputs<C: BlockCipherEncrypt>(cipher: &C, blocks: &mut [[u8; 8]], counter: u64)
    ensures { (j : ℕ) → j < length blocks.old → slice_index_or blocks.new j []
        ≡ C.encrypted cipher.now (to_be_bytes w64 ((counter + j) % 2 ^ 64)) }
{
    write_counters(blocks, counter);
    cipher.encrypt_blocks(blocks);
}

// Encrypts or decrypts bytes of one block by the output block of its counter, from its byte `used`
// on.
fn apply_output<C: BlockCipherEncrypt>(cipher: &C, counter: u64, used: usize, bytes: &mut [u8])
    requires { used + length bytes.old ≤ 8 }
    ensures { (i : ℕ) → i < length bytes.old → slice_index bytes.new i
        ≡ bit_xor (slice_index bytes.old i)
        (slice_index (C.encrypted cipher.now (to_be_bytes w64 counter)) (used + i)) }
{
    let mut output = counter.to_be_bytes();
    cipher.encrypt_block(&mut output);
    xor_block_from(bytes, &output, used);
}

// Encrypts or decrypts bytes by the output blocks of a counter and of those that follow it, from
// byte `used` of the first on. Not inlined, so that a text of one block clears no buffer for many.
#[inline(never)]
fn apply_many<C: BlockCipherEncrypt>(cipher: &C, counter: u64, used: usize, bytes: &mut [u8])
    requires { used + length bytes.old ≤ 2048 }
    ensures { (i : ℕ) → i < length bytes.old → slice_index bytes.new i
        ≡ bit_xor (slice_index bytes.old i)
        (slice_index (C.encrypted cipher.now (to_be_bytes w64 ((counter + (used + i) / 8) % 2 ^ 64)))
        ((used + i) % 8)) }
{
    let mut blocks = [[0; 8]; BLOCKS_AT_A_TIME];
    let part = &mut blocks[..(used + bytes.len()).div_ceil(8)];
    write_outputs(cipher, part, counter);
    xor_blocks_from(bytes, part, used);
}

// As `apply_many`, with a shorter way for bytes of one block.
fn apply_outputs<C: BlockCipherEncrypt>(cipher: &C, counter: u64, used: usize, bytes: &mut [u8])
    requires { used + length bytes.old ≤ 2048 }
    ensures { (i : ℕ) → i < length bytes.old → slice_index bytes.new i
        ≡ bit_xor (slice_index bytes.old i)
        (slice_index (C.encrypted cipher.now (to_be_bytes w64 ((counter + (used + i) / 8) % 2 ^ 64)))
        ((used + i) % 8)) }
{
    if used + bytes.len() <= 8 {
        apply_output(cipher, counter, used, bytes);
    } else {
        apply_many(cipher, counter, used, bytes);
    }
}

/// The counter mode. The register of a place holds the counter of the block that the next byte is
/// in.
pub(crate) struct CtrMode;

impl<C: Feedback> TakesParts<C> for CtrMode {
    ghost mode = { λ ctr. Counter };

    ghost key_stream = { λ ctr encryption t c. ctr_stream encryption t };

    ghost limit = { λ ctr direction used. 2048 - used };

    fn most(&self, _direction: Direction, place: &Place) -> usize {
        8 * BLOCKS_AT_A_TIME - place.used
    }

    fn apply_part(&self, _direction: Direction, place: &mut Place, cipher: &C, bytes: &mut [u8]) {
        let counter = u64::from_be_bytes(place.register);
        let end = place.used + bytes.len();
        apply_outputs(cipher, counter, place.used, bytes);
        place.register = counter.wrapping_add((end / 8) as u64).to_be_bytes();
        place.used = end % 8;
    }
}
