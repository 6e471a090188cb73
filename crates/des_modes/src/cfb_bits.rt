//! Cipher feedback of one bit over any block cipher (FIPS 81, cipher feedback mode; NIST SP
//! 800-38A, 6.3): CFB-1. Lengths are in bits. The first bit is the most significant of the first
//! byte.

ghost use Rattle.std.specs.Prelude.{◌≡◌, ◌<◌, ◌≤◌, ◌*◌, ◌++◌, ℕ, Bool, List, [], ◌∷◌, length, drop, slice_set};
ghost use Rattle.des.specs.Bits.{bits_of_bytes, xor};
ghost use Rattle.des.specs.Blocks.{block_of_bits};
ghost use Rattle.des_modes.specs.Cfb.{CfbBits, block_bit, first_bits};
ghost use Rattle.des_modes.specs.Streams.{plaintext, ciphertext};
ghost use Rattle.des_modes.specs.States.{HoldsLastBits};

use crate::direction::Direction;
use des::cipher::{BlockCipherEncrypt, are_bytes};

// The bit at a place.
#[tactic(auto, using(crate::proofs::BitPlaces::block_bit_of_byte))]
fn bit_at(bytes: &[u8], place: u128) -> bool
    requires { place < 8 * length bytes.now }
    ensures { result ≡ block_bit bytes.now place }
{
    (bytes[(place / 8) as usize] >> (7 - place % 8)) % 2 == 1
}

// The bit at a place becomes its xor with another.
#[tactic(auto, using(crate::proofs::BitPlaces::bits_xored))]
fn xor_bit(bytes: &mut [u8], place: u128, bit: bool)
    requires { place < 8 * length bytes.old }
    ensures { bits_of_bytes bytes.new
        ≡ slice_set (bits_of_bytes bytes.old) place (xor (block_bit bytes.old place) bit) }
{
    bytes[(place / 8) as usize] ^= u8::from(bit) << (7 - place % 8);
}

// The first bit of the output block of a shift register, for the next bit of the text.
#[tactic(auto, using(crate::proofs::BitPlaces::bits_of_a_block))]
fn key_bit<C: BlockCipherEncrypt>(register: &[u8; 8], cipher: &C) -> bool
    ensures wide { length register.now ≡ 8 }
    ensures bit { result ≡ block_bit (C.encrypted cipher.now
        (block_of_bits (bits_of_bytes register.now))) 0 }
{
    are_bytes(register);
    let mut output = *register;
    cipher.encrypt_block(&mut output);
    bit_at(&output, 0)
}

// Shifts a bit of the ciphertext into the register from the right.
#[tactic(auto, using(crate::proofs::BitPlaces::bits_shifted))]
fn advance(register: &mut [u8; 8], bit: bool)
    ensures { bits_of_bytes register.new ≡ drop 1 (bits_of_bytes register.old ++ bit ∷ []) }
{
    are_bytes(register);
    let word = u64::from_be_bytes(*register);
    *register = ((word << 1) | u64::from(bit)).to_be_bytes();
}

/// Encrypts or decrypts the next bits of a stream in place, the first `bits` bits of the bytes. The
/// others stay as they are. The register holds the last 64 bits of the initialization vector and
/// the ciphertext.
pub(crate) fn apply<C: BlockCipherEncrypt>(
    register: &mut [u8; 8],
    direction: Direction,
    cipher: &C,
    bytes: &mut [u8],
    bits: u128,
)
    requires { bits ≤ 8 * length bytes.old }
    ensures after { (iv : List ℕ) (c : List Bool) → HoldsLastBits iv c register.old
        → HoldsLastBits iv (c ++ first_bits bits (ciphertext direction bytes.old bytes.new)) register.new }
    ensures made { (iv : List ℕ) (p c : List Bool) → HoldsLastBits iv c register.old
        → CfbBits 1 (C.encrypted cipher.now) iv p c → CfbBits 1 (C.encrypted cipher.now) iv
        (p ++ first_bits bits (plaintext direction bytes.old bytes.new))
        (c ++ first_bits bits (ciphertext direction bytes.old bytes.new)) }
    ensures rest { drop bits (bits_of_bytes bytes.new) ≡ drop bits (bits_of_bytes bytes.old) }
{
    'bits: for place in 0..bits {
        let old = bit_at(bytes, place);
        xor_bit(bytes, place, key_bit(register, cipher));
        advance(register, direction.ciphertext(old, bit_at(bytes, place)));
    }
}
