//! The key wrap TKW of triple DES (NIST SP 800-38F, 7), over any block cipher: a key of 2 to 2^28 -
//! 1 semiblocks of 4 bytes becomes a list of one semiblock more. It needs no initialization vector.

ghost use Rattle.std.specs.Prelude.{◌≡◌, ◌<◌, ◌≤◌, ◌+◌, ◌*◌, ◌-◌, ◌^◌, ◌++◌, ℕ, List, [], ◌∷◌, length, take, drop, replicate, IsOk, OnOk, OnErr};
ghost use Rattle.std.specs.List.{All};
ghost use Rattle.std.specs.Int.{w32, to_be_bytes};
ghost use Rattle.des.specs.Blocks.{IsBlock};
ghost use Rattle.des.specs.Cbc.{xor_blocks};
ghost use Rattle.des.specs.Relations.{TakesBlock};
ghost use Rattle.des_modes.specs.Streams.{Under};
ghost use Rattle.des_key_wraps.specs.Tkw.{IsSemiblock, TkwUnder, tkw, tw, tw_steps};

use crate::unwrap_error::UnwrapError;
use des::cipher::{BlockCipher, BlockCipherEncrypt, are_bytes};
use des_mac::mac::are_equal;
use des_modes::xored::xor_from;

// The integrity check value before the key.
const ICV3: [u8; 4] = [0xa6; 4];

// The block of two semiblocks.
fn joined(first: &[u8; 4], second: &[u8; 4]) -> [u8; 8]
    ensures { result ≡ first.now ++ second.now }
{
    let mut block = [0; 8];
    block.copy_from_slice([*first, *second].as_flattened());
    block
}

// Writes the two semiblocks of a block.
fn split(block: &[u8; 8], first: &mut [u8; 4], second: &mut [u8; 4])
    ensures first { first.new ≡ take 4 block.now }
    ensures second { second.new ≡ drop 4 block.now }
{
    first.copy_from_slice(&block[..4]);
    second.copy_from_slice(&block[4..]);
}

// The semiblock becomes its xor with the number of a step.
fn xor_number(word: &mut [u8; 4], number: u32)
    ensures { word.new ≡ xor_blocks word.old (to_be_bytes w32 number) }
{
    xor_from(word, &number.to_be_bytes(), 0);
}

// A step of TW, on the first semiblock and the next.
fn step<C: BlockCipherEncrypt>(cipher: &C, first: &mut [u8; 4], word: &mut [u8; 4], number: u32)
    ensures first { xor_blocks (take 4 (C.encrypted cipher.now (first.old ++ word.old)))
        (to_be_bytes w32 number) ≡ first.new }
    ensures word { drop 4 (C.encrypted cipher.now (first.old ++ word.old)) ≡ word.new }
{
    let mut block = joined(first, word);
    cipher.encrypt_block(&mut block);
    split(&block, first, word);
    xor_number(first, number);
}

// Undoes a step.
fn step_back<C: BlockCipher>(cipher: &C, first: &mut [u8; 4], word: &mut [u8; 4], number: u32)
    ensures first { xor_blocks (take 4 (C.encrypted cipher.now (first.new ++ word.new)))
        (to_be_bytes w32 number) ≡ first.old }
    ensures word { drop 4 (C.encrypted cipher.now (first.new ++ word.new)) ≡ word.old }
    ensures block { IsBlock (first.new ++ word.new) }
{
    xor_number(first, number);
    let mut block = joined(first, word);
    are_bytes(&block);
    cipher.decrypt_block(&mut block);
    split(&block, first, word);
}

// TW, on the first semiblock and the others. Step t takes the semiblock at place (t - 1) mod n; the
// standard moves all of them to the left instead.
fn transform<C: BlockCipherEncrypt>(cipher: &C, first: &mut [u8; 4], words: &mut [[u8; 4]])
    requires some { 1 ≤ length words.old }
    requires few { length words.old < 2 ^ 28 }
    ensures { tw (C.encrypted cipher.now) (first.old ∷ words.old) ≡ first.new ∷ words.new }
{
    let count = words.len();
    'steps: for t in 0..6 * count {
        step(cipher, first, &mut words[t % count], t as u32 + 1);
    }
}

// Undoes TW.
fn transform_back<C: BlockCipher>(cipher: &C, first: &mut [u8; 4], words: &mut [[u8; 4]])
    requires some { 1 ≤ length words.old }
    requires few { length words.old < 2 ^ 28 }
    ensures undone { tw (C.encrypted cipher.now) (first.new ∷ words.new) ≡ first.old ∷ words.old }
    ensures only { (start : List (List ℕ)) → All IsSemiblock start
        → Under (TakesBlock (C.encrypted cipher.now))
        (λ encryption. tw encryption start ≡ first.old ∷ words.old) → start ≡ first.new ∷ words.new }
{
    let count = words.len();
    let mut left = 6 * count;
    'steps: while left > 0 {
        left -= 1;
        step_back(cipher, first, &mut words[left % count], left as u32 + 1);
    }
}

/// Wraps a key into a list of one semiblock more.
pub fn wrap<C: BlockCipherEncrypt>(cipher: &C, key: &[[u8; 4]], wrapped: &mut [[u8; 4]])
    requires some { 2 ≤ length key.now }
    requires few { length key.now < 2 ^ 28 }
    requires capacity { length wrapped.old ≡ length key.now + 1 }
    ensures { wrapped.new ≡ tkw (C.encrypted cipher.now) key.now }
{
    let mut first = ICV3;
    wrapped[1..].copy_from_slice(key);
    transform(cipher, &mut first, &mut wrapped[1..]);
    wrapped[0] = first;
}

/// Unwraps a key into a list of one semiblock less. If `wrapped` wraps no key under this cipher,
/// the answer is `UnwrapError`, and the list is zeros. The check value is compared whole, wherever
/// the first difference is.
pub fn unwrap<C: BlockCipher>(
    cipher: &C,
    wrapped: &[[u8; 4]],
    key: &mut [[u8; 4]],
) -> Result<(), UnwrapError>
    requires some { 2 ≤ length key.old }
    requires few { length key.old < 2 ^ 28 }
    requires capacity { length wrapped.now ≡ length key.old + 1 }
    ensures unwrapped { OnOk result (tkw (C.encrypted cipher.now) key.new ≡ wrapped.now) }
    ensures accepted { (other : List (List ℕ)) → All IsSemiblock other
        → TkwUnder (TakesBlock (C.encrypted cipher.now)) other wrapped.now
        → IsOk result × (key.new ≡ other) }
    ensures none { OnErr result (key.new ≡ replicate (length key.old) (replicate 4 0)) }
{
    let mut first = wrapped[0];
    key.copy_from_slice(&wrapped[1..]);
    transform_back(cipher, &mut first, key);
    if are_equal(&first, &ICV3) {
        return Ok(());
    }
    key.fill([0; 4]);
    Err(UnwrapError)
}
