//! Lists there and back, also by CBC, by the generic callers, over each cipher and over two that
//! hide nothing.

ghost use Rattle.std.specs.Prelude.{◌≤◌};

use crate::chaining::{decrypt_cbc, encrypt_cbc};
use crate::lists::there_and_back;
use crate::odd_ciphers::{Reverse, XorKey};
use crate::tests::known::{IV, Known, PLAINTEXT, blocks};
use des::cipher::{BlockCipher, BlockCipherDecrypt, BlockCipherEncrypt, KeyInit};

type List = [[u8; 8]; 3];

// Whether the first blocks of the plaintext become those of this list, and themselves again.
fn list_goes_there_and_back<C: BlockCipher>(cipher: &C, count: usize, ciphertext: &List) -> bool
    requires { count ≤ 3 }
{
    let (mut there, mut back) = ([[0xa5; 8]; 3], [[0xa5; 8]; 3]);
    let (blocks, there, back) = (&PLAINTEXT[..count], &mut there[..count], &mut back[..count]);
    there_and_back(cipher, blocks, there, back);
    &*there == &ciphertext[..count] && &*back == blocks
}

// Whether they do by CBC, in place, and the blocks after them are unchanged.
fn cbc_goes_there_and_back<C: BlockCipher>(cipher: &C, count: usize, ciphertext: &List) -> bool
    requires { count ≤ 3 }
{
    let mut blocks = PLAINTEXT;
    let (first, rest) = blocks.split_at_mut(count);
    encrypt_cbc(cipher, &IV, first);
    let is_encrypted = &*first == &ciphertext[..count] && &*rest == &PLAINTEXT[count..];
    decrypt_cbc(cipher, &IV, first);
    is_encrypted && blocks == PLAINTEXT
}

// Both, of each number of blocks.
fn go_there_and_back<C: BlockCipher>(cipher: &C, by_blocks: &List, by_cbc: &List) -> bool {
    for count in 0..4usize {
        if !list_goes_there_and_back(cipher, count, by_blocks)
            || !cbc_goes_there_and_back(cipher, count, by_cbc)
        {
            return false;
        }
    }
    true
}

/// Whether a cipher of which so much is known passes.
pub fn passes<C: BlockCipher>(cipher: &C, known: &Known) -> bool {
    go_there_and_back(
        cipher,
        &blocks(known.ciphertext),
        &blocks(known.encrypted_by_cbc),
    )
}

// ---- ciphers that hide nothing

// Whether a cipher takes one block to the other, and back.
fn takes<C: BlockCipher>(cipher: &C, block: [u8; 8], other: [u8; 8]) -> bool {
    let mut bytes = block;
    cipher.encrypt_block(&mut bytes);
    let is_encrypted = bytes == other;
    cipher.decrypt_block(&mut bytes);
    is_encrypted && bytes == block
}

// By hand. The second key and block are the complements of the first, and become the same
// block: no complement.
#[test]
fn xor_takes_a_block_to_itself_xor_the_key(rt: HostRuntime) {
    assert!(rt; takes(&XorKey::new(&[0x0f; 8]), [0x00; 8], [0x0f; 8]));
    assert!(rt; takes(&XorKey::new(&[0xf0; 8]), [0xff; 8], [0x0f; 8]));
}

// By hand: the bytes of the text xor 0f; and each block of it xor 0f, xor the ciphertext before it.
const XORED: List = [
    *b"\x5b\x67\x6a\x2f\x7e\x7a\x69\x6c",
    *b"\x64\x2f\x6d\x7d\x60\x78\x61\x2f",
    *b"\x69\x60\x77\x2f\x65\x7a\x62\x7f",
];

const XORED_BY_CBC: List = [
    *b"\x49\x53\x3c\x57\xee\xd1\xa4\x83",
    *b"\x2d\x7c\x51\x2a\x8e\xa9\xc5\xac",
    *b"\x44\x1c\x26\x05\xeb\xd3\xa7\xd3",
];

#[test]
fn lists_go_there_and_back_by_xor(rt: HostRuntime) {
    assert!(rt; go_there_and_back(&XorKey::new(&[0x0f; 8]), &XORED, &XORED_BY_CBC));
}

// By hand: the bytes in the opposite order; a block of zeros becomes by CBC the
// ciphertext before it, from its end.
const ONE_TO_EIGHT: [u8; 8] = [1, 2, 3, 4, 5, 6, 7, 8];

const EIGHT_TO_ONE: [u8; 8] = [8, 7, 6, 5, 4, 3, 2, 1];

const REVERSED: List = [*b"cfuq ehT", *b" nworb k", *b"pmuj xof"];

fn cbc_is_by_reversal() -> bool {
    let mut blocks = [ONE_TO_EIGHT, [0; 8]];
    encrypt_cbc(&Reverse, &[0; 8], &mut blocks);
    let is_encrypted = blocks == [EIGHT_TO_ONE, ONE_TO_EIGHT];
    decrypt_cbc(&Reverse, &[0; 8], &mut blocks);
    is_encrypted && blocks == [ONE_TO_EIGHT, [0; 8]]
}

fn lists_are_reversed() -> bool {
    list_goes_there_and_back(&Reverse, 3, &REVERSED)
        && list_goes_there_and_back(&Reverse, 0, &REVERSED)
        && takes(&Reverse, ONE_TO_EIGHT, EIGHT_TO_ONE)
}

#[test]
fn lists_go_there_and_back_by_reversal(rt: HostRuntime) {
    assert!(rt; lists_are_reversed() && cbc_is_by_reversal());
}
