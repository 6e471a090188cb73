//! Cipher block chaining over any block cipher (FIPS 81, cipher block chaining mode): each block is
//! encrypted after it is xored with the ciphertext block before it, the first with an
//! initialization vector.
//!
//! Blocks are whole, 8 bytes each: padding is the caller's. So is authentication, which the mode
//! does not give. An initialization vector must not be used twice under a key, nor be predictable.

ghost use Rattle.std.specs.Prelude.{◌≡◌, ◌≤◌, ℕ, List, length, map};
ghost use Rattle.std.specs.List.{All};
ghost use Rattle.des.specs.Blocks.{IsBlock};
ghost use Rattle.des.specs.Cbc.{xor_blocks, Cbc, CbcDecrypts, next_vector};

use crate::cipher::{BlockCipherDecrypt, BlockCipherEncrypt, are_blocks};

// The blocks that are decrypted together: a cipher may treat some of them side by side.
const BLOCKS_AT_A_TIME: usize = 24;

/// The block becomes its xor with the other, byte by byte. Public for bodies of the mode that take
/// many blocks at a time.
pub fn xor(block: &mut [u8; 8], other: &[u8; 8])
    ensures { block.new ≡ xor_blocks block.old other.now }
{
    for (i, byte) in block.iter_mut().enumerate() {
        *byte ^= other[i];
    }
}

/// Encrypts a list of blocks of 8 bytes in place, chained from the initialization vector: plaintext
/// goes in, and the ciphertext comes out, as many blocks. With p the plaintext and q the
/// ciphertext, numbered from 1, q(0) the initialization vector and E the cipher's encryption, q(n)
/// = E(p(n) ^ q(n-1)). An empty list stays empty.
pub fn encrypt<C: BlockCipherEncrypt>(cipher: &C, iv: &[u8; 8], blocks: &mut [[u8; 8]])
    ensures blocks { All IsBlock blocks.old }
    ensures chained { Cbc (C.encrypted cipher.now) iv.now blocks.old blocks.new }
{
    are_blocks(blocks);
    let mut previous = *iv;
    for block in blocks.iter_mut() {
        xor(block, &previous);
        cipher.encrypt_block(block);
        previous = *block;
    }
}

/// Decrypts a list of blocks of 8 bytes in place that was chained from the initialization vector:
/// ciphertext goes in, and the plaintext comes out, as many blocks. With q the ciphertext and p the
/// plaintext, numbered from 1, q(0) the initialization vector and D the cipher's decryption,
/// p(n) = D(q(n)) ^ q(n-1). An empty list stays empty.
pub fn decrypt<C: BlockCipherDecrypt>(cipher: &C, iv: &[u8; 8], blocks: &mut [[u8; 8]])
    ensures blocks { All IsBlock blocks.old }
    ensures cbc_decrypted { CbcDecrypts (C.decrypted cipher.now) iv.now blocks.old blocks.new }
{
    decrypt_by(
        &ByCipher { cipher },
        iv,
        blocks,
        &mut [[0; 8]; BLOCKS_AT_A_TIME],
    );
}

/// What decrypts the blocks of a list: a cipher, or its keys in another form.
pub trait ListDecryption {
    // Whether each block is decrypted so.
    ghost decrypts: { Self → (List ℕ → List ℕ) → Type 0 };

    /// Decrypts each block of 8 bytes in place, in order.
    fn decrypt_list(&self, blocks: &mut [[u8; 8]])
        ensures { (decryption : List ℕ → List ℕ) → decrypts self.now decryption
            → blocks.new ≡ map decryption blocks.old };
}

// The cipher as what decrypts lists.
#[derive(Drop)]
struct ByCipher<'a, C> {
    cipher: &'a C,
}

impl<'a, C: BlockCipherDecrypt> ListDecryption for ByCipher<'a, C> {
    ghost decrypts = { λ by decryption. decryption ≡ C.decrypted by.cipher.now };

    fn decrypt_list(&self, blocks: &mut [[u8; 8]]) {
        self.cipher.decrypt_blocks(blocks);
    }
}

/// Decrypts a list as `decrypt` does, as many blocks at a time as `buffer` has. The contents of
/// `buffer` afterwards are unspecified, and can be plaintext.
pub fn decrypt_by<D: ListDecryption>(
    by: &D,
    iv: &[u8; 8],
    blocks: &mut [[u8; 8]],
    buffer: &mut [[u8; 8]],
)
    requires { 1 ≤ length buffer.old }
    ensures blocks { All IsBlock blocks.old }
    ensures cbc_decrypted { (decryption : List ℕ → List ℕ) → D.decrypts by.now decryption
        → CbcDecrypts decryption iv.now blocks.old blocks.new }
{
    are_blocks(blocks);
    let mut before = *iv;
    let mut from = 0;
    'parts: while from < blocks.len() {
        let count = buffer.len().min(blocks.len() - from);
        let part = &mut blocks[from..from + count];
        let next = next_vector(&before, part);
        decrypt_part(by, &before, part, buffer);
        before = next;
        from += count;
    }
}

// Decrypts the blocks that go together, chained from the vector. They are decrypted in `buffer`,
// since each is still needed for the one after it.
fn decrypt_part<D: ListDecryption>(
    by: &D,
    iv: &[u8; 8],
    blocks: &mut [[u8; 8]],
    buffer: &mut [[u8; 8]],
)
    requires { length blocks.old ≤ length buffer.old }
    ensures buffer { length buffer.new ≡ length buffer.old }
    ensures cbc_decrypted { (decryption : List ℕ → List ℕ) → D.decrypts by.now decryption
        → CbcDecrypts decryption iv.now blocks.old blocks.new }
{
    let answers = &mut buffer[..blocks.len()];
    answers.copy_from_slice(blocks);
    by.decrypt_list(answers);
    let mut before = *iv;
    for k in 0..blocks.len() {
        let ciphertext = blocks[k];
        blocks[k] = answers[k];
        xor(&mut blocks[k], &before);
        before = ciphertext;
    }
}

/// The vector with which a chain goes on after these ciphertext blocks: the last of them, or
/// `vector`, with which it began, if there is none.
pub fn next_vector(vector: &[u8; 8], ciphertext: &[[u8; 8]]) -> [u8; 8]
    ensures { result ≡ next_vector vector.now ciphertext.now }
{
    match ciphertext.last() {
        Some(block) => *block,
        None => *vector,
    }
}
