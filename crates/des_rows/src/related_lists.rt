//! Lists under the relation of a key: what the clauses of the list calls and the laws of `Relating`
//! give together.

ghost use Rattle.std.specs.Prelude.{◌≡◌, ◌↔◌, ℕ, List, length, IsOk, OnOk, OnErr};
ghost use Rattle.des.specs.Blocks.{AnswersEach};
ghost use Rattle.des.specs.Relations.{IsTheOne};

use des::cipher::{
    BlockCipherDecrypt, BlockCipherEncrypt, InvalidLength, KeyInit, NotEqualError, Relating,
};

/// Encrypts each block of a list in place: under the key that the cipher is made from, each block
/// is related to the one at its place, and no other list is so related.
pub fn encrypt_related<C: Relating>(cipher: &C, blocks: &mut [[u8; 8]])
    ensures enciphered { (key : List ℕ) → C.is_made_from cipher.now key
        → IsTheOne (λ ciphertext. AnswersEach (C.relation key) blocks.old ciphertext) blocks.new }
{
    cipher.encrypt_blocks(blocks);
}

/// Decrypts each block of a list in place: the list is the one whose blocks the key relates to
/// those that stood there.
pub fn decrypt_related<C: Relating>(cipher: &C, blocks: &mut [[u8; 8]])
    ensures deciphered { (key : List ℕ) → C.is_made_from cipher.now key
        → IsTheOne (λ plaintext. AnswersEach (C.relation key) plaintext blocks.old) blocks.new }
{
    cipher.decrypt_blocks(blocks);
}

/// Encrypts each block of a list into another, which becomes the one list to whose blocks the key
/// relates those of the first. Lists that differ in length are `NotEqualError`, and the second
/// is unchanged.
pub fn encrypt_related_b2b<C: Relating>(
    cipher: &C,
    input: &[[u8; 8]],
    output: &mut [[u8; 8]],
) -> Result<(), NotEqualError>
    ensures accepted { IsOk result ↔ (length input.now ≡ length output.old) }
    ensures enciphered { (key : List ℕ) → C.is_made_from cipher.now key → OnOk result
        (IsTheOne (λ ciphertext. AnswersEach (C.relation key) input.now ciphertext) output.new) }
    ensures kept { OnErr result (output.new ≡ output.old) }
{
    cipher.encrypt_blocks_b2b(input, output)
}

/// Decrypts each block of a list into another, which becomes the one list whose blocks the key
/// relates to those of the first. Lists that differ in length are `NotEqualError`, and the second
/// is unchanged.
pub fn decrypt_related_b2b<C: Relating>(
    cipher: &C,
    input: &[[u8; 8]],
    output: &mut [[u8; 8]],
) -> Result<(), NotEqualError>
    ensures accepted { IsOk result ↔ (length input.now ≡ length output.old) }
    ensures deciphered { (key : List ℕ) → C.is_made_from cipher.now key → OnOk result
        (IsTheOne (λ plaintext. AnswersEach (C.relation key) plaintext input.now) output.new) }
    ensures kept { OnErr result (output.new ≡ output.old) }
{
    cipher.decrypt_blocks_b2b(input, output)
}

/// Encrypts each block of a list in place under the key of these bytes. A key of another length
/// than the cipher's is `InvalidLength`, and the list is unchanged.
pub fn encrypt_under<C: Relating + Drop>(
    key: &[u8],
    blocks: &mut [[u8; 8]],
) -> Result<(), InvalidLength>
    ensures accepted { IsOk result ↔ (length key.now ≡ C.KEY_SIZE) }
    ensures enciphered { OnOk result
        (IsTheOne (λ ciphertext. AnswersEach (C.relation key.now) blocks.old ciphertext) blocks.new) }
    ensures kept { OnErr result (blocks.new ≡ blocks.old) }
{
    encrypt_related(&C::new_from_slice(key)?, blocks);
    Ok(())
}
