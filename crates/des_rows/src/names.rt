//! The five ciphers by the names of their types: the relation that each name says. The names of the
//! triple ciphers are aliases, and no clause of `des` tells what they stand for.

ghost use Rattle.std.specs.Prelude.{◌≡◌, ◌↔◌, length, codes, IsOk, OnOk, OnErr};
ghost use Rattle.des.specs.Blocks.{AnswersEach};
ghost use Rattle.des.specs.Relations.{IsTheOne};
ghost use Rattle.des.specs.Enciphering.{Enciphers};
ghost use Rattle.des.specs.Triple.{EnciphersEde2, EnciphersEde3, EnciphersEee2, EnciphersEee3};

use crate::related_lists::encrypt_under;
use des::cipher::{AlgorithmName, InvalidLength};
use des::{Des, TdesEde2, TdesEde3, TdesEee2, TdesEee3};

/// The name of `Des`.
pub fn name_of_des() -> &'static str
    ensures { result.now ≡ codes "Des" }
{
    Des::NAME
}

/// Encrypts a list of blocks in place under a key of 8 bytes by `Des`.
pub fn encrypt_by_des(key: &[u8], blocks: &mut [[u8; 8]]) -> Result<(), InvalidLength>
    ensures accepted { IsOk result ↔ (length key.now ≡ 8) }
    ensures enciphered { OnOk result
        (IsTheOne (λ ciphertext. AnswersEach (Enciphers key.now) blocks.old ciphertext) blocks.new) }
    ensures kept { OnErr result (blocks.new ≡ blocks.old) }
{
    encrypt_under::<Des>(key, blocks)
}

/// Encrypts a list of blocks in place under a key of 16 bytes by `TdesEde2`.
pub fn encrypt_by_ede2(key: &[u8], blocks: &mut [[u8; 8]]) -> Result<(), InvalidLength>
    ensures accepted { IsOk result ↔ (length key.now ≡ 16) }
    ensures enciphered { OnOk result
        (IsTheOne (λ ciphertext. AnswersEach (EnciphersEde2 key.now) blocks.old ciphertext) blocks.new) }
    ensures kept { OnErr result (blocks.new ≡ blocks.old) }
{
    encrypt_under::<TdesEde2>(key, blocks)
}

/// Encrypts a list of blocks in place under a key of 24 bytes by `TdesEde3`.
pub fn encrypt_by_ede3(key: &[u8], blocks: &mut [[u8; 8]]) -> Result<(), InvalidLength>
    ensures accepted { IsOk result ↔ (length key.now ≡ 24) }
    ensures enciphered { OnOk result
        (IsTheOne (λ ciphertext. AnswersEach (EnciphersEde3 key.now) blocks.old ciphertext) blocks.new) }
    ensures kept { OnErr result (blocks.new ≡ blocks.old) }
{
    encrypt_under::<TdesEde3>(key, blocks)
}

/// Encrypts a list of blocks in place under a key of 16 bytes by `TdesEee2`.
pub fn encrypt_by_eee2(key: &[u8], blocks: &mut [[u8; 8]]) -> Result<(), InvalidLength>
    ensures accepted { IsOk result ↔ (length key.now ≡ 16) }
    ensures enciphered { OnOk result
        (IsTheOne (λ ciphertext. AnswersEach (EnciphersEee2 key.now) blocks.old ciphertext) blocks.new) }
    ensures kept { OnErr result (blocks.new ≡ blocks.old) }
{
    encrypt_under::<TdesEee2>(key, blocks)
}

/// Encrypts a list of blocks in place under a key of 24 bytes by `TdesEee3`.
pub fn encrypt_by_eee3(key: &[u8], blocks: &mut [[u8; 8]]) -> Result<(), InvalidLength>
    ensures accepted { IsOk result ↔ (length key.now ≡ 24) }
    ensures enciphered { OnOk result
        (IsTheOne (λ ciphertext. AnswersEach (EnciphersEee3 key.now) blocks.old ciphertext) blocks.new) }
    ensures kept { OnErr result (blocks.new ≡ blocks.old) }
{
    encrypt_under::<TdesEee3>(key, blocks)
}
