//! The block cipher `Des` (FIPS 46-3).

ghost use Rattle.std.specs.Prelude.{◌≡◌, ◌<◌, ◌^◌, ℕ, List, ◌++◌, take, drop, nat_eq, codes, Some};
ghost use Rattle.std.specs.List.{All};
ghost use Rattle.std.specs.Set.{distinct_count};
ghost use Rattle.std.specs.Iterator.{IsFinite, AlwaysYields};
ghost use Rattle.std.specs.Fmt.{DisplaysOnOk, DisplaysStyledOnOk};
ghost use Rattle.des.specs.Bits.{bits_of_bytes, bits_of_word, select};
ghost use Rattle.des.specs.Blocks.{IsBlock};
ghost use Rattle.des.specs.Relations.{IsTheOne, IsBijection, IsGraphOf};
ghost use Rattle.des.specs.Tables.{initial_permutation, final_permutation};
ghost use Rattle.des.specs.Enciphering.{Enciphers};
ghost use Rattle.des.specs.Rounds.{block_by_keys};
ghost use Rattle.des.specs.RoundKeyWords.{HoldSomeRoundKeys, round_keys_of};

use crate::cipher::{
    AlgorithmName, BlockCipher, BlockCipherDecrypt, BlockCipherEncrypt, Complementing, KeyInit,
    KeySizeUser, KeyedCipher, OneBlockAtATime, Relating,
};
use crate::utils;
use std::alloc::AllocError;
use std::fmt;

// The word of the two halves that the rounds of a block begin with.
fn first_halves(block: &[u8; 8]) -> u64
    ensures { bits_of_word result ≡ select initial_permutation (bits_of_bytes block.now) }
{
    utils::ip(u64::from_be_bytes(*block))
}

// The block that the word of the two halves after the rounds makes: the halves are swapped, and the
// final permutation follows.
fn last_block(halves: u64) -> [u8; 8]
    ensures block { IsBlock result }
    ensures bits { bits_of_bytes result ≡ select final_permutation
        (drop 32 (bits_of_word halves) ++ take 32 (bits_of_word halves)) }
{
    utils::fp(halves.rotate_left(32)).to_be_bytes()
}

// Takes a block through a round for each round key: to encipher it the round keys come in their
// order, to decipher it from the last to the first.
fn run_rounds<'a, I: Iterator<Item = &'a u64>>(block: &mut [u8; 8], round_keys: I)
    requires can { I.can_next round_keys }
    requires ends { IsFinite (I.remaining round_keys) }
    ensures was_block { IsBlock block.old }
    ensures processed { (words : List ℕ)
        → AlwaysYields I.next_gives (λ word. word.now) round_keys words
        → block.new ≡ block_by_keys (round_keys_of words) block.old }
{
    let mut halves = first_halves(block);
    for &round_key in round_keys {
        halves = utils::round(halves, round_key);
    }
    *block = last_block(halves);
}

// The number of different words: each is counted at its last occurrence. A clause also states that
// they are words, since the contracts of `Des` do not state this of its round keys.
fn count_distinct(words: &[u64; 16]) -> u8
    ensures are_words { All (λ word. word < 2 ^ 64) words.now }
    ensures count { result ≡ distinct_count nat_eq words.now }
{
    let mut distinct = 0;
    for (i, word) in words.iter().enumerate() {
        if !words[i + 1..].contains(word) {
            distinct += 1;
        }
    }
    distinct
}

/// DES under one key: the key's sixteen round keys.
///
/// A key has 8 bytes, bit 1 the most significant bit of the first. Every key is taken, weak ones
/// included; its parity bits (bits 8, 16, .., 64) are neither tested nor used.
#[derive(Drop)]
pub struct Des {
    round_keys: [u64; 16],
    ghost scheduled: { ∥ HoldSomeRoundKeys round_keys ∥₁ },
}

impl Des {
    ghost use Rattle.std.specs.Prelude.{◌↔◌, ◌≤◌};
    ghost use Rattle.des.specs.Des.{IsDesOf, round_key_words};
    ghost use Rattle.des.specs.RoundKeyWords.{HoldRoundKeys};
    ghost use Rattle.des.specs.KeyHalves.{HalvesRepeat, HasListedHalves};

    /// The round keys K(1) to K(16) of the key that the cipher was made from, each in the first 48
    /// bits of its word, with zeros after them (FIPS 46-3, key schedule). They do not tell the
    /// parity bits of the key; whoever has them has all its other bits.
    pub fn round_keys(&self) -> &[u64; 16]
        ensures words { result.now ≡ round_key_words self.now }
        ensures of_key { (key : List ℕ) → IsDesOf self.now key
            → HoldRoundKeys result.now (bits_of_bytes key) }
    {
        &self.round_keys
    }

    /// The number of different words among the sixteen round keys, wherever among them they stand.
    ///
    /// By the halves C and D of the key (FIPS 46-3, key schedule): it is 1 exactly if both are
    /// unchanged by rotation by one; else 2 if both are unchanged by rotation by two; else 4
    /// if each, rotated left by two, is itself or its complement; and at most 4 if both
    /// repeat every four bits.
    pub fn distinct_round_keys(&self) -> u8
        ensures count { result ≡ distinct_count nat_eq (round_key_words self.now) }
        ensures one { (key : List ℕ) → IsDesOf self.now key → (result ≡ 1) ↔ HalvesRepeat 1 key }
        ensures two { (key : List ℕ) → IsDesOf self.now key
            → HalvesRepeat 2 key → ¬ (HalvesRepeat 1 key) → result ≡ 2 }
        ensures four { (key : List ℕ) → IsDesOf self.now key
            → HasListedHalves key → ¬ (HalvesRepeat 2 key) → result ≡ 4 }
        ensures at_most_four { (key : List ℕ) → IsDesOf self.now key
            → HalvesRepeat 4 key → result ≤ 4 }
    {
        count_distinct(&self.round_keys)
    }
}

impl KeySizeUser for Des {
    ghost use Rattle.std.specs.Prelude.{refl};

    type Key = [u8; 8];

    const KEY_SIZE: usize = 8;

    ghost KEY_SIZE = { 8 };

    ghost key_size_is_len = { refl };
}

impl KeyInit for Des {
    ghost use Rattle.des.specs.Des.{IsDesOf, IsDesMadeFrom, encryption as encryption_by, decryption as decryption_by};

    ghost is_made_from = { IsDesMadeFrom };

    /// The cipher of a key of 8 bytes (FIPS 46-3, key schedule).
    fn new(key: &[u8; 8]) -> Des
        ensures made { IsDesOf result key.now }
        ensures bijective { IsBijection (Enciphers key.now) }
        ensures encryption { IsGraphOf (encryption_by key.now) (Enciphers key.now) }
        ensures decryption { IsGraphOf (decryption_by key.now) (λ y x. Enciphers key.now x y) }
    {
        Des {
            round_keys: utils::gen_keys(u64::from_be_bytes(*key)),
        }
    }
}

impl OneBlockAtATime for Des {
    ghost use Rattle.std.specs.Prelude.{refl};

    ghost par_blocks_is_one = { refl };
}

impl AlgorithmName for Des {
    const NAME: &'static str = "Des";
}

impl BlockCipherEncrypt for Des {
    ghost use Rattle.des.specs.Des.{IsDesOf, encrypted as encrypted_by};

    ghost encrypted = { encrypted_by };

    /// Enciphers a block of 8 bytes in place, bit 1 the most significant bit of the first byte
    /// (FIPS 46-3, enciphering).
    fn encrypt_block(&self, block: &mut [u8; 8])
        ensures encrypted { block.new ≡ encrypted_by self.now block.old }
        ensures enciphers { (key : List ℕ) → IsDesOf self.now key
            → IsTheOne (λ answer. Enciphers key block.old answer) block.new }
    {
        run_rounds(block, self.round_keys.iter());
    }
}

impl BlockCipherDecrypt for Des {
    ghost use Rattle.des.specs.Des.{IsDesOf, decrypted as decrypted_by};

    ghost decrypted = { decrypted_by };

    /// Deciphers a block of 8 bytes in place, bit 1 the most significant bit of the first byte: the
    /// rounds of enciphering, with the round keys from the last to the first (FIPS 46-3,
    /// deciphering).
    fn decrypt_block(&self, block: &mut [u8; 8])
        ensures decrypted { block.new ≡ decrypted_by self.now block.old }
        ensures deciphers { (key : List ℕ) → IsDesOf self.now key
            → IsTheOne (λ answer. Enciphers key answer block.old) block.new }
    {
        run_rounds(block, self.round_keys.iter().rev());
    }
}

impl BlockCipher for Des {
    ghost use Rattle.des.specs.Laws.RoundsUndone.{IsPass-block_by_keys};

    ghost encrypted_is_block = { λ cipher.
        (IsPass-block_by_keys (round_keys_of cipher.round_keys)).forth_is_block };

    ghost decrypted_is_block = { λ cipher.
        (IsPass-block_by_keys (round_keys_of cipher.round_keys)).back_is_block };

    ghost decrypts_encrypted = { λ cipher.
        (IsPass-block_by_keys (round_keys_of cipher.round_keys)).back_forth };

    ghost encrypts_decrypted = { λ cipher.
        (IsPass-block_by_keys (round_keys_of cipher.round_keys)).forth_back };
}

impl KeyedCipher for Des {
    ghost use Rattle.std.specs.Prelude.{reverse};
    ghost use Rattle.des.specs.Des.{encryption as encryption_by, decryption as decryption_by};
    ghost use Rattle.des.specs.Laws.KeptRoundKeys.{Agree-kept};

    ghost encryption = { encryption_by };

    ghost decryption = { decryption_by };

    ghost encrypts_by_key = { λ cipher key block _ made is_block.
        (Agree-kept (λ keys. keys) cipher.round_keys key made.0.1).at block is_block };

    ghost decrypts_by_key = { λ cipher key block _ made is_block.
        (Agree-kept reverse cipher.round_keys key made.0.1).at block is_block };
}

impl Relating for Des {
    ghost use Rattle.std.specs.Prelude.{reverse};
    ghost use Rattle.des.specs.Laws.KeptRoundKeys.{Agree-kept};
    ghost use Rattle.des.specs.Laws.Passes.{IsGraphOf-alike};

    ghost relation = { λ key block answer. Enciphers key block answer };

    ghost encrypts_by_relation = { λ cipher key made.
        IsGraphOf-alike (λ x y. Enciphers key x y)
        (Agree-kept (λ keys. keys) cipher.round_keys key made.0.1) made.1.0 };

    ghost decrypts_by_relation = { λ cipher key made.
        IsGraphOf-alike (λ y x. Enciphers key x y)
        (Agree-kept reverse cipher.round_keys key made.0.1) made.1.1 };
}

impl Complementing for Des {
    ghost use Rattle.des.specs.Laws.ComplementedKeys.{Complements-encryption, Complements-decryption};

    ghost encryption_complements = { λ key block is_key is_block.
        (Complements-encryption key is_key.0).at block is_block };

    ghost decryption_complements = { λ key block is_key is_block.
        (Complements-decryption key is_key.0).at block is_block };
}

impl Clone for Des {
    ghost use Rattle.std.specs.Prelude.{⊤};

    ghost is_clone = { λ cipher other. other ≡ cipher };

    ghost is_infallible = { λ _. ⊤ };

    fn clone(&self) -> Result<Des, AllocError> {
        let round_keys = self.round_keys;
        Ok(Des { round_keys })
    }
}

/// Writes the type's name, and no part of the key, whatever options are set. What a writer that
/// refuses a write has got by then is tested to be a prefix of that text, and not proved.
impl fmt::Debug for Des {
    ghost debug_output = { λ _. Some (codes "Des { ... }") };

    fn fmt<W: fmt::Write>(&self, f: &mut fmt::Formatter<W>) -> fmt::Result
        ensures writes { DisplaysOnOk W.write_str_gives f.old result
            (Some (codes "Des { ... }")) f.new }
        ensures styled { DisplaysStyledOnOk W.write_str_gives f.old result
            (Some (codes "Des { ... }")) f.new }
    {
        f.write_str("Des { ... }")
    }
}
