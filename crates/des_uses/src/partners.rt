//! Keys that undo each other: what the clauses of `is_partner` give to a caller.

ghost use Rattle.std.specs.Prelude.{◌≡◌, ◌↔◌, ◌≤◌, ◌-◌, ℕ, IsTrue, IsSome, IfSome};
ghost use Rattle.des.specs.Bits.{bits_of_bytes};
ghost use Rattle.des.specs.KeyHalves.{ArePartners};
ghost use Rattle.des.specs.KeySchedule.{round_key};
ghost use Rattle.des.specs.RoundKeyWords.{HoldRoundKeys};

use des::Des;
use des::cipher::{BlockCipherEncrypt, KeyInit};
use des::weak_key::is_partner;

/// Encrypts a block in place under a key and then under a second one, and another block under the
/// second and then under the first. It tells whether the second key is a partner of the first: then
/// both blocks are as they were.
pub fn encrypt_under_both(
    first: &[u8; 8],
    second: &[u8; 8],
    block: &mut [u8; 8],
    other: &mut [u8; 8],
) -> bool
    ensures partners { IsTrue result ↔ ArePartners first.now second.now }
    ensures undone { IsTrue result → block.new ≡ block.old }
    ensures other_undone { IsTrue result → other.new ≡ other.old }
{
    let cipher = Des::new(first);
    let partner = Des::new(second);
    cipher.encrypt_block(block);
    partner.encrypt_block(block);
    partner.encrypt_block(other);
    cipher.encrypt_block(other);
    is_partner(first, second)
}

/// Encrypts a block in place twice under a key, and tells whether the key is its own partner: then
/// the block is as it was.
pub fn encrypt_twice(key: &[u8; 8], block: &mut [u8; 8]) -> bool
    ensures partners { IsTrue result ↔ ArePartners key.now key.now }
    ensures undone { IsTrue result → block.new ≡ block.old }
{
    let cipher = Des::new(key);
    cipher.encrypt_block(block);
    cipher.encrypt_block(block);
    is_partner(key, key)
}

/// The round keys of the partner of a key: those of the key, from the last to the first. `None`
/// if the second key is no partner of the first: its round keys are not those reversed.
pub fn round_keys_of_partner(key: &[u8; 8], partner: &[u8; 8]) -> Option<[u64; 16]>
    ensures found { IsSome result ↔ ArePartners key.now partner.now }
    ensures reversed { IsSome result ↔ ((i : ℕ) → 1 ≤ i → i ≤ 16
        → round_key (bits_of_bytes partner.now) i ≡ round_key (bits_of_bytes key.now) (17 - i)) }
    ensures of_key { IfSome result (λ words. HoldRoundKeys words (bits_of_bytes partner.now)) }
{
    if !is_partner(key, partner) {
        return None;
    }
    let mut words = *Des::new(key).round_keys();
    words.reverse();
    Some(words)
}
