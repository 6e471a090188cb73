//! The round keys of keys: what the clauses of `Des::round_keys`, `Des::distinct_round_keys` and
//! `equal_but_parity` give to a caller.

ghost use Rattle.std.specs.Prelude.{◌≡◌, ◌↔◌, IsTrue, IsSome, IfSome, nat_eq};
ghost use Rattle.std.specs.Set.{distinct_count};
ghost use Rattle.des.specs.Bits.{bits_of_bytes};
ghost use Rattle.des.specs.KeyHalves.{HalvesRepeat, HasListedHalves};
ghost use Rattle.des.specs.KeySchedule.{key_schedule};
ghost use Rattle.des.specs.Parity.{AgreeOutsideParity};
ghost use Rattle.des.specs.RoundKeyWords.{HoldRoundKeys};

use des::Des;
use des::cipher::KeyInit;
use des::weak_key::equal_but_parity;

/// The round keys K(1) to K(16) of a key, each in the first 48 bits of its word, and how many
/// different words there are.
pub fn counted_round_keys(key: &[u8; 8]) -> ([u64; 16], u8)
    ensures of_key { HoldRoundKeys result.0 (bits_of_bytes key.now) }
    ensures count { result.1 ≡ distinct_count nat_eq result.0 }
{
    let cipher = Des::new(key);
    (*cipher.round_keys(), cipher.distinct_round_keys())
}

/// Whether a key has one round key, and whether it has more than four. The halves C and D of the
/// one are constant, and those of the other neither repeat every four bits nor are of the listed
/// class.
pub fn has_one_or_many(key: &[u8; 8]) -> (bool, bool)
    ensures one { IsTrue result.0 ↔ HalvesRepeat 1 key.now }
    ensures unlisted { IsTrue result.1 → ¬ (HasListedHalves key.now) }
    ensures unrepeated { IsTrue result.1 → ¬ (HalvesRepeat 4 key.now) }
{
    let count = Des::new(key).distinct_round_keys();
    (count == 1, 4 < count)
}

/// Whether a key has two round keys, and whether it has four. It has two if its halves repeat
/// every two bits and not every one, and four if they are of the listed class and do not repeat
/// every two bits.
pub fn has_two_or_four(key: &[u8; 8]) -> (bool, bool)
    ensures two { HalvesRepeat 2 key.now → ¬ (HalvesRepeat 1 key.now) → IsTrue result.0 }
    ensures four { HasListedHalves key.now → ¬ (HalvesRepeat 2 key.now) → IsTrue result.1 }
{
    let count = Des::new(key).distinct_round_keys();
    (count == 2, count == 4)
}

/// The round keys of two keys that agree outside parity: those of the one are those of the other.
/// `None` if the two do not have one key schedule.
pub fn shared_round_keys(first: &[u8; 8], second: &[u8; 8]) -> Option<[u64; 16]>
    ensures agreeing { IsSome result ↔ AgreeOutsideParity first.now second.now }
    ensures found { IsSome result
        ↔ (key_schedule (bits_of_bytes first.now) ≡ key_schedule (bits_of_bytes second.now)) }
    ensures first { IfSome result (λ words. HoldRoundKeys words (bits_of_bytes first.now)) }
    ensures second { IfSome result (λ words. HoldRoundKeys words (bits_of_bytes second.now)) }
{
    if !equal_but_parity(first, second) {
        return None;
    }
    Some(*Des::new(first).round_keys())
}
