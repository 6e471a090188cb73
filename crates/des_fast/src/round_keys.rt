//! The round keys of a `Des` as plain words, for callers that keep them in memory of their own and
//! make the cipher anew for each call.
//!
//! A word has 48 bits of a round key in eight groups of six, each in the last six bits of a byte:
//! the groups 1, 3, 5 and 7 in bytes 1 to 4, the groups 2, 4, 6 and 8 in bytes 5 to 8, byte 1 the
//! most significant.

ghost use Rattle.std.specs.Prelude.{◌≡◌, ◌≤◌, ◌*◌, ℕ, List, length};
ghost use Rattle.des_fast.specs.Des.{IsDesOf, IsDesMadeFrom};
ghost use Rattle.des_fast.specs.Groups.{bits_of_groups};
ghost use Rattle.des_fast.specs.KeptRoundKeys.{AreRoundKeysOf, words_of_part};

use crate::halves::RoundKey;
use crate::schedule::KeySchedule;
use crate::single::Des;
use std::marker::PhantomData;

// The word of a round key.
fn word_of(round_key: RoundKey) -> u64
    ensures { result ≡ round_key.groups }
{
    round_key.groups
}

/// The sixteen round keys of a cipher, as words.
pub fn to_words<W>(cipher: &Des<W>) -> [u64; 16]
    ensures { (key : List ℕ) → IsDesOf cipher.now key → AreRoundKeysOf result key }
{
    cipher.schedule.round_keys.map(word_of)
}

/// The cipher of part `number` of a key, from 1, by words that hold the round keys of its parts,
/// one part after another. Bits beside the groups of a word are not used.
pub fn from_words<W>(words: &[u64], number: usize) -> Des<W>
    requires from { 1 ≤ number }
    requires to { 16 * number ≤ length words.now }
    requires made { (key : List ℕ) × AreRoundKeysOf (words_of_part number words.now) key }
    ensures { (key : List ℕ) → AreRoundKeysOf (words_of_part number words.now) key
        → IsDesMadeFrom result key }
{
    let words = words[16 * (number - 1)..16 * number]
        .as_array::<16>()
        .unwrap();
    Des {
        schedule: KeySchedule {
            round_keys: words.map(
                |word: u64| -> RoundKey
                    ensures { bits_of_groups result.groups ≡ bits_of_groups word }
                {
                    RoundKey {
                        groups: word & 0x3f3f3f3f3f3f3f3f,
                    }
                },
            ),
        },
        lookup: PhantomData,
    }
}
