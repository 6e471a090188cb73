//! The rounds of some blocks side by side.
//!
//! A half block is kept as its expansion E in a word of groups, as in `halves`.

ghost use Rattle.std.specs.Prelude.{◌≡◌, ◌<◌, ◌≤◌, ℕ, [], length, slice_index_or, bit_xor};
ghost use Rattle.des.specs.Rounds.{after_rounds};
ghost use Rattle.des_fast.specs.RoundKeyChanges.{AreChanges, change_word, key_word};
ghost use Rattle.des_fast.specs.Slices.{InEachBlock};
ghost use Rattle.des_fast.specs.Groups.{IsOfGroups, half_of};
ghost use Rattle.des_fast.specs.HalfBlocks.{round_keys_of, first_halves, last_block};
ghost use Rattle.des_fast.specs.SideBySide.{AreExpansions, IsSubstitutedInto, in_direction};

use crate::halves::RoundKey;

/// A word of groups of each of some blocks.
pub trait Groups: Copy {
    /// Whether it is quicker to compute all changes of round keys before the rounds than each in
    /// its round.
    const CHANGES_AHEAD: bool;

    // The number of blocks.
    ghost BLOCKS: { ℕ };

    // The word of block b, from 0.
    ghost word: { ℕ → Self → ℕ };

    /// The number of blocks. The list has at least that many, so that sums of counts do not
    /// overflow.
    fn count(blocks: &[[u8; 8]]) -> usize
        requires { BLOCKS ≤ length blocks.now }
        ensures { result ≡ BLOCKS };

    /// The halves that the rounds of the blocks begin with (FIPS 46-3, enciphering).
    fn of_blocks(blocks: &[[u8; 8]]) -> (Self, Self)
        requires { length blocks.now ≡ BLOCKS }
        ensures left { AreExpansions BLOCKS word result.0 }
        ensures right { AreExpansions BLOCKS word result.1 }
        ensures halves { InEachBlock BLOCKS (λ b. (half_of (word b result.0), half_of (word b result.1))
            ≡ first_halves (slice_index_or blocks.now b [])) };

    /// Writes the blocks that the halves after the rounds make (FIPS 46-3, enciphering).
    fn write_blocks(blocks: &mut [[u8; 8]], left: Self, right: Self)
        requires count { length blocks.old ≡ BLOCKS }
        requires left { AreExpansions BLOCKS word left }
        requires right { AreExpansions BLOCKS word right }
        ensures count { length blocks.new ≡ BLOCKS }
        ensures written { InEachBlock BLOCKS (λ b. slice_index_or blocks.new b []
            ≡ last_block (half_of (word b left), half_of (word b right))) };

    /// These words, each with a round key xored in.
    fn with_key(self, round_key: RoundKey) -> Self
        ensures { InEachBlock BLOCKS (λ b. word b result ≡ bit_xor (word b self) round_key.groups) };

    /// The word of each block, xored with what S1 to S8, P and then E make of the 48 bits in the
    /// word of that block in `others` (FIPS 46-3, cipher function). Lookup and xor are one call, so
    /// that the lookups of only one block need registers at a time.
    fn xor_substituted(self, others: Self) -> Self
        requires { InEachBlock BLOCKS (λ b. IsOfGroups (word b others)) }
        ensures { InEachBlock BLOCKS (λ b.
            IsSubstitutedInto (word b self) (word b others) (word b result)) };
}

/// The word of groups of one block.
pub trait OneWord: Groups {
    /// The xor of the two words.
    fn xor(self, other: Self) -> Self
        ensures { InEachBlock Self.BLOCKS (λ b.
            Self.word b result ≡ bit_xor (Self.word b self) (Self.word b other)) };

    ghost is_one: { Self.BLOCKS ≡ 1 };
}

// The round key of a round, from 0, in the order of enciphering or of deciphering.
#[inline(always)]
fn round_key_of(round_keys: &[RoundKey; 16], deciphers: bool, round: usize) -> RoundKey
    requires { round < 16 }
    ensures { result.groups ≡ key_word deciphers round_keys.now round }
{
    if deciphers {
        round_keys[15 - round]
    } else {
        round_keys[round]
    }
}

// The bits in which the round key of a round differs from that of two rounds later, counted modulo
// 16.
#[inline(always)]
fn key_change(round_keys: &[RoundKey; 16], deciphers: bool, round: usize) -> RoundKey
    requires { round < 16 }
    ensures { result.groups ≡ change_word deciphers round_keys.now round }
{
    let round_key = round_key_of(round_keys, deciphers, round);
    round_key.xor(round_key_of(round_keys, deciphers, (round + 2) % 16))
}

// The changes of all rounds, each at the index of its round key. Computed by index and not by
// round, since the compiler then takes two at a time.
#[inline(always)]
fn key_changes(round_keys: &[RoundKey; 16], deciphers: bool) -> [RoundKey; 16]
    ensures { AreChanges deciphers round_keys.now result }
{
    let step = if deciphers { 14 } else { 2 };
    let mut changes = *round_keys;
    'places: for place in 0..16usize {
        changes[place] = round_keys[place].xor(round_keys[(place + step) % 16]);
    }
    changes
}

// The change of a round: read from `changes` if `ahead`, else computed here. It is the same.
#[inline(always)]
fn change_of(
    changes: &[RoundKey; 16],
    ahead: bool,
    round_keys: &[RoundKey; 16],
    deciphers: bool,
    round: usize,
) -> RoundKey
    requires round { round < 16 }
    requires changes { AreChanges deciphers round_keys.now changes.now }
    ensures { result.groups ≡ change_word deciphers round_keys.now round }
{
    if ahead {
        round_key_of(changes, deciphers, round)
    } else {
        key_change(round_keys, deciphers, round)
    }
}

// Sixteen rounds in one direction (FIPS 46-3, enciphering). A half is kept with the round key of
// its next lookup xored in, so that its groups are indexes as they stand. One xor changes that key
// for the next one, while lookups are under way. After the last two keys come the first two, which
// the end takes out. If no changes are computed ahead, the compiler drops `changes`. Inlined where
// the direction is known, so that no round tests it.
#[inline(always)]
fn rounds<G: Groups>(left: G, right: G, round_keys: &[RoundKey; 16], deciphers: bool) -> (G, G)
    requires left { AreExpansions G.BLOCKS G.word left }
    requires right { AreExpansions G.BLOCKS G.word right }
    ensures left { AreExpansions G.BLOCKS G.word result.0 }
    ensures right { AreExpansions G.BLOCKS G.word result.1 }
    ensures halves { InEachBlock G.BLOCKS (λ b.
        (half_of (G.word b result.0), half_of (G.word b result.1))
        ≡ after_rounds (in_direction deciphers (round_keys_of round_keys.now))
        (half_of (G.word b left)) (half_of (G.word b right))) }
{
    let first_key = round_key_of(round_keys, deciphers, 0);
    let second_key = round_key_of(round_keys, deciphers, 1);
    let changes = key_changes(round_keys, deciphers);
    let ahead = G::CHANGES_AHEAD;
    let mut next_left = left.with_key(second_key);
    let mut next_right = right.with_key(first_key);
    for i in 0..8usize {
        next_left = next_left.xor_substituted(next_right);
        next_right = next_right.with_key(change_of(&changes, ahead, round_keys, deciphers, 2 * i));
        next_right = next_right.xor_substituted(next_left);
        next_left = next_left.with_key(change_of(
            &changes,
            ahead,
            round_keys,
            deciphers,
            2 * i + 1,
        ));
    }
    (
        next_left.with_key(second_key),
        next_right.with_key(first_key),
    )
}

/// The halves after sixteen rounds, with the round keys in their order or, to decipher, from the
/// last to the first (FIPS 46-3, enciphering and deciphering). Inlined, since three passes in a row
/// would otherwise take the halves through memory.
#[inline(always)]
pub(crate) fn after_rounds<G: Groups>(
    left: G,
    right: G,
    round_keys: &[RoundKey; 16],
    deciphers: bool,
) -> (G, G)
    requires left { AreExpansions G.BLOCKS G.word left }
    requires right { AreExpansions G.BLOCKS G.word right }
    ensures left { AreExpansions G.BLOCKS G.word result.0 }
    ensures right { AreExpansions G.BLOCKS G.word result.1 }
    ensures halves { InEachBlock G.BLOCKS (λ b.
        (half_of (G.word b result.0), half_of (G.word b result.1))
        ≡ after_rounds (in_direction deciphers (round_keys_of round_keys.now))
        (half_of (G.word b left)) (half_of (G.word b right))) }
{
    if deciphers {
        rounds(left, right, round_keys, true)
    } else {
        rounds(left, right, round_keys, false)
    }
}
