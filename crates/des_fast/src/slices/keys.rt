//! Round keys as slices. A bit of a round key is the same for all blocks, so a slice of it is all
//! ones or all zeros; and it is a bit of one of the halves C and D, which a round rotates. So a key
//! has 56 slices. Those of C stand twice in a row, and so do those of D: in 56 slices that begin
//! anywhere in the first half, all rotations of a half are there as they are.

ghost use Rattle.std.specs.Prelude.{◌≡◌, ◌≤◌, ◌<◌, ◌+◌, ◌*◌, ℕ, List, length, map};
ghost use Rattle.des.specs.Bits.{bit, bits_of_bytes};
ghost use Rattle.des_fast.specs.Slices.{InEachBlock, bits_of_slice};
ghost use Rattle.des_fast.specs.Transposition.{bits_of_halves, block_at};
ghost use Rattle.des_fast.specs.RoundKeySlices.{halves_in, StandTwiceBelow, round_keys_of_pass, round_keys_in};
ghost use Rattle.des_fast.specs.EachKey.{round_keys_under};

use super::selection::write_selection;
use super::transposition::Half;
use super::{Slice, read_blocks};
use crate::halves::RoundKey;

/// The slices of the halves C and D of a key: those of C, those of C again, and those of D, twice.
pub(crate) type KeyHalves<S> = [S; 112];

/// A pass of DES: the last two round keys of its key, in which all bits of C and D stand, and
/// whether it takes the round keys from the last to the first.
#[derive(Clone, Copy)]
pub(crate) struct PassKeys {
    pub(crate) fifteenth: RoundKey,
    pub(crate) sixteenth: RoundKey,
    pub(crate) deciphers: bool,
}

/// A pass of DES as slices.
#[derive(Clone, Copy)]
pub struct PassSlices<S> {
    pub(super) halves: KeyHalves<S>,
    pub(super) deciphers: bool,
}

// Where the bits of C and then those of D stand in the words of the last two round keys, from 1.
// In the sixteenth, after 28 places, each is where it was at first; the four bits of each half that
// it leaves out are in the fifteenth, one place on.
#[rattlefmt::skip]
const HALVES: [usize; 56] = [
    71, 112, 99, 78, 72, 102, 108,
    80, 40, 104, 69, 77, 111, 67,
    101, 107, 68, 12, 76, 110, 103,
    11, 75, 70, 15, 79, 109, 100,
    127, 115, 85, 128, 119, 95, 62,
    126, 86, 29, 93, 116, 83, 124,
    27, 91, 118, 123, 87, 120, 92,
    125, 117, 84, 96, 24, 88, 94,
];

// Where permuted choice 1 finds the bits of a key after the initial permutation, whose rows of
// eight have those of its own table: C, C again, and D, twice.
#[rattlefmt::skip]
const PERMUTED_CHOICE_1: [usize; 112] = [
    33, 34, 35, 36, 37, 38, 39,
    40, 1, 2, 3, 4, 5, 6,
    7, 8, 41, 42, 43, 44, 45,
    46, 47, 48, 9, 10, 11, 12,
    33, 34, 35, 36, 37, 38, 39,
    40, 1, 2, 3, 4, 5, 6,
    7, 8, 41, 42, 43, 44, 45,
    46, 47, 48, 9, 10, 11, 12,
    57, 58, 59, 60, 61, 62, 63,
    64, 17, 18, 19, 20, 21, 22,
    23, 24, 49, 50, 51, 52, 53,
    54, 55, 56, 13, 14, 15, 16,
    57, 58, 59, 60, 61, 62, 63,
    64, 17, 18, 19, 20, 21, 22,
    23, 24, 49, 50, 51, 52, 53,
    54, 55, 56, 13, 14, 15, 16,
];

// The slice of the bit at a position of two words, the same for all blocks.
#[inline(always)]
fn bit_slice<S: Slice>(words: &[u64; 2], position: usize) -> S
    requires from_one { 1 ≤ position }
    requires to_last { position ≤ 128 }
    ensures { InEachBlock S.BATCH (λ b. S.bit b result ≡ bit (bits_of_slice words.now) position) }
{
    let word = words[(position - 1) / 64];
    S::same((word >> (63 - (position - 1) % 64)) & 1 == 1)
}

// Makes the slices of C (half 0) or D (half 1) from two words, after those of the half before. The
// loop goes by rows of seven, as the table does: the compiler writes out so short a loop, sees that
// all is written over, and drops most of the zeros.
#[inline(always)]
fn spread_half<S: Slice>(halves: &mut KeyHalves<S>, words: &[u64; 2], half: usize)
    requires one_of_two { half < 2 }
    requires before { StandTwiceBelow S.BATCH S.bit words.now (28 * half) halves.old }
    ensures spread { StandTwiceBelow S.BATCH S.bit words.now (28 * half + 28) halves.new }
    ensures count { length halves.new ≡ 112 }
{
    'rows: for row in 0..4usize {
        'bits: for i in 0..7usize {
            let n = 28 * half + 7 * row + i;
            let slice = bit_slice(words, HALVES[n]);
            let place = n + 28 * half;
            halves[place] = slice;
            halves[place + 28] = slice;
        }
    }
}

// Makes the slices those of the halves C and D that stand in two words.
#[inline(always)]
fn spread_halves<S: Slice>(halves: &mut KeyHalves<S>, words: &[u64; 2])
    ensures { InEachBlock S.BATCH (λ b. map (S.bit b) halves.new ≡ halves_in words.now) }
{
    spread_half(halves, words, 0);
    spread_half(halves, words, 1);
}

impl<S: Slice> PassSlices<S> {
    /// Zeros, for the caller to write over.
    #[inline(always)]
    pub(crate) fn zeros() -> PassSlices<S> {
        PassSlices {
            halves: [S::same(false); 112],
            deciphers: false,
        }
    }

    /// Makes the slices those of a pass.
    #[inline(always)]
    pub(crate) fn spread(&mut self, pass: &PassKeys)
        ensures { InEachBlock S.BATCH (λ b. round_keys_in (S.bit b) self.new
            ≡ round_keys_of_pass pass.now) }
    {
        let words = [pass.fifteenth.groups, pass.sixteenth.groups];
        spread_halves(&mut self.halves, &words);
        self.deciphers = pass.deciphers;
    }

    // Makes the slices those of a pass under the keys whose bits these halves have.
    #[inline(always)]
    fn choose(&mut self, left: &Half<S>, right: &Half<S>, deciphers: bool)
        ensures { InEachBlock S.BATCH (λ b. (key : List ℕ)
            → bits_of_halves (S.bit b) left.now right.now ≡ bits_of_bytes key
            → round_keys_in (S.bit b) self.new ≡ round_keys_under deciphers key) }
    {
        write_selection(&mut self.halves, left, right, &PERMUTED_CHOICE_1);
        self.deciphers = deciphers;
    }

    /// Makes the slices those of a pass in which each block of a batch has a key of its own. A
    /// batch of keys is read as blocks are, and the bits of C and D are slices of it.
    #[inline(always)]
    pub(crate) fn spread_each(&mut self, keys: &[[u8; 8]], deciphers: bool)
        requires { length keys.now ≡ S.BATCH }
        ensures { InEachBlock S.BATCH (λ b. round_keys_in (S.bit b) self.new
            ≡ round_keys_under deciphers (block_at keys.now b)) }
    {
        let mut left = [S::same(false); 32];
        let mut right = [S::same(false); 32];
        read_blocks(&mut left, &mut right, keys);
        self.choose(&left, &right, deciphers);
    }
}
