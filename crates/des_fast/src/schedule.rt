//! The key schedule, all rounds at once (FIPS 46-3, key schedule). No table index and no branch
//! depends on the key.
//!
//! A bit of a round key is a bit of the half C or D, rotated by 1, 2, 4, .., 14, 15, 17, .., 27 or
//! 28 places. A half has 28 bits, so that 28 places are 0, and 1 place is 29: the rotations are the
//! even numbers from 0 to 14, and the odd ones from 15 to 29. Once every second bit of a half is
//! exchanged for the bit 14 places on, the values of one bit of the round keys in all rounds are a
//! row of 16 neighbouring bits: bit n is that of the rotation by n if n is even, and by n + 14 if n
//! is odd. These rows, transposed, are the round keys.

ghost use Rattle.std.specs.Prelude.{◌≡◌, ◌≤◌, ◌<◌, [], ◌∷◌};
ghost use Rattle.des.specs.Bits.{bits_of_word};
ghost use Rattle.des.specs.KeySchedule.{key_schedule};
ghost use Rattle.des_fast.specs.HalfBlocks.{round_keys_of};
ghost use Rattle.des_fast.specs.RoundKeySlices.{AreScheduled};
ghost use Rattle.des_fast.specs.RoundKeyRows.{alternating, windows, key_rows, exchanged, exchanged_pairs, transposed};

use crate::halves::RoundKey;
use des::utils;

// Sixteen words of four lanes of sixteen bits each.
type Rows = [u64; 16];

// Which of the transposed rows is the round key of each round: the first bit of a row, which
// becomes the last row, is of the rotation by 28, and so of the last round.
const ROWS_OF_ROUNDS: [u8; 16] = [0, 13, 11, 9, 7, 5, 3, 1, 14, 12, 10, 8, 6, 4, 2, 15];

/// The sixteen round keys of a key.
#[derive(Clone, Copy)]
pub(crate) struct KeySchedule {
    pub(crate) round_keys: [RoundKey; 16],
    ghost scheduled: { AreScheduled round_keys },
}

impl KeySchedule {
    /// The key schedule of a key of 64 bits (FIPS 46-3, key schedule).
    pub(crate) fn new(key: u64) -> KeySchedule
        ensures { round_keys_of result.round_keys ≡ key_schedule (bits_of_word key) }
    {
        KeySchedule {
            round_keys: round_keys(key),
        }
    }
}

// The round keys K(1) to K(16) of a key of 64 bits.
fn round_keys(key: u64) -> [RoundKey; 16]
    ensures made { round_keys_of result ≡ key_schedule (bits_of_word key) }
    ensures scheduled { AreScheduled result }
{
    let words = transposed(key_rows(utils::pc1(key)));
    let mut round_keys = [RoundKey { groups: 0 }; 16];
    for (i, &row) in ROWS_OF_ROUNDS.iter().enumerate() {
        round_keys[i] = RoundKey {
            groups: words[row as usize],
        };
    }
    round_keys
}

// The rows of the halves C and D in the first 56 bits of a word. A row has a window for each of
// four groups that stand in one word, eight bits apart in pairs: first the groups 3, 7, 4 and 8,
// from the last bit of a group to its first, then the groups 1, 5, 2 and 6; two rows of each eight
// stay zero.
#[rattlefmt::skip]
#[inline(always)]
fn key_rows(halves: u64) -> Rows
    ensures { result ≡ key_rows halves }
{
    let c = alternating(halves >> 36) << 16;
    let d = alternating((halves >> 8) & 0x000000000fffffff);
    [
        windows(c, d, 21, 24, 15, 17),
        windows(c, d, 11, 19, 12, 0),
        windows(c, d, 17, 13, 5, 21),
        windows(c, d, 25, 10, 26, 7),
        windows(c, d, 18, 20, 6, 27),
        windows(c, d, 22, 1, 1, 3),
        0,
        0,
        windows(c, d, 4, 26, 23, 5),
        windows(c, d, 0, 18, 20, 4),
        windows(c, d, 9, 8, 19, 16),
        windows(c, d, 10, 2, 14, 22),
        windows(c, d, 16, 9, 13, 25),
        windows(c, d, 27, 12, 2, 15),
        0,
        0,
    ]
}

// A half of 28 bits with each second bit exchanged for that 14 places on, and after it its first 16
// bits once more, so that each window of 16 bits in the circle stands in the 44 in a row.
#[inline(always)]
fn alternating(half: u64) -> u64
    ensures { result ≡ alternating half }
{
    let opposite = (half << 14) ^ (half >> 14);
    let mixed = (half & 0x000000000aaaaaaa) ^ (opposite & 0x0000000005555555);
    (mixed << 16) ^ (mixed >> 12)
}

// Four windows of sixteen bits, in the order of the lanes: of C, which stands 16 bits higher than
// D, of D, of C and of D, each from a place on that counts from 0.
#[inline(always)]
fn windows(c: u64, d: u64, first: u32, second: u32, third: u32, fourth: u32) -> u64
    requires places { (first < 28) × (second < 28) × (third ≤ 28) × (fourth ≤ 28) }
    ensures { result ≡ windows c d (first ∷ second ∷ third ∷ fourth ∷ []) }
{
    ((c << (4 + first)) & 0xffff000000000000)
        ^ ((d << (4 + second)) & 0x0000ffff00000000)
        ^ ((c >> (28 - third)) & 0x00000000ffff0000)
        ^ ((d >> (28 - fourth)) & 0x000000000000ffff)
}

// The rows transposed, lane by lane: bit n of a lane, from the last, in row m becomes bit m of it
// in row n.
#[inline(always)]
fn transposed(rows: Rows) -> Rows
    ensures { result ≡ transposed rows }
{
    let rows = exchange_pairs(rows, 8, 0x00ff00ff00ff00ff);
    let rows = exchange_pairs(rows, 4, 0x0f0f0f0f0f0f0f0f);
    let rows = exchange_pairs(rows, 2, 0x3333333333333333);
    exchange_pairs(rows, 1, 0x5555555555555555)
}

// Rows 0 and 8, 1 and 9, .., 7 and 15 exchange bits, and come out side by side. Four such
// exchanges, one after another, leave each row in its place.
#[inline(always)]
fn exchange_pairs(rows: Rows, distance: u32, mask: u64) -> Rows
    requires { distance < 64 }
    ensures { result ≡ exchanged_pairs distance mask rows }
{
    let [a, b] = exchange(rows[0], rows[8], distance, mask);
    let [c, d] = exchange(rows[1], rows[9], distance, mask);
    let [e, f] = exchange(rows[2], rows[10], distance, mask);
    let [g, h] = exchange(rows[3], rows[11], distance, mask);
    let [i, j] = exchange(rows[4], rows[12], distance, mask);
    let [k, l] = exchange(rows[5], rows[13], distance, mask);
    let [m, n] = exchange(rows[6], rows[14], distance, mask);
    let [o, p] = exchange(rows[7], rows[15], distance, mask);
    [a, b, c, d, e, f, g, h, i, j, k, l, m, n, o, p]
}

// Exchanges the bits of the first row at this distance above the mask with those of the second
// under it.
#[inline(always)]
fn exchange(first: u64, second: u64, distance: u32, mask: u64) -> [u64; 2]
    requires { distance < 64 }
    ensures { result ≡ exchanged distance mask first second 0
        ∷ exchanged distance mask first second 1 ∷ [] }
{
    let differing = ((first >> distance) ^ second) & mask;
    [first ^ (differing << distance), second ^ differing]
}
