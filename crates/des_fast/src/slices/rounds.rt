//! A round of DES on slices.

ghost use Rattle.std.specs.Prelude.{◌≡◌, ◌*◌, ◌<◌, ◌≤◌, map, take, drop, IsTrue, nat_lt};
ghost use Rattle.std.specs.List.{list_all};
ghost use Rattle.des.specs.Bits.{select, xor_bits};
ghost use Rattle.des.specs.Tables.{expansion};
ghost use Rattle.des.specs.CipherFunction.{cipher_function};
ghost use Rattle.des_fast.specs.Slices.{InEachBlock, xor_at};
ghost use Rattle.des_fast.specs.RoundKeySlices.{round_key_of};

use super::Slice;
use super::boxes::{s1, s2, s3, s4, s5, s6, s7, s8};
use super::keys::KeyHalves;

// Permuted choice 2, in the rows of the standard's table, from 0: a position of D, from 29 on, is
// 27 places on, since C stands before it twice.
#[rattlefmt::skip]
const PERMUTED_CHOICE_2: [usize; 48] = [
    13, 16, 10, 23, 0, 4,
    2, 27, 14, 5, 20, 9,
    22, 18, 11, 3, 25, 7,
    15, 6, 26, 19, 12, 1,
    68, 79, 58, 64, 74, 82,
    57, 67, 78, 72, 60, 75,
    71, 76, 66, 83, 61, 80,
    73, 69, 77, 63, 56, 59,
];

/// The group of six bits of E(R) ^ K that a box replaces, for the box S1 at `number` 0 (FIPS 46-3,
/// cipher function). K is taken from C and D rotated by that number of places.
#[inline(always)]
fn group<S: Slice>(half: &[S; 32], key: &KeyHalves<S>, rotation: usize, number: usize) -> [S; 6]
    requires around { rotation ≤ 28 }
    requires numbered { number < 8 }
    ensures { InEachBlock S.BATCH (λ b. map (S.bit b) result ≡ take 6 (drop (6 * number)
        (xor_bits (select expansion (map (S.bit b) half.now))
        (round_key_of (map (S.bit b) key.now) rotation)))) }
{
    // A row of E begins one bit before its own four, and goes on in a circle.
    let mut group = [S::same(false); 6];
    for i in 0..6 {
        group[i] = half[(4 * number + i + 31) % 32].xor(
            key[rotation + PERMUTED_CHOICE_2[6 * number + i]],
        );
    }
    group
}

/// Xors four slices into those at four indexes of a half block.
#[inline(always)]
fn xor_at<S: Slice>(half: &mut [S; 32], indexes: [usize; 4], changes: [S; 4])
    requires { IsTrue (list_all (λ i. nat_lt i 32) indexes) }
    ensures { InEachBlock S.BATCH (λ b. map (S.bit b) half.new
        ≡ xor_at (map (S.bit b) half.old) indexes (map (S.bit b) changes)) }
{
    for i in 0..4 {
        half[indexes[i]] = half[indexes[i]].xor(changes[i]);
    }
}

/// Xors f(R, K) into the left half of each block: one round, but for the exchange of the halves
/// (FIPS 46-3, enciphering). The indexes are where P puts the bits of each box, from 0, and K is
/// that of C and D rotated by that number of places.
pub(super) fn round<S: Slice>(
    left: &mut [S; 32],
    right: &[S; 32],
    key: &KeyHalves<S>,
    rotation: usize,
)
    requires { rotation ≤ 28 }
    ensures { InEachBlock S.BATCH (λ b. map (S.bit b) left.new
        ≡ xor_bits (map (S.bit b) left.old)
        (cipher_function (map (S.bit b) right.now)
        (round_key_of (map (S.bit b) key.now) rotation))) }
{
    xor_at(left, [8, 16, 22, 30], s1(group(right, key, rotation, 0)));
    xor_at(left, [12, 27, 1, 17], s2(group(right, key, rotation, 1)));
    xor_at(left, [23, 15, 29, 5], s3(group(right, key, rotation, 2)));
    xor_at(left, [25, 19, 9, 0], s4(group(right, key, rotation, 3)));
    xor_at(left, [7, 13, 24, 2], s5(group(right, key, rotation, 4)));
    xor_at(left, [3, 28, 10, 18], s6(group(right, key, rotation, 5)));
    xor_at(left, [31, 11, 21, 6], s7(group(right, key, rotation, 6)));
    xor_at(left, [4, 26, 14, 20], s8(group(right, key, rotation, 7)));
}
