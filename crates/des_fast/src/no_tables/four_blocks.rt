//! The boxes S1 to S8, and P and E after them (FIPS 46-3, cipher function), of four blocks side by
//! side, with no table read at an index that depends on the blocks or the key, and no branch on
//! either.
//!
//! An entry is a sum modulo 2 of terms, one for each choice among the last five bits of its group,
//! if all bits of the choice are set. That takes two operations for each entry, a selection three.
//! A lookup by a shuffle would be one operation, but the default processor has none and would read
//! memory.

ghost use Rattle.std.specs.Prelude.{◌≡◌, ◌<◌, ◌≤◌, ◌+◌, ◌-◌, ◌*◌, ◌^◌, ◌++◌, ℕ, suc, List, length, slice_index, bit_xor};
ghost use Rattle.std.specs.Int.{w64, to_be_bytes};
ghost use Rattle.des.specs.Bits.{bits_of, bits_of_word, select};
ghost use Rattle.des.specs.Tables.{expansion, permutation};
ghost use Rattle.des.specs.CipherFunction.{box_entry, substitute};
ghost use Rattle.des_fast.specs.SideBySide.{lane};
ghost use Rattle.des_fast.specs.Slices.{InEachBlock};
ghost use Rattle.des_fast.specs.Groups.{IsOfGroups, IsExpansion, bits_of_groups, half_of, positions_in_word};
ghost use Rattle.des_fast.specs.GroupBytes.{box_of_byte};
ghost use Rattle.des_fast.specs.ChosenTerms.{AreMasks, AreSums, AreChoices};
ghost use Rattle.des_fast.specs.JoinedEntries.{entry_order, entry_bits, joined_bits, first_entries, second_entries};

use crate::halves::RoundKey;
use crate::permutations::{blocks_of, halves_of};
use crate::rounds::Groups;
use std::simd::prelude::*;

// The terms of the entries, each box in the byte of its group: in the second half of the byte for
// groups that begin with 0, in the first half what changes for those that begin with 1. The four
// bits stand in the order in which fewest shifts make P of them.
#[rattlefmt::skip]
static TERMS: [u64; 32] = [
    0x5de3c431ffdb5c6d, 0xadbe69d649a6b6c5, 0xf5831dcf0b36adaf, 0x3a00d7c8e0ff8878,
    0x633a6c59076c0639, 0x68b7152000ff883c, 0xa9bde70aa82b586a, 0x05778068c5a5fbe4,
    0xac957a9e6c8be59e, 0x01027f4845a5e840, 0x6baf46c066b5b6f3, 0x88321a80c050e898,
    0xf513450222401954, 0x6d226fa8225019dc, 0x6402f75622625d00, 0xb8736fed01fa1908,
    0x9edb255b63a32c0b, 0x9be4e201ac0f1006, 0xa3e6660060ec0035, 0x70e63620c25f028e,
    0x59777bc529f00595, 0x5b249732630090c6, 0x7a1335c89cfc629d, 0x9131521bb60fb562,
    0xf5d6e0c7a98d6b91, 0x9bc6b9f4caaad04a, 0x91c526c0346442a0, 0xf245658074f5e0e0,
    0xf577f45420f30154, 0xf1a2cccc000fc9d6, 0x0000000000000000, 0x0000000000000000,
];

/// Four blocks.
impl Groups for u64x4 {
    const CHANGES_AHEAD: bool = false;

    ghost BLOCKS = { 4 };

    ghost word = { lane };

    #[inline(always)]
    fn count(blocks: &[[u8; 8]]) -> usize {
        4
    }

    #[inline(always)]
    fn of_blocks(blocks: &[[u8; 8]]) -> (u64x4, u64x4) {
        let (left, right) = halves_of(&blocks[0], &blocks[1]);
        let (more_left, more_right) = halves_of(&blocks[2], &blocks[3]);
        (pairs(left, more_left), pairs(right, more_right))
    }

    #[inline(always)]
    fn write_blocks(blocks: &mut [[u8; 8]], left: u64x4, right: u64x4) {
        let (first, second) = blocks_of(left.extract::<0, 2>(), right.extract::<0, 2>());
        let (third, fourth) = blocks_of(left.extract::<2, 2>(), right.extract::<2, 2>());
        blocks[0] = first;
        blocks[1] = second;
        blocks[2] = third;
        blocks[3] = fourth;
    }

    #[inline(always)]
    fn with_key(self, round_key: RoundKey) -> u64x4 {
        xor(self, same(round_key.groups))
    }

    #[inline(always)]
    fn xor_substituted(self, others: u64x4) -> u64x4 {
        xor(self, substitute(others))
    }
}

#[inline(always)]
fn xor(first: u64x4, second: u64x4) -> u64x4
    ensures { InEachBlock 4 (λ b. lane b result ≡ bit_xor (lane b first) (lane b second)) }
{
    first ^ second
}

// One word, for each block.
#[inline(always)]
fn same(groups: u64) -> u64x4
    ensures { InEachBlock 4 (λ b. lane b result ≡ groups) }
{
    u64x4::splat(groups)
}

// The words of two vectors, one after another.
#[inline(always)]
fn pairs(first: u64x2, second: u64x2) -> u64x4
    ensures first { InEachBlock 2 (λ b. lane b result ≡ lane b first) }
    ensures second { InEachBlock 2 (λ b. lane (2 + b) result ≡ lane b second) }
{
    let [a, b] = first.to_array();
    let [c, d] = second.to_array();
    u64x4::from_array([a, b, c, d])
}

/// The substitution by S1 to S8 of the 48 bits in each word of groups, and P after it, as the word
/// of groups of its expansion E (FIPS 46-3, cipher function).
#[inline(always)]
fn substitute(groups: u64x4) -> u64x4
    requires { InEachBlock 4 (λ b. IsOfGroups (lane b groups)) }
    ensures expansion { InEachBlock 4 (λ b. IsExpansion (lane b result)) }
    ensures substituted { InEachBlock 4 (λ b. half_of (lane b result)
        ≡ select permutation (substitute (bits_of_groups (lane b groups)))) }
{
    let words = groups.to_array();
    let entries = joined(chosen(words[0], words[1], words[2], words[3]));
    u64x4::from_array(expanded(entries[0], entries[1]))
}

// The entries of the boxes for the groups of four words, each in the second half of the byte of its
// group, the last byte of a word first.
#[inline(always)]
fn chosen(first: u64, second: u64, third: u64, fourth: u64) -> u8x32
    requires first { IsOfGroups first }
    requires second { IsOfGroups second }
    requires third { IsOfGroups third }
    requires fourth { IsOfGroups fourth }
    ensures count { length result ≡ 32 }
    ensures first { (i : ℕ) → i < 8 → entry_bits i (slice_index result (7 - i))
        ≡ bits_of 4 (box_entry (box_of_byte i) (bits_of 6 (slice_index (to_be_bytes w64 first) i))) }
    ensures second { (i : ℕ) → i < 8 → entry_bits i (slice_index result (15 - i))
        ≡ bits_of 4 (box_entry (box_of_byte i) (bits_of 6 (slice_index (to_be_bytes w64 second) i))) }
    ensures third { (i : ℕ) → i < 8 → entry_bits i (slice_index result (23 - i))
        ≡ bits_of 4 (box_entry (box_of_byte i) (bits_of 6 (slice_index (to_be_bytes w64 third) i))) }
    ensures fourth { (i : ℕ) → i < 8 → entry_bits i (slice_index result (31 - i))
        ≡ bits_of 4 (box_entry (box_of_byte i) (bits_of 6 (slice_index (to_be_bytes w64 fourth) i))) }
{
    let bytes: u8x32 = u64x4::from_array([first, second, third, fourth]).to_le_bytes();
    let sixth = mask(bytes, 1);
    let fifth = mask(bytes, 2);
    let fourth = mask(bytes, 4);
    let third = mask(bytes, 8);
    let second = mask(bytes, 16);
    let first = mask(bytes, 32);
    let with_last = sum_of_sixteen(0, third, fourth, fifth, sixth);
    let with_first = sum_of_sixteen(16, third, fourth, fifth, sixth);
    in_half(sum(with_last, second, with_first), first)
}

// All ones in each byte that has this bit, else 0.
#[inline(always)]
fn mask(bytes: u8x32, bit: u8) -> u8x32
    ensures { AreMasks bit bytes result }
{
    let bits = u8x32::splat(bit);
    (bytes & bits)
        .simd_eq(bits)
        .select(u8x32::splat(255), u8x32::splat(0))
}

// Terms, and as many more added if the bit before those that chose among them is set.
#[inline(always)]
fn sum(terms: u8x32, mask: u8x32, more: u8x32) -> u8x32
    ensures { (n from : ℕ) (bytes : List ℕ) → AreSums n TERMS from bytes terms
        → AreMasks (2 ^ n) bytes mask → AreSums n TERMS (from + 2 ^ n) bytes more
        → AreSums (suc n) TERMS from bytes result }
{
    terms ^ (mask & more)
}

// A term for each of four words.
#[inline(always)]
fn term(k: usize) -> u8x32
    requires { k < 32 }
    ensures { (bytes : List ℕ) → AreSums 0 TERMS k bytes result }
{
    u64x4::splat(TERMS[k]).to_le_bytes()
}

// The sum of two terms from one on. The next three add four, eight and sixteen.
#[inline(always)]
fn sum_of_two(from: usize, sixth: u8x32) -> u8x32
    requires { from + 2 ≤ 32 }
    ensures { (bytes : List ℕ) → AreMasks 1 bytes sixth → AreSums 1 TERMS from bytes result }
{
    sum(term(from), sixth, term(from + 1))
}

#[inline(always)]
fn sum_of_four(from: usize, fifth: u8x32, sixth: u8x32) -> u8x32
    requires { from + 4 ≤ 32 }
    ensures { (bytes : List ℕ) → AreMasks 1 bytes sixth → AreMasks 2 bytes fifth
        → AreSums 2 TERMS from bytes result }
{
    sum(sum_of_two(from, sixth), fifth, sum_of_two(from + 2, sixth))
}

#[inline(always)]
fn sum_of_eight(from: usize, fourth: u8x32, fifth: u8x32, sixth: u8x32) -> u8x32
    requires { from + 8 ≤ 32 }
    ensures { (bytes : List ℕ) → AreMasks 1 bytes sixth → AreMasks 2 bytes fifth
        → AreMasks 4 bytes fourth → AreSums 3 TERMS from bytes result }
{
    sum(
        sum_of_four(from, fifth, sixth),
        fourth,
        sum_of_four(from + 4, fifth, sixth),
    )
}

#[inline(always)]
fn sum_of_sixteen(from: usize, third: u8x32, fourth: u8x32, fifth: u8x32, sixth: u8x32) -> u8x32
    requires { from + 16 ≤ 32 }
    ensures { (bytes : List ℕ) → AreMasks 1 bytes sixth → AreMasks 2 bytes fifth
        → AreMasks 4 bytes fourth → AreMasks 8 bytes third
        → AreSums 4 TERMS from bytes result }
{
    sum(
        sum_of_eight(from, fourth, fifth, sixth),
        third,
        sum_of_eight(from + 8, fourth, fifth, sixth),
    )
}

// The entries in the second half of each byte: if the first bit of the group is set, the first
// half is added.
#[inline(always)]
fn in_half(sums: u8x32, first: u8x32) -> u8x32
    ensures { (bytes : List ℕ) → AreSums 5 TERMS 0 bytes sums → AreMasks 32 bytes first
        → AreChoices TERMS bytes result }
{
    sums ^ (first & (sums >> 4))
}

// The entries of the first and the third block in one word, and those of the second and the fourth
// in another: in each byte the entry of the later block comes first.
#[inline(always)]
fn joined(entries: u8x32) -> [u64; 2]
    requires { length entries ≡ 32 }
    ensures first { bits_of_word (slice_index result 0) ≡ joined_bits entries 7 23 }
    ensures second { bits_of_word (slice_index result 1) ≡ joined_bits entries 15 31 }
{
    let bytes = (entries.extract::<16, 16>() << 4)
        | (entries.extract::<0, 16>() & u8x16::splat(15));
    let words: u64x2 = u64x2::from_le_bytes(bytes);
    words.to_array()
}

// The words of groups of E of P of the entries in two words.
#[inline(always)]
fn expanded(first: u64, second: u64) -> [u64; 4]
    ensures groups { (b : ℕ) → b < 4 → IsOfGroups (slice_index result b) }
    ensures first { bits_of_word (slice_index result 0) ≡ select positions_in_word (select expansion
        (select permutation (select first_entries (bits_of_word first)))) }
    ensures second { bits_of_word (slice_index result 1) ≡ select positions_in_word (select expansion
        (select permutation (select first_entries (bits_of_word second)))) }
    ensures third { bits_of_word (slice_index result 2) ≡ select positions_in_word (select expansion
        (select permutation (select second_entries (bits_of_word first)))) }
    ensures fourth { bits_of_word (slice_index result 3) ≡ select positions_in_word (select expansion
        (select permutation (select second_entries (bits_of_word second)))) }
{
    let entries = u64x2::from_array([first, second]);
    let right = ((entries >> 7) & u64x2::splat(0x0088008800000088))
        | ((entries >> 8) & u64x2::splat(0x0000000022880000))
        | ((entries >> 16) & u64x2::splat(0x0000880011000000))
        | ((entries >> 25) & u64x2::splat(0x0000000044444400));
    let far_right = ((entries >> 34) & u64x2::splat(0x0000000000110011))
        | ((entries >> 40) & u64x2::splat(0x0000000000001100))
        | ((entries >> 47) & u64x2::splat(0x0000000000002244))
        | ((entries >> 56) & u64x2::splat(0x0000000000000022));
    let left = ((entries << 8) & u64x2::splat(0x0000001100008800))
        | ((entries << 16) & u64x2::splat(0x2211444400220000))
        | ((entries << 24) & u64x2::splat(0x0000110000000000))
        | ((entries << 25) & u64x2::splat(0x0000000088000000));
    let far_left = ((entries << 33) & u64x2::splat(0x4444222200000000))
        | ((entries << 40) & u64x2::splat(0x8822000000000000))
        | ((entries << 45) & u64x2::splat(0x1100000000000000));
    let earlier = (right | far_right) | (left | far_left);
    let later = earlier >> 4;
    let halves = u64x4::from_array([
        earlier.to_array()[0],
        earlier.to_array()[1],
        later.to_array()[0],
        later.to_array()[1],
    ]);
    let middle = (halves << 1) & u64x4::splat(0x1e1e1e1e1e1e1e1e);
    // The outer two bits of a group are bits of the groups before it and after it.
    let odd = (middle << 28) & u64x4::splat(0x0121212100000000);
    let even = (middle >> 28) & u64x4::splat(0x0000000021212120);
    let ends = ((middle << 60) & u64x4::splat(0x2000000000000000))
        | ((middle >> 60) & u64x4::splat(0x0000000000000001));
    ((middle | odd) | (even | ends)).to_array()
}
