//! The permutations, the cipher function and the key schedule of DES on words (FIPS 46-3).
//!
//! A word stands for 64 bits, bit 1 the most significant. A shorter list of bits stands in the
//! first bits of a word, with zeros after it.

ghost use Rattle.std.specs.Prelude.{◌≡◌, ◌%◌, ◌^◌, ◌<◌, ◌≤◌, ◌++◌, take, drop};
ghost use Rattle.des.specs.Bits.{bits_of, bits_of_word, select, zeros, xor_bits};
ghost use Rattle.des.specs.Tables.{initial_permutation, permuted_choice_1, permuted_choice_2, expansion, permutation, left_shifts};
ghost use Rattle.des.specs.CipherFunction.{substitute, cipher_function};
ghost use Rattle.des.specs.SwapForms.{delta_swapped, swap_form_of_ip, swap_form_of_fp, swap_form_of_pc1};
ghost use Rattle.des.specs.TermForms.{gathered, term_form_of_e, term_form_of_pc2, term_form_of_p};
ghost use Rattle.des.specs.BoxesInOrder.{boxes_in_order};
ghost use Rattle.des.specs.KeySchedule.{rotate};
ghost use Rattle.des.specs.RoundKeyWords.{HoldRoundKeys};

use crate::consts::{SBOXES, SHIFTS};

/// Exchanges the bits of `a` under `mask` with those `delta` places above them, for a mask where
/// these do not overlap and do not leave the word. A bit shifted out of the 64 bits is dropped.
pub fn delta_swap(a: u64, delta: u32, mask: u64) -> u64
    requires { delta < 64 }
    ensures { result ≡ delta_swapped a delta mask }
{
    let b = (a ^ (a >> delta)) & mask;
    a ^ b ^ (b << delta)
}

/// The initial permutation IP of the 64 bits of `input` (FIPS 46-3, enciphering).
pub fn ip(input: u64) -> u64
    ensures selected { bits_of_word result ≡ select initial_permutation (bits_of_word input) }
    ensures swapped { result ≡ swap_form_of_ip input }
{
    let word = delta_swap(input, 9, 0x0055005500550055);
    let word = delta_swap(word, 18, 0x0000333300003333);
    let word = delta_swap(word, 36, 0x000000000f0f0f0f);
    let word = delta_swap(word, 24, 0x00000000ff00ff00);
    delta_swap(word, 24, 0x000000ff000000ff)
}

/// The final permutation: the word whose initial permutation is `input` (FIPS 46-3, enciphering).
pub fn fp(input: u64) -> u64
    ensures selected { select initial_permutation (bits_of_word result) ≡ bits_of_word input }
    ensures swapped { result ≡ swap_form_of_fp input }
{
    let output = delta_swap(input, 24, 0x000000ff000000ff);
    let output = delta_swap(output, 24, 0x00000000ff00ff00);
    let output = delta_swap(output, 36, 0x000000000f0f0f0f);
    let output = delta_swap(output, 18, 0x0000333300003333);
    delta_swap(output, 9, 0x0055005500550055)
}

/// The permuted choice 1 of a key of 64 bits (FIPS 46-3, key schedule): the halves C and D, of 28
/// bits each, in the first 56 bits. No parity bit of the key (bits 8, 16, .., 64) is chosen.
pub fn pc1(key: u64) -> u64
    ensures selected { bits_of_word result
        ≡ select permuted_choice_1 (bits_of_word key) ++ zeros 8 }
    ensures swapped { result ≡ swap_form_of_pc1 key }
{
    let halves = delta_swap(key, 2, 0x3333000033330000);
    let halves = delta_swap(halves, 4, 0x0f0f0f0f00000000);
    let halves = delta_swap(halves, 8, 0x009a000a00a200a8);
    let halves = delta_swap(halves, 16, 0x00006c6c0000cccc);
    let halves = delta_swap(halves, 1, 0x1045500500550550);
    let halves = delta_swap(halves, 32, 0x00000000f0f0f5fa);
    let halves = delta_swap(halves, 8, 0x00550055006a00aa);
    let halves = delta_swap(halves, 2, 0x0000333330000300);
    halves & 0xffffffffffffff00
}

// The bits of `word` under `mask`, moved by several distances at once: the product with a sum of
// powers of two is the sum of copies that each of them shifts, and its bits under `kept` stay.
#[inline]
fn gather(word: u64, mask: u64, factor: u64, kept: u64) -> u64
    ensures { result ≡ gathered word mask factor kept }
{
    (word & mask).wrapping_mul(factor) & kept
}

/// The permuted choice 2 of the halves C and D in the first 56 bits of `halves`, whose other 8 bits
/// are zero (FIPS 46-3, key schedule): a round key, in the first 48 bits.
#[rattlefmt::skip]
pub fn pc2(halves: u64) -> u64
    requires { halves % 2 ^ 8 ≡ 0 }
    ensures selected { bits_of_word result
        ≡ select permuted_choice_2 (take 56 (bits_of_word halves)) ++ zeros 16 }
    ensures terms { result ≡ term_form_of_pc2 halves }
{
    // In the second and the last call of `gather` copies can meet and carry, but into no bit kept.
    let word = halves.rotate_left(61);
    ((word & 0x0021000002000000) >> 7)
        | ((word & 0x0008020010080000) << 1)
        | (word & 0x0002200000000000)
        | ((word & 0x0000000000100020) << 19)
        | gather(word.rotate_left(54), 0x0005312400000011, 0x0000000094200201, 0xea40100880000000)
        | gather(word.rotate_left(7), 0x0022110000012001, 0x0001000000610006, 0x1185004400000000)
        | gather(word.rotate_left(6), 0x0000520040200002, 0x00000080000000c1, 0x0028811000200000)
        | gather(word, 0x01000004c0011100, 0x0000000000004284, 0x0400082244400000)
        | gather(word.rotate_left(60), 0x0000000000820280, 0x0000000000089001, 0x0000000110880000)
        | gather(word.rotate_left(49), 0x0000000000024084, 0x0000000002040005, 0x000000000a030000)
}

/// The expansion E of the half block in the first 32 bits of `half_block`, whose other 32 bits are
/// zero (FIPS 46-3, cipher function), in the first 48 bits.
pub fn e(half_block: u64) -> u64
    requires { half_block % 2 ^ 32 ≡ 0 }
    ensures selected { bits_of_word result
        ≡ select expansion (take 32 (bits_of_word half_block)) ++ zeros 16 }
    ensures terms { result ≡ term_form_of_e half_block }
{
    ((half_block << 31) & 0x8000000000000000)
        | ((half_block >> 1) & 0x7c00000000000000)
        | ((half_block >> 3) & 0x03f0000000000000)
        | ((half_block >> 5) & 0x000fc00000000000)
        | ((half_block >> 7) & 0x00003f0000000000)
        | ((half_block >> 9) & 0x000000fc00000000)
        | ((half_block >> 11) & 0x00000003f0000000)
        | ((half_block >> 13) & 0x000000000fc00000)
        | ((half_block >> 15) & 0x00000000003e0000)
        | ((half_block >> 47) & 0x0000000000010000)
}

/// The permutation P of the first 32 bits of `input`, whose other 32 bits are zero (FIPS 46-3,
/// cipher function), in the first 32 bits.
#[rattlefmt::skip]
pub fn p(input: u64) -> u64
    requires { input % 2 ^ 32 ≡ 0 }
    ensures selected { bits_of_word result
        ≡ select permutation (take 32 (bits_of_word input)) ++ zeros 32 }
    ensures terms { result ≡ term_form_of_p input }
{
    let word = input.rotate_left(44);
    ((word & 0x0000000000200000) << 32)
        | ((word & 0x0000000000480000) << 13)
        | ((word & 0x0000088000000000) << 12)
        | ((word & 0x0000002020120000) << 25)
        | ((word & 0x0000000442000000) << 14)
        | ((word & 0x0000000001800000) << 37)
        | ((word & 0x0000000004000000) << 24)
        | gather(word, 0x0000020280015000, 0x0000020080800083, 0x02000a6400000000)
        | gather(word.rotate_left(29), 0x01001400000000aa, 0x0000210210008081, 0x0902c01200000000)
        | gather(word, 0x0000000910040000, 0x0000000c04000020, 0x8410010000000000)
}

/// The substitution of the first 48 bits of `input` by the boxes S1 to S8 (FIPS 46-3, S-boxes), in
/// the first 32 bits. The low 16 bits of `input` do not count.
pub fn apply_sboxes(input: u64) -> u64
    ensures boxes { SBOXES ≡ boxes_in_order }
    ensures substituted { bits_of_word result
        ≡ substitute (take 48 (bits_of_word input)) ++ zeros 32 }
{
    let mut output = 0;
    for (i, sbox) in SBOXES.iter().enumerate() {
        let group = (input >> (58 - 6 * i)) & 0x000000000000003f;
        output = (output << 4) | u64::from(sbox[group as usize]);
    }
    output << 32
}

// The cipher function f of the half block in the first 32 bits of `half_block` and the round key in
// the first 48 bits of `key` (FIPS 46-3, cipher function), in the first 32 bits.
fn f(half_block: u64, key: u64) -> u64
    requires { half_block % 2 ^ 32 ≡ 0 }
    ensures { bits_of_word result
        ≡ cipher_function (take 32 (bits_of_word half_block)) (take 48 (bits_of_word key))
        ++ zeros 32 }
{
    p(apply_sboxes(e(half_block) ^ key))
}

/// One round (FIPS 46-3, enciphering): of the halves L and R of `input` and the round key K in the
/// first 48 bits of `key`, the halves R and L xor f(R, K). The low 16 bits of `key` do not count.
pub fn round(input: u64, key: u64) -> u64
    ensures { let left = take 32 (bits_of_word input) in
        let right = drop 32 (bits_of_word input) in
        let round_key = take 48 (bits_of_word key) in
        bits_of_word result ≡ right ++ xor_bits left (cipher_function right round_key) }
{
    let left = input & 0xffffffff00000000;
    let right = input << 32;
    right | ((left ^ f(right, key)) >> 32)
}

// A half of 28 bits, as a number, rotated left.
fn rotate(half: u64, shift: u8) -> u64
    requires half { half < 2 ^ 28 }
    requires shift { shift ≤ 28 }
    ensures half { result < 2 ^ 28 }
    ensures rotated { bits_of 28 result ≡ rotate (bits_of 28 half) shift }
{
    ((half << shift) & 0x000000000fffffff) | (half >> (28 - shift))
}

/// The round keys K(1) to K(16) of a key of 64 bits (FIPS 46-3, key schedule), each in the first 48
/// bits of its word.
pub fn gen_keys(key: u64) -> [u64; 16]
    ensures words { HoldRoundKeys result (bits_of_word key) }
    ensures shifts { SHIFTS ≡ left_shifts }
{
    let halves = pc1(key);
    let mut c = halves >> 36;
    let mut d = (halves >> 8) & 0x000000000fffffff;
    let mut keys = [0; 16];
    for (i, &shift) in SHIFTS.iter().enumerate() {
        c = rotate(c, shift);
        d = rotate(d, shift);
        keys[i] = pc2((c << 36) | (d << 8));
    }
    keys
}
