//! The keys of many transactions at a time: DUKPT (ANSI X9.24-1:2009, Annex A) for a host that
//! serves many terminals.
//!
//! Each key stands in a lane of its own, and all lanes take the 21 bits of the counter together,
//! from the highest: each computes the next key, and one whose bit is clear keeps its key, by a
//! mask. A bit that is clear in all counters of a group takes no time. No branch and no index
//! depends on a key; serial numbers are no secrets.

ghost use Rattle.std.specs.Prelude.{◌≡◌, ◌↔◌, ℕ, ◌+◌, ◌*◌, ◌/◌, ◌^◌, ◌<◌, ◌≤◌, ◌==◌, ◌++◌, if◌then◌else◌, length, map, IsOk, OnOk, OnErr};
ghost use Rattle.std.specs.Int.{w64, bit_at, to_be_bytes};
ghost use Rattle.std.specs.List.{list_any};
ghost use Rattle.std.specs.Simd.Lanes.{zip2};
ghost use Rattle.des.specs.Blocks.{part};
ghost use Rattle.des.specs.Cbc.{xor_blocks};
ghost use Rattle.des.specs.Des.{encryption};
ghost use Rattle.des.specs.TripleCiphers.{ede2_encryption};
ghost use Rattle.des_fast.specs.Transposition.{block_at};
ghost use Rattle.des_payment.specs.Dukpt.{masked as masked_by, last_bytes as last_bytes_of, counter_of, first_bytes as first_bytes_of};
ghost use Rattle.des_payment.specs.Dukpt.{derivation_mask, initial_key as initial_key_of, next_half as next_half_of, next_key as next_key_of};
ghost use Rattle.des_payment.specs.Dukpt.{transaction_key as transaction_key_of, derived, ones_below};

use crate::dukpt::{
    COUNTER_BITS, COUNTERS, DERIVATION_MASK, first_bytes, joined, last_bytes, masked,
};
use crate::passes::{GROUP, encrypt_each_of, encrypt_many_of};
use crate::xor::xored;
use des::cipher::{NotEqualError, are_bytes};
use des::tdes::key_part;
use des_fast::many::Slice;
use des_fast::{Des, TdesEde2};

// The register at a place: the last eight bytes of the serial number with the bits below cleared.
fn register_at(serial: &[u8; 10], place: u32) -> u64
    requires { place < 21 }
    ensures { result ≡ last_bytes_of serial.now / 2 ^ place * 2 ^ place }
{
    last_bytes(serial) >> place << place
}

// The counter's bit at a place.
fn counter_bit(serial: &[u8; 10], place: u32) -> u8
    requires { place < 21 }
    ensures bit { result ≡ bit_at (counter_of serial.now) place }
    ensures small { result < 2 }
{
    ((last_bytes(serial) % COUNTERS) >> place & 1) as u8
}

// One key if the mask is of ones, and the other if it is of zeros.
fn selected(mask: u8, taken: &[u8; 16], kept: &[u8; 16]) -> [u8; 16]
    ensures taken { mask ≡ 255 → result ≡ taken.now }
    ensures kept { mask ≡ 0 → result ≡ kept.now }
{
    are_bytes(taken);
    are_bytes(kept);
    let mut key = *kept;
    for (i, byte) in key.iter_mut().enumerate() {
        *byte ^= mask & (*byte ^ taken[i]);
    }
    key
}

// The next key if the counter's bit at a place is a one, and otherwise the key.
fn key_after(serial: &[u8; 10], place: u32, next: &[u8; 16], key: &[u8; 16]) -> [u8; 16]
    requires { place < 21 }
    ensures { result ≡ (if bit_at (counter_of serial.now) place == 1 then next.now else key.now) }
{
    selected(counter_bit(serial, place).wrapping_neg(), next, key)
}

// The keys with the mask of derivation xored into their halves.
fn masked_keys(keys: &[[u8; 16]]) -> [[u8; 16]; GROUP]
    requires { length keys.now ≤ 256 }
    ensures { (k : ℕ) → k < length keys.now
        → block_at result k ≡ masked_by derivation_mask (block_at keys.now k) }
{
    let mut masked_keys = [[0; 16]; GROUP];
    'lanes: for k in 0..keys.len() {
        masked_keys[k] = masked(&keys[k], DERIVATION_MASK);
    }
    masked_keys
}

// The left halves of keys.
fn left_halves(keys: &[[u8; 16]]) -> [[u8; 8]; GROUP]
    requires { length keys.now ≤ 256 }
    ensures { (k : ℕ) → k < length keys.now
        → block_at result k ≡ part 1 (block_at keys.now k) }
{
    let mut halves = [[0; 8]; GROUP];
    'lanes: for k in 0..keys.len() {
        halves[k] = key_part(&keys[k], 1);
    }
    halves
}

// The registers at a place, each xor the right half of its key.
fn register_blocks(serials: &[[u8; 10]], place: u32, keys: &[[u8; 16]]) -> [[u8; 8]; GROUP]
    requires place { place < 21 }
    requires same { length keys.now ≡ length serials.now }
    requires few { length serials.now ≤ 256 }
    ensures { (k : ℕ) → k < length serials.now → block_at result k ≡ xor_blocks
        (to_be_bytes w64 (last_bytes_of (block_at serials.now k) / 2 ^ place * 2 ^ place))
        (part 2 (block_at keys.now k)) }
{
    let mut sums = [[0; 8]; GROUP];
    'lanes: for k in 0..serials.len() {
        let register = register_at(&serials[k], place).to_be_bytes();
        sums[k] = xored(&register, &key_part(&keys[k], 2));
    }
    sums
}

// Blocks, each xor the right half of its key.
fn xored_blocks(blocks: &[[u8; 8]; GROUP], keys: &[[u8; 16]]) -> [[u8; 8]; GROUP]
    requires { length keys.now ≤ 256 }
    ensures { (k : ℕ) → k < length keys.now → block_at result k ≡ xor_blocks
        (block_at blocks.now k) (part 2 (block_at keys.now k)) }
{
    let mut sums = [[0; 8]; GROUP];
    'lanes: for k in 0..keys.len() {
        sums[k] = xored(&blocks[k], &key_part(&keys[k], 2));
    }
    sums
}

// The halves that keys make at a place.
fn next_halves<S: Slice>(serials: &[[u8; 10]], place: u32, keys: &[[u8; 16]]) -> [[u8; 8]; GROUP]
    requires place { place < 21 }
    requires same { length keys.now ≡ length serials.now }
    requires few { length serials.now ≤ 256 }
    ensures { (k : ℕ) → k < length serials.now → block_at result k ≡ next_half_of
        (last_bytes_of (block_at serials.now k) / 2 ^ place * 2 ^ place)
        (block_at keys.now k) }
{
    let halves = left_halves(keys);
    let mut blocks = register_blocks(serials, place, keys);
    encrypt_each_of::<Des, S>(&halves[..keys.len()], &mut blocks[..keys.len()]);
    xored_blocks(&blocks, keys)
}

// Of each lane the key of these halves if the counter's bit at a place is a one, and otherwise the
// key that it has.
fn keys_after(
    serials: &[[u8; 10]],
    place: u32,
    left: &[[u8; 8]; GROUP],
    right: &[[u8; 8]; GROUP],
    keys: &[[u8; 16]],
) -> [[u8; 16]; GROUP]
    requires place { place < 21 }
    requires same { length keys.now ≡ length serials.now }
    requires few { length serials.now ≤ 256 }
    ensures { (k : ℕ) → k < length serials.now → block_at result k
        ≡ (if bit_at (counter_of (block_at serials.now k)) place == 1
        then block_at left.now k ++ block_at right.now k else block_at keys.now k) }
{
    let mut after = [[0; 16]; GROUP];
    'lanes: for k in 0..serials.len() {
        after[k] = key_after(&serials[k], place, &joined(&left[k], &right[k]), &keys[k]);
    }
    after
}

// Whether a counter has a one at a place.
fn some_take(serials: &[[u8; 10]], place: u32) -> bool
    requires { place < 21 }
    ensures { result
        ≡ list_any (λ serial. bit_at (counter_of serial) place == 1) serials.now }
{
    serials.iter().any(|serial| counter_bit(serial, place) == 1)
}

// Takes the keys of a group through one place of their counters.
fn pass_place<S: Slice>(serials: &[[u8; 10]], place: u32, keys: &mut [[u8; 16]])
    requires place { place < 21 }
    requires same { length keys.old ≡ length serials.now }
    requires few { length serials.now ≤ 256 }
    ensures { (k : ℕ) → k < length serials.now → block_at keys.new k
        ≡ (if bit_at (counter_of (block_at serials.now k)) place == 1
        then next_key_of (last_bytes_of (block_at serials.now k) / 2 ^ place * 2 ^ place)
        (block_at keys.old k) else block_at keys.old k) }
{
    if !some_take(serials, place) {
        return;
    }
    let left = next_halves::<S>(serials, place, &masked_keys(keys)[..keys.len()]);
    let right = next_halves::<S>(serials, place, keys);
    let after = keys_after(serials, place, &left, &right, keys);
    keys.copy_from_slice(&after[..keys.len()]);
}

// Makes the initial keys of a group those of transactions.
fn derive_group<S: Slice>(serials: &[[u8; 10]], keys: &mut [[u8; 16]])
    requires same { length keys.old ≡ length serials.now }
    requires few { length serials.now ≤ 256 }
    ensures { keys.new ≡ zip2 (λ serial key. transaction_key_of key serial) serials.now keys.old }
{
    'places: for place in (0..COUNTER_BITS).rev() {
        pass_place::<S>(serials, place, keys);
    }
}

// Makes each initial key the key of the transaction of the serial number at its place, as
// `transaction_key` does. Groups of at most 256 are treated together, `S::BATCH` at a time.
fn derive_keys_by<S: Slice>(
    serials: &[[u8; 10]],
    keys: &mut [[u8; 16]],
) -> Result<(), NotEqualError>
    ensures accepted { IsOk result ↔ (length serials.now ≡ length keys.old) }
    ensures ok { OnOk result (keys.new
        ≡ zip2 (λ serial key. transaction_key_of key serial) serials.now keys.old) }
    ensures err { OnErr result (keys.new ≡ keys.old) }
{
    if serials.len() != keys.len() {
        return Err(NotEqualError);
    }
    let mut from = 0;
    'groups: while from < keys.len() {
        let count = GROUP.min(keys.len() - from);
        derive_group::<S>(&serials[from..from + count], &mut keys[from..from + count]);
        from += count;
    }
    Ok(())
}

// The first bytes of serial numbers.
fn first_blocks(serials: &[[u8; 10]]) -> [[u8; 8]; GROUP]
    requires { length serials.now ≤ 256 }
    ensures { (k : ℕ) → k < length serials.now
        → block_at result k ≡ first_bytes_of (block_at serials.now k) }
{
    let mut first = [[0; 8]; GROUP];
    'lanes: for k in 0..serials.len() {
        first[k] = first_bytes(&serials[k]);
    }
    first
}

// Halves of the initial keys of serial numbers: their first bytes, encrypted under a base key.
fn initial_halves<S: Slice>(base: &[u8; 16], serials: &[[u8; 10]]) -> [[u8; 8]; GROUP]
    requires { length serials.now ≤ 256 }
    ensures { (k : ℕ) → k < length serials.now → block_at result k
        ≡ ede2_encryption base.now (first_bytes_of (block_at serials.now k)) }
{
    let mut blocks = first_blocks(serials);
    encrypt_many_of::<TdesEde2, S>(base, &mut blocks[..serials.len()]);
    blocks
}

// Makes the keys those of their halves.
fn join_halves(keys: &mut [[u8; 16]], left: &[[u8; 8]; GROUP], right: &[[u8; 8]; GROUP])
    requires { length keys.old ≤ 256 }
    ensures { (k : ℕ) → k < length keys.old
        → block_at keys.new k ≡ block_at left.now k ++ block_at right.now k }
{
    'lanes: for k in 0..keys.len() {
        keys[k] = joined(&left[k], &right[k]);
    }
}

// Makes the keys of a group the initial keys of serial numbers.
fn initial_group<S: Slice>(base: &[u8; 16], serials: &[[u8; 10]], keys: &mut [[u8; 16]])
    requires same { length keys.old ≡ length serials.now }
    requires few { length serials.now ≤ 256 }
    ensures { keys.new ≡ map (initial_key_of base.now) serials.now }
{
    let left = initial_halves::<S>(base, serials);
    let right = initial_halves::<S>(&masked(base, DERIVATION_MASK), serials);
    join_halves(keys, &left, &right);
}

// Writes the initial key of the terminal of each serial number at its place, as `initial_key` makes
// it from the base derivation key. Groups of at most 256 are treated together, `S::BATCH` at a
// time.
fn initial_keys_by<S: Slice>(
    base: &[u8; 16],
    serials: &[[u8; 10]],
    keys: &mut [[u8; 16]],
) -> Result<(), NotEqualError>
    ensures accepted { IsOk result ↔ (length serials.now ≡ length keys.old) }
    ensures ok { OnOk result (keys.new ≡ map (initial_key_of base.now) serials.now) }
    ensures err { OnErr result (keys.new ≡ keys.old) }
{
    if serials.len() != keys.len() {
        return Err(NotEqualError);
    }
    let mut from = 0;
    'groups: while from < keys.len() {
        let count = GROUP.min(keys.len() - from);
        initial_group::<S>(
            base,
            &serials[from..from + count],
            &mut keys[from..from + count],
        );
        from += count;
    }
    Ok(())
}

/// Writes the key of the transaction of each serial number at its place, from the base derivation
/// key: as `transaction_key` makes it from `initial_key`. The terminals may be different ones.
/// Groups of at most 256 are treated together, `S::BATCH` at a time. If the two lists differ in
/// length, the error is `NotEqualError`, and the keys are unchanged.
pub fn transaction_keys_by<S: Slice>(
    base: &[u8; 16],
    serials: &[[u8; 10]],
    keys: &mut [[u8; 16]],
) -> Result<(), NotEqualError>
    ensures accepted { IsOk result ↔ (length serials.now ≡ length keys.old) }
    ensures ok { OnOk result (keys.new ≡ map
        (λ serial. transaction_key_of (initial_key_of base.now serial) serial) serials.now) }
    ensures err { OnErr result (keys.new ≡ keys.old) }
{
    initial_keys_by::<S>(base, serials, keys)?;
    derive_keys_by::<S>(serials, keys)
}
