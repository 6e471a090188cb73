//! The keys of a transaction: DUKPT, derived unique key per transaction, with triple DES (ANSI
//! X9.24-1:2009, Annex A), as the host makes them.
//!
//! A key has 16 bytes, two halves of 8. A key serial number (KSN) has ten bytes, of which the last
//! 21 bits are the transaction counter.

ghost use Rattle.std.specs.Prelude.{◌≡◌, ◌↔◌, ℕ, ◌+◌, ◌^◌, ◌<◌, ◌++◌, take, IfSome, IfNone, IsTrue};
ghost use Rattle.std.specs.Int.{w64, to_be_bytes};
ghost use Rattle.des_payment.specs.Dukpt.{masked as masked_by, last_bytes as last_bytes_of, counter_of, first_bytes as first_bytes_of};
ghost use Rattle.des_payment.specs.Dukpt.{initial_key as initial_key_of, next_half as next_half_of, next_key as next_key_of};
ghost use Rattle.des_payment.specs.Dukpt.{transaction_key as transaction_key_of, pin_key as pin_key_of, mac_mask as mac_mask_of};
ghost use Rattle.des_payment.specs.Dukpt.{mac_key as mac_key_of, data_mask as data_mask_of, encrypted_under_itself as under_itself};
ghost use Rattle.des_payment.specs.Dukpt.{data_variant as data_variant_of, data_key as data_key_of, IsUsable, IsNextCounter, with_counter, IsOfTransaction};

use crate::passes::{encrypted_by_des, encrypted_by_ede2};
use crate::xor::xored;
use des::tdes::key_part;

/// Which message of a transaction a key is for: its direction.
#[derive(Clone, Copy, Debug, PartialEq, Eq)]
pub enum MessageDirection {
    /// The request, which the terminal sends.
    Request,
    /// The response, which the host sends.
    Response,
}

// The mask of derivation, for each half of a key.
pub(crate) const DERIVATION_MASK: u64 = 0xc0c0c0c000000000;

// The number of counters, and of their bits.
pub(crate) const COUNTERS: u64 = 0x200000;

pub(crate) const COUNTER_BITS: u32 = 21;

// The most one bits that the counter of a transaction has.
pub(crate) const MAX_ONES: u32 = 10;

// The key of two halves.
pub(crate) fn joined(left: &[u8; 8], right: &[u8; 8]) -> [u8; 16]
    ensures { result ≡ left.now ++ right.now }
{
    let mut key = [0; 16];
    let (first, second) = key.split_at_mut(8);
    first.copy_from_slice(left);
    second.copy_from_slice(right);
    key
}

// The key with the mask xored into each of its halves.
pub(crate) fn masked(key: &[u8; 16], mask: u64) -> [u8; 16]
    ensures { result ≡ masked_by mask key.now }
{
    let mask = mask.to_be_bytes();
    xored(key, &joined(&mask, &mask))
}

// The last eight bytes of a key serial number.
pub(crate) fn last_bytes(serial: &[u8; 10]) -> u64
    ensures { result ≡ last_bytes_of serial.now }
{
    let mut bytes = [0; 8];
    bytes.copy_from_slice(&serial[2..]);
    u64::from_be_bytes(bytes)
}

// The key serial number with other last eight bytes.
pub(crate) fn with_last_bytes(serial: &[u8; 10], last: u64) -> [u8; 10]
    ensures { result ≡ take 2 serial.now ++ to_be_bytes w64 last }
{
    let mut changed = *serial;
    let (_, end) = changed.split_at_mut(2);
    end.copy_from_slice(&last.to_be_bytes());
    changed
}

// The first eight bytes of a key serial number, without the counter's bits.
pub(crate) fn first_bytes(serial: &[u8; 10]) -> [u8; 8]
    ensures { result ≡ first_bytes_of serial.now }
{
    let mut bytes = [0; 8];
    bytes.copy_from_slice(&serial[..8]);
    (u64::from_be_bytes(bytes) / 32 * 32).to_be_bytes()
}

/// The initial key (IK, IPEK) of a terminal, from the base derivation key (BDK) and a key serial
/// number of the terminal's, whose counter has no part in it.
pub fn initial_key(base: &[u8; 16], serial: &[u8; 10]) -> [u8; 16]
    ensures { result ≡ initial_key_of base.now serial.now }
{
    let block = first_bytes(serial);
    let left = encrypted_by_ede2(base, &block);
    let right = encrypted_by_ede2(&masked(base, DERIVATION_MASK), &block);
    joined(&left, &right)
}

fn next_half(register: u64, key: &[u8; 16]) -> [u8; 8]
    ensures { result ≡ next_half_of register key.now }
{
    let right = key_part(key, 2);
    let block = xored(&register.to_be_bytes(), &right);
    xored(&encrypted_by_des(&key_part(key, 1), &block), &right)
}

pub(crate) fn next_key(register: u64, key: &[u8; 16]) -> [u8; 16]
    ensures { result ≡ next_key_of register key.now }
{
    let left = next_half(register, &masked(key, DERIVATION_MASK));
    joined(&left, &next_half(register, key))
}

/// The key of the transaction of a key serial number, from the initial key. It is not to be used as
/// it is: the keys for PINs, MACs and data are made from it. Every counter is taken, those too that
/// `next_serial` leaves out; of the counter 0 it is the initial key.
pub fn transaction_key(initial: &[u8; 16], serial: &[u8; 10]) -> [u8; 16]
    ensures { result ≡ transaction_key_of initial.now serial.now }
{
    let last = last_bytes(serial);
    let counter = last % COUNTERS;
    let mut register = last - counter;
    let mut key = *initial;
    for place in (0..COUNTER_BITS).rev() {
        if counter >> place & 1 == 1 {
            register |= 1 << place;
            key = next_key(register, &key);
        }
    }
    key
}

/// The key that encrypts PIN blocks, from the transaction's key.
pub fn pin_key(transaction: &[u8; 16]) -> [u8; 16]
    ensures { result ≡ pin_key_of transaction.now }
{
    masked(transaction, 0xff)
}

/// The key that authenticates a message, from the transaction's key.
pub fn mac_key(transaction: &[u8; 16], message: MessageDirection) -> [u8; 16]
    ensures { result ≡ mac_key_of message transaction.now }
{
    let mask = match message {
        MessageDirection::Request => 0xff00,
        MessageDirection::Response => 0xff000000,
    };
    masked(transaction, mask)
}

/// The data variant of the transaction's key for a message: the key that `data_key` makes, without
/// its last one-way step. Some terminals encrypt data under it; if it is lost, so are the
/// transaction's other keys.
pub fn data_variant(transaction: &[u8; 16], message: MessageDirection) -> [u8; 16]
    ensures { result ≡ data_variant_of message transaction.now }
{
    let mask = match message {
        MessageDirection::Request => 0xff0000,
        MessageDirection::Response => 0xff00000000,
    };
    masked(transaction, mask)
}

/// The key that encrypts the data of a message, from the transaction's key.
pub fn data_key(transaction: &[u8; 16], message: MessageDirection) -> [u8; 16]
    ensures { result ≡ data_key_of message transaction.now }
{
    let key = data_variant(transaction, message);
    let left = encrypted_by_ede2(&key, &key_part(&key, 1));
    let right = encrypted_by_ede2(&key, &key_part(&key, 2));
    joined(&left, &right)
}

/// Whether a transaction can have this key serial number: its counter is not 0, whose key is the
/// initial key, and has at most ten one bits (ANSI X9.24-1:2009, Annex A).
pub fn is_usable(serial: &[u8; 10]) -> bool
    ensures { IsTrue result ↔ IsOfTransaction serial.now }
{
    let counter = last_bytes(serial) % COUNTERS;
    counter != 0 && counter.count_ones() <= MAX_ONES
}

/// The next key serial number: that whose counter is the least one above, of 21 bits, with at most
/// ten one bits; `None` if there is none. It tries the counters one after another, of which at
/// most 2,047 in a row have more ones.
pub fn next_serial(serial: &[u8; 10]) -> Option<[u8; 10]>
    ensures next { IfSome result (λ next. (counter : ℕ)
        × (IsNextCounter (counter_of serial.now) counter
        × (next ≡ with_counter serial.now counter))) }
    ensures none { IfNone result ((counter : ℕ) → counter_of serial.now < counter
        → ¬ (IsUsable counter)) }
{
    let last = last_bytes(serial);
    let counter = last % COUNTERS;
    for next in counter + 1..COUNTERS {
        if next.count_ones() <= MAX_ONES {
            return Some(with_last_bytes(serial, last - counter + next));
        }
    }
    None
}
