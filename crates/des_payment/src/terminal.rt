//! The terminal's side of DUKPT, derived unique key per transaction, with triple DES (ANSI
//! X9.24-1:2009, A.2 and A.4): 21 future keys, each of which serves one transaction.
//!
//! The register of a place holds the key of the next transaction whose counter has its lowest one
//! bit there. When it is used, the keys of the places below are made from it, and it is cleared.
//! Only the counter, which is no secret, decides what is done.

ghost use Rattle.std.specs.Prelude.{◌≡◌, ℕ, List, ◌+◌, ◌-◌, ◌%◌, ◌^◌, ◌<◌, ◌≤◌, bit_or, replicate, IfSome, IfNone};
ghost use Rattle.std.specs.Int.{w64, bit_at, to_be_bytes, trailing_zeros};
ghost use Rattle.des_fast.specs.Transposition.{block_at};
ghost use Rattle.des_payment.specs.Dukpt.{last_bytes as last_bytes_of, counter_of, next_key as next_key_of, with_counter};
ghost use Rattle.des_payment.specs.Dukpt.{transaction_key as transaction_key_of, IsUsable, IsNextCounter};
ghost use Rattle.des_payment.specs.Terminals.{key_of, HasFutureKeys, place_of, register_after};

use crate::dukpt::{COUNTERS, MAX_ONES, last_bytes, next_key, next_serial, with_last_bytes};
use des::cipher::are_bytes;

// The future keys, one for each bit of the counter.
const REGISTERS: usize = 21;

/// The state of a terminal: the key serial number (KSN) of its last transaction, and the future
/// keys.
///
/// The fields are public so that a terminal can keep the state: whoever writes it has the keys of
/// all transactions to come. A state of other keys gives other keys, and nothing else happens.
#[repr(C)]
#[derive(Drop)]
pub struct Terminal {
    /// The key serial number of the last transaction; before the first its counter is 0.
    pub serial: [u8; 10],
    /// The future keys; that of the lowest bit of the counter is the first.
    pub keys: [[u8; 16]; REGISTERS],
}

// The place of the lowest one bit of a counter.
fn lowest_one(counter: u64) -> usize
    requires some { 0 < counter }
    requires within { counter < 2 ^ 21 }
    ensures place { result ≡ trailing_zeros w64 counter }
    ensures inside { result < 21 }
    ensures one { bit_at counter result ≡ 1 }
    ensures below { counter % 2 ^ result ≡ 0 }
{
    counter.trailing_zeros() as usize
}

// Writes the keys of the places below one, each from the key of a transaction.
fn write_below(keys: &mut [[u8; 16]; REGISTERS], place: usize, last: u64, key: &[u8; 16])
    requires { place ≤ 21 }
    ensures written { (k : ℕ) → k < place
        → block_at keys.new k ≡ next_key_of (bit_or last (2 ^ k)) key.now }
    ensures kept { (k : ℕ) → place ≤ k → block_at keys.new k ≡ block_at keys.old k }
{
    'places: for k in 0..place {
        keys[k] = next_key(last | 1 << k, key);
    }
}

// Takes the key of the transaction of a serial number, the last eight bytes of it, and makes the
// future keys those after it. If the counter has ten one bits, those that the key would make are
// of no transaction.
fn take_key(keys: &mut [[u8; 16]; REGISTERS], last: u64) -> [u8; 16]
    requires { 0 < last % 2 ^ 21 }
    ensures taken { (initial : List ℕ) → IsUsable (last % 2 ^ 21)
        → HasFutureKeys initial (last - 1) keys.old → result ≡ key_of initial last }
    ensures future { (initial : List ℕ) → IsUsable (last % 2 ^ 21)
        → HasFutureKeys initial (last - 1) keys.old → HasFutureKeys initial last keys.new }
    ensures forgotten { block_at keys.new (trailing_zeros w64 (last % 2 ^ 21)) ≡ replicate 16 0 }
    ensures key { result ≡ block_at keys.old (place_of last) }
    ensures registers { (place : ℕ)
        → block_at keys.new place ≡ register_after last keys.old place }
{
    let counter = last % COUNTERS;
    let place = lowest_one(counter);
    let key = keys[place];
    keys[place] = [0; 16];
    if counter.count_ones() < MAX_ONES {
        write_below(keys, place, last, &key);
    }
    key
}

impl Terminal {
    /// The state of a terminal with this initial key, before its first transaction. The counter of
    /// the key serial number has no part in it: the first transaction has counter 1.
    pub fn new(initial: &[u8; 16], serial: &[u8; 10]) -> Terminal
        ensures serial { result.serial ≡ with_counter serial.now 0 }
        ensures keys { HasFutureKeys initial.now (last_bytes_of result.serial) result.keys }
    {
        let last = last_bytes(serial);
        let register = last - last % COUNTERS;
        let mut keys = [[0; 16]; REGISTERS];
        write_below(&mut keys, REGISTERS, register, initial);
        Terminal {
            serial: with_last_bytes(serial, register),
            keys,
        }
    }

    /// The key of the next transaction, as the host makes it by `transaction_key` of the key serial
    /// number that the state has then; the key is cleared in the state. `None` if the terminal
    /// has had its last transaction, and the state is unchanged.
    pub fn next_key(&mut self) -> Option<[u8; 16]>
        ensures serial { IfSome result (λ _. (counter : ℕ)
            × (IsNextCounter (counter_of self.old.serial) counter
            × (self.new.serial ≡ with_counter self.old.serial counter))) }
        ensures key { IfSome result (λ key. (initial : List ℕ)
            → HasFutureKeys initial (last_bytes_of self.old.serial) self.old.keys
            → key ≡ transaction_key_of initial self.new.serial) }
        ensures keys { IfSome result (λ _. (initial : List ℕ)
            → HasFutureKeys initial (last_bytes_of self.old.serial) self.old.keys
            → HasFutureKeys initial (last_bytes_of self.new.serial) self.new.keys) }
        ensures forgotten { IfSome result (λ _.
            block_at self.new.keys (trailing_zeros w64 (counter_of self.new.serial))
            ≡ replicate 16 0) }
        ensures taken { IfSome result (λ key. key
            ≡ block_at self.old.keys (place_of (last_bytes_of self.new.serial))) }
        ensures registers { IfSome result (λ _. (place : ℕ) → block_at self.new.keys place
            ≡ register_after (last_bytes_of self.new.serial) self.old.keys place) }
        ensures last { IfNone result ((counter : ℕ) → counter_of self.old.serial < counter
            → ¬ (IsUsable counter)) }
        ensures kept { IfNone result (self.new ≡ self.old) }
    {
        are_bytes(&self.serial);
        match next_serial(&self.serial) {
            Some(serial) => {
                let key = take_key(&mut self.keys, last_bytes(&serial));
                self.serial = serial;
                Some(key)
            }
            None => None,
        }
    }
}
