//! Contexts: what a caller keeps of a key between calls, as words. A context has sixteen words of
//! round keys for each part of its key, and then its mark: 17 words for DES, 33 for triple DES with
//! two parts, 49 with three. It has no pointers and owns nothing, so its words may be copied. Calls
//! refuse words that do not end with their mark: those that no init made, or the init of another
//! type.

ghost use Rattle.std.specs.Prelude.{◌≡◌, ◌≢◌, ◌↔◌, ◌≤◌, ◌<◌, ◌+◌, ◌*◌, ℕ, length};
ghost use Rattle.des.specs.Blocks.{part};
ghost use Rattle.des_fast.specs.KeptRoundKeys.{AreRoundKeysOf, words_of_part};
ghost use Rattle.des_context.specs.Contexts.{HasSomeCipherType, IsContextOf, IsMarked};
ghost use Rattle.des_context.specs.declared.ciphers.TheConstants.{NO_MAC};

use crate::ciphers::{NO_MAC, mark};
use crate::status::{ERR_KEY_LENGTH, OK};
use des::cipher::{KeyInit, are_bytes};
use des::tdes::key_part;
use des_fast::{Des, round_keys};

// Writes the round keys of a part of a key, numbered from 1, at their place.
fn write_part(context: &mut [u64], key: &[u8], number: usize)
    requires from { 1 ≤ number }
    requires to { 8 * number ≤ length key.now }
    requires capacity { 16 * number ≤ length context.old }
    ensures made { AreRoundKeysOf (words_of_part number context.new) (part number key.now) }
    ensures kept { (n : ℕ) → 1 ≤ n → n < number
        → words_of_part n context.new ≡ words_of_part n context.old }
{
    let words = round_keys::to_words(&Des::new(&key_part(key, number)));
    context[16 * (number - 1)..16 * number].copy_from_slice(&words);
}

// Writes the round keys of each part of a key.
fn write_parts(context: &mut [u64], key: &[u8])
    requires { 2 * length key.now ≤ length context.old }
    ensures made { (n : ℕ) → 1 ≤ n → 8 * n ≤ length key.now
        → AreRoundKeysOf (words_of_part n context.new) (part n key.now) }
{
    'parts: for k in 0..key.len() / 8 {
        write_part(context, key, k + 1);
    }
}

/// Makes a context, as `init` does, with the mark of an algorithm of a MAC.
pub(crate) fn init_for(algorithm: u32, context: &mut [u64], key: &[u8], no_tables: bool) -> i32
    requires { HasSomeCipherType context.old }
    ensures accepted { (result ≡ OK) ↔ (2 * length key.now + 1 ≡ length context.old) }
    ensures refused { (result ≡ ERR_KEY_LENGTH) ↔ (2 * length key.now + 1 ≢ length context.old) }
    ensures made { result ≡ OK → IsContextOf context.new key.now }
    ensures no_tables { result ≡ OK → IsMarked algorithm no_tables context.new }
    ensures kept { result ≢ OK → context.new ≡ context.old }
{
    if context.len() / 2 != key.len() {
        return ERR_KEY_LENGTH;
    }
    are_bytes(key);
    write_parts(context, key);
    context[2 * key.len()] = mark(algorithm, no_tables, context.len());
    OK
}

/// Makes a context from the bytes of a key, without tables, so that its calls read none, or with
/// them. The status is `ERR_KEY_LENGTH` if there are not as many bytes as the context's number of
/// words can hold; the context is then unchanged.
pub fn init(context: &mut [u64], key: &[u8], no_tables: bool) -> i32
    requires { HasSomeCipherType context.old }
    ensures accepted { (result ≡ OK) ↔ (2 * length key.now + 1 ≡ length context.old) }
    ensures refused { (result ≡ ERR_KEY_LENGTH) ↔ (2 * length key.now + 1 ≢ length context.old) }
    ensures made { result ≡ OK → IsContextOf context.new key.now }
    ensures no_tables { result ≡ OK → IsMarked NO_MAC no_tables context.new }
    ensures kept { result ≢ OK → context.new ≡ context.old }
{
    init_for(NO_MAC, context, key, no_tables)
}
