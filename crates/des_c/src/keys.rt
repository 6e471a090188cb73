//! The exports of the weak key test and of parity bits.

ghost use Rattle.std.specs.Prelude.{◌≡◌, ◌↔◌, ℕ, List, length, map, IsTrue};
ghost use Rattle.std.specs.List.{AllZip};
ghost use Rattle.des.specs.Blocks.{IsKey};
ghost use Rattle.des.specs.Enciphering.{Enciphers};
ghost use Rattle.des.specs.Parity.{AgreeOutsideParity, HasOddParity};
ghost use Rattle.des.specs.Relations.{IsTheOne};
ghost use Rattle.des.specs.Triple.{Ede3};
ghost use Rattle.des.specs.WeakKeys.{IsRefused};
ghost use Rattle.des_context.specs.Keys.{AgreeInEachPart, IsKeyLength};
ghost use Rattle.des_payment.specs.Components.{odd};

use des::cipher::are_bytes;
use des::weak_key;
use des_context::status::{ERR_KEY_LENGTH, ERR_WEAK_KEY, OK};

/// Tests a key of 8, 16 or 24 bytes. The status for a key that the weak key test refuses is
/// `ERR_WEAK_KEY`, and for a key of any other length `ERR_KEY_LENGTH`.
#[unsafe(no_mangle)]
pub extern "C" fn cukvashe_weak_key_test(key: &[u8]) -> i32
    ensures passed { (result ≡ OK)
        ↔ (IsKeyLength (length key.now) × ¬ (IsRefused key.now)) }
    ensures refused { (result ≡ ERR_WEAK_KEY) ↔ (IsKeyLength (length key.now) × IsRefused key.now) }
    ensures key_length { (result ≡ ERR_KEY_LENGTH) ↔ ¬ (IsKeyLength (length key.now)) }
{
    if !matches!(key.len(), 8 | 16 | 24) {
        return ERR_KEY_LENGTH;
    }
    match weak_key::weak_key_test(key) {
        Ok(()) => OK,
        Err(_) => ERR_WEAK_KEY,
    }
}

/// Gives a key of any length odd parity: in each byte, the lowest bit becomes such that the number
/// of ones is odd.
#[unsafe(no_mangle)]
pub extern "C" fn cukvashe_set_odd_parity(key: &mut [u8])
    ensures bytes { key.new ≡ map odd key.old }
    ensures one { length key.old ≡ 8 → IsTheOne
        (λ other. IsKey 8 other × AgreeOutsideParity key.old other × HasOddParity other) key.new }
{
    are_bytes(key);
    des_payment::set_odd_parity(key);
}

// Whether each part agrees with the part at its place in all bits but the lowest of each byte.
fn agree_in_each(parts: &[[u8; 8]], others: &[[u8; 8]]) -> bool
    requires { length parts.now ≡ length others.now }
    ensures { IsTrue result ↔ AllZip AgreeOutsideParity parts.now others.now }
{
    for i in 0..parts.len() {
        if !weak_key::equal_but_parity(&parts[i], &others[i]) {
            return false;
        }
    }
    true
}

/// Whether two keys of as many whole parts of 8 bytes agree in all bits but the lowest of each
/// byte. Such keys are one. Of bytes that are no whole parts the answer is no.
#[unsafe(no_mangle)]
pub extern "C" fn cukvashe_internal_equal_but_parity(first: &[u8], second: &[u8]) -> bool
    ensures agree { IsTrue result ↔ AgreeInEachPart first.now second.now }
    ensures same_relation { length first.now ≡ 8 → IsTrue result → (x y : List ℕ)
        → Enciphers first.now x y ↔ Enciphers second.now x y }
    ensures first_parts_undone { length first.now ≡ 8 → IsTrue result → (key x y : List ℕ)
        → Ede3 first.now second.now key x y ↔ Enciphers key x y }
    ensures last_parts_undone { length first.now ≡ 8 → IsTrue result → (key x y : List ℕ)
        → Ede3 key first.now second.now x y ↔ Enciphers key x y }
{
    if first.len() != second.len() || first.len() % 8 != 0 {
        return false;
    }
    are_bytes(first);
    are_bytes(second);
    let (parts, _) = first.as_chunks::<8>();
    let (others, _) = second.as_chunks::<8>();
    agree_in_each(parts, others)
}
