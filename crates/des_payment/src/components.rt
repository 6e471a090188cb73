//! Keys that are kept in components by several people: none of them has the key, which is the xor
//! of all components, with odd parity.

ghost use Rattle.std.specs.Prelude.{◌≡◌, ◌↔◌, ◌⊎◌, ◌∷◌, map, IsErr, IfOk};
ghost use Rattle.des.specs.WeakKeys.{IsRefused};
ghost use Rattle.des_payment.specs.Components.{odd, xor_of, combined};

use crate::xor::xored;
use des::weak_key::{WeakKeyError, weak_key_test};

// The xor of components, of which there is at least one.
fn sum_of<const N: usize>(first: &[u8; N], others: &[[u8; N]]) -> [u8; N]
    ensures { result ≡ xor_of (first.now ∷ others.now) }
{
    let mut sum = *first;
    for component in others {
        sum = xored(&sum, component);
    }
    sum
}

// The byte with odd parity, with no branch on it.
fn with_odd_parity(byte: u8) -> u8
    ensures { result ≡ odd byte }
{
    byte ^ (1 - (byte.count_ones() % 2) as u8)
}

/// Sets in each byte of a key, of any length, the lowest bit, its parity bit, such that the number
/// of ones is odd (FIPS 46-3, key schedule). The other bits are unchanged.
pub fn set_odd_parity(key: &mut [u8])
    ensures { key.new ≡ map odd key.old }
{
    for byte in key.iter_mut() {
        *byte = with_odd_parity(*byte);
    }
}

/// The key of 8, 16 or 24 bytes that two or more components make: their xor, byte by byte, and then
/// in each byte the lowest bit, its parity bit, such that the number of ones is odd. A key that
/// `weak_key_test` refuses is refused here by its error.
pub fn combine<const N: usize>(
    first: &[u8; N],
    second: &[u8; N],
    others: &[[u8; N]],
) -> Result<[u8; N], WeakKeyError>
    requires { (N ≡ 8) ⊎ (N ≡ 16) ⊎ (N ≡ 24) }
    ensures refused { IsErr result ↔ IsRefused (combined (first.now ∷ second.now ∷ others.now)) }
    ensures key { IfOk result (λ key. key ≡ combined (first.now ∷ second.now ∷ others.now)) }
{
    let mut key = sum_of(&xored(first, second), others);
    set_odd_parity(&mut key);
    weak_key_test(&key)?;
    Ok(key)
}
