//! Keys that are kept in components, of any of the ciphers.

ghost use Rattle.std.specs.Prelude.{◌≡◌, ◌≢◌, ◌↔◌, ◌%◌, ◌∷◌, length};
ghost use Rattle.des.specs.WeakKeys.{IsRefused};
ghost use Rattle.des_payment.specs.Components.{combined};
ghost use Rattle.des_context.specs.Keys.{IsKeyLength, keys_of};

use crate::status::{ERR_WEAK_KEY, OK};

// The bytes as an array.
fn component<const N: usize>(bytes: &[u8]) -> &[u8; N]
    requires size { IsKeyLength N }
    requires sized { length bytes.now ≡ N }
    ensures { result.now ≡ bytes.now }
{
    let (chunks, _) = bytes.as_chunks::<N>();
    &chunks[0]
}

// The key that components of `N` bytes make.
fn combine_sized<const N: usize>(first: &[u8], second: &[u8], others: &[u8], key: &mut [u8]) -> i32
    requires size { IsKeyLength N }
    requires sized { (length first.now ≡ N) × (length second.now ≡ N) × (length key.old ≡ N) }
    ensures accepted { (result ≡ OK) ↔ ¬ (IsRefused
        (combined (first.now ∷ second.now ∷ keys_of (length key.old) others.now))) }
    ensures refused { (result ≡ ERR_WEAK_KEY) ↔ IsRefused
        (combined (first.now ∷ second.now ∷ keys_of (length key.old) others.now)) }
    ensures key { result ≡ OK → key.new
        ≡ combined (first.now ∷ second.now ∷ keys_of (length key.old) others.now) }
    ensures kept { result ≢ OK → key.new ≡ key.old }
{
    let (others, _) = others.as_chunks::<N>();
    match des_payment::combine(component::<N>(first), component::<N>(second), others) {
        Ok(made) => {
            key.copy_from_slice(&made);
            OK
        }
        Err(_) => ERR_WEAK_KEY,
    }
}

/// The key that two or more components of its length make, 8, 16 or 24 bytes: their xor, with odd
/// parity. The components after the second stand one after another in `others`. The status for a
/// key that the weak key test refuses is `ERR_WEAK_KEY`, and then `key` is unchanged.
pub fn combine(first: &[u8], second: &[u8], others: &[u8], key: &mut [u8]) -> i32
    requires size { IsKeyLength (length key.old) }
    requires components { (length first.now ≡ length key.old)
        × (length second.now ≡ length key.old) }
    requires others { length others.now % length key.old ≡ 0 }
    ensures accepted { (result ≡ OK) ↔ ¬ (IsRefused
        (combined (first.now ∷ second.now ∷ keys_of (length key.old) others.now))) }
    ensures refused { (result ≡ ERR_WEAK_KEY) ↔ IsRefused
        (combined (first.now ∷ second.now ∷ keys_of (length key.old) others.now)) }
    ensures key { result ≡ OK → key.new
        ≡ combined (first.now ∷ second.now ∷ keys_of (length key.old) others.now) }
    ensures kept { result ≢ OK → key.new ≡ key.old }
{
    match key.len() {
        8 => combine_sized::<8>(first, second, others, key),
        16 => combine_sized::<16>(first, second, others, key),
        _ => combine_sized::<24>(first, second, others, key),
    }
}
