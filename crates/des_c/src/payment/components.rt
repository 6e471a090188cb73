//! The export of keys that are kept in components.

ghost use Rattle.std.specs.Prelude.{◌≡◌, ◌≢◌, ◌↔◌, ◌%◌, ◌∷◌, length};
ghost use Rattle.des.specs.WeakKeys.{IsRefused};
ghost use Rattle.des_payment.specs.Components.{combined};
ghost use Rattle.des_context.specs.Keys.{IsKeyLength, keys_of};

use des_context::components::combine;
use des_context::status::{ERR_WEAK_KEY, OK};

/// Writes the key that two or more components of its length make, 8, 16 or 24 bytes: their xor,
/// with odd parity. The components after the second stand one after another in `others`. The status
/// for a key that the weak key test refuses is `ERR_WEAK_KEY`, and then `key` is unchanged.
#[unsafe(no_mangle)]
pub extern "C" fn cukvashe_internal_combine(
    first: &[u8],
    second: &[u8],
    others: &[u8],
    key: &mut [u8],
) -> i32
    requires size { IsKeyLength (length key.old) }
    requires components { (length first.now ≡ length key.old)
        × (length second.now ≡ length key.old) }
    requires others { length others.now % length key.old ≡ 0 }
    ensures accepted { (result ≡ OK) ↔ ¬ (IsRefused
        (combined (first.now ∷ second.now ∷ keys_of (length key.old) others.now))) }
    ensures refused { (result ≡ ERR_WEAK_KEY) ↔ IsRefused
        (combined (first.now ∷ second.now ∷ keys_of (length key.old) others.now)) }
    ensures key { result ≡ OK → key.new
        ≡ combined (first.now ∷ second.now ∷ keys_of (length key.old) others.now) }
    ensures kept { result ≢ OK → key.new ≡ key.old }
{
    combine(first, second, others, key)
}
