//! Padding to whole blocks, by its numbers.

ghost use Rattle.std.specs.Prelude.{◌≡◌, ◌≢◌, ◌≤◌, ℕ, List, Some, IfSome, IfNone, length, take};
ghost use Rattle.des_io.specs.PaddedBytes.{padded, taken_off};
ghost use Rattle.des_io.specs.declared.padding.Padding.TheVariants.{Unpadded};
ghost use Rattle.des_context.specs.Bytes.{AreWhole};
ghost use Rattle.des_context.specs.Paddings.{IsMethod, IsNumberOf};

use des_io::padding::{Padding, count_before};

/// The number of PKCS#7 padding. No number of a padding method of a MAC is one of these.
pub const PKCS7: i32 = 11;

/// The number of ISO/IEC 7816-4 padding.
pub const ISO7816: i32 = 12;

/// The padding of a number.
pub fn padding_of(method: i32) -> Option<Padding>
    ensures found { IfSome result (λ padding. IsNumberOf method padding) }
    ensures none { IfNone result (¬ (IsMethod method)) }
{
    match method {
        PKCS7 => Some(Padding::Pkcs7),
        ISO7816 => Some(Padding::Iso7816),
        _ => None,
    }
}

/// The number of bytes before their padding; `None` if they do not end with the padding.
pub fn count_unpadded(padding: Padding, bytes: &[u8]) -> Option<usize>
    requires padding { padding ≢ Unpadded }
    requires taken_off { taken_off padding ≡ padding }
    requires whole { AreWhole bytes.now }
    ensures found { IfSome result (λ count. (count ≤ length bytes.now)
        × (padded padding (take count bytes.now) ≡ bytes.now)) }
    ensures back { (plain : List ℕ) → padded padding plain ≡ bytes.now
        → result ≡ Some (length plain) }
{
    let (prefix, last) = bytes.split_last_chunk::<8>()?;
    let count = count_before(padding, last)?;
    Some(prefix.len() + count)
}
