//! Tags by each MAC, named by its type: what its callers get by dot syntax and by the type's name,
//! where a call of the type itself would be taken before that of `Mac`.

ghost use Rattle.std.specs.Prelude.{◌≡◌, ◌↔◌, ◌*◌, ℕ, List, length, IsOk, IfOk, IsTrue};
ghost use Rattle.des_mac.specs.Tags.{IsTruncated};

use des::cipher::{InvalidLength, KeyedCipher};
use des_mac::{CbcMac, Cmac, Mac, Padding, RetailMac};

/// The tag of a message by CBC-MAC.
pub fn cbc_mac<C: KeyedCipher + Drop, P: Padding>(
    key: &[u8],
    message: &[u8],
) -> Result<[u8; 8], InvalidLength>
    ensures accepted { IsOk result ↔ (length key.now ≡ C.KEY_SIZE) }
    ensures tag { IfOk result (λ tag. tag ≡ ⟦<CbcMac<C, P> as Mac>⟧.tag_of key.now message.now) }
{
    CbcMac::<C, P>::mac(key, message)
}

/// Whether these 8 bytes are the tag of the message that a state of CBC-MAC stands for.
pub fn is_cbc_mac<C: KeyedCipher + Drop, P: Padding>(state: CbcMac<C, P>, tag: &[u8; 8]) -> bool
    ensures { (key m : List ℕ) → ⟦<CbcMac<C, P> as Mac>⟧.holds state key m
        → IsTrue result ↔ (tag.now ≡ ⟦<CbcMac<C, P> as Mac>⟧.tag_of key m) }
{
    state.verify(tag).is_ok()
}

/// Whether these bytes are the first 4 to 8 of that tag.
pub fn begins_cbc_mac<C: KeyedCipher + Drop, P: Padding>(state: CbcMac<C, P>, tag: &[u8]) -> bool
    ensures { (key m : List ℕ) → ⟦<CbcMac<C, P> as Mac>⟧.holds state key m
        → IsTrue result ↔ IsTruncated tag.now (⟦<CbcMac<C, P> as Mac>⟧.tag_of key m) }
{
    state.verify_truncated_left(tag).is_ok()
}

/// The tag of a message by the retail MAC.
pub fn retail_mac<C: KeyedCipher + Drop, P: Padding>(
    key: &[u8],
    message: &[u8],
) -> Result<[u8; 8], InvalidLength>
    ensures accepted { IsOk result ↔ (length key.now ≡ 2 * C.KEY_SIZE) }
    ensures tag { IfOk result (λ tag. tag ≡ ⟦<RetailMac<C, P> as Mac>⟧.tag_of key.now message.now) }
{
    RetailMac::<C, P>::mac(key, message)
}

/// Whether these 8 bytes are the tag of the message that a state of the retail MAC stands for.
pub fn is_retail_mac<C: KeyedCipher + Drop, P: Padding>(
    state: RetailMac<C, P>,
    tag: &[u8; 8],
) -> bool
    ensures { (key m : List ℕ) → ⟦<RetailMac<C, P> as Mac>⟧.holds state key m
        → IsTrue result ↔ (tag.now ≡ ⟦<RetailMac<C, P> as Mac>⟧.tag_of key m) }
{
    state.verify(tag).is_ok()
}

/// Whether these bytes are the first 4 to 8 of that tag.
pub fn begins_retail_mac<C: KeyedCipher + Drop, P: Padding>(
    state: RetailMac<C, P>,
    tag: &[u8],
) -> bool
    ensures { (key m : List ℕ) → ⟦<RetailMac<C, P> as Mac>⟧.holds state key m
        → IsTrue result ↔ IsTruncated tag.now (⟦<RetailMac<C, P> as Mac>⟧.tag_of key m) }
{
    state.verify_truncated_left(tag).is_ok()
}

/// The tag of a message by CMAC.
pub fn cmac<C: KeyedCipher + Drop>(key: &[u8], message: &[u8]) -> Result<[u8; 8], InvalidLength>
    ensures accepted { IsOk result ↔ (length key.now ≡ C.KEY_SIZE) }
    ensures tag { IfOk result (λ tag. tag ≡ ⟦<Cmac<C> as Mac>⟧.tag_of key.now message.now) }
{
    Cmac::<C>::mac(key, message)
}

/// Whether these 8 bytes are the tag of the message that a state of CMAC stands for.
pub fn is_cmac<C: KeyedCipher + Drop>(state: Cmac<C>, tag: &[u8; 8]) -> bool
    ensures { (key m : List ℕ) → ⟦<Cmac<C> as Mac>⟧.holds state key m
        → IsTrue result ↔ (tag.now ≡ ⟦<Cmac<C> as Mac>⟧.tag_of key m) }
{
    state.verify(tag).is_ok()
}

/// Whether these bytes are the first 4 to 8 of that tag.
pub fn begins_cmac<C: KeyedCipher + Drop>(state: Cmac<C>, tag: &[u8]) -> bool
    ensures { (key m : List ℕ) → ⟦<Cmac<C> as Mac>⟧.holds state key m
        → IsTrue result ↔ IsTruncated tag.now (⟦<Cmac<C> as Mac>⟧.tag_of key m) }
{
    state.verify_truncated_left(tag).is_ok()
}
