//! Messages that come in two parts, with nothing kept between them but how far the first came: what
//! `progress` and `resume` give to a caller.

ghost use Rattle.std.specs.Prelude.{◌≡◌, ◌↔◌, ◌*◌, ◌++◌, ℕ, List, length, take, drop, IsOk, IfOk};

use des::cipher::{InvalidLength, KeyedCipher};
use des_mac::{CbcMac, Cmac, Mac, Padding, RetailMac};

/// A state of CBC-MAC, resumed from how far another has come, over a cipher of its key: it stands
/// for the same message.
pub fn resumed_cbc_mac<C: KeyedCipher + Drop, P: Padding>(
    cipher: C,
    state: &CbcMac<C, P>,
) -> CbcMac<C, P>
    requires { (key : List ℕ) × (m : List ℕ) × ⟦<CbcMac<C, P> as Mac>⟧.holds state.now key m }
    ensures { (key m : List ℕ) → C.is_made_from cipher key
        → ⟦<CbcMac<C, P> as Mac>⟧.holds state.now key m
        → ⟦<CbcMac<C, P> as Mac>⟧.holds result key m }
{
    CbcMac::resume(cipher, &state.progress())
}

/// The retail MAC goes on, over ciphers of its two keys.
pub fn resumed_retail_mac<C: KeyedCipher + Drop, P: Padding>(
    first: C,
    second: C,
    state: &RetailMac<C, P>,
) -> RetailMac<C, P>
    requires { (key : List ℕ) × (m : List ℕ) × ⟦<RetailMac<C, P> as Mac>⟧.holds state.now key m }
    ensures { (key m : List ℕ) → C.is_made_from first (take C.KEY_SIZE key)
        → C.is_made_from second (drop C.KEY_SIZE key)
        → ⟦<RetailMac<C, P> as Mac>⟧.holds state.now key m
        → ⟦<RetailMac<C, P> as Mac>⟧.holds result key m }
{
    RetailMac::resume(first, second, &state.progress())
}

/// CMAC goes on.
pub fn resumed_cmac<C: KeyedCipher + Drop>(cipher: C, state: &Cmac<C>) -> Cmac<C>
    requires { (key : List ℕ) × (m : List ℕ) × ⟦<Cmac<C> as Mac>⟧.holds state.now key m }
    ensures { (key m : List ℕ) → C.is_made_from cipher key
        → ⟦<Cmac<C> as Mac>⟧.holds state.now key m
        → ⟦<Cmac<C> as Mac>⟧.holds result key m }
{
    Cmac::resume(cipher, &state.progress())
}

/// The tag by CBC-MAC of a message in two parts, the second of which a resumed state takes.
pub fn cbc_mac_in_two_parts<C: KeyedCipher + Drop, P: Padding>(
    key: &[u8],
    head: &[u8],
    tail: &[u8],
) -> Result<[u8; 8], InvalidLength>
    ensures accepted { IsOk result ↔ (length key.now ≡ C.KEY_SIZE) }
    ensures tag { IfOk result (λ tag.
        tag ≡ ⟦<CbcMac<C, P> as Mac>⟧.tag_of key.now (head.now ++ tail.now)) }
{
    let mut state = CbcMac::<C, P>::new_from_slice(key)?;
    state.update(head);
    let mut resumed = resumed_cbc_mac(C::new_from_slice(key)?, &state);
    resumed.update(tail);
    Ok(resumed.finalize())
}

/// The retail MAC of two parts, under a key that is two keys, one after the other.
pub fn retail_mac_in_two_parts<C: KeyedCipher + Drop, P: Padding>(
    key: &[u8],
    head: &[u8],
    tail: &[u8],
) -> Result<[u8; 8], InvalidLength>
    ensures accepted { IsOk result ↔ (length key.now ≡ 2 * C.KEY_SIZE) }
    ensures tag { IfOk result (λ tag.
        tag ≡ ⟦<RetailMac<C, P> as Mac>⟧.tag_of key.now (head.now ++ tail.now)) }
{
    let mut state = RetailMac::<C, P>::new_from_slice(key)?;
    state.update(head);
    let (first, second) = key.split_at(key.len() / 2);
    let first = C::new_from_slice(first)?;
    let second = C::new_from_slice(second)?;
    let mut resumed = resumed_retail_mac(first, second, &state);
    resumed.update(tail);
    Ok(resumed.finalize())
}

/// The CMAC of two parts.
pub fn cmac_in_two_parts<C: KeyedCipher + Drop>(
    key: &[u8],
    head: &[u8],
    tail: &[u8],
) -> Result<[u8; 8], InvalidLength>
    ensures accepted { IsOk result ↔ (length key.now ≡ C.KEY_SIZE) }
    ensures tag { IfOk result (λ tag.
        tag ≡ ⟦<Cmac<C> as Mac>⟧.tag_of key.now (head.now ++ tail.now)) }
{
    let mut state = Cmac::<C>::new_from_slice(key)?;
    state.update(head);
    let mut resumed = resumed_cmac(C::new_from_slice(key)?, &state);
    resumed.update(tail);
    Ok(resumed.finalize())
}
