//! Keys that are wrapped, and unwrapped again: what the clauses of key wraps give to a caller.

ghost use Rattle.std.specs.Prelude.{◌≡◌, ◌↔◌, ◌<◌, ◌≤◌, ◌+◌, ◌^◌, length, IsOk, OnOk};
ghost use Rattle.des_key_wraps.specs.CmsKeyWrap.{Wraps};
ghost use Rattle.des_key_wraps.specs.Tkw.{TkwUnder};

use des::cipher::{InvalidLength, Relating, are_bytes};
use des_key_wraps::{cms_key_wrap, tkw};

/// Wraps a key by the key wrap of CMS under a protection key, and unwraps it: the key comes back. A
/// protection key that does not have `KEY_SIZE` bytes is `InvalidLength`.
pub fn cms_key_again<C: Relating + Drop>(
    protection: &[u8],
    iv: &[u8; 8],
    key: &[[u8; 8]],
    wrapped: &mut [[u8; 8]],
    again: &mut [[u8; 8]],
) -> Result<(), InvalidLength>
    requires wrapped { length wrapped.old ≡ length key.now + 2 }
    requires again { length again.old ≡ length key.now }
    ensures accepted { IsOk result ↔ (length protection.now ≡ C.KEY_SIZE) }
    ensures wraps { OnOk result (Wraps (C.relation protection.now) iv.now key.now wrapped.new) }
    ensures same { OnOk result (again.new ≡ key.now) }
{
    let cipher = C::new_from_slice(protection)?;
    are_bytes(iv);
    cms_key_wrap::wrap(&cipher, iv, key, wrapped);
    cms_key_wrap::unwrap(&cipher, wrapped, again).unwrap();
    Ok(())
}

/// The same by TKW.
pub fn tkw_key_again<C: Relating + Drop>(
    protection: &[u8],
    key: &[[u8; 4]],
    wrapped: &mut [[u8; 4]],
    again: &mut [[u8; 4]],
) -> Result<(), InvalidLength>
    requires some { 2 ≤ length key.now }
    requires few { length key.now < 2 ^ 28 }
    requires wrapped { length wrapped.old ≡ length key.now + 1 }
    requires again { length again.old ≡ length key.now }
    ensures accepted { IsOk result ↔ (length protection.now ≡ C.KEY_SIZE) }
    ensures wraps { OnOk result (TkwUnder (C.relation protection.now) key.now wrapped.new) }
    ensures same { OnOk result (again.new ≡ key.now) }
{
    let cipher = C::new_from_slice(protection)?;
    are_bytes(key.as_flattened());
    tkw::wrap(&cipher, key, wrapped);
    tkw::unwrap(&cipher, wrapped, again).unwrap();
    Ok(())
}
