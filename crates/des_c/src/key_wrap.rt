//! The exports of key wraps: a key encrypted under a key of triple DES in the EDE form, by the key
//! wrap of CMS (RFC 3217) and by TKW (NIST SP 800-38F). No call reads a table. What a call writes
//! is a list of blocks or semiblocks, so that `capacity` is a number of these.

ghost use Rattle.std.specs.Prelude.{◌≡◌, ◌≢◌, ◌⊎◌, ◌↔◌, ◌<◌, ◌≤◌, ◌+◌, ◌-◌, ◌/◌, ℕ, List, length, take, drop, replicate};
ghost use Rattle.std.specs.List.{All};
ghost use Rattle.des.specs.Blocks.{IsBlock};
ghost use Rattle.des.specs.Relations.{IsGraphOf};
ghost use Rattle.des_key_wraps.specs.CmsKeyWrap.{Wraps};
ghost use Rattle.des_key_wraps.specs.Tkw.{IsSemiblock, TkwUnder};
ghost use Rattle.des_context.specs.Bytes.{blocks_of};
ghost use Rattle.des_context.specs.CipherTypes.{relation_of};
ghost use Rattle.des_c.specs.KeyWraps.{semiblocks_of, IsCmsKeyLength, IsProtectionLength, IsTkwKeyLength};

use des::cipher::{BlockCipherEncrypt, KeyInit, are_bytes};
use des::tdes::{self, key_part};
use des_context::status::{
    ERR_BLOCKS, ERR_CAPACITY, ERR_KEY_LENGTH, ERR_PROTECTION_KEY_LENGTH, ERR_WRAPPED_KEY,
    ERR_WRAPPED_LENGTH, OK,
};
use des_fast::no_tables::{Des, TdesEde3};
use des_key_wraps::{cms_key_wrap, tkw};

// The cipher of a protection key. Of two parts the first is the third too.
fn cipher_of(protection: &[u8]) -> TdesEde3
    requires { IsProtectionLength (length protection.now) }
    ensures { IsGraphOf (⟦<TdesEde3 as BlockCipherEncrypt>⟧.encrypted result)
        (relation_of protection.now) }
{
    are_bytes(protection);
    let third = if protection.len() == 16 { 1 } else { 3 };
    tdes::of_three(
        Des::new(&key_part(protection, 1)),
        Des::new(&key_part(protection, 2)),
        Des::new(&key_part(protection, third)),
    )
}

/// Wraps a key of one block or more by the key wrap of CMS, at the front of a buffer, and writes
/// how many bytes that are: 16 more than the key's. The status is that of the first fault, and then
/// nothing is written: `ERR_PROTECTION_KEY_LENGTH`, `ERR_BLOCKS` or `ERR_CAPACITY`.
#[unsafe(no_mangle)]
pub extern "C" fn cukvashe_cms_wrap_key(
    protection: &[u8],
    iv: &[u8; 8],
    key: &[u8],
    wrapped: &mut [[u8; 8]],
    wrapped_length: &mut usize,
) -> i32
    ensures protection { (result ≡ ERR_PROTECTION_KEY_LENGTH)
        ↔ ¬ (IsProtectionLength (length protection.now)) }
    ensures key { (result ≡ ERR_BLOCKS)
        ↔ (IsProtectionLength (length protection.now) × ¬ (IsCmsKeyLength (length key.now))) }
    ensures capacity { (result ≡ ERR_CAPACITY) ↔ (IsProtectionLength (length protection.now)
        × IsCmsKeyLength (length key.now) × (length wrapped.old < length key.now / 8 + 2)) }
    ensures accepted { (result ≡ OK) ↔ (IsProtectionLength (length protection.now)
        × IsCmsKeyLength (length key.now) × (length key.now / 8 + 2 ≤ length wrapped.old)) }
    ensures wrapped { result ≡ OK → Wraps (relation_of protection.now) iv.now
        (blocks_of key.now) (take (length key.now / 8 + 2) wrapped.new) }
    ensures size { result ≡ OK → wrapped_length.new ≡ length key.now + 16 }
    ensures rest { drop (length key.now / 8 + 2) wrapped.new
        ≡ drop (length key.now / 8 + 2) wrapped.old }
    ensures kept { result ≢ OK
        → (wrapped.new ≡ wrapped.old) × (wrapped_length.new ≡ wrapped_length.old) }
{
    if protection.len() != 16 && protection.len() != 24 {
        return ERR_PROTECTION_KEY_LENGTH;
    }
    if key.is_empty() || key.len() % 8 != 0 {
        return ERR_BLOCKS;
    }
    let count = key.len() / 8 + 2;
    if wrapped.len() < count {
        return ERR_CAPACITY;
    }
    let (blocks, _) = key.as_chunks::<8>();
    cms_key_wrap::wrap(&cipher_of(protection), iv, blocks, &mut wrapped[..count]);
    *wrapped_length = key.len() + 16;
    OK
}

/// Unwraps what the key wrap of CMS wrapped, at the front of a buffer, and writes how many bytes
/// the key has. The status is that of the first fault: `ERR_PROTECTION_KEY_LENGTH`,
/// `ERR_WRAPPED_LENGTH` or `ERR_CAPACITY`, and then nothing is written; or `ERR_WRAPPED_KEY` of
/// bytes that wrap no key, and then zeros stand where the key would.
#[unsafe(no_mangle)]
pub extern "C" fn cukvashe_cms_unwrap_key(
    protection: &[u8],
    wrapped: &[u8],
    key: &mut [[u8; 8]],
    key_length: &mut usize,
) -> i32
    ensures protection { (result ≡ ERR_PROTECTION_KEY_LENGTH)
        ↔ ¬ (IsProtectionLength (length protection.now)) }
    ensures length { (result ≡ ERR_WRAPPED_LENGTH) ↔ (IsProtectionLength (length protection.now)
        × ¬ (IsCmsKeyLength (length wrapped.now - 16))) }
    ensures capacity { (result ≡ ERR_CAPACITY) ↔ (IsProtectionLength (length protection.now)
        × IsCmsKeyLength (length wrapped.now - 16) × (length key.old < length wrapped.now / 8 - 2)) }
    ensures tried { ((result ≡ OK) ⊎ (result ≡ ERR_WRAPPED_KEY))
        ↔ (IsProtectionLength (length protection.now) × IsCmsKeyLength (length wrapped.now - 16)
        × (length wrapped.now / 8 - 2 ≤ length key.old)) }
    ensures unwrapped { result ≡ OK → (iv : List ℕ) × IsBlock iv
        × Wraps (relation_of protection.now) iv
        (take (length wrapped.now / 8 - 2) key.new) (blocks_of wrapped.now) }
    ensures accepted { (result ≡ OK) ⊎ (result ≡ ERR_WRAPPED_KEY)
        → (iv : List ℕ) (other : List (List ℕ)) → IsBlock iv
        → Wraps (relation_of protection.now) iv other (blocks_of wrapped.now)
        → (result ≡ OK) × (take (length wrapped.now / 8 - 2) key.new ≡ other) }
    ensures none { result ≡ ERR_WRAPPED_KEY → take (length wrapped.now / 8 - 2) key.new
        ≡ replicate (length wrapped.now / 8 - 2) (replicate 8 0) }
    ensures size { result ≡ OK → key_length.new ≡ length wrapped.now - 16 }
    ensures rest { drop (length wrapped.now / 8 - 2) key.new
        ≡ drop (length wrapped.now / 8 - 2) key.old }
    ensures kept { result ≢ OK → key_length.new ≡ key_length.old }
    ensures kept_key { result ≢ OK → result ≢ ERR_WRAPPED_KEY → key.new ≡ key.old }
{
    if protection.len() != 16 && protection.len() != 24 {
        return ERR_PROTECTION_KEY_LENGTH;
    }
    if wrapped.len() < 24 || wrapped.len() % 8 != 0 {
        return ERR_WRAPPED_LENGTH;
    }
    let count = wrapped.len() / 8 - 2;
    if key.len() < count {
        return ERR_CAPACITY;
    }
    let (blocks, _) = wrapped.as_chunks::<8>();
    match cms_key_wrap::unwrap(&cipher_of(protection), blocks, &mut key[..count]) {
        Ok(()) => {
            *key_length = wrapped.len() - 16;
            OK
        }
        Err(_) => ERR_WRAPPED_KEY,
    }
}

/// Wraps a key of 2 to 2^28 - 1 semiblocks by TKW, at the front of a buffer, and writes how many
/// bytes that are: 4 more than the key's. The status is that of the first fault, and then nothing
/// is written: `ERR_PROTECTION_KEY_LENGTH`, `ERR_KEY_LENGTH` or `ERR_CAPACITY`.
#[unsafe(no_mangle)]
pub extern "C" fn cukvashe_tkw_wrap_key(
    protection: &[u8],
    key: &[u8],
    wrapped: &mut [[u8; 4]],
    wrapped_length: &mut usize,
) -> i32
    ensures protection { (result ≡ ERR_PROTECTION_KEY_LENGTH)
        ↔ ¬ (IsProtectionLength (length protection.now)) }
    ensures key { (result ≡ ERR_KEY_LENGTH)
        ↔ (IsProtectionLength (length protection.now) × ¬ (IsTkwKeyLength (length key.now))) }
    ensures capacity { (result ≡ ERR_CAPACITY) ↔ (IsProtectionLength (length protection.now)
        × IsTkwKeyLength (length key.now) × (length wrapped.old < length key.now / 4 + 1)) }
    ensures accepted { (result ≡ OK) ↔ (IsProtectionLength (length protection.now)
        × IsTkwKeyLength (length key.now) × (length key.now / 4 + 1 ≤ length wrapped.old)) }
    ensures wrapped { result ≡ OK → TkwUnder (relation_of protection.now)
        (semiblocks_of key.now) (take (length key.now / 4 + 1) wrapped.new) }
    ensures size { result ≡ OK → wrapped_length.new ≡ length key.now + 4 }
    ensures rest { drop (length key.now / 4 + 1) wrapped.new
        ≡ drop (length key.now / 4 + 1) wrapped.old }
    ensures kept { result ≢ OK
        → (wrapped.new ≡ wrapped.old) × (wrapped_length.new ≡ wrapped_length.old) }
{
    if protection.len() != 16 && protection.len() != 24 {
        return ERR_PROTECTION_KEY_LENGTH;
    }
    if key.len() < 8 || key.len() % 4 != 0 || key.len() >= 1 << 30 {
        return ERR_KEY_LENGTH;
    }
    let count = key.len() / 4 + 1;
    if wrapped.len() < count {
        return ERR_CAPACITY;
    }
    let (semiblocks, _) = key.as_chunks::<4>();
    tkw::wrap(&cipher_of(protection), semiblocks, &mut wrapped[..count]);
    *wrapped_length = key.len() + 4;
    OK
}

/// Unwraps what TKW wrapped, at the front of a buffer, and writes how many bytes the key has. The
/// status is as for `cukvashe_cms_unwrap_key`.
#[unsafe(no_mangle)]
pub extern "C" fn cukvashe_tkw_unwrap_key(
    protection: &[u8],
    wrapped: &[u8],
    key: &mut [[u8; 4]],
    key_length: &mut usize,
) -> i32
    ensures protection { (result ≡ ERR_PROTECTION_KEY_LENGTH)
        ↔ ¬ (IsProtectionLength (length protection.now)) }
    ensures length { (result ≡ ERR_WRAPPED_LENGTH) ↔ (IsProtectionLength (length protection.now)
        × ¬ (IsTkwKeyLength (length wrapped.now - 4))) }
    ensures capacity { (result ≡ ERR_CAPACITY) ↔ (IsProtectionLength (length protection.now)
        × IsTkwKeyLength (length wrapped.now - 4) × (length key.old < length wrapped.now / 4 - 1)) }
    ensures tried { ((result ≡ OK) ⊎ (result ≡ ERR_WRAPPED_KEY))
        ↔ (IsProtectionLength (length protection.now) × IsTkwKeyLength (length wrapped.now - 4)
        × (length wrapped.now / 4 - 1 ≤ length key.old)) }
    ensures unwrapped { result ≡ OK → TkwUnder (relation_of protection.now)
        (take (length wrapped.now / 4 - 1) key.new) (semiblocks_of wrapped.now) }
    ensures accepted { (result ≡ OK) ⊎ (result ≡ ERR_WRAPPED_KEY)
        → (other : List (List ℕ)) → All IsSemiblock other
        → TkwUnder (relation_of protection.now) other (semiblocks_of wrapped.now)
        → (result ≡ OK) × (take (length wrapped.now / 4 - 1) key.new ≡ other) }
    ensures none { result ≡ ERR_WRAPPED_KEY → take (length wrapped.now / 4 - 1) key.new
        ≡ replicate (length wrapped.now / 4 - 1) (replicate 4 0) }
    ensures size { result ≡ OK → key_length.new ≡ length wrapped.now - 4 }
    ensures rest { drop (length wrapped.now / 4 - 1) key.new
        ≡ drop (length wrapped.now / 4 - 1) key.old }
    ensures kept { result ≢ OK → key_length.new ≡ key_length.old }
    ensures kept_key { result ≢ OK → result ≢ ERR_WRAPPED_KEY → key.new ≡ key.old }
{
    if protection.len() != 16 && protection.len() != 24 {
        return ERR_PROTECTION_KEY_LENGTH;
    }
    if wrapped.len() < 12 || wrapped.len() % 4 != 0 || wrapped.len() > 1 << 30 {
        return ERR_WRAPPED_LENGTH;
    }
    let count = wrapped.len() / 4 - 1;
    if key.len() < count {
        return ERR_CAPACITY;
    }
    let (semiblocks, _) = wrapped.as_chunks::<4>();
    match tkw::unwrap(&cipher_of(protection), semiblocks, &mut key[..count]) {
        Ok(()) => {
            *key_length = wrapped.len() - 4;
            OK
        }
        Err(_) => ERR_WRAPPED_KEY,
    }
}
