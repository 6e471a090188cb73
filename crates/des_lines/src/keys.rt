//! Keys: their bytes, and whether they are weak.

ghost use Rattle.std.specs.Prelude.{◌≡◌, ◌↔◌, ◌*◌, List, ℕ, length, take, None, IfOk, IfSome, IsTrue};
ghost use Rattle.des.specs.WeakKeys.{IsRefused};
ghost use Rattle.des_lines.specs.Texts.{bytes_of as bytes_of_text};
ghost use Rattle.des_lines.specs.Faults.{FailsBy, FailsOnlyBy};
ghost use Rattle.des_lines.specs.Keys.{key_fault, any_key_fault, pair_fault, is_key_length, IsKeySize, IsDoubleLength, IsVerdict};
ghost use Rattle.des_lines.specs.declared.keys.Verdict.TheVariants.{Good, DoubleLength, Weak};

use crate::digits::{bytes_of, decode};
use crate::fault::FaultKind;
use des::tdes::key_part;
use des::weak_key::{equal_but_parity, weak_key_test};
use std::alloc::Global;
use std::marker::Model;

/// What is found of a key before it is used.
#[derive(Clone, Copy)]
pub enum Verdict {
    /// The weak key test accepts it.
    Good,
    /// It is K1, K2, K1, parity aside, and the weak key test accepts K1, K2. Triple DES under it is
    /// triple DES under the key of two parts.
    DoubleLength,
    /// The weak key test refuses it otherwise: a part is a listed key, or two parts beside each
    /// other are equal, parity aside, and triple DES is single DES.
    Weak,
}

// Whether `count` digits write a key of `size` bytes, or of 8, 16 or 24 if no size is named.
fn is_key_length(count: usize, size: Option<u8>) -> bool
    ensures { result ≡ is_key_length count size }
{
    match size {
        None => count == 16 || count == 32 || count == 48,
        Some(size) => count == 2 * size as usize,
    }
}

/// The bytes of a key that hexadecimal digits write: of `size` bytes, 8, 16 or 24, or of one of
/// these if no size is named. The fault is `KeyLength` if the number of digits is another,
/// `KeyText` if a character is none, and otherwise `Memory`.
pub fn key_of_digits(alloc: Global, digits: &[u8], size: Option<u8>) -> Result<Vec<u8>, FaultKind>
    requires { IfSome size IsKeySize }
    ensures fault { FailsBy (key_fault size digits.now) result }
    ensures key { IfOk result (λ key. key.items ≡ bytes_of_text digits.now) }
    ensures size { IfOk result (λ key. IsKeySize (length key.items)) }
{
    if !is_key_length(digits.len(), size) {
        return Err(FaultKind::KeyLength(size));
    }
    let mut buffer = [0u8; 24];
    let bytes = &mut buffer[..digits.len() / 2];
    decode(digits, bytes, FaultKind::KeyText)?;
    Ok(Vec::from_slice(alloc, bytes)?)
}

/// The bytes of a key of two parts that hexadecimal digits write.
pub fn pair_of(digits: &[u8]) -> Result<[u8; 16], FaultKind>
    ensures fault { FailsOnlyBy (pair_fault digits.now) result }
    ensures key { IfOk result (λ key. key ≡ bytes_of_text digits.now) }
{
    bytes_of::<16>(digits, FaultKind::KeyLength(Some(16)), FaultKind::KeyText)
}

/// A key of 8, 16 or 24 bytes.
#[derive(Drop)]
pub struct AnyKey {
    buffer: [u8; 24],
    size: usize,
}

impl Model for AnyKey {
    ghost Value = { List ℕ };

    ghost view = { λ key. take key.size key.buffer };

    ghost invariant = { λ key. IsKeySize key.size };
}

impl AnyKey {
    /// The key that hexadecimal digits write. The faults are `KeyLength` and `KeyText`.
    pub fn of_digits(digits: &[u8]) -> Result<AnyKey, FaultKind>
        ensures fault { FailsOnlyBy (key_fault None digits.now) result }
        ensures key { IfOk result (λ key. key ≡ bytes_of_text digits.now) }
    {
        AnyKey::read(digits, FaultKind::KeyLength(None), FaultKind::KeyText)
    }

    /// The same, by the faults of the length and of the text.
    pub fn read(
        digits: &[u8],
        length_fault: FaultKind,
        text_fault: FaultKind,
    ) -> Result<AnyKey, FaultKind>
        ensures fault { FailsOnlyBy (any_key_fault length_fault text_fault digits.now) result }
        ensures key { IfOk result (λ key. key ≡ bytes_of_text digits.now) }
        ensures long { IfOk result (λ key. length digits.now ≡ 2 * length key) }
    {
        if !is_key_length(digits.len(), None) {
            return Err(length_fault);
        }
        let size = digits.len() / 2;
        let mut buffer = [0; 24];
        decode(digits, &mut buffer[..size], text_fault)?;
        Ok(AnyKey { buffer, size })
    }

    /// Its bytes.
    pub fn bytes(&self) -> &[u8]
        ensures value { result.now ≡ self.now }
        ensures size { IsKeySize (length self.now) }
    {
        &self.buffer[..self.size]
    }
}

/// Whether the weak key test refuses a key of 8, 16 or 24 bytes.
pub fn is_weak(key: &[u8]) -> bool
    requires { IsKeySize (length key.now) }
    ensures { IsTrue result ↔ IsRefused key.now }
{
    weak_key_test(key).is_err()
}

// Whether a key is K1, K2, K1, parity aside, and the weak key test accepts K1, K2.
fn is_double_length(key: &[u8]) -> bool
    ensures { IsTrue result ↔ IsDoubleLength key.now }
{
    if key.len() != 24 || !equal_but_parity(&key_part(key, 1), &key_part(key, 3)) {
        return false;
    }
    !is_weak(&key[..16])
}

/// What is found of a key of 8, 16 or 24 bytes.
pub fn verdict_of(key: &[u8]) -> Verdict
    requires { IsKeySize (length key.now) }
    ensures verdict { IsVerdict result key.now }
    ensures good { (result ≡ Good) ↔ (¬ IsRefused key.now) }
    ensures double_length { (result ≡ DoubleLength) ↔ IsDoubleLength key.now }
    ensures weak { (result ≡ Weak) ↔ (IsRefused key.now × (¬ IsDoubleLength key.now)) }
{
    if is_double_length(key) {
        Verdict::DoubleLength
    } else if is_weak(key) {
        Verdict::Weak
    } else {
        Verdict::Good
    }
}
