//! Keys and vectors as `openssl enc` derives them from passwords.

ghost use Rattle.std.specs.Prelude.{◌≡◌, ◌≤◌, ◌+◌, ◌↔◌, ◌++◌, length, take, IsOk, IsErrOf, IfOk, OnOk, OnErr};
ghost use Rattle.des_passwords.specs.Derivations.{derived, HasNoIteration, IsDerivable, IsTooLong};

use crate::bytes_to_key::bytes_to_key;
use crate::pbkdf2::{DeriveError, pbkdf2};

/// How `openssl enc` derives key and vector from a password and a salt: by `EVP_BytesToKey` with
/// one iteration, or by PBKDF2 under `-pbkdf2` or `-iter`. The hash function is that of `-md`.
#[derive(Clone, Copy, Debug, PartialEq, Eq)]
pub enum Derivation {
    /// `-md md5`, which OpenSSL took before version 1.1.0.
    Md5,
    /// `-md sha1`.
    Sha1,
    /// `-md sha256`, which OpenSSL takes since version 1.1.0.
    Sha256,
    /// `-pbkdf2 -md sha1`, and the iterations of `-iter`.
    Pbkdf2Sha1(u32),
    /// `-pbkdf2 -md sha256`, and the iterations of `-iter`: 10000 if it is not given.
    Pbkdf2Sha256(u32),
}

/// A key of `N` bytes and a vector.
#[derive(Clone, Copy)]
pub struct KeyAndVector<const N: usize> {
    /// The key: its parity bits are as derived, not set.
    pub key: [u8; N],
    /// The initialization vector, of no use in ECB mode.
    pub vector: [u8; 8],
}

/// The key of `N` bytes, and the vector behind it, as they stand in what is derived.
pub fn split<const N: usize>(bytes: &[u8]) -> KeyAndVector<N>
    requires key { N ≤ 24 }
    requires bytes { N + 8 ≤ length bytes.now }
    ensures { result.key ++ result.vector ≡ take (N + 8) bytes.now }
{
    let mut key = [0; N];
    key.copy_from_slice(&bytes[..N]);
    let mut vector = [0; 8];
    vector.copy_from_slice(&bytes[N..N + 8]);
    KeyAndVector { key, vector }
}

impl Derivation {
    /// Writes key and vector, one after the other and together as long as the list that you give.
    /// `NoIteration` if the iterations are 0, and `KeyLength` if PBKDF2 is asked for more
    /// than 2^32 - 1 digests; the list is then unchanged.
    pub fn write_bytes(
        self,
        password: &[u8],
        salt: &[u8],
        bytes: &mut [u8],
    ) -> Result<(), DeriveError>
        ensures accepted { IsOk result ↔ IsDerivable self (length bytes.old) }
        ensures no_iteration { IsErrOf result DeriveError.NoIteration ↔ HasNoIteration self }
        ensures key_length { IsErrOf result DeriveError.KeyLength
            ↔ IsTooLong self (length bytes.old) }
        ensures ok { OnOk result (bytes.new
            ≡ derived self password.now salt.now (length bytes.old)) }
        ensures err { OnErr result (bytes.new ≡ bytes.old) }
    {
        match self {
            Derivation::Md5 => bytes_to_key::<md5::Md5>(password, salt, 1, bytes),
            Derivation::Sha1 => bytes_to_key::<sha1::Sha1>(password, salt, 1, bytes),
            Derivation::Sha256 => bytes_to_key::<sha2::Sha256>(password, salt, 1, bytes),
            Derivation::Pbkdf2Sha1(count) => pbkdf2::<sha1::Sha1>(password, salt, count, bytes),
            Derivation::Pbkdf2Sha256(count) => pbkdf2::<sha2::Sha256>(password, salt, count, bytes),
        }
    }

    /// The key of `N` bytes, 8 for DES, 16 or 24 for triple DES, and the vector that stands behind
    /// it in what is derived. `NoIteration` if the iterations are 0.
    pub fn key_and_vector<const N: usize>(
        self,
        password: &[u8],
        salt: &[u8],
    ) -> Result<KeyAndVector<N>, DeriveError>
        requires { N ≤ 24 }
        ensures accepted { IsOk result ↔ IsDerivable self (N + 8) }
        ensures no_iteration { IsErrOf result DeriveError.NoIteration ↔ HasNoIteration self }
        ensures ok { IfOk result (λ both. both.key ++ both.vector
            ≡ derived self password.now salt.now (N + 8)) }
    {
        let mut bytes = [0; 32];
        self.write_bytes(password, salt, &mut bytes[..N + 8])?;
        Ok(split(&bytes))
    }
}
