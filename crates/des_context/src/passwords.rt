//! Keys from passwords, by the numbers of hash functions.

ghost use Rattle.std.specs.Prelude.{◌≡◌, ◌≢◌, Some, length};
ghost use Rattle.des_passwords.specs.Derivations.{derived};
ghost use Rattle.des_context.specs.Passwords.{with_no_pbkdf2, with_pbkdf2, derivation_by, IsDeriveStatus};

use crate::status::{ERR_HASH, ERR_ITERATIONS, ERR_KEY_LENGTH, OK};
use des_passwords::{Derivation, DeriveError};

/// The number of MD5. No number of a hash function is one of a padding method.
pub const MD5: u32 = 21;

/// The number of SHA-1.
pub const SHA1: u32 = 22;

/// The number of SHA-256.
pub const SHA256: u32 = 23;

/// The derivation by `EVP_BytesToKey` and the hash function of a number.
pub fn by_bytes_to_key(hash: u32) -> Option<Derivation>
    ensures { result ≡ with_no_pbkdf2 hash }
{
    match hash {
        MD5 => Some(Derivation::Md5),
        SHA1 => Some(Derivation::Sha1),
        SHA256 => Some(Derivation::Sha256),
        _ => None,
    }
}

/// The derivation by PBKDF2 and the hash function of a number.
pub fn by_pbkdf2(hash: u32, iterations: usize) -> Option<Derivation>
    ensures { result ≡ with_pbkdf2 hash iterations }
{
    // PBKDF2 counts in 32 bits: a larger number is taken for 0, which it refuses.
    let count = u32::try_from(iterations).unwrap_or(0);
    match hash {
        SHA1 => Some(Derivation::Pbkdf2Sha1(count)),
        SHA256 => Some(Derivation::Pbkdf2Sha256(count)),
        _ => None,
    }
}

/// The derivation of a hash function and a number of iterations: if that is 0, with no PBKDF2.
pub fn derivation_of(hash: u32, iterations: usize) -> Option<Derivation>
    ensures { result ≡ derivation_by hash iterations }
{
    if iterations == 0 {
        by_bytes_to_key(hash)
    } else {
        by_pbkdf2(hash, iterations)
    }
}

/// Writes the key of a derivation. The status is `ERR_HASH` if there is none, `ERR_ITERATIONS`
/// if it has no iteration, and `ERR_KEY_LENGTH` if PBKDF2 gives no key so long; and then
/// `key` is unchanged.
pub fn write_key(
    derivation: Option<Derivation>,
    password: &[u8],
    salt: &[u8],
    key: &mut [u8],
) -> i32
    ensures status { IsDeriveStatus derivation (length key.old) result }
    ensures key { result ≡ OK → (by : Derivation) → derivation ≡ Some by
        → key.new ≡ derived by password.now salt.now (length key.old) }
    ensures kept { result ≢ OK → key.new ≡ key.old }
{
    let Some(derivation) = derivation else {
        return ERR_HASH;
    };
    match derivation.write_bytes(password, salt, key) {
        Ok(()) => OK,
        Err(DeriveError::NoIteration) => ERR_ITERATIONS,
        Err(DeriveError::KeyLength) => ERR_KEY_LENGTH,
    }
}
