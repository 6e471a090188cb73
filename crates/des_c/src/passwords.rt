//! The exports of keys from passwords, and of what `openssl enc` encrypted under them.

ghost use Rattle.std.specs.Prelude.{◌≡◌, ◌≢◌, Some, length};
ghost use Rattle.des_columns.specs.Pbe.{algorithm_of, derived_by};
ghost use Rattle.des_columns.specs.declared.pbe.Algorithm.{Algorithm};
ghost use Rattle.des_context.specs.ColumnStatuses.{IsPbeStatus};
ghost use Rattle.des_context.specs.Keys.{IsKeyLength};
ghost use Rattle.des_context.specs.Passwords.{with_no_pbkdf2, with_pbkdf2, derivation_by, IsDeriveStatus, IsSaltLength};
ghost use Rattle.des_context.specs.Salted.{HoldsPlain, IsSaltedFault, Opens};
ghost use Rattle.des_passwords.specs.Derivations.{derived};

use des_context::columns::pbe_key;
use des_context::passwords::{by_bytes_to_key, by_pbkdf2, derivation_of, write_key};
use des_context::salted::open_salted;
use des_context::status::{ERR_SALT_LENGTH, OK};
use des_passwords::Derivation;

/// Writes the key of a password and a salt by PBKDF2 with HMAC over `SHA1` or `SHA256`. The status
/// is `ERR_HASH` for any other number, `ERR_ITERATIONS` if there is no iteration, or more than 2^32
/// - 1, and `ERR_KEY_LENGTH` if the key is longer than 2^32 - 1 digests; and then `key` is
/// unchanged.
#[unsafe(no_mangle)]
pub extern "C" fn cukvashe_pbkdf2(
    hash: u32,
    password: &[u8],
    salt: &[u8],
    iterations: usize,
    key: &mut [u8],
) -> i32
    ensures status { IsDeriveStatus (with_pbkdf2 hash iterations) (length key.old) result }
    ensures key { result ≡ OK → (by : Derivation) → with_pbkdf2 hash iterations ≡ Some by
        → key.new ≡ derived by password.now salt.now (length key.old) }
    ensures kept { result ≢ OK → key.new ≡ key.old }
{
    write_key(by_pbkdf2(hash, iterations), password, salt, key)
}

/// Writes the key of a password and a salt as `EVP_BytesToKey` does with one iteration over `MD5`,
/// `SHA1` or `SHA256`. The salt has 8 bytes or none. The status is `ERR_SALT_LENGTH` for another,
/// and `ERR_HASH` for another number; and then `key` is unchanged.
#[unsafe(no_mangle)]
pub extern "C" fn cukvashe_bytes_to_key(
    hash: u32,
    password: &[u8],
    salt: &[u8],
    key: &mut [u8],
) -> i32
    ensures salt { ¬ (IsSaltLength (length salt.now)) → result ≡ ERR_SALT_LENGTH }
    ensures status { IsSaltLength (length salt.now)
        → IsDeriveStatus (with_no_pbkdf2 hash) (length key.old) result }
    ensures key { result ≡ OK → (by : Derivation) → with_no_pbkdf2 hash ≡ Some by
        → key.new ≡ derived by password.now salt.now (length key.old) }
    ensures kept { result ≢ OK → key.new ≡ key.old }
{
    if salt.len() != 0 && salt.len() != 8 {
        return ERR_SALT_LENGTH;
    }
    write_key(by_bytes_to_key(hash), password, salt, key)
}

/// Writes what `openssl enc` encrypted under a key of a password, without its padding, and how many
/// bytes it has: `-des-cbc` under a key of 8 bytes, `-des-ede-cbc` under one of 16, and `-des3`,
/// which is `-des-ede3-cbc`, under one of 24. `hash` is the number of the hash function of `-md`,
/// `iterations` that of `-iter`, 10000 of `-pbkdf2` alone, and 0 of neither. The status is that of
/// the first fault, and then `plain` and `plain_length` are unchanged: `ERR_HASH`,
/// `ERR_NOT_SALTED`, `ERR_SALT_LENGTH`, `ERR_ITERATIONS`, `ERR_BLOCKS`, `ERR_PADDING`, as for all
/// but about one in 256 wrong passwords, and `ERR_CAPACITY`.
#[unsafe(no_mangle)]
pub extern "C" fn cukvashe_internal_open_salted(
    key_size: usize,
    hash: u32,
    iterations: usize,
    password: &[u8],
    bytes: &[u8],
    plain: &mut [u8],
    plain_length: &mut usize,
) -> i32
    requires { IsKeyLength key_size }
    ensures { Opens (HoldsPlain key_size (derivation_by hash iterations) password.now bytes.now)
        (IsSaltedFault key_size (derivation_by hash iterations) password.now bytes.now
        (length plain.old)) plain.old plain.new plain_length.old plain_length.new result }
{
    let derivation = derivation_of(hash, iterations);
    open_salted(key_size, derivation, password, bytes, plain, plain_length)
}

/// Writes the key of a password and a salt, and the vector behind it, by the algorithm of this
/// name. The status is that of the first fault, and then the key is unchanged: `ERR_ALGORITHM`;
/// `ERR_KEY_LENGTH` if there are not as many bytes; `ERR_ITERATIONS` if there is no iteration, or
/// more than 2^32 - 1; `ERR_SALT_LENGTH` if Java's rule has a salt of other than 8 bytes.
#[unsafe(no_mangle)]
pub extern "C" fn cukvashe_pbe_key(
    algorithm: &[u8],
    iterations: usize,
    password: &[u8],
    salt: &[u8],
    key: &mut [u8],
) -> i32
    ensures status { IsPbeStatus (algorithm_of algorithm.now) iterations (length salt.now)
        (length key.old) result }
    ensures key { result ≡ OK → (by : Algorithm) → algorithm_of algorithm.now ≡ Some by
        → key.new ≡ derived_by by password.now salt.now iterations }
    ensures kept { result ≢ OK → key.new ≡ key.old }
{
    pbe_key(algorithm, iterations, password, salt, key)
}
