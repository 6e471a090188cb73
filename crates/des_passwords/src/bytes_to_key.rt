//! Keys as OpenSSL makes them from passwords, if no PBKDF2 is asked for.

ghost use Rattle.std.specs.Prelude.{◌≡◌, ◌≢◌, ◌≤◌, ◌<◌, ◌-◌, ◌+◌, ◌*◌, ◌↔◌, ◌++◌, ℕ, List, length, take, IsOk, IsErrOf, OnOk, OnErr};
ghost use Rattle.des_passwords.specs.BytesToKey.{bytes_to_key, d, repeated};

use crate::hash_function::HashFunction;
use crate::pbkdf2::DeriveError;
use crate::repeated::repeat;

// The digest of the first `count` bytes of `last`, the password and the salt, over `last`.
fn write_first<H: HashFunction>(count: usize, password: &[u8], salt: &[u8], last: &mut [u8])
    requires last { length last.old ≡ H.SIZE }
    requires count { count ≤ H.SIZE }
    ensures digest { last.new ≡ H.digest (take count last.old ++ password.now ++ salt.now) }
    ensures length { length last.new ≡ H.SIZE }
{
    let mut hash = H::new();
    hash.add(&last[..count]);
    hash.add(password);
    hash.add(salt);
    hash.write_digest(last);
}

// D (n + 1) from D n, the first `count` bytes of `last`: none before the first.
fn write_next<H: HashFunction>(
    count: usize,
    password: &[u8],
    salt: &[u8],
    iterations: u32,
    last: &mut [u8],
)
    requires last { length last.old ≡ H.SIZE }
    requires count { count ≤ H.SIZE }
    requires iterations { 0 < iterations }
    ensures digest { last.new
        ≡ repeated H.digest iterations (take count last.old ++ password.now ++ salt.now) }
    ensures length { length last.new ≡ H.SIZE }
{
    write_first::<H>(count, password, salt, last);
    repeat::<H>(iterations, last);
}

/// Writes key and vector of a password and a salt, one after the other and together as long as the
/// list that you give, as `EVP_BytesToKey` does; `openssl enc` takes one iteration. `NoIteration`
/// if `iterations` is 0; the list is then unchanged.
pub fn bytes_to_key<H: HashFunction>(
    password: &[u8],
    salt: &[u8],
    iterations: u32,
    bytes: &mut [u8],
) -> Result<(), DeriveError>
    ensures accepted { IsOk result ↔ (iterations ≢ 0) }
    ensures no_iteration { IsErrOf result DeriveError.NoIteration ↔ (iterations ≡ 0) }
    ensures ok { OnOk result (bytes.new ≡ bytes_to_key H.digest H.SIZE password.now salt.now
        iterations (length bytes.old)) }
    ensures err { OnErr result (bytes.new ≡ bytes.old) }
{
    if iterations == 0 {
        return Err(DeriveError::NoIteration);
    }
    let size = H::SIZE;
    let count = bytes.len() / size;
    let mut digest = [0; 32];
    let last = &mut digest[..size];
    let mut previous_size = 0;
    'digests: for i in 0..count {
        write_next::<H>(previous_size, password, salt, iterations, last);
        previous_size = size;
        bytes[size * i..size * i + size].copy_from_slice(last);
    }
    let rest = bytes.len() - size * count;
    if rest > 0 {
        write_next::<H>(previous_size, password, salt, iterations, last);
        bytes[size * count..].copy_from_slice(&last[..rest]);
    }
    Ok(())
}
