//! PBKDF1 (RFC 8018, section 5.1), and the keys of PBES1 (section 6.1) by it.

ghost use Rattle.std.specs.Prelude.{◌≡◌, ◌≢◌, ◌≤◌, ◌<◌, ◌-◌, ◌+◌, ◌↔◌, ◌++◌, length, IsOk, IsErrOf, IfOk};
ghost use Rattle.des_passwords.specs.BytesToKey.{repeated};
ghost use Rattle.des_passwords.specs.Pbkdf1.{pbkdf1};

use crate::derivation::{KeyAndVector, split};
use crate::hash_function::HashFunction;
use crate::pbkdf2::DeriveError;
use crate::repeated::repeat;

// T c, the last of the digests, of which the first is that of the password and the salt.
fn write_last<H: HashFunction>(password: &[u8], salt: &[u8], iterations: u32, last: &mut [u8])
    requires last { length last.old ≡ H.SIZE }
    requires iterations { 0 < iterations }
    ensures digest { last.new ≡ repeated H.digest iterations (password.now ++ salt.now) }
    ensures length { length last.new ≡ H.SIZE }
{
    let mut hash = H::new();
    hash.add(password);
    hash.add(salt);
    hash.write_digest(last);
    repeat::<H>(iterations, last);
}

/// The key and the vector of `pbeWithMD5AndDES-CBC` or `pbeWithSHA1AndDES-CBC`, by the hash
/// function: 8 bytes each. `NoIteration` if `iterations` is 0. The salt of the standard has 8
/// bytes; any length is taken.
pub fn key_and_vector<H: HashFunction>(
    password: &[u8],
    salt: &[u8],
    iterations: u32,
) -> Result<KeyAndVector<8>, DeriveError>
    requires { 16 ≤ H.SIZE }
    ensures accepted { IsOk result ↔ (iterations ≢ 0) }
    ensures no_iteration { IsErrOf result DeriveError.NoIteration ↔ (iterations ≡ 0) }
    ensures ok { IfOk result (λ both. both.key ++ both.vector
        ≡ pbkdf1 H.digest password.now salt.now iterations 16) }
{
    if iterations == 0 {
        return Err(DeriveError::NoIteration);
    }
    let mut digest = [0; 32];
    let last = &mut digest[..H::SIZE];
    write_last::<H>(password, salt, iterations, last);
    Ok(split(last))
}
