//! Keys of `PBEWithMD5AndTripleDES`, as Java's provider SunJCE derives them: a rule of its own, not
//! that of PKCS #5.

ghost use Rattle.std.specs.Prelude.{◌≡◌, ◌≢◌, ◌≤◌, ◌<◌, ◌-◌, ◌+◌, ◌↔◌, ◌++◌, length, IsOk, IsErrOf, IfOk};
ghost use Rattle.md5.specs.Md5.{md5};
ghost use Rattle.des_columns.specs.JavaTripleDes.{derived, digested, first_half, second_half};

use des_passwords::derivation::split;
use des_passwords::pbkdf2::DeriveError;
use des_passwords::{HashFunction, KeyAndVector};
use md5::Md5;

// The digest of bytes and the password.
fn digest_with(bytes: &[u8], password: &[u8]) -> [u8; 16]
    ensures { result ≡ md5 (bytes.now ++ password.now) }
{
    let mut hash = <Md5 as HashFunction>::new();
    hash.add(bytes);
    hash.add(password);
    let mut digest = [0; 16];
    hash.write_digest(&mut digest);
    digest
}

// What a half of the salt becomes.
#[tactic(auto, unfolding(crate::specs::JavaTripleDes::digested))]
fn digest_half(half: &[u8], password: &[u8], iterations: u32) -> [u8; 16]
    requires { 0 < iterations }
    ensures { result ≡ digested iterations password.now half.now }
{
    let mut digest = digest_with(half, password);
    'steps: for _ in 1..iterations {
        digest = digest_with(&digest, password);
    }
    digest
}

// The first half of the salt, reversed if it is the second half too.
fn first_half(salt: &[u8; 8]) -> [u8; 4]
    ensures { result ≡ first_half salt.now }
{
    let (first, second) = salt.split_at(4);
    let mut half = [0; 4];
    half.copy_from_slice(first);
    if first == second {
        half.reverse();
    }
    half
}

/// The key of 24 bytes and the vector of `PBEWithMD5AndTripleDES`. `NoIteration` if `iterations` is
/// 0.
pub fn key_and_vector(
    password: &[u8],
    salt: &[u8; 8],
    iterations: u32,
) -> Result<KeyAndVector<24>, DeriveError>
    ensures accepted { IsOk result ↔ (iterations ≢ 0) }
    ensures no_iteration { IsErrOf result DeriveError.NoIteration ↔ (iterations ≡ 0) }
    ensures ok { IfOk result (λ both. both.key ++ both.vector
        ≡ derived password.now salt.now iterations) }
{
    if iterations == 0 {
        return Err(DeriveError::NoIteration);
    }
    let first = digest_half(&first_half(salt), password, iterations);
    let second = digest_half(&salt[4..], password, iterations);
    Ok(split([first, second].as_flattened()))
}
