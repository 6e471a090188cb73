//! PBKDF2 (RFC 8018, section 5.2), with HMAC over a hash function.

ghost use Rattle.std.specs.Prelude.{◌≡◌, ◌≢◌, ◌≤◌, ◌<◌, ◌-◌, ◌+◌, ◌*◌, ◌↔◌, ◌++◌, ℕ, List, [], length, take, IsOk, IsErrOf, OnOk, OnErr};
ghost use Rattle.des_passwords.specs.Hmac.{hmac, IsHmacOf};
ghost use Rattle.des_passwords.specs.Pbkdf2.{block, pbkdf2, u, xor_of};

use crate::hash_function::HashFunction;
use crate::hmac::Hmac;
use crate::xored::xor;
use std::error::Error;
use std::fmt;

/// Why no key is derived.
#[derive(Clone, Copy, Debug, PartialEq, Eq)]
pub enum DeriveError {
    /// The number of iterations is 0.
    NoIteration,
    /// The key is longer than 2^32 - 1 digests, the most that PBKDF2 gives.
    KeyLength,
}

impl fmt::Display for DeriveError {
    ghost use Rattle.std.specs.Prelude.{Some, codes};
    ghost use Rattle.des_passwords.specs.DeriveErrors.{text_of};

    ghost output = { λ error. Some (text_of error) };

    ghost styled_output = { λ error _. Some (text_of error) };

    fn fmt<W: fmt::Write>(&self, f: &mut fmt::Formatter<W>) -> fmt::Result {
        f.write_str(match self {
            DeriveError::NoIteration => "the number of iterations is 0",
            DeriveError::KeyLength => "the key is longer than 2^32 - 1 digests",
        })
    }
}

impl Error for DeriveError {}

// Replaces U_i by U_(i+1), its tag.
fn step<H: HashFunction>(prf: &Hmac<H>, bytes: &mut [u8])
    requires { length bytes.old ≡ H.SIZE }
    ensures { (key : List ℕ) → IsHmacOf H.holds H.digest prf.now key []
        → bytes.new ≡ hmac H.digest key bytes.old }
{
    let mut mac = prf.copy();
    mac.update(bytes);
    mac.write_tag(bytes);
}

// Writes T, a block of the key: the xor of U_1, U_2 and so on. `last` is the buffer of one U at a
// time.
fn write_block<H: HashFunction>(
    prf: &Hmac<H>,
    salt: &[u8],
    index: u32,
    iterations: u32,
    last: &mut [u8],
    answer: &mut [u8],
)
    requires last { length last.old ≡ H.SIZE }
    requires answer { length answer.old ≡ H.SIZE }
    ensures block { (key : List ℕ) → IsHmacOf H.holds H.digest prf.now key []
        → answer.new ≡ block (hmac H.digest key) salt.now iterations index }
    ensures length { length answer.new ≡ H.SIZE }
{
    let mut mac = prf.copy();
    mac.update(salt);
    mac.update(&index.to_be_bytes());
    mac.write_tag(last);
    answer.copy_from_slice(last);
    'steps: for _ in 1..iterations {
        step(prf, last);
        xor(answer, last);
    }
}

/// Writes the key of a password and a salt, as long as the list that you give. `NoIteration` if
/// `iterations` is 0, and `KeyLength` if the key is longer than 2^32 - 1 digests; the list then
/// is unchanged. The time it takes goes by the iterations and the length.
pub fn pbkdf2<H: HashFunction>(
    password: &[u8],
    salt: &[u8],
    iterations: u32,
    key: &mut [u8],
) -> Result<(), DeriveError>
    ensures accepted { IsOk result ↔ (iterations ≢ 0) × (length key.old ≤ 0xFFFFFFFF * H.SIZE) }
    ensures no_iteration { IsErrOf result DeriveError.NoIteration ↔ (iterations ≡ 0) }
    ensures key_length { IsErrOf result DeriveError.KeyLength
        ↔ (iterations ≢ 0) × (0xFFFFFFFF * H.SIZE < length key.old) }
    ensures ok { OnOk result (key.new
        ≡ pbkdf2 (hmac H.digest password.now) H.SIZE salt.now iterations (length key.old)) }
    ensures err { OnErr result (key.new ≡ key.old) }
{
    if iterations == 0 {
        return Err(DeriveError::NoIteration);
    }
    let size = H::SIZE;
    if key.len() > 0xFFFF_FFFF * size {
        return Err(DeriveError::KeyLength);
    }
    let count = key.len() / size;
    let prf = Hmac::<H>::new(password);
    let mut last = [0; 32];
    let mut answer = [0; 32];
    'parts: for i in 0..count {
        let part = &mut key[size * i..size * i + size];
        write_block(
            &prf,
            salt,
            i as u32 + 1,
            iterations,
            &mut last[..size],
            part,
        );
    }
    let rest = key.len() - size * count;
    if rest > 0 {
        let block = &mut answer[..size];
        write_block(
            &prf,
            salt,
            count as u32 + 1,
            iterations,
            &mut last[..size],
            block,
        );
        key[size * count..].copy_from_slice(&block[..rest]);
    }
    Ok(())
}
