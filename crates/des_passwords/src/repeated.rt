//! A hash function taken again and again.

ghost use Rattle.std.specs.Prelude.{◌≡◌, ◌≤◌, ◌<◌, ◌-◌, ◌+◌, ℕ, List, length};
ghost use Rattle.des_passwords.specs.BytesToKey.{repeated};

use crate::hash_function::HashFunction;

// The digest of bytes, over them.
fn hash_again<H: HashFunction>(bytes: &mut [u8])
    requires { length bytes.old ≡ H.SIZE }
    ensures digest { bytes.new ≡ H.digest bytes.old }
    ensures length { length bytes.new ≡ H.SIZE }
{
    let mut hash = H::new();
    hash.add(bytes);
    hash.write_digest(bytes);
}

// Replaces the digest of a message by the result of `iterations` applications of the hash function.
pub(crate) fn repeat<H: HashFunction>(iterations: u32, digest: &mut [u8])
    requires digest { length digest.old ≡ H.SIZE }
    requires iterations { 0 < iterations }
    ensures repeated { (m : List ℕ) → digest.old ≡ H.digest m
        → digest.new ≡ repeated H.digest iterations m }
    ensures length { length digest.new ≡ H.SIZE }
{
    'steps: for _ in 1..iterations {
        hash_again::<H>(digest);
    }
}
