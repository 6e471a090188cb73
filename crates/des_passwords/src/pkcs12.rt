//! Keys and vectors of PKCS #12 (RFC 7292, appendix B), from a password as a BMPString.

ghost use Rattle.std.specs.Prelude.{◌≡◌, ◌≢◌, ◌≤◌, ◌<◌, ◌+◌, ◌-◌, ◌*◌, ◌/◌, ◌↔◌, ◌++◌, ◌∷◌, ℕ, List, suc, length, IsOk, IsErrOf, IfOk, OnOk, OnErr};
ghost use Rattle.sha1.specs.Sha1.{sha1};
ghost use Rattle.std.specs.List.{flat_map};
ghost use Rattle.std.specs.Simd.{first_chunks};
ghost use Rattle.des_passwords.specs.Pkcs12.{a_of, all_raised_by, b_of, big_endian, bmp_string, copies, in_blocks, pkcs12, raised_by};

use crate::bmp_string::Units;
use crate::derivation::KeyAndVector;
use crate::hash_function::HashFunction;
use crate::pbkdf2::DeriveError;
use crate::repeated::repeat;
use sha1::Sha1;

// A text that is repeated without end, and read block by block.
trait Blocks {
    ghost text: { Self → List ℕ };

    // What is left of a copy.
    ghost left: { Self → List ℕ };

    // The number of blocks that hold the text once, the last one perhaps only in part.
    fn count(&self) -> usize
        ensures { result ≡ (length (text self.now) + 63) / 64 };

    fn next_block(&mut self) -> [u8; 64]
        requires { 0 < length (text self.old) }
        ensures block { (n : ℕ) → copies (text self.old) (left self.old) (64 * suc n)
            ≡ result ++ copies (text self.old) (left self.new) (64 * n) }
        ensures text { text self.new ≡ text self.old };
}

// Copies of bytes.
#[derive(Drop)]
struct Bytes<'a> {
    all: &'a [u8],
    rest: &'a [u8],
}

impl<'a> Bytes<'a> {
    fn new(all: &'a [u8]) -> Bytes<'a>
        ensures all { result.all.now ≡ all.now }
        ensures rest { result.rest.now ≡ all.now }
    {
        Bytes { all, rest: all }
    }

    fn next(&mut self) -> u8
        requires { 0 < length self.old.all.now }
        ensures next { (n : ℕ) → copies self.old.all.now self.old.rest.now (suc n)
            ≡ result ∷ copies self.old.all.now self.new.rest.now n }
        ensures all { self.new.all.now ≡ self.old.all.now }
    {
        if self.rest.is_empty() {
            self.rest = self.all;
        }
        let first = self.rest[0];
        self.rest = &self.rest[1..];
        first
    }
}

impl Blocks for Bytes<'_> {
    ghost text = { λ bytes. bytes.all.now };

    ghost left = { λ bytes. bytes.rest.now };

    fn count(&self) -> usize {
        (self.all.len() + 63) / 64
    }

    fn next_block(&mut self) -> [u8; 64] {
        let mut block = [0; 64];
        'bytes: for i in 0..64 {
            block[i] = self.next();
        }
        block
    }
}

impl Blocks for Units<'_> {
    ghost use Rattle.des_passwords.specs.BmpStrings.{all_units, units_left};

    ghost text = { λ units. flat_map big_endian (all_units units) };

    ghost left = { λ units. flat_map big_endian (units_left units) };

    fn count(&self) -> usize {
        (Units::count(self) + 31) / 32
    }

    fn next_block(&mut self) -> [u8; 64] {
        let mut block = [0; 64];
        'units: for i in 0..32 {
            let unit = self.next();
            block[2 * i] = (unit / 256) as u8;
            block[2 * i + 1] = (unit % 256) as u8;
        }
        block
    }
}

// (I_j + B + 1) mod 2^v.
fn sum(block: &[u8; 64], b: &[u8; 64]) -> [u8; 64]
    ensures { result ≡ raised_by (Some b.now) block.now }
{
    let mut answer = *block;
    let mut carry = 1;
    'places: for i in (0..64).rev() {
        let sum = block[i] as u16 + b[i] as u16 + carry;
        answer[i] = (sum % 256) as u8;
        carry = sum / 256;
    }
    answer
}

// A block I_j, raised by B if there is one.
fn raised(block: [u8; 64], b: Option<[u8; 64]>) -> [u8; 64]
    ensures { result ≡ raised_by b block }
{
    match b {
        Some(b) => sum(&block, &b),
        None => block,
    }
}

// Adds copies of a text in the fewest blocks, each raised by B, to what is hashed.
fn add_blocks<H: HashFunction, T: Blocks>(hash: &mut H, text: &mut T, b: Option<[u8; 64]>)
    ensures { (m : List ℕ) → H.holds hash.old m → H.holds hash.new
        (m ++ flat_map (raised_by b) (first_chunks 64 ((length (T.text text.old) + 63) / 64)
        (copies (T.text text.old) (T.left text.old) (64 * ((length (T.text text.old) + 63) / 64))))) }
{
    let count = text.count();
    'steps: for _ in 0..count {
        let block = text.next_block();
        hash.add(&raised(block, b));
    }
}

// A = H^r (D || I), each block of I, which is S || P, raised by B.
fn write_a<H: HashFunction>(
    id: u8,
    password: &[u8],
    salt: &[u8],
    iterations: u32,
    b: Option<[u8; 64]>,
    a: &mut [u8],
)
    requires a { length a.old ≡ H.SIZE }
    requires iterations { 0 < iterations }
    ensures a { a.new ≡ a_of H.digest id iterations
        (all_raised_by b (in_blocks salt.now ++ in_blocks (bmp_string password.now))) }
    ensures length { length a.new ≡ H.SIZE }
{
    let mut hash = H::new();
    hash.add(&[id; 64]);
    add_blocks(&mut hash, &mut Bytes::new(salt), b);
    add_blocks(&mut hash, &mut Units::new(password), b);
    hash.write_digest(a);
    repeat::<H>(iterations, a);
}

/// Writes what PKCS #12 derives for an ID: 1 for a key, 2 for a vector, 3 for the key of a MAC; as
/// many bytes as the list has that you give, at most two digests. `NoIteration` if `iterations` is
/// 0; the list is then unchanged.
///
/// The password's characters are those that it spells in UTF-8. If it is no UTF-8, each byte is a
/// character, as OpenSSL takes it.
pub fn derive<H: HashFunction>(
    id: u8,
    password: &[u8],
    salt: &[u8],
    iterations: u32,
    bytes: &mut [u8],
) -> Result<(), DeriveError>
    requires { length bytes.old ≤ 2 * H.SIZE }
    ensures accepted { IsOk result ↔ (iterations ≢ 0) }
    ensures no_iteration { IsErrOf result DeriveError.NoIteration ↔ (iterations ≡ 0) }
    ensures ok { OnOk result (bytes.new ≡ pkcs12 H.digest H.SIZE id password.now salt.now
        iterations (length bytes.old)) }
    ensures err { OnErr result (bytes.new ≡ bytes.old) }
{
    if iterations == 0 {
        return Err(DeriveError::NoIteration);
    }
    let size = H::SIZE;
    let count = bytes.len();
    let mut digest = [0; 32];
    let first = &mut digest[..size];
    write_a::<H>(id, password, salt, iterations, None, first);
    if count <= size {
        bytes.copy_from_slice(&first[..count]);
        return Ok(());
    }
    let b = Bytes::new(first).next_block();
    let mut other = [0; 32];
    let second = &mut other[..size];
    write_a::<H>(id, password, salt, iterations, Some(b), second);
    let (front, back) = bytes.split_at_mut(size);
    front.copy_from_slice(first);
    back.copy_from_slice(&second[..count - size]);
    Ok(())
}

/// The key of `N` bytes and the vector of `pbeWithSHAAnd3-KeyTripleDES-CBC`, if `N` is 24, or of
/// `pbeWithSHAAnd2-KeyTripleDES-CBC`, if it is 16. `NoIteration` if `iterations` is 0.
pub fn key_and_vector<const N: usize>(
    password: &[u8],
    salt: &[u8],
    iterations: u32,
) -> Result<KeyAndVector<N>, DeriveError>
    requires { N ≤ 24 }
    ensures accepted { IsOk result ↔ (iterations ≢ 0) }
    ensures no_iteration { IsErrOf result DeriveError.NoIteration ↔ (iterations ≡ 0) }
    ensures key { IfOk result (λ both. both.key ≡ pkcs12 sha1 20 1 password.now salt.now iterations N) }
    ensures vector { IfOk result (λ both. both.vector
        ≡ pkcs12 sha1 20 2 password.now salt.now iterations 8) }
{
    let mut key = [0; N];
    derive::<Sha1>(1, password, salt, iterations, &mut key)?;
    let mut vector = [0; 8];
    derive::<Sha1>(2, password, salt, iterations, &mut vector)?;
    Ok(KeyAndVector { key, vector })
}
