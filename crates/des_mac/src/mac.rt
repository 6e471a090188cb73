//! What the message authentication codes have in common.

ghost use Rattle.std.specs.Prelude.{◌≡◌, ◌↔◌, ◌≤◌, ◌<◌, ℕ, List, [], ◌++◌, length, codes, Some, IsTrue, IsOk, IfOk};
ghost use Rattle.des_mac.specs.Tags.{IsTruncated};

use des::cipher::InvalidLength;
use std::error::Error;
use std::fmt;

/// The error of a tag that is not the message's.
#[derive(Clone, Copy, Debug, PartialEq, Eq)]
pub struct MacError;

/// Writes the type's name, whatever options are set.
impl fmt::Display for MacError {
    ghost output = { λ _. Some (codes "MacError") };

    ghost styled_output = { λ _ _. Some (codes "MacError") };

    fn fmt<W: fmt::Write>(&self, f: &mut fmt::Formatter<W>) -> fmt::Result {
        f.write_str("MacError")
    }
}

impl Error for MacError {}

/// Whether two lists of bytes of one length are equal. Every byte is examined, wherever they
/// differ.
pub fn are_equal(bytes: &[u8], others: &[u8]) -> bool
    requires { length bytes.now ≡ length others.now }
    ensures { IsTrue result ↔ (bytes.now ≡ others.now) }
{
    let mut same = true;
    for (i, byte) in bytes.iter().enumerate() {
        same &= *byte == others[i];
    }
    same
}

/// Accepts the first 4 to 8 bytes of a tag and nothing else: `MacError` if they are others, and
/// if there are fewer or more of them. Every byte is looked at, wherever the two differ.
pub fn verify_truncated_left(tag: &[u8], whole: &[u8; 8]) -> Result<(), MacError>
    ensures { IsOk result ↔ IsTruncated tag.now whole.now }
{
    if tag.len() < 4 || tag.len() > 8 {
        return Err(MacError);
    }
    if are_equal(tag, &whole[..tag.len()]) {
        Ok(())
    } else {
        Err(MacError)
    }
}

/// A message authentication code with tags of 8 bytes, of a message that comes in pieces:
/// `new_from_slice`, an `update` for each piece, and then `finalize` or one of the calls that
/// verify a tag. No call takes memory or panics, and each byte of the message is read once.
pub trait Mac: Sized {
    // The size of a key in bytes.
    ghost key_size: { ℕ };

    // The tag of bytes under a key.
    ghost tag_of: { List ℕ → List ℕ → List ℕ };

    // The state is one under the key, and stands for the bytes that it was given.
    ghost holds: { Self → List ℕ → List ℕ → Type 0 };

    /// The state of the message of no bytes under the key, or `InvalidLength` if the key does
    /// not have as many bytes as a key has.
    fn new_from_slice(key: &[u8]) -> Result<Self, InvalidLength>
        ensures accepted { IsOk result ↔ (length key.now ≡ key_size) }
        ensures made { IfOk result (λ state. holds state key.now []) };

    /// Adds bytes to the message, after those that it has. However a message is cut into pieces,
    /// its tag is the same; a piece of no bytes changes nothing.
    fn update(&mut self, bytes: &[u8])
        ensures { (key m : List ℕ) → holds self.old key m
            → holds self.new key (m ++ bytes.now) };

    /// The tag of the message.
    fn finalize(self) -> [u8; 8]
        ensures { (key m : List ℕ) → holds self key m → result ≡ tag_of key m };

    /// Accepts the tag of the message and no other: `MacError` if it is another. Every byte is
    /// looked at, wherever the two differ; nothing is claimed on time.
    final fn verify(self, tag: &[u8; 8]) -> Result<(), MacError>
        ensures { (key m : List ℕ) → holds self key m
            → IsOk result ↔ (tag.now ≡ Self.tag_of key m) }
    {
        if are_equal(tag, &self.finalize()) {
            Ok(())
        } else {
            Err(MacError)
        }
    }

    /// Accepts the first 4 to 8 bytes of the tag of the message and nothing else: `MacError` if
    /// they are others, and if there are fewer or more of them.
    final fn verify_truncated_left(self, tag: &[u8]) -> Result<(), MacError>
        ensures { (key m : List ℕ) → holds self key m
            → IsOk result ↔ IsTruncated tag.now (Self.tag_of key m) }
    {
        verify_truncated_left(tag, &self.finalize())
    }

    /// The tag of a whole message under the key, or `InvalidLength` if the key does not have as
    /// many bytes as a key has.
    final fn mac(key: &[u8], bytes: &[u8]) -> Result<[u8; 8], InvalidLength>
        ensures accepted { IsOk result ↔ (length key.now ≡ key_size) }
        ensures tag { IfOk result (λ mac. mac ≡ Self.tag_of key.now bytes.now) }
    {
        let mut state = Self::new_from_slice(key)?;
        state.update(bytes);
        Ok(state.finalize())
    }
}
