//! Tags by any MAC: what the clauses of `Mac` and the law of `UnambiguousPadding` give to generic
//! code.

ghost use Rattle.std.specs.Prelude.{◌≡◌, ◌↔◌, length, IsOk, IfOk, IsTrue};
ghost use Rattle.des_mac.specs.Padding.{padded};
ghost use Rattle.des_mac.specs.Tags.{IsTruncated};

use des::cipher::InvalidLength;
use des_mac::{Mac, UnambiguousPadding};

/// The tag of a message under a key, or `InvalidLength` if the key does not have as many bytes
/// as a key has.
pub fn tag<M: Mac>(key: &[u8], message: &[u8]) -> Result<[u8; 8], InvalidLength>
    ensures accepted { IsOk result ↔ (length key.now ≡ M.key_size) }
    ensures tag { IfOk result (λ tag. tag ≡ M.tag_of key.now message.now) }
{
    M::mac(key, message)
}

/// Whether these 8 bytes are the tag of a message under a key.
pub fn accepts_whole<M: Mac>(
    key: &[u8],
    message: &[u8],
    tag: &[u8; 8],
) -> Result<bool, InvalidLength>
    ensures accepted { IsOk result ↔ (length key.now ≡ M.key_size) }
    ensures whole { IfOk result (λ is_tag.
        IsTrue is_tag ↔ (tag.now ≡ M.tag_of key.now message.now)) }
{
    let mut state = M::new_from_slice(key)?;
    state.update(message);
    Ok(state.verify(tag).is_ok())
}

/// Whether these bytes, however many, are the first 4 to 8 of the tag of a message under a key.
pub fn accepts<M: Mac>(key: &[u8], message: &[u8], tag: &[u8]) -> Result<bool, InvalidLength>
    ensures accepted { IsOk result ↔ (length key.now ≡ M.key_size) }
    ensures truncated { IfOk result (λ is_prefix.
        IsTrue is_prefix ↔ IsTruncated tag.now (M.tag_of key.now message.now)) }
{
    let mut state = M::new_from_slice(key)?;
    state.update(message);
    Ok(state.verify_truncated_left(tag).is_ok())
}

/// A function for the proof alone: two messages whose padded bytes are the same are one message.
pub fn are_one_message<P: UnambiguousPadding>(message: &[u8], other: &[u8])
    requires { padded P.padding_after message.now ≡ padded P.padding_after other.now }
    ensures { message.now ≡ other.now }
{}
