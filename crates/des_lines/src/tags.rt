//! Tags that are shown or verified, and the status of an answer.

ghost use Rattle.std.specs.Prelude.{◌≡◌, ◌↔◌, ◌≤◌, length, take, IsTrue, IfOk};
ghost use Rattle.des_mac.specs.Tags.{IsTruncated};
ghost use Rattle.des_lines.specs.Tags.{status_after, tag_fault};
ghost use Rattle.des_lines.specs.PinLines.{IsVerdictLine};
ghost use Rattle.des_lines.specs.Faults.{FailsBy};
ghost use Rattle.des_lines.specs.Texts.{bytes_of as bytes_of_text, hex_line as hex_line_of};

use crate::digits::{decode, hex_line};
use crate::fault::FaultKind;
use des_mac::mac::verify_truncated_left;
use std::alloc::{AllocError, Global};

/// What is written of a tag or a PIN that is right, and of one that is wrong.
pub const RIGHT: &str = "right\n";

pub const WRONG: &str = "wrong\n";

/// The status that the program ends with: that of writing the answer, or 1 if the answer was
/// written and is no.
pub fn status_of(written: u8, is_no: bool) -> u8
    ensures { result ≡ status_after written is_no }
{
    if written == 0 && is_no { 1 } else { written }
}

/// The line that shows the first `count` bytes of a tag.
pub fn tag_line(alloc: Global, tag: &[u8; 8], count: u8) -> Result<Vec<u8>, AllocError>
    ensures { IfOk result (λ line. line.items ≡ hex_line_of (take count tag.now)) }
{
    hex_line(alloc, &tag[..std::cmp::min(count as usize, 8)])
}

// Whether these are the first 4 to 8 bytes of the tag.
fn verified(tag: &[u8; 8], given: &[u8]) -> bool
    ensures { IsTrue result ↔ IsTruncated given.now tag.now }
{
    verify_truncated_left(given, tag).is_ok()
}

/// The line of a verification, and whether it says no: it is right if these are the first 4 to 8
/// bytes of the tag.
pub fn verification(
    alloc: Global,
    tag: &[u8; 8],
    given: &[u8],
) -> Result<(Vec<u8>, bool), AllocError>
    ensures line { IfOk result (λ answer.
        IsVerdictLine (IsTruncated given.now tag.now) answer.0.items) }
    ensures no { IfOk result (λ answer. IsTrue answer.1 ↔ (¬ IsTruncated given.now tag.now)) }
{
    let is_right = verified(tag, given);
    let text = if is_right { RIGHT } else { WRONG };
    Ok((Vec::from_slice(alloc, text.as_bytes())?, !is_right))
}

/// The 4 to 8 bytes of a tag that hexadecimal digits write. Any other text is the fault `Tag`.
pub fn tag_of_digits(alloc: Global, digits: &[u8]) -> Result<Vec<u8>, FaultKind>
    ensures tag { IfOk result (λ tag. tag.items ≡ bytes_of_text digits.now) }
    ensures length { IfOk result (λ tag. (4 ≤ length tag.items) × (length tag.items ≤ 8)) }
    ensures fault { FailsBy (tag_fault digits.now) result }
{
    if digits.len() < 8 || digits.len() > 16 || digits.len() % 2 != 0 {
        return Err(FaultKind::Tag);
    }
    let mut buffer = [0u8; 8];
    let bytes = &mut buffer[..digits.len() / 2];
    decode(digits, bytes, FaultKind::Tag)?;
    Ok(Vec::from_slice(alloc, bytes)?)
}
