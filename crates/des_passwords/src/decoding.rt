//! Texts that are decoded in place, as they are read.

ghost use Rattle.std.specs.Prelude.{◌≡◌, ◌≤◌, ◌<◌, ℕ, Bool, Option, false, length, take, Ok};
ghost use Rattle.std.specs.Io.{ReadsAtMost};
ghost use Rattle.std.specs.Io.KnownBytes.{IsAtEnd};
ghost use Rattle.des_passwords.specs.Decoding.{after_all, Decodes, given_by, given_to, MarksFault};

use std::io::{self, ErrorKind, Read};

/// Where a text is that is decoded byte by byte.
pub(crate) trait Decoding: Copy {
    ghost given_of: { Self → ℕ → Option ℕ };

    ghost after_of: { Self → ℕ → Self };

    ghost is_stuck_of: { Self → Bool };

    // What the next byte of the text gives, if it gives something.
    fn given(self, byte: u8) -> Option<u8>
        ensures { result ≡ given_of self byte };

    // The position after that byte.
    fn after(self, byte: u8) -> Self
        ensures { result ≡ after_of self byte };

    // Whether nothing that follows gives anything.
    fn is_stuck(self) -> bool
        ensures { result ≡ is_stuck_of self };
}

// Moves what a text gives to its front, and returns how much that is.
fn squeeze<P: Decoding>(position: &mut P, text: &mut [u8]) -> usize
    ensures given { take result text.new ≡ given_by P.after_of P.given_of position.old text.old }
    ensures position { position.new ≡ after_all P.after_of position.old text.old }
    ensures bound { result ≤ length text.new }
    ensures size { length text.new ≡ length text.old }
{
    let mut kept = 0;
    'bytes: for at in 0..text.len() {
        let byte = text[at];
        if let Some(given) = position.given(byte) {
            text[kept] = given;
            kept += 1;
        }
        *position = position.after(byte);
    }
    kept
}

// Reads until something is given. Returns 0 at the reader's end, and if the text is stuck.
pub(crate) fn read_decoded<R: Read, P: Decoding>(
    inner: &mut R,
    position: &mut P,
    buf: &mut [u8],
) -> io::Result<usize>
    ensures bound { ReadsAtMost result buf.new }
    ensures decoded { Decodes P.after_of P.given_of (R.remaining inner.old) (R.remaining inner.new)
        position.old position.new (given_to result buf.new) }
    ensures ended { result ≡ Ok 0 → 0 < length buf.new → P.is_stuck_of position.new ≡ false
        → IsAtEnd (R.remaining inner.new) }
{
    'reads: for _ in 0..u64::MAX {
        let count = inner.read(buf)?;
        let kept = squeeze(position, &mut buf[..count]);
        if kept > 0 || count == 0 || position.is_stuck() {
            return Ok(kept);
        }
    }
    Err(io::Error::from(ErrorKind::Other))
}

// Marks a read that failed by what its text can't be.
pub(crate) fn mark_fault(outcome: &io::Result<usize>, is_malformed: &mut bool)
    ensures { MarksFault is_malformed.old outcome.now is_malformed.new }
{
    if let Err(error) = outcome {
        match error.kind() {
            ErrorKind::InvalidData => *is_malformed = true,
            _ => {}
        }
    }
}
