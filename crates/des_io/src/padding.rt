//! Padding of bytes to whole blocks, and back.

ghost use Rattle.std.specs.Prelude.{◌≡◌, ◌≢◌, ◌<◌, ◌≤◌, ◌%◌, ℕ, List, length, take, Some, IfSome};
ghost use Rattle.std.specs.Prelude.{IfNone};
ghost use Rattle.des_io.specs.PaddedBytes.{padded, taken_off as taken_off_of};
ghost use Rattle.des_io.specs.declared.padding.Padding.TheVariants.{Unpadded};

/// How bytes are made whole blocks.
#[derive(Clone, Copy, Debug, PartialEq, Eq)]
pub enum Padding {
    /// PKCS#7 (RFC 5652, section 6.3): as many bytes as are missing from a block, at least one,
    /// each their number.
    Pkcs7,
    /// ISO/IEC 7816-4: a byte 80 in hexadecimal digits, and as many zeros as are then missing.
    Iso7816,
    /// Zeros: as few zero bytes as make whole blocks, none after whole blocks. Nothing tells them
    /// from data, so decryption takes nothing off.
    Zeros,
    /// None: the bytes are whole blocks.
    Unpadded,
}

impl Padding {
    /// The padding that decryption takes off: `Unpadded` for `Zeros`, else this one.
    pub fn taken_off(self) -> Padding
        ensures { result ≡ taken_off_of self }
    {
        match self {
            Padding::Zeros => Padding::Unpadded,
            _ => self,
        }
    }
}

/// Writes the padding after the first `count` bytes of a buffer, and returns their number with it.
/// The buffer is whole blocks of 8 bytes, and longer than `count`.
pub fn pad(padding: Padding, bytes: &mut [u8], count: usize) -> usize
    requires capacity { count < length bytes.old }
    requires blocks { length bytes.old % 8 ≡ 0 }
    ensures within { result ≤ length bytes.new }
    ensures padded { take result bytes.new ≡ padded padding (take count bytes.old) }
{
    let end = count + 8 - count % 8;
    match padding {
        Padding::Pkcs7 => {
            bytes[count..end].fill((end - count) as u8);
            end
        }
        Padding::Iso7816 => {
            bytes[count] = 0x80;
            bytes[count + 1..end].fill(0);
            end
        }
        Padding::Zeros => {
            let end = count + (8 - count % 8) % 8;
            bytes[count..end].fill(0);
            end
        }
        Padding::Unpadded => count,
    }
}

// A block of the first bytes of another, and their padding.
fn padded_prefix(padding: Padding, block: &[u8; 8], count: usize) -> [u8; 8]
    requires padding { taken_off_of padding ≢ Unpadded }
    requires capacity { count < 8 }
    ensures { result ≡ padded padding (take count block.now) }
{
    let mut prefix = *block;
    pad(padding, &mut prefix, count);
    prefix
}

/// The number of bytes of the last block of padded bytes that stand before the padding that is
/// taken off; none if no bytes have this last block with it.
pub fn count_before(padding: Padding, block: &[u8; 8]) -> Option<usize>
    ensures found { IfSome result (λ count.
        (count ≤ 8) × (padded (taken_off_of padding) (take count block.now) ≡ block.now)) }
    ensures back { (bytes : List ℕ) → padded (taken_off_of padding) bytes ≡ block.now
        → result ≡ Some (length bytes) }
{
    let padding = padding.taken_off();
    if padding == Padding::Unpadded {
        return Some(8);
    }
    for count in 0..8 {
        if padded_prefix(padding, block, count) == *block {
            return Some(count);
        }
    }
    None
}
