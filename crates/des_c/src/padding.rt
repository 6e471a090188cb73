//! The exports of padding to whole blocks, and back.

ghost use Rattle.std.specs.Prelude.{◌≡◌, ◌≢◌, ◌↔◌, ◌⊎◌, ◌<◌, ◌≤◌, ℕ, List, length, take, drop};
ghost use Rattle.des_context.specs.Bytes.{AreWhole};
ghost use Rattle.des_io.specs.PaddedBytes.{padded};
ghost use Rattle.des_io.specs.declared.padding.Padding.{Padding};
ghost use Rattle.des_context.specs.Paddings.{IsMethod, IsNumberOf, padded_length_of};

use des_context::padding::{count_unpadded, padding_of};
use des_context::status::{ERR_BLOCKS, ERR_CAPACITY, ERR_PADDING, ERR_PADDING_METHOD, OK};
use des_io::padding::pad;

/// Pads the first `count` bytes of a buffer to whole blocks, by `PKCS7` or `ISO7816`. The status is
/// `ERR_PADDING_METHOD` for any other number and `ERR_CAPACITY` if the buffer is too short for the
/// padding, and then nothing is changed.
#[unsafe(no_mangle)]
pub extern "C" fn cukvashe_internal_pad(
    buffer: &mut [u8],
    count: usize,
    method: i32,
    padded_length: &mut usize,
) -> i32
    ensures accepted { (result ≡ OK)
        ↔ (IsMethod method × padded_length_of count ≤ length buffer.old) }
    ensures unknown { (result ≡ ERR_PADDING_METHOD) ↔ ¬ (IsMethod method) }
    ensures capacity { (result ≡ ERR_CAPACITY)
        ↔ (IsMethod method × length buffer.old < padded_length_of count) }
    ensures padded_length { result ≡ OK → padded_length.new ≡ padded_length_of count }
    ensures padded { result ≡ OK → (padding : Padding) → IsNumberOf method padding
        → take padded_length.new buffer.new ≡ padded padding (take count buffer.old) }
    ensures after { result ≡ OK
        → drop padded_length.new buffer.new ≡ drop padded_length.new buffer.old }
    ensures kept { result ≢ OK
        → (buffer.new ≡ buffer.old) × (padded_length.new ≡ padded_length.old) }
{
    let Some(padding) = padding_of(method) else {
        return ERR_PADDING_METHOD;
    };
    if count / 8 >= buffer.len() / 8 {
        return ERR_CAPACITY;
    }
    let end = 8 * (count / 8) + 8;
    *padded_length = pad(padding, &mut buffer[..end], count);
    OK
}

/// Writes the number of bytes before their padding, by `PKCS7` or `ISO7816`. The status is
/// `ERR_PADDING_METHOD` for any other number, `ERR_BLOCKS` if the bytes are not whole blocks, and
/// `ERR_PADDING` if they do not end with the padding, and then nothing is written.
#[unsafe(no_mangle)]
pub extern "C" fn cukvashe_unpad(bytes: &[u8], method: i32, unpadded_length: &mut usize) -> i32
    ensures accepted { (result ≡ OK) ↔ ((padding : Padding) × IsNumberOf method padding
        × ((plain : List ℕ) × padded padding plain ≡ bytes.now)) }
    ensures unknown { (result ≡ ERR_PADDING_METHOD) ↔ ¬ (IsMethod method) }
    ensures cut { (result ≡ ERR_BLOCKS) ↔ (IsMethod method × ¬ (AreWhole bytes.now)) }
    ensures others { (result ≡ OK) ⊎ (result ≡ ERR_PADDING_METHOD) ⊎ (result ≡ ERR_BLOCKS)
        ⊎ (result ≡ ERR_PADDING) }
    ensures unpadded { result ≡ OK → (padding : Padding) → IsNumberOf method padding
        → (unpadded_length.new ≤ length bytes.now)
        × (padded padding (take unpadded_length.new bytes.now) ≡ bytes.now) }
    ensures kept { result ≢ OK → unpadded_length.new ≡ unpadded_length.old }
{
    let Some(padding) = padding_of(method) else {
        return ERR_PADDING_METHOD;
    };
    if bytes.len() % 8 != 0 {
        return ERR_BLOCKS;
    }
    match count_unpadded(padding, bytes) {
        Some(count) => {
            *unpadded_length = count;
            OK
        }
        None => ERR_PADDING,
    }
}
