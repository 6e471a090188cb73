//! Base64 (RFC 4648, section 4), decoded and encoded in place, since there is no other buffer.

ghost use Rattle.std.specs.Prelude.{◌≡◌, ◌≤◌, ◌+◌, ◌*◌, ◌-◌, ◌/◌, ℕ, List, None, length, take, drop, IfSome};
ghost use Rattle.std.specs.List.{filter};
ghost use Rattle.base64.specs.Engines.{standard};
ghost use Rattle.base64.specs.GeneralPurpose.{encode_of};
ghost use Rattle.des_columns.specs.Jasypt.{Encodes, is_character};

use base64::engine::general_purpose::STANDARD;
use des::cipher::are_bytes;

/// Writes the characters of a text, all but white space, to the front of a place, and returns how
/// many.
pub(crate) fn write_characters(text: &[u8], place: &mut [u8]) -> usize
    requires { length text.now ≤ length place.old }
    ensures characters { take result place.new ≡ filter is_character text.now }
    ensures within { result ≤ length text.now }
{
    let mut count = 0;
    'bytes: for k in 0..text.len() {
        let byte = text[k];
        if !byte.is_ascii_whitespace() {
            place[count] = byte;
            count += 1;
        }
    }
    count
}

/// Writes the bytes that characters encode to their front, and returns how many. `None` if they are
/// no Base64.
pub(crate) fn decode(characters: &mut [u8]) -> Option<usize>
    ensures some { IfSome result (λ size. Encodes (take size characters.new) characters.old) }
    ensures within { IfSome result (λ size. size ≤ length characters.new) }
    ensures none { result ≡ None → (bytes : List ℕ) → ¬ (Encodes bytes characters.old) }
{
    if characters.len() % 4 != 0 {
        return None;
    }
    let groups = characters.len() / 4;
    let mut size = 0;
    'groups: for group in 0..groups {
        let mut symbols = [0; 4];
        symbols.copy_from_slice(&characters[4 * group..4 * group + 4]);
        are_bytes(&symbols);
        let mut bytes = [0; 3];
        let Ok(count) = STANDARD.decode_slice_unchecked(&symbols, &mut bytes) else {
            return None;
        };
        // Only the last group may have padding.
        if count < 3 && group + 1 < groups {
            return None;
        }
        characters[size..size + count].copy_from_slice(&bytes[..count]);
        size += count;
    }
    are_bytes(&characters[..size]);
    Some(size)
}

/// Encodes the bytes at the end of a buffer, from `start` on, into the whole buffer.
pub(crate) fn encode(start: usize, place: &mut [u8])
    requires start { start ≤ length place.old }
    requires size { length place.old ≡ (length place.old - start + 2) / 3 * 4 }
    ensures { place.new ≡ encode_of standard (drop start place.old) }
{
    'groups: for group in 0..place.len() / 4 {
        let from = start + 3 * group;
        let count = (place.len() - from).min(3);
        let mut bytes = [0; 3];
        bytes[..count].copy_from_slice(&place[from..from + count]);
        let _ = STANDARD.encode_slice(&bytes[..count], &mut place[4 * group..4 * group + 4]);
    }
}
