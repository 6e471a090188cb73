//! Hexadecimal digits in upper case.

ghost use Rattle.std.specs.Prelude.{◌≡◌, ℕ, List, ◌*◌, ◌^◌, ◌<◌, ◌≤◌, length, IfSome, IfNone, IsTrue};
ghost use Rattle.des.specs.Blocks.{AreBytes};
ghost use Rattle.des_key_blocks.specs.Hex.{hex_of, hex_digit as hex_digit_of, hex_number as hex_number_of};

// The hexadecimal digit of a value.
pub(crate) fn hex_digit(value: u8) -> u8
    requires { value < 16 }
    ensures { result ≡ hex_digit_of value }
{
    if value < 10 {
        b'0' + value
    } else {
        b'A' + (value - 10)
    }
}

// The value of a hexadecimal digit.
pub(crate) fn hex_value(character: u8) -> Option<u8>
    ensures some { IfSome result (λ value. (value < 16) × (hex_digit_of value ≡ character)) }
    ensures none { IfNone result ((value : ℕ) → value < 16
        → ¬ (hex_digit_of value ≡ character)) }
{
    match character {
        b'0'..=b'9' => Some(character - b'0'),
        b'A'..=b'F' => Some(character - b'A' + 10),
        _ => None,
    }
}

// The number of at most four hexadecimal digits.
pub(crate) fn hex_number(text: &[u8]) -> Option<usize>
    requires { length text.now ≤ 4 }
    ensures within { IfSome result (λ number. number < 16 ^ length text.now) }
    ensures some { IfSome result (λ number.
        hex_number_of (length text.now) number ≡ text.now) }
    ensures none { IfNone result ((number : ℕ)
        → ¬ (hex_number_of (length text.now) number ≡ text.now)) }
{
    let mut number: usize = 0;
    for character in text {
        match hex_value(*character) {
            Some(digit) => number = 16 * number + digit as usize,
            None => return None,
        }
    }
    Some(number)
}

// Reads bytes in hexadecimal digits, two each, and says whether all are digits.
pub(crate) fn read_hex(text: &[u8], bytes: &mut [u8]) -> bool
    requires { length text.now ≡ 2 * length bytes.old }
    ensures read { IsTrue result → hex_of bytes.new ≡ text.now }
    ensures only { (read : List ℕ) → AreBytes read → hex_of read ≡ text.now → IsTrue result }
{
    for (i, byte) in bytes.iter_mut().enumerate() {
        match (hex_value(text[2 * i]), hex_value(text[2 * i + 1])) {
            (Some(high), Some(low)) => *byte = 16 * high + low,
            _ => return false,
        }
    }
    true
}

// Writes bytes in hexadecimal digits, two each.
pub(crate) fn write_hex(bytes: &[u8], text: &mut [u8])
    requires { length text.old ≡ 2 * length bytes.now }
    ensures { text.new ≡ hex_of bytes.now }
{
    for (i, byte) in bytes.iter().enumerate() {
        text[2 * i] = hex_digit(*byte / 16);
        text[2 * i + 1] = hex_digit(*byte % 16);
    }
}
