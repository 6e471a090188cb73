//! The check digits of account numbers (ISO/IEC 7812-1, Annex B).

ghost use Rattle.std.specs.Prelude.{◌≡◌, ◌≤◌, ◌<◌, length};
ghost use Rattle.des_lines.specs.CheckDigits.{weighed as weighed_of, has_check_digit as has_check_digit_of, is_account as is_account_of};

use des_payment::are_digits;

// What a digit adds to the sum if `following` digits follow it: itself, or the digits of its
// double.
fn weighed(following: usize, value: u32) -> u32
    requires { value < 256 }
    ensures value { result ≡ weighed_of following value }
    ensures small { result < 256 }
{
    if following % 2 == 0 {
        value
    } else {
        2 * value / 10 + 2 * value % 10
    }
}

/// Whether the last of an account number's digits is its check digit.
pub fn has_check_digit(digits: &[u8]) -> bool
    requires { length digits.now ≤ 4096 }
    ensures { result ≡ has_check_digit_of digits.now }
{
    let mut sum = 0u32;
    for (i, digit) in digits.iter().enumerate() {
        sum += weighed(digits.len() - 1 - i, digit.saturating_sub(b'0') as u32);
    }
    sum % 10 == 0
}

/// Whether a text is an account number: 8 to 19 digits.
pub fn is_account(text: &[u8]) -> bool
    ensures { result ≡ is_account_of text.now }
{
    text.len() >= 8 && text.len() <= 19 && are_digits(text)
}
