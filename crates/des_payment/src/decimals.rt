//! Decimal digits that are taken from digits of four bits.

ghost use Rattle.std.specs.Prelude.{◌≡◌, ◌<◌, ◌≤◌, take, length, IsTrue};
ghost use Rattle.std.specs.List.{All, list_all};
ghost use Rattle.des_payment.specs.CardVerification.{is_decimal, decimals_first};

use crate::masks::write_at;

// The first N digits in this order: those below ten, and then the others, less ten. Each digit is
// written, and one that is not taken is overwritten by the next, so that no branch depends on it.
pub(crate) fn first_decimals<const N: usize>(digits: &[u8]) -> [u8; N]
    requires few { N ≤ length digits.now }
    requires digits { All (λ digit. digit < 16) digits.now }
    ensures value { result ≡ take N (decimals_first digits.now) }
    ensures decimal { IsTrue (list_all is_decimal result) }
{
    let mut value = [0; N];
    let mut count = 0;
    for digit in digits {
        write_at(&mut value, count, *digit);
        count += (*digit < 10) as usize;
    }
    for digit in digits {
        write_at(&mut value, count, digit.saturating_sub(10));
        count += (*digit >= 10) as usize;
    }
    value
}
