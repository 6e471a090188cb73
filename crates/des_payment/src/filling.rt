//! The first digits of a PIN, followed by other digits or by zeros. No branch depends on how many
//! there are: the digits are moved as one number, by shifts. (Selecting digit by digit, even with a
//! mask, the compiler emits jumps.)

ghost use Rattle.std.specs.Prelude.{◌≡◌, ℕ, ◌-◌, ◌*◌, ◌%◌, ◌^◌, ◌<◌, ◌≤◌, ◌++◌, nat_lt, if◌then◌else◌, length, take, slice_index};
ghost use Rattle.std.specs.List.{All};
ghost use Rattle.des_payment.specs.Digits.{digit_in};

// Digits of four bits as one number, the first the highest. Of each byte it takes the lowest four
// bits.
fn number_of(digits: &[u8]) -> u64
    requires { length digits.now ≤ 12 }
    ensures small { result < 2 ^ (4 * length digits.now) }
    ensures digits { (i : ℕ) → i < length digits.now
        → digit_in result (length digits.now) i ≡ slice_index digits.now i % 16 }
{
    let mut number = 0;
    for digit in digits {
        number = 16 * number + (*digit % 16) as u64;
    }
    number
}

// The first `count` digits as one number. Not inlined: the compiler joins two such shifts into one
// of a vector, which the search for secret indexes reports as a use of the count.
#[inline(never)]
fn first_of(count: usize, digits: &[u8]) -> u64
    requires some { count ≤ length digits.now }
    requires few { length digits.now ≤ 12 }
    ensures small { result < 2 ^ (4 * count) }
    ensures digits { (i : ℕ) → i < count
        → digit_in result count i ≡ slice_index digits.now i % 16 }
{
    number_of(digits) >> (4 * (digits.len() - count))
}

// The digits of a number.
fn to_digits<const N: usize>(number: u64) -> [u8; N]
    requires { N ≤ 16 }
    ensures long { length result ≡ N }
    ensures digits { (k : ℕ) → k < N → slice_index result k ≡ digit_in number N k }
{
    let mut digits = [0; N];
    for (k, digit) in digits.iter_mut().enumerate() {
        *digit = ((number >> (4 * (N - (k + 1)))) % 16) as u8;
    }
    digits
}

// The digits of a PIN of `count` digits, and then fill digits to the fourteenth.
pub(crate) fn filled(count: usize, values: &[u8; 12], fill: &[u8; 10]) -> [u8; 14]
    requires at_least { 4 ≤ count }
    requires at_most { count ≤ 12 }
    requires values { All (λ digit. digit < 16) (take count values.now) }
    requires fill { All (λ digit. digit < 16) fill.now }
    ensures { result ≡ take count values.now ++ take (14 - count) fill.now }
{
    let front = first_of(count, values) << (4 * (14 - count));
    to_digits(front + first_of(14 - count, fill))
}

// The first of twelve digits, as many as are counted, and then zeros.
pub(crate) fn first_or_zeros(count: usize, digits: &[u8]) -> [u8; 12]
    requires count { count ≤ 12 }
    requires twelve { length digits.now ≡ 12 }
    ensures long { length result ≡ 12 }
    ensures digits { (k : ℕ) → k < 12 → slice_index result k
        ≡ (if nat_lt k count then slice_index digits.now k % 16 else 0) }
{
    to_digits(first_of(count, digits) << (4 * (12 - count)))
}
