//! Numbers as texts: slices of ASCII digits.

ghost use Rattle.std.specs.Prelude.{◌≡◌, IsTrue, nat_lt, OnOk};
ghost use Rattle.std.specs.List.{list_all};
ghost use Rattle.std.specs.Result.{result_err};
ghost use Rattle.des_payment.specs.Texts.{are_digits as are_digits_of, values, text_of, IsNumber, number_fault};

/// Whether each character is a digit. Each is looked at, wherever one is none.
pub fn are_digits(text: &[u8]) -> bool
    ensures { result ≡ are_digits_of text.now }
{
    let mut all = true;
    for character in text {
        all &= character.is_ascii_digit();
    }
    all
}

// The digits become their values.
pub(crate) fn to_values(text: &mut [u8])
    requires { IsTrue (are_digits_of text.old) }
    ensures { text.new ≡ values text.old }
{
    for character in text.iter_mut() {
        *character -= b'0';
    }
}

// The values of digits become the digits.
pub(crate) fn to_text(digits: &mut [u8])
    requires { IsTrue (list_all (λ digit. nat_lt digit 10) digits.old) }
    ensures { digits.new ≡ text_of digits.old }
{
    for digit in digits.iter_mut() {
        *digit += b'0';
    }
}

// Whether a text is a number of `least` to `most` digits: its fault, if it has one.
pub(crate) fn check_number<E: Copy + Drop>(
    text: &[u8],
    least: usize,
    most: usize,
    length_fault: E,
    digit_fault: E,
) -> Result<(), E>
    ensures fault { result_err result ≡ number_fault least most length_fault digit_fault text.now }
    ensures number { OnOk result (IsNumber least most text.now) }
{
    if text.len() < least || most < text.len() {
        return Err(length_fault);
    }
    if !are_digits(text) {
        return Err(digit_fault);
    }
    Ok(())
}
