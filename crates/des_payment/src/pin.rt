//! Personal identification numbers.

ghost use Rattle.std.specs.Prelude.{◌≡◌, ◌≤◌, List, ℕ, length, take, nat_lt, IsTrue};
ghost use Rattle.std.specs.List.{list_all};
ghost use Rattle.des_payment.specs.Texts.{IsPin, text_of, values};

use crate::pin_error::PinError;
use crate::texts::{check_number, to_text};
use std::alloc::AllocError;
use std::fmt;
use std::marker::Model;

/// A personal identification number (PIN): a text of 4 to 12 digits.
///
/// It has no equality: whoever compares PINs chooses how, by their texts, since a comparison that
/// ends at the first difference tells by its time where that is.
#[derive(Drop)]
pub struct Pin {
    text: [u8; 12],
    length: usize,
}

impl Model for Pin {
    ghost Value = { List ℕ };

    ghost view = { λ pin. take pin.length pin.text };

    ghost invariant = { λ pin. (pin.length ≤ 12) × IsPin (take pin.length pin.text) };
}

impl Pin {
    ghost use Rattle.std.specs.Prelude.{IfOk};
    ghost use Rattle.std.specs.Result.{result_err};
    ghost use Rattle.des_payment.specs.PinBlocks.{pin_fault};

    /// The PIN of these ASCII digits: `PinLength` if there are not 4 to 12 of them, `PinDigit`
    /// if one is none.
    pub fn new(text: &[u8]) -> Result<Pin, PinError>
        ensures fault { result_err result ≡ pin_fault text.now }
        ensures pin { IfOk result (λ pin. pin ≡ text.now) }
    {
        check_number(text, 4, 12, PinError::PinLength, PinError::PinDigit)?;
        let mut pin = [0; 12];
        pin[..text.len()].copy_from_slice(text);
        Ok(Pin {
            text: pin,
            length: text.len(),
        })
    }

    // The PIN of digits of these values.
    pub(crate) fn of_digits(digits: &[u8]) -> Pin
        requires at_least { 4 ≤ length digits.now }
        requires at_most { length digits.now ≤ 12 }
        requires digits { IsTrue (list_all (λ digit. nat_lt digit 10) digits.now) }
        ensures { result ≡ text_of digits.now }
    {
        let mut text = [0; 12];
        text[..digits.len()].copy_from_slice(digits);
        to_text(&mut text[..digits.len()]);
        Pin {
            text,
            length: digits.len(),
        }
    }

    // The PIN of the first of these digits, as many as are counted.
    pub(crate) fn of_first(count: usize, digits: &[u8; 12]) -> Pin
        requires at_least { 4 ≤ count }
        requires at_most { count ≤ 12 }
        requires digits { IsTrue (list_all (λ digit. nat_lt digit 10) digits.now) }
        ensures { result ≡ text_of (take count digits.now) }
    {
        let mut text = *digits;
        to_text(&mut text);
        Pin {
            text,
            length: count,
        }
    }

    // The number of its digits.
    pub(crate) fn count(&self) -> usize
        ensures count { result ≡ length self.now }
        ensures is_pin { IsPin self.now }
    {
        self.length
    }

    // The values of its digits, before others.
    pub(crate) fn values(&self) -> [u8; 12]
        ensures { take (length self.now) result ≡ values self.now }
    {
        let mut values = self.text;
        for character in values.iter_mut() {
            *character = character.saturating_sub(b'0');
        }
        values
    }

    /// Its ASCII digits.
    pub fn text(&self) -> &[u8]
        ensures text { result.now ≡ self.now }
        ensures is_pin { IsPin self.now }
    {
        &self.text[..self.length]
    }
}

/// A copy. It takes no memory, and succeeds.
impl Clone for Pin {
    ghost use Rattle.std.specs.Prelude.{⊤};

    ghost is_clone = { λ pin other. other ≡ pin };

    ghost is_infallible = { λ _. ⊤ };

    fn clone(&self) -> Result<Pin, AllocError> {
        let text = self.text;
        Ok(Pin {
            text,
            length: self.length,
        })
    }
}

/// Writes the type's name, and no digit, whatever options are set.
impl fmt::Debug for Pin {
    ghost use Rattle.std.specs.Prelude.{codes, Some};
    ghost use Rattle.std.specs.Fmt.{DisplaysOnOk, DisplaysStyledOnOk};

    ghost debug_output = { λ _. Some (codes "Pin { ... }") };

    fn fmt<W: fmt::Write>(&self, f: &mut fmt::Formatter<W>) -> fmt::Result
        ensures writes { DisplaysOnOk W.write_str_gives f.old result
            (Some (codes "Pin { ... }")) f.new }
        ensures styled { DisplaysStyledOnOk W.write_str_gives f.old result
            (Some (codes "Pin { ... }")) f.new }
    {
        f.write_str("Pin { ... }")
    }
}
