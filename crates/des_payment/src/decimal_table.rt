//! Decimalization tables, by which digits of four bits become digits from 0 to 9.

ghost use Rattle.std.specs.Prelude.{◌≡◌, ◌<◌, ◌==◌, List, ℕ, map, slice_index, nat_lt, IsTrue};
ghost use Rattle.std.specs.List.{All, list_all, list_any};
ghost use Rattle.des_payment.specs.PinVerification.{variety as variety_of};

use crate::masks::entry_at;
use crate::texts::{check_number, to_values};
use crate::verification_error::VerificationError;
use std::alloc::AllocError;
use std::fmt;
use std::marker::Model;

/// A decimalization table: a digit from 0 to 9 for each digit of four bits.
#[derive(Drop)]
pub struct DecimalTable {
    digits: [u8; 16],
}

impl Model for DecimalTable {
    ghost Value = { List ℕ };

    ghost view = { λ table. table.digits };

    ghost invariant = { λ table. IsTrue (list_all (λ digit. nat_lt digit 10) table.digits) };
}

const DIGITS: [u8; 10] = [0, 1, 2, 3, 4, 5, 6, 7, 8, 9];

// The least number of different digits of a table, unless fewer are asked for.
const LEAST_VARIETY: usize = 8;

// Whether a table has a digit.
fn has(table: &[u8; 16], digit: u8) -> bool
    ensures { result ≡ list_any (λ other. other == digit) table.now }
{
    table.iter().any(|other| *other == digit)
}

// How many of the ten digits a table has.
fn variety(table: &[u8; 16]) -> usize
    ensures { result ≡ variety_of table.now }
{
    let mut count = 0;
    for digit in &DIGITS {
        count += has(table, *digit) as usize;
    }
    count
}

impl DecimalTable {
    ghost use Rattle.std.specs.Prelude.{IfOk};
    ghost use Rattle.std.specs.Result.{result_err};
    ghost use Rattle.des_payment.specs.Texts.{values};
    ghost use Rattle.des_payment.specs.PinVerification.{table_fault};

    // The table of a text, with at least `least` different digits.
    fn of_variety(least: usize, text: &[u8]) -> Result<DecimalTable, VerificationError>
        ensures fault { result_err result ≡ table_fault least text.now }
        ensures table { IfOk result (λ table. table ≡ values text.now) }
    {
        check_number(
            text,
            16,
            16,
            VerificationError::TableLength,
            VerificationError::TableDigit,
        )?;
        let mut digits = [0; 16];
        digits.copy_from_slice(text);
        to_values(&mut digits);
        if variety(&digits) < least {
            return Err(VerificationError::TableVariety);
        }
        Ok(DecimalTable { digits })
    }

    /// The table of sixteen ASCII digits, those that stand for 0 to 15 in this order. Its faults
    /// are `TableLength`, `TableDigit`, and `TableVariety` if there are fewer than eight different
    /// ones: with few, many PINs are right, and a chosen table lets a PIN be found out.
    pub fn new(text: &[u8]) -> Result<DecimalTable, VerificationError>
        ensures fault { result_err result ≡ table_fault 8 text.now }
        ensures table { IfOk result (λ table. table ≡ values text.now) }
    {
        DecimalTable::of_variety(LEAST_VARIETY, text)
    }

    /// Such a table with any number of different digits, for old systems that have one. Its faults
    /// are `TableLength` and `TableDigit`.
    pub fn of_any_variety(text: &[u8]) -> Result<DecimalTable, VerificationError>
        ensures fault { result_err result ≡ table_fault 0 text.now }
        ensures table { IfOk result (λ table. table ≡ values text.now) }
    {
        DecimalTable::of_variety(0, text)
    }

    // What the digits become. Every entry is read for each of them.
    pub(crate) fn decimalized(&self, digits: &[u8; 16]) -> [u8; 16]
        requires { All (λ digit. digit < 16) digits.now }
        ensures digits { result ≡ map (slice_index self.now) digits.now }
        ensures decimal { IsTrue (list_all (λ digit. nat_lt digit 10) result) }
    {
        let mut decimals = *digits;
        for digit in decimals.iter_mut() {
            *digit = entry_at(&self.digits, *digit);
        }
        decimals
    }
}

/// A copy. It takes no memory, and succeeds.
impl Clone for DecimalTable {
    ghost use Rattle.std.specs.Prelude.{⊤};

    ghost is_clone = { λ table other. other ≡ table };

    ghost is_infallible = { λ _. ⊤ };

    fn clone(&self) -> Result<DecimalTable, AllocError> {
        let digits = self.digits;
        Ok(DecimalTable { digits })
    }
}

/// Writes the type's name, and no digit, whatever options are set.
impl fmt::Debug for DecimalTable {
    ghost use Rattle.std.specs.Prelude.{codes, Some};
    ghost use Rattle.std.specs.Fmt.{DisplaysOnOk, DisplaysStyledOnOk};

    ghost debug_output = { λ _. Some (codes "DecimalTable { ... }") };

    fn fmt<W: fmt::Write>(&self, f: &mut fmt::Formatter<W>) -> fmt::Result
        ensures writes { DisplaysOnOk W.write_str_gives f.old result
            (Some (codes "DecimalTable { ... }")) f.new }
        ensures styled { DisplaysStyledOnOk W.write_str_gives f.old result
            (Some (codes "DecimalTable { ... }")) f.new }
    {
        f.write_str("DecimalTable { ... }")
    }
}
