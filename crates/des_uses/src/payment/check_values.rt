//! The check value of a key of triple DES, by the relation that the standard defines: what the
//! clauses of `check_value` give to a caller.

ghost use Rattle.std.specs.Prelude.{◌≡◌, ◌↔◌, ℕ, List, take, replicate, IsOk, IfOk, IsTrue};
ghost use Rattle.des.specs.Triple.{EnciphersEde3};
ghost use Rattle.des_payment.specs.KeyLengths.{is_key};

use des::TdesEde3;
use des::cipher::InvalidLength;
use des_payment::{check_value, key_check_value, short_key_check_value};

/// The check value of a key of 24 bytes: the first three bytes of what FIPS 46-3 makes of the block
/// of zeros under it.
pub fn check_value_of_ede3(key: &[u8; 24]) -> [u8; 3]
    ensures { (encrypted : List ℕ) → EnciphersEde3 key.now (replicate 8 0) encrypted
        → result ≡ take 3 encrypted }
{
    check_value::<TdesEde3>(key).unwrap()
}

/// Both check values of a key of any of the lengths: the shorter is the first two bytes of the
/// other.
pub fn both_values(key: &[u8]) -> Result<([u8; 3], [u8; 2]), InvalidLength>
    ensures accepted { IsOk result ↔ IsTrue (is_key key.now) }
    ensures values { IfOk result (λ values. values.1 ≡ take 2 values.0) }
{
    Ok((key_check_value(key)?, short_key_check_value(key)?))
}
