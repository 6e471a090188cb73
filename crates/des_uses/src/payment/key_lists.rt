//! Check values of many keys and keys of many transactions, by the clauses of the calls for lists.

ghost use Rattle.std.specs.Prelude.{◌≡◌, ◌↔◌, length, map, take, replicate, IsOk, OnOk, OnErr};
ghost use Rattle.des.specs.TripleCiphers.{ede3_encryption};
ghost use Rattle.des_payment.specs.Dukpt.{initial_key as initial_key_of, transaction_key as transaction_key_of};

use des::cipher::NotEqualError;
use des_fast::TdesEde3;
use des_payment::check_value_lists::check_values_by;
use des_payment::transaction_lists::transaction_keys_by;
use std::simd::prelude::*;

/// The keys of the transactions of many terminals, as a host needs them.
pub fn keys_of_host(
    base: &[u8; 16],
    serials: &[[u8; 10]],
    keys: &mut [[u8; 16]],
) -> Result<(), NotEqualError>
    ensures keys { OnOk result (keys.new ≡ map
        (λ serial. transaction_key_of (initial_key_of base.now serial) serial) serials.now) }
    ensures same { OnErr result (keys.new ≡ keys.old) }
{
    transaction_keys_by::<u64x4>(base, serials, keys)
}

/// The check values of keys of 24 bytes.
pub fn check_values_of_ede3(keys: &[[u8; 24]], values: &mut [[u8; 3]]) -> Result<(), NotEqualError>
    ensures accepted { IsOk result ↔ (length keys.now ≡ length values.old) }
    ensures values { OnOk result (values.new ≡ map
        (λ key. take 3 (ede3_encryption key (replicate 8 0))) keys.now) }
{
    check_values_by::<u64x2, TdesEde3>(keys, values)
}
