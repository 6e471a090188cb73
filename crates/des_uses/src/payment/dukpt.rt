//! The key of a transaction, and a PIN block under it: what the clauses of `dukpt` and of
//! `encode_format_0` give to a caller.

ghost use Rattle.std.specs.Prelude.{◌≡◌, ℕ, List, IfOk, IfSome, IfNone};
ghost use Rattle.std.specs.Option.{option_or};
ghost use Rattle.std.specs.Result.{result_err};
ghost use Rattle.des.specs.Relations.{IsTheOne};
ghost use Rattle.des.specs.Triple.{EnciphersEde2};
ghost use Rattle.des_payment.specs.Dukpt.{initial_key as initial_key_of, pin_key as pin_key_of};
ghost use Rattle.des_payment.specs.Dukpt.{IsOfTransaction, transaction_key as transaction_key_of};
ghost use Rattle.des_payment.specs.PinBlocks.{IsFormat0, pin_fault, account_fault};

use des::cipher::{BlockCipherEncrypt, KeyInit};
use des_fast::TdesEde2;
use des_payment::dukpt::{initial_key, is_usable, pin_key, transaction_key};
use des_payment::pin_blocks::encode_format_0;
use des_payment::{Pin, PinError};

/// The key of a transaction; none if the key serial number is that of no transaction.
pub fn key_of_transaction(initial: &[u8; 16], serial: &[u8; 10]) -> Option<[u8; 16]>
    ensures made { IfSome result (λ key. IsOfTransaction serial.now
        × (key ≡ transaction_key_of initial.now serial.now)) }
    ensures none { IfNone result (¬ (IsOfTransaction serial.now)) }
{
    if !is_usable(serial) {
        return None;
    }
    Some(transaction_key(initial, serial))
}

/// The block of format 0 of a PIN and an account number, under the PIN key of a transaction: what
/// triple DES, in its EDE form, makes of the block in clear. The faults are those of the PIN, and
/// then those of the account number.
pub fn encrypted_pin(
    base: &[u8; 16],
    serial: &[u8; 10],
    pin: &[u8],
    account: &[u8],
) -> Result<[u8; 8], PinError>
    ensures fault { result_err result ≡ option_or (pin_fault pin.now) (account_fault account.now) }
    ensures block { IfOk result (λ block.
        let initial = initial_key_of base.now serial.now in
        let key = pin_key_of (transaction_key_of initial serial.now) in
        (clear : List ℕ) × IsFormat0 pin.now account.now clear
        × IsTheOne (λ encrypted. EnciphersEde2 key clear encrypted) block) }
{
    let key = pin_key(&transaction_key(&initial_key(base, serial), serial));
    let mut block = encode_format_0(&Pin::new(pin)?, account)?;
    TdesEde2::new(&key).encrypt_block(&mut block);
    Ok(block)
}
