//! Columns of old records that are written, and read again.

ghost use Rattle.std.specs.Prelude.{◌≡◌, ◌≢◌, ◌+◌, ◌<◌, ◌↔◌, IsOk, IsSome, IsTrue, IfOk, OnOk, length, map, sum};
ghost use Rattle.std.specs.List.{All};
ghost use Rattle.std.specs.Simd.Lanes.{zip2};
ghost use Rattle.des_columns.specs.EncryptedBytes.{joined};
ghost use Rattle.des_columns.specs.Columns.{pieces};
ghost use Rattle.des_columns.specs.Forms.{filled_to};
ghost use Rattle.des_columns.specs.Jasypt.{value_size as string_size};
ghost use Rattle.des_columns.specs.PgcryptoColumns.{form_of, scheme_of};
ghost use Rattle.des_columns.specs.Writings.{IsTextSize, value_size};
ghost use Rattle.des_columns.specs.declared.form.ValueForm.TheVariants.{Mysql};

use des::cipher::{are_blocks, are_bytes};
use des_columns::pbe::{Algorithm, PbeError};
use des_columns::pgcrypto::Scheme;
use des_columns::{jasypt, mysql, pgcrypto};
use des_fast::many::Slice;

/// Writes the values of texts of a column of MySQL, and reads them under the same key: every text
/// comes back.
pub fn mysql_texts_again<S: Slice>(
    key: &[u8; 24],
    number: u8,
    texts: &[u8],
    lengths: &[usize],
    values: &mut [u8],
    value_lengths: &[usize],
    again: &mut [u8],
    again_lengths: &mut [usize],
    statuses: &mut [i32],
) -> bool
    requires number { number < 128 }
    requires whole { sum lengths.now ≡ length texts.now }
    requires sizes { value_lengths.now ≡ map (value_size Mysql) lengths.now }
    requires values { length values.old ≡ sum value_lengths.now }
    requires again { length again.old ≡ length values.old }
    requires again_lengths { length again_lengths.old ≡ length lengths.now }
    requires statuses { length statuses.old ≡ length lengths.now }
    ensures read { IsTrue result }
    ensures lengths { again_lengths.new ≡ lengths.now }
    ensures texts { again.new ≡ joined (zip2 (λ size text. filled_to size text) value_lengths.now
        (pieces lengths.now texts.now)) }
{
    mysql::encrypt_values::<S>(key, number, texts, lengths, values);
    mysql::decrypt_values::<S>(key, values, value_lengths, again, again_lengths, statuses)
}

/// Writes the values of texts of a column of pgcrypto by the scheme of a name, and reads them by
/// the same scheme, key and vector: every text comes back. `false` if no scheme has the name.
pub fn pgcrypto_texts_again<S: Slice>(
    name: &[u8],
    key: &[u8],
    iv: &[u8],
    texts: &[u8],
    lengths: &[usize],
    values: &mut [u8],
    value_lengths: &[usize],
    again: &mut [u8],
    again_lengths: &mut [usize],
    statuses: &mut [i32],
) -> bool
    requires whole { sum lengths.now ≡ length texts.now }
    requires fit { All (IsTextSize (form_of name.now)) lengths.now }
    requires sizes { value_lengths.now ≡ map (value_size (form_of name.now)) lengths.now }
    requires values { length values.old ≡ sum value_lengths.now }
    requires again { length again.old ≡ length values.old }
    requires again_lengths { length again_lengths.old ≡ length lengths.now }
    requires statuses { length statuses.old ≡ length lengths.now }
    ensures read { IsTrue result ↔ IsSome (scheme_of name.now) }
    ensures lengths { IsTrue result → again_lengths.new ≡ lengths.now }
    ensures texts { IsTrue result → again.new ≡ joined (zip2 (λ size text. filled_to size text)
        value_lengths.now (pieces lengths.now texts.now)) }
{
    let Some(by) = Scheme::of_name(name) else {
        return false;
    };
    are_bytes(key);
    are_bytes(iv);
    pgcrypto::encrypt_values::<S>(by, key, iv, texts, lengths, values);
    pgcrypto::decrypt_values::<S>(
        by,
        key,
        iv,
        values,
        value_lengths,
        again,
        again_lengths,
        statuses,
    )
}

/// Writes texts as strings of Jasypt under a password, each from a salt of its own, and reads them
/// under the same password: every text comes back. `Derive` if there is no iteration.
pub fn jasypt_texts_again(
    by: Algorithm,
    iterations: u32,
    password: &[u8],
    salts: &[[u8; 8]],
    texts: &[u8],
    lengths: &[usize],
    values: &mut [u8],
    value_lengths: &[usize],
    again: &mut [u8],
    again_lengths: &mut [usize],
    statuses: &mut [i32],
) -> Result<bool, PbeError>
    requires whole { sum lengths.now ≡ length texts.now }
    requires salts { length salts.now ≡ length lengths.now }
    requires sizes { value_lengths.now ≡ map (λ size. string_size (8 + size)) lengths.now }
    requires values { length values.old ≡ sum value_lengths.now }
    requires again { length again.old ≡ length values.old }
    requires again_lengths { length again_lengths.old ≡ length lengths.now }
    requires statuses { length statuses.old ≡ length lengths.now }
    ensures accepted { IsOk result ↔ (iterations ≢ 0) }
    ensures read { IfOk result (λ all. IsTrue all) }
    ensures lengths { OnOk result (again_lengths.new ≡ lengths.now) }
    ensures texts { OnOk result (again.new ≡ joined (zip2 (λ size text. filled_to size text)
        value_lengths.now (pieces lengths.now texts.now))) }
{
    are_blocks(salts);
    jasypt::encrypt_values(by, iterations, password, salts, texts, lengths, values)?;
    jasypt::decrypt_values(
        by,
        iterations,
        password,
        values,
        value_lengths,
        again,
        again_lengths,
        statuses,
    )
}
