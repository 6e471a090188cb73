//! Columns of old records, and keys of password-based encryption, once for every width.

ghost use Rattle.std.specs.Prelude.{◌≡◌, ◌≢◌, ◌↔◌, ◌⊎◌, ◌<◌, IsTrue, Some, None, length, sum};
ghost use Rattle.std.specs.List.{All, sum_by};
ghost use Rattle.des_columns.specs.Columns.{pieces};
ghost use Rattle.des_columns.specs.Mysql.{key_of};
ghost use Rattle.des_columns.specs.KeyFile.{keys_in};
ghost use Rattle.des_columns.specs.MysqlColumns.{Reads as ReadsMysql, ReadsByNumber, Writes as WritesMysql};
ghost use Rattle.des_columns.specs.PgcryptoColumns.{Reads as ReadsPgcrypto, scheme_of, Writes as WritesPgcrypto};
ghost use Rattle.des_columns.specs.Pbe.{algorithm_of, derived_by};
ghost use Rattle.des_columns.specs.Readings.{IsColumnRead};
ghost use Rattle.des_columns.specs.Writings.{IsColumnWritten, value_size};
ghost use Rattle.des_columns.specs.declared.pbe.Algorithm.{Algorithm};
ghost use Rattle.des_columns.specs.declared.pgcrypto.Scheme.{Scheme};
ghost use Rattle.des_context.specs.ColumnStatuses.{IsKeyNumber, IsPbeStatus, IsReadStatus, IsWriteStatus};

use crate::status::{
    ERR_ALGORITHM, ERR_BLOCKS, ERR_COUNTS, ERR_ITERATIONS, ERR_KEY_LENGTH, ERR_KEY_NUMBER,
    ERR_NOT_ENCRYPTED, ERR_PADDING, ERR_SALT_LENGTH, ERR_VALUES, OK,
};
use des_columns::column::fits;
use des_columns::form::ValueForm;
use des_columns::key_file::KeyFile;
use des_columns::pbe::{Algorithm, PbeError};
use des_columns::pgcrypto::Scheme;
use des_columns::{mysql, pgcrypto, status, writing};
use des_fast::many::Slice;

// The statuses of values in a column have the numbers that callers in C know.
const _: () = prove!(
    OK == status::OK
        && ERR_BLOCKS == status::ERR_BLOCKS
        && ERR_PADDING == status::ERR_PADDING
        && ERR_NOT_ENCRYPTED == status::ERR_NOT_ENCRYPTED
        && ERR_KEY_NUMBER == status::ERR_KEY_NUMBER
);

/// Reads values of MySQL and MariaDB under a key string, as `des_columns::mysql::decrypt_values`
/// does. The status is `ERR_COUNTS` if the lengths do not fit, and then nothing is written, and
/// `ERR_VALUES` if the status of some value is not `OK`.
pub fn mysql_decrypt_values<S: Slice>(
    password: &[u8],
    values: &[u8],
    lengths: &[usize],
    texts: &mut [u8],
    text_lengths: &mut [usize],
    statuses: &mut [i32],
) -> i32
    ensures status { IsReadStatus lengths.now values.now texts.old text_lengths.old statuses.old
        statuses.new result }
    ensures read { result ≢ ERR_COUNTS → IsColumnRead (ReadsMysql (key_of password.now))
        (pieces lengths.now values.now) texts.new text_lengths.new statuses.new }
    ensures kept { result ≡ ERR_COUNTS → (texts.new ≡ texts.old)
        × (text_lengths.new ≡ text_lengths.old) × (statuses.new ≡ statuses.old) }
{
    if !fits(values, lengths, texts, text_lengths, statuses) {
        return ERR_COUNTS;
    }
    let key = mysql::key_of(password);
    let all = mysql::decrypt_values::<S>(&key, values, lengths, texts, text_lengths, statuses);
    if all { OK } else { ERR_VALUES }
}

/// Reads values of MySQL and MariaDB, each under the key of the server's file that its first byte
/// names, as `des_columns::mysql::decrypt_values_by_file` does. `file` are the bytes of that file.
/// The status is as for `mysql_decrypt_values`.
pub fn mysql_decrypt_values_by_file<S: Slice>(
    file: &[u8],
    values: &[u8],
    lengths: &[usize],
    texts: &mut [u8],
    text_lengths: &mut [usize],
    statuses: &mut [i32],
) -> i32
    ensures status { IsReadStatus lengths.now values.now texts.old text_lengths.old statuses.old
        statuses.new result }
    ensures read { result ≢ ERR_COUNTS → IsColumnRead (ReadsByNumber (keys_in file.now))
        (pieces lengths.now values.now) texts.new text_lengths.new statuses.new }
    ensures kept { result ≡ ERR_COUNTS → (texts.new ≡ texts.old)
        × (text_lengths.new ≡ text_lengths.old) × (statuses.new ≡ statuses.old) }
{
    if !fits(values, lengths, texts, text_lengths, statuses) {
        return ERR_COUNTS;
    }
    let keys = KeyFile::read(file);
    let all = mysql::decrypt_values_by_file::<S>(
        &keys,
        values,
        lengths,
        texts,
        text_lengths,
        statuses,
    );
    if all { OK } else { ERR_VALUES }
}

/// Reads values of pgcrypto by a scheme of this name, as `des_columns::pgcrypto::decrypt_values`
/// does. The status is `ERR_ALGORITHM` if the name is none, and then nothing is written, and
/// otherwise as for `mysql_decrypt_values`.
pub fn pgcrypto_decrypt_values<S: Slice>(
    algorithm: &[u8],
    key: &[u8],
    iv: &[u8],
    values: &[u8],
    lengths: &[usize],
    texts: &mut [u8],
    text_lengths: &mut [usize],
    statuses: &mut [i32],
) -> i32
    ensures algorithm { (result ≡ ERR_ALGORITHM) ↔ (scheme_of algorithm.now ≡ None) }
    ensures status { result ≢ ERR_ALGORITHM → IsReadStatus lengths.now values.now texts.old
        text_lengths.old statuses.old statuses.new result }
    ensures read { result ≢ ERR_ALGORITHM → result ≢ ERR_COUNTS → (scheme : Scheme)
        → scheme_of algorithm.now ≡ Some scheme
        → IsColumnRead (ReadsPgcrypto scheme key.now iv.now) (pieces lengths.now values.now)
        texts.new text_lengths.new statuses.new }
    ensures kept { (result ≡ ERR_ALGORITHM) ⊎ (result ≡ ERR_COUNTS) → (texts.new ≡ texts.old)
        × (text_lengths.new ≡ text_lengths.old) × (statuses.new ≡ statuses.old) }
{
    let Some(scheme) = Scheme::of_name(algorithm) else {
        return ERR_ALGORITHM;
    };
    if !fits(values, lengths, texts, text_lengths, statuses) {
        return ERR_COUNTS;
    }
    let all = pgcrypto::decrypt_values::<S>(
        scheme,
        key,
        iv,
        values,
        lengths,
        texts,
        text_lengths,
        statuses,
    );
    if all { OK } else { ERR_VALUES }
}

// The status of a call that writes values of a form, by what it is given.
fn write_status(form: ValueForm, texts: &[u8], lengths: &[usize], values: &[u8]) -> i32
    ensures status { IsWriteStatus form lengths.now texts.now values.now result }
    ensures one { (result ≡ OK) ⊎ (result ≡ ERR_COUNTS) ⊎ (result ≡ ERR_BLOCKS) }
{
    if !writing::fits(form, texts, lengths, values) {
        ERR_COUNTS
    } else if !writing::are_whole(form, lengths) {
        ERR_BLOCKS
    } else {
        OK
    }
}

/// Writes values of MySQL and MariaDB under a key string, as `des_columns::mysql::encrypt_values`
/// does. The status is `ERR_KEY_NUMBER` if the number is not 0 to 9 or 127, and `ERR_COUNTS` if the
/// lengths do not fit, or the buffer is not exactly as long as the values; the buffer is then
/// unchanged.
pub fn mysql_encrypt_values<S: Slice>(
    password: &[u8],
    number: usize,
    texts: &[u8],
    lengths: &[usize],
    values: &mut [u8],
) -> i32
    ensures number { (result ≡ ERR_KEY_NUMBER) ↔ ¬ (IsKeyNumber number) }
    ensures status { result ≢ ERR_KEY_NUMBER
        → IsWriteStatus ValueForm.Mysql lengths.now texts.now values.old result }
    ensures written { result ≡ OK → IsColumnWritten (value_size ValueForm.Mysql)
        (WritesMysql (key_of password.now) number) (pieces lengths.now texts.now) values.new }
    ensures kept { result ≢ OK → values.new ≡ values.old }
{
    if number > 9 && number != 127 {
        return ERR_KEY_NUMBER;
    }
    let status = write_status(ValueForm::Mysql, texts, lengths, values);
    if status == OK {
        let key = mysql::key_of(password);
        mysql::encrypt_values::<S>(&key, number as u8, texts, lengths, values);
    }
    status
}

/// Writes values of pgcrypto by a scheme of this name, as `des_columns::pgcrypto::encrypt_values`
/// does. The status is `ERR_ALGORITHM` if the name is none, `ERR_COUNTS` as for
/// `mysql_encrypt_values`, and `ERR_BLOCKS` if the scheme has no padding and a text is not whole
/// blocks; the buffer is then unchanged.
pub fn pgcrypto_encrypt_values<S: Slice>(
    algorithm: &[u8],
    key: &[u8],
    iv: &[u8],
    texts: &[u8],
    lengths: &[usize],
    values: &mut [u8],
) -> i32
    ensures algorithm { (result ≡ ERR_ALGORITHM) ↔ (scheme_of algorithm.now ≡ None) }
    ensures status { (scheme : Scheme) → scheme_of algorithm.now ≡ Some scheme
        → IsWriteStatus scheme.form lengths.now texts.now values.old result }
    ensures written { result ≡ OK → (scheme : Scheme) → scheme_of algorithm.now ≡ Some scheme
        → IsColumnWritten (value_size scheme.form) (WritesPgcrypto scheme key.now iv.now)
        (pieces lengths.now texts.now) values.new }
    ensures kept { result ≢ OK → values.new ≡ values.old }
{
    let Some(scheme) = Scheme::of_name(algorithm) else {
        return ERR_ALGORITHM;
    };
    let status = write_status(scheme.form, texts, lengths, values);
    if status == OK {
        pgcrypto::encrypt_values::<S>(scheme, key, iv, texts, lengths, values);
    }
    status
}

/// Writes the key of a password and a salt, and the vector behind it, by the algorithm of this
/// name. The status is that of the first fault, and then the key is unchanged: `ERR_ALGORITHM`;
/// `ERR_KEY_LENGTH` if there are not as many bytes; `ERR_ITERATIONS` if there is no iteration, or
/// more than 2^32 - 1; `ERR_SALT_LENGTH` if Java's rule has a salt of other than 8 bytes.
pub fn pbe_key(
    algorithm: &[u8],
    iterations: usize,
    password: &[u8],
    salt: &[u8],
    key: &mut [u8],
) -> i32
    ensures status { IsPbeStatus (algorithm_of algorithm.now) iterations (length salt.now)
        (length key.old) result }
    ensures key { result ≡ OK → (by : Algorithm) → algorithm_of algorithm.now ≡ Some by
        → key.new ≡ derived_by by password.now salt.now iterations }
    ensures kept { result ≢ OK → key.new ≡ key.old }
{
    let Some(by) = Algorithm::of_name(algorithm) else {
        return ERR_ALGORITHM;
    };
    if key.len() != by.key_size() + 8 {
        return ERR_KEY_LENGTH;
    }
    let Ok(count) = u32::try_from(iterations) else {
        return ERR_ITERATIONS;
    };
    if count == 0 {
        return ERR_ITERATIONS;
    }
    match by.write_key(password, salt, count, key) {
        Ok(()) => OK,
        Err(PbeError::SaltLength) => ERR_SALT_LENGTH,
        Err(PbeError::Derive(_)) => ERR_ITERATIONS,
    }
}
