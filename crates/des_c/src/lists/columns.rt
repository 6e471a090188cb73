//! The exports of columns of old records.

ghost use Rattle.std.specs.Prelude.{◌≡◌, ◌≢◌, ◌↔◌, ◌⊎◌, Some, None};
ghost use Rattle.des_columns.specs.Columns.{pieces};
ghost use Rattle.des_columns.specs.Mysql.{key_of};
ghost use Rattle.des_columns.specs.KeyFile.{keys_in};
ghost use Rattle.des_columns.specs.MysqlColumns.{Reads as ReadsMysql, ReadsByNumber, Writes as WritesMysql};
ghost use Rattle.des_columns.specs.PgcryptoColumns.{Reads as ReadsPgcrypto, scheme_of, Writes as WritesPgcrypto};
ghost use Rattle.des_columns.specs.Readings.{IsColumnRead};
ghost use Rattle.des_columns.specs.Writings.{IsColumnWritten, value_size};
ghost use Rattle.des_columns.specs.declared.form.ValueForm.TheVariants.{Mysql};
ghost use Rattle.des_columns.specs.declared.pgcrypto.Scheme.{Scheme};
ghost use Rattle.des_context.specs.ColumnStatuses.{IsKeyNumber, IsReadStatus, IsWriteStatus};

use super::Width;
use des_context::columns::{
    mysql_decrypt_values, mysql_decrypt_values_by_file, mysql_encrypt_values,
    pgcrypto_decrypt_values, pgcrypto_encrypt_values,
};
use des_context::status::{ERR_ALGORITHM, ERR_COUNTS, ERR_KEY_NUMBER, OK};

/// Reads values of MySQL and MariaDB under a key string, as `des_columns::mysql::decrypt_values`
/// does. The status is `ERR_COUNTS` if the lengths do not fit, and then nothing is written, and
/// `ERR_VALUES` if the status of some value is not `OK`.
#[unsafe(no_mangle)]
pub extern "C" fn cukvashe_internal_mysql_decrypt_values(
    password: &[u8],
    values: &[u8],
    lengths: &[usize],
    texts: &mut [u8],
    text_lengths: &mut [usize],
    statuses: &mut [i32],
) -> i32
    ensures status { IsReadStatus lengths.now values.now texts.old text_lengths.old statuses.old
        statuses.new result }
    ensures read { result ≢ ERR_COUNTS → IsColumnRead (ReadsMysql (key_of password.now))
        (pieces lengths.now values.now) texts.new text_lengths.new statuses.new }
    ensures kept { result ≡ ERR_COUNTS → (texts.new ≡ texts.old)
        × (text_lengths.new ≡ text_lengths.old) × (statuses.new ≡ statuses.old) }
{
    mysql_decrypt_values::<Width>(password, values, lengths, texts, text_lengths, statuses)
}

/// Reads values of MySQL and MariaDB, each under the key of the server's file that its first byte
/// names, as `des_columns::mysql::decrypt_values_by_file` does. The status is as for
/// `mysql_decrypt_values`.
#[unsafe(no_mangle)]
pub extern "C" fn cukvashe_internal_mysql_decrypt_values_by_file(
    keys: &[u8],
    values: &[u8],
    lengths: &[usize],
    texts: &mut [u8],
    text_lengths: &mut [usize],
    statuses: &mut [i32],
) -> i32
    ensures status { IsReadStatus lengths.now values.now texts.old text_lengths.old statuses.old
        statuses.new result }
    ensures read { result ≢ ERR_COUNTS → IsColumnRead (ReadsByNumber (keys_in keys.now))
        (pieces lengths.now values.now) texts.new text_lengths.new statuses.new }
    ensures kept { result ≡ ERR_COUNTS → (texts.new ≡ texts.old)
        × (text_lengths.new ≡ text_lengths.old) × (statuses.new ≡ statuses.old) }
{
    mysql_decrypt_values_by_file::<Width>(keys, values, lengths, texts, text_lengths, statuses)
}

/// Reads values of pgcrypto by a scheme of this name, as `des_columns::pgcrypto::decrypt_values`
/// does. The status is `ERR_ALGORITHM` if the name is none, and then nothing is written, and
/// otherwise as for `mysql_decrypt_values`.
#[unsafe(no_mangle)]
pub extern "C" fn cukvashe_internal_pgcrypto_decrypt_values(
    algorithm: &[u8],
    key: &[u8],
    iv: &[u8],
    values: &[u8],
    lengths: &[usize],
    texts: &mut [u8],
    text_lengths: &mut [usize],
    statuses: &mut [i32],
) -> i32
    ensures algorithm { (result ≡ ERR_ALGORITHM) ↔ (scheme_of algorithm.now ≡ None) }
    ensures status { result ≢ ERR_ALGORITHM → IsReadStatus lengths.now values.now texts.old
        text_lengths.old statuses.old statuses.new result }
    ensures read { result ≢ ERR_ALGORITHM → result ≢ ERR_COUNTS → (scheme : Scheme)
        → scheme_of algorithm.now ≡ Some scheme
        → IsColumnRead (ReadsPgcrypto scheme key.now iv.now) (pieces lengths.now values.now)
        texts.new text_lengths.new statuses.new }
    ensures kept { (result ≡ ERR_ALGORITHM) ⊎ (result ≡ ERR_COUNTS) → (texts.new ≡ texts.old)
        × (text_lengths.new ≡ text_lengths.old) × (statuses.new ≡ statuses.old) }
{
    pgcrypto_decrypt_values::<Width>(
        algorithm,
        key,
        iv,
        values,
        lengths,
        texts,
        text_lengths,
        statuses,
    )
}

/// Writes values of MySQL and MariaDB under a key string, as `des_columns::mysql::encrypt_values`
/// does. The status is `ERR_KEY_NUMBER` if the number is not 0 to 9 or 127, and `ERR_COUNTS` if the
/// lengths do not fit, or the buffer is not exactly as long as the values; the buffer is then
/// unchanged.
#[unsafe(no_mangle)]
pub extern "C" fn cukvashe_internal_mysql_encrypt_values(
    password: &[u8],
    number: usize,
    texts: &[u8],
    lengths: &[usize],
    values: &mut [u8],
) -> i32
    ensures number { (result ≡ ERR_KEY_NUMBER) ↔ ¬ (IsKeyNumber number) }
    ensures status { result ≢ ERR_KEY_NUMBER
        → IsWriteStatus Mysql lengths.now texts.now values.old result }
    ensures written { result ≡ OK → IsColumnWritten (value_size Mysql)
        (WritesMysql (key_of password.now) number) (pieces lengths.now texts.now) values.new }
    ensures kept { result ≢ OK → values.new ≡ values.old }
{
    mysql_encrypt_values::<Width>(password, number, texts, lengths, values)
}

/// Writes values of pgcrypto by a scheme of this name, as `des_columns::pgcrypto::encrypt_values`
/// does. The status is `ERR_ALGORITHM` if the name is none, `ERR_COUNTS` as for
/// `mysql_encrypt_values`, and `ERR_BLOCKS` if the scheme has no padding and a text is not whole
/// blocks; the buffer is then unchanged.
#[unsafe(no_mangle)]
pub extern "C" fn cukvashe_internal_pgcrypto_encrypt_values(
    algorithm: &[u8],
    key: &[u8],
    iv: &[u8],
    texts: &[u8],
    lengths: &[usize],
    values: &mut [u8],
) -> i32
    ensures algorithm { (result ≡ ERR_ALGORITHM) ↔ (scheme_of algorithm.now ≡ None) }
    ensures status { (scheme : Scheme) → scheme_of algorithm.now ≡ Some scheme
        → IsWriteStatus scheme.form lengths.now texts.now values.old result }
    ensures written { result ≡ OK → (scheme : Scheme) → scheme_of algorithm.now ≡ Some scheme
        → IsColumnWritten (value_size scheme.form) (WritesPgcrypto scheme key.now iv.now)
        (pieces lengths.now texts.now) values.new }
    ensures kept { result ≢ OK → values.new ≡ values.old }
{
    pgcrypto_encrypt_values::<Width>(algorithm, key, iv, texts, lengths, values)
}
