//! Values that `DES_ENCRYPT` of MySQL, up to 5.7, and of MariaDB wrote: a byte that names the key,
//! and the text by triple DES under CBC from zeros.

ghost use Rattle.std.specs.Prelude.{◌≡◌, ◌<◌, ◌↔◌, length, sum, IsTrue};
ghost use Rattle.std.specs.List.{All, sum_by};
ghost use Rattle.des_columns.specs.Columns.{pieces};
ghost use Rattle.des_columns.specs.MysqlColumns.{Reads, ReadsByNumber, Writes};
ghost use Rattle.des_columns.specs.Readings.{IsColumnRead};
ghost use Rattle.des_columns.specs.Writings.{IsColumnWritten, value_size};

use crate::column::Reader;
use crate::form::{BlockMode, ValueForm};
use crate::key_file::KeyFile;
pub use crate::key_file::key_of;
use crate::one_key::read_values;
use crate::status::OK;
use crate::writing::write_values;
use des::cipher::are_bytes;
use des_fast::TdesEde3;
use des_fast::many::Slice;

/// Writes the values of texts of a column under a key of this number, 0 to 9 of the server's file
/// or 127 of a key string, one after another. An empty text has the empty value; a text of n bytes
/// has one of (n / 8 + 1) * 8 + 1.
pub fn encrypt_values<S: Slice>(
    key: &[u8; 24],
    number: u8,
    texts: &[u8],
    lengths: &[usize],
    values: &mut [u8],
)
    requires number { number < 128 }
    requires whole { sum lengths.now ≡ length texts.now }
    requires values { length values.old ≡ sum_by (value_size ValueForm.Mysql) lengths.now }
    ensures { IsColumnWritten (value_size ValueForm.Mysql) (Writes key.now number)
        (pieces lengths.now texts.now) values.new }
{
    let mode = BlockMode::Cbc([0; 8]);
    write_values::<TdesEde3, S>(key, ValueForm::Mysql, number, mode, texts, lengths, values);
}

/// Reads the values of a column under the key of a key string, or under one key of the server's
/// file, as `one_key::read_values` does. A status is `ERR_NOT_ENCRYPTED` if the server takes the
/// value for plaintext and returns it as it is, and `ERR_PADDING` if the last byte is above 8, as
/// mostly under a wrong key, and the server returns `NULL`. As on the server, the key number in the
/// first byte and the other bytes of the padding are ignored, a last byte of 0 removes nothing, and
/// an empty value is an empty text.
pub fn decrypt_values<S: Slice>(
    key: &[u8; 24],
    values: &[u8],
    lengths: &[usize],
    texts: &mut [u8],
    text_lengths: &mut [usize],
    statuses: &mut [i32],
) -> bool
    requires whole { sum lengths.now ≡ length values.now }
    requires texts { length texts.old ≡ length values.now }
    requires text_lengths { length text_lengths.old ≡ length lengths.now }
    requires statuses { length statuses.old ≡ length lengths.now }
    ensures read { IsColumnRead (Reads key.now) (pieces lengths.now values.now)
        texts.new text_lengths.new statuses.new }
    ensures all { IsTrue result ↔ All (λ status. status ≡ OK) statuses.new }
{
    let mode = BlockMode::Cbc([0; 8]);
    read_values::<TdesEde3, S>(
        key,
        ValueForm::Mysql,
        mode,
        values,
        lengths,
        texts,
        text_lengths,
        statuses,
    )
}

/// Reads values of a column, each under the key of the server's file that its first byte names.
/// `statuses` has `ERR_KEY_NUMBER` if the file has none of this number, as of a value that was
/// encrypted under a key string. All else is as of `decrypt_values`.
pub fn decrypt_values_by_file<S: Slice>(
    file: &KeyFile,
    values: &[u8],
    lengths: &[usize],
    texts: &mut [u8],
    text_lengths: &mut [usize],
    statuses: &mut [i32],
) -> bool
    requires whole { sum lengths.now ≡ length values.now }
    requires texts { length texts.old ≡ length values.now }
    requires text_lengths { length text_lengths.old ≡ length lengths.now }
    requires statuses { length statuses.old ≡ length lengths.now }
    ensures read { IsColumnRead (ReadsByNumber file.now.keys) (pieces lengths.now values.now)
        texts.new text_lengths.new statuses.new }
    ensures all { IsTrue result ↔ All (λ status. status ≡ OK) statuses.new }
{
    file.are_keys();
    are_bytes(values);
    let reader = Reader {
        keys: KeyFile { keys: file.keys },
        form: ValueForm::Mysql,
        mode: BlockMode::Cbc([0; 8]),
    };
    reader.read::<S>(values, lengths, texts, text_lengths, statuses)
}
