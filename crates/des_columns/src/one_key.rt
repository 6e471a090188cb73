//! Columns whose values are encrypted under one key.

ghost use Rattle.std.specs.Prelude.{◌≡◌, ◌↔◌, IsTrue, length, sum};
ghost use Rattle.std.specs.List.{All};
ghost use Rattle.des_columns.specs.Columns.{pieces};
ghost use Rattle.des_columns.specs.Readings.{IsColumnRead, IsReading};

use crate::column::Reader;
use crate::form::{BlockMode, ValueForm};
use crate::status::OK;
use crate::value_keys::OneKey;
use des::cipher::are_bytes;
use des_fast::many::{ManyBlocks, Slice};

/// Reads the values of a column under one key, one after another, of these lengths. Text k is
/// written where value k begins, before zeros, and its length; and status k, which is `OK` or why
/// value k has no text. Returns whether all are `OK`.
pub fn read_values<C: ManyBlocks + Drop, S: Slice>(
    key: &C::Key,
    form: ValueForm,
    mode: BlockMode,
    values: &[u8],
    lengths: &[usize],
    texts: &mut [u8],
    text_lengths: &mut [usize],
    statuses: &mut [i32],
) -> bool
    requires whole { sum lengths.now ≡ length values.now }
    requires texts { length texts.old ≡ length values.now }
    requires text_lengths { length text_lengths.old ≡ length lengths.now }
    requires statuses { length statuses.old ≡ length lengths.now }
    ensures read { IsColumnRead (IsReading form mode (C.relation (C.Key.bytes_of key.now)))
        (pieces lengths.now values.now) texts.new text_lengths.new statuses.new }
    ensures all { IsTrue result ↔ All (λ status. status ≡ OK) statuses.new }
{
    mode.has_vector();
    are_bytes(values);
    let reader = Reader {
        keys: OneKey {
            cipher: C::new(key),
        },
        form,
        mode,
    };
    reader.read::<S>(values, lengths, texts, text_lengths, statuses)
}
