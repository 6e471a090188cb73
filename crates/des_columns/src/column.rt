//! Columns: values, one after another, read together. The blocks of many of them are decrypted as
//! one list, in a buffer of 1,024 blocks on the stack; a value that is longer goes by itself.

ghost use Rattle.std.specs.Prelude.{◌≡◌, ◌≤◌, ◌%◌, ◌↔◌, ◌∷◌, ℕ, IsTrue, List, length, sum};
ghost use Rattle.std.specs.List.{All};
ghost use Rattle.des_columns.specs.Forms.{part_of};
ghost use Rattle.des_columns.specs.Columns.{AreDecrypted, ReadsAs, deciphered, fault_under, pieces, plain_of};
ghost use Rattle.des_columns.specs.Readings.{IsColumnRead};

use crate::form::{BlockMode, ValueForm, finish};
use crate::status::{ERR_KEY_NUMBER, OK};
use crate::value_keys::ValueKeys;
use crate::waiting::Waiting;
use des_fast::many::{Slice, add_up_to};

// The blocks that are decrypted together.
const BLOCKS: usize = 1024;

/// How the values of a column are read: under which keys, from which form, and by which mode.
#[derive(Drop)]
pub(crate) struct Reader<K> {
    pub keys: K,
    pub form: ValueForm,
    pub mode: BlockMode,
}

impl<K: ValueKeys> Reader<K> {
    // Why a value has no text, but for its padding.
    fn fault_of(&self, value: &[u8]) -> Option<i32>
        ensures { result
            ≡ fault_under (K.has_key self.now.keys value.now) self.now.form value.now }
    {
        let fault = self.form.fault_before(value);
        if self.keys.has_key_for(value) {
            fault
        } else {
            fault.or(Some(ERR_KEY_NUMBER))
        }
    }

    // Decrypts the blocks of values together, from the first on, as long as they fit the buffer;
    // unless some wait there.
    #[tactic(auto, using(std::proofs::lemmas::List::Sums::sum_by_more_le))]
    fn refill<S: Slice>(
        &self,
        values: &[u8],
        lengths: &[usize],
        waiting: &mut Waiting,
        buffer: &mut [[u8; 8]],
    )
        requires whole { sum lengths.now ≡ length values.now }
        requires few { length buffer.old ≤ K.MAX_BLOCKS }
        requires waiting { AreDecrypted self.now.form (K.decryption self.now.keys)
            (pieces lengths.now values.now) waiting.old buffer.old }
        ensures { AreDecrypted self.now.form (K.decryption self.now.keys)
            (pieces lengths.now values.now) waiting.new buffer.new }
    {
        if waiting.count > 0 {
            return;
        }
        let mut count = 0;
        let mut bytes = 0;
        let mut blocks = 0;
        'values: while count < lengths.len() {
            let value = &values[bytes..bytes + lengths[count]];
            let (more, _) = self.form.part_of(value).as_chunks::<8>();
            if more.len() > buffer.len() - blocks {
                break;
            }
            buffer[blocks..blocks + more.len()].copy_from_slice(more);
            count += 1;
            bytes += value.len();
            blocks += more.len();
        }
        let answers = &mut buffer[..blocks];
        self.keys
            .decrypt_values::<S>(self.form, values, &lengths[..count], answers);
        *waiting = Waiting { count, first: 0 };
    }

    /// Decrypts whole blocks of a value in place, however many they are, as many at a time as the
    /// buffer takes.
    pub(crate) fn decipher<S: Slice>(&self, value: &[u8], bytes: &mut [u8], buffer: &mut [[u8; 8]])
        requires whole { length bytes.old % 8 ≡ 0 }
        requires buffer { 1 ≤ length buffer.old }
        ensures { bytes.new ≡ deciphered self.now.mode
            (K.decryption self.now.keys value.now) bytes.old }
    {
        let mut mode = self.mode;
        let mut from = 0;
        'parts: while from < bytes.len() / 8 {
            let count = buffer.len().min(bytes.len() / 8 - from);
            let part = &mut bytes[from * 8..(from + count) * 8];
            let (blocks, _) = part.as_chunks::<8>();
            let answers = &mut buffer[..count];
            answers.copy_from_slice(blocks);
            self.keys.decrypt_part::<S>(value, answers);
            mode = mode.xor_previous(blocks, answers);
            part.copy_from_slice(answers.as_flattened());
            from += count;
        }
    }

    // Writes what the next value is, decrypted: by its blocks in the buffer, if it waits there.
    fn decrypt_next<S: Slice>(
        &self,
        value: &[u8],
        waiting: &mut Waiting,
        buffer: &mut [[u8; 8]],
        plain: &mut [u8],
    )
        requires buffer { 1 ≤ length buffer.old }
        requires waiting { (others : List (List ℕ)) × AreDecrypted self.now.form
            (K.decryption self.now.keys) (value.now ∷ others) waiting.old buffer.old }
        requires plain { length plain.old ≡ length (part_of self.now.form value.now) }
        ensures plain { plain.new
            ≡ plain_of self.now.form self.now.mode (K.decryption self.now.keys) value.now }
        ensures waiting { (others : List (List ℕ)) → AreDecrypted self.now.form
            (K.decryption self.now.keys) (value.now ∷ others) waiting.old buffer.old
            → AreDecrypted self.now.form (K.decryption self.now.keys) others waiting.new buffer.new }
    {
        let part = self.form.part_of(value);
        if waiting.count == 0 {
            plain.copy_from_slice(part);
            self.decipher::<S>(value, plain, buffer);
            return;
        }
        let (blocks, _) = part.as_chunks::<8>();
        let first = waiting.first;
        let end = first + blocks.len();
        waiting.count -= 1;
        waiting.first = end;
        let answers = &mut buffer[first..end];
        self.mode.xor_previous(blocks, answers);
        plain.copy_from_slice(answers.as_flattened());
    }

    /// Reads the values of a column, one after another, of these lengths. Text k is written where
    /// value k begins, before zeros, and its length; and status k, which is `OK` or why value k has
    /// no text. Returns whether all of them are `OK`.
    #[tactic(auto, using(std::proofs::lemmas::List::Sums::sum_by_more_le))]
    pub(crate) fn read<S: Slice>(
        &self,
        values: &[u8],
        lengths: &[usize],
        texts: &mut [u8],
        text_lengths: &mut [usize],
        statuses: &mut [i32],
    ) -> bool
        requires whole { sum lengths.now ≡ length values.now }
        requires texts { length texts.old ≡ length values.now }
        requires text_lengths { length text_lengths.old ≡ length lengths.now }
        requires statuses { length statuses.old ≡ length lengths.now }
        ensures read { IsColumnRead (ReadsAs self.now.form self.now.mode (K.has_key self.now.keys)
            (K.decryption self.now.keys)) (pieces lengths.now values.now)
            texts.new text_lengths.new statuses.new }
        ensures all { IsTrue result ↔ All (λ status. status ≡ OK) statuses.new }
    {
        let mut buffer = [[0; 8]; BLOCKS];
        let buffer = &mut buffer[..K::MAX_BLOCKS];
        let mut waiting = Waiting { count: 0, first: 0 };
        let mut start = 0;
        'values: for k in 0..lengths.len() {
            self.refill::<S>(&values[start..], &lengths[k..], &mut waiting, buffer);
            let end = start + lengths[k];
            let value = &values[start..end];
            let count = self.form.part_of(value).len();
            let place = &mut texts[start..end];
            self.decrypt_next::<S>(value, &mut waiting, buffer, &mut place[..count]);
            let reading = finish(self.form, self.fault_of(value), count, place);
            text_lengths[k] = reading.length;
            statuses[k] = reading.status;
            start = end;
        }
        are_ok(statuses)
    }
}

/// Whether each status is `OK`.
pub(crate) fn are_ok(statuses: &[i32]) -> bool
    ensures { IsTrue result ↔ All (λ status. status ≡ OK) statuses.now }
{
    statuses.iter().all(|status| *status == OK)
}

/// Whether the arguments of a call over a column fit: the lengths add up to the bytes of the
/// values, the buffer for texts is as long, and each value has a length and a status of its own to
/// be written.
pub fn fits(
    values: &[u8],
    lengths: &[usize],
    texts: &[u8],
    text_lengths: &[usize],
    statuses: &[i32],
) -> bool
    ensures { IsTrue result ↔ (sum lengths.now ≡ length values.now)
        × (length texts.now ≡ length values.now) × (length text_lengths.now ≡ length lengths.now)
        × (length statuses.now ≡ length lengths.now) }
{
    add_up_to(lengths, values.len())
        && texts.len() == values.len()
        && text_lengths.len() == lengths.len()
        && statuses.len() == lengths.len()
}
