//! Columns, written under one key: the values of texts, one after another. Short ones are encrypted
//! in step, a block of each at a time, as records of `des_fast` are; a longer one goes by itself.

ghost use Rattle.std.specs.Prelude.{◌≡◌, ◌≤◌, ◌<◌, ◌+◌, ◌*◌, ◌/◌, ◌%◌, ◌^◌, ◌++◌, ◌↔◌, ◌∷◌, ℕ, List, IsTrue, length, map, replicate, sum, take};
ghost use Rattle.std.specs.List.{All, sum_by};
ghost use Rattle.des_fast.specs.Records.{record_of};
ghost use Rattle.des_fast.specs.SpreadKeys.{AreSpreadKeys};
ghost use Rattle.des_columns.specs.Columns.{pieces};
ghost use Rattle.des_columns.specs.EncryptedBytes.{AreEncrypted, IsEncrypted, joined};
ghost use Rattle.des_columns.specs.Forms.{mode_after};
ghost use Rattle.des_columns.specs.Waiting.{AreInTurn};
ghost use Rattle.des_columns.specs.Writings.{AreEnciphered, IsColumnWritten, IsTextSize, IsWriting, padded_by, size_in_blocks, value_size};

use crate::form::{BlockMode, ValueForm};
use crate::waiting::Waiting;
use des::cbc::next_vector;
use des_fast::many::{ManyBlocks, Slice, SpreadKeys, SpreadOnce, add_up_to};

// The blocks that are encrypted together, and the texts.
const BLOCKS: usize = 1024;

const TEXTS: usize = 256;

// A step of all texts takes about as long as so many blocks one by one.
const FEW: usize = 4;

// The most blocks of a text that goes with others: of longer ones too few fit.
const LONGEST: usize = 128;

impl ValueForm {
    // How many bytes the value of a text of `size` bytes has.
    fn value_size(self, size: usize) -> usize
        requires { size < 2 ^ 63 }
        ensures { result ≡ value_size self size }
    {
        match self {
            ValueForm::Mysql if size == 0 => 0,
            ValueForm::Mysql => (size / 8 + 1) * 8 + 1,
            ValueForm::Pkcs7 => (size / 8 + 1) * 8,
            ValueForm::Unpadded => size,
        }
    }

    // Writes a text and its padding.
    fn write_padded(self, text: &[u8], bytes: &mut [u8])
        requires size { IsTextSize self (length text.now) }
        requires count { length bytes.old ≡ value_size self (length text.now) / 8 * 8 }
        ensures { bytes.new ≡ padded_by self text.now }
    {
        let count = 8 - (text.len() % 8) as u8;
        let filler = match self {
            ValueForm::Mysql => b'*',
            _ => count,
        };
        let (front, padding) = bytes.split_at_mut(text.len());
        front.copy_from_slice(text);
        let (fillers, last) = padding.split_at_mut(padding.len().saturating_sub(1));
        fillers.fill(filler);
        last.fill(count);
    }
}

// Writes a text and its padding as blocks, over a place of as many bytes.
fn write_blocks(form: ValueForm, text: &[u8], place: &mut [u8], blocks: &mut [[u8; 8]])
    requires size { IsTextSize form (length text.now) }
    requires place { length place.old ≡ value_size form (length text.now) / 8 * 8 }
    requires blocks { length blocks.old ≡ value_size form (length text.now) / 8 }
    ensures { joined blocks.new ≡ padded_by form text.now }
{
    form.write_padded(text, place);
    let (padded, _) = place.as_chunks::<8>();
    blocks.copy_from_slice(padded);
}

// The texts that were gathered: how many, how many blocks they have, and the longest.
#[derive(Clone, Copy)]
struct Gathered {
    count: usize,
    blocks: usize,
    longest: usize,
}

// Writes the first texts with their padding into the buffer, as long as they fit, and how many
// blocks each has into `sizes`. What was in the places of their values is written over.
fn gather(
    form: ValueForm,
    texts: &[u8],
    lengths: &[usize],
    values: &mut [u8],
    sizes: &mut [usize],
    buffer: &mut [[u8; 8]],
) -> Gathered
    requires whole { sum lengths.now ≡ length texts.now }
    requires fit { All (IsTextSize form) lengths.now }
    requires values { length values.old ≡ sum_by (value_size form) lengths.now }
    ensures count { result.count ≤ length sizes.old }
    ensures end { result.count ≤ length lengths.now }
    ensures blocks { result.blocks ≤ length buffer.old }
    ensures sizes { take result.count sizes.new
        ≡ map (λ text. size_in_blocks form text) (take result.count (pieces lengths.now texts.now)) }
    ensures whole { result.blocks ≡ sum (take result.count sizes.new) }
    ensures padded { AreInTurn (size_in_blocks form) (λ text blocks. joined blocks ≡ padded_by form text)
        (take result.count (pieces lengths.now texts.now)) (take result.blocks buffer.new) }
{
    let mut count = 0;
    let mut bytes = 0;
    let mut blocks = 0;
    let mut span = 0;
    let mut longest = 0;
    'texts: while count < lengths.len() && count < sizes.len() {
        let text = &texts[bytes..bytes + lengths[count]];
        let value_size = form.value_size(text.len());
        let size = value_size / 8;
        let capacity = LONGEST.min(buffer.len() - blocks);
        if size > capacity {
            break;
        }
        let place = &mut values[span..span + size * 8];
        write_blocks(form, text, place, &mut buffer[blocks..blocks + size]);
        sizes[count] = size;
        count += 1;
        bytes += text.len();
        blocks += size;
        span += value_size;
        longest = longest.max(size);
    }
    Gathered {
        count,
        blocks,
        longest,
    }
}

/// How the values of a column are written: by which cipher, into which form, under which number of
/// a key, and by which mode.
#[derive(Drop)]
pub(crate) struct Writer<C> {
    pub cipher: C,
    pub form: ValueForm,
    pub number: u8,
    pub mode: BlockMode,
}

impl<C: ManyBlocks + Drop> Writer<C> {
    // Encrypts blocks in place, and returns the mode of those that come after them.
    fn encrypt<S: Slice>(&self, mode: BlockMode, blocks: &mut [[u8; 8]]) -> BlockMode
        ensures encrypted { (key : List ℕ) → C.is_made_from self.now.cipher key
            → AreEncrypted mode (C.relation key) blocks.old blocks.new }
        ensures mode { result ≡ mode_after mode blocks.new }
    {
        match mode {
            BlockMode::Ecb => {
                self.cipher.encrypt_list_by::<S>(true, blocks);
                mode
            }
            BlockMode::Cbc(iv) => {
                self.cipher.encrypt_cbc_list(true, &iv, blocks);
                BlockMode::Cbc(next_vector(&iv, blocks))
            }
        }
    }

    // Encrypts whole blocks in place, however many they are, as many at a time as the buffer takes.
    fn encipher<S: Slice>(&self, bytes: &mut [u8], buffer: &mut [[u8; 8]])
        requires whole { length bytes.old % 8 ≡ 0 }
        requires buffer { 1 ≤ length buffer.old }
        ensures { (key : List ℕ) → C.is_made_from self.now.cipher key
            → IsEncrypted self.now.mode (C.relation key) bytes.old bytes.new }
    {
        let mut mode = self.mode;
        let mut from = 0;
        'parts: while from < bytes.len() / 8 {
            let count = buffer.len().min(bytes.len() / 8 - from);
            let part = &mut bytes[from * 8..(from + count) * 8];
            let (blocks, _) = part.as_chunks::<8>();
            let answers = &mut buffer[..count];
            answers.copy_from_slice(blocks);
            mode = self.encrypt::<S>(mode, answers);
            part.copy_from_slice(answers.as_flattened());
            from += count;
        }
    }

    // Writes what stands before the blocks of a value.
    fn write_head(&self, head: &mut [u8])
        requires { self.now.number < 128 }
        ensures { head.new ≡ replicate (length head.old) (128 + self.now.number) }
    {
        head.fill(128 + self.number);
    }

    /// Writes the value of a text, however long it is.
    pub(crate) fn write_value<S: Slice>(
        &self,
        text: &[u8],
        value: &mut [u8],
        buffer: &mut [[u8; 8]],
    )
        requires number { self.now.number < 128 }
        requires size { IsTextSize self.now.form (length text.now) }
        requires value { length value.old ≡ value_size self.now.form (length text.now) }
        requires buffer { 1 ≤ length buffer.old }
        ensures { (key : List ℕ) → C.is_made_from self.now.cipher key
            → IsWriting self.now.form self.now.number self.now.mode (C.relation key) text.now value.new }
    {
        let (head, bytes) = value.split_at_mut(value.len() % 8);
        self.write_head(head);
        self.form.write_padded(text, bytes);
        self.encipher::<S>(bytes, buffer);
    }
}

impl<C: SpreadOnce + Drop> Writer<C> {
    // Encrypts records of blocks in place, in step.
    fn encrypt_records<S: Slice>(
        &self,
        keys: &SpreadKeys<S>,
        sizes: &[usize],
        blocks: &mut [[u8; 8]],
    )
        requires keys { AreSpreadKeys S.BATCH S.bit keys.now (C.encrypted self.now.cipher)
            (C.decrypted self.now.cipher) }
        requires count { length sizes.now ≤ 256 }
        requires whole { sum sizes.now ≡ length blocks.old }
        ensures { (key : List ℕ) (k : ℕ) → C.is_made_from self.now.cipher key
            → k < length sizes.now → AreEncrypted self.now.mode (C.relation key)
            (record_of sizes.now blocks.old k) (record_of sizes.now blocks.new k) }
    {
        match self.mode {
            BlockMode::Ecb => self.cipher.encrypt_list_by::<S>(true, blocks),
            BlockMode::Cbc(iv) => {
                let mut vectors = [iv; TEXTS];
                let _ = keys.encrypt_cbc_records(&mut vectors[..sizes.len()], sizes, blocks);
            }
        }
    }

    // Writes a value of these blocks.
    fn join_value(&self, blocks: &[[u8; 8]], value: &mut [u8])
        requires number { self.now.number < 128 }
        requires value { length value.old / 8 ≡ length blocks.now }
        ensures { value.new
            ≡ replicate (length value.old % 8) (128 + self.now.number) ++ joined blocks.now }
    {
        let (head, bytes) = value.split_at_mut(value.len() % 8);
        self.write_head(head);
        bytes.copy_from_slice(blocks.as_flattened());
    }

    // Encrypts texts in step, from the first on, as long as they fit the buffer, if this is worth
    // it; unless some wait there. What was in the places of their values is written over.
    fn refill<S: Slice>(
        &self,
        keys: &SpreadKeys<S>,
        texts: &[u8],
        lengths: &[usize],
        values: &mut [u8],
        waiting: &mut Waiting,
        buffer: &mut [[u8; 8]],
    )
        requires keys { AreSpreadKeys S.BATCH S.bit keys.now (C.encrypted self.now.cipher)
            (C.decrypted self.now.cipher) }
        requires whole { sum lengths.now ≡ length texts.now }
        requires fit { All (IsTextSize self.now.form) lengths.now }
        requires values { length values.old ≡ sum_by (value_size self.now.form) lengths.now }
        requires waiting { AreEnciphered self.now.form self.now.mode (C.is_made_from self.now.cipher)
            C.relation (pieces lengths.now texts.now) waiting.old buffer.old }
        ensures { AreEnciphered self.now.form self.now.mode (C.is_made_from self.now.cipher)
            C.relation (pieces lengths.now texts.now) waiting.new buffer.new }
    {
        if waiting.count > 0 {
            return;
        }
        let mut sizes = [0; TEXTS];
        let taken = gather(self.form, texts, lengths, values, &mut sizes, buffer);
        if taken.blocks / FEW <= taken.longest {
            return;
        }
        let blocks = &mut buffer[..taken.blocks];
        self.encrypt_records::<S>(keys, &sizes[..taken.count], blocks);
        *waiting = Waiting {
            count: taken.count,
            first: 0,
        };
    }

    // Writes the value of the next text, from the buffer if it waits there.
    fn write_next<S: Slice>(
        &self,
        text: &[u8],
        waiting: &mut Waiting,
        buffer: &mut [[u8; 8]],
        value: &mut [u8],
    )
        requires number { self.now.number < 128 }
        requires size { IsTextSize self.now.form (length text.now) }
        requires value { length value.old ≡ value_size self.now.form (length text.now) }
        requires buffer { 1 ≤ length buffer.old }
        requires waiting { (others : List (List ℕ)) × AreEnciphered self.now.form self.now.mode
            (C.is_made_from self.now.cipher) C.relation (text.now ∷ others) waiting.old buffer.old }
        ensures written { (key : List ℕ) → C.is_made_from self.now.cipher key
            → IsWriting self.now.form self.now.number self.now.mode (C.relation key) text.now value.new }
        ensures waiting { (others : List (List ℕ)) → AreEnciphered self.now.form self.now.mode
            (C.is_made_from self.now.cipher) C.relation (text.now ∷ others) waiting.old buffer.old
            → AreEnciphered self.now.form self.now.mode (C.is_made_from self.now.cipher) C.relation
            others waiting.new buffer.new }
    {
        if waiting.count == 0 {
            self.write_value::<S>(text, value, buffer);
            return;
        }
        let first = waiting.first;
        let end = first + value.len() / 8;
        waiting.count -= 1;
        waiting.first = end;
        self.join_value(&buffer[first..end], value);
    }
}

/// Writes the values of a column under one key, of texts of these lengths, one after another: each
/// with the number of the key, if the form has one. Value k stands behind those before it. Texts
/// that fit the buffer are encrypted in step, a block of each at a time. It is not inlined: else a
/// call that takes several ciphers would take the stack of all.
#[inline(never)]
#[tactic(auto, using(std::proofs::lemmas::List::Sums::sum_by_more_le))]
pub fn write_values<C: SpreadOnce + Drop, S: Slice>(
    key: &C::Key,
    form: ValueForm,
    number: u8,
    mode: BlockMode,
    texts: &[u8],
    lengths: &[usize],
    values: &mut [u8],
)
    requires number { number < 128 }
    requires whole { sum lengths.now ≡ length texts.now }
    requires sizes { All (IsTextSize form) lengths.now }
    requires values { length values.old ≡ sum_by (value_size form) lengths.now }
    ensures { IsColumnWritten (value_size form)
        (IsWriting form number mode (C.relation (C.Key.bytes_of key.now)))
        (pieces lengths.now texts.now) values.new }
{
    let cipher = C::new(key);
    let keys = cipher.spread_keys::<S>();
    let writer = Writer {
        cipher,
        form,
        number,
        mode,
    };
    let mut buffer = [[0; 8]; BLOCKS];
    let mut waiting = Waiting { count: 0, first: 0 };
    let mut from = 0;
    let mut start = 0;
    'texts: for k in 0..lengths.len() {
        let places = &mut values[start..];
        let (left, lengths_left) = (&texts[from..], &lengths[k..]);
        writer.refill::<S>(&keys, left, lengths_left, places, &mut waiting, &mut buffer);
        let text = &texts[from..from + lengths[k]];
        let size = form.value_size(text.len());
        let value = &mut values[start..start + size];
        writer.write_next::<S>(text, &mut waiting, &mut buffer, value);
        from += text.len();
        start += size;
    }
}

/// Whether the arguments of a call that writes a column fit: the lengths add up to the bytes of the
/// texts, and those of their values to the length of the buffer.
pub fn fits(form: ValueForm, texts: &[u8], lengths: &[usize], values: &[u8]) -> bool
    ensures { IsTrue result ↔ (sum lengths.now ≡ length texts.now)
        × (sum_by (value_size form) lengths.now ≡ length values.now) }
{
    add_up_to(lengths, texts.len()) && sizes_add_up_to(form, lengths, values.len())
}

// Whether the values of texts of these lengths have `total` bytes together.
fn sizes_add_up_to(form: ValueForm, lengths: &[usize], total: usize) -> bool
    requires { sum lengths.now < 2 ^ 63 }
    ensures { IsTrue result ↔ (sum_by (value_size form) lengths.now ≡ total) }
{
    let mut left = total;
    'texts: for k in 0..lengths.len() {
        let size = form.value_size(lengths[k]);
        if left < size {
            return false;
        }
        left -= size;
    }
    left == 0
}

/// Whether texts of these lengths can be written: those without padding are whole blocks.
pub fn are_whole(form: ValueForm, lengths: &[usize]) -> bool
    ensures { IsTrue result ↔ All (IsTextSize form) lengths.now }
{
    match form {
        ValueForm::Unpadded => lengths.iter().all(|length| *length % 8 == 0),
        _ => true,
    }
}
