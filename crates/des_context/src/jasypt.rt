//! Strings of Jasypt, by the names of their algorithms.

ghost use Rattle.std.specs.Prelude.{◌≡◌, ◌≢◌, ◌≤◌, ◌↔◌, ◌⊎◌, Some, None};
ghost use Rattle.des_columns.specs.Columns.{pieces};
ghost use Rattle.des_columns.specs.Jasypt.{IsWritten, Reads, salted, value_size};
ghost use Rattle.des_columns.specs.Pbe.{algorithm_of};
ghost use Rattle.des_columns.specs.Readings.{IsColumnRead};
ghost use Rattle.des_columns.specs.Writings.{IsColumnWritten};
ghost use Rattle.des_columns.specs.declared.pbe.Algorithm.{Algorithm};
ghost use Rattle.des_context.specs.ColumnStatuses.{IsReadStatus, TakesStrings};

use crate::status::{
    ERR_ALGORITHM, ERR_BASE64, ERR_COUNTS, ERR_ITERATIONS, ERR_SALT_LENGTH, ERR_VALUES, OK,
};
use des_columns::column::fits;
use des_columns::pbe::Algorithm;
use des_columns::{jasypt, status};

// The statuses of values have the numbers that callers in C know.
const _: () = prove!(
    ERR_BASE64 == status::ERR_BASE64 && ERR_SALT_LENGTH == status::ERR_SALT_LENGTH
);

/// Reads strings of Jasypt by the algorithm of this name, as `des_columns::jasypt::decrypt_values`
/// does. The status is that of the first fault, and then nothing is written: `ERR_ALGORITHM` if the
/// name is none, `ERR_ITERATIONS` if there is no iteration, or more than 2^32 - 1, `ERR_COUNTS` if
/// the lengths do not fit; and `ERR_VALUES` if the status of some value is not `OK`.
pub fn jasypt_decrypt_values(
    algorithm: &[u8],
    iterations: usize,
    password: &[u8],
    values: &[u8],
    lengths: &[usize],
    texts: &mut [u8],
    text_lengths: &mut [usize],
    statuses: &mut [i32],
) -> i32
    ensures algorithm { (result ≡ ERR_ALGORITHM) ↔ (algorithm_of algorithm.now ≡ None) }
    ensures iterations { result ≢ ERR_ALGORITHM
        → (result ≡ ERR_ITERATIONS) ↔ ((iterations ≡ 0) ⊎ (0x100000000 ≤ iterations)) }
    ensures status { result ≢ ERR_ALGORITHM → result ≢ ERR_ITERATIONS → IsReadStatus lengths.now
        values.now texts.old text_lengths.old statuses.old statuses.new result }
    ensures read { result ≢ ERR_ALGORITHM → result ≢ ERR_ITERATIONS → result ≢ ERR_COUNTS
        → (by : Algorithm) → algorithm_of algorithm.now ≡ Some by
        → IsColumnRead (Reads by iterations password.now) (pieces lengths.now values.now)
        texts.new text_lengths.new statuses.new }
    ensures kept { (result ≡ ERR_ALGORITHM) ⊎ (result ≡ ERR_ITERATIONS) ⊎ (result ≡ ERR_COUNTS)
        → (texts.new ≡ texts.old) × (text_lengths.new ≡ text_lengths.old)
        × (statuses.new ≡ statuses.old) }
{
    let Some(by) = Algorithm::of_name(algorithm) else {
        return ERR_ALGORITHM;
    };
    let Ok(count) = u32::try_from(iterations) else {
        return ERR_ITERATIONS;
    };
    if count == 0 {
        return ERR_ITERATIONS;
    }
    if !fits(values, lengths, texts, text_lengths, statuses) {
        return ERR_COUNTS;
    }
    match jasypt::decrypt_values(
        by,
        count,
        password,
        values,
        lengths,
        texts,
        text_lengths,
        statuses,
    ) {
        Ok(true) => OK,
        Ok(false) => ERR_VALUES,
        Err(_) => ERR_ITERATIONS,
    }
}

/// Writes strings of Jasypt by the algorithm of this name, as `des_columns::jasypt::encrypt_values`
/// does. The status is that of the first fault, and then nothing is written: `ERR_ALGORITHM` and
/// `ERR_ITERATIONS` as for `jasypt_decrypt_values`; `ERR_COUNTS` if the lengths do not fit, there
/// is not a salt for each text, or the buffer is not exactly as long as the values.
pub fn jasypt_encrypt_values(
    algorithm: &[u8],
    iterations: usize,
    password: &[u8],
    salts: &[[u8; 8]],
    texts: &[u8],
    lengths: &[usize],
    values: &mut [u8],
) -> i32
    ensures algorithm { (result ≡ ERR_ALGORITHM) ↔ (algorithm_of algorithm.now ≡ None) }
    ensures iterations { result ≢ ERR_ALGORITHM
        → (result ≡ ERR_ITERATIONS) ↔ ((iterations ≡ 0) ⊎ (0x100000000 ≤ iterations)) }
    ensures counts { result ≢ ERR_ALGORITHM → result ≢ ERR_ITERATIONS → (result ≡ ERR_COUNTS)
        ↔ ¬ (TakesStrings lengths.now texts.now salts.now values.old) }
    ensures accepted { result ≢ ERR_ALGORITHM → result ≢ ERR_ITERATIONS → (result ≡ OK)
        ↔ TakesStrings lengths.now texts.now salts.now values.old }
    ensures written { result ≡ OK → (by : Algorithm) → algorithm_of algorithm.now ≡ Some by
        → IsColumnWritten value_size (IsWritten by iterations password.now)
        (salted salts.now (pieces lengths.now texts.now)) values.new }
    ensures kept { result ≢ OK → values.new ≡ values.old }
{
    let Some(by) = Algorithm::of_name(algorithm) else {
        return ERR_ALGORITHM;
    };
    let Ok(count) = u32::try_from(iterations) else {
        return ERR_ITERATIONS;
    };
    if count == 0 {
        return ERR_ITERATIONS;
    }
    if !jasypt::fits(salts, texts, lengths, values) {
        return ERR_COUNTS;
    }
    match jasypt::encrypt_values(by, count, password, salts, texts, lengths, values) {
        Ok(()) => OK,
        Err(_) => ERR_ITERATIONS,
    }
}
