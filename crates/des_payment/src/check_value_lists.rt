//! Check values of many keys, 128 or 256 keys at a time.

ghost use Rattle.std.specs.Prelude.{◌≡◌, ◌↔◌, ◌≤◌, length, map, take, replicate, IsOk, OnOk, OnErr};
ghost use Rattle.std.specs.Simd.Lanes.{zip2};

use crate::check_values::first_bytes;
use crate::passes::{GROUP, encrypt_each_of};
use des::cipher::NotEqualError;
use des_fast::many::{KeyForEach, Slice};

// Makes the values the first bytes of blocks.
fn write_values(values: &mut [[u8; 3]], blocks: &[[u8; 8]])
    requires { length values.old ≡ length blocks.now }
    ensures { values.new ≡ map (take 3) blocks.now }
{
    'values: for k in 0..values.len() {
        values[k] = first_bytes(&blocks[k]);
    }
}

// The check values of a group of keys.
fn check_group<C: KeyForEach, S: Slice>(keys: &[C::Key], values: &mut [[u8; 3]])
    requires same { length keys.now ≡ length values.old }
    requires few { length values.old ≤ 256 }
    ensures { values.new ≡ map
        (λ key. take 3 (C.encryption (C.Key.bytes_of key) (replicate 8 0))) keys.now }
{
    let mut blocks = [[0; 8]; GROUP];
    let group = &mut blocks[..keys.len()];
    encrypt_each_of::<C, S>(keys, group);
    write_values(values, group);
}

/// Writes the check value of each key at its place, as `check_value` returns it: the first three
/// bytes of the block of zeros, encrypted under the key. The keys of a group of at most 256 are
/// treated together, `S::BATCH` at a time, with no table at an index that depends on a key. If the
/// two lists differ in length, the error is `NotEqualError`, and the values are unchanged.
pub fn check_values_by<S: Slice, C: KeyForEach>(
    keys: &[C::Key],
    values: &mut [[u8; 3]],
) -> Result<(), NotEqualError>
    ensures accepted { IsOk result ↔ (length keys.now ≡ length values.old) }
    ensures ok { OnOk result (values.new ≡ map
        (λ key. take 3 (C.encryption (C.Key.bytes_of key) (replicate 8 0))) keys.now) }
    ensures err { OnErr result (values.new ≡ values.old) }
{
    if keys.len() != values.len() {
        return Err(NotEqualError);
    }
    let mut from = 0;
    'groups: while from < values.len() {
        let count = GROUP.min(values.len() - from);
        check_group::<C, S>(&keys[from..from + count], &mut values[from..from + count]);
        from += count;
    }
    Ok(())
}
