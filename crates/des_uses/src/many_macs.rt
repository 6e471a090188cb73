//! Tags of many messages, each under a key of its own, and which of many tags are right: what a
//! caller can promise of any cipher that takes a key for each block, and at any width.

ghost use Rattle.std.specs.Prelude.{◌≡◌, ◌↔◌, ◌<◌, ◌++◌, ℕ, [], false, length, map, slice_index_or, IsTrue, OnOk};
ghost use Rattle.des_mac.specs.ManyMessages.{text_at};

use des::cipher::NotEqualError;
use des_fast::many::{KeyForEach, ManyBlocks, Slice};
use des_mac::many::{
    cbc_macs_by, cbc_macs_each_by, cmacs_by, cmacs_each_by, retail_macs_by, retail_macs_each_by,
    verify_each,
};
use des_mac::{CbcMac, Cmac, Mac, Padding, RetailMac};

/// Which tags of CBC-MAC are those of their messages, each under the key at its place. `macs` is
/// written over.
pub fn accept_cbc_macs<S: Slice, C: KeyForEach + Drop, P: Padding>(
    keys: &[C::Key],
    messages: &[&[u8]],
    tags: &[[u8; 8]],
    macs: &mut [[u8; 8]],
    right: &mut [bool],
) -> Result<(), NotEqualError>
    ensures { OnOk result ((k : ℕ) → k < length right.old
        → IsTrue (slice_index_or right.new k false)
        ↔ (slice_index_or tags.now k []
        ≡ ⟦<CbcMac<C, P> as Mac>⟧.tag_of
        (slice_index_or (map C.Key.bytes_of keys.now) k []) (text_at messages.now k))) }
{
    cbc_macs_each_by::<S, C, P>(keys, messages, macs)?;
    verify_each(tags, macs, right)?;
    Ok(())
}

/// CBC-MACs under one key.
pub fn accept_cbc_macs_of_key<S: Slice, C: KeyForEach + Drop, P: Padding>(
    key: &C::Key,
    messages: &[&[u8]],
    tags: &[[u8; 8]],
    macs: &mut [[u8; 8]],
    right: &mut [bool],
) -> Result<(), NotEqualError>
    ensures { OnOk result ((k : ℕ) → k < length right.old
        → IsTrue (slice_index_or right.new k false)
        ↔ (slice_index_or tags.now k []
        ≡ ⟦<CbcMac<C, P> as Mac>⟧.tag_of (C.Key.bytes_of key.now) (text_at messages.now k))) }
{
    cbc_macs_by::<S, C, P>(key, messages, macs)?;
    verify_each(tags, macs, right)?;
    Ok(())
}

/// Which tags of the retail MAC are those of their messages, each under the two keys at its place.
/// `macs` is written over.
pub fn accept_retail_macs<S: Slice, C: KeyForEach + Drop, P: Padding>(
    first: &[C::Key],
    second: &[C::Key],
    messages: &[&[u8]],
    tags: &[[u8; 8]],
    macs: &mut [[u8; 8]],
    right: &mut [bool],
) -> Result<(), NotEqualError>
    ensures { OnOk result ((k : ℕ) → k < length right.old
        → IsTrue (slice_index_or right.new k false)
        ↔ (slice_index_or tags.now k []
        ≡ ⟦<RetailMac<C, P> as Mac>⟧.tag_of
        (slice_index_or (map C.Key.bytes_of first.now) k []
        ++ slice_index_or (map C.Key.bytes_of second.now) k []) (text_at messages.now k))) }
{
    retail_macs_each_by::<S, C, P>(first, second, messages, macs)?;
    verify_each(tags, macs, right)?;
    Ok(())
}

/// Retail MACs under one pair of keys.
pub fn accept_retail_macs_of_keys<S: Slice, C: KeyForEach + ManyBlocks + Drop, P: Padding>(
    first: &C::Key,
    second: &C::Key,
    messages: &[&[u8]],
    tags: &[[u8; 8]],
    macs: &mut [[u8; 8]],
    right: &mut [bool],
) -> Result<(), NotEqualError>
    ensures { OnOk result ((k : ℕ) → k < length right.old
        → IsTrue (slice_index_or right.new k false)
        ↔ (slice_index_or tags.now k []
        ≡ ⟦<RetailMac<C, P> as Mac>⟧.tag_of
        (C.Key.bytes_of first.now ++ C.Key.bytes_of second.now) (text_at messages.now k))) }
{
    retail_macs_by::<S, C, P>(first, second, messages, macs)?;
    verify_each(tags, macs, right)?;
    Ok(())
}

/// Which tags of CMAC are those of their messages, each under the key at its place. `macs` is
/// written over.
pub fn accept_cmacs<S: Slice, C: KeyForEach + Drop>(
    keys: &[C::Key],
    messages: &[&[u8]],
    tags: &[[u8; 8]],
    macs: &mut [[u8; 8]],
    right: &mut [bool],
) -> Result<(), NotEqualError>
    ensures { OnOk result ((k : ℕ) → k < length right.old
        → IsTrue (slice_index_or right.new k false)
        ↔ (slice_index_or tags.now k []
        ≡ ⟦<Cmac<C> as Mac>⟧.tag_of
        (slice_index_or (map C.Key.bytes_of keys.now) k []) (text_at messages.now k))) }
{
    cmacs_each_by::<S, C>(keys, messages, macs)?;
    verify_each(tags, macs, right)?;
    Ok(())
}

/// CMACs under one key.
pub fn accept_cmacs_of_key<S: Slice, C: KeyForEach + Drop>(
    key: &C::Key,
    messages: &[&[u8]],
    tags: &[[u8; 8]],
    macs: &mut [[u8; 8]],
    right: &mut [bool],
) -> Result<(), NotEqualError>
    ensures { OnOk result ((k : ℕ) → k < length right.old
        → IsTrue (slice_index_or right.new k false)
        ↔ (slice_index_or tags.now k []
        ≡ ⟦<Cmac<C> as Mac>⟧.tag_of (C.Key.bytes_of key.now) (text_at messages.now k))) }
{
    cmacs_by::<S, C>(key, messages, macs)?;
    verify_each(tags, macs, right)?;
    Ok(())
}
