//! Message authentication codes of what a reader gives.

ghost use Rattle.std.specs.Prelude.{◌≡◌, ◌<◌, length, IfOk, IfErr};
ghost use Rattle.des_commands.specs.Macs.{tag_over, tag_by, IsTagOfAll, FailsToAuthenticate, IsKeyOver, HasKeySize};

use des::cipher::KeyedCipher;
use des_fast::{Des, TdesEde2, TdesEde3};
use des_io::pieces::fill;
use des_lines::fault::{FaultKind, Reason};
use des_mac::{CbcMac, Cmac, Mac, Method1, Method2, RetailMac};
use des_requests::command::Method;
use des_requests::command::PaddingMethod::{One, Two};
use std::io::Read;

// The tag of all that a reader has, under a key of the bytes that the type takes.
fn tag_of_reader<M: Mac + Drop, R: Read>(
    key: &[u8],
    reader: &mut R,
    buffer: &mut [u8],
) -> Result<[u8; 8], FaultKind>
    requires { 0 < length buffer.old }
    ensures tag { IfOk result (IsTagOfAll (M.tag_of key.now)
        (R.remaining reader.old) (R.remaining reader.new)) }
    ensures fault { IfErr result (FailsToAuthenticate (length key.now ≡ M.key_size)) }
{
    let Ok(mut state) = M::new_from_slice(key) else {
        return Err(FaultKind::KeyLength(None));
    };
    for _ in 0..u64::MAX {
        let n = fill(reader, buffer)?;
        state.update(&buffer[..n]);
        if n < buffer.len() {
            return Ok(state.finalize());
        }
    }
    Err(FaultKind::Read(Reason::Other))
}

// The tag by a method over the cipher `C`.
fn tag_over<C: KeyedCipher + Drop, R: Read>(
    method: Method,
    key: &[u8],
    reader: &mut R,
    buffer: &mut [u8],
) -> Result<[u8; 8], FaultKind>
    requires { 0 < length buffer.old }
    ensures tag { IfOk result (IsTagOfAll (tag_over (C.encryption key.now) method key.now)
        (R.remaining reader.old) (R.remaining reader.new)) }
    ensures fault { IfErr result (FailsToAuthenticate (IsKeyOver C.KEY_SIZE method key.now)) }
{
    match method {
        Method::CbcMac(One) => tag_of_reader::<CbcMac<C, Method1>, R>(key, reader, buffer),
        Method::CbcMac(Two) => tag_of_reader::<CbcMac<C, Method2>, R>(key, reader, buffer),
        Method::Retail(One) => tag_of_reader::<RetailMac<Des, Method1>, R>(key, reader, buffer),
        Method::Retail(Two) => tag_of_reader::<RetailMac<Des, Method2>, R>(key, reader, buffer),
        Method::Cmac => tag_of_reader::<Cmac<C>, R>(key, reader, buffer),
    }
}

/// The tag of all that a reader has, read a buffer of one byte at least at a time. The key's size
/// decides the cipher. The fault is `KeyLength` if the method takes no key of these bytes, or
/// `Read` if the reader failed.
pub fn tag_of<R: Read>(
    method: Method,
    key: &[u8],
    reader: &mut R,
    buffer: &mut [u8],
) -> Result<[u8; 8], FaultKind>
    requires { 0 < length buffer.old }
    ensures tag { IfOk result (IsTagOfAll (tag_by method key.now)
        (R.remaining reader.old) (R.remaining reader.new)) }
    ensures fault { IfErr result (FailsToAuthenticate (HasKeySize method key.now)) }
{
    match key.len() {
        8 => tag_over::<Des, R>(method, key, reader, buffer),
        16 => tag_over::<TdesEde2, R>(method, key, reader, buffer),
        _ => tag_over::<TdesEde3, R>(method, key, reader, buffer),
    }
}
