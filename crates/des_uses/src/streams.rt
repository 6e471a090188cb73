//! Callers of the streams of `des_io`, over any cipher, reader and writer, with a buffer of their
//! own: what CBC and PKCS#7 make of what is read, a part of a list of blocks in CBC, and two parts
//! that joined are the whole.

ghost use Rattle.std.specs.Prelude.{◌≡◌, ◌≢◌, ◌*◌, ◌≤◌, ℕ, List, length, IfOk, IfErr};
ghost use Rattle.std.specs.Prelude.{Some, None};
ghost use Rattle.std.specs.Io.KnownBytes.{IsAtEnd};
ghost use Rattle.des_io.specs.Streams.{passage_of, Encrypts, EncryptsPrefix, Decrypts, DecryptsPrefix};
ghost use Rattle.des_io.specs.Streams.{Skips, DecryptsPart, DecryptsPartPrefix};
ghost use Rattle.des_io.specs.StreamFaults.{FailsToEncrypt, FailsToDecrypt, FailsToSkip};
ghost use Rattle.des_io.specs.StreamFaults.{FailsInPart};
ghost use Rattle.des_io.specs.declared.error.StreamError.TheVariants.{Start, Padding as WrongPadding};
ghost use Rattle.des_io.specs.declared.mode.BlockMode.TheVariants.{Cbc};
ghost use Rattle.des_io.specs.declared.padding.Padding.TheVariants.{Pkcs7, Zeros, Unpadded};

use des_fast::many::ManyBlocks;
use des_io::{
    BlockMode, Padding, StreamError, Transformation, decrypt_part, decrypt_stream, encrypt_stream,
    skip_blocks,
};
use std::io::{Read, Write};

/// Encrypts by CBC what a reader gives, with the padding of PKCS#7.
pub fn encrypt<R: Read, W: Write, C: ManyBlocks>(
    cipher: &C,
    iv: [u8; 8],
    reader: &mut R,
    writer: &mut W,
) -> Result<(), StreamError>
    ensures done { IfOk result (λ _. Encrypts (C.encrypted cipher.now) (Cbc iv) Pkcs7
        (passage_of (R.remaining reader.old) (R.remaining reader.new)
        (W.contents writer.old) (W.contents writer.new))) }
    ensures end { IfOk result (λ _. IsAtEnd (R.remaining reader.new)) }
    ensures prefix { EncryptsPrefix (C.encrypted cipher.now) (Cbc iv) Pkcs7
        (passage_of (R.remaining reader.old) (R.remaining reader.new)
        (W.contents writer.old) (W.contents writer.new)) }
    ensures fault { IfErr result (λ fault. FailsToEncrypt fault Pkcs7
        (R.remaining reader.old) (R.remaining reader.new)) }
{
    let transformation = Transformation {
        cipher,
        mode: BlockMode::Cbc(iv),
        padding: Padding::Pkcs7,
    };
    encrypt_stream(&transformation, reader, writer, &mut [[0; 8]; 512])
}

/// Decrypts what `encrypt` wrote.
pub fn decrypt<R: Read, W: Write, C: ManyBlocks>(
    cipher: &C,
    iv: [u8; 8],
    reader: &mut R,
    writer: &mut W,
) -> Result<(), StreamError>
    ensures done { IfOk result (λ _. Decrypts (C.decrypted cipher.now) (Cbc iv) Pkcs7
        (passage_of (R.remaining reader.old) (R.remaining reader.new)
        (W.contents writer.old) (W.contents writer.new))) }
    ensures end { IfOk result (λ _. IsAtEnd (R.remaining reader.new)) }
    ensures prefix { DecryptsPrefix (C.decrypted cipher.now) (Cbc iv) Pkcs7
        (passage_of (R.remaining reader.old) (R.remaining reader.new)
        (W.contents writer.old) (W.contents writer.new)) }
    ensures fault { IfErr result (λ fault. FailsToDecrypt fault (C.decrypted cipher.now) (Cbc iv) Pkcs7
        (passage_of (R.remaining reader.old) (R.remaining reader.new)
        (W.contents writer.old) (W.contents writer.new))) }
{
    let transformation = Transformation {
        cipher,
        mode: BlockMode::Cbc(iv),
        padding: Padding::Pkcs7,
    };
    decrypt_stream(&transformation, reader, writer, &mut [[0; 8]; 512])
}

/// Reads the first `from` blocks of what `encrypt` wrote, and returns how the part goes on from
/// them.
pub fn begin_part<R: Read>(iv: [u8; 8], from: u64, reader: &mut R) -> Result<BlockMode, StreamError>
    ensures skips { IfOk result (λ next. Skips (Cbc iv) next from
        (R.remaining reader.old) (R.remaining reader.new)) }
    ensures fault { IfErr result (λ fault. FailsToSkip fault from
        (R.remaining reader.old) (R.remaining reader.new)) }
{
    skip_blocks(BlockMode::Cbc(iv), from, reader, &mut [[0; 8]; 512])
}

/// Encrypts by CBC what a reader gives, with zeros up to a whole block.
pub fn encrypt_with_zeros<R: Read, W: Write, C: ManyBlocks>(
    cipher: &C,
    iv: [u8; 8],
    reader: &mut R,
    writer: &mut W,
) -> Result<(), StreamError>
    ensures done { IfOk result (λ _. Encrypts (C.encrypted cipher.now) (Cbc iv) Zeros
        (passage_of (R.remaining reader.old) (R.remaining reader.new)
        (W.contents writer.old) (W.contents writer.new))) }
{
    let transformation = Transformation {
        cipher,
        mode: BlockMode::Cbc(iv),
        padding: Padding::Zeros,
    };
    encrypt_stream(&transformation, reader, writer, &mut [[0; 8]; 512])
}

/// Decrypts what `encrypt_with_zeros` wrote, to whole blocks: no zeros are taken off.
pub fn decrypt_with_zeros<R: Read, W: Write, C: ManyBlocks>(
    cipher: &C,
    iv: [u8; 8],
    reader: &mut R,
    writer: &mut W,
) -> Result<(), StreamError>
    ensures done { IfOk result (λ _. Decrypts (C.decrypted cipher.now) (Cbc iv) Unpadded
        (passage_of (R.remaining reader.old) (R.remaining reader.new)
        (W.contents writer.old) (W.contents writer.new))) }
    ensures fault { IfErr result (λ fault. fault ≢ WrongPadding) }
{
    let transformation = Transformation {
        cipher,
        mode: BlockMode::Cbc(iv),
        padding: Padding::Zeros,
    };
    decrypt_stream(&transformation, reader, writer, &mut [[0; 8]; 512])
}

/// Decrypts a part of `count` blocks, or of fewer if the reader ends before.
pub fn decrypt_blocks_of_part<R: Read, W: Write, C: ManyBlocks>(
    cipher: &C,
    mode: BlockMode,
    count: u64,
    reader: &mut R,
    writer: &mut W,
) -> Result<(), StreamError>
    ensures done { IfOk result (λ _. DecryptsPart (C.decrypted cipher.now) mode Pkcs7 (Some count)
        (passage_of (R.remaining reader.old) (R.remaining reader.new)
        (W.contents writer.old) (W.contents writer.new))) }
    ensures prefix { DecryptsPartPrefix (C.decrypted cipher.now) mode Pkcs7 (Some count)
        (passage_of (R.remaining reader.old) (R.remaining reader.new)
        (W.contents writer.old) (W.contents writer.new)) }
    ensures fault { IfErr result (λ fault. FailsInPart fault (C.decrypted cipher.now)
        mode Pkcs7 (Some count)
        (passage_of (R.remaining reader.old) (R.remaining reader.new)
        (W.contents writer.old) (W.contents writer.new))) }
{
    let transformation = Transformation {
        cipher,
        mode,
        padding: Padding::Pkcs7,
    };
    decrypt_part(
        &transformation,
        Some(count),
        reader,
        writer,
        &mut [[0; 8]; 512],
    )
}

/// Decrypts all that follows the blocks that `begin_part` read.
pub fn decrypt_rest<R: Read, W: Write, C: ManyBlocks>(
    cipher: &C,
    mode: BlockMode,
    reader: &mut R,
    writer: &mut W,
) -> Result<(), StreamError>
    ensures done { IfOk result (λ _. DecryptsPart (C.decrypted cipher.now) mode Pkcs7 None
        (passage_of (R.remaining reader.old) (R.remaining reader.new)
        (W.contents writer.old) (W.contents writer.new))) }
    ensures prefix { DecryptsPartPrefix (C.decrypted cipher.now) mode Pkcs7 None
        (passage_of (R.remaining reader.old) (R.remaining reader.new)
        (W.contents writer.old) (W.contents writer.new)) }
    ensures fault { IfErr result (λ fault. FailsInPart fault (C.decrypted cipher.now)
        mode Pkcs7 None
        (passage_of (R.remaining reader.old) (R.remaining reader.new)
        (W.contents writer.old) (W.contents writer.new))) }
{
    let transformation = Transformation {
        cipher,
        mode,
        padding: Padding::Pkcs7,
    };
    decrypt_part(&transformation, None, reader, writer, &mut [[0; 8]; 512])
}

/// Decrypts what `encrypt` wrote, in two parts, each from a reader of its own over the same bytes:
/// the first `from` blocks, and then those after them. What both wrote is what `decrypt` writes.
///
/// The error is `Start` only if there are no more than `from` blocks: the first part is then the
/// whole, and there is no second one.
pub fn decrypt_in_two_parts<R: Read, S: Read, W: Write, C: ManyBlocks>(
    cipher: &C,
    iv: [u8; 8],
    from: u64,
    first: &mut R,
    second: &mut S,
    writer: &mut W,
) -> Result<(), StreamError>
    ensures done { IfOk result (λ _. (bytes : List ℕ)
        → R.remaining first.old ≡ Some bytes → S.remaining second.old ≡ Some bytes
        → Decrypts (C.decrypted cipher.now) (Cbc iv) Pkcs7
        (passage_of (S.remaining second.old) (S.remaining second.new)
        (W.contents writer.old) (W.contents writer.new))
        × IsAtEnd (S.remaining second.new)) }
    ensures start { IfErr result (λ fault. (bytes : List ℕ)
        → R.remaining first.old ≡ Some bytes → S.remaining second.old ≡ Some bytes
        → fault ≡ Start → length bytes ≤ 8 * from) }
{
    decrypt_blocks_of_part(cipher, BlockMode::Cbc(iv), from, first, writer)?;
    let mode = begin_part(iv, from, second)?;
    decrypt_rest(cipher, mode, second, writer)
}
