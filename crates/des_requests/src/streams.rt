//! What a command line asks of a stream: the cipher, its vector and padding, a part, and the files.

ghost use Rattle.std.specs.Prelude.{◌≡◌};
ghost use Rattle.des_lines.specs.Keys.{IsKeySize};
ghost use Rattle.des_requests.specs.StreamRequests.{key_size_of, blocks_before as blocks_before_of, source_of, begin_of as begin_by, heading_of as heading_by, vectors_of as vectors_by, IsJobOf};
ghost use Rattle.des_requests.specs.StreamRequests.{takes_vector as takes_vector_by, is_stream as is_stream_by, takes_part as takes_part_by};

use des_io::{BlockMode, Padding};
use des_lines::source::Source;
use des_passwords::Derivation;

/// The ciphers.
#[derive(Clone, Copy)]
pub enum Cipher {
    /// DES, as in `des-cbc`.
    Des,
    /// Triple DES by a key of two parts, as in `des-ede-cbc`.
    TdesEde2,
    /// Triple DES by a key of three parts, as in `des-ede3-cbc`.
    TdesEde3,
}

impl Cipher {
    /// The bytes of a key.
    pub fn key_size(self) -> u8
        ensures size { result ≡ key_size_of self }
        ensures one { IsKeySize result }
    {
        match self {
            Cipher::Des => 8,
            Cipher::TdesEde2 => 16,
            Cipher::TdesEde3 => 24,
        }
    }
}

/// The modes that make a stream cipher.
#[derive(Clone, Copy)]
pub enum StreamMode {
    /// Cipher feedback of 64 bits, as in `des-cfb`.
    Cfb,
    /// Cipher feedback of 8 bits.
    Cfb8,
    /// Output feedback.
    Ofb,
    /// The counter mode.
    Ctr,
}

/// The modes.
#[derive(Clone, Copy)]
pub enum CipherMode {
    Ecb,
    Cbc,
    Stream(StreamMode),
}

impl CipherMode {
    /// Whether the mode takes an initialization vector, or a first counter block.
    pub fn takes_vector(self) -> bool
        ensures { result ≡ takes_vector_by self }
    {
        !matches!(self, CipherMode::Ecb)
    }

    /// Whether the mode makes a stream cipher, which pads nothing.
    pub fn is_stream(self) -> bool
        ensures { result ≡ is_stream_by self }
    {
        matches!(self, CipherMode::Stream(_))
    }

    /// Whether a part can be decrypted without what is before it.
    pub fn takes_part(self) -> bool
        ensures { result ≡ takes_part_by self }
    {
        !matches!(self, CipherMode::Stream(StreamMode::Ofb))
    }
}

/// The initialization vector, or the first counter block.
#[derive(Clone, Copy)]
pub enum Vector {
    /// These eight bytes.
    Bytes([u8; 8]),
    /// To encrypt: eight random bytes, which are written first.
    Random,
    /// To decrypt: the first eight bytes of the input.
    FirstBlock,
    /// What the password gives beside the key.
    OfPassword,
}

/// A part of the ciphertext.
#[derive(Clone, Copy)]
pub struct BlockRange {
    /// The block that it begins with, the first being 0.
    pub from: u64,
    /// The number of its blocks; up to the end if there is none.
    pub count: Option<u64>,
}

/// What is done with a weak key.
#[derive(Clone, Copy)]
pub enum WeakKeys {
    /// It is a fault.
    Refuse,
    /// It is used, and a line says so.
    Warn,
    /// It is used.
    Accept,
}

/// Where bytes go.
#[derive(Clone, Copy)]
pub enum Output<'a> {
    /// To standard output, since no file is named. A terminal there is a fault.
    Unnamed,
    /// To standard output, as `-` asks for, a terminal or not.
    StandardOutput,
    /// To a file.
    File(&'a str),
}

/// How bytes are written.
#[derive(Clone, Copy)]
pub enum Coding {
    /// As they are.
    Bytes,
    /// Those of the input as Base64 in lines.
    Base64,
    /// As hexadecimal digits, those of the input and of the output.
    Hexadecimal,
}

/// How a password gives the key and the vector, and how the file under it begins.
#[derive(Clone, Copy)]
pub struct Password {
    pub derivation: Derivation,
    /// The file begins with `Salted__` and the salt.
    pub is_salted: bool,
}

/// What gives the key, and where it is.
#[derive(Clone, Copy)]
pub enum Secret<'a> {
    /// The key itself.
    Key(Source<'a>),
    /// A password.
    Password(Source<'a>, Password),
}

impl<'a> Secret<'a> {
    /// Where it is.
    pub fn source(self) -> Source<'a>
        ensures { result ≡ source_of self.entry }
    {
        match self {
            Secret::Key(source) | Secret::Password(source, _) => source,
        }
    }
}

/// What a command line asks of a stream.
#[derive(Clone, Copy)]
pub struct StreamRequest<'a> {
    pub encrypts: bool,
    pub cipher: Cipher,
    pub mode: CipherMode,
    /// None in ECB.
    pub vector: Option<Vector>,
    /// Of ECB and CBC.
    pub padding: Padding,
    pub part: Option<BlockRange>,
    pub weak_keys: WeakKeys,
    pub secret: Secret<'a>,
    pub coding: Coding,
    pub input: Source<'a>,
    pub output: Output<'a>,
    pub shows_progress: bool,
}

/// What is done with the bytes of a stream.
#[derive(Clone, Copy)]
pub struct Job<'a> {
    pub cipher: Cipher,
    /// The key, of the bytes that the cipher takes.
    pub key: &'a [u8],
    pub mode: CipherMode,
    /// How the first block that is read goes on: by itself in ECB, else from a vector.
    pub begin: BlockMode,
    /// How many of the blocks that are passed over are the vector: one or none.
    pub vectors: u64,
    pub padding: Padding,
    pub work: Work<'a>,
}

/// The direction of a stream, and what goes before it.
#[derive(Clone, Copy)]
pub enum Work<'a> {
    /// Encrypts. These bytes are written first: a random vector, or `Salted__` and a salt.
    Encrypt {
        heading: &'a [u8],
    },
    /// Decrypts the whole or a part, after a number of blocks that are read and passed over.
    Decrypt {
        skipped: u64,
        part: Option<BlockRange>,
    },
}

// The blocks at the beginning of the input that are the vector.
fn vectors_of(vector: Option<Vector>) -> u64
    ensures { result ≡ vectors_by vector }
{
    match vector {
        Some(Vector::FirstBlock) => 1,
        _ => 0,
    }
}

/// The blocks of the input that stand before those that are decrypted: the vector, if it is the
/// first block, and those before the part. They are counted up to 2^64 - 1: no input has more.
pub fn blocks_before(request: &StreamRequest) -> u64
    ensures { result ≡ blocks_before_of request.now.vector request.now.part }
{
    let from = request.part.map_or(0, |part| part.from);
    from.saturating_add(vectors_of(request.vector))
}

// How the first block that is read goes on. A vector that is the first block is passed over as a
// block, by CBC from zeros; one that is random, or of a password, is `vector`.
fn begin_of(asked: Option<Vector>, vector: [u8; 8]) -> BlockMode
    ensures { result ≡ begin_by asked vector }
{
    match asked {
        None => BlockMode::Ecb,
        Some(Vector::Bytes(iv)) => BlockMode::Cbc(iv),
        Some(Vector::FirstBlock) => BlockMode::Cbc([0; 8]),
        Some(Vector::Random | Vector::OfPassword) => BlockMode::Cbc(vector),
    }
}

/// The job of a request by a key. `vector` is the vector if the request asks for a random one or
/// for that of a password; `heading` is written before the ciphertext; and of an input to decrypt
/// `skipped` blocks are read and dropped first.
pub fn job_of<'a>(
    request: &StreamRequest,
    key: &'a [u8],
    vector: [u8; 8],
    heading: &'a [u8],
    skipped: u64,
) -> Job<'a>
    ensures { IsJobOf request.now key.now vector heading.now skipped result }
{
    let work = if request.encrypts {
        Work::Encrypt { heading }
    } else {
        Work::Decrypt {
            skipped,
            part: request.part,
        }
    };
    Job {
        cipher: request.cipher,
        key,
        mode: request.mode,
        begin: begin_of(request.vector, vector),
        vectors: vectors_of(request.vector),
        padding: request.padding,
        work,
    }
}

/// What is written before the ciphertext by a key: a random vector, if one is asked for.
pub fn heading_of<'a>(vector: Option<Vector>, random: &'a [u8; 8]) -> &'a [u8]
    ensures { result.now ≡ heading_by vector random.now }
{
    match vector {
        Some(Vector::Random) => random.as_slice(),
        _ => &[],
    }
}
