//! The table of commands: the arguments that each takes, and what the help says of it.

mod shared;

use Takes::{Count, Hidden, Needed, Nothing, Number, Place, PlaceOfText, Text, Texts, Word};
use shared::arguments;
pub use shared::{Argument, Arguments, Takes, list_of};

/// A group of commands: its name, what the help says of it, and its commands. Those of a group with
/// no name stand in none.
#[derive(Clone, Copy)]
pub struct CommandGroup<'a> {
    pub name: &'a str,
    pub about: &'a str,
    pub commands: &'a [CommandRow<'a>],
}

/// A command: its name, what the help says of it, its arguments, and what the help ends with.
#[derive(Clone, Copy)]
pub struct CommandRow<'a> {
    pub name: &'a str,
    pub about: &'a str,
    pub arguments: &'a [Arguments<'a>],
    pub example: &'a str,
}

// Arguments of one command, in braces, or those of a name, which several take.
macro_rules! list {
    ({ $($own:tt)* }) => { Arguments::Own(arguments! { $($own)* }) };
    ($shared:ident) => { Arguments::$shared };
}

macro_rules! group {
    ($name:literal: $about:literal; $($command:literal: $says:literal; [$($list:tt),*] $example:literal;)*) => {
        CommandGroup {
            name: $name,
            about: $about,
            commands: &[$(CommandRow {
                name: $command,
                about: $says,
                arguments: &[$(list!($list)),*],
                example: $example,
            }),*],
        }
    };
}

/// What the program's own help ends with.
pub const STATUSES: &str = "\
Statuses: 0 done, 1 the answer is weak or wrong, 2 arguments, keys and inputs,
3 memory, 4 reading and writing, 5 the data, 6 some lines (--keep-going). Keys,
PINs, blocks and components are never arguments: they are in files, descriptors
or variables. Options are not abbreviated.";

const WEAK_KEYS: &[&str] = &["refuse", "warn", "accept"];

const PADDINGS: &[&str] = &["pkcs7", "iso7816", "zeros", "none"];

// `encrypt` takes `from` and `blocks` too, and does not show them: who types them is told that only
// decryption takes a part.
static ENCRYPTION: CommandGroup<'static> = group! {
    "": "";

    "encrypt": "Encrypt a file or a pipe";
    [Cipher, {
        "iv": Text("VECTOR") =>
            "Needed by all modes but ECB: random, for eight random bytes that are written first, or 16 \
             hexadecimal digits; in CTR the first counter block";
        "padding": Word("PADDING", PADDINGS) =>
            "How the last block is filled in ECB and CBC; none: the input is whole blocks [default: pkcs7]";
        "weak-keys": Word("CHOICE", WEAK_KEYS) => "What to do with a weak key [default: refuse]";
        "from": Hidden => "";
        "blocks": Hidden => "";
    }, Files, Hex, Progress, KeyOrPassword, Password, {
        "derive": Text("METHOD") =>
            "How a password gives the key: pbkdf2-sha256:COUNT [default: pbkdf2-sha256:600000]";
    }, AnyCount] "\
Limits: encrypt no more than 2^20 blocks (8 MiB, in CFB8 1 MiB) under one
key, by NIST SP 800-67 Rev. 2, and only what an old system needs: NIST
disallows encryption with triple DES after 2023 (SP 800-131A Rev. 2). Nothing
is authenticated. In CFB, OFB and CTR use no vector and no counter block
twice under one key: two such files reveal the xor of their texts.

Example:
  echo 0123456789abcdeffedcba9876543210 >KEY
  printf 'a message' | cukvashe encrypt des-ede-cbc \\
    --iv random --key-file KEY | xxd -p";
};

static DECRYPTION: CommandGroup<'static> = group! {
    "": "";

    "decrypt": "Decrypt a file or a pipe, or a part of one";
    [Cipher, {
        "iv": Text("VECTOR") =>
            "Needed by all modes but ECB: first-block, if the input begins with the vector, or 16 \
             hexadecimal digits; in CTR the first counter block";
        "padding": Word("PADDING", PADDINGS) =>
            "What is taken off at the end in ECB and CBC; zeros and none: nothing [default: pkcs7]";
        "weak-keys": Word("CHOICE", WEAK_KEYS) => "What to do with a weak key [default: warn]";
        "from": Number("BLOCK") =>
            "Decrypt from this block of 8 bytes on, the first being 0; not in OFB";
        "blocks": Number("COUNT") => "Decrypt at most this number of blocks";
    }, Files, Hex, Progress, KeyOrPassword, Password, {
        "derive": Text("METHOD") =>
            "Needed by a password: md5 (OpenSSL before 1.1.0), sha256 (since then), pbkdf2-sha256:COUNT \
             (-pbkdf2; COUNT is 10000 without -iter), sha1 or pbkdf2-sha1:COUNT";
    }, AnyCount, {
        "no-salt": Nothing => "The input has no salt, and does not begin with Salted__";
        "base64": Nothing => "The input is Base64 in lines";
    }] "\
Limits: a changed input decrypts to something, mostly with no fault, since
nothing is authenticated. In CFB, OFB and CTR a wrong key or password goes
unnoticed.

Example:
  echo 0123456789abcdeffedcba9876543210 >KEY
  printf 1234567890abcdeff99822c1263dfada7f0373c3f4b6ba03 | xxd -r -p |
    cukvashe decrypt des-ede-cbc --iv first-block --key-file KEY --out -";
};

static PRIVATE_KEYS: CommandGroup<'static> = group! {
    "": "";

    "decrypt-pem": "Decrypt a private key under a password, in PEM or DER";
    [{
        "form": Word("FORM", &["pem", "der"]) =>
            "The form of what is written [default: that of the input]";
    }, AnyCount, Files, Password] "\
Limits: a wrong password is found by the key's padding and form.

Example:
  echo secret >password
  openssl genrsa -des3 -traditional -passout file:password 2048 2>openssl.said |
    cukvashe decrypt-pem --password-file password --out - | head -n 1";
};

static LINES: CommandGroup<'static> = group! {
    "": "";

    "decrypt-lines": "Decrypt values of MySQL, MariaDB, pgcrypto or Jasypt, one in each line";
    [{
        "format": PlaceOfText("FORMAT") =>
            "What wrote them: mysql (DES_ENCRYPT of MySQL and MariaDB), jasypt, or a type of PostgreSQL's pgcrypto: des \
             or 3des, perhaps with -cbc or -ecb, and /pad:pkcs or /pad:none behind it, as 3des-ecb/pad:none";
        "iv": Text("DIGITS") => "Hexadecimal digits of the vector of encrypt_iv [default: zeros]";
        "algorithm": Text("NAME") =>
            "The algorithm of Jasypt, PBEWithMD5AndTripleDES or PBEWithSHA1AndDESede [default: PBEWithMD5AndDES]";
        "iterations": Number("COUNT") => "The iterations of Jasypt, at most 10000000 [default: 1000]";
        "base64": Nothing => "The values are Base64, and not hexadecimal digits; of jasypt they are without it";
        "hex": Nothing => "Write each text as hexadecimal digits";
        "keep-going": Nothing => "Write an empty line for a line at fault, go on, and end with 6";
    }, Files, Progress, {
        "des-key-file": Text("FILE") =>
            "Read the keys of mysql from the server's file of them, or - for standard input; this is needed, or a key \
             string as a password";
        "key-file": Text("FILE") =>
            "Read a key of pgcrypto as hexadecimal digits from a file, or -; one of these is needed, or a password";
        "key-fd": Number("N") => "Read it from an open descriptor, from its current position";
        "key-env": Text("NAME") => "Take it from an environment variable";
        "password-file": Text("FILE") =>
            "Read the key string of mysql, the password of jasypt, or the characters of a key of pgcrypto, the first \
             line of a file, or -";
        "password-fd": Number("N") => "Read it from an open descriptor, from its current position";
        "password-env": Text("NAME") => "Take it from an environment variable";
    }] "\
Blanks around a value don't count, nor does \\x, \\\\x or 0x before its digits.
NULL, null, \\N and an empty line are written unchanged. Text that is not
printable UTF-8 is a fault without --hex, so that no digits are taken for text.

Limits: a changed value decrypts to something, mostly with no fault, since
nothing is authenticated.

Example:
  echo 'secret key' >password
  echo FFA3B355AF8C509A975B3C4BB286B70D4C |
    cukvashe decrypt-lines mysql --password-file password";
};

static MACS: CommandGroup<'static> = group! {
    "": "";

    "mac": "Print or verify the message authentication code of a file or a pipe";
    [{
        "method": Place("METHOD", &["cbc-mac", "retail", "cmac"]) =>
            "CBC-MAC or retail MAC (ISO/IEC 9797-1, algorithms 1 and 3), or CMAC (NIST SP 800-38B)";
        "padding": Word("METHOD", &["1", "2"]) =>
            "Needed by cbc-mac and retail: the sender's; 1 adds zeros (X9.9, mostly X9.19), 2 a one bit and zeros (EMV)";
        "in": Text("FILE") => "Read the message from a file [default: standard input]";
        "length": Word("BYTES", &["4", "5", "6", "7", "8"]) =>
            "Print this number of the tag's first bytes; what --verify has must be as long [default: 8]";
        "verify": Text("TAG") =>
            "Print right if these are the tag's first 4 to 8 bytes; otherwise print wrong, and end with 1";
        "hex": Nothing => "The message is hexadecimal digits, of either case, with white space between bytes";
    }, Key] "Example:
  echo 0123456789abcdeffedcba9876543210 >KEY
  printf 'a message' | cukvashe mac cmac --key-file KEY";
};

static KEYS: CommandGroup<'static> = group! {
    "": "";

    "check-value": "Print the check value (KCV) of a key, six digits or four";
    [{
        "bytes": Word("BYTES", &["2", "3"]) => "Print this number of its first bytes [default: 3]";
    }, Key] "Example:
  echo 0123456789abcdeffedcba9876543210 >KEY
  cukvashe check-value --key-file KEY";

    "parity": "Print a key with odd parity, each byte with an odd number of ones";
    [Key] "Example:
  echo 0022446688aaccee >KEY
  cukvashe parity --key-file KEY";

    "weak": "Print weak or not weak, and end with 1 for weak";
    [Key] "Example:
  echo 0123456789abcdef >KEY
  cukvashe weak --key-file KEY";

    "combine": "Print the key of components: their xor, with odd parity";
    [{
        "part-file": Texts("FILE") =>
            "Read a component from a file, or - for standard input; twice or more";
        "count": Count("N") => "Take this number of components, one after another, from one source";
    }, KeyOfParts] "Example:
  echo 0123456789abcdef >one.part
  echo 1111111111111111 >two.part
  cukvashe combine --part-file one.part --part-file two.part";
};

static CARDS: CommandGroup<'static> = group! {
    "": "";

    "dukpt": "Print a key of a transaction, from the base derivation key (BDK) or the initial key (ANSI X9.24-1)";
    [{
        "serial": PlaceOfText("SERIAL") => "The key serial number (KSN), 20 hexadecimal digits";
        "purpose": Place("PURPOSE", &["pin", "mac", "data", "data-variant"]) =>
            "What the key is for; data-variant: data, without the last one-way step";
        "response": Nothing => "The response's key, not the request's; not of pin";
        "initial-key": Nothing => "The key is the initial key (IK, IPEK), not the base derivation key";
    }, Key] "Example:
  echo 0123456789abcdeffedcba9876543210 >KEY
  cukvashe dukpt ffff9876543210e00001 pin --key-file KEY";

    "cvv": "Print the card verification value (CVV) of a card's data under a key pair";
    [{
        "expiry": Needed("DIGITS") => "The expiry date, 4 digits in the issuer's order (YYMM or MMYY)";
        "service": Needed("DIGITS") => "The service code, 3 digits";
    }, Account, Key] "Example:
  echo 0123456789abcdeffedcba9876543210 >KEY
  cukvashe cvv --account 4111111111111111 \\
    --expiry 8701 --service 101 --key-file KEY";
};

static PIN: CommandGroup<'static> = group! {
    "pin": "Print the block of a PIN, the PIN of a block, or a block under another key";

    "encode": "Print the block of a PIN";
    [Format, PinFile, {
        "fill": Text("DIGITS") => "Needed by formats 1 and 3: ten hexadecimal digits, for 3 from a to f";
    }, Account] "Example:
  printf 1234 | cukvashe pin encode 0 --account 4012345678909";

    "decode": "Print the PIN of a block";
    [Format, {
        "block-file": Text("FILE") =>
            "Read the decrypted block's 16 hexadecimal digits from a file [default: standard input]";
    }, Account] "Example:
  printf 041274edcba9876f | cukvashe pin decode 0 --account 4012345678909";

    "translate": "Print an encrypted block of the same PIN, under another key or in another format";
    [{
        "from": Place("FROM", &["0", "1", "3"]) => "The format of the block (ISO 9564-1)";
        "to": Place("TO", &["0", "1", "3"]) => "The format of the block that is printed; 1 from 1 alone";
        "block-file": Text("FILE") =>
            "Read the encrypted block's 16 digits from a file [default: standard input]";
        "fill": Text("DIGITS") => "Needed to format 3: ten random hexadecimal digits from a to f";
    }, Account, Key, ToKey] "Example:
  echo 0123456789abcdeffedcba9876543210 >KEY
  echo 89e88cf7931444f334bd7547fc3f380c >TO_KEY
  printf c03d21cdbcb0c58b | cukvashe pin translate 0 0 \\
    --account 4012345678909 --key-file KEY --to-key-file TO_KEY";
};

static PVV: CommandGroup<'static> = group! {
    "pvv": "Print the PIN verification value (PVV) of a PIN, or whether it is right";

    "make": "Print the PIN verification value of a PIN under a key pair, four digits";
    [Index, PinFile, Account, Key] "Example:
  echo 0123456789abcdeffedcba9876543210 >KEY
  printf 1234 | cukvashe pvv make \\
    --account 4111111111111111 --index 1 --key-file KEY";

    "verify": "Print right or wrong by a PIN's verification value, and end with 1 for wrong";
    [Index, { "value": Needed("DIGITS") => "The PIN verification value, 4 digits"; }, PinFile, Account, Key] "Example:
  echo 0123456789abcdeffedcba9876543210 >KEY
  printf 1234 | cukvashe pvv verify \\
    --account 4111111111111111 --index 1 --value 9464 --key-file KEY";
};

static OFFSET: CommandGroup<'static> = group! {
    "offset": "Print the offset of a PIN, or whether it is right (IBM 3624)";

    "make": "Print the offset of a PIN";
    [Validation, PinFile, Key] "Example:
  echo 0123456789abcdeffedcba9876543210 >KEY
  printf 9519 | cukvashe offset make \\
    --validation 4123456789012345 --table 0123456789012345 --key-file KEY";

    "verify": "Print right or wrong by a PIN's offset, and end with 1 for wrong";
    [{
        "offset": Needed("DIGITS") => "The offset, as many digits as the PIN has";
    }, Validation, PinFile, Key] "Example:
  echo 0123456789abcdeffedcba9876543210 >KEY
  printf 9519 | cukvashe offset verify --offset 9999 \\
    --validation 4123456789012345 --table 0123456789012345 --key-file KEY";

    "natural": "Print the natural PIN, which has an offset of zeros";
    [Validation, {
        "length": Word("DIGITS", &["4", "5", "6", "7", "8", "9", "10", "11", "12"]) =>
            "Print this number of digits [default: 4]";
    }, Key] "Example:
  echo 0123456789abcdeffedcba9876543210 >KEY
  cukvashe offset natural \\
    --validation 4123456789012345 --table 0123456789012345 --key-file KEY";
};

static EMV: CommandGroup<'static> = group! {
    "emv": "Print keys and cryptograms of a card (EMV 4.3, Book 2)";

    "card-key": "Print the key of a card, from the issuer's master key (IMK)";
    [{
        "sequence": Text("DIGITS") =>
            "The card's sequence number (PSN), 2 digits [default: 00, of a card without one]";
        "option": Word("OPTION", &["a", "b"]) =>
            "By option A, or B, which differs for account numbers of more than 16 digits [default: a]";
    }, Account, Key] "Example:
  echo 0123456789abcdeffedcba9876543210 >KEY
  cukvashe emv card-key --account 4111111111111111 \\
    --sequence 01 --key-file KEY";

    "session-key": "Print the key of a session, from the card's key";
    [{
        "counter": Text("DIGITS") =>
            "The application transaction counter (ATC), 4 hexadecimal digits; for cryptograms";
        "cryptogram": Text("DIGITS") =>
            "The application cryptogram, 16 hexadecimal digits; for messages to the card";
    }, Key] "Example:
  echo 67f8292358083e5ea7ab7fda58d53b6b >KEY
  cukvashe emv session-key --counter 001c --key-file KEY";

    "cryptogram": "Print the application cryptogram (ARQC, TC or AAC) of data, under the session's key";
    [{
        "data-file": Text("FILE") =>
            "Read the data's hexadecimal digits from a file [default: standard input]";
    }, Key] "Example:
  echo 38324e73f063efdd5ca88c322476a45b >KEY
  printf 000000005000 | cukvashe emv cryptogram --key-file KEY";

    "response-1": "Print the issuer's response (ARPC) by method 1, under the session's key";
    [Cryptogram, {
        "code": Needed("DIGITS") => "The response code, 4 hexadecimal digits: 3030 for the characters 00";
    }, Key] "Example:
  echo 38324e73f063efdd5ca88c322476a45b >KEY
  cukvashe emv response-1 --cryptogram ac06a6df7a7d00e8 \\
    --code 3030 --key-file KEY";

    "response-2": "Print the issuer's response (ARPC) by method 2, under the session's key";
    [Cryptogram, {
        "status": Needed("DIGITS") => "The card status update, 8 hexadecimal digits";
        "data": Text("DIGITS") => "The issuer's data, at most 16 hexadecimal digits [default: none]";
    }, Key] "Example:
  echo 38324e73f063efdd5ca88c322476a45b >KEY
  cukvashe emv response-2 --cryptogram ac06a6df7a7d00e8 \\
    --status 00820000 --key-file KEY";
};

static KEY_BLOCK: CommandGroup<'static> = group! {
    "key-block": "Print a key block, what it says of its key, or the key (ANSI X9.143, TR-31)";

    "header": "Print the fields of a block's header and its optional blocks, none authenticated";
    [BlockFile] "Example:
  printf %s B0080P0TE00E000094B420079CC80BA3461F86FE26EFC4A3B8E4FA4C \\
    5F5341176EED7B727B8A248E | cukvashe key-block header";

    "unwrap": "Print what a block says of its key and the key's check value, or the key";
    [BlockFile, {
        "show": Word("WHAT", &["fields", "key"]) =>
            "Print the fields and the check value, or the key's digits alone [default: fields]";
    }, ProtectionKey] "Example:
  echo dd7515f2bfc17f85ce48f3ca25cb21f6 >PROTECTION
  printf %s B0080P0TE00E000094B420079CC80BA3461F86FE26EFC4A3B8E4FA4C \\
    5F5341176EED7B727B8A248E |
    cukvashe key-block unwrap --protection-key-file PROTECTION";

    "wrap": "Print the block of a key, under a key that protects key blocks (KBPK)";
    [{
        "version": Word("VERSION", &["B", "C"]) =>
            "The version of the block: derived keys, or variants of the key [default: B]";
        "usage": Needed("USAGE") =>
            "What the key is for, two characters: P0 for PIN blocks, B0 for a base derivation key";
        "algorithm": Text("ALGORITHM") =>
            "The algorithm of the key: T for triple DES, D for DES [default: by the key's length]";
        "mode": Needed("MODE") =>
            "What may be done with the key: E to encrypt, D to decrypt, B both, X to derive keys";
        "key-version": Text("TEXT") =>
            "The number of the key's version, two characters [default: 00, of a key without one]";
        "exportability": Text("RULE") =>
            "Who may have the key: E under any trusted key, N nobody else, S other forms too [default: N]";
        "optional": Text("BLOCKS") =>
            "Optional blocks, one after another, as they stand in a block [default: none]";
    }, Key, ProtectionKey] "Example:
  echo 0123456789abcdeffedcba9876543210 >KEY
  echo 89e88cf7931444f334bd7547fc3f380c >PROTECTION
  cukvashe key-block wrap --usage P0 --mode E --key-file KEY \\
    --protection-key-file PROTECTION";
};

/// The groups, in the help's order. Each is a static of its own, since the time of a proof grows by
/// the square of what a static holds.
pub fn groups() -> [&'static CommandGroup<'static>; 12] {
    [
        &ENCRYPTION,
        &DECRYPTION,
        &PRIVATE_KEYS,
        &LINES,
        &MACS,
        &KEYS,
        &CARDS,
        &PIN,
        &PVV,
        &OFFSET,
        &EMV,
        &KEY_BLOCK,
    ]
}
