//! The exports of MACs of many messages, by the number that ISO/IEC 9797-1:2011 gives the
//! algorithm: 1 is CBC-MAC, 3 the retail MAC over DES, 5 CMAC.

ghost use Rattle.std.specs.Prelude.{◌≡◌, ◌≢◌, length, map};
ghost use Rattle.std.specs.Simd.Lanes.{zip2};
ghost use Rattle.des_mac.specs.ManyMessages.{texts};
ghost use Rattle.des_context.specs.Keys.{keys_of};
ghost use Rattle.des_context.specs.MacAlgorithms.{IsMacKeyLength, mac_by};
ghost use Rattle.des_context.specs.PaddingMethods.{status_of_each, status_of_lists};

use super::Width;
use des_context::mac_lists;
use des_context::status::OK;

/// Writes the tag of each message at its place, with padding method 1 or 2, which plays no part in
/// CMAC. The status for any other padding is `ERR_PADDING_METHOD`, and for different numbers of
/// messages and tags `ERR_COUNTS`; the tags are then unchanged.
#[unsafe(no_mangle)]
pub extern "C" fn cukvashe_internal_macs(
    algorithm: u32,
    padding: u32,
    key: &[u8],
    messages: &[&[u8]],
    tags: &mut [[u8; 8]],
) -> i32
    requires { IsMacKeyLength algorithm (length key.now) }
    ensures status { result ≡ status_of_lists padding (length messages.now) (length tags.old) }
    ensures tags { result ≡ OK
        → tags.new ≡ map (mac_by algorithm padding key.now) (texts messages.now) }
    ensures kept { result ≢ OK → tags.new ≡ tags.old }
{
    mac_lists::macs::<Width>(algorithm, padding, key, messages, tags)
}

/// Writes the tag of each message under the key at its place: `keys` are keys of `key_size` bytes,
/// one after another. Padding and status are as for `cukvashe_internal_macs`, and the status is
/// `ERR_COUNTS` also if the number of keys differs.
#[unsafe(no_mangle)]
pub extern "C" fn cukvashe_internal_macs_each(
    algorithm: u32,
    padding: u32,
    key_size: usize,
    keys: &[u8],
    messages: &[&[u8]],
    tags: &mut [[u8; 8]],
) -> i32
    requires { IsMacKeyLength algorithm key_size }
    ensures status { result ≡ status_of_each padding (length (keys_of key_size keys.now))
        (length messages.now) (length tags.old) }
    ensures tags { result ≡ OK → tags.new ≡ zip2 (mac_by algorithm padding)
        (keys_of key_size keys.now) (texts messages.now) }
    ensures kept { result ≢ OK → tags.new ≡ tags.old }
{
    mac_lists::macs_each::<Width>(algorithm, padding, key_size, keys, messages, tags)
}
