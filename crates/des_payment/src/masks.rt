//! One of two bytes, and one of many, with no branch and no index that depends on which.

ghost use Rattle.std.specs.Prelude.{◌≡◌, ◌<◌, ℕ, ◌==◌, if◌then◌else◌, length, slice_index};

// One of two bytes.
pub(crate) fn chosen(condition: bool, one: u8, other: u8) -> u8
    ensures { result ≡ (if condition then one else other) }
{
    other ^ ((condition as u8).wrapping_neg() & (other ^ one))
}

// The entry at a place: every entry is read.
pub(crate) fn entry_at(entries: &[u8; 16], place: u8) -> u8
    requires { place < 16 }
    ensures { result ≡ slice_index entries.now place }
{
    let mut found = 0;
    for (i, entry) in entries.iter().enumerate() {
        found = chosen(i == place as usize, *entry, found);
    }
    found
}

// Writes a byte at a place, if there is one: every byte is written.
pub(crate) fn write_at<const N: usize>(bytes: &mut [u8; N], place: usize, byte: u8)
    ensures long { length bytes.new ≡ length bytes.old }
    ensures written { (k : ℕ) → k < N
        → slice_index bytes.new k ≡ (if k == place then byte else slice_index bytes.old k) }
{
    for (k, written) in bytes.iter_mut().enumerate() {
        *written = chosen(k == place, byte, *written);
    }
}
