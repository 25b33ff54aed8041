//! The digest of an image's bytes: against accidents, and not against people.
ghost use Rattle.std.specs.Prelude.{◌≡◌, [], true, false};
ghost use Rattle.bx_journal_image.specs.Digest.{eight_at, image_digest, is_same};

use md5::{Digest as _, Md5};

/// An MD5 digest, as two numbers.
#[derive(Clone, Copy, Debug, PartialEq, Eq)]
pub struct Digest {
    /// That of its first 8 bytes, the highest first.
    pub high: u64,
    /// That of the others.
    pub low: u64,
}

/// A digest by its bytes.
pub(crate) fn numbers_of(s: [u8; 16]) -> Digest
    ensures { result ≡ record { high = eight_at 0 s; low = eight_at 8 s } }
{
    Digest {
        high: u64::from_be_bytes([s[0], s[1], s[2], s[3], s[4], s[5], s[6], s[7]]),
        low: u64::from_be_bytes([s[8], s[9], s[10], s[11], s[12], s[13], s[14], s[15]]),
    }
}

/// The digest of these bytes.
pub fn digest_of(bytes: &[u8]) -> Digest
    ensures { result ≡ image_digest bytes.now }
{
    numbers_of(Md5::digest(bytes))
}

/// Whether two digests are the same.
pub fn is_same(one: Digest, other: Digest) -> bool
    ensures { result ≡ is_same one other }
{
    one.high == other.high && one.low == other.low
}
