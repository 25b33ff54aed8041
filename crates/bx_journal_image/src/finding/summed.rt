//! The digest of the first bytes of those that come piece by piece.
ghost use Rattle.std.specs.Prelude.{◌≡◌, ◌++◌, List, ℕ, [], take};
ghost use Rattle.bx_journal_image.specs.Digest.{image_digest};
ghost use Rattle.bx_journal_image.specs.Written.{HasSummed, Sums};

use crate::line::digest::{Digest, numbers_of};
use md5::{Digest as _, Md5};

/// How many bytes count.
const MOST: u64 = 1_048_576;

/// What was digested, and how many bytes more count.
#[derive(Drop)]
pub struct Sum {
    pub hash: Md5,
    pub left: u64,
}

/// Nothing was.
pub fn nothing_summed() -> Sum
    ensures { HasSummed result [] }
{
    Sum {
        hash: Md5::new(),
        left: MOST,
    }
}

/// Digests these too, as far as they count.
pub fn sum_bytes(sum: &mut Sum, bytes: &[u8])
    ensures { Sums sum.old sum.new bytes.now }
{
    let count = (bytes.len() as u64).min(sum.left);
    sum.hash.update(&bytes[..count as usize]);
    sum.left -= count;
}

/// The digest of what counts, and of more behind it.
pub fn sum_end(sum: Sum, more: &[u8]) -> Digest
    ensures { (all : List ℕ) → HasSummed sum all → result ≡ image_digest (take 1048576 all ++ more.now) }
{
    let mut hash = sum.hash;
    hash.update(more);
    numbers_of(hash.finalize())
}
