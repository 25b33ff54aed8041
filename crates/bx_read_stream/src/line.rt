//! One line of a dump.
ghost use Rattle.std.specs.Prelude.{◌≡◌, ◌<◌, ◌≤◌, length, take, Err, MatchResult, IfOk};
ghost use Rattle.bx_read.specs.Line.{read_line};
ghost use Rattle.bx_read.specs.Text.{is_skipped};
ghost use Rattle.bx_read_stream.specs.private.Laying.{ReadsAs};

use bx_read::{Line, ReadFault, full_text};

/// How long a line of xxd's default form with 16 bytes is.
const FULL: usize = 67;

/// What a line gives: bytes at an address.
#[derive(Clone, Copy)]
pub struct Found {
    /// The address of the first byte.
    pub at: u64,
    /// How many bytes there are, 1 to 256.
    pub count: usize,
}

/// Whether the line stands for none: it is empty, or a star.
#[inline]
pub fn is_skipped(line: &[u8]) -> bool
    ensures { result ≡ is_skipped line.now }
{
    line.is_empty() || (line.len() == 1 && line[0] == b'*')
}

/// Reads the line of this number, and puts its bytes at the front of `out`.
#[inline]
pub fn read(line: &[u8], number: u64, out: &mut [u8; 256]) -> Result<Found, ReadFault>
    ensures read { MatchResult result (λ f. ReadsAs number line.now f.at (take f.count out.new)) (λ e. read_line number line.now ≡ Err e) }
    ensures some { IfOk result (λ f. (0 < f.count) × (f.count ≤ 256)) }
{
    if line.len() == FULL
        && let Some(full) = full_text(line)
    {
        out[..16].copy_from_slice(&full.bytes);
        return Ok(Found {
            at: full.at,
            count: 16,
        });
    }
    let read = match Line::parse(line, number) {
        Ok(read) => read,
        Err(fault) => return Err(fault),
    };
    let count = read.decode(out);
    Ok(Found { at: read.at, count })
}
