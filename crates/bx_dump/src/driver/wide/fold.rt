//! Lines of any length that repeat the line before.
ghost use Rattle.std.specs.Prelude.{◌≡◌, ℕ, suc, ◌<◌, ◌≤◌, false, List, length, min, take, bytes_eq};

use bx_text::Show;

/// The most bytes of a line.
const WIDEST: usize = 256;

/// What the next line is compared with.
#[derive(Drop)]
pub struct WideFold {
    /// The last line, at the front.
    last: [u8; WIDEST],
    /// How many bytes it has: none before the first.
    len: usize,
    /// Whether a `*` stands for it.
    hidden: bool,
}

impl WideFold {
    ghost use Rattle.bx_dump.specs.FoldBy.{line_bytes_by, show_by};
    ghost use Rattle.bx_dump.specs.private.FoldBy.{HasTakenBy};

    /// No line was seen yet.
    pub fn new() -> WideFold
        ensures { result.len ≡ 0 }
    {
        WideFold {
            last: [0; WIDEST],
            len: 0,
            hidden: false,
        }
    }

    /// Whether a line has the bytes of the last one. 16 bytes are compared at once.
    #[inline(always)]
    fn repeats(&self, line: &[u8]) -> bool
        ensures { result ≡ bytes_eq line.now (take (min self.now.len 256) self.now.last) }
    {
        if self.len == 16 && line.len() == 16 {
            return line[..16] == self.last[..16];
        }
        line == &self.last[..self.len.min(WIDEST)]
    }

    /// Keeps a line, 16 bytes at once.
    #[inline(always)]
    fn keep(&mut self, line: &[u8])
        requires { length line.now ≤ 256 }
        ensures last { take self.new.len self.new.last ≡ line.now }
        ensures hidden { self.new.hidden ≡ false }
    {
        self.len = line.len();
        self.hidden = false;
        if line.len() == 16 {
            self.last[..16].copy_from_slice(&line[..16]);
        } else {
            self.last[..line.len()].copy_from_slice(line);
        }
    }

    /// Says what stands for the next line.
    #[inline]
    pub fn step(&mut self, line: &[u8]) -> Show
        requires some { 0 < length line.now }
        requires fits { length line.now ≤ 256 }
        ensures show { (n : ℕ) (bytes : List ℕ) (k : ℕ) → line.now ≡ line_bytes_by n bytes k → HasTakenBy n self.old bytes k → result ≡ show_by n bytes k }
        ensures taken { (n : ℕ) (bytes : List ℕ) (k : ℕ) → line.now ≡ line_bytes_by n bytes k → HasTakenBy n self.old bytes k → HasTakenBy n self.new bytes (suc k) }
    {
        if self.repeats(line) {
            if self.hidden {
                return Show::Nothing;
            }
            self.hidden = true;
            return Show::Star;
        }
        self.keep(line);
        Show::Line
    }
}
