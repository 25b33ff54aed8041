//! What the note beside a journal says of the image.
ghost use Rattle.std.specs.Prelude.{◌≡◌, ◌↔◌, ◌≤◌, ◌+◌, List, ℕ, cond, length};
ghost use Rattle.bx_world.specs.World.{IsFrontRead};
ghost use Rattle.bx_world.specs.files.Reading.{StaysSeen};
ghost use Rattle.bx_run_report.specs.report.Noted.{IsLineIn, IsNoteLine};

use bx_journal_image::{ImageLine, LINE, read_line};
use bx_world::World;

/// What the note says.
#[derive(Clone, Copy)]
pub struct NoteLine {
    /// The line that it is; none where it is no such line, and where it isn't read.
    pub line: Option<ImageLine>,
    /// Whether it was read.
    pub is_read: bool,
}

/// The line that a note is whose first `n` bytes stand in a buffer that has room for one more than a line.
fn note_line(buf: &[u8], n: usize) -> Option<ImageLine>
    requires within { n ≤ length buf.now }
    ensures { (note : List ℕ) → IsFrontRead n 440 buf.now note → IsLineIn note result }
{
    if n > LINE {
        return None;
    }
    read_line(&buf[..n])
}

/// Reads the note.
pub fn read_note_line<W: World>(world: &mut W) -> NoteLine
    ensures told { W.faithful world.old → IsNoteLine (W.note world.old) result }
    ensures beside { W.faithful world.old → W.beside world.new ≡ W.beside world.old }
    ensures counted { W.faithful world.old → W.refusals world.new ≡ cond result.is_read (W.refusals world.old) (W.refusals world.old + 1) }
    ensures seen { W.faithful world.old → StaysSeen W.state W.survives world.old world.new }
    ensures note { W.faithful world.old → W.note world.new ≡ W.note world.old }
    ensures faith { W.faithful world.new ↔ W.faithful world.old }
{
    let mut buf = [0u8; 440];
    match world.read_note(&mut buf) {
        Ok(n) => NoteLine {
            line: note_line(&buf, n),
            is_read: true,
        },
        Err(_) => NoteLine {
            line: None,
            is_read: false,
        },
    }
}
