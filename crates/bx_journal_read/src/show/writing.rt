//! What is written, counted.
ghost use Rattle.std.specs.Prelude.{◌≡◌, OnOk, IfOk, IfErr};
ghost use Rattle.std.specs.Io.KnownBytes.{Appends};
ghost use Rattle.bx_journal_read.specs.show.Showing.{CountsNone, PutFault};
ghost use Rattle.bx_journal_read.specs.show.Stopping.{CountsBytes, StopsPrefix};

use crate::show::fault::ShowFault;
use bx_journal_model::WINDOW;
use bx_text::emit_after;
use std::alloc::{AllocError, Allocator, Global};
use std::io::Write;

/// What steps are written with: an allocator, a window of the text, the lines that are gathered, and how many bytes were written.
#[derive(Drop)]
pub struct Writing<A: Allocator = Global> {
    pub alloc: A,
    pub window: Vec<u8, A>,
    pub gathered: Vec<u8, A>,
    pub written: u64,
}

/// A window and no lines yet, where `written` bytes were written.
pub fn begin_writing<A: Allocator + Clone>(
    alloc: &A,
    written: u64,
) -> Result<Writing<A>, AllocError>
    ensures { IfOk result (λ writing. writing.written ≡ written) }
{
    Ok(Writing {
        alloc: alloc.clone()?,
        window: vec![in alloc.clone()?; 0u8; WINDOW as usize]?,
        gathered: Vec::new(alloc.clone()?),
        written,
    })
}

/// Writes bytes behind `before` others, and answers how many that are together.
pub fn put<W: Write>(out: &mut W, before: u64, bytes: &[u8]) -> Result<u64, ShowFault>
    ensures put { OnOk result (Appends (W.contents out.old) (W.contents out.new) bytes.now) }
    ensures kind { IfErr result PutFault }
    ensures counts { IfErr result CountsNone }
    ensures counted { IfOk result (CountsBytes before bytes.now) }
    ensures stops { IfErr result (StopsPrefix before bytes.now (W.contents out.old) (W.contents out.new)) }
{
    let len = bytes.len() as u64;
    emit_after(out, before.min(u64::MAX - len), bytes)?;
    Ok(before.saturating_add(len))
}
