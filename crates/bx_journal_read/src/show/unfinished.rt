//! The finished entries of a text, and what is unfinished behind them.
ghost use Rattle.std.specs.Prelude.{◌≡◌, ◌<◌, ◌++◌, OnOk, IfOk, IfErr, string_bytes};
ghost use Rattle.std.specs.Io.KnownBytes.{Appends};
ghost use Rattle.bx_journal_read.specs.scan.Recovery.{IsUnfinishedIn};
ghost use Rattle.bx_journal_read.specs.show.Showing.{CountsNone, PutFault};
ghost use Rattle.bx_journal_read.specs.show.ShownSteps.{FindsFront, torn_line, torn_text};
ghost use Rattle.bx_journal_read.specs.show.Stopping.{CountsBytes, StopsPrefix};

use crate::show::fault::ShowFault;
use crate::show::marks::{marks_in_windows, marks_to};
use crate::show::writing::put;
use crate::{Found, Torn, read_text};
use bx_journal_format::Mark;
use bx_journal_model::SessionFault;
use bx_journal_store::TextStore;
use std::alloc::{AllocError, Allocator, Global};
use std::fmt::Write as _;
use std::io::Write;

/// The marks of the finished entries of a text, and what is unfinished behind them.
#[derive(Drop)]
pub struct Marked<A: Allocator = Global> {
    pub marks: Vec<Mark, A>,
    pub torn: Option<Torn>,
}

/// The marks of the entries before what is unfinished.
fn marks_before<T: TextStore, A: Allocator + Clone>(
    alloc: &A,
    store: &mut T,
    torn: Torn,
) -> Result<Marked<A>, SessionFault>
    requires countable { T.failures store.old < u64.MAX }
    requires unfinished { IsUnfinishedIn (T.faithful store.old) (T.text store.old) torn }
    ensures { FindsFront T.faithful T.text T.survives T.failures result store.old store.new }
{
    let found = match marks_to(alloc, store, torn.begins) {
        Ok(found) => found,
        Err(fault) => return Err(fault),
    };
    let Some(marks) = found else {
        return Err(SessionFault::NoMemory);
    };
    Ok(Marked {
        marks,
        torn: Some(torn),
    })
}

/// The marks of a text that isn't finished entries alone.
fn marks_of_unfinished<T: TextStore, A: Allocator + Clone>(
    alloc: &A,
    store: &mut T,
) -> Result<Marked<A>, SessionFault>
    requires { T.failures store.old < u64.MAX }
    ensures { FindsFront T.faithful T.text T.survives T.failures result store.old store.new }
{
    let found = match read_text(alloc, store) {
        Ok(found) => found,
        Err(fault) => return Err(fault),
    };
    match found {
        Found::Finished(_) => Err(SessionFault::NoMemory),
        Found::Unfinished(torn) => marks_before(alloc, store, torn),
    }
}

/// The marks of the finished entries of a text. It changes nothing.
pub fn front_marks<T: TextStore, A: Allocator + Clone>(
    alloc: &A,
    store: &mut T,
) -> Result<Marked<A>, SessionFault>
    requires { T.failures store.old < u64.MAX }
    ensures { FindsFront T.faithful T.text T.survives T.failures result store.old store.new }
{
    let found = match marks_in_windows(alloc, store) {
        Ok(found) => found,
        Err(fault) => return Err(fault),
    };
    match found {
        Some(marks) => Ok(Marked { marks, torn: None }),
        None => marks_of_unfinished(alloc, store),
    }
}

/// The line on what is unfinished.
fn push_torn<A: Allocator>(text: &mut String<A>, torn: Torn) -> Result<(), AllocError>
    ensures { OnOk result (string_bytes text.new ≡ string_bytes text.old ++ torn_line torn) }
{
    let number = torn.count as u64 + 1;
    if torn.mark.is_some() {
        return write!(
            text,
            "# change {}: unfinished, the next command takes it back\n",
            number
        );
    }
    write!(
        text,
        "# change {}: unfinished, the next command drops it\n",
        number
    )
}

/// Writes the line on what is unfinished, if anything is.
pub fn put_torn<A: Allocator + Clone, W: Write>(
    alloc: &A,
    torn: Option<Torn>,
    out: &mut W,
) -> Result<u64, ShowFault>
    ensures line { OnOk result (Appends (W.contents out.old) (W.contents out.new) (torn_text torn)) }
    ensures kind { IfErr result PutFault }
    ensures counts { IfErr result CountsNone }
    ensures counted { IfOk result (CountsBytes 0 (torn_text torn)) }
    ensures stops { IfErr result (StopsPrefix 0 (torn_text torn) (W.contents out.old) (W.contents out.new)) }
{
    let Some(torn) = torn else {
        return Ok(0);
    };
    let mut text = String::new(alloc.clone()?);
    push_torn(&mut text, torn)?;
    put(out, 0, text.as_bytes())
}
