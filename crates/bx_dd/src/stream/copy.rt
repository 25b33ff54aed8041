//! A copy to a writer, written as it is read.
ghost use Rattle.std.specs.Prelude.{◌≡◌, ◌≢◌, ℕ, ◌+◌, ◌-◌, ◌*◌, ◌^◌, ◌<◌, ◌≤◌, max, [], length, take, vec_capacity, true, false, Option, IfOk, IfErr, OnOk};
ghost use Rattle.bx_dd.specs.Plan.{plan_form};
ghost use Rattle.bx_dd.specs.private.Standing.{HasSizes};
ghost use Rattle.bx_dd.specs.Streaming.{IsCopy, StopsCopy};
ghost use Rattle.bx_dd.specs.private.Paged.{CountsAll, Finishes, Flushes, TakesTurn, IsFresh, Passes, StopsFinish, StopsFlush, StopsStageOf, output_with};
ghost use Rattle.bx_dd.specs.private.Streaming.{CopiesRest, Grows, StopsPass, most_of, unit_of};
ghost use Rattle.bx_dd.specs.declared.form.Shape.TheVariants.{Flat, Unblock};

use crate::convert::records::{Tail, push_rest, push_shaped};
use crate::convert::room_for;
use crate::convert::units::{move_front, turn_last, turn_units, unit_len};
use crate::counts::Counts;
use crate::form::Form;
use crate::operands::plan::Plan;
use crate::page::{PAGE, Page};
use bx_text::{IoFault, Meter, State};
use std::alloc::{AllocError, Allocator};
use std::io::{Read, Write};

/// How many bytes are read at most, skipped ones included.
const LIMIT: u64 = 1 << 40;

/// The memory of a copy.
#[derive(Drop)]
struct Buffers<A: Allocator> {
    input: Vec<u8, A>,
    waiting: Waiting<A>,
}

/// What waits: the bytes that are kept of a record that may go on, and the page.
#[derive(Drop)]
struct Waiting<A: Allocator> {
    held: Vec<u8, A>,
    page: Page<A>,
}

/// What is copied: how many bytes at most, and how they are converted.
#[derive(Clone, Copy)]
struct Task {
    most: u64,
    form: Form,
}

/// Where a copy stands: its records, how many bytes wait in front of the input's buffer, and how many were read.
#[derive(Clone, Copy)]
struct Turn {
    tail: Tail,
    have: usize,
    read: u64,
}

/// The input after the skipped blocks, converted and written as it is read.
///
/// Blocks are filled, whatever pieces the reader gives; where it gives fewer bytes than were asked for, what was converted
/// goes out before it is asked again. The plan's `seek` means nothing here. Memory is taken before the first read.
pub fn copy_out<R: Read, W: Write, A: Allocator + Clone, P: Allocator>(
    alloc: A,
    r: &mut R,
    w: &mut W,
    plan: &Plan<P>,
) -> Result<Counts, IoFault>
    ensures ok { IfOk result (IsCopy plan.now (R.remaining r.old) (R.remaining r.new) (W.contents w.old) (W.contents w.new)) }
    ensures err { IfErr result (StopsCopy plan.now (R.remaining r.old) (R.remaining r.new) (W.contents w.old) (W.contents w.new)) }
{
    match take_memory(alloc, plan.form()) {
        Ok(buffers) => copy_with(buffers, r, w, plan),
        Err(_) => Err(IoFault::NoMemory),
    }
}

/// The memory of a copy, all that it needs. There is a page for output, and one for input where blocks are smaller.
fn take_memory<A: Allocator + Clone>(alloc: A, form: Form) -> Result<Buffers<A>, AllocError>
    requires { HasSizes form }
    ensures input { IfOk result (λ b. unit_of form ≤ length b.input.items) }
    ensures few { IfOk result (λ b. length b.input.items ≤ max (2 ^ 24) form.ibs) }
    ensures held { IfOk result (λ b. b.waiting.held.items ≡ []) }
    ensures space { IfOk result (λ b. form.shape ≢ Flat → form.cbs ≤ vec_capacity b.waiting.held) }
    ensures page { IfOk result (λ b. (b.waiting.page.bytes.items ≡ []) × (b.waiting.page.written ≡ 0)) }
{
    let unit = unit_len(form);
    let size = if unit < PAGE {
        PAGE - PAGE % unit
    } else {
        unit
    };
    let input = vec![in alloc.clone()?; 0u8; size]?;
    let held = Vec::with_capacity(alloc.clone()?, room_for(form))?;
    let page = Page {
        bytes: Vec::with_capacity(alloc, PAGE)?,
        written: 0,
    };
    Ok(Buffers {
        input,
        waiting: Waiting { held, page },
    })
}

/// The copy, in this memory.
fn copy_with<R: Read, W: Write, A: Allocator, P: Allocator>(
    buffers: Buffers<A>,
    r: &mut R,
    w: &mut W,
    plan: &Plan<P>,
) -> Result<Counts, IoFault>
    requires input { unit_of (plan_form plan.now) ≤ length buffers.input.items }
    requires few { length buffers.input.items ≤ max (2 ^ 24) plan.now.ibs }
    requires held { buffers.waiting.held.items ≡ [] }
    requires space { plan.now.shape ≢ Flat → plan.now.cbs ≤ vec_capacity buffers.waiting.held }
    requires page { (buffers.waiting.page.bytes.items ≡ []) × (buffers.waiting.page.written ≡ 0) }
    ensures ok { IfOk result (IsCopy plan.now (R.remaining r.old) (R.remaining r.new) (W.contents w.old) (W.contents w.new)) }
    ensures err { IfErr result (StopsCopy plan.now (R.remaining r.old) (R.remaining r.new) (W.contents w.old) (W.contents w.new)) }
{
    let Buffers {
        mut input,
        mut waiting,
    } = buffers;
    let form = plan.form();
    let buf = input.as_mut_slice();
    let mut meter = Meter::new(LIMIT);
    let all = match meter.skip(r, plan.skip * plan.ibs, buf) {
        Ok(all) => all,
        Err(fault) => return Err(fault),
    };
    if all {
        let most = most_of(plan.count, plan.ibs);
        return copy_rest(&mut meter, r, &mut waiting, w, buf, Task { most, form });
    }
    let none = Tail {
        over: false,
        cut: 0,
    };
    Ok(counts(form, 0, 0, none))
}

/// How many bytes are copied at most, or `u64::MAX` where they are more.
fn most_of(count: Option<u64>, ibs: u64) -> u64
    ensures { result ≡ most_of count ibs }
{
    match count {
        Some(count) => count.saturating_mul(ibs),
        None => u64::MAX,
    }
}

/// Copies the rest of an input, at most `task.most` bytes of it.
fn copy_rest<R: Read, W: Write, A: Allocator>(
    meter: &mut Meter,
    r: &mut R,
    waiting: &mut Waiting<A>,
    w: &mut W,
    buf: &mut [u8],
    task: Task,
) -> Result<Counts, IoFault>
    requires open { meter.old.state ≡ State.Open }
    requires fresh { IsFresh task.form meter.old.limit buf.old waiting.old }
    ensures ok { IfOk result (CopiesRest task.form task.most meter.old.taken (R.remaining r.old) (R.remaining r.new) (W.contents w.old) (W.contents w.new)) }
    ensures err { IfErr result (StopsPass task.form task.most meter.old.taken (R.remaining r.old) (R.remaining r.new) (W.contents w.old) (W.contents w.new)) }
{
    let turn = match copy_units(meter, r, waiting, w, buf, task) {
        Ok(turn) => turn,
        Err(fault) => return Err(fault),
    };
    match finish(waiting, w, turn, buf, task.form) {
        Ok(tail) => Ok(counts(task.form, turn.read, waiting.page.written, tail)),
        Err(fault) => Err(fault),
    }
}

/// The counts of `read` bytes that were read and `written` that were written.
fn counts(form: Form, read: u64, written: u64, tail: Tail) -> Counts
    requires sizes { HasSizes form }
    requires few { tail.cut ≤ 2 ^ 42 }
    ensures counts { CountsAll form read written tail result }
{
    Counts {
        whole_in: read / form.ibs,
        part_in: (read % form.ibs).min(1),
        whole_out: written / form.obs,
        part_out: (written % form.obs).min(1),
        cut: if tail.over { tail.cut + 1 } else { tail.cut },
    }
}

/// Converts the whole units in front of the input's buffer, and moves what is left to its front.
fn pass<W: Write, A: Allocator>(
    waiting: &mut Waiting<A>,
    w: &mut W,
    turn: Turn,
    buf: &mut [u8],
    form: Form,
) -> Result<Turn, IoFault>
    requires sizes { HasSizes form }
    requires inside { turn.have ≤ length buf.old }
    requires room { length waiting.old.held.items ≤ form.cbs }
    requires space { form.shape ≢ Flat → form.cbs ≤ vec_capacity waiting.old.held }
    requires part { form.shape ≡ Unblock → length waiting.old.held.items < form.cbs }
    requires few { turn.tail.cut + turn.have < 2 ^ 64 }
    ensures within { IfOk result (λ t. (length waiting.new.held.items ≤ form.cbs) × (t.tail.cut + t.have ≤ turn.tail.cut + turn.have)
        × (t.have < unit_of form)) }
    ensures part { IfOk result (λ t. form.shape ≡ Unblock → length waiting.new.held.items < form.cbs) }
    ensures space { vec_capacity waiting.old.held ≤ vec_capacity waiting.new.held }
    ensures read { IfOk result (λ t. t.read ≡ turn.read) }
    ensures ok { TakesTurn form (output_with (W.contents w.old) waiting.old) (output_with (W.contents w.new) waiting.new) buf.old buf.new turn result }
    ensures err { StopsStageOf form (output_with (W.contents w.old) waiting.old) (W.contents w.new) (take turn.have buf.old) turn.tail result }
    ensures grows { Grows waiting.old.page.written waiting.new.page.written result }
{
    let whole = turn.have - turn.have % unit_len(form);
    let rest = turn.have - whole;
    turn_units(&mut buf[..whole], form);
    match push_shaped(
        &mut waiting.page,
        w,
        &mut waiting.held,
        turn.tail,
        &buf[..whole],
        form,
    ) {
        Ok(tail) => {
            move_front(buf, whole, rest);
            Ok(Turn {
                tail,
                have: rest,
                read: turn.read,
            })
        }
        Err(fault) => Err(fault),
    }
}

/// Writes what waits, where the input paused.
fn pause<W: Write, B: Allocator>(page: &mut Page<B>, w: &mut W, paused: bool) -> Result<(), IoFault>
    ensures none { paused ≡ true → OnOk result (page.new.bytes.items ≡ []) }
    ensures ok { Flushes (W.contents w.old) (W.contents w.new) page.old page.new result }
    ensures err { StopsFlush (W.contents w.old) (W.contents w.new) page.old result }
    ensures grows { Grows page.old.written page.new.written result }
{
    if paused {
        return page.flush(w);
    }
    Ok(())
}

/// Converts what the input's end left, and writes all that waits.
fn finish<W: Write, A: Allocator>(
    waiting: &mut Waiting<A>,
    w: &mut W,
    turn: Turn,
    buf: &mut [u8],
    form: Form,
) -> Result<Tail, IoFault>
    requires sizes { HasSizes form }
    requires few { turn.have < unit_of form }
    requires inside { unit_of form ≤ length buf.old }
    requires room { length waiting.old.held.items ≤ form.cbs }
    requires space { form.shape ≢ Flat → form.cbs ≤ vec_capacity waiting.old.held }
    requires part { form.shape ≡ Unblock → length waiting.old.held.items < form.cbs }
    requires cut { turn.tail.cut ≤ 2 ^ 41 }
    ensures cut { IfOk result (λ t. t.cut ≤ 2 ^ 42) }
    ensures ok { Finishes form (output_with (W.contents w.old) waiting.old) (output_with (W.contents w.new) waiting.new) (take turn.have buf.old) turn.tail result }
    ensures err { StopsFinish form (output_with (W.contents w.old) waiting.old) (W.contents w.new) (take turn.have buf.old) turn.tail result }
    ensures grows { Grows waiting.old.page.written waiting.new.page.written result }
{
    let n = turn_last(buf, turn.have, form);
    let tail = match push_shaped(
        &mut waiting.page,
        w,
        &mut waiting.held,
        turn.tail,
        &buf[..n],
        form,
    ) {
        Ok(tail) => tail,
        Err(fault) => return Err(fault),
    };
    match push_rest(&mut waiting.page, w, waiting.held.as_slice(), form) {
        Ok(()) => {}
        Err(fault) => return Err(fault),
    }
    match waiting.page.flush(w) {
        Ok(()) => Ok(tail),
        Err(fault) => Err(fault),
    }
}

/// Reads at most `task.most` bytes, and converts their whole units. Where fewer come than were asked for, what was converted goes
/// out before more are.
fn copy_units<R: Read, W: Write, A: Allocator>(
    meter: &mut Meter,
    r: &mut R,
    waiting: &mut Waiting<A>,
    w: &mut W,
    buf: &mut [u8],
    task: Task,
) -> Result<Turn, IoFault>
    requires open { task.most ≢ 0 → meter.old.state ≡ State.Open }
    requires fresh { IsFresh task.form meter.old.limit buf.old waiting.old }
    ensures within { IfOk result (λ t. (length waiting.new.held.items ≤ task.form.cbs) × (t.tail.cut ≤ 2 ^ 40) × (t.have < unit_of task.form)) }
    ensures part { IfOk result (λ t. task.form.shape ≡ Unblock → length waiting.new.held.items < task.form.cbs) }
    ensures space { vec_capacity waiting.old.held ≤ vec_capacity waiting.new.held }
    ensures limit { meter.new.limit ≡ 2 ^ 40 }
    ensures taken { IfOk result (λ t. meter.new.taken ≡ meter.old.taken + t.read) }
    ensures ok { IfOk result (Passes task (R.remaining r.old) (R.remaining r.new) (W.contents w.old) buf.new (output_with (W.contents w.new) waiting.new)) }
    ensures err { IfErr result (StopsPass task.form task.most meter.old.taken (R.remaining r.old) (R.remaining r.new) (W.contents w.old) (W.contents w.new)) }
{
    let mut turn = Turn {
        tail: Tail {
            over: false,
            cut: 0,
        },
        have: 0,
        read: 0,
    };
    while turn.read < task.most {
        let want = (task.most - turn.read).min((buf.len() - turn.have) as u64) as usize;
        let n = match meter.read(r, &mut buf[turn.have..turn.have + want]) {
            Ok(n) => n,
            Err(fault) => return Err(fault),
        };
        if n == 0 {
            return Ok(turn);
        }
        let next = Turn {
            tail: turn.tail,
            have: turn.have + n,
            read: turn.read + n as u64,
        };
        turn = match pass(waiting, w, next, buf, task.form) {
            Ok(turn) => turn,
            Err(fault) => return Err(fault),
        };
        match pause(&mut waiting.page, w, n < want) {
            Ok(()) => {}
            Err(fault) => return Err(fault),
        }
    }
    Ok(turn)
}
