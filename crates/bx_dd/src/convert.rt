//! Blocks converted one by one.
ghost use Rattle.std.specs.Prelude.{◌≡◌, ◌≢◌, ℕ, ◌+◌, ◌-◌, ◌%◌, ◌^◌, ◌<◌, ◌≤◌, List, [], ◌++◌, length, min, vec_capacity, IfOk, OnOk, IsOkUnless};
ghost use Rattle.bx_dd.specs.Counting.{counts_of};
ghost use Rattle.bx_dd.specs.Output.{converted, turned_blocks, unfinished};
ghost use Rattle.bx_dd.specs.private.Output.{block_of};
ghost use Rattle.bx_dd.specs.Plan.{plan_form};
ghost use Rattle.bx_dd.specs.Standing.{IsAfter};
ghost use Rattle.bx_dd.specs.private.Paged.{Takes, TakesWithin};
ghost use Rattle.bx_dd.specs.private.Standing.{last_of, HasSizes};
ghost use Rattle.bx_dd.specs.declared.form.Shape.TheVariants.{Flat, Unblock};

mod block;
pub(crate) mod records;
pub(crate) mod units;

use crate::convert::block::ready_block;
use crate::convert::records::{Tail, push_rest, push_shaped};
use crate::counts::{Counts, Transfer};
use crate::fault::DdFault;
use crate::form::{Form, Shape};
use crate::operands::plan::Plan;
use crate::page::Page;
use bx_text::Bytes;
use std::alloc::{AllocError, Allocator, Global};
use std::marker::Model;

/// A conversion under way: the output so far, and the bytes of the record that may go on.
#[derive(Drop)]
pub struct Convert<A: Allocator = Global> {
    alloc: A,
    form: Form,
    taken: u64,
    out: Vec<u8, A>,
    held: Vec<u8, A>,
    over: bool,
    cut: u64,
}

impl<A: Allocator> Model for Convert<A> {
    ghost use Rattle.bx_dd.specs.Standing.{Progress};

    ghost Value = { Progress };

    ghost use Rattle.bx_dd.specs.declared.form.Shape.TheVariants.{Flat, Unblock};
    ghost use Rattle.std.specs.Prelude.{length, vec_capacity, ◌<◌, ◌≤◌, ◌≡◌, ◌≢◌, ◌+◌, ◌%◌, ◌^◌};
    ghost use Rattle.bx_dd.specs.private.Standing.{HasSizes};

    ghost view = { λ c. record { form = c.form; taken = c.taken; out = c.out.items; held = c.held.items; over = c.over; cut = c.cut } };

    ghost invariant = { λ c. HasSizes c.form
        × (length c.held.items ≤ c.form.cbs)
        × (c.form.shape ≢ Flat → c.form.cbs ≤ vec_capacity c.held)
        × (c.form.shape ≡ Unblock → length c.held.items < c.form.cbs)
        × (c.taken ≤ 2 ^ 40)
        × (c.cut ≤ c.taken + 1099511627775)
        × (c.taken % c.form.ibs ≡ 0 → c.cut ≤ c.taken) };
}

impl<A: Allocator + Clone> Convert<A> {
    /// Nothing converted yet. The one fault is want of memory.
    pub fn new<P: Allocator>(alloc: A, plan: &Plan<P>) -> Result<Convert<A>, DdFault>
        ensures form { IfOk result (λ c. c.form ≡ plan_form plan.now) }
        ensures after { IfOk result (λ c. IsAfter [] c) }
        ensures fault { IsOkUnless result DdFault.NoMemory }
    {
        let out = Vec::new(alloc.clone()?);
        let form = plan.form();
        let held = Vec::with_capacity(alloc.clone()?, room_for(form))?;
        Ok(Convert {
            alloc,
            form,
            taken: 0,
            out,
            held,
            over: false,
            cut: 0,
        })
    }
}

impl<A: Allocator> Convert<A> {
    /// The next block: 1 to `ibs` bytes, after whole blocks alone. The one fault is want of memory, and the conversion is then given up.
    pub fn block(self, b: &[u8]) -> Result<Convert<A>, DdFault>
        requires some { 0 < length b.now }
        requires fits { length b.now ≤ self.form.ibs }
        requires whole { self.taken % self.form.ibs ≡ 0 }
        requires few { self.taken + length b.now ≤ 2 ^ 40 }
        ensures form { IfOk result (λ c. c.form ≡ self.form) }
        ensures taken { IfOk result (λ c. c.taken ≡ self.taken + length b.now) }
        ensures after { (input : List ℕ) → IsAfter input self → IfOk result (λ c. IsAfter (input ++ b.now) c) }
        ensures fault { IsOkUnless result DdFault.NoMemory }
    {
        let mut next = self;
        let form = next.form;
        let tail = Tail {
            over: next.over,
            cut: next.cut,
        };
        let tail = take_block(&next.alloc, &mut next.out, &mut next.held, tail, b, form)?;
        next.over = tail.over;
        next.cut = tail.cut;
        next.taken += b.len() as u64;
        Ok(next)
    }

    /// The output and the counts. The one fault is want of memory.
    pub fn finish(self) -> Result<Transfer<A>, DdFault>
        ensures bytes { (input : List ℕ) → IsAfter input self → IfOk result (λ t. t.bytes ≡ converted self.form input) }
        ensures counts { (input : List ℕ) → IsAfter input self → IfOk result (λ t. t.counts ≡ counts_of self.form input) }
        ensures fault { IsOkUnless result DdFault.NoMemory }
    {
        let Convert {
            alloc,
            form,
            taken,
            mut out,
            held,
            over,
            cut,
        } = self;
        end_output(&alloc, &mut out, held.as_slice(), form)?;
        let length = out.len() as u64;
        let counts = Counts {
            whole_in: taken / form.ibs,
            part_in: (taken % form.ibs).min(1),
            whole_out: length / form.obs,
            part_out: (length % form.obs).min(1),
            cut: if over { cut + 1 } else { cut },
        };
        Ok(Transfer {
            bytes: Bytes::from_vec(out),
            counts,
        })
    }

    /// How many bytes were given.
    pub fn taken(&self) -> u64
        ensures taken { result ≡ self.now.taken }
        ensures given { (input : List ℕ) → IsAfter input self.now → result ≡ length input }
    {
        self.taken
    }

    /// How many bytes of the record that may go on are kept.
    pub fn held(&self) -> u64
        ensures held { result ≡ length self.now.held }
        ensures kept { (x : List ℕ) → IsAfter x self.now →
            let form = self.now.form in result ≡ min form.cbs (unfinished form.shape form.cbs (turned_blocks form x)) }
    {
        self.held.len() as u64
    }

    /// What the records that are finished give.
    pub fn out(&self) -> &[u8]
        ensures out { result.now ≡ self.now.out }
    {
        self.out.as_slice()
    }
}

/// How many bytes of a record are kept at most.
pub fn room_for(form: Form) -> usize
    ensures { form.shape ≢ Flat → result ≡ form.cbs }
{
    if form.shape == Shape::Flat {
        return 0;
    }
    form.cbs as usize
}

/// The next block, made ready and put into records.
fn take_block<A: Allocator>(
    alloc: &A,
    out: &mut Vec<u8, A>,
    held: &mut Vec<u8, A>,
    tail: Tail,
    b: &[u8],
    form: Form,
) -> Result<Tail, AllocError>
    requires sizes { HasSizes form }
    requires fits { length b.now ≤ form.ibs }
    requires room { length held.old.items ≤ form.cbs }
    requires space { form.shape ≢ Flat → form.cbs ≤ vec_capacity held.old }
    requires part { form.shape ≡ Unblock → length held.old.items < form.cbs }
    requires few { tail.cut + 1099511627775 < 2 ^ 64 }
    ensures within { IfOk result (TakesWithin form held.new.items tail (length b.now)) }
    ensures part { IfOk result (λ t. form.shape ≡ Unblock → length held.new.items < form.cbs) }
    ensures space { vec_capacity held.old ≤ vec_capacity held.new }
    ensures next { Takes form out.old.items out.new.items held.old.items held.new.items tail (block_of form b.now) result }
{
    let ready = ready_block(alloc, b, form)?;
    let next = put_ready(alloc, out, held, tail, ready.as_slice(), form)?;
    Ok(next)
}

/// Puts a ready block into records.
fn put_ready<A: Allocator>(
    alloc: &A,
    out: &mut Vec<u8, A>,
    held: &mut Vec<u8, A>,
    tail: Tail,
    ready: &[u8],
    form: Form,
) -> Result<Tail, AllocError>
    requires sizes { HasSizes form }
    requires room { length held.old.items ≤ form.cbs }
    requires space { form.shape ≢ Flat → form.cbs ≤ vec_capacity held.old }
    requires part { form.shape ≡ Unblock → length held.old.items < form.cbs }
    requires few { tail.cut + length ready.now < 2 ^ 64 }
    ensures within { IfOk result (λ t. (length held.new.items ≤ form.cbs) × (t.cut ≤ tail.cut + length ready.now)) }
    ensures part { IfOk result (λ t. form.shape ≡ Unblock → length held.new.items < form.cbs) }
    ensures space { vec_capacity held.old ≤ vec_capacity held.new }
    ensures next { Takes form out.old.items out.new.items held.old.items held.new.items tail ready.now result }
{
    let mut page = Page::direct(alloc, out.len() as u64);
    let next = match push_shaped(&mut page, out, held, tail, ready, form) {
        Ok(next) => next,
        Err(_) => return Err(AllocError),
    };
    match page.flush(out) {
        Ok(()) => Ok(next),
        Err(_) => Err(AllocError),
    }
}

/// Puts what the input's end gives of a record that was kept.
fn end_output<A: Allocator>(
    alloc: &A,
    out: &mut Vec<u8, A>,
    held: &[u8],
    form: Form,
) -> Result<(), AllocError>
    requires { length held.now ≤ form.cbs }
    ensures ok { OnOk result (out.new.items ≡ out.old.items ++ last_of form.shape form.cbs held.now) }
{
    let mut page = Page::direct(alloc, out.len() as u64);
    match push_rest(&mut page, out, held, form) {
        Ok(()) => {}
        Err(_) => return Err(AllocError),
    }
    match page.flush(out) {
        Ok(()) => Ok(()),
        Err(_) => Err(AllocError),
    }
}
