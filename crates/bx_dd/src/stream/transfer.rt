//! Whole inputs, converted.
ghost use Rattle.std.specs.Prelude.{◌≡◌, ℕ, ◌+◌, ◌-◌, ◌*◌, ◌^◌, ◌<◌, ◌≤◌, [], length, take, IfOk, IfErr, OnOk, OnErr, ◌⊎◌};
ghost use Rattle.std.specs.Io.KnownBytes.{Consumes, IsAtEnd};
ghost use Rattle.bx_text.specs.Stream.{IsReadCause};
ghost use Rattle.bx_dd.specs.Standing.{IsAfter};
ghost use Rattle.bx_dd.specs.Transfer.{Copies, HasStopped, ReadsWithin};
ghost use Rattle.bx_dd.specs.private.Transfer.{IsStopCause, ReadsBlocks, StopsWithin, TakesBlocks};

use crate::convert::Convert;
use crate::counts::Transfer;
use crate::fault::DdFault;
use crate::operands::plan::Plan;
use bx_text::{IoFault, Meter, State};
use std::alloc::Allocator;
use std::io::Read;

/// How many bytes are read at most, skipped ones included.
const LIMIT: u64 = 1 << 40;

/// The input after the skipped blocks, converted: blocks are filled, whatever pieces the reader gives.
///
/// It is read up to its end, or to the end of skip and count, and no further. Want of memory, a failed read and an input of
/// more than 2^40 bytes stop it.
pub fn transfer<R: Read, A: Allocator + Clone, P: Allocator>(
    alloc: A,
    r: &mut R,
    plan: &Plan<P>,
) -> Result<Transfer<A>, DdFault>
    ensures ok { IfOk result (λ t. Copies plan.now (R.remaining r.old) (R.remaining r.new) t.bytes t.counts) }
    ensures err { IfErr result (λ e. HasStopped (R.remaining r.old) (R.remaining r.new) (2 ^ 40) e) }
    ensures within { OnErr result (ReadsWithin plan.now (R.remaining r.old) (R.remaining r.new)) }
{
    let mut block = vec![in alloc.clone()?; 0u8; plan.ibs as usize]?;
    let mut meter = Meter::new(LIMIT);
    skip_blocks(&mut meter, r, block.as_mut_slice(), plan.skip)?;
    let convert = Convert::new(alloc, plan)?;
    let count = plan.count.unwrap_or(u64::MAX);
    let convert = take_blocks(&mut meter, r, block.as_mut_slice(), count, convert)?;
    convert.finish()
}

/// The fault of reading, as dd's.
fn fault(error: IoFault) -> DdFault
    ensures cause { (wanted room n : ℕ) → IsReadCause error wanted room n → IsStopCause result room n }
    ensures long { error ≡ IoFault.InputTooLong → result ≡ DdFault.InputTooLong }
    ensures memory { error ≡ IoFault.NoMemory → result ≡ DdFault.NoMemory }
{
    match error {
        IoFault::InputTooLong => DdFault::InputTooLong,
        IoFault::NoMemory => DdFault::NoMemory,
        _ => DdFault::ReadFailed,
    }
}

/// Fills a block, or as much of it as the input has left.
fn read_block<R: Read>(meter: &mut Meter, r: &mut R, block: &mut [u8]) -> Result<usize, DdFault>
    requires ready { (meter.old.state ≡ State.Open) ⊎ ((meter.old.state ≡ State.Ended) × IsAtEnd (R.remaining r.old)) }
    ensures limit { meter.new.limit ≡ meter.old.limit }
    ensures bound { IfOk result (λ n. n ≤ length block.new) }
    ensures bytes { IfOk result (λ n. Consumes (R.remaining r.old) (R.remaining r.new) (take n block.new)) }
    ensures taken { IfOk result (λ n. meter.new.taken ≡ meter.old.taken + n) }
    ensures ended { IfOk result (λ n. n < length block.new → (meter.new.state ≡ State.Ended) × IsAtEnd (R.remaining r.new)) }
    ensures full { IfOk result (λ n. length block.new ≤ n → meter.new.state ≡ meter.old.state) }
    ensures none_left { meter.old.state ≡ State.Ended → IfOk result (λ n. (n ≡ 0) × (meter.new.state ≡ State.Ended)) }
    ensures stopped { IfErr result (λ e. StopsWithin (length block.old) (R.remaining r.old) (R.remaining r.new) (meter.old.limit - meter.old.taken) e) }
{
    match meter.fill(r, block) {
        Ok(n) => Ok(n),
        Err(error) => Err(fault(error)),
    }
}

/// Reads blocks and forgets them.
fn skip_blocks<R: Read>(
    meter: &mut Meter,
    r: &mut R,
    block: &mut [u8],
    skip: u64,
) -> Result<(), DdFault>
    requires { meter.old.state ≡ State.Open }
    ensures limit { meter.new.limit ≡ meter.old.limit }
    ensures read { OnOk result (ReadsBlocks (R.remaining r.old) (R.remaining r.new) skip (length block.old) meter.old meter.new) }
    ensures stopped { IfErr result (λ e. StopsWithin (skip * length block.old) (R.remaining r.old) (R.remaining r.new) (meter.old.limit - meter.old.taken) e) }
{
    for _i in 0..skip {
        let n = read_block(meter, r, block)?;
        if n < block.len() {
            return Ok(());
        }
    }
    Ok(())
}

/// Reads blocks and converts them.
fn take_blocks<R: Read, A: Allocator>(
    meter: &mut Meter,
    r: &mut R,
    block: &mut [u8],
    count: u64,
    convert: Convert<A>,
) -> Result<Convert<A>, DdFault>
    requires size { length block.old ≡ convert.form.ibs }
    requires start { IsAfter [] convert }
    requires limit { meter.old.limit ≤ 2 ^ 40 }
    requires ready { (meter.old.state ≡ State.Open) ⊎ ((meter.old.state ≡ State.Ended) × IsAtEnd (R.remaining r.old)) }
    ensures form { IfOk result (λ c. c.form ≡ convert.form) }
    ensures limit { meter.new.limit ≡ meter.old.limit }
    ensures read { IfOk result (TakesBlocks (R.remaining r.old) (R.remaining r.new) count (length block.old) meter.old meter.new) }
    ensures none_left { meter.old.state ≡ State.Ended → IfOk result (λ c. (c.taken ≡ 0) × (meter.new.state ≡ State.Ended)) }
    ensures stopped { IfErr result (λ e. StopsWithin (count * length block.old) (R.remaining r.old) (R.remaining r.new) (meter.old.limit - meter.old.taken) e) }
{
    let mut convert = convert;
    for _i in 0..count {
        let n = read_block(meter, r, block)?;
        if n == 0 {
            return Ok(convert);
        }
        convert = convert.block(&block[..n])?;
        if n < block.len() {
            return Ok(convert);
        }
    }
    Ok(convert)
}
