//! dd over bytes in memory: bx_dd.
use anyhow::Result;
use bx_dd::{DdFault, Transfer, parse, transfer};
use bx_text::{NoMemory, Words};
use std::alloc::{Allocator, Global};
use std::io::{self, Write};

/// The words of a list.
fn words(alloc: Global, list: &[&str]) -> Result<Words, NoMemory> {
    let mut words = Words::new(alloc);
    for word in list {
        words.push(word)?;
    }
    Ok(words)
}

/// What dd makes of the input, and how many blocks it counts.
fn copied<A: Allocator + Clone>(
    alloc: A,
    operands: &Words,
    input: &[u8],
) -> Result<Transfer<A>, DdFault> {
    let plan = parse(alloc.clone()?, operands)?;
    let mut rest = input;
    transfer(alloc, &mut rest, &plan)
}

pub fn show<R: Print + AllocGlobal>(rt: &R) -> Result<()> {
    let operands = words(rt.alloc(), &["bs=4", "skip=1", "conv=ucase"])?;
    let copy = copied(rt.alloc(), &operands, b"one two three\n")?;
    io::writer(rt).write_all(copy.bytes.as_slice())?;
    let counts = copy.counts;
    println!(rt; "{}+{} blocks", counts.whole_in, counts.part_in)?;
    Ok(())
}
