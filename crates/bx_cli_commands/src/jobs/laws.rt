//! Laws of xxd's text, over definitions alone.
ghost use Rattle.bx_cli_commands.specs.jobs.XxdLaws.{NormalTextReadsBack, NormalTextReverts};

use std::alloc::Allocator;

/// The text of xxd in the Normal style, for any columns up to 256, any groups and digits, any part of an input and any
/// addresses below 2^62, is read as a dump, and gives exactly the chunks that were dumped, at their addresses.
pub fn normal_text_reads_back()
    ensures { NormalTextReadsBack }
{}

/// The change that a revert of such a text asks for places the bytes that were dumped at their address, and leaves all
/// others as they are.
pub fn normal_text_reverts<A: Allocator>()
    ensures { NormalTextReverts A }
{}
