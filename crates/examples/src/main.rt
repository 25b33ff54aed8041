//! Callers of the public crates, a file for each; docs/CALLING.md shows them, and the gate runs them.
#![tactic(auto)]

mod cli;
mod dd;
mod device;
mod dump;
mod image;
mod journal;
mod read;
mod text;

use anyhow::Result;

fn main(rt: HostRuntime) -> Result<()> {
    text::show(&rt)?;
    dump::show(&rt)?;
    read::show(&rt)?;
    dd::show(&rt)?;
    image::show(&rt)?;
    journal::show(&rt)?;
    device::show(&rt)?;
    cli::show(&rt)?;
    Ok(())
}
