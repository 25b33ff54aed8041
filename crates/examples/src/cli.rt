//! A list of commands on a session: bx_cli.
ghost use Rattle.std.specs.Prelude.{◌≡◌, ◌^◌, ◌≤◌, IfOk, All, length};
ghost use Rattle.bx_cli_commands.specs.Command.{IsNear};

use anyhow::Result;
use bx_cli::{Command, Fault, Reply, run_all};
use bx_image::MemImage;
use bx_journal::{MemText, Session};
use bx_text::Bytes;
use std::alloc::{AllocError, Global};

/// A change by plain hexadecimal at an address, and the undo of it.
fn commands(alloc: Global, hex: &str, at: u64) -> Result<Vec<Command>, AllocError>
    requires { at ≤ 2 ^ 62 }
    ensures near { IfOk result (λ list. All IsNear list.items) }
    ensures two { IfOk result (λ list. length list.items ≡ 2) }
{
    let text = Bytes::from_vec(hex.as_bytes().to_vec(alloc)?);
    let mut list = Vec::new(alloc);
    list.push(Command::RevertPlain { text, at })?;
    list.push(Command::Undo { k: 1 })?;
    Ok(list)
}

/// What a session in memory replies to the commands.
fn replies(alloc: Global) -> Result<Vec<Reply>, Fault> {
    let image = MemImage::from_vec(b"firmware".to_vec(alloc)?);
    let mut list = commands(alloc, "57 41 52 45", 4)?;
    match Session::open(alloc, image, MemText::new(alloc), MemText::new(alloc)) {
        Ok((mut session, _)) => Ok(run_all(alloc, &mut session, list.as_mut_slice())?),
        Err((_, _, _, fault)) => Err(Fault::from(fault)),
    }
}

pub fn show<R: Print + AllocGlobal>(rt: &R) -> Result<()> {
    let replies = replies(rt.alloc())?;
    for reply in replies.as_slice() {
        println!(rt; "{reply:?}")?;
    }
    Ok(())
}
