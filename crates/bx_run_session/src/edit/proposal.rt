//! What is asked of an image by an input that was read.
ghost use Rattle.std.specs.Prelude.{◌≡◌};
ghost use Rattle.bx_run_session.specs.Input.{patch_as, read_as};

use bx_cli_commands::Kept;
use bx_image::Change;
use bx_patch::Patch;
use bx_read::ReadFault;

/// What an input asks of an image.
#[derive(Drop)]
pub enum Proposal {
    /// The change of a text, or the text's fault.
    Read(Result<Change, ReadFault>),
    /// The change of a patch, with which the image has to agree.
    Patch(Patch),
    /// A change that isn't to make the image longer.
    Keep(Kept),
}

/// What was read of a text, which with `no_grow` isn't to make the image longer.
pub fn read_as(read: Result<Change, ReadFault>, no_grow: bool) -> Proposal
    ensures { result ≡ read_as no_grow read }
{
    match read {
        Ok(change) if no_grow => Proposal::Keep(Kept::Change(change)),
        read => Proposal::Read(read),
    }
}

/// A patch, which with `no_grow` isn't to make the image longer.
pub fn patch_as(patch: Patch, no_grow: bool) -> Proposal
    ensures { result ≡ patch_as no_grow patch }
{
    if no_grow {
        Proposal::Keep(Kept::Patch(patch))
    } else {
        Proposal::Patch(patch)
    }
}
