//! Whether an image has the length that a journal records.
ghost use Rattle.std.specs.Prelude.{◌≡◌, ◌<◌, length, OnOk, IfErr, IfSome};
ghost use Rattle.bx_image.specs.Power.{NoMore};
ghost use Rattle.bx_journal_model.specs.Looking.{LooksAt};
ghost use Rattle.bx_journal_read.specs.scan.Recovery.{LengthFault};

use bx_image::Device;
use bx_journal_model::SessionFault;

/// Whether the image has the length that the last entry tells, if it tells one.
pub fn check_length<D: Device>(image: &mut D, told: Option<u64>) -> Result<(), SessionFault>
    requires { D.failures image.old < u64.MAX }
    ensures same_length { D.faithful image.old → OnOk result (IfSome told (λ n. length (D.image image.old) ≡ n)) }
    ensures fault { IfErr result (LengthFault (D.faithful image.old) told (D.image image.old)) }
    ensures looks { LooksAt D.faithful D.image D.failures result image.old image.new }
    ensures found_before { D.faithful image.old → NoMore (D.survives image.old) (D.survives image.new) }
{
    let Some(expected) = told else { return Ok(()) };
    let len = image.len()?;
    if len != expected {
        return Err(SessionFault::LengthDiffers { expected });
    }
    Ok(())
}
