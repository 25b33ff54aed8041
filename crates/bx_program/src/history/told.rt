//! What is said of an image that isn't the one that was left, or on which what is unfinished was begun.
ghost use Rattle.std.specs.Prelude.{◌≡◌};

use crate::advice::Advice;
use crate::files::look::is_missing;
use bx_cli::{Fault, Target};
use bx_hints::{Reason, Remarks, Stopped};
use bx_journal::Direction;
use bx_system::System;

/// The same of what stopped a command that goes this way, with what is known of the image, where that is another one.
pub fn told<'a, R: System>(
    rt: &R,
    target: &'a Target,
    way: Direction,
    stopped: Stopped<'a>,
) -> Stopped<'a>
    ensures { result.fault ≡ stopped.entry.fault }
{
    let fault = stopped.fault;
    if fault != Fault::ChangedSince {
        return stopped;
    }
    let image = target.image.as_str();
    if is_missing(rt, image) {
        let gone = Stopped::gone(fault, image);
        return Stopped { fault, ..gone };
    }
    let advice = Advice::of(rt, target);
    if advice.is_at_rest() {
        let since = Stopped::since(image, advice.since(way));
        return Stopped { fault, ..since };
    }
    Stopped {
        reason: Reason::Another {
            is_told: advice.is_another().is_some(),
        },
        ..stopped
    }
}

/// Looks, for the hint behind a change that begins no new history, whether the image isn't the one that the last command left.
pub fn look_for_others<R: System>(rt: &R, target: &Target, fresh: bool, remarks: &mut Remarks) {
    if !fresh && remarks.are_wanted() {
        remarks.look_at_advice(Advice::of(rt, target).is_changed());
    }
}
