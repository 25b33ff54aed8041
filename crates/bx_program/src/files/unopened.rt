//! What is said of files that weren't opened, by what opening them answered. The fault is the failure's own.
ghost use Rattle.std.specs.Prelude.{◌≡◌};

use crate::files::unfit::{bits_left, unfit_image, unfit_text};
use bx_cli::{Fault, Target};
use bx_hints::{Reason, Stopped};
use bx_system::{
    Misplaced, System, SystemWorld, Unknown, folder_of, is_among_devices, is_mounted, stat_of,
};
use bx_world::{FileRole, OpenError, OpenFailure, Refusal, Unfit};
use std::fs;

/// What is said of a file that has the name of another one too.
const IS_ALIAS: &str = "it is one of the others by another name";

/// The system's number for a file that is missing, and for one that is there already.
const MISSING: i32 = 2;

const IS_THERE: i32 = 17;

/// A file that stopped a command, and why it did.
#[derive(Clone, Copy)]
pub struct Blame<'a> {
    /// Its name.
    pub file: &'a str,
    /// Why it did.
    pub reason: Reason<'a>,
}

impl<'a> Blame<'a> {
    /// For what is said of it in words.
    fn told(file: &'a str, why: &'static str) -> Blame<'a> {
        Blame {
            file,
            reason: Reason::Told(why),
        }
    }

    /// For an error that the system has this number for, where it has one.
    pub fn by(file: &'a str, error: Option<i32>) -> Blame<'a> {
        let reason = match error {
            Some(code) => Reason::System(code),
            None => Reason::Unknown,
        };
        Blame { file, reason }
    }

    /// What stopped the command, which ended in this fault.
    pub fn with(self, fault: Fault) -> Stopped<'a>
        ensures { result.fault ≡ fault }
    {
        Stopped {
            fault,
            file: Some(self.file),
            reason: self.reason,
        }
    }
}

/// The file of an image that wasn't opened in this world.
pub fn not_opened<'a, R: System>(
    rt: &R,
    target: &'a Target,
    unopened: OpenError,
    world: &SystemWorld<'_, '_, R>,
) -> Blame<'a> {
    let name = match unopened.which {
        FileRole::Image => target.image.as_str(),
        FileRole::Journal => target.texts.journal.as_str(),
        FileRole::Redo => target.texts.redo.as_str(),
    };
    match unopened.why {
        OpenFailure::System(Refusal::Missing) if is_gone(rt, target, unopened.which) => {
            Blame {
                file: name,
                reason: Reason::Gone,
            }
        }
        OpenFailure::System(Refusal::Other(code)) if world.is_unkept => {
            Blame::by(folder_of(name), code)
        }
        OpenFailure::System(Refusal::Other(None)) => unmade(
            rt,
            name,
            unopened.which,
            world.misplaced,
        ),
        OpenFailure::System(refusal) => refused(name, unopened.which, refusal),
        OpenFailure::Unfit(unfit) => unfit_file(
            rt,
            target.image.as_str(),
            name,
            unopened.which,
            unfit,
        ),
        OpenFailure::Alias => Blame::told(name, IS_ALIAS),
        OpenFailure::Another => another(name),
    }
}

/// The image, where it isn't the one that its journal was written beside, or on which what is unfinished was begun.
pub fn another(image: &str) -> Blame<'_> {
    Blame {
        file: image,
        reason: Reason::Another { is_told: true },
    }
}

/// Whether the file is the image, and changes of it are kept in its journal.
fn is_gone<R: System>(rt: &R, target: &Target, which: FileRole) -> bool {
    let journal = target.texts.journal.as_str();
    which == FileRole::Image && fs::metadata(rt, journal).is_ok_and(|found| found.len() > 0)
}

/// A file that wasn't opened, which is only read and no file of a session.
pub fn not_opened_alone(name: &str, why: OpenFailure) -> Blame<'_> {
    match why {
        OpenFailure::System(refusal) => refused(name, FileRole::Image, refusal),
        OpenFailure::Unfit(unfit) => Blame {
            file: name,
            reason: unfit_image(unfit),
        },
        OpenFailure::Alias => Blame::told(name, IS_ALIAS),
        OpenFailure::Another => another(name),
    }
}

/// The system's number for a refusal, where it has one.
pub fn number_of(refusal: Refusal) -> Option<i32> {
    match refusal {
        Refusal::Missing => Some(MISSING),
        Refusal::Taken => Some(IS_THERE),
        Refusal::Locked | Refusal::Moved => None,
        Refusal::Other(code) => code,
    }
}

/// A file that the system refused, or has none of this name.
fn refused(name: &str, which: FileRole, refusal: Refusal) -> Blame<'_> {
    match refusal {
        Refusal::Missing if which == FileRole::Journal => Blame::told(
            name,
            "no journal is here, so no change is known; -J names one that is elsewhere, and bx revert, bx patch and bx dd make one",
        ),
        Refusal::Missing => Blame::by(name, Some(MISSING)),
        Refusal::Taken => Blame::by(name, Some(IS_THERE)),
        Refusal::Locked => Blame::told(
            name,
            "another program has it locked, or it is one of the others by another name",
        ),
        Refusal::Moved => Blame::told(name, "another file has its name now"),
        Refusal::Other(code) => Blame::by(name, code),
    }
}

/// A file that is missing and isn't made, since its place is none for it.
fn unmade<'a, R: System>(
    rt: &R,
    name: &'a str,
    which: FileRole,
    misplaced: Option<Misplaced>,
) -> Blame<'a> {
    match (which, misplaced) {
        (FileRole::Image, Some(Misplaced::AmongDevices)) => Blame::told(
            name,
            "there is no such device, and no file is made among the devices",
        ),
        (FileRole::Image, Some(Misplaced::OfAnother)) => Blame::told(
            name,
            "a link of another user leads to a file that is missing, which is not made; name the file itself",
        ),
        (FileRole::Journal | FileRole::Redo, _) if is_among_devices(rt, folder_of(name)) => {
            Blame::told(
                name,
                "no file is made among the devices, where none lasts; -J names a journal elsewhere",
            )
        }
        (FileRole::Image | FileRole::Journal | FileRole::Redo, _) => Blame::by(name, None),
    }
}

/// A file that may not be opened; `image` is the name of the image.
fn unfit_file<'a, R: System>(
    rt: &R,
    image: &str,
    name: &'a str,
    which: FileRole,
    unfit: Unfit,
) -> Blame<'a> {
    let reason = match which {
        FileRole::Image if unfit == Unfit::Mounted && is_unknown(rt, name) => {
            Reason::Told(
                "whether it is in use isn't known, since /proc/self/mountinfo, /proc/swaps or /proc/partitions can't be read; --mounted goes on without",
            )
        }
        FileRole::Image => unfit_image(unfit),
        FileRole::Journal | FileRole::Redo => unfit_text(unfit, bits_of(rt, image, name)),
    };
    Blame { file: name, reason }
}

/// Whether the system doesn't tell if a device is in use, which then counts as mounted.
fn is_unknown<R: System>(rt: &R, name: &str) -> bool {
    match fs::metadata(rt, name) {
        Ok(file) => matches!(is_mounted(rt, &file), Err(Unknown::NoTable)),
        Err(_) => false,
    }
}

/// The bits that a text may have beside its image, of those that it has.
fn bits_of<R: System>(rt: &R, image: &str, text: &str) -> u32 {
    match (fs::metadata(rt, image), fs::symlink_metadata(rt, text)) {
        (Ok(image), Ok(text)) => bits_left(&stat_of(&image, false), &text),
        (Err(_), _) | (_, Err(_)) => 0,
    }
}
