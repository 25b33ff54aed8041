//! What stopped a command on the files of an image: the file that wasn't opened, or the device, by what the three said of their calls.
ghost use Rattle.std.specs.Prelude.{◌≡◌};

use crate::files::unopened::{Blame, another, not_opened, number_of};
use bx_cli::{Fault, Target};
use bx_hints::{Reason, Row, STANDARD_OUTPUT, Stopped};
use bx_image::FailedCall;
use bx_journal::{RecoveryOutcome, SessionFault};
use bx_patch::Other;
use bx_run::{Cause, CommandFile, Done, Failure, Stop};
use bx_system::{Left, System, SystemWorld, open_to_read};
use bx_text::IoFault;
use bx_world::{FileRole, OpenError, Outgrown};
use std::fs::File;
use std::io::{self, ErrorKind, Seek, SeekFrom};
use std::os::unix::fs::FileExt;

/// What stopped a command on an image, and the file or the stream that did it. The fault is the failure's own.
pub fn stopped<'a, R: System>(
    rt: &R,
    target: &'a Target,
    world: &SystemWorld<'_, '_, R>,
    failure: Failure,
) -> Stopped<'a>
    ensures { result.fault ≡ failure.fault }
{
    let fault = failure.fault;
    let by = match failure.stop {
        Some(stop) => return blamed(rt, target, world, stop).with(fault),
        None => by_fault(rt, target, world, fault),
    };
    Stopped { fault, ..by }
}

/// The file of an image that stopped a command.
fn blamed<'a, R: System>(
    rt: &R,
    target: &'a Target,
    world: &SystemWorld<'_, '_, R>,
    stop: Stop,
) -> Blame<'a> {
    let image = target.image.as_str();
    let reason = match stop.cause {
        Cause::Unopened(why) => {
            let which = which_of(stop.file);
            return not_opened(rt, target, OpenError { which, why }, world);
        }
        Cause::Unplaced(refusal) => return Blame::by(image, number_of(refusal)),
        Cause::Failed => reason_of(world.left.image.call),
        Cause::Unfinished => Reason::Unknown,
        Cause::Another => return another(image),
        Cause::Outgrown(Outgrown { has, wanted }) => Reason::Fixed { has, wanted },
    };
    Blame {
        file: image,
        reason,
    }
}

/// Which file of an image has a part in a command.
fn which_of(file: CommandFile) -> FileRole {
    match file {
        CommandFile::Image | CommandFile::Old | CommandFile::New => FileRole::Image,
        CommandFile::Journal => FileRole::Journal,
        CommandFile::Redo => FileRole::Redo,
    }
}

/// What is known of a call of a device that failed.
pub fn reason_of(call: Option<FailedCall>) -> Reason<'static> {
    match call {
        Some(call) => Reason::Call(call),
        None => Reason::Unknown,
    }
}

/// What stopped a command, where the fault says all but the file or the stream that did it.
fn by_fault<'a, R: System>(
    rt: &R,
    target: &'a Target,
    world: &SystemWorld<'_, '_, R>,
    fault: Fault,
) -> Stopped<'a> {
    let image = target.image.as_str();
    match fault {
        Fault::Io(IoFault::WriteFailed { .. }) if world.unwritten.is_some() => {
            Stopped::by(fault, STANDARD_OUTPUT, world.unwritten)
        }
        Fault::Session(SessionFault::LengthDiffers { expected }) => {
            differs_by_name(rt, image, fault, Other::Length { expected })
        }
        Fault::Disagrees(other) => differs_by_name(rt, image, fault, other),
        Fault::Grows { .. } => Stopped::from(fault).on_growth(image),
        fault => stopped_by(target, &world.left, fault),
    }
}

/// Whether a command was stopped since a change is unfinished that it may not recover.
pub fn is_unfinished(failure: Failure) -> bool {
    matches!(
        failure.stop,
        Some(Stop {
            cause: Cause::Unfinished,
            ..
        })
    )
}

/// What a command recovered of the image.
pub fn recovered(answer: &Result<Done, Failure>) -> Option<RecoveryOutcome> {
    match answer {
        Ok(done) => done.how,
        Err(failure) => failure.how,
    }
}

/// What stopped a session on the files of a target, whose devices said this.
fn stopped_by<'a>(target: &'a Target, left: &Left, fault: Fault) -> Stopped<'a> {
    let Fault::Session(why) = fault else {
        return Stopped::from(fault);
    };
    let texts = &target.texts;
    match why {
        SessionFault::DeviceFailed | SessionFault::Interrupted => failed(target, left, fault),
        SessionFault::Damaged { .. } => Stopped::by(fault, texts.journal.as_str(), None),
        SessionFault::RedoDamaged { .. } => Stopped::by(fault, texts.redo.as_str(), None),
        SessionFault::LengthDiffers { .. }
        | SessionFault::TooLarge
        | SessionFault::TooFew { .. }
        | SessionFault::JournalFull
        | SessionFault::Broken
        | SessionFault::NoMemory
        | SessionFault::NothingToRedo { .. } => Stopped::from(fault),
    }
}

/// The first device that had a failed call.
fn failed<'a>(target: &'a Target, left: &Left, fault: Fault) -> Stopped<'a> {
    let Target { image, texts, .. } = target;
    if left.image.has_failed {
        Stopped::failed(fault, image.as_str(), left.image.call)
    } else if left.journal.has_failed {
        Stopped::failed(fault, texts.journal.as_str(), left.journal.call)
    } else if left.redo.has_failed {
        Stopped::failed(fault, texts.redo.as_str(), left.redo.call)
    } else {
        Stopped::from(fault)
    }
}

/// What the image of this name has otherwise than a journal or a patch expects.
fn differs_by_name<'a, R: System>(
    rt: &R,
    name: &'a str,
    fault: Fault,
    other: Other,
) -> Stopped<'a> {
    match open_to_read(rt, name) {
        Ok(file) => differs(name, &file, fault, other),
        Err(error) if is_of_journal(fault) && error.kind() == ErrorKind::NotFound => {
            Stopped::gone(fault, name)
        }
        Err(error) => Stopped::by(fault, name, error.raw_os_error()),
    }
}

/// Whether it is a journal that tells the length, and no patch.
fn is_of_journal(fault: Fault) -> bool {
    matches!(fault, Fault::Session(SessionFault::LengthDiffers { .. }))
}

/// The same of a file that is open.
pub fn differs<'a>(name: &'a str, file: &File, fault: Fault, other: Other) -> Stopped<'a> {
    match other {
        Other::Length { expected } => has_length(name, length_of(file), fault, expected),
        Other::Bytes { at } => has_others(name, file, fault, at),
    }
}

/// The image, which has this length, as it was asked for, and not the one that it should have.
pub fn has_length<'a>(
    name: &'a str,
    length: io::Result<u64>,
    fault: Fault,
    expected: u64,
) -> Stopped<'a> {
    match length {
        Ok(has) => Stopped {
            fault,
            file: Some(name),
            reason: Reason::Lengths { has, expected },
        },
        Err(error) => Stopped::by(fault, name, error.raw_os_error()),
    }
}

/// How many bytes a file or a device has.
pub fn length_of(mut file: &File) -> io::Result<u64> {
    file.seek(SeekFrom::End(0))
}

/// The image, which has other bytes than a patch expects.
fn has_others<'a>(name: &'a str, file: &File, fault: Fault, at: u64) -> Stopped<'a> {
    let mut bytes = [0u8; 16];
    let room = 16 - (at % 16) as usize;
    match file.read_at(&mut bytes[..room], at) {
        Ok(count) => Stopped {
            fault,
            file: Some(name),
            reason: Reason::There(Row { at, bytes, count }),
        },
        Err(error) => Stopped::by(fault, name, error.raw_os_error()),
    }
}
