//! Commands that a hint gives, with the user's own names, so that they can be pasted into a shell.
use crate::text::quoted::push_name;
use bx_cli_commands::{Fault, Job, Target};
use bx_journal::SessionFault;
use std::alloc::{AllocError, Global};

/// What stands behind the name of a command on an image: `--mounted` and `-J` where the job has them, and the image, with a space
/// before each.
pub fn operands_of(alloc: Global, target: &Target) -> Result<String, AllocError> {
    let mut text = String::new(alloc);
    let (image, journal) = (target.image.as_str(), target.texts.journal.as_str());
    if target.access.mounted {
        text.push_str(" --mounted")?;
    }
    if is_named(target) {
        text.push_str(" -J")?;
        push_word(&mut text, journal)?;
    }
    push_word(&mut text, image)?;
    Ok(text)
}

/// Whether a target's journal has another name than the one beside its image.
pub fn is_named(target: &Target) -> bool {
    target
        .texts
        .journal
        .as_str()
        .strip_prefix(target.image.as_str())
        != Some(".bxj")
}

/// What stands behind the name of the command that is advised at a fault of a job: of `truncate -s` the length and the image,
/// of any other the operands. Empty where the job has no image.
pub fn words_of(alloc: Global, fault: Fault, job: &Job) -> Result<String, AllocError> {
    let Some(target) = job.target() else {
        return Ok(String::new(alloc));
    };
    let Fault::Session(SessionFault::LengthDiffers { expected }) = fault else {
        return operands_of(alloc, target);
    };
    let mut text = format!(in alloc; " {expected}")?;
    push_word(&mut text, target.image.as_str())?;
    Ok(text)
}

/// Puts a space and a file's name, as one word of a shell that is no option.
pub fn push_word(text: &mut String, name: &str) -> Result<(), AllocError> {
    text.push_str(if name.starts_with('-') { " ./" } else { " " })?;
    push_name(text, name)
}
