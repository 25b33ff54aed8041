//! What stands under a name, and whether an open file has its name still.
use crate::facts::alias::Identity;
use crate::facts::stat::{is_group_given, stat_of, whole_stat_of};
use crate::files::opened::{OpenFile, Role};
use crate::refusal::{refused, unopened};
use crate::system::System;
use bx_world::{Look, Refusal, Stat, text_unfit};
use std::fs::{self, Metadata};
use std::io::ErrorKind;

/// What the system tells of a file that stands under a name.
fn told<R: System>(rt: &R, name: &str, found: &Metadata) -> Result<Option<Stat>, Refusal> {
    match whole_stat_of(rt, found, is_group_given(rt, name, found)) {
        Ok(stat) => Ok(Some(stat)),
        Err(_) => Err(Refusal::Other(None)),
    }
}

/// What stands behind a name that is a link.
fn behind<R: System>(rt: &R, name: &str) -> Result<Option<Stat>, Refusal> {
    match fs::metadata(rt, name) {
        Ok(found) => told(rt, name, &found),
        Err(e) if e.kind() == ErrorKind::NotFound => Ok(None),
        Err(e) => Err(refused(e)),
    }
}

/// Looks at what stands under a name. No file is opened.
pub fn look<R: System>(rt: &R, name: &str) -> Result<Look, Refusal> {
    let (is_link, found) = match fs::symlink_metadata(rt, name) {
        Ok(found) if found.is_symlink() => (true, behind(rt, name)?),
        Ok(found) => (false, told(rt, name, &found)?),
        Err(e) if e.kind() == ErrorKind::NotFound => (false, None),
        Err(e) => return Err(refused(e)),
    };
    Ok(Look { is_link, found })
}

/// Looks once more at a text that is to be opened, whose name may have been given to another file since it was looked at.
pub fn look_at_text<R: System>(
    rt: &R,
    name: &str,
    caller: u32,
    image: &Stat,
) -> Result<Stat, Refusal> {
    // The kit has no `O_NOFOLLOW`: the name is asked before, the open file behind it, and then the name again.
    let found = Role::Text.found(rt, name).map_err(unopened)?;
    let text = stat_of(&found, is_group_given(rt, name, &found));
    match text_unfit(caller, image, found.is_symlink(), &text) {
        None => Ok(text),
        Some(_) => Err(Refusal::Moved),
    }
}

/// Refuses an open file whose name leads to another one by now: another run may have taken it away. A text of one name is then the
/// file that has this name, and no other one that a link led to.
pub fn is_in_place<R: System>(
    rt: &R,
    name: &str,
    file: &OpenFile<'_, '_, R>,
) -> Result<(), Refusal> {
    let opened = file.identity()?;
    let named = file.known.role.found(rt, name).map_err(refused)?;
    if Identity::of(&named) == opened {
        Ok(())
    } else {
        Err(Refusal::Moved)
    }
}
