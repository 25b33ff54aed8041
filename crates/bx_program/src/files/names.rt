//! The names of an image and its texts, and the world that their files are used in.
ghost use Rattle.std.specs.Prelude.{◌≡◌, IfOk};

use bx_cli::{Access, Durability, Fault, Target};
use bx_hints::is_named;
use bx_system::{Progress, System, SystemWorld};
use bx_text::Name;
use bx_world::{Guard, Names};
use std::alloc::{AllocError, Global};

/// A name once more.
fn copied(alloc: Global, name: &Name) -> Result<Name, AllocError>
    ensures { IfOk result (λ n. n ≡ name.now) }
{
    Ok(Name::from_string(String::from_str(alloc, name.as_str())?))
}

/// The names of an image and its texts.
pub fn names_of(alloc: Global, target: &Target) -> Result<Names, Fault>
    ensures image { IfOk result (λ n. n.image ≡ target.now.image) }
    ensures journal { IfOk result (λ n. n.journal ≡ target.now.texts.journal) }
    ensures redo { IfOk result (λ n. n.redo ≡ target.now.texts.redo) }
{
    Ok(Names {
        image: copied(alloc, &target.image)?,
        journal: copied(alloc, &target.texts.journal)?,
        redo: copied(alloc, &target.texts.redo)?,
    })
}

/// The system as a target's files are used in it.
pub fn world_of<'p, 'r, R: System>(
    rt: &'r R,
    target: &Target,
    progress: &'p Progress<'r, R>,
) -> Result<SystemWorld<'p, 'r, R>, Fault> {
    let waits = target.access.durability == Durability::Synced;
    let texts = &target.texts;
    let (image, journal) = (target.image.as_str(), texts.journal.as_str());
    Ok(SystemWorld::new(rt, progress, waits).with_note(image, journal, texts.redo.as_str())?)
}

/// What a command on a target may do: whatever its third text tells where it is to go on anyway.
pub fn guard_of(target: &Target) -> Guard {
    let Access {
        mounted,
        anyway,
        ..
    } = target.access;
    Guard {
        mounted,
        anyway,
        told: false,
        named: is_named(target),
    }
}

/// The same, where what is unfinished is recovered only onto the image that it was begun on.
pub fn guard_to_recover(target: &Target, anyway: bool) -> Guard {
    Guard {
        anyway,
        told: true,
        ..guard_of(target)
    }
}
