//! What a journal knows of its image, in a third text beside it, as far as it is shown: nothing is decided by it here. A text that is
//! missing, or anything else than the line of these files, says nothing, and nothing that fails here stops a command.
use crate::files::names::{names_of, world_of};
use bx_cli::Target;
use bx_hints::Since;
use bx_journal::Direction;
use bx_journal_image::{
    ImageLine, LINE, Standing, Verdict, is_changed, is_older, is_redo_refused, is_undo_refused,
    judge_unfinished, others_after, read_line, stand,
};
use bx_system::{OpenFile, Progress, System, SystemWorld};
use bx_text::{IoFault, emit};
use bx_world::{Looked, World, open_to_look};
use std::alloc::Global;
use std::io::Write;

/// What is shown of an image that isn't the one that the last command on it left.
const OTHER: &str = "# the image was changed since\n";

/// What is shown of an image that isn't the one on which what is unfinished was begun.
pub const ANOTHER: &str = "# the image isn't the one that it was made on\n";

/// What the line says of an image, and what a command finds before its first write.
#[derive(Clone, Copy)]
pub enum Advice {
    /// Nothing.
    Nothing,
    /// What it says, and what is found beside finished texts.
    AtRest(ImageLine, Standing),
    /// Something is unfinished whose change may have begun, and the image is this by the line.
    Unfinished(Verdict),
}

impl Advice {
    /// What is known of an image, whose files are only read. The locks on them are given up again.
    pub fn of<R: System>(rt: &R, target: &Target) -> Advice {
        look_up(rt, target).unwrap_or(Advice::Nothing)
    }

    /// Whether an undo or a redo of `count` changes is refused.
    fn refuses(&self, way: Direction, count: u32) -> bool {
        match (self, way) {
            (Advice::Nothing | Advice::Unfinished(_), _) => false,
            (Advice::AtRest(line, now), Direction::Undo) => is_undo_refused(line, now, count),
            (Advice::AtRest(line, now), Direction::Redo) => is_redo_refused(line, now, count),
        }
    }

    /// Whether the image isn't the one that the last command left.
    pub fn is_changed(&self) -> bool {
        match self {
            Advice::AtRest(line, now) => is_changed(line, now),
            Advice::Nothing | Advice::Unfinished(_) => false,
        }
    }

    /// Whether the texts are older than what is known.
    fn is_behind(&self) -> bool {
        match self {
            Advice::AtRest(line, now) => is_older(line, now),
            Advice::Nothing | Advice::Unfinished(_) => false,
        }
    }

    /// What tells an undo or a redo that is refused that the image is another one.
    pub fn since(&self, way: Direction) -> Since {
        if self.is_behind() {
            return Since::Behind;
        }
        let is_other = match way {
            Direction::Undo => self.is_changed(),
            Direction::Redo => self.refuses(way, 1),
        };
        if is_other {
            Since::Changed
        } else {
            Since::Between
        }
    }

    /// Whether one of `count` changes would, or is refused, as far as there are as many; of none, whether one of one would.
    pub fn is_shown(&self, way: Direction, count: u32) -> bool {
        self.refuses(way, count.max(1))
    }

    /// Whether something is unfinished that was begun on another image, or none where nothing is, or nothing tells it.
    pub fn is_another(&self) -> Option<bool> {
        match self {
            Advice::Unfinished(Verdict::Other) => Some(true),
            Advice::Unfinished(Verdict::Same) => Some(false),
            Advice::Unfinished(Verdict::Untold) | Advice::Nothing | Advice::AtRest(_, _) => None,
        }
    }

    /// Whether nothing is unfinished, and the line says something.
    pub fn is_at_rest(&self) -> bool {
        match self {
            Advice::AtRest(_, _) => true,
            Advice::Nothing | Advice::Unfinished(_) => false,
        }
    }

    /// How many of the oldest changes stand for another image, all where it isn't the one that the last command left.
    fn others(&self) -> u32 {
        match self {
            Advice::AtRest(line, now) => others_after(line, now),
            Advice::Nothing | Advice::Unfinished(_) => 0,
        }
    }

    /// Says at the head of a log that something else changed the image, and after which change where the last one isn't the place.
    pub fn put_in_log<W: Write>(&self, alloc: Global, out: &mut W) -> Result<(), IoFault> {
        if self.is_changed() {
            return put_other(true, out);
        }
        let others = self.others();
        if others == 0 {
            return Ok(());
        }
        match format!(in alloc; "# the image was changed after change {others}\n") {
            Ok(text) => emit(out, text.as_str().as_bytes()),
            Err(_) => Err(IoFault::NoMemory),
        }
    }
}

/// What is known of an image; none where a file isn't opened or read.
fn look_up<R: System>(rt: &R, target: &Target) -> Option<Advice> {
    let silent = Progress::new(rt, false, None);
    let names = names_of(rt.alloc(), target).ok()?;
    let mut world = world_of(rt, target, &silent).ok()?;
    let looked = open_to_look(&mut world, &names).ok()?;
    let line = line_in(&mut world)?;
    look_at(&mut world, rt.alloc(), looked, line)
}

/// The line, where the third text is one.
fn line_in<R: System>(world: &mut SystemWorld<'_, '_, R>) -> Option<ImageLine> {
    let mut room = [0u8; LINE + 1];
    let count = world.read_note(&mut room).ok()?;
    read_line(room.get(..count)?)
}

/// What is known of an image by its line, whose files are open; they are closed behind it.
fn look_at<'p, 'r, R: System>(
    world: &mut SystemWorld<'p, 'r, R>,
    alloc: Global,
    looked: Looked<OpenFile<'p, 'r, R>>,
    line: ImageLine,
) -> Option<Advice> {
    let mut image = world.lend_image_to_read(looked.image).ok()?;
    let mut journal = world.lend_text_to_read(looked.journal).ok()?;
    let mut redo = match looked.redo {
        Some(redo) => world.lend_text_to_read(redo).ok()?,
        None => world.lend_no_text(),
    };
    let known = match judge_unfinished(&alloc, &mut image, &mut journal, Some(line)) {
        Ok(Some(verdict)) => Some(Advice::Unfinished(verdict)),
        Ok(None) => match stand(&alloc, &mut image, &mut journal, &mut redo) {
            Ok(Some(found)) => Some(Advice::AtRest(line, found.standing)),
            Ok(None) | Err(_) => None,
        },
        Err(_) => None,
    };
    world.close_read(image, journal, redo);
    known
}

/// Says that the image isn't the one that the last command left, where it isn't.
pub fn put_other<W: Write>(is_other: bool, out: &mut W) -> Result<(), IoFault> {
    if is_other {
        return emit(out, OTHER.as_bytes());
    }
    Ok(())
}
