//! A case as it is played: one undo or redo of as many changes as its lines tell, one after another; or the change of its last line.
use crate::answers::{Ended, end_of};
use crate::changes::{change, edit_of, is_asked};
use crate::moves::{count_of_all, image_behind, move_in, way_of};
use crate::report::Wrong;
use crate::setting::{Held, There, names, world_with};
use bx_journal::{Direction, RecoveryOutcome};
use bx_world::Names;
use std::alloc::Global;
use test_case_files::{Answer, Ask, CommandsCase, Opening, Row};
use test_world::{MemoryWorld, Plan};

/// The text of the fault of a change that would make an image longer.
const LONGER: &str = "the image would get longer";

/// What a case asks for.
#[derive(Clone, Copy, Debug, PartialEq, Eq)]
pub enum Asked {
    /// As many changes are moved one way.
    Moves { way: Direction, count: u32 },
    /// A change is made.
    Change,
}

/// Which files of a case are there, those that have bytes, and of the others some; and whether the image may get longer.
#[derive(Clone, Copy, Debug, PartialEq, Eq)]
pub enum Setting {
    /// A text without bytes is missing, and an image whose journal has none either. Of an undo and a redo it is the redo text alone.
    Bare,
    /// The same of a change to an image without bytes, which is missing: its name is a link to nothing.
    Linked,
    /// All three are there before a change that makes some of them else.
    Full,
    /// As in the first, and the image isn't to get longer: a change that was read before.
    Kept,
}

impl Setting {
    pub const EACH: &'static [Setting] = &[
        Setting::Bare,
        Setting::Linked,
        Setting::Full,
        Setting::Kept,
    ];

    /// What is said of it.
    pub fn text(self) -> &'static str {
        match self {
            Setting::Bare => "",
            Setting::Linked => ", by a link to nothing",
            Setting::Full => ", all three there",
            Setting::Kept => ", not to grow",
        }
    }
}

/// A case, with what it asks for and where.
#[derive(Drop)]
pub struct Play<'a> {
    pub alloc: Global,
    pub case: &'a CommandsCase,
    pub names: Names,
    pub asked: Asked,
    /// Which files are there before.
    pub there: There,
    /// Whether the image's name is a link.
    pub is_linked: bool,
    /// Whether the image isn't to get longer.
    keeps: bool,
    /// How many changes stand before.
    standing: u32,
}

/// How many changes stand behind an opening.
fn standing_of(opening: Opening) -> u32 {
    match opening {
        Opening::Clean { changes, .. }
        | Opening::Dropped { changes }
        | Opening::Restored { changes, .. } => changes,
    }
}

/// The lines before the last one.
fn all_but_last(rows: &[Row]) -> &[Row] {
    match rows.split_last() {
        Some((_, before)) => before,
        None => rows,
    }
}

/// What a case asks for; none where the program never asks for it.
fn asked_of(alloc: Global, case: &CommandsCase) -> Result<Option<Asked>, Wrong> {
    let Some(last) = case.rows.last() else {
        return Err(Wrong::Unknown);
    };
    if let Some(way) = way_of(last) {
        let count = count_of_all(case.rows.as_slice(), way)?;
        return Ok(Some(Asked::Moves { way, count }));
    }
    if count_of_all(all_but_last(case.rows.as_slice()), Direction::Undo)? != 0 {
        return Err(Wrong::Unknown);
    }
    let is_asked = is_asked(alloc, &last.ask);
    Ok(if is_asked { Some(Asked::Change) } else { None })
}

/// Which files of a case are there before what it asks for, where those are missing that may be.
fn there_bare(case: &CommandsCase, asked: Asked) -> There {
    let mut there = There::ALL;
    there.redo = !case.redo.is_empty();
    if let Asked::Change = asked {
        there.journal = !case.journal.is_empty();
        there.image = there.journal || !case.image.is_empty();
    }
    there
}

/// Whether the change of a case is read before the files are opened.
fn is_read_before(case: &CommandsCase) -> bool {
    match case.rows.last() {
        Some(row) => !matches!(&row.ask, Ask::Dd { .. }),
        None => false,
    }
}

/// Which files of a case are there in a setting; none where that is another one's.
fn there_of(case: &CommandsCase, asked: Asked, setting: Setting) -> Option<There> {
    let mut there = there_bare(case, asked);
    let is_other = match (setting, asked) {
        (Setting::Bare, _) => false,
        (_, Asked::Moves { .. }) => true,
        (Setting::Linked, Asked::Change) => !case.image.is_empty(),
        (Setting::Full, Asked::Change) => there == There::ALL,
        (Setting::Kept, Asked::Change) => !is_read_before(case),
    };
    match setting {
        Setting::Bare | Setting::Kept => {}
        Setting::Linked => there.image = false,
        Setting::Full => there = There::ALL,
    }
    if is_other { None } else { Some(there) }
}

impl<'a> Play<'a> {
    /// A case as it is asked for in a setting; none where that is no other play, or where the program never asks for it. All lines of a case
    /// are undos, or all redos, of one change each, or there is one; or the last is a change, and those before move none.
    pub fn new(
        alloc: Global,
        case: &'a CommandsCase,
        setting: Setting,
    ) -> Result<Option<Self>, Wrong> {
        let Some(asked) = asked_of(alloc, case)? else {
            return Ok(None);
        };
        let Some(there) = there_of(case, asked, setting) else {
            return Ok(None);
        };
        Ok(Some(Play {
            alloc,
            case,
            names: names(alloc)?,
            asked,
            there,
            is_linked: there.image || setting == Setting::Linked,
            keeps: setting == Setting::Kept,
            standing: standing_of(case.opening),
        }))
    }

    /// What the files hold before.
    pub fn first(&self) -> Held<'_> {
        Held {
            image: self.case.image.as_slice(),
            journal: self.case.journal.as_slice(),
            redo: self.case.redo.as_slice(),
        }
    }

    /// The fault that has to come, by its text: the one that the case tells, or that the image would get longer.
    pub fn fault(&self) -> Option<&str> {
        match self.told() {
            None if self.outgrows() => Some(LONGER),
            told => told,
        }
    }

    /// Whether the change makes an image longer that isn't to get longer.
    fn outgrows(&self) -> bool {
        match self.last() {
            Some(row) => self.keeps && row.left.image.len() > self.image_before().len(),
            None => false,
        }
    }

    /// The fault that the case tells, by its text.
    fn told(&self) -> Option<&str> {
        match &self.case.rows.last()?.answer {
            Answer::Refused(text) => Some(text.as_str()),
            Answer::Changed(_)
            | Answer::Copied(_, _)
            | Answer::Undone(_)
            | Answer::Redone(_)
            | Answer::Opened(_) => None,
        }
    }

    /// The last line; there is one.
    pub fn last(&self) -> Option<&'a Row> {
        self.case.rows.last()
    }

    /// Whether an input is read while the files are open.
    pub fn reads_input(&self) -> bool {
        match self.last() {
            Some(row) => matches!(&row.ask, Ask::Dd { .. }),
            None => false,
        }
    }

    /// What opening finds unfinished.
    pub fn how(&self) -> RecoveryOutcome {
        match self.case.opening {
            Opening::Clean { .. } => RecoveryOutcome::Clean,
            Opening::Dropped { .. } => RecoveryOutcome::Dropped,
            Opening::Restored { number, .. } => RecoveryOutcome::Restored { number },
        }
    }

    /// How many changes are moved or made, where the command is done.
    pub fn count(&self) -> u32 {
        match self.asked {
            Asked::Moves { count, .. } => count,
            Asked::Change => 1,
        }
    }

    /// What opening finds where nothing is moved or made: what a first line tells that moves none, or the image as it is.
    fn image_before(&self) -> &'a [u8] {
        match image_behind(self.rows_of_moves(), 0) {
            Some(image) => image,
            None => self.case.image.as_slice(),
        }
    }

    /// The lines that move changes: all of them, or all but the last.
    fn rows_of_moves(&self) -> &'a [Row] {
        let rows = self.case.rows.as_slice();
        match self.asked {
            Asked::Moves { .. } => rows,
            Asked::Change => all_but_last(rows),
        }
    }

    /// The image behind the first `steps` of the changes that are moved, or of the one that is made.
    pub fn image_behind(&self, steps: u32) -> Option<&'a [u8]> {
        if steps == 0 {
            return Some(self.image_before());
        }
        match self.asked {
            Asked::Moves { .. } => image_behind(self.rows_of_moves(), steps),
            Asked::Change => Some(self.last()?.left.image.as_slice()),
        }
    }

    /// How many changes stand behind the first `steps` of them.
    pub fn standing_behind(&self, steps: u32) -> u32 {
        match self.asked {
            Asked::Moves {
                way: Direction::Undo,
                ..
            } => self.standing.saturating_sub(steps),
            Asked::Moves {
                way: Direction::Redo,
                ..
            }
            | Asked::Change => { self.standing.saturating_add(steps) }
        }
    }

    /// A world with the files of the case.
    pub fn world(&self) -> Result<MemoryWorld, Wrong> {
        Ok(world_with(self.alloc, self.first(), self.there, self.is_linked)?)
    }

    /// The change of the last line, in a world that does what its plan says.
    fn change_in(&self, world: &mut MemoryWorld, plan: Plan) -> Result<Ended, Wrong> {
        let Some(row) = self.last() else {
            return Err(Wrong::Unknown);
        };
        let edit = edit_of(self.alloc, &row.ask, self.keeps, plan.input)?;
        Ok(end_of(change(world, self.alloc, &self.names, plan, edit)))
    }

    /// Does what the case asks for in a world that does what its plan says.
    pub fn run(&self, world: &mut MemoryWorld, plan: Plan) -> Result<Ended, Wrong> {
        match self.asked {
            Asked::Moves { way, count } => Ok(end_of(move_in(
                world,
                self.alloc,
                &self.names,
                plan,
                way,
                count,
            ))),
            Asked::Change => self.change_in(world, plan),
        }
    }
}
