//! What a person may want to know after a success.
pub mod audience;
pub mod beside;
pub mod cost;
pub mod effect;
pub mod products;
pub mod seen;
pub mod typed;

use crate::fault::names::is_of_text;
use crate::remarks::audience::Audience;
use crate::remarks::cost::tell_of_cost;
use crate::remarks::effect::Effect;
use crate::remarks::products::tell_of_products;
use crate::remarks::seen::Seen;
use crate::remarks::typed::tell_of_typing;
use crate::text::commands::operands_of;
use crate::text::quoted::quoted;
use crate::text::steps::{Standing, tell_of_begun, tell_of_dropped, tell_of_steps};
use bx_cli_commands::{ChangeJob, Job, StepsJob, Target};
use bx_dd::Counts;
use bx_image::Change;
use bx_journal::{Direction, RecoveryOutcome};
use std::alloc::Global;
use std::fs::{self, File};
use std::io::ErrorKind;
use std::rt::Files;

/// What was seen of a job while it ran. Nothing is looked at where no hints are written.
#[derive(Drop)]
pub struct Remarks {
    /// Who reads what is written.
    pub audience: Audience,
    // what stood before
    standing: Option<Standing>,
    // what stands behind an undo or a redo
    now: Option<Standing>,
    // the image was missing before
    is_new: bool,
    // something was undone before, and could be made again
    was_undone: bool,
    // the image was modified later than its journal
    is_later: bool,
    // the image wasn't the one that the last command on it left
    is_other: bool,
    // what is known of the image couldn't be put beside its journal
    is_unnoted: bool,
    // the dump or dd's output has no byte
    is_empty: bool,
    // the image's length before, where it has one
    length: Option<u64>,
    // the line of the dump whose characters aren't those of its bytes
    unlike: Option<u64>,
    // what the dump made of the image
    effect: Option<Effect>,
}

impl Remarks {
    /// Nothing was seen yet, and this is who reads what is written.
    pub fn new(audience: Audience) -> Remarks {
        Remarks {
            audience,
            standing: None,
            now: None,
            is_new: false,
            was_undone: false,
            is_later: false,
            is_other: false,
            is_unnoted: false,
            is_empty: false,
            length: None,
            unlike: None,
            effect: None,
        }
    }

    /// Whether hints are written.
    pub fn are_wanted(&self) -> bool {
        self.audience.hints
    }

    /// Looks whether the job's image is missing, how long it is, and whether something is undone, before the job opens a file.
    /// What may be wrong with numbers of dd is said here, wherever standard error leads, and that a job reads what is typed.
    pub fn look_before<R>(&mut self, rt: &R, job: &Job)
    where
        R: Files<File = File> + Eprint + AllocGlobal,
    {
        tell_of_products(rt, job, self.audience.hints);
        if !self.audience.hints {
            return;
        }
        if self.audience.terminals.input {
            tell_of_typing(rt, job);
        }
        if let Some(target) = job.target() {
            let image = target.image.as_str();
            self.is_new = is_missing(rt, image);
            self.length = length_of(rt, image);
            self.was_undone = is_filled(rt, target.texts.redo.as_str());
        }
    }

    /// Takes what stands and is undone before a job.
    pub fn look_at_standing(&mut self, standing: Standing) {
        self.standing = Some(standing);
    }

    /// Takes what stands and is undone behind an undo or a redo.
    pub fn look_behind(&mut self, standing: Standing) {
        self.now = Some(standing);
    }

    /// Looks which of image and journal was modified later, before the files are opened. A block device has no such time.
    pub fn look_at_times<R: Files<File = File>>(&mut self, rt: &R, target: &Target) {
        if self.audience.hints {
            let (image, journal) = (target.image.as_str(), target.texts.journal.as_str());
            self.is_later = is_later(rt, image, journal) == Some(true);
        }
    }

    /// Says of an undo or a redo, behind a recovery, that this came first, and what it then did.
    pub fn tell_behind_recovery<R>(
        &self,
        rt: &R,
        way: Direction,
        job: &StepsJob,
        how: Option<RecoveryOutcome>,
    )
    where
        R: Eprint + AllocGlobal,
    {
        if let (
            Some(standing),
            Some(RecoveryOutcome::Dropped | RecoveryOutcome::Restored { .. }),
        ) = (&self.standing, how)
        {
            tell_of_begun(rt, standing, way, job);
        }
    }

    /// Takes what opening found unfinished: recovery writes the journal last, and makes another image than was looked at.
    pub fn look_at_recovered(&mut self, how: Option<RecoveryOutcome>) {
        match how {
            None | Some(RecoveryOutcome::Clean) => {}
            Some(RecoveryOutcome::Dropped | RecoveryOutcome::Restored { .. }) => {
                self.is_later = false;
                self.effect = None;
            }
        }
    }

    /// Takes whether what is known of the image couldn't be put beside its journal.
    pub fn look_at_note(&mut self, is_without_note: bool) {
        self.is_unnoted = is_without_note;
    }

    /// Takes whether the image was another one before a change.
    pub fn look_at_advice(&mut self, is_other: bool) {
        self.is_other = is_other;
    }

    /// What is to be seen of a dump while it is read.
    pub fn seen_of(&self, alloc: Global, plain: bool) -> Seen {
        Seen::new(alloc, self.audience.hints, plain)
    }

    /// Takes what was seen of a dump that was read: whether it gives a byte, and, where it isn't plain, whether the characters
    /// beside the digits are those of the bytes.
    pub fn look_at_dump(&mut self, seen: Seen) {
        if self.audience.hints {
            self.unlike = seen.unlike();
        }
    }

    /// Takes that a patch changes nothing: no file is made, and nothing that stands is dropped.
    pub fn look_at_no_change(&mut self) {
        self.is_empty = true;
        self.is_new = false;
        self.standing = None;
    }

    /// Looks what the change of a dump will make of the image, which is not yet written, and says what it will cost. The image is none
    /// where it is missing.
    pub fn look_at_change<R>(
        &mut self,
        rt: &R,
        target: &Target,
        image: &Option<File>,
        change: &Change,
    )
    where
        R: Eprint + AllocGlobal,
    {
        self.effect = Effect::new(rt.alloc(), image, change);
        if let Some(effect) = &self.effect {
            tell_of_cost(rt, target, effect.saved);
        }
    }

    /// Looks whether dd's output has a byte.
    pub fn look_at_counts(&mut self, counts: &Counts) {
        self.is_empty = counts.whole_out == 0 && counts.part_out == 0;
    }

    /// Writes what there is to say of a job that was done, each on a line of its own. One that can't be written is left out.
    pub fn tell<R>(&self, rt: &R, job: &Job)
    where
        R: Files<File = File> + Eprint + AllocGlobal,
    {
        if !self.audience.hints || is_dry_run(job) {
            return;
        }
        let Some(target) = job.target() else {
            return;
        };
        self.tell_of_image(rt, target);
        match job {
            Job::Change(job) => self.tell_of_change(rt, job),
            Job::Dump(_) | Job::Lay(_) | Job::Look(_) | Job::Diff(_) | Job::Help { .. } => {}
        }
    }

    /// What there is to say of an image that was changed.
    fn tell_of_change<R>(&self, rt: &R, job: &ChangeJob)
    where
        R: Files<File = File> + Eprint + AllocGlobal,
    {
        let target = job.target();
        let Ok(operands) = operands_of(rt.alloc(), target) else {
            return;
        };
        let operands = operands.as_str();
        let Ok(name) = quoted(rt.alloc(), target.image.as_str()) else {
            return;
        };
        let name = name.as_str();
        self.tell_of_others(rt, name);
        match job {
            ChangeJob::Revert(job) => {
                self.tell_of_dump(rt, operands);
                self.tell_of_effect(rt, name, operands);
                self.tell_of_history(rt, name, job.fresh);
            }
            ChangeJob::Patch(job) => {
                self.tell_of_patch(rt);
                self.tell_of_history(rt, name, job.fresh);
            }
            ChangeJob::Dd(job) => {
                self.tell_of_nothing(rt, target);
                self.tell_of_history(rt, name, job.fresh);
            }
            ChangeJob::Forget(_) => self.tell_of_history(rt, name, true),
            ChangeJob::Undo(steps) => {
                self.tell_of_steps(rt, name, Direction::Undo, steps);
                self.tell_of_times(rt, name, steps.count, "redo", operands);
            }
            ChangeJob::Redo(steps) => {
                self.tell_of_steps(rt, name, Direction::Redo, steps);
                self.tell_of_times(rt, name, steps.count, "undo", operands);
            }
        }
    }

    /// Which changes were taken back or made again.
    fn tell_of_steps<R>(&self, rt: &R, name: &str, way: Direction, job: &StepsJob)
    where
        R: Eprint + AllocGlobal,
    {
        if let Some(now) = &self.now {
            tell_of_steps(rt, name, way, job, now);
        }
    }

    /// How much of a history was dropped.
    fn tell_of_history<R: Eprint>(&self, rt: &R, name: &str, is_dropped: bool) {
        if let Some(standing) = &self.standing {
            if is_dropped {
                tell_of_dropped(rt, name, standing);
            }
        }
    }

    /// Whether the image was made, and what may be wrong with its name.
    fn tell_of_image<R: Eprint + AllocGlobal>(&self, rt: &R, target: &Target) {
        let (image, journal) = (target.image.as_str(), target.texts.journal.as_str());
        let alloc = rt.alloc();
        let (Ok(name), Ok(journal)) = (quoted(alloc, image), quoted(alloc, journal)) else {
            return;
        };
        if self.is_unnoted {
            let _ = eprintln!(rt;
                "hint: {journal}: no text beside it keeps what is known of the image, as one can't be made there, or another file has its name with .image behind"
            );
        }
        if self.is_new {
            let _ = eprintln!(rt;
                "hint: {name}: it was missing, so it was made; its journal is {journal}"
            );
        }
        if self.is_new && image == "-" {
            let _ = eprintln!(rt; "hint: - is a file's name here, of an image too");
        }
        if is_of_text(image) {
            let _ = eprintln!(rt;
                "hint: {name}: it has the name of a journal or a redo file, and was taken as an image"
            );
        }
    }

    /// What may be wrong with a dump that was reverted.
    fn tell_of_dump<R: Eprint>(&self, rt: &R, operands: &str) {
        if let Some(line) = self.unlike {
            let _ = eprintln!(rt;
                "hint: the characters beside the digits aren't those of the bytes in line {line}; bx undo{operands} takes this back, and bx revert --help shows the form of a line"
            );
        }
    }

    /// That a patch changed nothing.
    fn tell_of_patch<R: Eprint>(&self, rt: &R) {
        if self.is_empty {
            let _ = eprintln!(rt; "hint: the patch changes nothing, so nothing was done");
        }
    }

    /// That the image became much longer, or that none of its bytes is another one.
    fn tell_of_effect<R: Eprint>(&self, rt: &R, name: &str, operands: &str) {
        let Some(effect) = self.effect else {
            return;
        };
        let Effect {
            before,
            after,
            gap,
            ..
        } = effect;
        if effect.is_long() && gap > 0 {
            let _ = eprintln!(rt;
                "hint: {name}: it had {before} bytes and has {after} now, {gap} of them zeros that the dump doesn't give; bx undo{operands} takes this back"
            );
        } else if effect.is_long() {
            let _ = eprintln!(rt;
                "hint: {name}: it had {before} bytes and has {after} now; bx undo{operands} takes this back"
            );
        } else if effect.is_same {
            let given_up = if self.was_undone {
                ", but what was undone is given up"
            } else {
                ""
            };
            let _ = eprintln!(rt;
                "hint: {name}: it had these bytes already, so no byte was changed{given_up}"
            );
        }
    }

    /// That the changes before this one stand for another image.
    fn tell_of_others<R: Eprint>(&self, rt: &R, name: &str) {
        if self.is_other {
            let _ = eprintln!(rt;
                "hint: {name}: it was changed since, so the older changes stand for another image; --fresh begins a new history"
            );
        }
    }

    /// That a dd which wrote nothing and left the length gave up what was undone.
    fn tell_of_nothing<R: Files<File = File> + Eprint>(&self, rt: &R, target: &Target) {
        let length = length_of(rt, target.image.as_str());
        if self.is_empty && self.was_undone && self.length == length {
            let _ = eprintln!(rt; "hint: nothing was written, but what was undone is given up");
        }
    }

    /// That another program may have written the image, and the command that goes back.
    fn tell_of_times<R: Eprint>(&self, rt: &R, name: &str, count: u32, back: &str, operands: &str) {
        if self.is_later && count > 0 {
            let _ = eprintln!(rt;
                "hint: {name}: it was modified later than its journal, perhaps by another program; bx {back} -k {count}{operands} goes back"
            );
        }
    }
}

/// Whether a job only writes what it would change.
fn is_dry_run(job: &Job) -> bool {
    match job {
        Job::Change(ChangeJob::Dd(job)) => job.dry_run,
        Job::Change(ChangeJob::Revert(job)) => job.dry_run,
        Job::Change(ChangeJob::Patch(job)) => job.dry_run,
        Job::Change(ChangeJob::Forget(_) | ChangeJob::Undo(_) | ChangeJob::Redo(_))
        | Job::Dump(_)
        | Job::Lay(_)
        | Job::Look(_)
        | Job::Diff(_)
        | Job::Help { .. } => false,
    }
}

/// The length of a file; 0 of a block device, and none where it is missing.
fn length_of<R: Files<File = File>>(rt: &R, name: &str) -> Option<u64> {
    fs::metadata(rt, name).ok().map(|file| file.len())
}

/// Whether no file has this name.
fn is_missing<R: Files<File = File>>(rt: &R, name: &str) -> bool {
    match fs::metadata(rt, name) {
        Ok(_) => false,
        Err(error) => error.kind() == ErrorKind::NotFound,
    }
}

/// Whether a file has this name and isn't empty.
fn is_filled<R: Files<File = File>>(rt: &R, name: &str) -> bool {
    fs::metadata(rt, name).is_ok_and(|file| file.len() > 0)
}

/// Whether the first file was modified later than the second; none where one of them is no regular file, or has no time.
fn is_later<R: Files<File = File>>(rt: &R, image: &str, journal: &str) -> Option<bool> {
    let image = fs::metadata(rt, image).ok()?;
    let journal = fs::metadata(rt, journal).ok()?;
    if !image.is_file() {
        return None;
    }
    Some(image.modified().ok()? > journal.modified().ok()?)
}
