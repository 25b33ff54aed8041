//! A plain list of images beside a run of commands on devices that fail.
use bx_cli::{Fault, Reply};
use bx_journal::SessionFault;
use std::alloc::{AllocError, Global};
use test_case_files::{Answer, Ask, Opening, Row};
use test_case_sessions::report::compare::{Wrong, fault_text};
use test_case_sessions::session::answers::{same_reply, same_reply_text};
use test_case_sessions::sweep::images::Images;

/// What was stopped in the middle.
#[derive(Clone, Copy)]
enum Stop<'a> {
    /// An undo of a count of changes.
    Undo(usize),
    /// A redo of a count of changes.
    Redo(usize),
    /// A change that was to leave this image.
    Change(&'a [u8]),
}

/// What a run came to.
#[derive(Clone, Copy)]
enum Course<'a> {
    /// No call failed.
    Whole,
    /// A call failed while the devices were opened.
    Unopened,
    /// A call failed before the first that writes.
    Refused,
    /// A call failed then.
    Stopped(Stop<'a>),
}

/// The images beside a run.
#[derive(Drop)]
pub struct Follower<'a> {
    images: Images<'a>,
    course: Course<'a>,
}

/// What is stopped in a row.
fn stop_of(row: &Row) -> Stop<'_> {
    match &row.ask {
        Ask::Undo(k) => Stop::Undo(*k as usize),
        Ask::Redo(k) => Stop::Redo(*k as usize),
        _ => Stop::Change(row.left.image.as_slice()),
    }
}

/// The reply is this refusal, or the one that the case tells.
fn refused_so(alloc: Global, row: &Row, wanted: SessionFault, reply: Reply) -> Result<(), Wrong> {
    let wanted = Fault::Session(wanted);
    if reply == Reply::Refused(wanted) {
        return Ok(());
    }
    match &row.answer {
        Answer::Refused(text) => same_reply_text(alloc, text.as_str(), reply),
        _ => {
            let wanted = fault_text(alloc, wanted)?;
            same_reply_text(alloc, wanted.as_str(), reply)
        }
    }
}

impl<'a> Follower<'a> {
    /// Before the first command.
    pub fn new(images: Images<'a>) -> Self {
        Follower {
            images,
            course: Course::Whole,
        }
    }

    /// Whether no call failed.
    pub fn is_whole(&self) -> bool {
        matches!(self.course, Course::Whole)
    }

    /// Opening failed before it wrote anything, or has to be made again.
    pub fn refuse(&mut self) {
        self.course = Course::Unopened;
    }

    /// Whether nothing unfinished may be found.
    pub fn is_at_rest(&self) -> bool {
        matches!(self.course, Course::Whole | Course::Refused)
    }

    /// Whether the case tells what a row leaves: behind a refusal it doesn't tell what a change makes of the image.
    pub fn can_follow(&self, row: &Row) -> bool {
        match self.course {
            Course::Unopened | Course::Refused => match &row.ask {
                Ask::Undo(_) | Ask::Redo(_) => true,
                // What it is refused for hangs on the image.
                Ask::Patch { .. } => false,
                _ => matches!(&row.answer, Answer::Refused(_)),
            },
            _ => true,
        }
    }

    /// What a reply makes of the images, where nothing failed.
    fn go_on(&mut self, row: &'a Row, reply: Reply) -> Result<(), AllocError> {
        match reply {
            Reply::Changed { .. } | Reply::Copied { .. } => {
                self.images.change_to(row.left.image.as_slice())?;
            }
            Reply::Undone { left } => self.images.changes = left as usize,
            Reply::Redone { changes } => self.images.changes = changes as usize,
            Reply::Refused(_) => {}
        }
        Ok(())
    }

    /// What a row behind one that was refused is refused for: there are too few changes, since one of them wasn't made.
    fn lacks(&self, row: &Row) -> SessionFault {
        match &row.ask {
            Ask::Redo(_) => SessionFault::NothingToRedo {
                have: self.images.undone().min(65_535) as u32,
            },
            _ => SessionFault::TooFew {
                have: self.images.changes.min(65_535) as u32,
            },
        }
    }

    /// A row where a call failed before the first that writes.
    fn follow_refused(&mut self, alloc: Global, row: &Row, reply: Reply) -> Result<(), Wrong> {
        let changes = match reply {
            Reply::Refused(Fault::Session(SessionFault::DeviceFailed)) => return Ok(()),
            Reply::Undone { left } => left as usize,
            Reply::Redone { changes } => changes as usize,
            _ => return refused_so(alloc, row, self.lacks(row), reply),
        };
        if changes > self.images.all() {
            return refused_so(alloc, row, self.lacks(row), reply);
        }
        self.images.changes = changes;
        Ok(())
    }

    /// What the reply to a row makes of the images.
    pub fn follow(&mut self, alloc: Global, row: &'a Row, reply: Reply) -> Result<(), Wrong> {
        match self.course {
            Course::Stopped(_) => refused_so(alloc, row, SessionFault::Broken, reply),
            Course::Unopened | Course::Refused => self.follow_refused(alloc, row, reply),
            Course::Whole => self.follow_whole(alloc, row, reply),
        }
    }

    /// A row where no call failed before.
    fn follow_whole(&mut self, alloc: Global, row: &'a Row, reply: Reply) -> Result<(), Wrong> {
        match reply {
            Reply::Refused(Fault::Session(SessionFault::DeviceFailed)) => {
                self.course = Course::Refused;
                Ok(())
            }
            Reply::Refused(Fault::Session(SessionFault::Interrupted)) => {
                self.course = Course::Stopped(stop_of(row));
                Ok(())
            }
            _ => {
                same_reply(alloc, &row.answer, reply)?;
                Ok(self.go_on(row, reply)?)
            }
        }
    }

    /// The fewest and the most changes that may stand when what is left is opened.
    pub fn bounds(&self) -> (usize, usize) {
        let changes = self.images.changes;
        match self.course {
            Course::Stopped(Stop::Undo(k)) => (changes.saturating_sub(k), changes),
            Course::Stopped(Stop::Redo(k)) => (changes, changes.saturating_add(k)),
            Course::Stopped(Stop::Change(_)) => (changes, changes.saturating_add(1)),
            _ => (changes, changes),
        }
    }

    /// The images that are expected where opening finds this, and `changes` changes stand. Where something unfinished was
    /// found, what was undone is given up.
    pub fn expected(
        &self,
        alloc: Global,
        found: Opening,
        changes: usize,
    ) -> Result<Images<'a>, AllocError> {
        let mut images = self.images.copy(alloc)?;
        match self.course {
            Course::Stopped(Stop::Change(image)) if changes > images.changes => {
                images.change_to(image)?;
            }
            _ => images.changes = changes,
        }
        if !matches!(found, Opening::Clean { .. }) {
            images.forget();
        }
        Ok(images)
    }
}
