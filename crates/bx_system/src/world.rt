//! The system as a world.
ghost use Rattle.std.specs.Prelude.{◌≡◌, ◌≤◌, [], IfErr, IfOk, None, length};
ghost use Rattle.bx_system.specs.Unseen.{unseen};

use crate::facts::alias::Identity;
use crate::facts::dev::is_among_devices;
use crate::facts::stat::{caller_of, is_group_given, stat_of};
use crate::files::counted_file::CountedFile;
use crate::files::devices::{held, image_of, size_of_texts};
use crate::files::left::Left;
use crate::files::links::{Misplaced, Unmade, make_image, refuse_among_devices};
use crate::files::locks::Locks;
use crate::files::look::{is_in_place, look, look_at_text};
use crate::files::mode::Permits;
use crate::files::open::{fixed_length_of, length_of, open_there, open_to_read, take_away};
use crate::files::opened::{Known, OpenFile};
use crate::folders::{folder_of, sync_folder};
use crate::note::{self, NoteNames, Place, Put, RunNote};
use crate::noted::Noted;
use crate::progress::{Counted, Progress};
use crate::refusal::{refused, unmade, unopened};
use crate::system::System;
use crate::tally::Tally;
use bx_image::FileImage;
use bx_journal_store::{FileText, TextStore};
use bx_text::{IoFault, emit};
use bx_world::{Look, Outgrown, Refusal, Stat, Unwritten, World};
use std::alloc::AllocError;
use std::cell::Cell;
use std::fs::{self, File, Metadata, TryLockError};
use std::io::{self, Seek, SeekFrom, Write};
use std::mem::replace;

/// Where the failures of a redo text begin to count.
const FIRST_OF_REDO: u64 = 1 << 32;

/// What the run knows of the three files that are lent.
#[derive(Clone, Copy)]
struct Lent {
    image: Known,
    journal: Known,
    redo: Known,
}

/// The system as a world: each call is the system's own. That it does what the trait says of a faithful world is trusted, so it
/// never counts as faithful here, and what is proved of it is what is said of every world.
#[derive(Drop)]
pub struct SystemWorld<'p, 'r, R> {
    rt: &'r R,
    progress: &'p Progress<'r, R>,
    // whether a sync waits until the disk has all
    waits: bool,
    // who runs the program, once that was asked for
    caller: Cell<Option<u32>>,
    // how many bytes of an input are read at most; none where that isn't known
    most: Option<u64>,
    // whether images that are read alone are compared, each to its end
    compares: bool,
    lent: Lent,
    // how many bytes those have that are lent to be read: texts, or images that are compared
    to_read: u64,
    // the folder whose names were put on the disk last
    kept: Option<Identity>,
    locks: Locks,
    // the names of the files that a note stands beside; none where none is kept
    note: Option<NoteNames>,
    // what the system had of the image that was lent last, where a note is kept
    image: Option<Metadata>,
    // what this run knows of the note
    run_note: RunNote,
    /// What the devices of the last session said.
    pub left: Left,
    /// Whether a name was refused its place on the disk.
    pub is_unkept: bool,
    /// The system's number for what standard output was refused.
    pub unwritten: Option<i32>,
    /// The system's number for what the last input was refused.
    pub unread: Option<i32>,
    /// Why the last image that is missing wasn't made, where its place is none.
    pub misplaced: Option<Misplaced>,
    /// Whether a note was to be put, and there is none: another file has its name, or it can't be made or written.
    pub is_without_note: bool,
}

impl<'p, 'r, R: System> SystemWorld<'p, 'r, R> {
    /// The system that this process runs in. `waits` says whether a sync waits until the disk has all; else it does nothing, and
    /// no name is put on the disk. `progress` counts what is read of the texts, and what is written.
    pub fn new(rt: &'r R, progress: &'p Progress<'r, R>, waits: bool) -> Self {
        Self {
            rt,
            progress,
            waits,
            caller: Cell::new(None),
            most: None,
            compares: false,
            lent: Lent {
                image: Known::of_image(None, false),
                journal: Known::of_text(false, false),
                redo: Known::of_text(false, false),
            },
            to_read: 0,
            kept: None,
            locks: Locks::PASSING,
            note: None,
            image: None,
            run_note: RunNote::new(),
            left: Left::NOTHING,
            is_unkept: false,
            unwritten: None,
            unread: None,
            misplaced: None,
            is_without_note: false,
        }
    }

    /// The same for a program that reads at most `most` bytes of an input, as far as that is known.
    pub fn reading(rt: &'r R, progress: &'p Progress<'r, R>, most: Option<u64>) -> Self {
        let mut world = SystemWorld::new(rt, progress, false);
        world.most = most;
        world
    }

    /// The same for a program that compares images, whose bytes are counted as they are read.
    pub fn comparing(rt: &'r R, progress: &'p Progress<'r, R>) -> Self {
        let mut world = SystemWorld::new(rt, progress, false);
        world.compares = true;
        world
    }

    /// The same, with a note beside the journal: the file of its name with `.image` behind it. Else there is none.
    ///
    /// # Errors
    /// Where memory is short.
    pub fn with_note(mut self, image: &str, journal: &str, redo: &str) -> Result<Self, AllocError> {
        self.note = Some(NoteNames::new(self.rt.alloc(), image, journal, redo)?);
        Ok(self)
    }

    /// Where the note stands, where one is kept; it is beside the image that was lent last, or else the one of its name.
    fn place(&self) -> Option<Place<'_>> {
        let names = self.note.as_ref()?;
        let image = match &self.image {
            Some(image) => image.clone().ok()?,
            None => fs::metadata(self.rt, names.image()).ok()?,
        };
        Some(Place {
            names,
            image,
            caller: self.caller(),
        })
    }

    /// Keeps what the system has of an image that is lent, where a note is kept beside it.
    fn stand_beside(&mut self, image: &OpenFile<'p, 'r, R>) {
        if self.note.is_some() {
            self.image = image.metadata().ok();
        }
    }

    /// How many bytes are read of an input behind `passed` of them, where somebody looks and as far as that is known.
    fn most_of(&self, file: &File, passed: u64) -> Option<u64> {
        if !self.progress.shows {
            return None;
        }
        match (self.most, length_of(file)) {
            (Some(most), Some(length)) => Some(most.min(length.saturating_sub(passed))),
            (most, None) => most,
            (None, Some(length)) => Some(length.saturating_sub(passed)),
        }
    }

    /// An image that was there and is open, and may be one of a length that stays. `waits` says whether its syncs wait.
    fn image(&self, file: File, waits: bool) -> Result<OpenFile<'p, 'r, R>, Refusal> {
        let found = file.metadata().map_err(refused)?;
        let length = fixed_length_of(&file, &found).map_err(refused)?;
        let file = CountedFile::image(held(file, waits), self.progress);
        Ok(OpenFile::new(file, Known::of_image(length, false)).asked(&found))
    }

    /// The refusal of an image that wasn't made.
    fn unmade_image(&mut self, why: Unmade) -> Refusal {
        match why {
            Unmade::NoMemory => Refusal::Other(None),
            Unmade::Misplaced(misplaced) => {
                self.misplaced = Some(misplaced);
                Refusal::Other(None)
            }
            Unmade::System(error) => unmade(error),
        }
    }

    /// A text that is open.
    fn text(&self, file: File, is_group_given: bool, made: bool) -> OpenFile<'p, 'r, R> {
        OpenFile::new(
            CountedFile::text(Some(held(file, self.waits)), self.progress),
            Known::of_text(is_group_given, made),
        )
    }

    /// Puts the names that a folder has on the disk, unless that was done last and no file was made since.
    fn keep(&mut self, folder: &str) -> io::Result<()> {
        let found = fs::metadata(self.rt, folder)
            .ok()
            .map(|found| Identity::of(&found));
        if found.is_some() && found == self.kept {
            return Ok(());
        }
        sync_folder(self.rt, folder)?;
        self.kept = found;
        Ok(())
    }

    /// The file of an image that is compared. Progress has the length of all that are, where somebody looks.
    fn compared(&mut self, image: OpenFile<'p, 'r, R>) -> CountedFile<'p, 'r, R> {
        if self.progress.shows {
            let length = image.system().ok().and_then(|file| length_of(file));
            self.to_read = self.to_read.saturating_add(length.unwrap_or(0));
            self.progress.begin(Some(self.to_read));
        }
        image.file.only_read(true).counting_reads()
    }

    /// Lends a text to be read, and tells how many bytes those have that are.
    fn lend_text(
        &mut self,
        text: OpenFile<'p, 'r, R>,
    ) -> Result<FileText<CountedFile<'p, 'r, R>>, Refusal>
        ensures { IfOk result (λ t. ⟦<FileText<CountedFile<'p, 'r, R>> as TextStore>⟧.failures t ≡ 0) }
    {
        if let Some(length) = size_of_texts(self.progress, text.system()?, None) {
            self.to_read = self.to_read.saturating_add(length);
            self.progress.begin(Some(self.to_read));
        }
        Ok(FileText::new(text.file.only_read(true)))
    }

    /// How many bytes two texts have, where somebody looks and the system tells.
    fn size_of(&self, journal: &OpenFile<'p, 'r, R>, redo: &OpenFile<'p, 'r, R>) -> Option<u64> {
        let redo = redo.system().ok()?;
        size_of_texts(self.progress, journal.system().ok()?, Some(redo))
    }
}

/// Writes the bytes, or says how many of them went out.
fn put<W: Write>(out: &mut W, bytes: &[u8]) -> Result<(), Unwritten>
    ensures { IfErr result (λ e. e.written ≤ length bytes.now) }
{
    match emit(out, bytes) {
        Ok(()) => Ok(()),
        Err(IoFault::WriteFailed { written }) => Err(Unwritten { written }),
        Err(
            IoFault::NoMemory | IoFault::ReadFailed | IoFault::InputTooLong | IoFault::SkipPastEnd,
        ) => Err(Unwritten { written: 0 }),
    }
}

impl<'p, 'r, R: System> World for SystemWorld<'p, 'r, R> {
    type Image = FileImage<CountedFile<'p, 'r, R>>;

    type Text = FileText<CountedFile<'p, 'r, R>>;

    type File = OpenFile<'p, 'r, R>;

    type Input = Noted<Counted<'p, 'r, File, R>>;

    // No proof knows what a real file holds, so nothing is claimed: `docs/DECISIONS.md`, "The program and runs of commands".
    ghost faithful = { λ _. ⊥ };

    ghost state = { λ _. unseen };

    ghost survives = { λ _ _ _. ⊥ };

    ghost number = { λ _. 0 };

    ghost is_locked = { λ _. ⊥ };

    ghost is_shared = { λ _. ⊥ };

    ghost is_kept = { λ _ _. ⊥ };

    ghost refusals = { λ _. 0 };

    ghost beside = { λ _. None };

    ghost note = { λ _. [] };

    ghost has_unwritten = { λ _. ⊥ };

    ghost was_handed = { λ _ _. ⊥ };

    ghost note_survives = { λ _ _. ⊥ };

    ghost begun = { λ _ faithful. absurd faithful };

    ghost within = { λ _ _ _ faithful _. absurd faithful };

    fn look(&mut self, name: &str) -> Result<Look, Refusal> {
        look(self.rt, name)
    }

    fn caller(&self) -> u32 {
        if let Some(caller) = self.caller.get() {
            return caller;
        }
        let caller = caller_of(self.rt);
        self.caller.set(Some(caller));
        caller
    }

    fn outgrown(&self) -> Option<Outgrown> {
        self.left.outgrown
    }

    fn open_image(&mut self, name: &str, _: bool) -> Result<OpenFile<'p, 'r, R>, Refusal> {
        self.image(
            open_there(self.rt, name, true).map_err(unopened)?,
            self.waits,
        )
    }

    fn open_text(
        &mut self,
        name: &str,
        image: &OpenFile<'p, 'r, R>,
    ) -> Result<OpenFile<'p, 'r, R>, Refusal> {
        let image = stat_of(&image.metadata()?, false);
        let text = look_at_text(self.rt, name, self.caller(), &image)?;
        let file = open_there(self.rt, name, true).map_err(unopened)?;
        Ok(self.text(file, text.is_group_given, false))
    }

    fn make_text(
        &mut self,
        name: &str,
        image: &OpenFile<'p, 'r, R>,
    ) -> Result<OpenFile<'p, 'r, R>, Refusal> {
        if is_among_devices(self.rt, folder_of(name)) {
            return Err(Refusal::Other(None));
        }
        // The folder gets a name that isn't on the disk yet.
        self.kept = None;
        let file = Permits::beside(&image.metadata()?)
            .make(self.rt, name)
            .map_err(unmade)?;
        let is_group_given = match file.metadata() {
            Ok(found) => is_group_given(self.rt, name, &found),
            Err(_) => true,
        };
        Ok(self.text(file, is_group_given, true))
    }

    fn make_image(&mut self, name: &str) -> Result<OpenFile<'p, 'r, R>, Refusal> {
        self.misplaced = None;
        self.kept = None;
        let outcome = match refuse_among_devices(self.rt, name) {
            Ok(()) => make_image(self.rt, name, Permits::of_image(), self.waits),
            Err(why) => Err(why),
        };
        match outcome {
            Ok((file, true)) => Ok(OpenFile::new(
                CountedFile::image(held(file, self.waits), self.progress),
                Known::of_image(None, true),
            )),
            Ok((file, false)) => self.image(file, self.waits),
            Err(why) => Err(self.unmade_image(why)),
        }
    }

    fn open_input(&mut self, name: &str) -> Result<OpenFile<'p, 'r, R>, Refusal> {
        let file = open_there(self.rt, name, false).map_err(unopened)?;
        Ok(OpenFile::new(
            CountedFile::image(held(file, self.waits), self.progress),
            Known::of_image(None, false),
        ))
    }

    fn length(&mut self, file: &OpenFile<'p, 'r, R>) -> Option<u64> {
        length_of(file.system().ok()?)
    }

    fn lend_input(
        &mut self,
        file: OpenFile<'p, 'r, R>,
        passed: u64,
    ) -> Result<Self::Input, Refusal> {
        let mut file = file.into_system()?;
        let most = self.most_of(&file, passed);
        if passed != 0 {
            file.seek(SeekFrom::Start(passed)).map_err(refused)?;
        }
        self.unread = None;
        self.progress.begin_reading(most);
        Ok(Noted::new(Counted::new(file, self.progress)))
    }

    fn close_input(&mut self, input: Self::Input) {
        self.unread = input.error;
        self.progress.end();
    }

    fn stat(&mut self, file: &OpenFile<'p, 'r, R>) -> Result<Stat, Refusal> {
        file.stat(self.rt)
    }

    fn lock(&mut self, name: &str, file: &mut OpenFile<'p, 'r, R>) -> Result<(), Refusal> {
        match self.locks.lock(file.system()?) {
            Ok(()) => is_in_place(self.rt, name, file),
            Err(TryLockError::WouldBlock) => Err(Refusal::Locked),
            Err(TryLockError::Error(e)) => Err(refused(e)),
        }
    }

    fn is_same(
        &mut self,
        a: &OpenFile<'p, 'r, R>,
        b: &OpenFile<'p, 'r, R>,
    ) -> Result<bool, Refusal> {
        Ok(a.identity()? == b.identity()?)
    }

    fn take_away(&mut self, name: &str, file: &OpenFile<'p, 'r, R>) {
        if file.known.made {
            if let Ok(file) = file.system() {
                take_away(self.rt, name, file);
            }
        }
    }

    fn keep_name(&mut self, name: &str) -> Result<(), Refusal> {
        if !self.waits {
            return Ok(());
        }
        match self.keep(folder_of(name)) {
            Ok(()) => Ok(()),
            Err(error) => {
                self.is_unkept = true;
                Err(refused(error))
            }
        }
    }

    fn into_devices(
        &mut self,
        image: OpenFile<'p, 'r, R>,
        journal: OpenFile<'p, 'r, R>,
        redo: OpenFile<'p, 'r, R>,
    ) -> (Self::Image, Self::Text, Self::Text) {
        self.progress.begin_reading(self.size_of(&journal, &redo));
        self.stand_beside(&image);
        self.lent = Lent {
            image: image.known,
            journal: journal.known,
            redo: redo.known,
        };
        (
            image_of(image.file, image.known.length),
            FileText::new(journal.file),
            FileText::counting_from(redo.file, FIRST_OF_REDO),
        )
    }

    fn into_files(
        &mut self,
        image: Self::Image,
        journal: Self::Text,
        redo: Self::Text,
    ) -> (
        OpenFile<'p, 'r, R>,
        OpenFile<'p, 'r, R>,
        OpenFile<'p, 'r, R>,
    ) {
        self.progress.end();
        self.left = Left::of(&image, &journal, &redo, FIRST_OF_REDO);
        let lent = self.lent;
        (
            OpenFile::new(image.into_file(), lent.image),
            OpenFile::new(journal.into_file(), lent.journal),
            OpenFile::new(redo.into_file(), lent.redo),
        )
    }

    fn print(&mut self, bytes: &[u8]) -> Result<(), Unwritten> {
        let mut out = Tally::new(io::writer(self.rt));
        match put(&mut out, bytes) {
            Ok(()) => Ok(()),
            Err(unwritten) => {
                self.unwritten = out.error;
                Err(unwritten)
            }
        }
    }

    fn complain(&mut self, bytes: &[u8]) {
        if !bytes.is_empty() {
            let _ = eprint!(self.rt; "{}", str::from_utf8(bytes).unwrap_or(""));
        }
    }

    fn open_image_to_read(&mut self, name: &str) -> Result<OpenFile<'p, 'r, R>, Refusal> {
        self.image(open_to_read(self.rt, name).map_err(unopened)?, false)
    }

    fn open_text_to_read(
        &mut self,
        name: &str,
        image: &OpenFile<'p, 'r, R>,
    ) -> Result<OpenFile<'p, 'r, R>, Refusal> {
        let image = stat_of(&image.metadata()?, false);
        let text = look_at_text(self.rt, name, self.caller(), &image)?;
        let file = open_to_read(self.rt, name).map_err(unopened)?;
        Ok(OpenFile::new(
            CountedFile::text(Some(held(file, false)), self.progress),
            Known::of_text(text.is_group_given, false),
        ))
    }

    fn lock_shared(&mut self, name: &str, file: &mut OpenFile<'p, 'r, R>) -> Result<(), Refusal> {
        match self.locks.lock_shared(file.system()?) {
            Ok(()) => is_in_place(self.rt, name, file),
            Err(TryLockError::WouldBlock) => Err(Refusal::Locked),
            Err(TryLockError::Error(e)) => Err(refused(e)),
        }
    }

    fn lend_image_to_read(&mut self, image: OpenFile<'p, 'r, R>) -> Result<Self::Image, Refusal> {
        self.stand_beside(&image);
        if self.compares {
            let length = image.known.length;
            return Ok(image_of(self.compared(image), length));
        }
        self.to_read = 0;
        self.progress.begin(None);
        Ok(image_of(image.file.only_read(true), image.known.length))
    }

    fn lend_text_to_read(&mut self, text: OpenFile<'p, 'r, R>) -> Result<Self::Text, Refusal> {
        self.lend_text(text)
    }

    fn lend_no_text(&mut self) -> Self::Text {
        FileText::new(CountedFile::text(None, self.progress))
    }

    fn close_read(&mut self, image: Self::Image, journal: Self::Text, redo: Self::Text) {
        self.progress.end();
        self.left = Left::of(&image, &journal, &redo, 0);
    }

    fn lend_beside(
        &mut self,
        image: OpenFile<'p, 'r, R>,
        journal: OpenFile<'p, 'r, R>,
    ) -> Result<(Self::Image, Self::Text), Refusal> {
        self.to_read = 0;
        self.progress.begin(None);
        let text = self.lend_text(journal)?;
        self.stand_beside(&image);
        let file = image.file.only_read(true).waiting(self.waits);
        Ok((image_of(file, image.known.length), text))
    }

    fn lend_redo_beside(&mut self, redo: OpenFile<'p, 'r, R>) -> Result<Self::Text, Refusal> {
        self.lend_text(redo)
    }

    fn let_change(&mut self, journal: Self::Text, redo: Self::Text) -> (Self::Text, Self::Text) {
        let journal = journal.into_file().only_read(false);
        let redo = redo.into_file().only_read(false);
        (
            FileText::new(journal),
            FileText::counting_from(redo, FIRST_OF_REDO),
        )
    }

    fn close_beside(&mut self, image: Self::Image, journal: Self::Text, redo: Self::Text) {
        self.progress.end();
        self.left = Left::of(&image, &journal, &redo, FIRST_OF_REDO);
    }

    fn read_note(&mut self, buf: &mut [u8]) -> Result<usize, Refusal> {
        let Some(place) = self.place() else {
            return Ok(0);
        };
        let mut open = None;
        let count = note::read(self.rt, &place, buf, &mut open).map_err(refused)?;
        self.run_note.open = open;
        Ok(count.min(buf.len()))
    }

    fn put_note(&mut self, bytes: &[u8], synced: bool) -> bx_world::Noted {
        let mut note = replace(&mut self.run_note, RunNote::new());
        let put = match self.place() {
            Some(place) => {
                note::put_note(self.rt, &place, bytes, synced && self.waits, &mut note)
            }
            None => Put::Without,
        };
        self.run_note = note;
        self.is_without_note = put == Put::Without && !bytes.is_empty();
        match put {
            Put::InPlace => bx_world::Noted::Put,
            Put::Made => {
                self.kept = None;
                bx_world::Noted::Put
            }
            Put::Without => bx_world::Noted::Without,
            Put::Stands => bx_world::Noted::Stands,
        }
    }

    fn drop_note(&mut self) -> Result<(), Refusal> {
        // Whatever stood there before: the history goes, and all that was said of it.
        self.run_note.blank = None;
        match self.put_note(&[], true) {
            bx_world::Noted::Put | bx_world::Noted::Without => Ok(()),
            bx_world::Noted::Stands => Err(Refusal::Other(None)),
        }
    }

    fn keep_locks(&mut self) {
        self.locks = Locks::lasting(self.rt.alloc());
    }

    fn pass_locks(&mut self) {
        self.locks = Locks::PASSING;
    }
}
