//! The note of an image, its third text: `JOURNAL.image`. It is judged as the other two are, and written in place. What isn't a note
//! stays.
pub mod text;

use crate::facts::alias::is_same;
use crate::facts::dev::is_among_devices;
use crate::facts::stat::{is_group_given, stat_of};
use crate::files::mode::Permits;
use crate::files::open::{open_there, take_away};
use crate::folders::{folder_of, sync_folder};
use crate::note::text::{WORD, has_own_name, is_own, put_in_place, read_front};
use crate::system::System;
use bx_world::{Classes, Stat, Unfit, is_note, text_unfit};
use std::alloc::{AllocError, Global};
use std::fs::{self, File, Metadata};
use std::io::{self, ErrorKind};

/// The names of an image and its texts, and that of its note.
#[derive(Drop)]
pub struct NoteNames {
    image: String,
    journal: String,
    redo: String,
    note: String,
}

impl NoteNames {
    /// The names, with that of the note, which is the journal's with `.image` behind it.
    ///
    /// # Errors
    /// Where memory is short.
    pub fn new(
        alloc: Global,
        image: &str,
        journal: &str,
        redo: &str,
    ) -> Result<NoteNames, AllocError> {
        let mut note = String::from_str(alloc, journal)?;
        note.push_str(".image")?;
        Ok(NoteNames {
            image: String::from_str(alloc, image)?,
            journal: String::from_str(alloc, journal)?,
            redo: String::from_str(alloc, redo)?,
            note,
        })
    }

    /// The name of the image.
    pub fn image(&self) -> &str {
        self.image.as_str()
    }
}

/// Where a note stands: by its name, beside this image, and who asks.
#[derive(Drop)]
pub struct Place<'a> {
    /// The names of the image and its texts.
    pub names: &'a NoteNames,
    /// What the system has of the image.
    pub image: Metadata,
    /// The user who runs the program.
    pub caller: u32,
}

impl Place<'_> {
    /// The name of the note.
    fn name(&self) -> &str {
        self.names.note.as_str()
    }
}

/// What a file may be, by what the system tells of it.
#[derive(Clone, Copy, PartialEq, Eq)]
enum Fitness {
    /// A text of the image.
    Fit,
    /// One of the caller's own that others may read who may not read the image: what it says is the caller's, but it is to be made anew.
    TooRead,
    /// One of the caller's own that others may write who may not write the image: what it says may be theirs.
    TooWide,
    /// Neither.
    Another,
}

/// What stands under the name of a note.
#[derive(Drop)]
enum Stands {
    /// Nothing.
    Nothing,
    /// A note, which is open to be written.
    Note(File),
    /// A note that is taken away before one is put: its bits are too wide, or it can't be opened to be written.
    Closed(Metadata, Fitness),
    /// Another file, which stays.
    Another,
    /// What it is isn't known.
    Unknown,
}

/// What a run knows of a note.
#[derive(Drop)]
pub struct RunNote {
    /// The note, once it was read or put, where it may be written in place.
    pub open: Option<File>,
    /// How many bytes a file had whose place the note took, where it had no more than the first word, and so said nothing; none where no
    /// such file stood there.
    pub blank: Option<u64>,
}

impl RunNote {
    /// Nothing.
    pub fn new() -> RunNote {
        RunNote {
            open: None,
            blank: None,
        }
    }

    /// Takes how many bytes the file had whose place the note took.
    fn stood(&mut self, had: u64) {
        if had <= WORD as u64 {
            self.blank = Some(had);
        }
    }
}

/// What a put leaves.
#[derive(Clone, Copy, PartialEq, Eq)]
pub enum Put {
    /// The note that stood, which has the bytes.
    InPlace,
    /// One that was made, which has them.
    Made,
    /// None.
    Without,
    /// The one that stood, as it was.
    Stands,
}

/// Whether none of the image and its texts is this file.
fn is_apart<R: System>(rt: &R, names: &NoteNames, found: &Metadata) -> bool {
    for name in [&names.image, &names.journal, &names.redo] {
        if let Ok(other) = fs::metadata(rt, name.as_str()) {
            if is_same(found, &other) {
                return false;
            }
        }
    }
    true
}

/// What a text of the caller's own may be that has readers who may not read the image: whether it has such writers too.
fn without_readers(place: &Place<'_>, image: &Stat, text: Stat) -> Fitness {
    let narrower = Stat {
        reads: Classes {
            group: false,
            others: false,
        },
        ..text
    };
    match text_unfit(place.caller, image, false, &narrower) {
        None => Fitness::TooRead,
        Some(_) => Fitness::TooWide,
    }
}

/// What the file of a note's name may be.
fn fitness_of<R: System>(rt: &R, place: &Place<'_>, found: &Metadata) -> Fitness {
    let image = stat_of(&place.image, false);
    let text = stat_of(found, is_group_given(rt, place.name(), found));
    if !is_apart(rt, place.names, found) {
        return Fitness::Another;
    }
    match text_unfit(place.caller, &image, found.is_symlink(), &text) {
        None => Fitness::Fit,
        Some(Unfit::Readers) if text.owner == place.caller => without_readers(place, &image, text),
        Some(Unfit::Writers) if text.owner == place.caller => Fitness::TooWide,
        Some(
            Unfit::Link
            | Unfit::Kind
            | Unfit::Names
            | Unfit::Owner
            | Unfit::Readers
            | Unfit::Writers
            | Unfit::Mounted
            | Unfit::ReadOnly,
        ) => Fitness::Another,
    }
}

/// The regular file that has a note's name; none where anything else has it, and where the system doesn't say, as of a name that is
/// too long.
///
/// # Errors
/// Where nothing has it.
fn regular<R: System>(rt: &R, name: &str) -> io::Result<Option<Metadata>> {
    match fs::symlink_metadata(rt, name) {
        Ok(found) if found.is_file() => Ok(Some(found)),
        Err(error) if error.kind() == ErrorKind::NotFound => Err(error),
        Ok(_) | Err(_) => Ok(None),
    }
}

/// A file of a note's name that is open.
#[derive(Drop)]
struct OpenNote {
    file: File,
    fitness: Fitness,
    writes: bool,
}

/// Opens a file of a note's name to read it, and to write it too where it may be written, and says whether it may. One that is to be
/// written is opened so, or not at all.
fn open_as<R: System>(rt: &R, name: &str, writes: bool) -> io::Result<(File, bool)> {
    match open_there(rt, name, true) {
        Ok(file) => Ok((file, true)),
        Err(error) if writes || error.kind() == ErrorKind::NotFound => Err(error),
        Err(_) => Ok((open_there(rt, name, false)?, false)),
    }
}

/// Opens the file of a note's name, and answers what it may be; none where that is another file. It is looked at before, so that no
/// device and no pipe is opened, and judged when it is open: another file may have taken its place.
///
/// # Errors
/// Where nothing has the name, and where what may be a note can't be opened.
fn opened<R: System>(rt: &R, place: &Place<'_>, writes: bool) -> io::Result<Option<OpenNote>> {
    let Some(looked) = regular(rt, place.name())? else {
        return Ok(None);
    };
    let (file, writes) = match open_as(rt, place.name(), writes) {
        Ok(opened) => opened,
        Err(_) if fitness_of(rt, place, &looked) == Fitness::Another => return Ok(None),
        Err(error) => return Err(error),
    };
    let Some(named) = regular(rt, place.name())? else {
        return Ok(None);
    };
    let fitness = fitness_of(rt, place, &named);
    if fitness == Fitness::Another || !is_same(&file.metadata()?, &named) {
        return Ok(None);
    }
    Ok(Some(OpenNote {
        file,
        fitness,
        writes,
    }))
}

/// Keeps a note open that may be written in place.
fn keep(opened: OpenNote, open: &mut Option<File>) {
    if opened.writes && opened.fitness == Fitness::Fit {
        *open = Some(opened.file);
    }
}

/// Reads the first bytes of a note into a buffer, and says how many; one that may be written in place stays open. What is none says
/// nothing, and so does one that has no more than its first word.
///
/// # Errors
/// Where it can't be opened or read.
pub fn read<R: System>(
    rt: &R,
    place: &Place<'_>,
    buf: &mut [u8],
    open: &mut Option<File>,
) -> io::Result<usize> {
    let opened = match opened(rt, place, false) {
        Ok(Some(opened)) => opened,
        Ok(None) => return Ok(0),
        Err(error) if error.kind() == ErrorKind::NotFound => return Ok(0),
        Err(error) => return Err(error),
    };
    if opened.fitness == Fitness::TooWide || is_among_devices(rt, folder_of(place.name())) {
        return Ok(0);
    }
    let count = read_front(&opened.file, buf)?;
    if !buf.get(..count).is_some_and(|text| is_note(text)) {
        return Ok(0);
    }
    keep(opened, open);
    Ok(if count <= WORD { 0 } else { count })
}

/// Whether a file that can't be opened to be written is a note: by what it has, or where it can't be read, by its name. Not known
/// where that tells nothing.
fn is_closed_note<R: System>(rt: &R, place: &Place<'_>) -> Option<bool> {
    match opened(rt, place, false) {
        Ok(Some(opened)) => is_own(&opened.file, place.name()).ok(),
        Ok(None) => Some(false),
        Err(_) if has_own_name(place.name()) => Some(true),
        Err(_) => None,
    }
}

/// What stands under the name of a note, where it can't be opened to be written, or isn't to be.
fn closed<R: System>(rt: &R, place: &Place<'_>) -> Stands {
    let found = match regular(rt, place.name()) {
        Ok(Some(found)) => found,
        Ok(None) => return Stands::Another,
        Err(_) => return Stands::Nothing,
    };
    match fitness_of(rt, place, &found) {
        Fitness::Another => Stands::Another,
        fitness => match is_closed_note(rt, place) {
            Some(true) => Stands::Closed(found, fitness),
            Some(false) => Stands::Another,
            None => Stands::Unknown,
        },
    }
}

/// What stands under the name of a note that is to be written.
fn standing<R: System>(rt: &R, place: &Place<'_>) -> Stands {
    match opened(rt, place, true) {
        Ok(None) => Stands::Another,
        Ok(Some(opened)) if opened.fitness == Fitness::Fit => {
            match is_own(&opened.file, place.name()) {
                Ok(true) => Stands::Note(opened.file),
                Ok(false) => Stands::Another,
                Err(_) => Stands::Unknown,
            }
        }
        Ok(Some(_)) | Err(_) => closed(rt, place),
    }
}

/// Takes a file away, where it has its name still.
fn remove<R: System>(rt: &R, name: &str, file: &Metadata) -> io::Result<()> {
    let named = fs::symlink_metadata(rt, name)?;
    if !is_same(file, &named) {
        return Err(io::Error::from(ErrorKind::NotFound));
    }
    fs::remove_file(rt, name)
}

/// Cuts a note to this length.
fn cut_to(file: &File, len: u64, syncs: bool) -> Put {
    if file.set_len(len).is_err() {
        return Put::Stands;
    }
    if syncs {
        let _ = file.sync_all();
    }
    Put::Without
}

/// Cuts a note to its first word, which says nothing, and by which it is known for a note later. It isn't left empty: an empty file
/// may be anybody's.
fn cut_to_word(file: &File, syncs: bool) -> Put {
    cut_to(file, WORD as u64, syncs)
}

/// Cuts a note that can't be taken away.
fn cut<R: System>(rt: &R, name: &str, found: &Metadata, syncs: bool) -> Put {
    match open_there(rt, name, true) {
        Ok(file) if file.metadata().is_ok_and(|open| is_same(&open, found)) => {
            cut_to_word(&file, syncs)
        }
        Ok(_) | Err(_) => Put::Stands,
    }
}

/// Takes a note away that is open, or else cuts it.
fn drop_note<R: System>(rt: &R, name: &str, file: &File, syncs: bool) -> Put {
    if file
        .metadata()
        .is_ok_and(|found| remove(rt, name, &found).is_ok())
    {
        if syncs {
            let _ = sync_folder(rt, folder_of(name));
        }
        return Put::Without;
    }
    cut_to_word(file, syncs)
}

/// Takes a note away that is open. A file stays that said nothing before this run put a line over it: it is cut to what says nothing,
/// and one that was empty, which may be anybody's, is empty again.
fn put_back<R: System>(rt: &R, name: &str, file: &File, syncs: bool, blank: Option<u64>) -> Put {
    match blank {
        Some(0) => cut_to(file, 0, syncs),
        Some(_) => cut_to_word(file, syncs),
        None => drop_note(rt, name, file, syncs),
    }
}

/// Writes a note in place, puts it on the disk where that is asked for, and answers which length it had.
fn written(file: &File, bytes: &[u8], syncs: bool) -> io::Result<u64> {
    let had = put_in_place(file, bytes)?;
    if syncs {
        file.sync_all()?;
    }
    Ok(had)
}

/// Makes a note beside the image, with its bits, and puts it and its name on the disk where that is asked for. One that can't be
/// written is taken away again.
fn make<R: System>(rt: &R, place: &Place<'_>, bytes: &[u8], syncs: bool) -> io::Result<File> {
    let name = place.name();
    let file = Permits::beside(&place.image).make(rt, name)?;
    let outcome = match written(&file, bytes, syncs) {
        Ok(_) if syncs => sync_folder(rt, folder_of(name)),
        Ok(_) => Ok(()),
        Err(error) => Err(error),
    };
    match outcome {
        Ok(()) => Ok(file),
        Err(error) => {
            let _ = file.set_len(0);
            take_away(rt, name, &file);
            Err(error)
        }
    }
}

/// What is left where bytes are put under a name that no file has; a note that is made stays open. No bytes need no note.
fn put_new<R: System>(
    rt: &R,
    place: &Place<'_>,
    bytes: &[u8],
    syncs: bool,
    open: &mut Option<File>,
) -> Put {
    if bytes.is_empty() {
        return Put::Without;
    }
    match make(rt, place, bytes, syncs) {
        Ok(file) => {
            *open = Some(file);
            Put::Made
        }
        Err(_) => Put::Without,
    }
}

/// What is left where bytes are put over a note that is open, and stays so. No bytes take it away, or what was put over a file that said
/// nothing; a write or a sync that fails takes it away too: an old line beside newer changes would be wrong of the image.
fn put_over<R: System>(
    rt: &R,
    name: &str,
    file: File,
    bytes: &[u8],
    syncs: bool,
    note: &mut RunNote,
) -> Put {
    if bytes.is_empty() {
        return put_back(rt, name, &file, syncs, note.blank.take());
    }
    match written(&file, bytes, syncs) {
        Ok(had) => {
            note.stood(had);
            note.open = Some(file);
            Put::InPlace
        }
        Err(_) => drop_note(rt, name, &file, syncs),
    }
}

/// What is left where bytes are put under the name of a file of this length that was taken away.
fn put_anew<R: System>(
    rt: &R,
    place: &Place<'_>,
    bytes: &[u8],
    syncs: bool,
    had: u64,
    note: &mut RunNote,
) -> Put {
    if !bytes.is_empty() {
        note.stood(had);
    }
    put_new(rt, place, bytes, syncs, &mut note.open)
}

/// The note that is open, if it has its name still.
fn still_open<R: System>(rt: &R, name: &str, open: &mut Option<File>) -> Option<File> {
    let file = open.take()?;
    let named = fs::symlink_metadata(rt, name).ok()?;
    if is_same(&file.metadata().ok()?, &named) {
        Some(file)
    } else {
        None
    }
}

/// Puts bytes in place of a note, and on the disk too where `syncs` says so. One that can't be written is taken away and made anew,
/// and so is one of the caller's own whose bits are wider than the image's. No bytes take it away; a file that said nothing when this run
/// put a line over it stays, as empty as it was. `note` has it open where it was read or put by this run: it was judged then, and is judged
/// again only where another file has taken its name.
pub fn put_note<R: System>(
    rt: &R,
    place: &Place<'_>,
    bytes: &[u8],
    syncs: bool,
    note: &mut RunNote,
) -> Put {
    let name = place.name();
    if let Some(file) = still_open(rt, name, &mut note.open) {
        return put_over(rt, name, file, bytes, syncs, note);
    }
    if is_among_devices(rt, folder_of(name)) {
        return Put::Without;
    }
    match standing(rt, place) {
        Stands::Nothing => put_new(rt, place, bytes, syncs, &mut note.open),
        Stands::Note(file) => put_over(rt, name, file, bytes, syncs, note),
        Stands::Closed(found, fitness) => match remove(rt, name, &found) {
            Ok(()) => put_anew(rt, place, bytes, syncs, found.len(), note),
            Err(_) if fitness == Fitness::TooWide => Put::Without,
            Err(_) => cut(rt, name, &found, syncs),
        },
        Stands::Another => Put::Without,
        Stands::Unknown => Put::Stands,
    }
}
