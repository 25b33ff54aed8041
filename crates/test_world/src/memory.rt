//! A world in memory.
ghost use Rattle.std.specs.Prelude.{◌≡◌, ◌<◌, ◌≤◌, List, [], ℕ, length, true, false, None, Some, OnOk, OnErr};
ghost use Rattle.test_world.specs.MemoryFiles.{IsConsistent, bytes_at, file_within, synced_at};
ghost use Rattle.test_world.specs.declared.memory.files.LentBeside.{LentBeside};

pub(crate) mod files;
pub(crate) mod image;
pub(crate) mod input;
pub(crate) mod note;
pub(crate) mod reading;
pub(crate) mod refusals;
pub(crate) mod setup;
pub(crate) mod text;

use crate::memory::files::{
    Contents, Entry, Leads, LentBeside, LentFiles, MOST_LINKS, Stored, bury, copy_of_bytes,
    exchange, file_named, free_end, has_no_bytes, is_link, is_taken, length_of, stat_of,
};
use crate::memory::image::LentImage;
use crate::memory::input::LentInput;
use crate::memory::reading::{copy_of, nothing, whole_copy_of};
use crate::memory::refusals::{FIRST_OF_REDO, Refusals};
use crate::memory::text::LentText;
use bx_image::{Device, Fuse, FuseImage, Part};
use bx_journal_store::{CountedText, FuseText, TextStore};
use bx_text::Name;
use bx_world::{Classes, Kind, Look, Noted, Outgrown, Refusal, Stat, Unwritten, World};
use std::alloc::Global;

/// Which calls of a device that is lent fail.
#[derive(Clone, Copy)]
pub struct Fails {
    /// The count of them that pass first.
    pub pass: u64,
    /// Whether they are reads, which all fail from there on; else they are writes, cuts and syncs.
    pub on_reads: bool,
    /// How much of a write that fails takes effect.
    pub part: Part,
    /// Whether one write fails alone, or all from there on.
    pub once: bool,
}

impl Fails {
    /// None of them.
    pub const NEVER: Fails = Fails {
        pass: u64::MAX,
        on_reads: false,
        part: Part::Nothing,
        once: true,
    };

    /// All writes, cuts and syncs of a device that is only read; or its reads, where they are to fail.
    fn of_reading(self) -> Fails {
        if self.on_reads {
            return self;
        }
        Fails {
            pass: 0,
            on_reads: false,
            part: Part::Nothing,
            once: false,
        }
    }
}

/// What a world in memory doesn't do.
#[derive(Clone, Copy)]
pub struct Plan {
    /// The calls of the world that are refused.
    pub calls: Fuse,
    /// The calls of the image that fail, once it is lent.
    pub image: Fails,
    /// Those of the journal.
    pub journal: Fails,
    /// Those of the redo text.
    pub redo: Fails,
    /// The reads of an input that fail, of each one that is lent.
    pub input: Fuse,
}

impl Plan {
    /// All is done that can be done.
    pub const NOTHING: Plan = Plan {
        calls: Fuse::Never,
        image: Fails::NEVER,
        journal: Fails::NEVER,
        redo: Fails::NEVER,
        input: Fuse::Never,
    };
}

/// What a run has beside the files, and what it wrote.
#[derive(Drop)]
pub struct Run {
    caller: u32,
    before: usize,
    lent: Option<LentFiles>,
    beside: Option<LentBeside>,
    output: Vec<u8>,
    errors: Vec<u8>,
    stuck: u64,
    is_unwritten: bool,
    refusals: Refusals,
    note: Contents,
}

/// A world in memory. Its calls are refused where its plan says so, where a file is missing or there already, and for want of
/// memory.
#[derive(Drop)]
pub struct MemoryWorld {
    alloc: Global,
    entries: Vec<Entry>,
    files: Vec<Stored>,
    run: Run,
    plan: Plan,
    ghost kept: { IsConsistent run.before (length files.items) run.lent run.beside },
}

/// An open file of a world in memory.
#[derive(Drop)]
pub struct OpenFile {
    number: usize,
    is_locked: bool,
    is_shared: bool,
}

impl OpenFile {
    /// The file of this number, which isn't locked.
    fn unlocked(number: usize) -> Self
        ensures { result ≡ record { number = number; is_locked = false; is_shared = false } }
    {
        OpenFile {
            number,
            is_locked: false,
            is_shared: false,
        }
    }

    /// The file of this number, which is locked.
    fn locked(number: usize) -> Self
        ensures { result ≡ record { number = number; is_locked = true; is_shared = false } }
    {
        OpenFile {
            number,
            is_locked: true,
            is_shared: false,
        }
    }
}

/// The same files, with this redo text.
fn with_redo(lent: Option<LentBeside>, redo: usize) -> Option<LentBeside>
    ensures some { (l : LentBeside) → lent ≡ Some l → result ≡ Some (record { image = l.image; journal = l.journal; redo = Some redo }) }
    ensures none { lent ≡ None → result ≡ None }
{
    match lent {
        Some(lent) => Some(LentBeside {
            image: lent.image,
            journal: lent.journal,
            redo: Some(redo),
        }),
        None => None,
    }
}

impl MemoryWorld {
    ghost use Rattle.std.specs.Prelude.{IfOk, IfSome, Err, Some, string_bytes};
    ghost use Rattle.bx_world.specs.declared.world.Refusal.TheVariants.{Missing};
    ghost use Rattle.bx_world.specs.World.{CountsRefusal, IsAlwaysFit, IsOwnText, Makes};
    ghost use Rattle.test_world.specs.MemoryFiles.{file_named, free_end, is_taken};
    ghost use Rattle.test_world.specs.Memory.{AddsFile, BuriesEmpty, BuriesOrSticks, HasOtherBytes, LendsContents, NamesFile, NamesNothing, TakesContents, IsNoted, note_of, refusals_of, state_of, stat_beside};

    /// A world without files, which this user runs a program in.
    pub fn new(alloc: Global, caller: u32) -> Self
        ensures faithful { ⟦<MemoryWorld as World>⟧.faithful result }
        ensures names { (m : List ℕ) → (⟦<MemoryWorld as World>⟧.state result).named m ≡ None }
        ensures written { ⟦<MemoryWorld as World>⟧.has_unwritten result → ⊥ }
    {
        MemoryWorld {
            alloc,
            entries: Vec::new(alloc),
            files: Vec::new(alloc),
            run: Run {
                caller,
                before: 0,
                lent: None,
                beside: None,
                output: Vec::new(alloc),
                errors: Vec::new(alloc),
                stuck: 0,
                is_unwritten: false,
                refusals: Refusals::none(),
                note: nothing(alloc),
            },
            plan: Plan::NOTHING,
        }
    }

    /// Takes note of a call, and says whether it is refused.
    fn refuses(&mut self) -> bool
        ensures { IsNoted result self.old self.new }
    {
        let refuses = self.plan.calls.blows();
        if refuses {
            self.run.refusals.note();
        }
        refuses
    }

    /// Notes that a call is refused.
    fn refuse(&mut self) -> Refusal
        ensures kept { IsNoted true self.old self.new }
        ensures other { result ≡ Refusal.Other None }
    {
        self.run.refusals.note();
        Refusal::Other(None)
    }

    /// Gives a file a name. It is the newest of that name.
    fn name_file(&mut self, name: &str, number: usize) -> Result<(), Refusal>
        ensures ok { OnOk result (NamesFile self.old self.new name.now number) }
        ensures err { OnErr result (NamesNothing self.old self.new) }
    {
        let text = String::from_str(self.alloc, name).map_err(|_| Refusal::Other(None))?;
        let name = Name::from_string(text);
        let entry = Entry {
            name,
            leads: Leads::File(number),
        };
        self.entries
            .insert(0, entry)
            .map_err(|_| Refusal::Other(None))?;
        Ok(())
    }

    /// Opens the file that a name leads to.
    fn open(&mut self, name: &str) -> Result<OpenFile, Refusal>
        ensures ok { IfOk result (λ f. file_named self.old.files.items self.old.entries.items name.now ≡ Some f.number) }
        ensures there { IfOk result (λ f. f.number < length self.old.files.items) }
        ensures missing { result ≡ Err Missing → file_named self.old.files.items self.old.entries.items name.now ≡ None }
        ensures files { self.new.files ≡ self.old.files }
        ensures same { state_of self.new ≡ state_of self.old }
        ensures counted { CountsRefusal result (refusals_of self.old) (refusals_of self.new) }
        ensures note { note_of self.new ≡ note_of self.old }
    {
        if self.refuses() {
            return Err(Refusal::Other(None));
        }
        match file_named(self.files.as_slice(), self.entries.as_slice(), name) {
            Some(number) => Ok(OpenFile::unlocked(number)),
            None => Err(Refusal::Missing),
        }
    }

    /// Makes an empty file of a name that is free.
    fn add_file(&mut self, name: &str, stat: Stat) -> Result<OpenFile, Refusal>
        requires free { is_taken self.old.files.items self.old.entries.items name.now ≡ false }
        ensures number { IfOk result (λ f. f.number ≡ length self.old.files.items) }
        ensures ok { OnOk result (AddsFile name.now stat self.old self.new) }
        ensures err { OnErr result (state_of self.new ≡ state_of self.old) }
        ensures synced { (n : ℕ) → n < length self.old.files.items
            → synced_at self.new.files.items n ≡ synced_at self.old.files.items n }
        ensures counted { refusals_of self.new ≡ refusals_of self.old }
        ensures note { note_of self.new ≡ note_of self.old }
    {
        let number = self.files.len();
        self.files.reserve(1).map_err(|_| Refusal::Other(None))?;
        self.name_file(name, number)?;
        let stored = Stored {
            contents: Contents {
                bytes: Vec::new(self.alloc),
                synced: Vec::new(self.alloc),
            },
            stat,
            is_gone: false,
        };
        self.files.push(stored).unwrap();
        Ok(OpenFile::unlocked(number))
    }

    /// Makes an empty text beside an image, whose classes it has, and which the caller owns.
    fn add_text(&mut self, name: &str, image: usize) -> Result<OpenFile, Refusal>
        requires free { is_taken self.old.files.items self.old.entries.items name.now ≡ false }
        requires there { image < length self.old.files.items }
        ensures ok { IfOk result (λ f. Makes (state_of self.old) (state_of self.new) name.now f.number) }
        ensures own { IfOk result (λ f. IsOwnText (state_of self.new) image f.number) }
        ensures err { OnErr result (state_of self.new ≡ state_of self.old) }
        ensures synced { (n : ℕ) → n < length self.old.files.items
            → synced_at self.new.files.items n ≡ synced_at self.old.files.items n }
        ensures counted { refusals_of self.new ≡ refusals_of self.old }
        ensures note { note_of self.new ≡ note_of self.old }
    {
        let beside = stat_of(self.files.as_slice(), image).unwrap();
        let stat = Stat {
            kind: Kind::Regular,
            owner: self.run.caller,
            links: 1,
            ..beside
        };
        match self.add_file(name, stat) {
            Ok(file) => Ok(file),
            Err(refusal) => Err(refusal),
        }
    }

    /// What the system says of an image that the caller makes: the caller alone may write it.
    fn stat_of_image(&self) -> Stat
        ensures { result.kind ≡ Kind.Regular }
    {
        Stat {
            kind: Kind::Regular,
            owner: self.run.caller,
            group: self.run.caller,
            is_group_given: false,
            reads: Classes {
                group: true,
                others: true,
            },
            writes: Classes {
                group: false,
                others: false,
            },
            links: 1,
            is_mounted: false,
            is_read_only: false,
        }
    }

    /// The name that an image is made under: the one that links lead to. None where a file has it, or memory is short.
    fn place_of_image(&self, name: &str) -> Option<String>
        ensures { IfSome result (λ place. free_end self.now.files.items self.now.entries.items 40 name.now ≡ Some (string_bytes place)) }
    {
        let files = self.files.as_slice();
        let place = free_end(files, self.entries.as_slice(), MOST_LINKS, name)?;
        String::from_str(self.alloc, place).ok()
    }

    /// Makes an empty image of a name, or of the one that links lead to.
    fn add_image(&mut self, name: &str) -> Result<OpenFile, Refusal>
        ensures ok { IfOk result (λ f. Makes (state_of self.old) (state_of self.new) name.now f.number) }
        ensures fit { IfOk result (λ f. IsAlwaysFit (state_of self.new) f.number) }
        ensures err { OnErr result (state_of self.new ≡ state_of self.old) }
        ensures synced { (n : ℕ) → n < length self.old.files.items
            → synced_at self.new.files.items n ≡ synced_at self.old.files.items n }
        ensures counted { refusals_of self.new ≡ refusals_of self.old }
        ensures note { note_of self.new ≡ note_of self.old }
    {
        let Some(place) = self.place_of_image(name) else {
            return Err(Refusal::Other(None));
        };
        let stat = self.stat_of_image();
        match self.add_file(place.as_str(), stat) {
            Ok(file) => Ok(file),
            Err(refusal) => Err(refusal),
        }
    }

    /// Takes a file away that is empty, unless its plan refuses that.
    fn bury_unless_refused(&mut self, number: usize)
        ensures { BuriesOrSticks number self.old self.new }
    {
        let is_refused = self.plan.calls.blows();
        if is_refused && self.run.stuck < u64::MAX {
            self.run.stuck += 1;
        } else {
            self.bury_empty(number);
        }
    }

    /// Takes a file away that is empty.
    fn bury_empty(&mut self, number: usize)
        ensures { BuriesEmpty number self.old self.new }
    {
        if has_no_bytes(self.files.as_slice(), number) {
            bury(self.files.as_mut_slice(), number);
        }
    }

    /// Takes the contents out of a file.
    fn lend_contents(&mut self, number: usize) -> Contents
        ensures taken { number < length self.old.files.items → result.bytes.items ≡ bytes_at self.old.files.items number }
        ensures synced { number < length self.old.files.items → result.synced.items ≡ synced_at self.old.files.items number }
        ensures rest { HasOtherBytes number self.old self.new }
    {
        let none = Contents {
            bytes: Vec::new(self.alloc),
            synced: Vec::new(self.alloc),
        };
        exchange(self.files.as_mut_slice(), number, none)
    }

    /// Puts contents into a file.
    fn take_contents(&mut self, number: usize, contents: Contents)
        ensures put { number < length self.old.files.items → bytes_at self.new.files.items number ≡ contents.bytes.items }
        ensures synced { number < length self.old.files.items → synced_at self.new.files.items number ≡ contents.synced.items }
        ensures rest { HasOtherBytes number self.old self.new }
    {
        let _old = exchange(self.files.as_mut_slice(), number, contents);
    }

    /// The files that are lent beside one another; where none are, the first ones.
    fn lent_beside(&self) -> LentBeside
        ensures { IfSome self.now.run.beside (λ lent. result ≡ lent) }
    {
        match self.run.beside {
            Some(lent) => lent,
            None => LentBeside {
                image: 0,
                journal: 0,
                redo: None,
            },
        }
    }

    /// Takes the contents out of a file that may be missing: then they are nothing.
    fn lend_if(&mut self, number: Option<usize>) -> Contents
        ensures some { IfSome number (λ n. LendsContents n result self.old self.new) }
        ensures none { number ≡ None → (self.new ≡ self.old) × (result.bytes.items ≡ []) }
    {
        match number {
            Some(number) => self.lend_contents(number),
            None => nothing(self.alloc),
        }
    }

    /// Puts contents into a file that may be missing: then they are dropped.
    fn take_if(&mut self, number: Option<usize>, contents: Contents)
        ensures some { IfSome number (λ n. TakesContents n contents self.old self.new) }
        ensures none { number ≡ None → self.new ≡ self.old }
    {
        if let Some(number) = number {
            self.take_contents(number, contents);
        }
    }

    /// Puts on the disk of a file what is on that of these contents; the file has what it had.
    fn take_disk(&mut self, number: usize, contents: Contents)
        ensures synced { number < length self.old.files.items → synced_at self.new.files.items number ≡ contents.synced.items }
        ensures bytes { bytes_at self.new.files.items number ≡ bytes_at self.old.files.items number }
        ensures rest { HasOtherBytes number self.old self.new }
    {
        let mine = self.lend_contents(number);
        let both = Contents {
            bytes: mine.bytes,
            synced: contents.synced,
        };
        self.take_contents(number, both);
    }

    /// The text of these contents, which fails as planned.
    fn text_of(&self, contents: Contents, fails: Fails) -> FuseText<LentText>
        ensures within { result.within ≡ record { contents = contents; alloc = self.now.alloc; failures = 0 } }
        ensures failures { ⟦<FuseText<LentText> as TextStore>⟧.failures result ≡ 0 }
    {
        let text = LentText::new(self.alloc, contents);
        if fails.on_reads {
            FuseText::on_reads(text, fails.pass)
        } else {
            FuseText::new(text, fails.pass, fails.part, fails.once)
        }
    }

    /// The image of these contents, which fails as planned.
    fn image_of(&self, contents: Contents, fails: Fails) -> FuseImage<LentImage>
        ensures within { result.within ≡ record { contents = contents; alloc = self.now.alloc; failures = 0 } }
        ensures failures { ⟦<FuseImage<LentImage> as Device>⟧.failures result ≡ 0 }
    {
        let image = LentImage::new(self.alloc, contents);
        if fails.on_reads {
            FuseImage::on_reads(image, fails.pass)
        } else {
            FuseImage::new(image, fails.pass, fails.part, fails.once)
        }
    }
}

impl World for MemoryWorld {
    ghost use Rattle.test_world.specs.Memory.{found_of, note_found_of, note_of, refusals_of, state_of};
    ghost use Rattle.test_world.specs.MemoryFiles.{file_within, lent_beside};

    type Image = FuseImage<LentImage>;

    type Text = CountedText<FuseText<LentText>>;

    type File = OpenFile;

    type Input = LentInput;

    ghost faithful = { λ _. Unit {0} };

    ghost state = { state_of };

    ghost survives = { found_of };

    ghost number = { λ f. f.number };

    ghost is_locked = { λ f. f.is_locked ≡ true };

    ghost is_shared = { λ f. f.is_shared ≡ true };

    // A name in memory is never lost.
    ghost is_kept = { λ _ _. Unit {0} };

    ghost refusals = { refusals_of };

    ghost beside = { λ w. lent_beside w.run.beside };

    ghost note = { note_of };

    ghost has_unwritten = { λ w. w.run.is_unwritten ≡ true };

    // It takes all that it is handed, as far as there is memory.
    ghost was_handed = { λ _ _. Unit {0} };

    ghost note_survives = { note_found_of };

    ghost begun = { λ w _. w.kept.before_there };

    ghost within = { λ w name n _ e. file_within w.files.items w.entries.items name n e };

    fn look(&mut self, name: &str) -> Result<Look, Refusal> {
        if self.refuses() {
            return Err(Refusal::Other(None));
        }
        let is_link = is_link(self.entries.as_slice(), name);
        let found = match file_named(self.files.as_slice(), self.entries.as_slice(), name) {
            Some(number) => stat_of(self.files.as_slice(), number),
            None => None,
        };
        Ok(Look { is_link, found })
    }

    fn caller(&self) -> u32 {
        self.run.caller
    }

    fn outgrown(&self) -> Option<Outgrown> {
        None::<Outgrown>
    }

    fn open_image(&mut self, name: &str, _: bool) -> Result<OpenFile, Refusal> {
        self.open(name)
    }

    fn open_text(&mut self, name: &str, _: &OpenFile) -> Result<OpenFile, Refusal> {
        self.open(name)
    }

    fn make_text(&mut self, name: &str, image: &OpenFile) -> Result<OpenFile, Refusal> {
        if self.refuses() {
            return Err(Refusal::Other(None));
        }
        if is_taken(self.files.as_slice(), self.entries.as_slice(), name) {
            return Err(self.refuse());
        }
        match self.add_text(name, image.number) {
            Ok(file) => Ok(file),
            Err(_) => Err(self.refuse()),
        }
    }

    fn make_image(&mut self, name: &str) -> Result<OpenFile, Refusal> {
        if self.refuses() {
            return Err(Refusal::Other(None));
        }
        match self.add_image(name) {
            Ok(file) => Ok(file),
            Err(_) => Err(self.refuse()),
        }
    }

    fn open_input(&mut self, name: &str) -> Result<OpenFile, Refusal> {
        self.open(name)
    }

    fn length(&mut self, file: &OpenFile) -> Option<u64> {
        match stat_of(self.files.as_slice(), file.number)?.kind {
            Kind::Regular | Kind::Block => {
                Some(length_of(self.files.as_slice(), file.number) as u64)
            }
            Kind::Other => None,
        }
    }

    fn lend_input(&mut self, file: OpenFile, passed: u64) -> Result<LentInput, Refusal> {
        if self.refuses() {
            return Err(Refusal::Other(None));
        }
        match copy_of_bytes(self.alloc, self.files.as_slice(), file.number) {
            Ok(bytes) => Ok(LentInput::new(bytes, passed as usize, self.plan.input)),
            Err(_) => Err(self.refuse()),
        }
    }

    fn close_input(&mut self, _: LentInput) {}

    fn stat(&mut self, file: &OpenFile) -> Result<Stat, Refusal> {
        if self.refuses() {
            return Err(Refusal::Other(None));
        }
        match stat_of(self.files.as_slice(), file.number) {
            Some(stat) => Ok(stat),
            None => Err(self.refuse()),
        }
    }

    fn lock(&mut self, _: &str, file: &mut OpenFile) -> Result<(), Refusal> {
        if self.refuses() {
            return Err(Refusal::Other(None));
        }
        file.is_locked = true;
        Ok(())
    }

    fn is_same(&mut self, a: &OpenFile, b: &OpenFile) -> Result<bool, Refusal> {
        if self.refuses() {
            return Err(Refusal::Other(None));
        }
        Ok(a.number == b.number)
    }

    fn take_away(&mut self, name: &str, file: &OpenFile) {
        if file_named(self.files.as_slice(), self.entries.as_slice(), name) == Some(file.number) {
            self.bury_unless_refused(file.number);
        }
    }

    fn keep_name(&mut self, _: &str) -> Result<(), Refusal> {
        if self.refuses() {
            return Err(Refusal::Other(None));
        }
        Ok(())
    }

    fn into_devices(
        &mut self,
        image: OpenFile,
        journal: OpenFile,
        redo: OpenFile,
    ) -> (Self::Image, Self::Text, Self::Text) {
        self.run.lent = Some(LentFiles {
            image: image.number,
            journal: journal.number,
            redo: redo.number,
        });
        let of_image = self.lend_contents(image.number);
        let of_journal = self.lend_contents(journal.number);
        let of_redo = self.lend_contents(redo.number);
        let plan = self.plan;
        (
            self.image_of(of_image, plan.image),
            CountedText::new(self.text_of(of_journal, plan.journal), 0),
            CountedText::new(self.text_of(of_redo, plan.redo), FIRST_OF_REDO),
        )
    }

    fn into_files(
        &mut self,
        image: Self::Image,
        journal: Self::Text,
        redo: Self::Text,
    ) -> (OpenFile, OpenFile, OpenFile) {
        let lent = match self.run.lent {
            Some(lent) => lent,
            None => LentFiles {
                image: 0,
                journal: 0,
                redo: 0,
            },
        };
        self.run.lent = None;
        let failed = (image.faults(), journal.faults(), redo.faults());
        self.take_contents(lent.image, image.into_inner().into_contents());
        self.take_contents(
            lent.journal,
            journal.into_inner().into_inner().into_contents(),
        );
        self.take_contents(lent.redo, redo.into_inner().into_inner().into_contents());
        self.run.refusals.note_failed(failed.0, failed.1, failed.2);
        (
            OpenFile::locked(lent.image),
            OpenFile::locked(lent.journal),
            OpenFile::locked(lent.redo),
        )
    }

    fn print(&mut self, bytes: &[u8]) -> Result<(), Unwritten> {
        if self.plan.calls.blows() {
            self.run.is_unwritten = true;
            return Err(Unwritten { written: 0 });
        }
        match self.run.output.extend_from_slice(bytes) {
            Ok(()) => Ok(()),
            Err(_) => {
                self.run.is_unwritten = true;
                Err(Unwritten { written: 0 })
            }
        }
    }

    fn complain(&mut self, bytes: &[u8]) {
        let _ = self.run.errors.extend_from_slice(bytes);
    }

    fn open_image_to_read(&mut self, name: &str) -> Result<OpenFile, Refusal> {
        self.open(name)
    }

    fn open_text_to_read(&mut self, name: &str, _: &OpenFile) -> Result<OpenFile, Refusal> {
        self.open(name)
    }

    fn lock_shared(&mut self, _: &str, file: &mut OpenFile) -> Result<(), Refusal> {
        if self.refuses() {
            return Err(Refusal::Other(None));
        }
        file.is_shared = true;
        Ok(())
    }

    fn lend_image_to_read(&mut self, image: OpenFile) -> Result<Self::Image, Refusal> {
        if self.refuses() {
            return Err(Refusal::Other(None));
        }
        match copy_of(self.alloc, self.files.as_slice(), image.number) {
            Some(copy) => {
                let fails = self.plan.image.of_reading();
                Ok(self.image_of(copy, fails))
            }
            None => Err(self.refuse()),
        }
    }

    fn lend_text_to_read(&mut self, text: OpenFile) -> Result<Self::Text, Refusal> {
        if self.refuses() {
            return Err(Refusal::Other(None));
        }
        match copy_of(self.alloc, self.files.as_slice(), text.number) {
            Some(copy) => {
                let fails = self.plan.journal.of_reading();
                Ok(CountedText::new(self.text_of(copy, fails), 0))
            }
            None => Err(self.refuse()),
        }
    }

    fn lend_no_text(&mut self) -> Self::Text {
        let fails = self.plan.redo.of_reading();
        CountedText::new(self.text_of(nothing(self.alloc), fails), 0)
    }

    fn close_read(&mut self, image: Self::Image, journal: Self::Text, redo: Self::Text) {
        self.run
            .refusals
            .note_reads(image.faults(), journal.faults(), redo.faults());
    }

    fn lend_beside(
        &mut self,
        image: OpenFile,
        journal: OpenFile,
    ) -> Result<(Self::Image, Self::Text), Refusal> {
        if self.refuses() {
            return Err(Refusal::Other(None));
        }
        let files = self.files.as_slice();
        match (
            whole_copy_of(self.alloc, files, image.number),
            copy_of(self.alloc, files, journal.number),
        ) {
            (Some(of_image), Some(of_journal)) => {
                self.run.beside = Some(LentBeside {
                    image: image.number,
                    journal: journal.number,
                    redo: None,
                });
                let of_journal = self.text_of(of_journal, self.plan.journal.of_reading());
                Ok((
                    self.image_of(of_image, self.plan.image),
                    CountedText::new(of_journal, 0),
                ))
            }
            (None, _) | (_, None) => Err(self.refuse()),
        }
    }

    fn lend_redo_beside(&mut self, redo: OpenFile) -> Result<Self::Text, Refusal> {
        if self.refuses() {
            return Err(Refusal::Other(None));
        }
        match copy_of(self.alloc, self.files.as_slice(), redo.number) {
            Some(copy) => {
                self.run.beside = with_redo(self.run.beside, redo.number);
                let fails = self.plan.redo.of_reading();
                Ok(CountedText::new(self.text_of(copy, fails), 0))
            }
            None => Err(self.refuse()),
        }
    }

    fn let_change(&mut self, _: Self::Text, _: Self::Text) -> (Self::Text, Self::Text) {
        let lent = self.lent_beside();
        let of_journal = self.lend_contents(lent.journal);
        let of_redo = self.lend_if(lent.redo);
        let plan = self.plan;
        (
            CountedText::new(self.text_of(of_journal, plan.journal), 0),
            CountedText::new(self.text_of(of_redo, plan.redo), FIRST_OF_REDO),
        )
    }

    fn close_beside(&mut self, image: Self::Image, journal: Self::Text, redo: Self::Text) {
        let lent = self.lent_beside();
        let failed = (image.faults(), journal.faults(), redo.faults());
        self.take_disk(lent.image, image.into_inner().into_contents());
        self.take_contents(
            lent.journal,
            journal.into_inner().into_inner().into_contents(),
        );
        self.take_if(lent.redo, redo.into_inner().into_inner().into_contents());
        self.run.beside = None;
        self.run.refusals.note_failed(failed.0, failed.1, failed.2);
    }

    fn read_note(&mut self, buf: &mut [u8]) -> Result<usize, Refusal> {
        if self.plan.calls.blows() {
            self.run.refusals.note_failure();
            return Err(Refusal::Other(None));
        }
        Ok(self.note_front(buf))
    }

    fn put_note(&mut self, bytes: &[u8], synced: bool) -> Noted {
        self.write_note(bytes, synced)
    }

    fn keep_locks(&mut self) {}

    fn pass_locks(&mut self) {}

    fn drop_note(&mut self) -> Result<(), Refusal> {
        if self.refuses() {
            return Err(Refusal::Other(None));
        }
        self.run.note = nothing(self.alloc);
        Ok(())
    }
}
