//! The world that a program runs in.
ghost use Rattle.std.specs.Prelude.{◌≡◌, ◌↔◌, ◌⊎◌, ◌+◌, ◌<◌, ◌≤◌, ◌^◌, ◌++◌, ℕ, List, [], Option, true, false, Err, None, Some, IfOk, IfErr, IfSome, OnOk, OnErr, drop, length, take};
ghost use Rattle.bx_world.specs.declared.world.Noted.TheVariants.{Put};
ghost use Rattle.bx_world.specs.declared.world.Refusal.TheVariants.{Locked, Missing};
ghost use Rattle.bx_world.specs.World.{AreThreeFiles, ChangesOnly, CountsNoted, CountsRefusal, GivesBack, IsAlwaysFit, IsEmptyUnder, IsOwnText, IsStuck, KeepsFiles, LeavesTrio, Lends, Makes, MayBeImage, MayBeText, NothingNewFound, NothingNewBelow, NothingNewOf, SystemState, TakesAtMost, TakesAway, Trio, AddsFront, failed_calls, stat_named};
ghost use Rattle.bx_world.specs.World.{AreOwnFiles, ClosesTexts, IsFrontRead, IsNoText, IsNoneRead, MayBeRead, NothingNewSpared, ReadFiles, Spares, TextsLeft, bytes_if, noted};
ghost use Rattle.bx_image.specs.Power.{NoMore, Only};

use crate::stat::{Look, Stat};
use bx_image::Device;
use bx_journal_store::TextStore;
use std::io::Read;

/// Why the system refused a call.
#[derive(Clone, Copy, Debug, PartialEq, Eq)]
pub enum Refusal {
    /// No file has the name.
    Missing,
    /// The name is taken already.
    Taken,
    /// Another program has the file locked.
    Locked,
    /// Another file has the name now.
    Moved,
    /// Any other reason, with the system's number where it has one.
    Other(Option<i32>),
}

/// A standard stream was not written in full.
#[derive(Clone, Copy, Debug, PartialEq, Eq)]
pub struct Unwritten {
    /// How many bytes are known to have gone out.
    pub written: u64,
}

/// An image that can't grow, and was to have a length beyond that.
#[derive(Clone, Copy, Debug, PartialEq, Eq)]
pub struct Outgrown {
    /// How many bytes it can have.
    pub has: u64,
    /// How many it was to have.
    pub wanted: u64,
}

/// What stands of the note behind a call that was to put bytes in its place.
#[derive(Clone, Copy, Debug, PartialEq, Eq)]
pub enum Noted {
    /// These bytes.
    Put,
    /// Nothing: there is none, and none can be made, or it was emptied.
    Without,
    /// What stood there: it could be neither written nor emptied.
    Stands,
}

/// All that a program asks of the system: files by name, a note beside a journal, and the standard streams.
///
/// A world is faithful if nobody else changes its files and names, and its calls do what they answer. What is said of files is
/// said of faithful worlds. The three files of a session are lent as devices and given back: what a session wrote is then theirs.
/// The journal's failures count from 0 and those of the redo text from 2^32, so that none is taken for the other.
pub trait World {
    /// An image that is lent.
    type Image: Device + Drop;

    /// A journal or a redo text that is lent.
    type Text: TextStore + Drop;

    /// A file that is open.
    type File: Drop;

    /// A file that is lent as an input.
    type Input: Read + Drop;

    /// Nobody else changes files and names, and each call does what it answers.
    ghost faithful: { Self → Type 0 };

    /// What a person can see.
    ghost state: { Self → SystemState };

    /// What may be found of a file after a loss of power.
    ghost survives: { Self → ℕ → List ℕ → Type 0 };

    /// The number of an open file.
    ghost number: { Self.File → ℕ };

    /// This run has the open file locked, and nobody else.
    ghost is_locked: { Self.File → Type 0 };

    /// This run has the open file locked beside others that read it.
    ghost is_shared: { Self.File → Type 0 };

    /// A name of the file of this number is on the disk.
    ghost is_kept: { Self → ℕ → Type 0 };

    /// How many calls the system refused, with those that failed of devices which were given back. That a file is missing is no
    /// refusal, nor is it one where a file stays that was to be taken away, or where a stream isn't written: of these the view
    /// tells. What a read of an input meets isn't counted either.
    ghost refusals: { Self → ℕ };

    /// The files of an image that is lent to be read beside its texts; none where none are.
    ghost beside: { Self → Option ReadFiles };

    /// What the note has that stands beside the journal: its third text. One that is missing has nothing.
    ghost note: { Self → List ℕ };

    /// A write to standard output failed in this run.
    ghost has_unwritten: { Self → Type 0 };

    /// These bytes were handed to standard error in this run, at once.
    ghost was_handed: { Self → List ℕ → Type 0 };

    /// What may be found of the note after a loss of power.
    ghost note_survives: { Self → List ℕ → Type 0 };

    /// Looks at what stands under a name, before it is opened.
    fn look(&mut self, name: &str) -> Result<Look, Refusal>
        ensures is_link { faithful self.old → IfOk result (λ l. l.is_link ≡ (state self.old).is_link name.now) }
        ensures found { faithful self.old → IfOk result (λ l. l.found ≡ stat_named (state self.old) name.now) }
        ensures there { faithful self.old → result ≡ Err Missing → ⊥ }
        ensures same { faithful self.old → state self.new ≡ state self.old }
        ensures counted { faithful self.old → CountsRefusal result (refusals self.old) (refusals self.new) }
        ensures survives { faithful self.old → NothingNewFound (survives self.old) (survives self.new) }
        ensures note { faithful self.old → note self.new ≡ note self.old }
        ensures faith { faithful self.new ↔ faithful self.old };

    /// The user who runs the program.
    fn caller(&self) -> u32
        ensures { faithful self.now → result ≡ (state self.now).caller };

    /// The length that the image that was lent last was refused, as one that can't grow so far; none where it was refused none.
    fn outgrown(&self) -> Option<Outgrown>
        ensures { faithful self.now → IfSome result (λ o. o.has < o.wanted) };

    /// Opens an image that is there, to read and to change it. `mounted` says whether it may be a device that is mounted.
    fn open_image(&mut self, name: &str, mounted: bool) -> Result<Self::File, Refusal>
        requires may { faithful self.old → MayBeImage mounted (state self.old) name.now }
        ensures named { faithful self.old → IfOk result (λ f. (state self.old).named name.now ≡ Some (number f)) }
        ensures there { faithful self.old → IfOk result (λ f. number f < (state self.old).there) }
        ensures missing { faithful self.old → result ≡ Err Missing → (state self.old).named name.now ≡ None }
        ensures same { faithful self.old → state self.new ≡ state self.old }
        ensures counted { faithful self.old → CountsRefusal result (refusals self.old) (refusals self.new) }
        ensures survives { faithful self.old → NothingNewFound (survives self.old) (survives self.new) }
        ensures note { faithful self.old → note self.new ≡ note self.old }
        ensures faith { faithful self.new ↔ faithful self.old };

    /// Opens a journal or a redo text that is there, beside its image.
    fn open_text(&mut self, name: &str, image: &Self::File) -> Result<Self::File, Refusal>
        requires may { faithful self.old → MayBeText (number image.now) (state self.old) name.now }
        ensures named { faithful self.old → IfOk result (λ f. (state self.old).named name.now ≡ Some (number f)) }
        ensures there { faithful self.old → IfOk result (λ f. number f < (state self.old).there) }
        ensures missing { faithful self.old → result ≡ Err Missing → (state self.old).named name.now ≡ None }
        ensures same { faithful self.old → state self.new ≡ state self.old }
        ensures counted { faithful self.old → CountsRefusal result (refusals self.old) (refusals self.new) }
        ensures survives { faithful self.old → NothingNewFound (survives self.old) (survives self.new) }
        ensures note { faithful self.old → note self.new ≡ note self.old }
        ensures faith { faithful self.new ↔ faithful self.old };

    /// Makes an empty journal or redo text beside an image, and opens it. It may be read and written by nobody who may not read
    /// and write the image.
    fn make_text(&mut self, name: &str, image: &Self::File) -> Result<Self::File, Refusal>
        requires there { faithful self.old → number image.now < (state self.old).there }
        requires free { faithful self.old → (state self.old).named name.now ≡ None }
        ensures made { faithful self.old → IfOk result (λ f. Makes (state self.old) (state self.new) name.now (number f)) }
        ensures no_link { faithful self.old → OnOk result ((state self.old).is_link name.now ≡ false) }
        ensures own { faithful self.old → IfOk result (λ f. IsOwnText (state self.new) (number image.now) (number f)) }
        ensures same { faithful self.old → OnErr result (state self.new ≡ state self.old) }
        ensures missing { faithful self.old → result ≡ Err Missing → ⊥ }
        ensures counted { faithful self.old → CountsRefusal result (refusals self.old) (refusals self.new) }
        ensures survives { faithful self.old → NothingNewBelow (state self.old).there (survives self.old) (survives self.new) }
        ensures note { faithful self.old → note self.new ≡ note self.old }
        ensures faith { faithful self.new ↔ faithful self.old };

    /// Makes an empty image under a name that leads to none, and opens it: a regular file, which a link may lead to.
    fn make_image(&mut self, name: &str) -> Result<Self::File, Refusal>
        requires free { faithful self.old → (state self.old).named name.now ≡ None }
        ensures made { faithful self.old → IfOk result (λ f. Makes (state self.old) (state self.new) name.now (number f)) }
        ensures fit { faithful self.old → IfOk result (λ f. IsAlwaysFit (state self.new) (number f)) }
        ensures same { faithful self.old → OnErr result (state self.new ≡ state self.old) }
        ensures missing { faithful self.old → result ≡ Err Missing → ⊥ }
        ensures counted { faithful self.old → CountsRefusal result (refusals self.old) (refusals self.new) }
        ensures survives { faithful self.old → NothingNewBelow (state self.old).there (survives self.old) (survives self.new) }
        ensures note { faithful self.old → note self.new ≡ note self.old }
        ensures faith { faithful self.new ↔ faithful self.old };

    /// Opens a file of any kind to read it alone.
    fn open_input(&mut self, name: &str) -> Result<Self::File, Refusal>
        ensures named { faithful self.old → IfOk result (λ f. (state self.old).named name.now ≡ Some (number f)) }
        ensures there { faithful self.old → IfOk result (λ f. number f < (state self.old).there) }
        ensures missing { faithful self.old → result ≡ Err Missing → (state self.old).named name.now ≡ None }
        ensures same { faithful self.old → state self.new ≡ state self.old }
        ensures counted { faithful self.old → CountsRefusal result (refusals self.old) (refusals self.new) }
        ensures survives { faithful self.old → NothingNewFound (survives self.old) (survives self.new) }
        ensures note { faithful self.old → note self.new ≡ note self.old }
        ensures faith { faithful self.new ↔ faithful self.old };

    /// How many bytes an open file has that has a place for each of them; none of another one, as a pipe, and where it doesn't
    /// tell.
    fn length(&mut self, file: &Self::File) -> Option<u64>
        ensures told { faithful self.old → IfSome result (λ n. n ≡ length ((state self.old).bytes (number file.now))) }
        ensures same { faithful self.old → state self.new ≡ state self.old }
        ensures counted { faithful self.old → refusals self.new ≡ refusals self.old }
        ensures survives { faithful self.old → NothingNewFound (survives self.old) (survives self.new) }
        ensures note { faithful self.old → note self.new ≡ note self.old }
        ensures faith { faithful self.new ↔ faithful self.old };

    /// Lends an open file as an input, behind `passed` of its bytes; where any are passed, it has a place for each.
    fn lend_input(&mut self, file: Self::File, passed: u64) -> Result<Self::Input, Refusal>
        requires within { faithful self.old → passed ≤ length ((state self.old).bytes (number file)) }
        ensures input { faithful self.old
            → IfOk result (λ r. Self.Input.remaining r ≡ Some (drop passed ((state self.old).bytes (number file)))) }
        ensures missing { faithful self.old → result ≡ Err Missing → ⊥ }
        ensures same { faithful self.old → state self.new ≡ state self.old }
        ensures counted { faithful self.old → CountsRefusal result (refusals self.old) (refusals self.new) }
        ensures survives { faithful self.old → NothingNewFound (survives self.old) (survives self.new) }
        ensures note { faithful self.old → note self.new ≡ note self.old }
        ensures faith { faithful self.new ↔ faithful self.old };

    /// Takes an input back, which is closed.
    fn close_input(&mut self, input: Self::Input)
        ensures same { faithful self.old → state self.new ≡ state self.old }
        ensures counted { faithful self.old → refusals self.new ≡ refusals self.old }
        ensures survives { faithful self.old → NothingNewFound (survives self.old) (survives self.new) }
        ensures note { faithful self.old → note self.new ≡ note self.old }
        ensures faith { faithful self.new ↔ faithful self.old };

    /// What the system tells of an open file.
    fn stat(&mut self, file: &Self::File) -> Result<Stat, Refusal>
        ensures told { faithful self.old → IfOk result (λ s. s ≡ (state self.old).stat (number file.now)) }
        ensures missing { faithful self.old → result ≡ Err Missing → ⊥ }
        ensures same { faithful self.old → state self.new ≡ state self.old }
        ensures counted { faithful self.old → CountsRefusal result (refusals self.old) (refusals self.new) }
        ensures survives { faithful self.old → NothingNewFound (survives self.old) (survives self.new) }
        ensures note { faithful self.old → note self.new ≡ note self.old }
        ensures faith { faithful self.new ↔ faithful self.old };

    /// Locks a file up to its closing, which has to have its name still. One that another program has locked is refused; nobody
    /// has a file locked that this run made.
    fn lock(&mut self, name: &str, file: &mut Self::File) -> Result<(), Refusal>
        requires named { faithful self.old → (state self.old).named name.now ≡ Some (number file.old) }
        ensures holds { faithful self.old → OnOk result (is_locked file.new) }
        ensures number { faithful self.old → number file.new ≡ number file.old }
        ensures locked { faithful self.old → result ≡ Err Locked → number file.old < (state self.old).before }
        ensures missing { faithful self.old → result ≡ Err Missing → ⊥ }
        ensures same { faithful self.old → state self.new ≡ state self.old }
        ensures counted { faithful self.old → CountsRefusal result (refusals self.old) (refusals self.new) }
        ensures survives { faithful self.old → NothingNewFound (survives self.old) (survives self.new) }
        ensures note { faithful self.old → note self.new ≡ note self.old }
        ensures faith { faithful self.new ↔ faithful self.old };

    /// Whether both are one file.
    fn is_same(&mut self, a: &Self::File, b: &Self::File) -> Result<bool, Refusal>
        ensures answer { faithful self.old → IfOk result (λ is. (is ≡ true) ↔ (number a.now ≡ number b.now)) }
        ensures missing { faithful self.old → result ≡ Err Missing → ⊥ }
        ensures same { faithful self.old → state self.new ≡ state self.old }
        ensures counted { faithful self.old → CountsRefusal result (refusals self.old) (refusals self.new) }
        ensures survives { faithful self.old → NothingNewFound (survives self.old) (survives self.new) }
        ensures note { faithful self.old → note self.new ≡ note self.old }
        ensures faith { faithful self.new ↔ faithful self.old };

    /// Takes a file away that this run made, if it is empty and has the name.
    fn take_away(&mut self, name: &str, file: &Self::File)
        requires made { faithful self.old → (state self.old).before ≤ number file.now }
        ensures taken { faithful self.old → IsEmptyUnder (state self.old) name.now (number file.now)
            → TakesAway (state self.old) (state self.new) (number file.now) ⊎ IsStuck (state self.old) (state self.new) }
        ensures most { faithful self.old → TakesAtMost (state self.old) (state self.new) (number file.now) }
        ensures counted { faithful self.old → refusals self.new ≡ refusals self.old }
        ensures survives { faithful self.old → NothingNewFound (survives self.old) (survives self.new) }
        ensures note { faithful self.old → note self.new ≡ note self.old }
        ensures faith { faithful self.new ↔ faithful self.old };

    /// Puts the name of a file on the disk.
    fn keep_name(&mut self, name: &str) -> Result<(), Refusal>
        ensures kept { faithful self.old
            → OnOk result ((n : ℕ) → (state self.old).named name.now ≡ Some n → is_kept self.new n) }
        ensures keeps { faithful self.old → (n : ℕ) → is_kept self.old n → is_kept self.new n }
        ensures missing { faithful self.old → result ≡ Err Missing → ⊥ }
        ensures counted { faithful self.old → CountsRefusal result (refusals self.old) (refusals self.new) }
        ensures same { faithful self.old → state self.new ≡ state self.old }
        ensures survives { faithful self.old → NothingNewFound (survives self.old) (survives self.new) }
        ensures note { faithful self.old → note self.new ≡ note self.old }
        ensures faith { faithful self.new ↔ faithful self.old };

    /// Lends the three files of a session, which are locked. The names of the image and of its journal are on the disk; the redo text
    /// stands beside the journal.
    fn into_devices(
        &mut self,
        image: Self::File,
        journal: Self::File,
        redo: Self::File,
    ) -> (Self::Image, Self::Text, Self::Text)
        requires free { faithful self.old → (state self.old).lent ≡ None }
        requires apart { faithful self.old → AreThreeFiles (state self.old).there (record { image = number image; journal = number journal; redo = number redo }) }
        requires locked { faithful self.old → is_locked image × is_locked journal × is_locked redo }
        requires kept { faithful self.old → is_kept self.old (number image) × is_kept self.old (number journal) }
        ensures failures { (Self.Image.failures result.0 ≡ 0) × (Self.Text.failures result.1 ≡ 0) × (Self.Text.failures result.2 ≡ 2 ^ 32) }
        ensures image { faithful self.old → Self.Image.faithful result.0 × (Self.Image.image result.0 ≡ (state self.old).bytes (number image)) }
        ensures journal { faithful self.old → Self.Text.faithful result.1 × (Self.Text.text result.1 ≡ (state self.old).bytes (number journal)) }
        ensures redo { faithful self.old → Self.Text.faithful result.2 × (Self.Text.text result.2 ≡ (state self.old).bytes (number redo)) }
        ensures lent { faithful self.old → Lends (record { image = number image; journal = number journal; redo = number redo }) (state self.old) (state self.new) }
        ensures counted { faithful self.old → refusals self.new ≡ refusals self.old }
        ensures survives { faithful self.old → NothingNewOf (record { image = number image; journal = number journal; redo = number redo })
            (survives self.old) (survives self.new) }
        ensures image_survives { faithful self.old → NoMore (survives self.old (number image)) (Self.Image.survives result.0) }
        ensures journal_survives { faithful self.old → NoMore (survives self.old (number journal)) (Self.Text.survives result.1) }
        ensures redo_survives { faithful self.old → NoMore (survives self.old (number redo)) (Self.Text.survives result.2) }
        ensures note { faithful self.old → note self.new ≡ note self.old }
        ensures faith { faithful self.new ↔ faithful self.old };

    /// Takes the three devices back, and counts their failed calls; the files have then what the devices have.
    fn into_files(
        &mut self,
        image: Self::Image,
        journal: Self::Text,
        redo: Self::Text,
    ) -> (Self::File, Self::File, Self::File)
        requires order { (Self.Text.failures journal < 2 ^ 32) × (2 ^ 32 ≤ Self.Text.failures redo) }
        requires devices { faithful self.old → Self.Image.faithful image × Self.Text.faithful journal × Self.Text.faithful redo }
        ensures given { faithful self.old → (t : Trio) → (state self.old).lent ≡ Some t
            → GivesBack t (Self.Image.image image) (Self.Text.text journal) (Self.Text.text redo) (state self.old) (state self.new) }
        ensures files { faithful self.old → (t : Trio) → (state self.old).lent ≡ Some t
            → (number result.0 ≡ t.image) × (number result.1 ≡ t.journal) × (number result.2 ≡ t.redo) }
        ensures survives { faithful self.old → (t : Trio) → (state self.old).lent ≡ Some t
            → LeavesTrio t (Self.Image.survives image) (Self.Text.survives journal) (Self.Text.survives redo) (survives self.new) }
        ensures others { faithful self.old → (t : Trio) → (state self.old).lent ≡ Some t → NothingNewOf t (survives self.old) (survives self.new) }
        ensures counted { faithful self.old → refusals self.new ≡ refusals self.old
            + failed_calls (Self.Image.failures image) (Self.Text.failures journal) (Self.Text.failures redo) }
        ensures note { faithful self.old → note self.new ≡ note self.old }
        ensures faith { faithful self.new ↔ faithful self.old };

    /// Writes to standard output. What a fault leaves is a front of the bytes, with no fewer than it tells.
    fn print(&mut self, bytes: &[u8]) -> Result<(), Unwritten>
        ensures few { IfErr result (λ e. e.written ≤ length bytes.now) }
        ensures ok { faithful self.old → OnOk result ((state self.new).output ≡ (state self.old).output ++ bytes.now) }
        ensures err { faithful self.old
            → IfErr result (λ e. AddsFront e.written (state self.old).output (state self.new).output bytes.now) }
        ensures failed { faithful self.old → OnErr result (has_unwritten self.new) }
        ensures handed { faithful self.old → (line : List ℕ) → was_handed self.old line → was_handed self.new line }
        ensures errors { faithful self.old → (state self.new).errors ≡ (state self.old).errors }
        ensures files { faithful self.old → KeepsFiles (state self.old) (state self.new) }
        ensures counted { faithful self.old → refusals self.new ≡ refusals self.old }
        ensures survives { faithful self.old → NothingNewFound (survives self.old) (survives self.new) }
        ensures note { faithful self.old → note self.new ≡ note self.old }
        ensures faith { faithful self.new ↔ faithful self.old };

    /// Writes to standard error; how much of it arrives isn't known.
    fn complain(&mut self, bytes: &[u8])
        ensures errors { faithful self.old → (n : ℕ) × (state self.new).errors ≡ (state self.old).errors ++ take n bytes.now }
        ensures handed { faithful self.old → was_handed self.new bytes.now }
        ensures output { faithful self.old → (state self.new).output ≡ (state self.old).output }
        ensures files { faithful self.old → KeepsFiles (state self.old) (state self.new) }
        ensures counted { faithful self.old → refusals self.new ≡ refusals self.old }
        ensures survives { faithful self.old → NothingNewFound (survives self.old) (survives self.new) }
        ensures note { faithful self.old → note self.new ≡ note self.old }
        ensures faith { faithful self.new ↔ faithful self.old };

    /// Opens an image that is there, to read it alone. It may be a device that is mounted.
    fn open_image_to_read(&mut self, name: &str) -> Result<Self::File, Refusal>
        requires may { faithful self.old → MayBeRead (state self.old) name.now }
        ensures named { faithful self.old → IfOk result (λ f. (state self.old).named name.now ≡ Some (number f)) }
        ensures missing { faithful self.old → result ≡ Err Missing → (state self.old).named name.now ≡ None }
        ensures same { faithful self.old → state self.new ≡ state self.old }
        ensures counted { faithful self.old → CountsRefusal result (refusals self.old) (refusals self.new) }
        ensures survives { faithful self.old → NothingNewFound (survives self.old) (survives self.new) }
        ensures note { faithful self.old → note self.new ≡ note self.old }
        ensures faith { faithful self.new ↔ faithful self.old };

    /// Opens a journal or a redo text that is there, beside its image, to read it alone.
    fn open_text_to_read(&mut self, name: &str, image: &Self::File) -> Result<Self::File, Refusal>
        requires may { faithful self.old → MayBeText (number image.now) (state self.old) name.now }
        ensures named { faithful self.old → IfOk result (λ f. (state self.old).named name.now ≡ Some (number f)) }
        ensures missing { faithful self.old → result ≡ Err Missing → (state self.old).named name.now ≡ None }
        ensures same { faithful self.old → state self.new ≡ state self.old }
        ensures counted { faithful self.old → CountsRefusal result (refusals self.old) (refusals self.new) }
        ensures survives { faithful self.old → NothingNewFound (survives self.old) (survives self.new) }
        ensures note { faithful self.old → note self.new ≡ note self.old }
        ensures faith { faithful self.new ↔ faithful self.old };

    /// Locks a file that is only read up to its closing, beside others that lock it so. It has to have its name still. One that
    /// another program has locked to change it is refused.
    fn lock_shared(&mut self, name: &str, file: &mut Self::File) -> Result<(), Refusal>
        requires named { faithful self.old → (state self.old).named name.now ≡ Some (number file.old) }
        ensures holds { faithful self.old → OnOk result (is_shared file.new) }
        ensures number { faithful self.old → number file.new ≡ number file.old }
        ensures locked { faithful self.old → result ≡ Err Locked → number file.old < (state self.old).before }
        ensures missing { faithful self.old → result ≡ Err Missing → ⊥ }
        ensures same { faithful self.old → state self.new ≡ state self.old }
        ensures counted { faithful self.old → CountsRefusal result (refusals self.old) (refusals self.new) }
        ensures survives { faithful self.old → NothingNewFound (survives self.old) (survives self.new) }
        ensures note { faithful self.old → note self.new ≡ note self.old }
        ensures faith { faithful self.new ↔ faithful self.old };

    /// Lends an open image to be read. The device refuses each write, cut and sync, so the file stays whatever is done with it.
    fn lend_image_to_read(&mut self, image: Self::File) -> Result<Self::Image, Refusal>
        requires shared { faithful self.old → is_shared image }
        ensures failures { IfOk result (λ d. Self.Image.failures d ≡ 0) }
        ensures faithful { faithful self.old → IfOk result (λ d. Self.Image.faithful d) }
        ensures image { faithful self.old → IfOk result (λ d. Self.Image.image d ≡ (state self.old).bytes (number image)) }
        ensures missing { faithful self.old → result ≡ Err Missing → ⊥ }
        ensures same { faithful self.old → state self.new ≡ state self.old }
        ensures counted { faithful self.old → CountsRefusal result (refusals self.old) (refusals self.new) }
        ensures survives { faithful self.old → NothingNewFound (survives self.old) (survives self.new) }
        ensures note { faithful self.old → note self.new ≡ note self.old }
        ensures faith { faithful self.new ↔ faithful self.old };

    /// Lends an open journal or redo text to be read. The device refuses each write, cut and sync.
    fn lend_text_to_read(&mut self, text: Self::File) -> Result<Self::Text, Refusal>
        requires shared { faithful self.old → is_shared text }
        ensures failures { IfOk result (λ t. Self.Text.failures t ≡ 0) }
        ensures faithful { faithful self.old → IfOk result (λ t. Self.Text.faithful t) }
        ensures text { faithful self.old → IfOk result (λ t. Self.Text.text t ≡ (state self.old).bytes (number text)) }
        ensures missing { faithful self.old → result ≡ Err Missing → ⊥ }
        ensures same { faithful self.old → state self.new ≡ state self.old }
        ensures counted { faithful self.old → CountsRefusal result (refusals self.old) (refusals self.new) }
        ensures survives { faithful self.old → NothingNewFound (survives self.old) (survives self.new) }
        ensures note { faithful self.old → note self.new ≡ note self.old }
        ensures faith { faithful self.new ↔ faithful self.old };

    /// Lends a redo text that is missing to be read: it has no bytes, and refuses each write.
    fn lend_no_text(&mut self) -> Self::Text
        ensures beside { faithful self.old → beside self.new ≡ beside self.old }
        ensures failures { Self.Text.failures result ≡ 0 }
        ensures faithful { faithful self.old → Self.Text.faithful result }
        ensures text { faithful self.old → Self.Text.text result ≡ [] }
        ensures same { faithful self.old → state self.new ≡ state self.old }
        ensures counted { faithful self.old → refusals self.new ≡ refusals self.old }
        ensures survives { faithful self.old → NothingNewFound (survives self.old) (survives self.new) }
        ensures note { faithful self.old → note self.new ≡ note self.old }
        ensures faith { faithful self.new ↔ faithful self.old };

    /// Takes devices back that were lent to be read, and counts their failed calls; their files are closed.
    fn close_read(&mut self, image: Self::Image, journal: Self::Text, redo: Self::Text)
        ensures same { faithful self.old → state self.new ≡ state self.old }
        ensures counted { faithful self.old → refusals self.new ≡ refusals self.old
            + (Self.Image.failures image + Self.Text.failures journal + Self.Text.failures redo) }
        ensures survives { faithful self.old → NothingNewFound (survives self.old) (survives self.new) }
        ensures note { faithful self.old → note self.new ≡ note self.old }
        ensures faith { faithful self.new ↔ faithful self.old };

    /// Lends an image that is open to be read, and its journal, which is open to be changed. Both are lent to be read: the devices
    /// refuse each write and cut, so the files stay whatever is done with them. A sync puts the image on the disk.
    fn lend_beside(
        &mut self,
        image: Self::File,
        journal: Self::File,
    ) -> Result<(Self::Image, Self::Text), Refusal>
        requires apart { faithful self.old → AreOwnFiles (state self.old).there (record { image = number image; journal = number journal; redo = None }) }
        requires locked { faithful self.old → is_shared image × is_locked journal }
        ensures failures { IfOk result (λ d. (Self.Image.failures d.0 ≡ 0) × (Self.Text.failures d.1 ≡ 0)) }
        ensures image { faithful self.old
            → IfOk result (λ d. Self.Image.faithful d.0 × (Self.Image.image d.0 ≡ (state self.old).bytes (number image))) }
        ensures journal { faithful self.old
            → IfOk result (λ d. Self.Text.faithful d.1 × (Self.Text.text d.1 ≡ (state self.old).bytes (number journal))) }
        ensures beside { faithful self.old
            → OnOk result (beside self.new ≡ Some (record { image = number image; journal = number journal; redo = None })) }
        ensures image_survives { faithful self.old → IfOk result (λ d. NoMore (survives self.old (number image)) (Self.Image.survives d.0)) }
        ensures missing { faithful self.old → result ≡ Err Missing → ⊥ }
        ensures same { faithful self.old → state self.new ≡ state self.old }
        ensures counted { faithful self.old → CountsRefusal result (refusals self.old) (refusals self.new) }
        ensures survives { faithful self.old → NothingNewFound (survives self.old) (survives self.new) }
        ensures note { faithful self.old → note self.new ≡ note self.old }
        ensures faith { faithful self.new ↔ faithful self.old };

    /// Lends a redo text that is open to be changed, beside the image and the journal that are lent, to be read like the journal.
    fn lend_redo_beside(&mut self, redo: Self::File) -> Result<Self::Text, Refusal>
        requires apart { faithful self.old → (f : ReadFiles) → beside self.old ≡ Some f
            → AreOwnFiles (state self.old).there (record { image = f.image; journal = f.journal; redo = Some (number redo) }) }
        requires locked { faithful self.old → is_locked redo }
        ensures failures { IfOk result (λ t. Self.Text.failures t ≡ 0) }
        ensures redo { faithful self.old
            → IfOk result (λ t. Self.Text.faithful t × (Self.Text.text t ≡ (state self.old).bytes (number redo))) }
        ensures beside { faithful self.old → OnOk result ((f : ReadFiles) → beside self.old ≡ Some f
            → beside self.new ≡ Some (record { image = f.image; journal = f.journal; redo = Some (number redo) })) }
        ensures missing { faithful self.old → result ≡ Err Missing → ⊥ }
        ensures same { faithful self.old → state self.new ≡ state self.old }
        ensures counted { faithful self.old → CountsRefusal result (refusals self.old) (refusals self.new) }
        ensures survives { faithful self.old → NothingNewFound (survives self.old) (survives self.new) }
        ensures note { faithful self.old → note self.new ≡ note self.old }
        ensures faith { faithful self.new ↔ faithful self.old };

    /// Lends the texts that are lent beside an image to be changed. Whatever was done with their devices before, they hold what the
    /// files do; what is done with a redo text that is missing goes nowhere.
    fn let_change(&mut self, journal: Self::Text, redo: Self::Text) -> (Self::Text, Self::Text)
        ensures failures { (Self.Text.failures result.0 ≡ 0) × (Self.Text.failures result.1 ≡ 2 ^ 32) }
        ensures journal { faithful self.old → (f : ReadFiles) → beside self.old ≡ Some f
            → Self.Text.faithful result.0 × (Self.Text.text result.0 ≡ (state self.old).bytes f.journal) }
        ensures redo { faithful self.old → (f : ReadFiles) → beside self.old ≡ Some f
            → Self.Text.faithful result.1 × (Self.Text.text result.1 ≡ bytes_if (state self.old) f.redo) }
        ensures only { faithful self.old → (f : ReadFiles) → beside self.old ≡ Some f → Spares (IsNoText f) (state self.old) (state self.new) }
        ensures beside { faithful self.old → beside self.new ≡ beside self.old }
        ensures survives { faithful self.old → (f : ReadFiles) → beside self.old ≡ Some f
            → NothingNewSpared (IsNoText f) (survives self.old) (survives self.new) }
        ensures journal_survives { faithful self.old → (f : ReadFiles) → beside self.old ≡ Some f
            → NoMore (survives self.old f.journal) (Self.Text.survives result.0) }
        ensures redo_survives { faithful self.old → (f : ReadFiles) → beside self.old ≡ Some f
            → (n : ℕ) → f.redo ≡ Some n → NoMore (survives self.old n) (Self.Text.survives result.1) }
        ensures counted { faithful self.old → refusals self.new ≡ refusals self.old }
        ensures note { faithful self.old → note self.new ≡ note self.old }
        ensures faith { faithful self.new ↔ faithful self.old };

    /// Takes an image and its texts back, which may have been changed, and counts their failed calls; their files are closed. The texts
    /// have then what the devices have, and the image has what it had.
    fn close_beside(&mut self, image: Self::Image, journal: Self::Text, redo: Self::Text)
        requires order { (Self.Text.failures journal < 2 ^ 32) × (2 ^ 32 ≤ Self.Text.failures redo) }
        requires devices { faithful self.old → Self.Image.faithful image × Self.Text.faithful journal × Self.Text.faithful redo }
        ensures closed { faithful self.old → (f : ReadFiles) → beside self.old ≡ Some f
            → ClosesTexts f (Self.Text.text journal) (Self.Text.text redo) (state self.old) (state self.new) }
        ensures texts_survive { faithful self.old → (f : ReadFiles) → beside self.old ≡ Some f
            → TextsLeft f (Self.Text.survives journal) (Self.Text.survives redo) (survives self.new) }
        ensures image_survives { faithful self.old → (f : ReadFiles) → beside self.old ≡ Some f
            → Self.Image.image image ≡ (state self.old).bytes f.image → NoMore (Self.Image.survives image) (survives self.new f.image) }
        ensures others { faithful self.old → (f : ReadFiles) → beside self.old ≡ Some f
            → NothingNewSpared (IsNoneRead f) (survives self.old) (survives self.new) }
        ensures beside { faithful self.old → beside self.new ≡ None }
        ensures counted { faithful self.old → refusals self.new ≡ refusals self.old
            + failed_calls (Self.Image.failures image) (Self.Text.failures journal) (Self.Text.failures redo) }
        ensures note { faithful self.old → note self.new ≡ note self.old }
        ensures faith { faithful self.new ↔ faithful self.old };

    /// Reads the first bytes of the note into a buffer, and says how many there are up to its length. A note that is missing has none.
    fn read_note(&mut self, buf: &mut [u8]) -> Result<usize, Refusal>
        ensures within { length buf.new ≡ length buf.old }
        ensures few { IfOk result (λ n. n ≤ length buf.old) }
        ensures read { faithful self.old → IfOk result (λ n. IsFrontRead n (length buf.old) buf.new (note self.old)) }
        ensures missing { faithful self.old → result ≡ Err Missing → ⊥ }
        ensures same { faithful self.old → state self.new ≡ state self.old }
        ensures beside { faithful self.old → beside self.new ≡ beside self.old }
        ensures counted { faithful self.old → CountsRefusal result (refusals self.old) (refusals self.new) }
        ensures survives { faithful self.old → NothingNewFound (survives self.old) (survives self.new) }
        ensures note { faithful self.old → note self.new ≡ note self.old }
        ensures found { faithful self.old → NoMore (note_survives self.old) (note_survives self.new) }
        ensures faith { faithful self.new ↔ faithful self.old };

    /// Puts these bytes in place of the note, and says what stands then; `synced` says whether they are put on the disk too. No file
    /// that has a name in this world is changed by it, nor one that is lent. No bytes take the note away. A note that stands as it was
    /// counts as a refusal.
    fn put_note(&mut self, bytes: &[u8], synced: bool) -> Noted
        ensures note { faithful self.old → note self.new ≡ noted result bytes.now (note self.old) }
        ensures settled { faithful self.old → result ≡ Put → synced ≡ true → Only bytes.now (note_survives self.new) }
        ensures same { faithful self.old → state self.new ≡ state self.old }
        ensures beside { faithful self.old → beside self.new ≡ beside self.old }
        ensures counted { faithful self.old → CountsNoted result (refusals self.old) (refusals self.new) }
        ensures survives { faithful self.old → NothingNewFound (survives self.old) (survives self.new) }
        ensures faith { faithful self.new ↔ faithful self.old };

    /// Takes the note away, and puts that on the disk where names are put there. One that can't be taken away is emptied, and where that is
    /// refused too it stands.
    fn drop_note(&mut self) -> Result<(), Refusal>
        ensures dropped { faithful self.old → OnOk result (note self.new ≡ []) }
        ensures stands { faithful self.old → OnErr result (note self.new ≡ note self.old) }
        ensures missing { faithful self.old → result ≡ Err Missing → ⊥ }
        ensures counted { faithful self.old → CountsRefusal result (refusals self.old) (refusals self.new) }
        ensures same { faithful self.old → state self.new ≡ state self.old }
        ensures beside { faithful self.old → beside self.new ≡ beside self.old }
        ensures survives { faithful self.old → NothingNewFound (survives self.old) (survives self.new) }
        ensures faith { faithful self.new ↔ faithful self.old };

    /// Keeps each file that is locked to be changed locked from then on, whatever is closed and opened again, until `pass_locks`.
    fn keep_locks(&mut self)
        ensures same { faithful self.old → state self.new ≡ state self.old }
        ensures counted { faithful self.old → refusals self.new ≡ refusals self.old }
        ensures survives { faithful self.old → NothingNewFound (survives self.old) (survives self.new) }
        ensures note { faithful self.old → note self.new ≡ note self.old }
        ensures faith { faithful self.new ↔ faithful self.old };

    /// Lets locks go with their files, and those go that were kept.
    fn pass_locks(&mut self)
        ensures same { faithful self.old → state self.new ≡ state self.old }
        ensures counted { faithful self.old → refusals self.new ≡ refusals self.old }
        ensures survives { faithful self.old → NothingNewFound (survives self.old) (survives self.new) }
        ensures note { faithful self.old → note self.new ≡ note self.old }
        ensures faith { faithful self.new ↔ faithful self.old };

    /// No fewer files are there than were when the run began.
    ghost begun: { (w : Self) → faithful w → (state w).before ≤ (state w).there };

    /// Each name of a faithful world leads to a file that is there.
    ghost within: { (w : Self) (name : List ℕ) (n : ℕ) → faithful w → (state w).named name ≡ Some n → n < (state w).there };
}
