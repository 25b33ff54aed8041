//! How many calls of a world in memory were refused, and of the devices that it lent.
ghost use Rattle.std.specs.Prelude.{◌≡◌, ◌==◌, ◌+◌, ◌^◌, ◌≤◌, ℕ, not};
ghost use Rattle.bx_world.specs.World.{failed_calls};

use std::marker::{Model, PhantomData};

/// Where the failures of a redo text begin to count that may be changed.
pub const FIRST_OF_REDO: u64 = 1 << 32;

/// A count that proofs alone read. It takes no memory, so no number is its largest.
#[derive(Drop)]
pub struct Count {
    marker: PhantomData<u8>,
    pub ghost number: { ℕ },
}

impl Model for Count {
    ghost use Rattle.std.specs.Borrow.{ftrue};

    ghost also_owns = { λ _. ftrue };
}

impl Count {
    /// Nothing is counted yet.
    fn new() -> Count
        ensures { result.number ≡ 0 }
    {
        Count {
            marker: PhantomData,
        }
    }

    /// Counts one more.
    fn raise(&mut self)
        ensures { self.new.number ≡ self.old.number + 1 }
    {}
}

/// The calls that were refused: the count of them all, with those of devices and of the note, and of the others whether there are any.
#[derive(Drop)]
pub struct Refusals {
    is_any: bool,
    calls: Count,
    count: Count,
    ghost told: { is_any ≡ not (calls.number == 0) },
}

impl Refusals {
    /// No call was refused yet.
    pub fn none() -> Refusals
        ensures { result.count.number ≡ 0 }
    {
        Refusals {
            is_any: false,
            calls: Count::new(),
            count: Count::new(),
        }
    }

    /// Takes note of one more.
    pub fn note(&mut self)
        ensures { self.new.count.number ≡ self.old.count.number + 1 }
    {
        self.count.raise();
        self.calls.raise();
        self.is_any = true;
    }

    /// Takes note of one more, of a device or of the note.
    pub fn note_failure(&mut self)
        ensures { self.new.count.number ≡ self.old.count.number + 1 }
    {
        self.count.raise();
    }

    /// Adds the failed calls of a device to the count.
    fn note_failures(&mut self, count: u64)
        ensures { self.new.count.number ≡ self.old.count.number + count }
    {
        let mut done = 0;
        while done < count {
            self.note_failure();
            done += 1;
        }
    }

    /// Takes note of the calls that failed of three devices which were only read, by their counts.
    pub fn note_reads(&mut self, image: u64, journal: u64, redo: u64)
        ensures { self.new.count.number ≡ self.old.count.number + (image + journal + redo) }
    {
        self.note_failures(image);
        self.note_failures(journal);
        self.note_failures(redo);
    }

    /// The same of three that could be changed.
    pub fn note_failed(&mut self, image: u64, journal: u64, redo: u64)
        requires { 2 ^ 32 ≤ redo }
        ensures { self.new.count.number ≡ self.old.count.number + failed_calls image journal redo }
    {
        self.note_failures(image);
        self.note_failures(journal);
        self.note_failures(redo - FIRST_OF_REDO);
    }

    /// Whether any call was refused, but those of devices and of the note.
    pub fn is_any(&self) -> bool
        ensures { result ≡ not (self.now.calls.number == 0) }
    {
        self.is_any
    }
}
