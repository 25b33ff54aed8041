//! What is known of two images before a comparison reads them.
ghost use Rattle.std.specs.Prelude.{◌≡◌, ◌<◌, ◌≤◌, List, ℕ, false};
ghost use Rattle.bx_patch.specs.Text.{differs};

/// What is known of two images before a comparison reads them: where they have the same bytes, nothing has to be read.
pub trait Alike {
    /// What this knows of the old image and the new one.
    ghost AreAlike: { Self → List ℕ → List ℕ → Type 0 };

    /// A place up to which the two have the same bytes from `at` on. Where nothing is known of the bytes at `at`, it is `at` or less.
    fn same_until(&self, at: u64) -> u64
        ensures same { (x y : List ℕ) → AreAlike self.now x y → (j : ℕ) → at ≤ j → j < result → differs x y j ≡ false };
}

/// Nothing is known of two images, so all of both is read.
#[derive(Clone, Copy, Debug)]
pub struct Unknown;

impl Alike for Unknown {
    ghost AreAlike = { λ _ _ _. Unit {0} };

    fn same_until(&self, at: u64) -> u64 {
        at
    }
}
