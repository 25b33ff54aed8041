//! What a job skips of its input, and how much of it a seek can pass.
ghost use Rattle.std.specs.Prelude.{◌≡◌, ◌≤◌};

/// What is skipped of an input before anything of it is used.
#[derive(Clone, Copy, Debug, PartialEq, Eq)]
pub enum Skip {
    /// `count` bytes of an input whose first byte has the address `first`. The last of them is read, so that an input that is
    /// shorter by then ends there.
    Bytes { count: u64, first: u64 },
    /// `count` blocks of `size` bytes.
    Blocks { count: u64, size: u64 },
}

impl Skip {
    ghost use Rattle.bx_cli_commands.specs.jobs.Passing.{CanPass, seekable};

    /// How many of the bytes a seek can pass, in an input with `length` bytes left: all but the last, as far as the input and
    /// addresses go, or whole blocks. They are none where there is no byte, or no seek. `run_dump` takes them.
    pub fn seekable(self, length: u64) -> u64
        ensures value { result ≡ seekable self length }
        ensures allowed { CanPass result self }
        ensures within { result ≤ length }
    {
        match self {
            Skip::Bytes { count, first } => {
                let most = (1u64 << 62).saturating_sub(first);
                count.min(length).saturating_sub(1).min(most)
            }
            Skip::Blocks { count, size } => match length.checked_div(size) {
                Some(blocks) => count.min(blocks) * size,
                None => 0,
            },
        }
    }
}
