//! How far a command on named files may go.

/// What a command on named files may do.
#[derive(Clone, Copy, Debug, PartialEq, Eq)]
pub struct Guard {
    /// Whether the image may be a device that is mounted.
    pub mounted: bool,
    /// Whether it goes on whatever the note tells of the image (`--anyway`).
    pub anyway: bool,
    /// Whether what is unfinished is recovered only onto an image that the note tells to be the one.
    pub told: bool,
    /// Whether the journal was named beside the image (`-J`), so that it may be another image's history.
    pub named: bool,
}
