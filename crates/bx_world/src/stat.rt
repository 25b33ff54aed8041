//! What the system tells of a file.

/// What a file is.
#[derive(Clone, Copy, Debug, PartialEq, Eq)]
pub enum Kind {
    /// A regular file.
    Regular,
    /// A block device.
    Block,
    /// Anything else, as a folder, a pipe or a terminal.
    Other,
}

/// The classes of users, beside the owner, that have a permission.
#[derive(Clone, Copy, Debug)]
pub struct Classes {
    /// The members of the file's group.
    pub group: bool,
    /// All others.
    pub others: bool,
}

/// What the system tells of a file.
#[derive(Clone, Copy, Debug)]
pub struct Stat {
    /// What it is.
    pub kind: Kind,
    /// The user whom it belongs to.
    pub owner: u32,
    /// The group that it belongs to.
    pub group: u32,
    /// Whether that group says nothing of the owner, who may have got it from a folder.
    pub is_group_given: bool,
    /// Who may read it, by its permission bits.
    pub reads: Classes,
    /// Who may write it, by its permission bits.
    pub writes: Classes,
    /// How many names it has: its hard links.
    pub links: u64,
    /// Whether it is a device in use: mounted, used as swap, or under an array or a volume.
    pub is_mounted: bool,
    /// Whether it is a device that can't be written.
    pub is_read_only: bool,
}

/// What stands under a name.
#[derive(Clone, Copy, Debug)]
pub struct Look {
    /// Whether the name is a symbolic link.
    pub is_link: bool,
    /// The file that it leads to, links followed; none where it leads to none.
    pub found: Option<Stat>,
}
