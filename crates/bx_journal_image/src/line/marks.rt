//! What a line knows of an image's blocks.

/// How many blocks an image has.
pub const BLOCKS: usize = 32;

/// How many bytes a block has at most.
pub const BLOCK: usize = 4096;

/// The digests of an image's blocks, in their order; none where nothing is known of a block.
pub type Marks = [Option<u32>; 32];
