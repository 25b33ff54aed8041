//! What is taken before the first write: memory, room, and a look at what is overwritten; and all three devices are put on the disk.
pub(crate) mod change;
pub(crate) mod head;
pub(crate) mod lengths;
pub(crate) mod overwritten;
pub(crate) mod places;
pub(crate) mod ranges;
pub(crate) mod records;
pub(crate) mod room;
pub(crate) mod settle;
pub(crate) mod spans;
