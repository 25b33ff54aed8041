//! Laws of the rule which files may be opened.
ghost use Rattle.bx_world.specs.Persons.{ReadersMayReadImage, WritersMayWriteImage};

/// A text that may be opened beside an image has no reader and no writer who may not read and write the image, by the permission
/// bits of both; their owners apart, who give themselves what they want.
pub fn readers_and_writers()
    ensures readers { ReadersMayReadImage }
    ensures writers { WritersMayWriteImage }
{}
