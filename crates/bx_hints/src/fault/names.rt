//! What is said of the names of files.
use crate::fault::stopped::{STANDARD_INPUT, STANDARD_OUTPUT};
use crate::text::quoted::quoted;
use std::alloc::{AllocError, Global};

/// What is said where a file is named as standard input is in other programs.
const DASH: &str = "- is a file's name here; an input without a name is standard input";

/// What is said of an image that is named as texts of images are.
const TEXT_NAME: &str = "its image has the name of a journal or a redo file";

/// A file's name as a person reads it; empty where no file is known. A stream has no name, so it isn't quoted.
pub fn subject(alloc: Global, file: &str) -> Result<String, AllocError> {
    match file {
        "" | STANDARD_INPUT | STANDARD_OUTPUT => String::from_str(alloc, file),
        _ => quoted(alloc, file),
    }
}

/// What may be wrong with the name of a file that wasn't opened; empty where nothing is known.
pub fn name_hint(file: &str) -> &'static str {
    if file == "-" {
        DASH
    } else if file.strip_suffix(".bxj").is_some_and(is_of_text) {
        TEXT_NAME
    } else {
        ""
    }
}

/// Whether it is a name as journals and redo files have.
pub fn is_of_text(name: &str) -> bool {
    name.ends_with(".bxj") || name.ends_with(".redo")
}
