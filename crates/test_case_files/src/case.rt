//! What a case file holds.
use crate::kinds::commands::CommandsCase;
use crate::kinds::looks::LooksCase;
use crate::kinds::patches::PatchCase;
use crate::kinds::reading::ReadingCase;
use crate::kinds::texts::TextCase;
use crate::kinds::words::WordsCase;

/// What a case asks for, and what has to come of it.
#[derive(Drop)]
pub enum Test {
    Words(WordsCase),
    Commands(CommandsCase),
    Text(TextCase),
    Reading(ReadingCase),
    Looks(LooksCase),
    Patch(PatchCase),
}

/// A case: its name, the line on which it begins, and what it asks for.
#[derive(Drop)]
pub struct Case {
    pub name: String,
    pub line: u64,
    pub test: Test,
}

/// The cases of a file, in order.
#[derive(Drop)]
pub struct CaseFile {
    pub cases: Vec<Case>,
}
