//! What a play that isn't right tells.
use bx_cli::Fault;
use std::alloc::{AllocError, AllocFailed, Global};
use std::fmt::Write;
use std::io;

/// The most bytes that are shown of a text.
const MOST_SHOWN: usize = 200;

/// Why a play can't be called right.
#[derive(Drop)]
pub enum Wrong {
    /// A growth was refused.
    NoMemory,
    /// A file or a device can't be used, or a case asks for what can't be played.
    Unknown,
    /// Something differs from what the case tells: what was compared, what was wanted, and what was found.
    Differs(String),
}

impl From<AllocError> for Wrong {
    fn from(_: AllocError) -> Self {
        Wrong::NoMemory
    }
}

impl<T: Drop> From<AllocFailed<T>> for Wrong {
    fn from(_: AllocFailed<T>) -> Self {
        Wrong::NoMemory
    }
}

impl From<io::Error> for Wrong {
    fn from(_: io::Error) -> Self {
        Wrong::Unknown
    }
}

impl From<bx_text::NoMemory> for Wrong {
    fn from(_: bx_text::NoMemory) -> Self {
        Wrong::NoMemory
    }
}

/// What is compared was found so, and should be otherwise.
pub fn differs(alloc: Global, what: &'static str, wanted: &str, found: &str) -> Wrong {
    match format!(in alloc; "{what}: wanted {wanted}, found {found}") {
        Ok(text) => Wrong::Differs(text),
        Err(_) => Wrong::NoMemory,
    }
}

/// These texts are the same.
pub fn same_text(
    alloc: Global,
    what: &'static str,
    wanted: &str,
    found: &str,
) -> Result<(), Wrong> {
    if wanted == found {
        return Ok(());
    }
    Err(differs(alloc, what, wanted, found))
}

/// These numbers are the same.
pub fn same_number(
    alloc: Global,
    what: &'static str,
    wanted: u64,
    found: u64,
) -> Result<(), Wrong> {
    if wanted == found {
        return Ok(());
    }
    let wanted = format!(in alloc; "{wanted}")?;
    let found = format!(in alloc; "{found}")?;
    Err(differs(alloc, what, wanted.as_str(), found.as_str()))
}

/// These bytes are the same.
pub fn same_bytes(
    alloc: Global,
    what: &'static str,
    wanted: &[u8],
    found: &[u8],
) -> Result<(), Wrong> {
    if wanted == found {
        return Ok(());
    }
    unlike(alloc, what, wanted, found)
}

/// The second bytes are a front of the first.
pub fn front_of(
    alloc: Global,
    what: &'static str,
    whole: &[u8],
    found: &[u8],
) -> Result<(), Wrong> {
    if whole.starts_with(found) {
        return Ok(());
    }
    unlike(alloc, what, whole, found)
}

/// A front of some bytes.
pub fn front(bytes: &[u8], len: usize) -> &[u8] {
    let (front, _) = bytes.split_at(len.min(bytes.len()));
    front
}

/// How many bytes two texts share.
pub fn shared(wanted: &[u8], found: &[u8]) -> usize {
    wanted
        .iter()
        .zip(found.iter())
        .position(|(a, b)| *a != *b)
        .unwrap_or(wanted.len().min(found.len()))
}

/// Bytes that differ, from a little before the first difference on.
fn unlike(alloc: Global, what: &'static str, wanted: &[u8], found: &[u8]) -> Result<(), Wrong> {
    let from = shared(wanted, found).saturating_sub(40);
    let wanted = shown(alloc, from, wanted)?;
    let found = shown(alloc, from, found)?;
    Err(differs(alloc, what, wanted.as_str(), found.as_str()))
}

/// Some of the bytes, as a case file writes them, with how many were left out in front.
fn shown(alloc: Global, from: usize, bytes: &[u8]) -> Result<String, AllocError> {
    let mut text = String::new(alloc);
    if from > 0 {
        write!(text, "from {from} on ")?;
    }
    text.push('"')?;
    let (_, rest) = bytes.split_at(from.min(bytes.len()));
    for byte in rest.iter().take(MOST_SHOWN) {
        push_shown(&mut text, *byte)?;
    }
    text.push('"')?;
    Ok(text)
}

/// A byte as a text in quotes writes it.
fn push_shown(text: &mut String, byte: u8) -> Result<(), AllocError> {
    match byte {
        b'\n' => text.push_str("\\n"),
        b'"' => text.push_str("\\\""),
        b'\\' => text.push_str("\\\\"),
        0x20..=0x7e => text.push(byte as char),
        _ => write!(text, "\\x{byte:02x}"),
    }
}

/// The text of a fault.
pub fn fault_text(alloc: Global, fault: Fault) -> Result<String, AllocError> {
    format!(in alloc; "{fault}")
}

/// This is the fault.
pub fn same_fault(alloc: Global, wanted: &str, found: Fault) -> Result<(), Wrong> {
    let found = fault_text(alloc, found)?;
    same_text(alloc, "fault", wanted, found.as_str())
}

/// These faults are the same.
pub fn same_faults(alloc: Global, wanted: Fault, found: Fault) -> Result<(), Wrong> {
    let wanted = fault_text(alloc, wanted)?;
    same_fault(alloc, wanted.as_str(), found)
}

/// Whether a growth was refused, whichever crate asked for it.
pub fn is_out_of_memory(fault: Fault) -> bool {
    fault.number() == 1
}

/// No fault was found, where one with this text should be.
pub fn no_fault(alloc: Global, wanted: &str) -> Wrong {
    differs(alloc, "fault", wanted, "no fault")
}

/// A fault was found, where none should be.
pub fn unwanted(alloc: Global, what: &'static str, fault: Fault) -> Wrong {
    match fault_text(alloc, fault) {
        Ok(text) => differs(alloc, what, "no fault", text.as_str()),
        Err(_) => Wrong::NoMemory,
    }
}
