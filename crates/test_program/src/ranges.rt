//! The log with ranges of a damaged text, which no case can ask for.
use bx_cli::{Fault, list_ranges};
use bx_journal::SessionFault;
use bx_journal_store::MemText;
use std::alloc::Global;

/// Lists the ranges of a text.
fn list(alloc: Global, text: &str) -> Result<(), Fault> {
    let mut store = MemText::from_vec(text.as_bytes().to_vec(alloc)?);
    let mut out = Vec::new(alloc);
    list_ranges(&alloc, &mut store, &mut out)
}

static DAMAGED: [(&str, u64); 2] = [
    ("changed\n", 1),
    (
        "change2 00000001 0000000000000008\nsave 00000001\ndone2 00000002 0000000000000009\n",
        3,
    ),
];

#[test]
fn damage_stops_ranges(rt: HostRuntime) {
    for (text, line) in &DAMAGED {
        let wanted = Fault::Session(SessionFault::Damaged { line: *line });
        assert!(rt; list(rt.alloc(), text) == Err(wanted), "of {text}");
    }
}
