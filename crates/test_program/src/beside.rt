//! The characters beside the digits of a dump.
use bx_hints::unlike_line;
use std::process::Abort;

// Dumps, each with the line that is answered: lines of xxd, some of them edited, and lines of other forms, as xxd writes them.
static DUMPS: [(&str, Option<u64>); 13] = [
    ("", None),
    (
        "00000000: 4142 7879                                ABxy\n",
        None,
    ),
    ("0: 41\n*\n\n1: 42", None),
    (
        "00000000: 4142 4344                                ABxy",
        None,
    ),
    (
        "00000000: 2041 4220                                 AB ",
        None,
    ),
    (
        "00000000: 2041 4220                                 AB",
        None,
    ),
    (
        "00000000: 2020                                       \n",
        None,
    ),
    (
        "00000000: 0941 0d0a ff7f                           .A....\r\n",
        None,
    ),
    (
        "0: 41\n00000001: 4243                                     xC\n",
        None,
    ),
    (
        "0: 41\n00000001: 4243                                     xy\n",
        Some(2),
    ),
    (
        "00000000: 01000001 01000010 01000011                             ABC\n",
        Some(1),
    ),
    (
        "*\n00000000: 44434241 48474645                    ABCDEFGH\n",
        Some(2),
    ),
    (
        "00000000: 4142  4344                               ABCD\n0: 41  B\n",
        Some(1),
    ),
];

#[test]
fn unlike_lines(rt: HostRuntime) {
    for (dump, line) in &DUMPS {
        assert!(rt; unlike_line(dump.as_bytes()) == *line, "not so: {dump}");
    }
}
