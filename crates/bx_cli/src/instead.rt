//! What is said of a word that other tools take and `bx` doesn't.
use bx_text::Words;

/// What is said of a number that is negative, and may be a place.
pub(crate) fn no_negative(is_place: bool) -> &'static str {
    if is_place {
        "there are no negative places and counts; places count from the start"
    } else {
        "there are no negative places and counts"
    }
}

/// What to give in place of a word that is refused under a subcommand; `said` is what clap says of it. Empty where nothing is
/// known.
pub(crate) fn instead(name: &str, said: &str) -> &'static str {
    let word = quoted(said);
    if !is_unexpected(said) {
        ""
    } else if word.starts_with('-') {
        option(name, word)
    } else {
        alone(name)
    }
}

/// Whether clap says that it doesn't know an option, or that a word is one too many.
pub(crate) fn is_unexpected(said: &str) -> bool {
    said.starts_with("unexpected argument")
}

/// What is said of a second word that is no option.
fn alone(name: &str) -> &'static str {
    match name {
        "revert" => "one word is the image; a dump is named by -f: bx revert -f DUMP IMAGE",
        "patch" => "one word is the image; a patch is named by -f: bx patch -f PATCH IMAGE",
        "undo" | "redo" | "log" | "show" | "forget" =>
            "one word is the image, and there is no other",
        "xxd" => "one word is the file that is read, and with -r another the file that is written",
        _ => "",
    }
}

/// The options of other tools, by the subcommand, whose name is empty for those on images: what stands for each, or why there is nothing.
static OPTIONS: [(&str, &str, &str); 65] = [
    ("od", "-a", "give -c for characters"),
    ("od", "-e", "numbers are shown as integers alone"),
    ("od", "-f", "numbers are shown as integers alone"),
    ("od", "-S", "bx strings shows texts"),
    ("od", "--address-radix", "give -A RADIX"),
    ("od", "--skip-bytes", "give -j COUNT"),
    ("od", "--skip", "give -j COUNT"),
    ("od", "--read-bytes", "give -N COUNT"),
    ("od", "--length", "give -N COUNT"),
    ("od", "--format", "give -t TYPE"),
    ("od", "--output-duplicates", "give -v"),
    ("xxd", "-C", "give -n NAME for the name of the array"),
    ("xxd", "-E", "characters are shown as ASCII alone"),
    ("xxd", "-R", "a dump has no colors"),
    ("xxd", "--autoskip", "give -a"),
    ("xxd", "--len", "give -l COUNT"),
    ("xxd", "--length", "give -l COUNT"),
    ("xxd", "--seek", "give -s OFFSET"),
    ("xxd", "--skip", "give -s OFFSET"),
    ("xxd", "--offset", "give -o OFFSET"),
    ("xxd", "--cols", "give -c COLS"),
    ("xxd", "--group", "give -g BYTES"),
    ("xxd", "--groupsize", "give -g BYTES"),
    ("xxd", "--plain", "give -p"),
    ("xxd", "--postscript", "give -p"),
    ("xxd", "--revert", "give -r"),
    ("xxd", "--bits", "give -b"),
    ("xxd", "--include", "give -i"),
    ("xxd", "--upper", "give -u"),
    ("xxd", "--uppercase", "give -u"),
    ("xxd", "--decimal", "give -d"),
    ("xxd", "--name", "give -n NAME"),
    ("hexdump", "-b", "-C is the only form; bx od has others"),
    ("hexdump", "-c", "-C is the only form; bx od has others"),
    ("hexdump", "-d", "-C is the only form; bx od has others"),
    ("hexdump", "-o", "-C is the only form; bx od has others"),
    ("hexdump", "-x", "-C is the only form; bx od has others"),
    ("hexdump", "-e", "-C is the only form"),
    ("hexdump", "-f", "-C is the only form"),
    ("hexdump", "-L", "-C is the only form"),
    ("hexdump", "--canonical", "give -C"),
    ("hexdump", "--length", "give -n COUNT"),
    ("hexdump", "--skip", "give -s COUNT"),
    ("hexdump", "--no-squeezing", "give -v"),
    ("strings", "-o", "give -t o"),
    ("strings", "--all", "give -a"),
    ("strings", "--bytes", "give -n COUNT"),
    ("strings", "--radix", "give -t RADIX"),
    ("strings", "--encoding", "give -e ENCODING"),
    ("strings", "--print-file-name", "give -f"),
    ("patch", "--reverse", "give -R"),
    ("patch", "--patch", "give -f PATCH"),
    ("patch", "--input", "give -f PATCH"),
    ("patch", "--file", "give -f PATCH"),
    ("", "--count", "give -k COUNT"),
    ("", "--journal", "give -J JOURNAL"),
    ("", "--unsynced", "give -U"),
    ("", "--dump", "give -f DUMP"),
    ("", "--file", "give -f DUMP"),
    ("", "--plain", "give -p"),
    ("", "--offset", "give -s OFFSET"),
    ("", "--redo", "give -r"),
    ("", "--difference", "give -d"),
    ("", "--diff", "give -d"),
    ("", "--verbose", "give -v"),
];

/// What stands for an option of other tools, or for what it does. Of a subcommand that dumps its own are known, of another one those on
/// images too.
fn option(name: &str, word: &str) -> &'static str {
    let is_dump = matches!(name, "od" | "xxd" | "hexdump" | "strings");
    for (command, other, advice) in &OPTIONS {
        let is_of = **command == *name || (command.is_empty() && !is_dump);
        if is_of && **other == *word {
            return advice;
        }
    }
    ""
}

/// The first word that is a negative number and begins as the one that clap quotes; none where that isn't one.
pub(crate) fn negative<'a>(words: &'a Words, said: &str) -> Option<&'a str> {
    let first = quoted(said);
    if !is_negative(first) {
        return None;
    }
    for i in 0..words.len() {
        if let Some(word) = words.get(i) {
            if word.starts_with(first) {
                return Some(word);
            }
        }
    }
    None
}

/// The text between the first two quotes; empty where there are none.
fn quoted(text: &str) -> &str {
    match text.split_once('\'') {
        Some((_, rest)) => rest.split_once('\'').map_or("", |(word, _)| word),
        None => "",
    }
}

/// Whether it begins as a negative number.
pub(crate) fn is_negative(word: &str) -> bool {
    matches!(word.as_bytes(), [b'-', digit, ..] if digit.is_ascii_digit())
}

/// Whether the value of an operand of dd begins as a negative number.
pub(crate) fn has_negative(operand: &str) -> bool {
    match operand.split_once('=') {
        Some((_, value)) => is_negative(value),
        None => false,
    }
}

/// The subcommands that clap finds similar to an unknown one, each in quotes, in the lines behind its first; empty where it
/// finds none.
pub(crate) fn similar(lines: &str) -> &str {
    for line in lines.lines() {
        let line = line.trim();
        if line.starts_with("tip: a similar subcommand") || line.starts_with("tip: some similar") {
            return line.rsplit_once(": ").map_or("", |(_, names)| names);
        }
    }
    ""
}
