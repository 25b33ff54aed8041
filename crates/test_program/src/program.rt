//! Jobs as the program does them, on real files: scripts of steps, one a line.
//!
//! `WORDS -> FAULT` runs the words, which end with this fault's text, or with `done`. Under `WORDS => FAULT` image, journal and redo
//! text, `one.img` and those beside it, also stay. `NAME := BYTES` writes a file, `NAME = BYTES` looks at one, where `|` stands for a
//! newline, and `NAME has N` at its length. `dir NAME` makes a folder, `hard NAME NAME` and `soft NAME NAME` link a second name to the
//! first. `no NAME NAME` says that there are none, `rm NAME NAME` takes them away, and `rmdir NAME` a folder. `private NAME`
//! leaves a file to its owner, `public NAME` lets all read it, and `within NAME NAME` says that nobody may do more with the first
//! than with the second.
use crate::expected::words;
use bx_cli::{Fault, plan_words};
use bx_program::perform;
use std::alloc::{AllocError, Global};
use std::fs::{File, Permissions};
use std::os::unix::fs::{MetadataExt, PermissionsExt, symlink};
use std::process::Abort;
use std::test::Fail;
use std::{fs, io};

fn outcome(rt: &HostRuntime, line: &str) -> Result<(), Fault> {
    let job = plan_words(rt.alloc(), &words(rt.alloc(), line)?)?;
    perform(rt, &job).map_err(|stopped| stopped.fault)
}

fn shown(alloc: Global, outcome: Result<(), Fault>) -> Result<String, AllocError> {
    match outcome {
        Ok(()) => String::from_str(alloc, "done"),
        Err(fault) => format!(in alloc; "{fault}"),
    }
}

// Whether the words end so.
fn ends(rt: &HostRuntime, line: &str, wanted: &str) -> Result<bool, Fail> {
    Ok(shown(rt.alloc(), outcome(rt, line))?.as_str() == wanted)
}

fn has_bytes(rt: &HostRuntime, name: &str, text: &str) -> Result<bool, Fail> {
    let bytes = told(rt.alloc(), text)?;
    Ok(fs::read(rt, name)?.as_slice() == bytes.as_slice())
}

fn has_len(rt: &HostRuntime, name: &str, len: &str) -> Result<bool, Fail> {
    let found = fs::metadata(rt, name)?.len();
    Ok(len.parse::<u64>() == Ok(found))
}

fn are_missing(rt: &HostRuntime, names: &str) -> bool {
    for name in names.split(' ') {
        if fs::metadata(rt, name).is_ok() {
            return false;
        }
    }
    true
}

fn permit(rt: &HostRuntime, name: &str, bits: u32) -> Result<bool, Fail> {
    fs::set_permissions(rt, name, Permissions::from_mode(bits))?;
    Ok(true)
}

/// Whether the first file has no permission bit that the second lacks, and none to execute.
fn is_within(rt: &HostRuntime, names: &str) -> Result<bool, Fail> {
    let (inner, outer) = names.split_once(' ').unwrap_or((names, names));
    let inner = fs::metadata(rt, inner)?.mode() & 0o777;
    let outer = fs::metadata(rt, outer)?.mode() & 0o666;
    Ok(inner & !outer == 0)
}

fn remove(rt: &HostRuntime, names: &str) -> Result<bool, Fail> {
    for name in names.split(' ') {
        fs::remove_file(rt, name)?;
    }
    Ok(true)
}

/// The bytes that a script tells.
fn told(alloc: Global, text: &str) -> Result<Vec<u8>, AllocError> {
    let mut bytes = text.as_bytes().to_vec(alloc)?;
    for byte in bytes.iter_mut() {
        if *byte == b'|' {
            *byte = b'\n';
        }
    }
    Ok(bytes)
}

/// A step that makes a folder or a link, or takes a folder away.
fn arrange(rt: &HostRuntime, word: &str, name: &str, new: &str) -> io::Result<()> {
    match word {
        "dir" => fs::create_dir(rt, name),
        "rmdir" => fs::remove_dir(rt, name),
        "hard" => fs::hard_link(rt, name, new),
        _ => symlink(rt, name, new),
    }
}

/// A step that looks for files, or arranges them.
fn tidy(rt: &HostRuntime, line: &str) -> Result<bool, Fail> {
    let (word, names) = line.split_once(' ').unwrap_or(("", line));
    match word {
        "no" => Ok(are_missing(rt, names)),
        "rm" => remove(rt, names),
        "private" => permit(rt, names, 0o600),
        "public" => permit(rt, names, 0o644),
        "within" => is_within(rt, names),
        _ => {
            let (name, new) = names.split_once(' ').unwrap_or((names, ""));
            arrange(rt, word, name, new)?;
            Ok(true)
        }
    }
}

/// A step that looks at files, or arranges them.
fn look(rt: &HostRuntime, line: &str) -> Result<bool, Fail> {
    if let Some((name, text)) = line.split_once(" = ") {
        return has_bytes(rt, name, text);
    }
    match line.split_once(" has ") {
        Some((name, len)) => has_len(rt, name, len),
        None => tidy(rt, line),
    }
}

/// What image, journal and redo text hold, one behind the other.
fn kept(rt: &HostRuntime) -> Result<Vec<u8>, Fail> {
    let mut all = Vec::new(rt.alloc());
    for name in ["one.img", "one.img.bxj", "one.img.bxj.redo"] {
        all.extend_from_slice(fs::read(rt, name)?.as_slice())?;
    }
    Ok(all)
}

/// Whether the words end so, and image, journal and redo text stay.
fn stays(rt: &HostRuntime, line: &str, wanted: &str) -> Result<bool, Fail> {
    let before = kept(rt)?;
    let right = ends(rt, line, wanted)?;
    Ok(right && kept(rt)?.as_slice() == before.as_slice())
}

fn write(rt: &HostRuntime, name: &str, text: &str) -> Result<bool, Fail> {
    let bytes = told(rt.alloc(), text)?;
    fs::write(rt, name, bytes.as_slice())?;
    Ok(true)
}

/// Whether a step goes as the script tells.
fn step(rt: &HostRuntime, line: &str) -> Result<bool, Fail> {
    if let Some((words, fault)) = line.split_once(" -> ") {
        return ends(rt, words, fault);
    }
    if let Some((words, fault)) = line.split_once(" => ") {
        return stays(rt, words, fault);
    }
    match line.split_once(" := ") {
        Some((name, text)) => write(rt, name, text),
        None => look(rt, line),
    }
}

/// Plays a script.
fn play(abort: &impl Abort, rt: &HostRuntime, name: &str, script: &str) -> Result<(), Fail> {
    for line in script.lines() {
        let right = step(rt, line)?;
        assert!(abort; right, "{name}: {line}");
    }
    Ok(())
}

// Scripts, each with its name.
static ON_FILES: [(&str, &str); 10] = [
    // The input comes first, then the image, then the journal and the redo text; undo, redo and log make no image and no journal,
    // and what was made is taken away where a later file is refused.
    (
        "opens_in_order",
        "\
xxd missing.file -> cannot open file
undo order.img -> cannot open file
redo order.img -> cannot open file
log order.img -> cannot open file
revert -f missing.dump order.img -> cannot open file
no order.img
order.dump := 00000000: 4g|
revert -f order.dump -J no/such/dir order.img -> cannot open file
no order.img
revert -f order.dump order.img -> line 1: bad pair
no order.img order.img.bxj order.img.bxj.redo
rm order.dump",
    ),
    // A command that is refused leaves nothing that it made: neither image nor journal nor redo text. What was there stays.
    (
        "nothing_is_left_behind",
        "\
left.dump := 00000000: 4g|
left.ones := 0: 41|
revert -f left.dump left.img -> line 1: bad pair
dd if=. of=left.img -> read failed
revert -p -f left.dump left.img -> line 1: bad pair
no left.img left.img.bxj left.img.bxj.redo
left.img.bxj := change2 00000001 0000000000000000|save 00000001|done2 00000001 0000000000000008|
revert -f left.ones left.img -> image should have 8 bytes
left.img.bxj := hello|
revert -f left.ones left.img -> journal line 1 is damaged
no left.img left.img.bxj.redo
left.img.bxj = hello|
rm left.img.bxj
left.img.bxj.redo := hello|
revert -f left.ones left.img -> redo line 1 is damaged
no left.img left.img.bxj
left.img.bxj.redo = hello|
rm left.img.bxj.redo
left.img := AB
undo left.img -> cannot open file
left.img.bxj := 
undo left.img -> only 0 changes to undo
redo left.img -> only 0 changes to redo
no left.img.bxj.redo
left.img.bxj has 0
left.img = AB
rm left.img left.img.bxj left.dump left.ones",
    ),
    // An image that a link leads to and that is missing is made, and taken away again where the command is refused. The links stay,
    // and so does what stood behind one. Its texts stand beside the link.
    (
        "links_to_missing_files",
        "\
dir linked
linked.bad := 00000000: 4g|
linked.dump := 0: 41|
soft linked/further linked.img
soft image linked/further
revert -f linked.bad linked.img -> line 1: bad pair
dd if=. of=linked.img -> read failed
no linked/image linked.img.bxj linked.img.bxj.redo
revert -f linked.dump linked.img -> done
linked/image = A
within linked.img.bxj linked/image
linked.img.bxj.redo has 0
undo linked.img -> done
linked/image has 0
linked.img.bxj has 0
rm linked.img.bxj.redo
undo linked.img -> only 0 changes to undo
no linked.img.bxj.redo
linked/image has 0
linked.img.bxj has 0
rm linked.img linked.img.bxj linked/further linked/image linked.bad linked.dump
rmdir linked",
    ),
    // A journal that is a link is refused, whatever the link leads to, and so is a redo text: no file behind it is opened or made. By
    // the name behind it `-J` gives it.
    (
        "texts_are_no_links",
        "\
planted.img := ABCDEFGH
planted.dump := 1: 7a|
planted.far := 
soft planted.far planted.img.bxj
revert -f planted.dump planted.img -> cannot open file
dd if=planted.dump of=planted.img -> cannot open file
undo -k 0 planted.img -> cannot open file
redo -k 0 planted.img -> cannot open file
log planted.img -> cannot open file
show -k 0 planted.img -> cannot open file
planted.far has 0
no planted.img.bxj.redo planted.far.redo
rm planted.far
revert -f planted.dump planted.img -> cannot open file
log planted.img -> cannot open file
revert -f planted.dump planted.new -> done
no planted.far planted.img.bxj.redo
planted.img = ABCDEFGH
rm planted.img.bxj planted.new planted.new.bxj planted.new.bxj.redo
soft planted.far planted.new.bxj
revert -f planted.dump planted.new -> cannot open file
no planted.new planted.far planted.new.bxj.redo
revert -f planted.dump -J planted.far planted.img -> done
planted.img = AzCDEFGH
rm planted.new.bxj planted.far.redo
planted.kept := kept
soft planted.kept planted.far.redo
planted.far := change2 00000001 0000000000000008|
log -J planted.far planted.img -> cannot open file
undo -J planted.far planted.img -> cannot open file
show -k 0 -J planted.far planted.img -> cannot open file
revert -f planted.dump -J planted.far planted.img -> cannot open file
planted.kept = kept
planted.far = change2 00000001 0000000000000008|
rm planted.kept
undo -k 0 -J planted.far planted.img -> cannot open file
no planted.kept
rm planted.far.redo
log -J planted.far planted.img -> done
planted.far has 0
no planted.far.redo
rm planted.img planted.dump planted.far",
    ),
    // A text has one name: by a second one somebody else may have it.
    (
        "texts_have_one_name",
        "\
second.img := ABCDEFGH
second.dump := 1: 7a|
second.text := change2 00000001 0000000000000008|
hard second.text second.img.bxj
revert -f second.dump second.img -> cannot open file
dd if=second.dump of=second.img -> cannot open file
undo -k 0 second.img -> cannot open file
log second.img -> cannot open file
show -k 0 second.img -> cannot open file
revert -f second.dump -J second.img.bxj second.new -> cannot open file
no second.new second.img.bxj.redo
second.text = change2 00000001 0000000000000008|
rm second.text
log second.img -> done
second.img.bxj has 0
second.text := 
hard second.text second.img.bxj.redo
undo -k 0 second.img -> cannot open file
log second.img -> cannot open file
revert -f second.dump second.img -> cannot open file
rm second.text
revert -f second.dump second.img -> done
second.img = AzCDEFGH
rm second.img second.dump second.img.bxj second.img.bxj.redo",
    ),
    // The texts of an image may be read and written by nobody who may not do so with the image. A test can't set the umask.
    (
        "private_image",
        "\
private.img := AB
private private.img
private.dump := 0: 61|
revert -f private.dump private.img -> done
within private.img.bxj private.img
within private.img.bxj.redo private.img
rm private.img private.img.bxj private.img.bxj.redo
revert -f private.dump private.img -> done
within private.img.bxj private.img
within private.img.bxj.redo private.img
private private.img.bxj
rm private.img.bxj.redo
revert -f private.dump private.img -> done
within private.img.bxj.redo private.img
private private.img
private private.img.bxj.redo
public private.img.bxj
revert -f private.dump private.img -> cannot open file
undo private.img -> cannot open file
log private.img -> cannot open file
show private.img -> cannot open file
private private.img.bxj
public private.img.bxj.redo
undo private.img -> cannot open file
private private.img.bxj.redo
undo -k 2 private.img -> done
rm private.img private.img.bxj private.img.bxj.redo private.dump",
    ),
    // Each command that may change an image makes the redo text where it is missing; `log` makes none, an undo of no change keeps none, and where
    // the journal is missing nothing is made.
    (
        "redo_text_is_made",
        "\
made.img := ABCD
made.dump := 0: 61|
undo made.img -> cannot open file
no made.img.bxj.redo
redo made.img -> cannot open file
no made.img.bxj.redo
log made.img -> cannot open file
no made.img.bxj.redo
made.j := 
log -J made.j made.img -> done
no made.j.redo
made.j := change2 00000001 0000000000000004|
log -v -J made.j made.img -> done
made.j has 0
no made.j.redo
undo -k 0 -J made.j made.img -> done
no made.j.redo
redo -k 0 -J made.j made.img -> done
made.j.redo has 0
rm made.j.redo
revert -f made.dump -J made.j made.img -> done
made.j.redo has 0
rm made.j.redo
dd if=made.dump of=made.img -J made.j -> done
made.j.redo has 0
rm made.j.redo made.img made.dump made.j",
    ),
    // A change that was stopped is taken back first.
    (
        "patch_and_undo",
        "\
patch.img := ABCDEFGH
patch.dump := 00000002: 7879|
revert -f patch.dump patch.img -> done
patch.img = ABxyEFGH
patch.img.bxj = change2 00000001 0000000000000008|00000002: 4344                                     CD|save 00000001|done2 00000001 0000000000000008|
log patch.img -> done
patch.img.bxj := change2 00000001 0000000000000008|00000002: 4344                                     CD|save 00000001|
undo patch.img -> only 0 changes to undo
patch.img = ABCDEFGH
patch.img.bxj has 0
revert -f patch.dump patch.img -> done
undo patch.img -> done
patch.img = ABCDEFGH
patch.img.bxj has 0
patch.img.bxj.redo has 134
redo patch.img -> done
patch.img = ABxyEFGH
patch.img.bxj = change2 00000001 0000000000000008|00000002: 4344                                     CD|save 00000001|done2 00000001 0000000000000008|
patch.img.bxj.redo has 0
redo patch.img -> only 0 changes to redo
undo -U patch.img -> done
patch.img = ABCDEFGH
redo -U patch.img -> done
log -U patch.img -> done
revert -U -f patch.dump ./patch.img -> done
undo -U -k 2 patch.img -> done
patch.img = ABCDEFGH
rm patch.img patch.img.bxj patch.img.bxj.redo patch.dump",
    ),
    // The input is opened before anything is made, and read whole before the image is written: they may be one file.
    (
        "dd_onto_files",
        "\
dd if=missing.file of=onto.img -> cannot open file
no onto.img
onto.in := xy
dd if=onto.in of=onto.img -J no/such/dir -> cannot open file
no onto.img
onto.img := 0123456789
dd if=onto.in of=onto.img obs=4 seek=1 -> done
onto.img = 0123xy
onto.img.bxj = change2 00000001 000000000000000a|00000004: 3435 3637 3839                           456789|save 00000001|done2 00000001 0000000000000006|
undo onto.img -> done
onto.img = 0123456789
dd if=onto.img of=onto.img conv=notrunc,swab bs=4 seek=1 -> done
onto.img = 01231032547698
undo onto.img -> done
onto.img = 0123456789
onto.img.bxj has 0
dd if=onto.in of=onto.img conv=notrunc -U -> done
onto.img = xy23456789
rm onto.img onto.img.bxj onto.img.bxj.redo onto.in",
    ),
    (
        "dd_to_standard_output",
        "\
dd if=missing.file seek=1 -> cannot open file
stream.in := xy|
dd if=stream.in seek=1 -> seek needs an output file
dd if=stream.in -J stream.in count=1 -> done
stream.in has 3
rm stream.in",
    ),
];

#[test]
fn jobs_on_files(rt: HostRuntime) -> Result<(), Fail> {
    for (name, script) in &ON_FILES {
        play(&rt, &rt, name, script)?;
    }
    Ok(())
}

/// An image that a change of eight bytes stopped on before its last line, its journal, and a redo text of eight bytes.
const BEGUN: &str = "\
one.img := ABxyEFGH
one.img.bxj := change2 00000001 0000000000000008|00000002: 4344                                     CD|save 00000001|
one.img.bxj.redo := change2 00000001 0000000000000008|00000001: 7a                                       z|save 00000001|done2 00000001 0000000000000008|
one.dump := 00000001: 7a|";

const NO_MORE: &str = "rm one.img one.img.bxj one.img.bxj.redo one.dump";

/// Plays a script on these files, and takes them away.
fn play_on(abort: &impl Abort, rt: &HostRuntime, name: &str, script: &str) -> Result<(), Fail> {
    play(abort, rt, name, BEGUN)?;
    play(abort, rt, name, script)?;
    play(abort, rt, name, NO_MORE)
}

// Scripts on these files, each with its name.
static ON_ONE: [(&str, &str); 6] = [
    // What is unfinished stays so.
    (
        "show_writes_to_no_file",
        "\
show one.img => only 0 changes to undo
show -k 0 one.img => done
show -r one.img => only 0 changes to redo
show -r -k 0 one.img => done
log one.img -> done
show one.img => only 0 changes to undo
show -r one.img => only 0 changes to redo
revert -f one.dump one.img -> done
show one.img => done
show -d one.img => done
show -k 2 one.img => only 1 changes to undo
undo one.img -> done
show -r one.img => done
show -d -r one.img => done
show -r -k 2 one.img => only 1 changes to redo
rm one.img.bxj.redo
show -k 0 one.img -> done
no one.img.bxj.redo
show -J one.dump one.img -> journal line 1 is damaged
revert -f one.dump one.img -> done
show -J missing.j one.img -> cannot open file
no missing.j missing.j.redo",
    ),
    // Under whatever names: the image as its own journal is no journal. This image is a journal of a change that was stopped.
    (
        "one_file_by_two_names",
        "\
one.img := change2 00000001 0000000000000008|00000002: 4344                                     CD|save 00000001|
hard one.img one.hard
soft one.img one.soft
log -J ./one.img one.img => cannot open file
log -J one.hard one.img => cannot open file
log -J one.soft one.img => cannot open file
undo -J one.img one.soft => cannot open file
redo -J one.hard one.img => cannot open file
undo -k 0 -J one.soft one.hard => cannot open file
revert -f one.dump -J one.hard one.img => cannot open file
dd if=one.dump of=one.img -J one.soft => cannot open file
revert -f one.dump -J ./new.img new.img => cannot open file
no new.img
rm one.hard one.soft",
    ),
    // A folder and a character device are neither image nor journal, and nothing is made beside them.
    (
        "only_files_are_changed",
        "\
dir one.dir
revert -f one.dump one.dir => cannot open file
dd if=one.dump of=one.dir -J other.bxj => cannot open file
undo -J one.img.bxj one.dir => cannot open file
redo -J one.img.bxj one.dir => cannot open file
log -J one.img.bxj /dev/null => cannot open file
dd if=one.dump of=/dev/null -J other.bxj => cannot open file
revert -f one.dump -J one.dir one.img => cannot open file
undo -J /dev/null one.img => cannot open file
log -J one.dir one.img => cannot open file
revert -f one.dump -J /dev/null other.img => cannot open file
dd if=one.dump of=other.img -J one.dir => cannot open file
dd if=one.dump of=/dev/one.img -J other.bxj => cannot open file
revert -f one.dump -J /dev/one.bxj one.img => cannot open file
no one.dir.bxj other.bxj other.img /dev/one.img /dev/one.bxj
rmdir one.dir",
    ),
    // The redo text under a name that is another file's, or that is no file: nothing is opened that would be changed, and what was
    // made is taken away.
    (
        "only_files_of_their_own_are_redo_texts",
        "\
dir dir.redo
soft /dev/null null.redo
hard one.img hard.redo
soft := change2 00000001 0000000000000008|00000002: 4344                                     CD|save 00000001|
soft soft own.redo
hard soft own
revert -f one.dump -J dir one.img => cannot open file
dd if=one.dump of=other.img -J dir => cannot open file
revert -f one.dump -J null other.img => cannot open file
dd if=one.dump of=one.img -J hard => cannot open file
revert -f one.dump -J hard one.img => cannot open file
log -J own one.img => cannot open file
undo -J own one.img => cannot open file
redo -J own one.img => cannot open file
soft = change2 00000001 0000000000000008|00000002: 4344                                     CD|save 00000001|
rmdir dir.redo
no dir null hard other.img
rm null.redo hard.redo soft own.redo own",
    ),
    // A journal without changes of an image of two bytes, and beside it a redo text that is none of it.
    (
        "foreign_redo_texts",
        "\
one.img := AB
one.img.bxj := 
one.img.bxj.redo := hello|
log one.img => redo line 1 is damaged
undo -k 0 one.img => redo line 1 is damaged
redo -k 0 one.img => redo line 1 is damaged
revert -f one.dump one.img => redo line 1 is damaged
dd if=one.dump of=one.img => redo line 1 is damaged
one.img.bxj.redo := change2 00000001 0000000000000008|00000001: 7a                                       z|save 00000001|done2 00000001 0000000000000008|
log one.img => redo line 4 is damaged
undo -k 0 one.img => redo line 4 is damaged
redo -k 0 one.img => redo line 4 is damaged
revert -f one.dump one.img => redo line 4 is damaged
dd if=one.dump of=one.img => redo line 4 is damaged
one.img.bxj.redo := change2 00000001 0000000000000008|00000002: 4344                                     CD|save 00000001|
log one.img => redo line 1 is damaged
undo -k 0 one.img => redo line 1 is damaged
redo -k 0 one.img => redo line 1 is damaged
revert -f one.dump one.img => redo line 1 is damaged
dd if=one.dump of=one.img => redo line 1 is damaged",
    ),
    // A link that leads to a file is that file, and the journal stands beside the link.
    (
        "image_by_a_link",
        "\
soft one.img link
revert -f one.dump link -> done
one.img = AzxyEFGH
undo link -> done
one.img = ABxyEFGH
one.img.bxj = change2 00000001 0000000000000008|00000002: 4344                                     CD|save 00000001|
rm link link.bxj link.bxj.redo",
    ),
];

#[test]
fn jobs_on_one_image(rt: HostRuntime) -> Result<(), Fail> {
    for (name, script) in &ON_ONE {
        play_on(&rt, &rt, name, script)?;
    }
    Ok(())
}

// A file that another program has locked.
fn locked(abort: &impl Abort, rt: &HostRuntime, name: &str) -> Result<File, Fail> {
    let file = File::open(rt, name)?;
    assert!(abort; file.try_lock().is_ok());
    Ok(file)
}

// Plays a script while another program holds the files.
fn play_beside(abort: &impl Abort, rt: &HostRuntime, script: &str) -> Result<(), Fail> {
    let held = (
        locked(abort, rt, "one.img")?,
        locked(abort, rt, "one.img.bxj")?,
        locked(abort, rt, "one.img.bxj.redo")?,
    );
    play(abort, rt, "two sessions", script)?;
    drop(held);
    Ok(())
}

// What an earlier session holds. The later one is refused, whatever it would do, and recovers nothing.
#[test]
fn two_sessions_at_once(rt: HostRuntime) -> Result<(), Fail> {
    play(&rt, &rt, "before", BEGUN)?;
    play_beside(
        &rt,
        &rt,
        "\
revert -f one.dump one.img => cannot open file
dd if=one.dump of=one.img => cannot open file
undo one.img => cannot open file
redo one.img => cannot open file
log one.img => cannot open file
revert -f one.dump -J other.bxj one.img => cannot open file
revert -f one.dump -J one.img.bxj other.img => cannot open file
revert -f one.dump -J one.img.bxj.redo other.img => cannot open file
no other.bxj other.bxj.redo other.img one.img.bxj.redo.redo",
    )?;
    play(&rt, &rt, "behind", NO_MORE)
}
