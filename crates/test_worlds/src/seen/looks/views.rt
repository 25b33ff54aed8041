//! The looks that a case tells, as a program asks for them.
use crate::report::Wrong;
use crate::seen::asked::Asked;
use crate::seen::told::Told;
use bx_journal::{Direction, Steps};
use std::alloc::{AllocError, Global};
use test_case_files::{Look, LooksCase, Shows};

/// A look: its words, what is asked, and what has to come of it.
#[derive(Drop)]
pub struct View<'a> {
    pub name: String,
    pub asked: Asked<'a>,
    pub told: Told<'a>,
}

/// The log: of each line of the one with ranges its number, the length before it, and how many bytes it saved.
pub fn log_of(alloc: Global, case: &LooksCase) -> Result<Vec<u8>, AllocError> {
    let mut log = Vec::new(alloc);
    let Some(ranges) = &case.ranges else {
        return Ok(log);
    };
    let mut word = 0u32;
    for byte in ranges {
        match *byte {
            b'\n' => word = 0,
            b' ' => word = word.saturating_add(1),
            _ => {}
        }
        if word < 2 || word == 3 {
            log.push(*byte)?;
        }
    }
    Ok(log)
}

/// What has to come of an opening that finds more than finished entries: the fault of the first look, or something is unfinished.
fn told_by_opening(case: &LooksCase) -> Result<Told<'_>, Wrong> {
    let Some(look) = case.looks.first() else {
        return Err(Wrong::Unknown);
    };
    match &look.shows {
        Shows::Refused(text) => Ok(Told::Fault(text.as_str())),
        Shows::Text { .. } => Ok(Told::Unfinished),
    }
}

/// Adds a look.
fn push<'a>(
    views: &mut Vec<View<'a>>,
    name: String,
    asked: Asked<'a>,
    told: Told<'a>,
) -> Result<(), AllocError> {
    views.push(View { name, asked, told })?;
    Ok(())
}

/// The two logs.
fn push_logs<'a>(
    alloc: Global,
    case: &'a LooksCase,
    log: &'a [u8],
    views: &mut Vec<View<'a>>,
) -> Result<(), Wrong> {
    let (of_log, of_ranges) = match &case.ranges {
        Some(ranges) => (Told::Text(log, None), Told::Text(ranges.as_slice(), None)),
        None => (told_by_opening(case)?, told_by_opening(case)?),
    };
    push(views, String::from_str(alloc, "log")?, Asked::Log, of_log)?;
    push(
        views,
        String::from_str(alloc, "log -v")?,
        Asked::Ranges,
        of_ranges,
    )?;
    Ok(())
}

/// What a look has to write, beside what the image has or without that.
fn told_of(look: &Look, compares: bool) -> Told<'_> {
    match &look.shows {
        Shows::Refused(text) => Told::Fault(text.as_str()),
        Shows::Text {
            compared: Some(text),
            ..
        } if compares => Told::Text(text.as_slice(), None),
        Shows::Text { plain, .. } => Told::Text(plain.as_slice(), None),
    }
}

/// Whether something is unfinished.
fn is_unfinished(case: &LooksCase) -> Result<bool, Wrong> {
    let told = told_by_opening(case)?;
    Ok(case.ranges.is_none() && matches!(told, Told::Unfinished))
}

/// A look. Where something is unfinished it is refused, and asked for again of that.
fn push_look<'a>(
    alloc: Global,
    case: &'a LooksCase,
    look: &'a Look,
    compares: bool,
    views: &mut Vec<View<'a>>,
) -> Result<(), Wrong> {
    let count = look.count;
    let (way, of_way) = if look.is_redo {
        (Direction::Redo, " -r")
    } else {
        (Direction::Undo, "")
    };
    let beside = if compares { " -d" } else { "" };
    let steps = Steps {
        way,
        count,
        changes: 0,
        compares,
    };
    let told = told_of(look, compares);
    let name = format!(in alloc; "show{of_way} -k {count}{beside}")?;
    let asked = Asked::Steps(steps);
    if !is_unfinished(case)? {
        push(views, name, asked, told)?;
        return Ok(());
    }
    let again = format!(in alloc; "{name}, unfinished")?;
    push(views, name, asked, Told::Unfinished)?;
    push(views, again, Asked::Unfinished(steps), told)?;
    Ok(())
}

/// Whether a case has a look also beside what the image has: a fault is the same.
fn is_compared(look: &Look) -> bool {
    match &look.shows {
        Shows::Refused(_) => true,
        Shows::Text { compared, .. } => compared.is_some(),
    }
}

/// The looks of a case, which has this log.
pub fn views_of<'a>(
    alloc: Global,
    case: &'a LooksCase,
    log: &'a [u8],
) -> Result<Vec<View<'a>>, Wrong> {
    let mut views = Vec::new(alloc);
    push_logs(alloc, case, log, &mut views)?;
    for look in &case.looks {
        push_look(alloc, case, look, false, &mut views)?;
        if is_compared(look) {
            push_look(alloc, case, look, true, &mut views)?;
        }
    }
    Ok(views)
}
