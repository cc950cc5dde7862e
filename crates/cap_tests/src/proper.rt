//! Which commands are proper: what the command line never gives is refused too.

use crate::words::line_of;
use cap_command::{Command, Edit, Print, Shift};
use cap_octet::Format;
use capkit::Line;
use std::alloc::Global;
use std::process::Abort;
use std::test::Fail;

/// 2^63.
const END: u64 = 9_223_372_036_854_775_808;

/// A field of an edit, its value, and whether the edit is proper: each limit from both sides.
const EDITS: &[(&str, u64, bool)] = &[
    ("nothing", 0, true),
    ("first", 0, false),
    ("first", 2, false),
    ("last", END - 1, true),
    ("last", END, false),
    ("start", END - 1, true),
    ("start", END, false),
    ("stop", END - 1, true),
    ("stop", END, false),
    ("snap", 1, true),
    ("snap", 0, false),
    ("later", END - 1, true),
    ("later", END, false),
    ("earlier", END - 1, true),
    ("earlier", END, false),
    ("window", 2, true),
    ("window", 1_000_000, true),
    ("window", 1, false),
    ("window", 1_000_001, false),
];

/// Gives a field of an edit this value; `first` and `last` are of the range from 1 to 1.
fn set(edit: &mut Edit, field: &str, value: u64) -> Result<(), Fail> {
    match field {
        "first" => edit.ranges.push((value, 1))?,
        "last" => edit.ranges.push((1, value))?,
        "start" => edit.start = Some(value),
        "stop" => edit.stop = Some(value),
        "snap" => edit.snap = Some(u32::try_from(value)?),
        "later" => edit.shift = Shift::Later(value),
        "earlier" => edit.shift = Shift::Earlier(value),
        "window" => edit.window = Some(u32::try_from(value)?),
        _ => {}
    }
    Ok(())
}

/// A row of the next table.
type Row = (&'static str, bool, bool, bool);

/// Lines, and whether they are proper with a listing of no bytes, if the row says so, and written
/// packets, if it says so.
const PRINTS: &[Row] = &[
    ("print in", false, false, true),
    ("print -c 1 -e -x in ip", false, false, true),
    ("print -e -x in", true, false, true),
    ("print in ip", true, false, false),
    ("print in ip", false, true, true),
    ("print -e in ip", false, true, false),
    ("print -x in ip", false, true, false),
];

/// Adds these to a print.
fn add(print: &mut Print, has_code: bool, writes: bool, alloc: Global) {
    if has_code {
        print.code = Some(Vec::new(alloc));
    }
    if writes {
        print.write = Some(Format::Pcap);
    }
}

/// The command that these words ask for.
fn command_of(alloc: Global, words: &str) -> Result<Command, Fail> {
    let Line { command, .. } = line_of(alloc, words)?;
    Ok(command)
}

/// Whether the command is proper with one input, or isn't, and never with none or two.
fn is_of_one(command: &Command, is_proper: bool) -> bool {
    command.is_proper(1) == is_proper && !command.is_proper(0) && !command.is_proper(2)
}

/// Whether an edit with this value in a field is proper, or isn't.
fn edit_is(alloc: Global, (field, value, is_proper): (&str, u64, bool)) -> Result<bool, Fail> {
    let mut command = command_of(alloc, "edit in out")?;
    if let Command::Edit(edit) = &mut command {
        set(edit, field, value)?;
    }
    Ok(is_of_one(&command, is_proper))
}

/// Asserts it of each edit.
fn assert_edits(rt: &(impl Abort + AllocGlobal)) -> Result<(), Fail> {
    for row in EDITS {
        assert!(rt; edit_is(rt.alloc(), *row)?, "{} {}", row.0, row.1);
    }
    Ok(())
}

/// Whether the print that a row asks for is proper, or isn't.
fn print_is(alloc: Global, (words, has_code, writes, is_proper): Row) -> Result<bool, Fail> {
    let mut command = command_of(alloc, words)?;
    if let Command::Print(print) = &mut command {
        add(print, has_code, writes, alloc);
    }
    Ok(is_of_one(&command, is_proper))
}

/// Asserts it of each print.
fn assert_prints(rt: &(impl Abort + AllocGlobal)) -> Result<(), Fail> {
    for row in PRINTS {
        assert!(rt; print_is(rt.alloc(), *row)?, "{}", row.0);
    }
    Ok(())
}

/// Whether a print of no packets is proper.
fn prints_nothing(alloc: Global) -> Result<bool, Fail> {
    let mut command = command_of(alloc, "print in")?;
    if let Command::Print(print) = &mut command {
        print.count = Some(0);
    }
    Ok(command.is_proper(1))
}

/// Words, and the least and the most inputs that their commands have.
const INPUTS: &[(&str, usize, usize)] = &[
    ("merge -w out in", 1, 256),
    ("infos in", 1, 256),
    ("compile", 0, 0),
];

/// Whether a row's command is proper with as many inputs as it says, and with no more or fewer.
fn has_inputs(alloc: Global, (words, least, most): (&str, usize, usize)) -> Result<bool, Fail> {
    let command = command_of(alloc, words)?;
    let refuses_fewer = least == 0 || !command.is_proper(least.saturating_sub(1));
    let refuses_more = !command.is_proper(most.saturating_add(1));
    Ok(command.is_proper(least) && command.is_proper(most) && refuses_fewer && refuses_more)
}

#[test]
fn proper_commands(rt: HostRuntime) -> Result<(), Fail> {
    assert_edits(&rt)?;
    assert_prints(&rt)?;
    assert!(rt; !prints_nothing(rt.alloc())?);
    for row in INPUTS {
        assert!(rt; has_inputs(rt.alloc(), *row)?, "{}", row.0);
    }
    Ok(())
}
