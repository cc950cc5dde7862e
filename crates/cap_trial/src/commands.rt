//! The command of a line and its names over other memory, such as an allocator that fails.

use cap_command::{Command, Compile, Print};
use capkit::Line;
use std::alloc::{AllocError, Allocator};

/// The command of the line over other memory, with these bytes as its listing if it names one.
pub fn command_over<A: Allocator + Copy + Drop>(
    memory: A,
    line: &Line,
    listing: &[u8],
) -> Result<Command<A>, AllocError> {
    match &line.command {
        Command::Edit(edit) => {
            let ranges = Vec::from_slice(memory, &edit.ranges)?;
            Ok(Command::Edit(edit.with_ranges(ranges)))
        }
        Command::Merge(merge) => Ok(Command::Merge(*merge)),
        Command::Infos => Ok(Command::Infos),
        Command::Print(print) => {
            let code = match &line.code {
                Some(_) => Some(Vec::from_slice(memory, listing)?),
                None => None,
            };
            let expr = String::from_str(memory, &print.expr)?;
            Ok(Command::Print(Print {
                expr,
                code,
                count: print.count,
                link: print.link,
                bytes: print.bytes,
                write: print.write,
            }))
        }
        Command::Compile(compile) => {
            let expr = String::from_str(memory, &compile.expr)?;
            let link = compile.link;
            Ok(Command::Compile(Compile { expr, link }))
        }
    }
}

/// The name of the line's output.
pub fn output_name(line: &Line) -> &str {
    match &line.output {
        Some(name) => name,
        None => "-",
    }
}

/// The names of the line's inputs and then of its output, over other memory.
pub fn names_over<A: Allocator + Copy + Drop>(
    memory: A,
    line: &Line,
) -> Result<Vec<String<A>, A>, AllocError> {
    let mut names = Vec::with_capacity(memory, line.inputs.len().saturating_add(1))?;
    for name in line.inputs.iter() {
        names.push(String::from_str(memory, name)?)?;
    }
    names.push(String::from_str(memory, output_name(line))?)?;
    Ok(names)
}
