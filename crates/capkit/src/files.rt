//! The names of the inputs of a command that has several, and copies of names.
ghost use Rattle.std.specs.Prelude.{◌≡◌, ◌∷◌, ◌+◌, ◌++◌, [], IfOk, IfErr, OnOk, None, length, map};
ghost use Rattle.std.specs.Prelude.{option_map, string_bytes, true, vec_len};
ghost use Rattle.clap.specs.Words.{found_of, rows_of};
ghost use Rattle.cap_command.specs.Command.{is_input_count};
ghost use Rattle.capkit.specs.Line.{files_fault, files_in, IsUsageOf};

use crate::ids;
use crate::names::uses_name_twice;
use crate::usage::Usage;
use crate::values::{text, texts};
use cap_command::MOST_INPUTS;
use clap::ArgMatches;
use std::alloc::{AllocError, Global};

/// Adds a copy of the text, which owns its bytes, after the texts. An error means that memory ran
/// out.
pub fn push_copy(alloc: Global, texts: &mut Vec<String>, text: &str) -> Result<(), AllocError>
    ensures texts { OnOk result (map string_bytes texts.new.items
        ≡ map string_bytes texts.old.items ++ text.now ∷ []) }
    ensures count { OnOk result (vec_len texts.new ≡ vec_len texts.old + 1) }
{
    texts.push(String::from_str(alloc, text)?)?;
    Ok(())
}

/// Copies of texts, the first and then `more`, which own their bytes, since a line outlives the
/// words that it was read from. An error means that memory ran out.
pub fn copies_of_texts(alloc: Global, first: &str, more: &[&str]) -> Result<Vec<String>, AllocError>
    ensures texts { IfOk result (λ owned.
        map string_bytes owned.items ≡ first.now ∷ map (λ name. name.now) more.now) }
    ensures count { IfOk result (λ owned. vec_len owned ≡ length more.now + 1) }
{
    let mut owned = Vec::new(alloc);
    push_copy(alloc, &mut owned, first)?;
    for name in more {
        push_copy(alloc, &mut owned, name)?;
    }
    Ok(owned)
}

/// Copies of the names of a command's inputs: at least one, since clap refuses a line without any.
/// `output` is the name of its output, if it has one. An error is that memory ran out, or else the
/// first of these: there are more than `MOST_INPUTS` inputs (`TooManyValues`), or a name is used
/// twice (`NameUsedTwice`).
pub fn input_names(
    alloc: Global,
    matches: &ArgMatches<'_>,
    output: Option<&str>,
) -> Result<Vec<String>, Usage>
    ensures names { IfOk result (λ inputs. map string_bytes inputs.items
        ≡ files_in (rows_of (found_of matches.now))) }
    ensures count { IfOk result (λ inputs. is_input_count (vec_len inputs) ≡ true) }
    ensures faultless { OnOk result (files_fault (files_in (rows_of (found_of matches.now)))
        (option_map (λ name. name.now) output.entry) ≡ None) }
    ensures fault { IfErr result (IsUsageOf (files_fault (files_in (rows_of (found_of matches.now)))
        (option_map (λ name. name.now) output.entry))) }
{
    let first = text(matches, ids::FILE);
    let more = texts(matches, ids::MORE);
    if more.len() >= MOST_INPUTS {
        return Err(Usage::TooManyValues);
    }
    if uses_name_twice(first, more, output) {
        return Err(Usage::NameUsedTwice);
    }
    let inputs = copies_of_texts(alloc, first, more)?;
    Ok(inputs)
}
