//! The value of an argument in clap's matches, by its id: a flag, texts, or what a text names.
ghost use Rattle.std.specs.Prelude.{◌≡◌, ◌≤◌, ◌&&◌, IfSome, Some, None, is_some, map, nat_le};
ghost use Rattle.std.specs.Prelude.{option_map, true, if◌then◌else◌};
ghost use Rattle.std.specs.Option.{option_and_then, option_map_or};
ghost use Rattle.cap_command.specs.Command.{is_time};
ghost use Rattle.clap.specs.Words.{found_of, rows_of, first_of};
ghost use Rattle.capkit.specs.Line.{flag_in, format_in, link_in, argument_number, duration_in};
ghost use Rattle.capkit.specs.Line.{text_in, texts_in, time_in};

use cap_octet::{Format, Link, span_of, time_of};
use clap::ArgMatches;

/// Whether the flag of this id is set; false if it isn't given.
pub fn flag(matches: &ArgMatches<'_>, id: &str) -> bool
    ensures { result ≡ flag_in id.now (rows_of (found_of matches.now)) }
{
    matches.get_one::<bool>(id).unwrap_or(false)
}

/// The first value of the argument of this id; `None` if it isn't given.
#[tactic(auto, using(crate::proofs::Getters::reads))]
pub fn optional_text<'a>(matches: &ArgMatches<'a>, id: &str) -> Option<&'a str>
    ensures { option_map (λ text. text.now) result
        ≡ first_of id.entry.now (rows_of (found_of matches.entry.now)) }
{
    matches.get_str(id)
}

/// Whether the argument of this id has a value.
pub fn is_given(matches: &ArgMatches<'_>, id: &str) -> bool
    ensures { result ≡ is_some (first_of id.now (rows_of (found_of matches.now))) }
{
    optional_text(matches, id).is_some()
}

/// The first value of an argument that its command needs, so that clap has it; for another one the
/// empty text if it isn't given.
pub fn text<'a>(matches: &ArgMatches<'a>, id: &str) -> &'a str
    ensures { result.now ≡ text_in id.entry.now (rows_of (found_of matches.entry.now)) }
{
    optional_text(matches, id).unwrap_or_default()
}

/// All values of the argument, in order; none if it isn't given.
#[tactic(auto, using(crate::proofs::Getters::reads))]
pub fn texts<'m, 'a>(matches: &'m ArgMatches<'a>, id: &str) -> &'m [&'a str]
    ensures { map (λ text. text.now) result.now
        ≡ texts_in id.entry.now (rows_of (found_of matches.entry.now)) }
{
    matches.get_strs(id).unwrap_or_default()
}

/// The format that the argument names, or pcapng if it isn't given; clap takes no other names
/// than those of formats.
pub fn format(matches: &ArgMatches<'_>, id: &str) -> Format
    ensures { result ≡ format_in id.entry.now (rows_of (found_of matches.entry.now)) }
{
    match optional_text(matches, id) {
        Some(name) => Format::of_name(name).unwrap_or(Format::Pcapng),
        None => Format::Pcapng,
    }
}

/// The link that the argument names, or Ethernet if it isn't given; clap takes no other names
/// than those of links.
pub fn link(matches: &ArgMatches<'_>, id: &str) -> Link
    ensures { result ≡ link_in id.entry.now (rows_of (found_of matches.entry.now)) }
{
    match optional_text(matches, id) {
        Some(name) => Link::of_name(name).unwrap_or(Link::Ether),
        None => Link::Ether,
    }
}

/// The number, if it is one from `least` to `most`. clap has made the same test, by the row of the
/// argument; here it is made so that the contract knows the bounds.
fn number_within(number: Option<u64>, least: u64, most: u64) -> Option<u64>
    ensures value { result ≡ option_and_then
        (λ n. if nat_le least n && nat_le n most then Some n else None) number }
    ensures bounds { IfSome result (λ n. (least ≤ n) × (n ≤ most)) }
{
    match number {
        Some(number) if least <= number && number <= most => Some(number),
        _ => None,
    }
}

/// The number that the argument has; `None` if it isn't given. clap takes only numbers from
/// `least` to `most`.
pub fn number(matches: &ArgMatches<'_>, id: &str, least: u64, most: u64) -> Option<u64>
    ensures value { result ≡ argument_number least most id.now (rows_of (found_of matches.now)) }
    ensures bounds { IfSome result (λ n. (least ≤ n) × (n ≤ most)) }
{
    number_within(matches.get_one::<u64>(id), least, most)
}

/// The number that the argument has, as `number` gives it, if its bounds are of 32 bits.
pub fn number_u32(matches: &ArgMatches<'_>, id: &str, least: u32, most: u32) -> Option<u32>
    ensures value { result ≡ argument_number least most id.now (rows_of (found_of matches.now)) }
    ensures bounds { IfSome result (λ n. (least ≤ n) × (n ≤ most)) }
{
    match number(matches, id, least as u64, most as u64) {
        Some(number) => Some(number as u32),
        None => None,
    }
}

/// The time that the argument names, in nanoseconds since 1970-01-01 00:00:00 UTC. `None` if it
/// isn't given, or its text isn't a time.
pub fn time(matches: &ArgMatches<'_>, id: &str) -> Option<u64>
    ensures value { result ≡ time_in id.now (rows_of (found_of matches.now)) }
    ensures proper { option_map_or is_time result true ≡ true }
{
    match optional_text(matches, id) {
        Some(text) => time_of(text),
        None => None,
    }
}

/// The duration that the argument names as a number of seconds, in nanoseconds. `None` if it
/// isn't given, or its text isn't a number of seconds.
pub fn duration(matches: &ArgMatches<'_>, id: &str) -> Option<u64>
    ensures value { result ≡ duration_in id.now (rows_of (found_of matches.now)) }
    ensures proper { option_map_or is_time result true ≡ true }
{
    match optional_text(matches, id) {
        Some(text) => span_of(text),
        None => None,
    }
}
