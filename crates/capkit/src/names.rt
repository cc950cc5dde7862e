//! Names of inputs and outputs: which are standard streams, and which are used twice.
ghost use Rattle.std.specs.{Str.bytes_eq, List.list_any};
ghost use Rattle.std.specs.Prelude.{◌≡◌, ◌∷◌, count_by, map, nat_lt, option_map};
ghost use Rattle.capkit.specs.Names.{is_standard, uses_name_twice};

/// The name of a standard stream: input if it is read, output if it is written.
pub const STANDARD: &str = "-";

/// Whether one of the names is `wanted`.
fn is_among(names: &[&str], wanted: &str) -> bool
    ensures { result ≡ list_any (λ name. bytes_eq name wanted.now)
        (map (λ name. name.now) names.now) }
{
    names.contains(&wanted)
}

/// How many of the names are those of a standard stream.
fn standard_stream_count(names: &[&str]) -> usize
    ensures { result ≡ count_by is_standard (map (λ name. name.now) names.now) }
{
    let mut count = 0;
    for name in names {
        if *name == STANDARD {
            count += 1;
        }
    }
    count
}

/// Whether standard input is two of the names, which are the first and `more`.
fn reads_standard_twice(first: &str, more: &[&str]) -> bool
    ensures { result ≡ nat_lt 1 (count_by is_standard
        (first.now ∷ map (λ name. name.now) more.now)) }
{
    if first == STANDARD {
        standard_stream_count(more) > 0
    } else {
        standard_stream_count(more) > 1
    }
}

/// Whether the output, unless it is standard output, is an input too, the first or one of `more`,
/// or standard input is two inputs. Names are compared as they are written; that two may lead to
/// one file is seen by `overwrites_input`.
pub fn uses_name_twice(first: &str, more: &[&str], output: Option<&str>) -> bool
    ensures { result ≡ uses_name_twice (first.now ∷ map (λ name. name.now) more.now)
        (option_map (λ name. name.now) output.entry) }
{
    match output {
        Some(name) if name != STANDARD && (name == first || is_among(more, name)) => true,
        _ => reads_standard_twice(first, more),
    }
}
