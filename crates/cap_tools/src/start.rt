//! What a command asks of its job, and what the job does before its first packet.
ghost use Rattle.std.specs.Option.{option_map};
ghost use Rattle.std.specs.Prelude.{◌≡◌, [], IfErr, IfOk, None, Some, false, string_bytes};
ghost use Rattle.cap_command.specs.Command.{listing_of};
ghost use Rattle.cap_filter.specs.FilterRules.{IsRule, IsWhy};
ghost use Rattle.cap_filter.specs.Filters.{AreNew, programs_of, rule_of};
ghost use Rattle.cap_process.specs.Selector.{HavePrograms, policy_of, programs_in};
ghost use Rattle.cap_io.specs.Sequence.{order_of};
ghost use Rattle.cap_tools.specs.Start.{assignment, lines_unless, preparing_of};

use cap_command::{Command, Compile, Print};
use cap_filter::filter::{Filter, Refusal, filter_of_listing, filter_of_words};
use cap_print::Options;
use cap_process::{Policy, Writing};
use std::alloc::Allocator;

/// What a job does before its first packet.
#[derive(Drop)]
pub enum Preparation<A: Allocator> {
    /// Reads the filter of a print, its words or its listing.
    Filter(Print<A>),
    /// Compiles an expression and writes its listing, and nothing else.
    Listing(Compile<A>),
}

/// What a command asks of its job.
#[derive(Drop)]
pub struct Assignment<A: Allocator> {
    /// What is done before the first packet, if anything is.
    pub preparation: Option<Preparation<A>>,
    /// How packets are selected, unless a preparation reads the filter for that.
    pub policy: Policy<A>,
    /// What is written: a capture, lines or a text.
    pub writing: Writing,
    /// Whether the inputs are merged by the times of their packets; else they are read one after
    /// another.
    pub merges: bool,
}

/// What a print writes: packets in a format if there is one, else their lines.
fn writing_of<A: Allocator>(print: &Print<A>) -> Writing
    ensures { result ≡ lines_unless print.now.write (record {
      link = print.now.link;
      bytes = print.now.bytes;
    }) }
{
    match print.write {
        Some(format) => Writing::Capture(format),
        None => Writing::Lines(Options {
            link: print.link,
            bytes: print.bytes,
        }),
    }
}

/// The assignment of a command that prepares nothing: packets are judged by this policy from the
/// first step on.
fn without_preparation<A: Allocator>(
    policy: Policy<A>,
    writing: Writing,
    merges: bool,
) -> Assignment<A>
    ensures preparing { result.preparation ≡ None }
    ensures policy { result.policy ≡ policy }
    ensures writing { result.writing ≡ writing }
    ensures merges { result.merges ≡ merges }
{
    Assignment {
        preparation: None,
        policy,
        writing,
        merges,
    }
}

/// The assignment of a command that reads a filter or compiles first. By the policy here no packet
/// is judged: the filter takes its place, and a compilation has no packets.
fn with_preparation<A: Allocator>(preparation: Preparation<A>, writing: Writing) -> Assignment<A>
    ensures preparing { result.preparation ≡ Some preparation }
    ensures policy { result.policy ≡ Policy.KeepAll }
    ensures writing { result.writing ≡ writing }
    ensures merges { result.merges ≡ false }
{
    Assignment {
        preparation: Some(preparation),
        policy: Policy::KeepAll,
        writing,
        merges: false,
    }
}

/// What a command asks of its job. The filter of a print isn't read here, but in the first step.
pub fn assignment_of<A: Allocator>(command: Command<A>) -> Assignment<A>
    ensures preparing { option_map preparing_of result.preparation
        ≡ (assignment command).preparing }
    ensures policy { policy_of result.policy ≡ (assignment command).policy }
    ensures order { order_of result.merges ≡ (assignment command).order }
    ensures writing { result.writing ≡ (assignment command).writing }
    ensures programs { programs_in result.policy ≡ [] }
    ensures sound { HavePrograms (policy_of result.policy) (programs_in result.policy) }
{
    match command {
        Command::Edit(edit) => {
            let writing = Writing::Capture(edit.format);
            without_preparation(Policy::Edit(edit), writing, false)
        }
        Command::Merge(merge) => {
            without_preparation(
                Policy::KeepAll,
                Writing::Capture(merge.format),
                !merge.append,
            )
        }
        Command::Infos => without_preparation(Policy::Count, Writing::Text, false),
        Command::Print(print) => {
            let writing = writing_of(&print);
            with_preparation(Preparation::Filter(print), writing)
        }
        Command::Compile(compile) => with_preparation(Preparation::Listing(compile), Writing::Text),
    }
}

/// The filter that a print is asked for, of its listing if it has one, else of its words; or why it
/// is refused, which may be that memory ran out.
pub fn read_filter<A: Allocator + Copy + Drop>(
    alloc: A,
    print: &Print<A>,
) -> Result<Filter<A>, Refusal>
    ensures rule { IfOk result (λ filter. IsRule (string_bytes print.now.expr) (listing_of
        print.now)
        (rule_of filter)) }
    ensures programs { IfOk result (λ filter. AreNew (rule_of filter) (programs_of filter)) }
    ensures refused { IfErr result (IsWhy (string_bytes print.now.expr) (listing_of print.now)) }
{
    let words = print.expr.as_str();
    match &print.code {
        Some(text) => filter_of_listing(alloc, words, text),
        None => filter_of_words(alloc, words),
    }
}
