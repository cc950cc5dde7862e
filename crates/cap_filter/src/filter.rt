//! Filters: what decides which packets pass, made of an expression's words or of a listing, or why
//! these are refused.
ghost use Rattle.std.specs.Prelude.{◌≡◌, IfErr, IfOk, None, Some, ◌+◌, ◌≤◌};
ghost use Rattle.cap_filter.specs.FilterRules.{ReturnsDecision, IsRule, IsWhy, by_reading};
ghost use Rattle.cap_filter.specs.FilterRules.{refusal_status, rule_decides};
ghost use Rattle.cap_filter.specs.Filters.{AreNew, programs_of, rule_of, most_cost, spent_on};
ghost use Rattle.cap_filter.specs.Programs.{spent_in};
ghost use Rattle.cap_octet.specs.Packet.{captured};

use crate::compiled::Compiled;
use crate::expression::read_expression;
use cap_octet::{Fault, Packet};
use flt_bpf::{CheckFault, ListingFault, Program, check, read_listing, run};
use flt_lang::Checked;
use flt_words::ExprFault;
use std::alloc::{AllocError, Allocator};

/// What decides which packets pass.
#[derive(Drop)]
pub enum Filter<A: Allocator> {
    /// The expression is empty, and all packets pass.
    All,
    /// A packet passes if the expression matches.
    Expression(Compiled<A>),
    /// A packet passes if the program accepts it.
    Listing(Program<A>),
}

impl<A: Allocator> Filter<A> {
    /// Whether a packet passes, by at most one run of a program. It takes no memory.
    ///
    /// The one error is `LinkTypeNotFiltered`: an expression isn't read on packets of this link
    /// type.
    pub fn passes(&mut self, packet: &Packet<'_>) -> Result<bool, Fault>
        ensures answers { ReturnsDecision (rule_decides (rule_of self.old) (captured packet.now))
            result }
        ensures rule { rule_of self.new ≡ rule_of self.old }
        ensures spends { programs_of self.new ≡ spent_on (rule_of self.old) (captured packet.now)
            (programs_of self.old) }
        ensures bounded { spent_in (programs_of self.new) ≤ spent_in (programs_of self.old)
            + most_cost (rule_of self.old) }
    {
        match self {
            Filter::All => Ok(true),
            Filter::Expression(compiled) => compiled.passes(packet),
            Filter::Listing(program) => {
                let (answer, _) = run(program, packet.bytes, packet.orig);
                Ok(answer != 0)
            }
        }
    }
}

/// Why an expression or a listing is refused, before any input is read.
#[derive(Clone, Copy)]
pub enum Refusal {
    /// The words aren't an expression, or there was no memory for it.
    Expression(ExprFault),
    /// The text isn't a listing, or there was no memory for it.
    Listing(ListingFault),
    /// The listing's instructions aren't a valid program: the first rule that they break, and the
    /// index of the instruction that breaks it, from 0, or 0 if the rule is on the whole.
    Program(CheckFault, usize),
}

impl Refusal {
    /// The status that a command ends with: 1 if memory ran out, else 2.
    pub fn status(self) -> u8
        ensures { result ≡ refusal_status self }
    {
        match self {
            Refusal::Expression(ExprFault::Memory) | Refusal::Listing(ListingFault::Memory) => 1,
            _ => 2,
        }
    }
}

/// The filter of a checked tree, with its programs; all packets pass the empty tree. An error
/// means that memory ran out.
fn filter_of_tree<A: Allocator + Copy + Drop>(
    alloc: A,
    tree: Checked<A>,
) -> Result<Filter<A>, AllocError>
    ensures rule { IfOk result (λ filter. rule_of filter ≡ by_reading tree.expr) }
    ensures programs { IfOk result (λ filter. AreNew (by_reading tree.expr) (programs_of filter)) }
{
    if tree.expr.nodes().is_empty() {
        Ok(Filter::All)
    } else {
        Ok(Filter::Expression(Compiled::new(alloc, tree)?))
    }
}

/// The filter of an expression's words, with its programs for all links, which are made here. The
/// clauses are shared with `filter_of_listing`; here they have `None` for the listing.
///
/// An error is the first of the words' faults, or out of memory (`ExprFault::Memory`).
pub fn filter_of_words<A: Allocator + Copy + Drop>(
    alloc: A,
    words: &str,
) -> Result<Filter<A>, Refusal>
    ensures rule { IfOk result (λ filter. IsRule words.now None (rule_of filter)) }
    ensures programs { IfOk result (λ filter. AreNew (rule_of filter) (programs_of filter)) }
    ensures refused { IfErr result (IsWhy words.now None) }
{
    let tree = match read_expression(alloc, words) {
        Ok(tree) => tree,
        Err(fault) => return Err(Refusal::Expression(fault)),
    };
    match filter_of_tree(alloc, tree) {
        Ok(filter) => Ok(filter),
        Err(_) => Err(Refusal::Expression(ExprFault::Memory)),
    }
}

/// The filter of the text of a listing. The words don't matter then: they are here since the
/// clauses are those of `filter_of_words`, with `Some` listing.
///
/// An error is the text's first fault as a listing, else the first rule of valid programs that its
/// instructions break, or out of memory (`ListingFault::Memory`).
pub fn filter_of_listing<A: Allocator + Drop>(
    alloc: A,
    words: &str,
    text: &[u8],
) -> Result<Filter<A>, Refusal>
    ensures rule { IfOk result (λ filter. IsRule words.now (Some text.now) (rule_of filter)) }
    ensures programs { IfOk result (λ filter. AreNew (rule_of filter) (programs_of filter)) }
    ensures refused { IfErr result (IsWhy words.now (Some text.now)) }
{
    match read_listing(alloc, text) {
        Ok(insns) => match check(insns) {
            Ok(program) => Ok(Filter::Listing(program)),
            Err((fault, at)) => Err(Refusal::Program(fault, at)),
        },
        Err(fault) => Err(Refusal::Listing(fault)),
    }
}
