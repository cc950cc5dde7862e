//! A compiled expression: its tree, and its program for each link.
ghost use Rattle.std.specs.Prelude.{◌≡◌, ◌==◌, ◌<◌, All, IfOk, length, position, slice_index_or};
ghost use Rattle.std.specs.Prelude.{◌+◌, ◌≤◌};
ghost use Rattle.cap_octet.specs.{Link.link_type, Link.all_links, Packet.captured};
ghost use Rattle.flt_bpf.specs.{Content.Content, Machine.Answered};
ghost use Rattle.cap_filter.specs.FilterRules.{ReturnsDecision, by_reading, expression_decides};
ghost use Rattle.cap_filter.specs.Filters.{program_place, most_cost, spent_on};
ghost use Rattle.cap_filter.specs.Programs.{AreMade, met_on, ran_at, spent_in};
ghost use Rattle.cap_filter.specs.inside.Programs.{IsTruth};

use cap_octet::{Fault, Link, Packet};
use flt_bpf::{Program, run};
use flt_gen::generate;
use flt_lang::Checked;
use std::alloc::{AllocError, Allocator};
use std::marker::Model;

/// An expression that isn't empty, and its program for each link, in the order of `Link::ALL`.
#[derive(Drop)]
pub struct Compiled<A: Allocator> {
    tree: Checked<A>,
    programs: Vec<Program<A>, A>,
}

impl<A: Allocator> Model for Compiled<A> {
    ghost use Rattle.std.specs.Coded.{codes};
    ghost use Rattle.cap_filter.specs.Programs.{CompiledView};
    ghost use Rattle.cap_filter.specs.inside.Programs.{HasPrograms, coded_expression};

    ghost Value = { CompiledView };

    ghost coded = { Prim.hlevel (codes, coded_expression) };

    ghost view = { λ c. record { tree = c.tree.expr; programs = c.programs.items } };

    ghost invariant = { λ c. HasPrograms c.tree.expr c.programs.items };
}

/// The index, from 0, of the link with this link type; `None` if none of the links has it.
fn place_of_link_type(links: &[Link], number: u16) -> Option<usize>
    ensures { result ≡ position (λ link. link_type link == number) links.now }
{
    links.iter().position(|link| link.link_type() == number)
}

/// The index in `Compiled::programs` of the program for a link type; `None` if it has none, because
/// expressions don't work on it.
#[tactic(auto, unfolding(cap_octet::specs::Link::all_links))]
fn program_place(number: u16) -> Option<usize>
    ensures { result ≡ program_place number }
{
    place_of_link_type(&Link::ALL, number)
}

/// The tree's program for each of some links, in their order. An error means that memory ran out.
fn make_programs<A: Allocator + Copy + Drop>(
    alloc: A,
    tree: &Checked<A>,
    links: &[Link],
) -> Result<Vec<Program<A>, A>, AllocError>
    ensures made { IfOk result (λ programs. AreMade tree.now.expr links.now programs.items) }
    ensures fresh { IfOk result (λ programs. All (λ program. program.spent ≡ 0) programs.items) }
{
    let mut programs = Vec::new(alloc);
    for link in links {
        let program = generate(alloc, tree, *link)?;
        // The proof learns here that the program is valid.
        let _ = program.insns();
        programs.push(program)?;
    }
    Ok(programs)
}

/// Runs the program at this index on a packet. Returns its answer, 0 if it doesn't accept the
/// packet, and the number of executed instructions. The caller drops that number, since the program
/// has added it to its own.
fn run_at<A: Allocator>(
    programs: &mut [Program<A>],
    place: usize,
    packet: &Packet<'_>,
) -> (u32, u32)
    requires { place < length programs.old }
    ensures answer { (d : Content) → met_on (captured packet.now)
        (slice_index_or programs.old place d).insns ≡ Answered result.0 result.1 }
    ensures ran { programs.new ≡ ran_at place (captured packet.now) programs.old }
{
    run(&mut programs[place], packet.bytes, packet.orig)
}

impl<A: Allocator> Compiled<A> {
    /// Makes the programs of a checked tree, whose expression isn't empty; none has run yet. An
    /// error means that memory ran out.
    #[tactic(auto, unfolding(cap_octet::specs::Link::all_links))]
    pub fn new(alloc: A, tree: Checked<A>) -> Result<Self, AllocError>
    where
        A: Copy + Drop,
        requires { IsTruth tree.expr }
        ensures tree { IfOk result (λ compiled. compiled.tree ≡ tree.expr) }
        ensures made { IfOk result (λ compiled. AreMade tree.expr all_links compiled.programs) }
        ensures fresh { IfOk result (λ compiled. All (λ program. program.spent ≡ 0)
            compiled.programs) }
    {
        let programs = make_programs(alloc, &tree, &Link::ALL)?;
        Ok(Compiled { tree, programs })
    }

    /// Whether a packet matches, by one run of the program for its link type. It takes no memory.
    /// The only error is `LinkTypeNotFiltered`: expressions don't work on this link type.
    pub fn passes(&mut self, packet: &Packet<'_>) -> Result<bool, Fault>
        ensures answers { ReturnsDecision (expression_decides self.old.tree (captured packet.now))
            result }
        ensures tree { self.new.tree ≡ self.old.tree }
        ensures spends { self.new.programs ≡ spent_on (by_reading self.old.tree)
            (captured packet.now) self.old.programs }
        ensures bounded { spent_in self.new.programs ≤ spent_in self.old.programs + most_cost
            (by_reading self.old.tree) }
    {
        // The proof learns here that the expression isn't empty.
        let _ = &self.tree;
        let Some(place) = program_place(packet.link) else {
            return Err(Fault::LinkTypeNotFiltered);
        };
        let (answer, _) = run_at(&mut self.programs, place, packet);
        Ok(answer != 0)
    }
}
