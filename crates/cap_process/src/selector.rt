//! What becomes of each packet: a selector judges packets in turn by its policy, which is an edit,
//! a filter, that all are kept, or that all are counted.
ghost use Rattle.std.specs.Prelude.{◌≡◌, ℕ, ◌+◌, ◌<◌, ◌≤◌, [], IfOk, None, Some, false};
ghost use Rattle.std.specs.Prelude.{length};
ghost use Rattle.cap_octet.specs.Packet.{Captured, captured};
ghost use Rattle.cap_io.specs.Reading.{most_in_unit};
ghost use Rattle.cap_filter.specs.{Programs.spent_in, Filters.programs_of, Filters.rule_of};
ghost use Rattle.cap_process.specs.Selector.{is_count, marks_in, most_spent, policy_of};
ghost use Rattle.cap_process.specs.Selector.{programs_in, spent_by, state_of, window_of};
ghost use Rattle.cap_process.specs.Selector.{SelectorView, spent_by_verdict};
ghost use Rattle.cap_process.specs.inside.Selector.{IsWindowFor, ReturnsVerdict, count_limit};
ghost use Rattle.cap_process.specs.inside.Selector.{verdict_if, verdict_of, FitsTally, GrowsByOne};
ghost use Rattle.cap_process.specs.inside.Selector.{HasFewMarks, IsVerdict, TakesTally};
ghost use Rattle.cap_process.specs.{inside.Selector.policy_state, Reports.Tally, Verdict.is_last};
ghost use Rattle.cap_process.specs.Verdict.{judge_by, Filter as AskedFilter, initial_state, judge};

use crate::edit::edit_packet;
use crate::tally::Tally;
use crate::window::Window;
use cap_command::{Edit, PACKET_NUMBER_END};
use cap_filter::filter::Filter;
use cap_octet::{Fault, Packet};
use std::alloc::{AllocError, Allocator};
use std::marker::Model;

/// The number from which on a packet is refused, 2^63, as a job counts: in 128 bits. Packets that
/// are only counted never are.
const NUMBER_END: u128 = PACKET_NUMBER_END as u128;

/// What becomes of a packet that is not refused.
#[derive(Clone, Copy)]
pub enum Verdict {
    Pass,
    /// It passes, and nothing after it is read.
    PassLast,
    Skip,
}

/// How packets are selected.
#[derive(Drop)]
pub enum Policy<A: Allocator> {
    Edit(Edit<A>),
    /// What matches passes; with a number, 1 or more, no more than that many packets.
    Filter(Filter<A>, Option<u64>),
    KeepAll,
    /// All are counted, and none passes.
    Count,
}

/// Judges packets in turn.
#[derive(Drop)]
pub struct Selector<A: Allocator> {
    policy: Policy<A>,
    /// Where duplicates are searched for; `None` if they aren't.
    window: Option<Window<A>>,
    /// How many packets passed so far.
    passed: u64,
    /// For the packets of the current input, if they are counted.
    tally: Tally,
}

impl<A: Allocator> Model for Selector<A> {
    ghost use Rattle.std.specs.Coded.{codes};
    ghost use Rattle.cap_filter.specs.inside.Programs.{coded_expression};
    ghost use Rattle.cap_process.specs.Selector.{SelectorView, policy_of, marks_in, programs_in};
    ghost use Rattle.cap_process.specs.Selector.{state_of, window_of};
    ghost use Rattle.cap_process.specs.inside.Selector.{IsWindowFor};

    ghost Value = { SelectorView };

    ghost coded = { Prim.hlevel (codes, coded_expression) };

    ghost view = { λ j. record {
      policy = policy_of j.policy;
      state = state_of j.passed
          (marks_in j.window) j.tally;
      programs = programs_in j.policy;
    } };

    ghost invariant = { λ j. IsWindowFor (window_of (policy_of j.policy)) j.window };
}

impl<A: Allocator> Policy<A> {
    /// Whether a packet passes; an edit changes it into what it passes as. The errors are
    /// `LinkTypeNotFiltered`, if an expression isn't read on its link type, and
    /// `TimeOutOfRange`, if the time that an edit moves is out of range.
    ///
    /// Where packets are only counted `judge` doesn't call this function, and the clause `exact`
    /// says nothing.
    fn keeps(
        &mut self,
        window: &mut Option<Window<A>>,
        number: u64,
        packet: &mut Packet<'_>,
    ) -> Result<bool, Fault>
    where
        A: Copy + Drop,
        requires short { length packet.old.bytes.now ≤ most_in_unit }
        requires window { IsWindowFor (window_of (policy_of self.old)) window.old }
        ensures exact { (passed : ℕ) (tally : Tally) → is_count (policy_of self.old) ≡ false
            → ReturnsVerdict (count_limit (policy_of self.old)) (judge_by (policy_of self.old)
            (state_of passed (marks_in window.old) tally) number (captured packet.old))
            result (captured packet.new) (state_of passed (marks_in window.new) tally) }
        ensures window { IsWindowFor (window_of (policy_of self.old)) window.new }
        ensures policy { policy_of self.new ≡ policy_of self.old }
        ensures spends { programs_in self.new ≡ spent_by (policy_of self.old) (captured packet.old)
            (programs_in self.old) }
        ensures bounded { spent_in (programs_in self.new) ≤ spent_in (programs_in self.old)
            + most_spent (policy_of self.old) }
    {
        match self {
            Policy::Edit(edit) => edit_packet(edit, window, number, packet),
            Policy::Filter(filter, _) => filter.passes(packet),
            Policy::KeepAll => Ok(true),
            Policy::Count => Ok(false),
        }
    }

    /// The window of an edit that searches for duplicates, still empty; `None` of all other
    /// policies. An error means that memory ran out.
    fn empty_window(&self, alloc: A) -> Result<Option<Window<A>>, AllocError>
    where
        A: Copy,
        ensures window { IfOk result (IsWindowFor (window_of (policy_of self.now))) }
        ensures empty { IfOk result (λ window. marks_in window ≡ []) }
    {
        match self {
            Policy::Edit(edit) => match edit.window {
                // The current packet is one of them, and its mark needs no room.
                Some(packets) => Ok(Some(Window::new(alloc, packets.saturating_sub(1))?)),
                None => Ok(None),
            },
            Policy::Filter(_, _) | Policy::KeepAll | Policy::Count => Ok(None),
        }
    }

    /// Whether packets are only counted, for a report, and none passes.
    fn is_count(&self) -> bool
        ensures { result ≡ is_count (policy_of self.now) }
    {
        matches!(self, Policy::Count)
    }

    /// After how many packets that pass, 1 or more, nothing more is read; `None` if all packets
    /// are read.
    fn count_limit(&self) -> Option<u64>
        ensures { result ≡ count_limit (policy_of self.now) }
    {
        match self {
            Policy::Filter(_, count) => *count,
            Policy::Edit(_) | Policy::KeepAll | Policy::Count => None,
        }
    }
}

impl<A: Allocator> Selector<A> {
    /// A selector by which no packet was judged yet. If it looks for duplicates it takes the
    /// memory of their window here; the error means that memory ran out.
    pub fn new(alloc: A, policy: Policy<A>) -> Result<Self, AllocError>
    where
        A: Copy + Drop,
        ensures { IfOk result (λ selector. selector ≡ record {
          policy = policy_of policy;
          state = initial_state;
          programs = programs_in policy;
        }) }
    {
        let window = policy.empty_window(alloc)?;
        Ok(Selector {
            policy,
            window,
            passed: 0,
            tally: Tally::new(),
        })
    }

    /// A selector by a filter, by which no packet was judged yet. After `count` packets that pass,
    /// 1 or more, nothing more is read; without a `count` all are. It takes no memory.
    pub fn filtering(filter: Filter<A>, count: Option<u64>) -> Self
        ensures { result ≡ record {
          policy = AskedFilter (rule_of filter) count;
          state = initial_state;
          programs = programs_of filter;
        } }
    {
        Selector {
            policy: Policy::Filter(filter, count),
            window: None,
            passed: 0,
            tally: Tally::new(),
        }
    }

    /// What becomes of the packet with this number, from 1 on in the job's order; one that passes
    /// is changed into what it passes as. The errors are `TooManyPackets`, from number 2^63 on,
    /// `LinkTypeNotFiltered` and `TimeOutOfRange`. Where packets are only counted there is none.
    pub fn judge(&mut self, number: u128, packet: &mut Packet<'_>) -> Result<Verdict, Fault>
    where
        A: Copy + Drop,
        requires { length packet.old.bytes.now ≤ most_in_unit }
        ensures exact { self.old.state.passed < number → FitsTally self.old.state.tally
            → IsVerdict (judge self.old.policy self.old.state number (captured packet.old)) result
            (captured packet.new) self.new.state }
        ensures policy { self.new.policy ≡ self.old.policy }
        ensures passed { self.old.state.passed ≤ number → self.new.state.passed ≤ number }
        ensures counted { GrowsByOne self.old.state.tally self.new.state.tally }
        ensures spends { self.new.programs ≡ spent_by_verdict self.old.policy number
            (captured packet.old) self.old.programs }
        ensures bounded { spent_in self.new.programs ≤ spent_in self.old.programs + most_spent
            self.old.policy }
        ensures upper_bound { HasFewMarks self.new.policy self.new.state }
    {
        if self.policy.is_count() {
            self.tally = self.tally.counted(packet);
            return Ok(Verdict::Skip);
        }
        if number >= NUMBER_END {
            return Err(Fault::TooManyPackets);
        }
        let number = number as u64;
        if !self.policy.keeps(&mut self.window, number, packet)? {
            return Ok(Verdict::Skip);
        }
        let passed = self.passed;
        // Always so, as fewer packets passed than were judged: the test shows that the sum fits.
        if passed < number {
            self.passed = passed + 1;
        }
        Ok(pass_verdict(self.policy.count_limit(), self.passed))
    }

    /// Returns what was counted of the packets of the current input, at its end, and begins the
    /// count of the next one. It returns `None`, and changes nothing, where packets aren't counted.
    pub fn close(&mut self) -> Option<Tally>
        ensures closes { TakesTally (is_count self.old.policy) (policy_state self.old) result
            (policy_state self.new) }
        ensures programs { self.new.programs ≡ self.old.programs }
        ensures upper_bound { HasFewMarks self.new.policy self.new.state }
    {
        if !self.policy.is_count() {
            return None;
        }
        let tally = self.tally;
        self.tally = Tally::new();
        Some(tally)
    }
}

/// The verdict on the packet that passes as number `passed`: it is the last one if `count` packets
/// may pass; without a `count` none is.
fn pass_verdict(count: Option<u64>, passed: u64) -> Verdict
    ensures { (p : Captured) → verdict_of result p ≡ verdict_if p (is_last count passed) }
{
    let Some(count) = count else {
        return Verdict::Pass;
    };
    if passed == count {
        Verdict::PassLast
    } else {
        Verdict::Pass
    }
}
