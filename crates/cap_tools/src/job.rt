//! Jobs: one for all commands, step by step.
ghost use Rattle.std.specs.Prelude.{ℕ, ◌≡◌, ◌<◌, ◌≤◌, IfErr, IfOk, IsTrue, None, Some, length};
ghost use Rattle.std.specs.Prelude.{false, map, string_bytes, true, vec_len};
ghost use Rattle.cap_command.specs.{Command.is_proper, Call.call_of, Call.run_result};
ghost use Rattle.cap_process.specs.{Messages.IsTold, inside.Output.is_text};
ghost use Rattle.cap_octet.specs.Views.{device_view, fresh_input, fresh_output, output_view};
ghost use Rattle.cap_tools.specs.Commands.{DecidedBy, PreparesBy, StepKeeps, StepReadsBy};
ghost use Rattle.cap_tools.specs.Jobs.{end_status, end_message, JobGives, JobView, first_job};
ghost use Rattle.cap_tools.specs.inside.Jobs.{KeepsFirst, MakesStep, MakesStepUnless, MakesSteps};
ghost use Rattle.cap_tools.specs.inside.Jobs.{with_preparing, EndsList, IsFresh, IsSound, IsStep};
ghost use Rattle.cap_tools.specs.{Run.CommandRuns, Jobs.turn_goes_on, Bounds.ReadsNothing};
ghost use Rattle.cap_tools.specs.Commands.{RefusesStart, filtering};
ghost use Rattle.cap_tools.specs.Packets.{failures_by, room_by, written_by};
ghost use Rattle.cap_tools.specs.inside.Jobs.{IsUncounted, MayCount, ending};
ghost use Rattle.cap_tools.specs.Start.{assignment, Compiles, ReadsFilter, asked_by};
ghost use Rattle.cap_inputs.specs.{Fresh.nothing_done, inside.Inputs.most_steps};
ghost use Rattle.cap_inputs.specs.inside.Inputs as input_spec;
ghost use Rattle.cap_filter.specs.FilterRules.{refusal_status};
ghost use Rattle.cap_filter.specs.Filters.{AreNew, programs_of, rule_of};

use crate::messages::Messages;
use crate::start::{Assignment, Preparation, assignment_of, read_filter};
use crate::step::{JobEnd, close, decide, end_after, end_of_write};
use cap_command::{Command, Compile, Print};
use cap_filter::expression::compile_text;
use cap_filter::filter::{Filter, Refusal};
use cap_inputs::{InputCursor, Inputs, Next};
use cap_octet::{Input, Output};
use cap_process::message::report_no_memory;
use cap_process::{JobOutput, Selector};
use flt_bpf::Program;
use std::alloc::Allocator;
use std::marker::Model;

/// Whether the job goes on after a step; if it is done, its status: 0, 1 or 2, as `run` has
/// them.
#[derive(Clone, Copy)]
pub enum Turn {
    More,
    Done(u8),
}

/// The job of a command.
#[derive(Drop)]
pub struct Job<I: Input, O: Output, E: Output, A: Allocator> {
    alloc: A,
    /// What is done before the first packet. `None` if nothing is, and once it is done.
    preparation: Option<Preparation<A>>,
    inputs: Inputs<I, A>,
    selector: Selector<A>,
    output: JobOutput<O, A>,
    /// Whether somebody may be waiting for the output.
    is_awaited: bool,
    messages: Messages<E, A>,
    /// How many packets are decided.
    decided: u128,
    /// How many steps it made.
    turns: u128,
    /// The status, if it ended.
    done: Option<u8>,
}

impl<I: Input, O: Output, E: Output, A: Allocator> Model for Job<I, O, E, A> {
    ghost use Rattle.std.specs.{Coded.codes, Option.option_map};
    ghost use Rattle.cap_filter.specs.inside.Programs.{coded_expression};
    ghost use Rattle.cap_tools.specs.Jobs.{JobView, state_at};
    ghost use Rattle.cap_tools.specs.{Start.preparing_of, inside.Jobs.IsSound};

    ghost Value = { JobView };

    ghost coded = { Prim.hlevel (codes, coded_expression) };

    ghost view = { λ j. record {
      preparing = option_map preparing_of j.preparation;
      state = state_at j.messages.names j.inputs j.selector j.output j.decided;
      programs = j.selector.programs;
      err = j.messages.device;
      turns = j.turns;
      done = j.done;
    } };

    ghost invariant = { λ j. IsSound (record {
      preparing = option_map preparing_of j.preparation;
      state = state_at j.messages.names j.inputs j.selector j.output j.decided;
      programs = j.selector.programs;
      err = j.messages.device;
      turns = j.turns;
      done = j.done;
    }) };
}

/// The status of a job that ended so: 0 if all is written, 1 after a fault or a failed write.
fn status_at_end(end: JobEnd) -> u8
    ensures { result ≡ end_status end }
{
    match end {
        JobEnd::Complete => 0,
        JobEnd::FaultIn(_, _) | JobEnd::OutputFailed => 1,
    }
}

impl<I: Input, O: Output, E: Output, A: Allocator + Copy + Drop> Job<I, O, E, A> {
    /// The job of a proper command. `names` are those of the inputs, then of the output. The error
    /// means that memory ran out: nothing was read or written, and `out` and `err` are handed back.
    pub fn new(
        alloc: A,
        command: Command<A>,
        names: Vec<String<A>, A>,
        inputs: Vec<I, A>,
        out: O,
        err: E,
    ) -> Result<Self, (O, E)>
    where
        I: Drop,
        requires proper { is_proper command (vec_len inputs) ≡ true }
        ensures fresh { IfOk result (λ job. job ≡ first_job (assignment command)
            (call_of (map string_bytes names.items) (map (fresh_input I.Input) inputs.items)
            (fresh_output O.Output out) (fresh_output E.Output err))) }
        ensures decided { IfOk result (λ job. DecidedBy job.preparing
            (map nothing_done (map (fresh_input I.Input) inputs.items)) (O.written out) job) }
        ensures refused { IfErr result (λ devices. (devices.0 ≡ out) × (devices.1 ≡ err)) }
    {
        let Assignment {
            preparation,
            policy,
            writing,
            merges,
        } = assignment_of(command);
        let Some(inputs) = Inputs::new(alloc, inputs, merges) else {
            return Err((out, err));
        };
        let Ok(selector) = Selector::new(alloc, policy) else {
            return Err((out, err));
        };
        let is_awaited = out.is_awaited();
        let output = JobOutput::new(alloc, writing, out);
        Ok(Job {
            alloc,
            preparation,
            inputs,
            selector,
            output,
            is_awaited,
            messages: Messages::new(err, names),
            decided: 0,
            turns: 0,
            done: None,
        })
    }

    /// Makes one step. The first one reads the filter or compiles, if that is asked for; each
    /// other one reads one input on, decides one packet, or ends the output. It reports how the job
    /// ended if it did. A message that can't be written is lost. After the end a step returns
    /// the status again, and does nothing.
    #[inline(always)]
    pub fn step(&mut self) -> Turn
        ensures after { (s : ℕ) → self.old.done ≡ Some s → (result ≡ Turn.Done s)
            × (self.new ≡ self.old) }
        ensures exact { IsTrue I.tells → IsTrue O.tells → self.old.done ≡ None
            → self.old.preparing ≡ None → JobGives E.tells self.old result self.new }
        ensures prepares { PreparesBy self.old.preparing O.tells E.tells self.old result self.new }
        ensures keeps { StepKeeps self.old result self.new }
        ensures reads { StepReadsBy self.old.preparing I.tells (turn_goes_on result)
            self.old self.new }
    {
        // Most steps have nothing to take; `take` would move the whole place each time.
        if self.preparation.is_some() {
            return self.prepare();
        }
        self.step_prepared()
    }

    /// Reads the filter or compiles, before the first packet. It is one step.
    #[cold]
    #[inline(never)]
    fn prepare(&mut self) -> Turn
        requires { self.old.preparing ≡ None → ⊥ }
        ensures { MakesStep I.tells O.tells E.tells self.old result self.new }
    {
        match self.preparation.take() {
            Some(Preparation::Filter(print)) => self.start_filtering(&print),
            Some(Preparation::Listing(compile)) => self.compile(&compile),
            None => Turn::More,
        }
    }

    /// Makes one turn of the loop of `run`: the steps of one call of `step`, or of two. An input is
    /// read on if that is next; then, if no further read is next, the packet is decided or the
    /// output ended.
    // In `run` a packet is read and decided at one place each, so that the compiler inlines both.
    #[inline(always)]
    fn make_turn(&mut self) -> Turn
        ensures { MakesSteps I.tells O.tells E.tells self.old result self.new }
    {
        if self.preparation.is_some() {
            return self.prepare();
        }
        match self.done {
            Some(status) => Turn::Done(status),
            None => self.read_and_decide(),
        }
    }

    /// The turn of a job that is under way and has nothing to prepare any more.
    #[inline(always)]
    fn read_and_decide(&mut self) -> Turn
        requires prepared { self.old.preparing ≡ None }
        requires undone { self.old.done ≡ None }
        ensures { MakesSteps I.tells O.tells E.tells self.old result self.new }
    {
        match self.read_if_next() {
            Turn::More => self.decide_if_next(),
            Turn::Done(status) => Turn::Done(status),
        }
    }

    /// Reads an input on, as one step, if that is next; else does nothing.
    #[inline(always)]
    fn read_if_next(&mut self) -> Turn
        requires prepared { self.old.preparing ≡ None }
        requires undone { self.old.done ≡ None }
        ensures { MakesStepUnless false I.tells O.tells E.tells self.old result self.new }
    {
        match self.inputs.next() {
            Next::Read(input) => {
                let end = self.read_next(input);
                self.count_step(end)
            }
            Next::Decide(_) | Next::Finish => Turn::More,
        }
    }

    /// Decides a packet or ends the output, as one step; if a read is next it does nothing.
    #[inline(always)]
    fn decide_if_next(&mut self) -> Turn
        requires prepared { self.old.preparing ≡ None }
        requires undone { self.old.done ≡ None }
        ensures { MakesStepUnless true I.tells O.tells E.tells self.old result self.new }
    {
        match self.inputs.next() {
            Next::Decide(input) => {
                let end = self.decide_next(input);
                self.count_step(end)
            }
            Next::Read(_) => Turn::More,
            Next::Finish => self.finish_step(),
        }
    }

    /// Ends the output, as one step.
    #[cold]
    #[inline(never)]
    fn finish_step(&mut self) -> Turn
        requires prepared { self.old.preparing ≡ None }
        requires undone { self.old.done ≡ None }
        requires next { input_spec.IsNext self.old.state.inputs Next.Finish }
        requires sound { IsSound self.old }
        ensures { MakesStep I.tells O.tells E.tells self.old result self.new }
    {
        let end = self.finish();
        self.count_step(end)
    }

    /// Reads the filter of a print, by which packets are judged from then on; or reports why it is
    /// refused, and ends the job. It is one step. The preparation was taken out before.
    fn start_filtering(&mut self, print: &Print<A>) -> Turn
        requires fresh { IsFresh self.old }
        requires taken { self.old.preparing ≡ None }
        ensures { MakesStep I.tells O.tells E.tells
            (with_preparing (Some (ReadsFilter (asked_by print.now))) self.old) result self.new }
    {
        match read_filter(self.alloc, print) {
            Ok(filter) => self.install_filter(filter, print.count),
            Err(refusal) => self.refuse(refusal),
        }
    }

    /// Compiles an expression and writes its listing, or reports why it is refused. It is one step,
    /// and the last one.
    fn compile(&mut self, compile: &Compile<A>) -> Turn
        requires fresh { IsFresh self.old }
        requires taken { self.old.preparing ≡ None }
        requires text { is_text self.old.state.output ≡ true }
        ensures { MakesStep I.tells O.tells E.tells
            (with_preparing (Some (Compiles (string_bytes compile.now.expr) compile.now.link))
            self.old) result self.new }
    {
        match compile_text(self.alloc, compile.expr.as_str(), compile.link) {
            Ok(program) => self.list(&program),
            Err(fault) => self.refuse(Refusal::Expression(fault)),
        }
    }

    /// One step of a job that has nothing to prepare any more: reads one input on, decides one
    /// packet or ends the output, and reports how the job ended if it did. After the end it
    /// returns the status again, and does nothing.
    #[inline(always)]
    fn step_prepared(&mut self) -> Turn
        requires { self.old.preparing ≡ None }
        ensures { MakesStep I.tells O.tells E.tells self.old result self.new }
    {
        if let Some(status) = self.done {
            return Turn::Done(status);
        }
        let end = self.do_next();
        self.count_step(end)
    }

    /// Counts a step that was made, and reports how the job ended if it did.
    #[inline(always)]
    fn count_step(&mut self, end: Option<JobEnd>) -> Turn
        requires prepared { self.old.preparing ≡ None }
        requires upper_bound { MayCount end self.old }
        ensures { (before : JobView) → IsUncounted I.tells O.tells before end self.old
            → MakesStep I.tells O.tells E.tells before result self.new }
    {
        match end {
            None => {
                self.turns += 1;
                Turn::More
            }
            Some(end) => self.end(end),
        }
    }

    /// Does what is next: reads one input on, decides one packet, or ends the output. It returns
    /// the end if the job ends here.
    #[inline(always)]
    fn do_next(&mut self) -> Option<JobEnd>
        requires { self.old.preparing ≡ None }
        ensures { IsStep I.tells O.tells self.old result self.new }
    {
        match self.inputs.next() {
            Next::Decide(input) => self.decide_next(input),
            Next::Read(input) => self.read_next(input),
            Next::Finish => self.finish(),
        }
    }

    /// Decides the current packet of an input. It returns the end if the job ends here: after
    /// the last packet that may pass, or if the packet is refused or can't be written.
    fn decide_next(&mut self, input: usize) -> Option<JobEnd>
        requires prepared { self.old.preparing ≡ None }
        requires next { input_spec.IsNext self.old.state.inputs (Next.Decide input) }
        requires within { input < length self.old.state.inputs.cursors }
        ensures { IsStep I.tells O.tells self.old result self.new }
    {
        let number = self.decided + 1;
        match decide(
            self.inputs.cursor(input),
            input,
            &mut self.selector,
            &mut self.output,
            number,
        ) {
            Ok(verdict) => {
                self.inputs.mark_decided(input);
                self.decided = number;
                end_after(verdict)
            }
            Err(end) => Some(end),
        }
    }

    /// Reads an input on. It returns the end if the job ends here: by a fault of the input, or
    /// since the output failed.
    // What is at hand makes no read that may wait, so that nothing is released before it.
    #[inline(always)]
    fn read_next(&mut self, input: usize) -> Option<JobEnd>
        requires prepared { self.old.preparing ≡ None }
        requires next { input_spec.IsNext self.old.state.inputs (Next.Read input) }
        requires within { input < length self.old.state.inputs.cursors }
        ensures { IsStep I.tells O.tells self.old result self.new }
    {
        if self.inputs.take_at_hand(input) {
            return None;
        }
        self.read_slowly(input)
    }

    /// Reads an input on, if a read may be needed. If somebody may be waiting for the output, and
    /// the read may wait, what was written is released first.
    #[inline(never)]
    fn read_slowly(&mut self, input: usize) -> Option<JobEnd>
        requires prepared { self.old.preparing ≡ None }
        requires next { input_spec.IsNext self.old.state.inputs (Next.Read input) }
        requires within { input < length self.old.state.inputs.cursors }
        ensures { IsStep I.tells O.tells self.old result self.new }
    {
        if self.is_awaited && !self.release_before(input) {
            return Some(JobEnd::OutputFailed);
        }
        self.read_input(input)
    }

    /// Before an input is read on, makes the output's device write its buffered bytes, unless the
    /// input's next packet is at hand. It returns false if the device couldn't.
    // Out of line, since few jobs have an output that is awaited.
    #[inline(never)]
    fn release_before(&mut self, input: usize) -> bool
        ensures kept { self.new ≡ self.old }
        ensures sure { IsTrue O.tells → result ≡ true }
    {
        self.inputs.has_next_at_hand(input) || self.output.release()
    }

    /// Reads an input on: to its next packet, a fault, or its clean end, at which it is reported if
    /// reports are asked for. It returns the end of the job if the job ends here: by that fault, or
    /// since the report couldn't be written.
    fn read_input(&mut self, input: usize) -> Option<JobEnd>
        requires prepared { self.old.preparing ≡ None }
        requires next { input_spec.IsNext self.old.state.inputs (Next.Read input) }
        requires within { input < length self.old.state.inputs.cursors }
        ensures { IsStep I.tells O.tells self.old result self.new }
    {
        match self.inputs.read_input(input) {
            Ok(true) => None,
            Ok(false) => close(
                &self.inputs,
                input,
                &mut self.selector,
                &mut self.output,
                &self.messages,
            ),
            Err(fault) => {
                // The job ends here, before `end`: while it is under way its invariant bounds its
                // steps by the bytes that were read, and those of a broken unit don't count.
                self.done = Some(1);
                Some(JobEnd::FaultIn(input, fault))
            }
        }
    }

    /// Ends the output after the last packet of all inputs. It always returns the end, complete or
    /// by a failed write, since the job ends here.
    fn finish(&mut self) -> Option<JobEnd>
        requires prepared { self.old.preparing ≡ None }
        requires next { input_spec.IsNext self.old.state.inputs Next.Finish }
        ensures { IsStep I.tells O.tells self.old result self.new }
    {
        let first = self.inputs.first_link();
        Some(end_of_write(self.output.finish(first)))
    }

    /// Ends the job, which is one step: reports how it ended, and returns its status. A message
    /// that can't be written is lost.
    #[cold]
    #[inline(never)]
    fn end(&mut self, end: JobEnd) -> Turn
        requires prepared { self.old.preparing ≡ None }
        requires upper_bound { self.old.turns ≤ most_steps }
        ensures done { result ≡ Turn.Done (end_status end) }
        ensures ended { self.new ≡ ending end self.new.err self.old }
        ensures exact { IsTold E.tells self.old.err (end_message self.old.state.names
            self.old.state.inputs.cursors end) self.new.err }
        ensures quiet { end ≡ JobEnd.Complete → self.new.err ≡ self.old.err }
    {
        self.messages.end(&self.inputs, end);
        let status = status_at_end(end);
        self.turns += 1;
        self.done = Some(status);
        Turn::Done(status)
    }

    /// From here on packets are judged by this filter, up to `count` that pass, or all if there
    /// is no `count`. It is one step.
    fn install_filter(&mut self, filter: Filter<A>, count: Option<u64>) -> Turn
        requires fresh { IsFresh self.old }
        requires taken { self.old.preparing ≡ None }
        requires new { AreNew (rule_of filter) (programs_of filter) }
        ensures more { result ≡ Turn.More }
        ensures filtered { self.new ≡ filtering (rule_of filter) count (programs_of filter)
            self.old }
        ensures keeps { KeepsFirst self.old result self.new }
    {
        self.selector = Selector::filtering(filter, count);
        self.turns += 1;
        Turn::More
    }

    /// Reports why an expression or a listing is refused, and ends the job: with the status 2, or 1
    /// if memory ran out. A message that can't be written is lost.
    fn refuse(&mut self, refusal: Refusal) -> Turn
        requires fresh { IsFresh self.old }
        requires taken { self.old.preparing ≡ None }
        ensures done { result ≡ Turn.Done (refusal_status refusal) }
        ensures refused { RefusesStart refusal E.tells self.old (refusal_status refusal) self.new }
        ensures keeps { KeepsFirst self.old result self.new }
    {
        self.messages.refuse(refusal);
        let status = refusal.status();
        self.turns += 1;
        self.done = Some(status);
        Turn::Done(status)
    }

    /// Writes the listing of a program, and ends the job, by a failed write if the output's
    /// device failed.
    fn list(&mut self, program: &Program<A>) -> Turn
        requires fresh { IsFresh self.old }
        requires taken { self.old.preparing ≡ None }
        requires text { is_text self.old.state.output ≡ true }
        ensures exact { IsTrue O.tells → EndsList program.now.insns E.tells self.old result
            self.new }
        ensures keeps { KeepsFirst self.old result self.new }
        ensures reads { ReadsNothing self.old self.new }
    {
        let end = end_of_write(self.output.list(program));
        self.end(end)
    }

    /// The inputs, the output and the messages' device, as the last step left them. It takes no
    /// memory.
    pub fn into_devices(self) -> (Vec<InputCursor<I, A>, A>, O, E)
        ensures inputs { result.0.items ≡ self.state.inputs.cursors }
        ensures written { O.written result.1 ≡ written_by self.state }
        ensures failures { O.failures result.1 ≡ failures_by self.state }
        ensures room { O.room result.1 ≡ room_by self.state }
        ensures messages { output_view (E.written result.2) (E.failures result.2) ≡ self.err }
    {
        let Job {
            inputs,
            output,
            messages,
            ..
        } = self;
        (
            inputs.into_cursors(),
            output.into_output(),
            messages.into_device(),
        )
    }

    /// The output and the messages' device, as the last step left them. The inputs are dropped.
    pub fn close(self) -> (O, E)
    where
        I: Drop,
        ensures written { O.written result.0 ≡ written_by self.state }
        ensures failures { O.failures result.0 ≡ failures_by self.state }
        ensures room { O.room result.0 ≡ room_by self.state }
        ensures messages { output_view (E.written result.1) (E.failures result.1) ≡ self.err }
    {
        let (_, out, err) = self.into_devices();
        (out, err)
    }
}

/// Runs a proper command. `names` are those of the inputs, then of the output. It returns the
/// status, 0 if all went well, 1 after a fault, a failed write or a lack of memory, 2 if an
/// expression or a listing is refused, and hands back the output and the messages' device. If
/// there is no memory to begin the job, nothing is written but a message. For a message that can't
/// be written a prefix may be.
pub fn run<I, O, E, A>(
    alloc: A,
    command: Command<A>,
    names: Vec<String<A>, A>,
    inputs: Vec<I, A>,
    out: O,
    err: E,
) -> (u8, O, E)
where
    I: Input + Drop,
    O: Output,
    E: Output,
    A: Allocator + Copy + Drop,
    requires proper { is_proper command (vec_len inputs) ≡ true }
    ensures status { result.0 ≤ 2 }
    ensures exact { IsTrue I.tells → IsTrue O.tells → CommandRuns (assignment command)
        (call_of (map string_bytes names.items) (map (fresh_input I.Input) inputs.items)
        (fresh_output O.Output out) (fresh_output E.Output err))
        (run_result result.0 (device_view O.Output result.1) (device_view E.Output result.2)) }
{
    let mut job = match Job::new(alloc, command, names, inputs, out, err) {
        Ok(job) => job,
        Err((out, mut err)) => {
            let _ = report_no_memory(&mut err);
            return (1, out, err);
        }
    };
    loop {
        match job.make_turn() {
            Turn::More => {}
            Turn::Done(status) => {
                let (out, err) = job.close();
                return (status, out, err);
            }
        }
    }
}
