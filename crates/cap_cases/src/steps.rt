//! Runs that are closed after each number of steps.

use crate::case::Case;
use crate::runs::Outcome;
use crate::sweeps::{Course, Verdict, at_end};

/// How many runs that reach their end are made.
const AFTER: usize = 3;

/// Whether the run was closed before its end, at the stop of this number.
fn is_stopped_at(case: &Case<'_>, outcome: &Outcome, stop: usize) -> bool {
    let Some(size) = case.stops.get(stop) else {
        return false;
    };
    outcome.status.is_none()
        && outcome.messages.is_empty()
        && case.written.get(..*size) == Some(outcome.written.as_slice())
}

/// Judges a run that is closed after N steps, for one N after another. Its output is that of the
/// last stop that was met or of the next one; once a run has reached its end, the later ones do
/// too. At that time the case's last stop is met, or the one before it.
pub fn after_steps(case: &Case<'_>, outcome: &Outcome, course: &mut Course) -> Verdict {
    let next = course.last.saturating_add(1);
    if outcome.is_of(case) {
        course.ended = course.ended.saturating_add(1);
        return if course.ended == AFTER {
            at_end(
                next.saturating_add(1) < case.stops.len(),
                "a stop is not met",
            )
        } else {
            Verdict::Holds
        };
    }
    if course.ended > 0 {
        return Verdict::Differs;
    }
    if is_stopped_at(case, outcome, course.last) {
        return Verdict::Holds;
    }
    course.last = next;
    if is_stopped_at(case, outcome, next) {
        Verdict::Holds
    } else {
        Verdict::Differs
    }
}
