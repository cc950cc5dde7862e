//! Laws of the definitions: each is the contract of a function that does nothing.
ghost use Rattle.cap_octet.specs.Laws.{DayHasItsNumber, NumberHasItsDay};

/// Reading and printing dates use the same day numbers. Each time below 2^63 nanoseconds lies in the
/// first 106,752 days.
#[tactic(auto, using(crate::proofs::Days::day_has_its_number, crate::proofs::Days::number_has_its_day))]
pub fn days_agree()
    ensures number { DayHasItsNumber }
    ensures day { NumberHasItsDay }
{}
