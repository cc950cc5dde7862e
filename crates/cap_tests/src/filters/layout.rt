//! Code that is laid out: targets at the limits of what a test reaches, and memory that is refused.

ghost use Rattle.std.specs.Prelude.{◌<◌};

use cap_trial::Trial;
use flt_bpf::{Program, Wide, check, run};
use flt_short::laid_out;
use std::alloc::Global;
use std::test::Fail;

/// How many tests lead to far returns by turns.
const TESTS: u32 = 200;

/// How many returns follow the tests.
const RETURNS: usize = 300;

/// A test for a packet of this length (`A = k ?`).
fn has_length(k: u32, yes: u32, no: u32) -> Wide {
    let code = 21;
    Wide { code, yes, no, k }
}

/// The length of a packet (`A = original length`), tests of it, and then returns of 0, 1, 2 and so
/// on (`return k`), all laid out: how many instructions they are, and their program.
fn with_returns(alloc: Global, tests: &[Wide]) -> Result<(usize, Program<Global>), Fail> {
    let (yes, no) = (0, 0);
    let mut wide = Vec::new(alloc);
    let (code, k) = (128, 0);
    wide.push(Wide { code, yes, no, k })?;
    for test in tests {
        wide.push(*test)?;
    }
    for k in 0..RETURNS as u32 {
        let code = 6;
        wide.push(Wide { code, yes, no, k })?;
    }
    if wide.len() > 1_000 {
        return Err(Fail::from("too many tests"));
    }
    let code = laid_out(alloc, &wide)?;
    Ok((code.len(), check(code).ok().ok_or("not valid")?))
}

/// The answer on a packet of a length, and how many instructions the run met.
fn run_on(program: &mut Program<Global>, len: u32) -> (u32, usize) {
    let (answer, count) = run(program, &[], len);
    (answer, count as usize)
}

/// A jump for one target makes the other one farther by one instruction.
#[test]
fn one_test(rt: HostRuntime) -> Result<(), Fail> {
    // The targets of a test, and by how many jumps each is reached.
    let rows: [(u32, u32, usize, usize); 10] = [
        (0, 255, 0, 0),
        (255, 0, 0, 0),
        (255, 255, 0, 0),
        (0, 256, 0, 1),
        (256, 0, 1, 0),
        (254, 256, 0, 1),
        (256, 254, 1, 0),
        (255, 256, 1, 1),
        (256, 255, 1, 1),
        (256, 256, 1, 1),
    ];
    for (yes, no, jumps_if_yes, jumps_if_no) in rows {
        let (len, mut program) = with_returns(rt.alloc(), &[has_length(1, yes, no)])?;
        let jumps = jumps_if_yes.saturating_add(jumps_if_no);
        assert!(rt; len == RETURNS.saturating_add(2).saturating_add(jumps));
        assert!(rt; run_on(&mut program, 1) == (yes, jumps_if_yes.saturating_add(3)));
        assert!(rt; run_on(&mut program, 2) == (no, jumps_if_no.saturating_add(3)));
    }
    Ok(())
}

/// The jumps of a test make the targets of one in front of it farther.
#[test]
fn two_tests(rt: HostRuntime) -> Result<(), Fail> {
    let tests = [has_length(1, 255, 0), has_length(2, 256, 270)];
    let (len, mut program) = with_returns(rt.alloc(), &tests)?;
    assert!(rt; len == RETURNS + 3 + 3);
    for (len, met) in [(1, (254, 4)), (2, (256, 5)), (3, (270, 5))] {
        assert!(rt; run_on(&mut program, len) == met);
    }
    Ok(())
}

/// Tests for the lengths 1, 2 and so on that lead, if they hold, to the last returns by turns.
fn tests_by_turns(alloc: Global, returns: u32) -> Result<Vec<Wide>, Fail>
    requires { 0 < returns }
{
    let last = RETURNS as u32 - 1;
    let mut tests = Vec::new(alloc);
    for length in 1..TESTS + 1 {
        let answer = last.saturating_sub(length % returns);
        tests.push(has_length(length, TESTS - length + answer, 0))?;
    }
    Ok(tests)
}

/// A jump serves all tests that are near it, as long as it is one of the last four.
#[test]
fn shared_jumps(rt: HostRuntime) -> Result<(), Fail> {
    for (returns, jumps) in [(1, 1), (4, 4), (5, 200)] {
        let tests = tests_by_turns(rt.alloc(), returns)?;
        let (len, mut program) = with_returns(rt.alloc(), &tests)?;
        assert!(rt; len == RETURNS.saturating_add(201).saturating_add(jumps));
        for length in 1..TESTS + 1 {
            let answer = 299u32.saturating_sub(length % returns);
            assert!(rt; run_on(&mut program, length) == (answer, length as usize + 3));
        }
        assert!(rt; run_on(&mut program, TESTS + 1) == (0, 202));
    }
    Ok(())
}

/// `ret #0`
const RETURN: Wide = Wide {
    code: 6,
    yes: 0,
    no: 0,
    k: 0,
};

/// Each failed allocation is an error, and nothing else is.
#[test]
fn refused_growths(rt: HostRuntime) {
    let trial = Trial::new(rt.alloc());
    let mut refused = 0u64;
    for number in 1..50u64 {
        trial.refuse(number);
        let outcome = laid_out(&trial, &[RETURN; 40]);
        let is_refused = trial.growths() >= number;
        assert!(rt; outcome.is_err() == is_refused, "growth {number}");
        refused = refused.saturating_add(u64::from(is_refused));
    }
    assert!(rt; 2 <= refused && refused < 49, "{refused}");
}
