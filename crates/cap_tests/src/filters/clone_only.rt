//! Filters over any allocator that can be cloned: none of these calls may ask for one that can be
//! copied.

use crate::filters::compilation::checked;
use cap_octet::Link;
use flt_bpf::run;
use flt_gen::generate;
use flt_words::ExprFault;
use std::alloc::Allocator;
use std::test::Fail;

/// The answers of a text's program to packets of one byte and of two.
fn answers<A: Allocator + Clone>(alloc: &A, text: &str, link: Link) -> Result<[u32; 2], ExprFault> {
    let checked = checked(alloc, text)?;
    let mut program = generate(alloc.clone()?, &checked, link)?;
    let (first, _) = run(&mut program, &[], 1);
    let (second, _) = run(&mut program, &[], 2);
    Ok([first, second])
}

#[test]
fn an_allocator_that_is_cloned_is_enough(rt: HostRuntime) -> Result<(), Fail> {
    for link in [Link::Ether, Link::Raw] {
        let [first, second] = answers(&rt.alloc(), "len = 1", link)?;
        assert!(rt; first != 0 && second == 0);
    }
    Ok(())
}
