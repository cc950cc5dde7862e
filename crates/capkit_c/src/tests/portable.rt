//! Which programs are portable: what libpcap and Linux do otherwise is in none of them.

use super::programs::{Row, UNWRITTEN, filled};
use crate::portable::{capkit_is_portable, capkit_portability};

const RETURN: Row = (22, 0, 0, 0);

/// 2^31.
const HIGH: u32 = 0x8000_0000;

/// 2^30.
const SMALL: u32 = 0x4000_0000;

/// Programs that are sure to run the same way elsewhere.
const ALIKE: &[&[Row]] = &[
    // Loads below 2^31.
    &[(0x20, 0, 0, HIGH - 1), (0x28, 0, 0, HIGH - 1), RETURN],
    &[(0x30, 0, 0, HIGH - 1), (0xb1, 0, 0, HIGH - 1), RETURN],
    // Indexed loads below 2^31, where X is small.
    &[(0x01, 0, 0, SMALL - 1), (0x50, 0, 0, SMALL - 1), RETURN],
    &[(0x01, 0, 0, 0), (0x40, 0, 0, 9), (0x48, 0, 0, 9), RETURN],
    &[(0xb1, 0, 0, 14), (0x50, 0, 0, SMALL - 1), RETURN],
    &[(0x07, 0, 0, 0), RETURN],
    // Shifts by a number.
    &[(0x64, 0, 0, 1), (0x74, 0, 0, 1), RETURN],
    // Words of memory, read after a write of them.
    &[(0x02, 0, 0, 15), (0x60, 0, 0, 15), RETURN],
    &[(0x03, 0, 0, 0), (0x61, 0, 0, 0), RETURN],
    // Jumps past the read.
    &[(0x05, 0, 0, 1), (0x60, 0, 0, 0), RETURN],
    &[(0x15, 1, 1, 0), (0x60, 0, 0, 3), RETURN],
    // A return before the write.
    &[
        (0x15, 1, 0, 0),
        RETURN,
        (0x02, 0, 0, 3),
        (0x60, 0, 0, 3),
        RETURN,
    ],
    &[(0x02, 0, 0, 3), (0x15, 0, 0, 0), (0x60, 0, 0, 3), RETURN],
];

/// Programs that may run another way elsewhere.
const OTHERWISE: &[&[Row]] = &[
    // Loads at 2^31.
    &[(0x20, 0, 0, HIGH), RETURN],
    &[(0x28, 0, 0, HIGH), RETURN],
    &[(0x30, 0, 0, HIGH), RETURN],
    &[(0xb1, 0, 0, HIGH), RETURN],
    // Indexed loads, where X may not be small, or X + k may be 2^31 or more, where Linux counts
    // back from 2^32: the second loads a byte of the network header there.
    &[(0x01, 0, 0, HIGH - 1), (0x50, 0, 0, HIGH - 1), RETURN],
    &[(0x01, 0, 0, 0x7ff8_0000), (0x50, 0, 0, 0x7ff8_0000), RETURN],
    &[(0x01, 0, 0, HIGH), (0x50, 0, 0, 0), RETURN],
    &[(0x01, 0, 0, SMALL), (0x50, 0, 0, 0), RETURN],
    &[(0x07, 0, 0, 0), (0x40, 0, 0, 0), RETURN],
    &[(0x07, 0, 0, 0), (0x48, 0, 0, 0), RETURN],
    &[(0x02, 0, 0, 0), (0x61, 0, 0, 0), (0x50, 0, 0, 0), RETURN],
    &[(0xb1, 0, 0, 14), (0x40, 0, 0, HIGH), RETURN],
    &[(0xb1, 0, 0, 14), (0x48, 0, 0, HIGH), RETURN],
    &[(0xb1, 0, 0, 14), (0x50, 0, 0, HIGH), RETURN],
    &[(0xb1, 0, 0, 14), (0x50, 0, 0, HIGH - 1), RETURN],
    &[(0xb1, 0, 0, 14), (0x50, 0, 0, SMALL), RETURN],
    // The length, and shifts by X.
    &[(0x80, 0, 0, 0), RETURN],
    &[(0x81, 0, 0, 0), RETURN],
    &[(0x6c, 0, 0, 0), RETURN],
    &[(0x7c, 0, 0, 0), RETURN],
    // Words of memory, read after a write of another one, and of none.
    &[(0x02, 0, 0, 14), (0x60, 0, 0, 15), RETURN],
    &[(0x03, 0, 0, 1), (0x61, 0, 0, 0), RETURN],
    &[(0x60, 0, 0, 0), (0x02, 0, 0, 0), RETURN],
    &[(0x60, 0, 0, 7), RETURN],
    &[(0x60, 0, 0, 0), RETURN],
    &[(0x61, 0, 0, 15), RETURN],
    // Jumps to the read, and past the write.
    &[(0x05, 0, 0, 0), (0x60, 0, 0, 0), RETURN],
    &[(0x15, 1, 0, 0), (0x02, 0, 0, 3), (0x60, 0, 0, 3), RETURN],
    &[(0x15, 0, 1, 0), (0x02, 0, 0, 3), (0x60, 0, 0, 3), RETURN],
    // Linux's check goes on past a return.
    &[
        (0x15, 1, 0, 0),
        RETURN,
        (0x06, 0, 0, 0),
        (0x60, 0, 0, 3),
        RETURN,
    ],
    &[
        (0x15, 0, 2, 0),
        (0x02, 0, 0, 3),
        (0x05, 0, 0, 1),
        RETURN,
        (0x60, 0, 0, 3),
        RETURN,
    ],
];

#[test]
fn what_runs_alike(rt: HostRuntime) {
    for (programs, expected) in [(ALIKE, 1), (OTHERWISE, 0)] {
        for (at, rows) in programs.iter().enumerate() {
            let mut place = [UNWRITTEN; 8];
            let insns = filled(rows, &mut place);
            assert!(rt;
                capkit_is_portable(insns) == expected,
                "row {at} of {expected}"
            );
            assert!(rt;
                (capkit_portability(insns) == 3) == (expected == 1),
                "row {at} of {expected}"
            );
        }
    }
    let most = vec![in rt.alloc(); UNWRITTEN; 4096].expect(&rt, "memory");
    assert!(rt; capkit_is_portable(&most) == 1);
    let over = vec![in rt.alloc(); UNWRITTEN; 4097].expect(&rt, "memory");
    assert!(rt; capkit_is_portable(&over) == 0 && capkit_portability(&over) == 0);
    // The packet's length is another one only on Linux, and a place from 2^31 on means something
    // else only there.
    let mut place = [UNWRITTEN; 8];
    assert!(rt; capkit_portability(filled(&[(0x80, 0, 0, 0), RETURN], &mut place)) == 1);
    let mut place = [UNWRITTEN; 8];
    let rows: &[Row] = &[(0xb1, 0, 0, 14), (0x50, 0, 0, HIGH - 1), RETURN];
    assert!(rt; capkit_portability(filled(rows, &mut place)) == 1);
}
