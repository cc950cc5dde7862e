//! Instructions and packets as lines, and what expressions mean.

use super::programs::UNWRITTEN;
use crate::allocating::capkit_explain;
use crate::printing::{capkit_insn_text, capkit_line};
use flt_bpf::Insn;

/// What `tcpdump -d` 4.99.3 prints of the second instruction of `ip`.
#[test]
fn an_instruction(rt: HostRuntime) {
    let test = Insn {
        code: 21,
        jt: 0,
        jf: 1,
        k: 2048,
    };
    let mut buffer = [b'~'; 48];
    let length = capkit_insn_text(&test, 1, &mut buffer);
    assert!(rt; length == 41);
    assert!(rt; buffer.starts_with(b"(001) jeq      #0x800           jt 2\tjf 3\0~"));
    let mut short = [b'~'; 4];
    assert!(rt; capkit_insn_text(&UNWRITTEN, 1, &mut short) == 21 && short == *b"(00\0");
}

/// As `capkit print` prints a packet of docs/LINES.md.
#[test]
fn a_packet(rt: HostRuntime) {
    let mut buffer = [b'~'; 64];
    let length = capkit_line(101, 1_000_000_007, 60, &[0x45], 0, &mut buffer);
    let line = b"1970-01-01 00:00:01.000000007 IP [short], length 60\n\0~";
    assert!(rt; length == 52 && buffer.starts_with(line));
    let same = capkit_line(12, 1_000_000_007, 60, &[0x45], 1, &mut buffer);
    assert!(rt; same == 57 && buffer.starts_with(b"1970-01-01 00:00:01.000000007 raw, IP "));
    assert!(rt; capkit_line(1, 1 << 63, 60, &[], 0, &mut buffer) == 0 && buffer[0] == 0);
}

#[test]
fn a_meaning(rt: HostRuntime) {
    let mut buffer = [b'~'; 32];
    let mut number = 0;
    assert!(rt; capkit_explain(rt.alloc(), b"tcp port 80", &mut buffer, &mut number) == 0);
    assert!(rt; number == 22 && buffer.starts_with(b"tcp src or dst port 80\0~"));
    let status = capkit_explain(rt.alloc(), b"tcp prt 80", &mut buffer, &mut number);
    assert!(rt; status == 3 && number == 5 && buffer[0] == b't');
}
