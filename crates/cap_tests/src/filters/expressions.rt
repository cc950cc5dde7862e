//! How many tests, nodes and words expressions have.

use crate::filters::compilation::checked;
use crate::words::field;
use flt_lang::{bound, nodes, tests, words};
use std::alloc::Global;
use std::test::Fail;

/// The numbers of tests, nodes and words of a text, and the bound of its program.
fn counts_of(alloc: Global, text: &str) -> Result<String, Fail> {
    let checked = checked(&alloc, text)?;
    let (tests, nodes) = (tests(&checked), nodes(&checked));
    let (words, bound) = (words(&checked), bound(&checked));
    Ok(format!(in alloc; "{tests} {nodes} {words} {bound}")?)
}

/// Counts, and the texts that have them; the last one has as many words as there are.
const COUNTS: &str = "\
0 0 0 2
9 0 0 56 | 10.0.0.1
4 0 0 26 | ip proto 6 or 17
20 0 0 122 | tcp dst port 80 or 443 and not src 10.0.0.1
1 4 1 32 | len - 14 = 0
4 5 1 56 | tcp[13] & 2 != 0
4 7 2 68 | tcp[tcpflags] & (tcp-syn|tcp-ack) != 0
1 4 1 32 | len % 60 = 0
1 6 1 44 | len ^ 1 & 3 = 1
1 4 1 32 | len / icmptype = 0
1 6 2 44 | 1 + 2 * 3 = 0
1 3 1 26 | -len = 1
11 0 0 68 | port 1
13 0 0 80 | tcp portrange 9-1
1 2 1 20 | less 60
1 2 1 20 | len = 1
9 0 0 56 | tcp or icmp or icmp6 or ip6
5 0 0 32 | ether host 1:2:3:4:5:6
5 0 0 32 | broadcast or ip multicast
8 0 0 50 | arp net 10 or src host 1::1
5 6 1 68 | udp[len - 1 : 2] = ether[0]
1 34 16 212 | 1 - (1 - (1 - (1 - (1 - (1 - (1 - (1 - (1 - (1 - (1 - (1 - (1 - (1 - (1 - (1 - len)))\
    )))))))))))) = 0";

/// Texts that stand so often before another one, and the counts of all.
const CHAINS: [(&str, usize, &str, &str); 3] = [
    ("port 1 or ", 39, "port 2", "440 0 0 2642"),
    ("ip proto 6 or ", 29, "-len = 1", "59 3 1 374"),
    ("len = 1 or ", 1820, "ip", "1821 3640 1 32768"),
];

#[test]
fn counts(rt: HostRuntime) -> Result<(), Fail> {
    flt_lang::laws::one_tree();
    assert!(rt; counts_of(rt.alloc(), " \t\r\n")?.as_str() == "0 0 0 2");
    for row in COUNTS.lines() {
        let (wanted, text) = field(row);
        assert!(rt; counts_of(rt.alloc(), text)?.as_str() == wanted, "{text}");
    }
    for (part, times, end, wanted) in CHAINS {
        let mut text = String::new(rt.alloc());
        for _ in 0..times {
            text.push_str(part)?;
        }
        text.push_str(end)?;
        assert!(rt; counts_of(rt.alloc(), &text)?.as_str() == wanted, "{part}");
    }
    Ok(())
}
