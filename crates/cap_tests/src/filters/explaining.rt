//! What expressions mean, written out as expressions again.

use crate::filters::compilation::checked;
use crate::words::field;
use flt_explain::explain;
use flt_words::ExprFault;
use std::alloc::Global;

/// What a text means.
fn explained(alloc: Global, text: &str) -> Result<String, ExprFault> {
    let checked = checked(&alloc, text)?;
    Ok(explain(alloc, &checked.expr)?)
}

/// Texts, and what they mean. The first one is empty.
const MEANINGS: &str = "
tcp port 80 or 443 and host 10.0.0.1 | \
    ((tcp src or dst port 80) or (tcp src or dst port 443)) and (src or dst host 10.0.0.1)
not port 53 | not (src or dst port 53)
! not ! ip | not (not (not ip))
ether host 2:0:0:0:0:a5 | ether src or dst host 02:00:00:00:00:a5
src 10.1.2.3 and dst host 10.1.2.4 | (src host 10.1.2.3) and (dst host 10.1.2.4)
net 10/8 or net 10.1 | (src or dst net 10/8) or (src or dst net 10.1)
net 10.1.2 mask 255.255.255.0 | src or dst net 10.1.2 mask 255.255.255.0
dst and src net 2001:db8::/32 | src and dst net 2001:db8:0:0:0:0:0:0/32
udp portrange 1-2 | udp src or dst portrange 1-2
ip proto 0x2f or broadcast | (ip proto 47) or broadcast
ip6 multicast and greater 5 | (ip6 multicast) and (greater 5)
ip[9] = 6 | ip[9:1] = 6
len > 100 and not tcp | (len > 100) and (not tcp)
icmp[icmptype] = 8 && icmp[icmpcode] = tcp-fin | \
    (icmp[icmptype:1] = 8) and (icmp[icmpcode:1] = tcp-fin)
tcp[tcpflags] & (tcp-syn|tcp-ack) == -1 | (tcp[tcpflags:1] & (tcp-syn | tcp-ack)) = (- 1)
tcp[((tcp[12] & 0xf0) >> 2):4] != len / 2 | tcp[((tcp[12:1] & 240) >> 2):4] != (len/2)";

#[test]
fn meanings(rt: HostRuntime) {
    for row in MEANINGS.lines() {
        let (text, wanted) = field(row);
        let meaning = explained(rt.alloc(), text).expect(&rt, "a meaning");
        let again = explained(rt.alloc(), &meaning).expect(&rt, "a meaning");
        assert!(rt;
            meaning.as_str() == wanted && again.as_str() == wanted,
            "{row}"
        );
    }
}
