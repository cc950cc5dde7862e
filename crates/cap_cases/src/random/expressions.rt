//! Expressions that are made at random, from the primitives and operators of the filter language.

/// How many captured bytes are enough for each field that a steady expression loads.
pub const ENOUGH: usize = 100;

/// `expression` has a tree, and its values mostly fit; `text` is mostly no expression.
pub const RULES: &str = "\
expression: {primitive}; {combined}; {combined}
combined: not ({expression}); ({expression}) and {primitive}; {primitive} or ({expression}); \
    {expression} or {primitive}; ({expression}) || ! {primitive}; {primitive} && ({expression})
primitive: {kind}; {cast}; {bound} {size}; ether proto {type}; {relation}; {relation}; {valued}; \
    {valued}
kind: ip; ip6; arp; rarp; tcp; udp; icmp; icmp6
cast: broadcast; multicast; ether broadcast; ether multicast; ip multicast; ip6 multicast; \
    ip broadcast
bound: less; greater
size: {digit}; 3{digit}; 6{digit}; 9{digit}; 12{digit}; 17{digit}
digit: 0; 1; 2; 3; 4; 5; 6; 7; 8; 9
type: 0x0800; 0x86dd; 2054
valued: {network} {direction} host {host}; {network} {direction} net {net}; \
    {transport} {direction} port {port}; ({transport} {direction} port {port} or {port}); \
    {transport} {direction} portrange {range}; ether {direction} host {mac}; \
    {layer} proto {protocol}
network: ; ; ip; arp; rarp; ip6
transport: ; tcp; udp
layer: ; ip; ip6
direction: ; ; src; dst; src or dst; src and dst; dst and src
host: 10.0.0.1; 10.0.0.2; 192.168.1.7; 224.0.0.251; 2001:db8::1
net: 10; 10.0.0; 10.0.0.0/30; 192.168.0.0 mask 255.255.0.255; 0.0.0.0/0; 2001:db8::/32; ::/0; \
    ff02::/16; 10.0.0.1/8
port: 53; 80; 443; 8080; 65535
range: 53-80; 443-80; 0-65535; 8080-8080
mac: 2:0:0:0:0:1; 02:00:00:00:00:02
protocol: 6; 17; 1; 58
relation: {sum} {comparison} {sum}
comparison: =; ==; !=; <; <=; >; >=
sum: {atom}; {atom}; {computed}; {computed}; {computed}
computed: ({sum}) {operator} {atom}; ({sum}) {operator} {atom}; {atom} {operator} ({sum}); \
    {atom} {operator} ({sum}); {atom} {operator} {sum}; {atom} {operator} {sum}; - {sum}; \
    {unsteady}
operator: +; -; *; &; |; ^; <<; >>
unsteady: ({sum}) / ({atom}); {atom} % ({sum}); {accessor}[{sum} & 0x3f]
atom: {number}; {name}; {field}; {field}
number: 0; 1; 6; 17; 0xff; 0100; 65535; 4294967295
name: tcpflags; tcp-syn; tcp-ack; icmptype; icmpcode; len
field: {accessor}[{place}{width}]
accessor: ether; ip; ip6; arp; rarp; tcp; udp; icmp
place: {digit}; {digit}; 10; 11; 12; 13; 14; 15; 16
width: ; :1; :2; :4
text: ; {piece}{text}; {piece}{text}; {piece} {text}; {piece} {text}; {piece} {text}; \
    {piece} {text}; {piece} {text}
piece: ip; tcp; port; 80; or; and; not; (; ); [; ]; :; len; >; =; 10.0.0.1; host; src; 1-2; -; /; \
    ?; 08; net
";

/// Whether an expression that was made rejects no packet with enough captured bytes: it has none
/// of the rule `unsteady`, so it divides by nothing, and each of its indices is a small number.
pub fn is_steady(expression: &str) -> bool {
    !expression.contains("/ (") && !expression.contains("% (") && !expression.contains("& 0x3f]")
}
