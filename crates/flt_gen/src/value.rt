//! Values that are emitted on their own, with their qualifiers, as rows of the table of primitives:
//! those that are never in a group, and a host of IPv4 or a port that doesn't go with the current
//! group (`emit_rows` of group.rt). In contracts, `.._needed` is the row without the words of IPv6
//! that decide nothing (address.rt).
//!
//! The rows themselves are emitted by address.rt, port.rt and protocol.rt (`proto`, MAC addresses).

ghost use Rattle.flt_gen.specs.inside.{Emits.EmitsFormula, Emitted.qualified_needed};

use crate::address::partial_mask;
use crate::code::{Code, Result, Targets};
use crate::intervals::Numbers;
use crate::wanted::Wanted;
use cap_octet::Link;
use flt_ast::{CompleteQualifiers, Value};
use flt_words::ValueType;
use std::alloc::Allocator;

impl<A: Allocator> Code<A> {
    /// Emits the test of one value, such as that of `tcp dst port 80`, by the table's row for its
    /// qualifiers. A value that no row takes was refused before; here it is no.
    pub fn emit_value(
        &mut self,
        link: Link,
        qualifiers: CompleteQualifiers,
        value: Value,
        to: Targets,
    ) -> Result<usize>
        ensures { EmitsFormula link (qualified_needed link qualifiers value) to self.old result
            self.new }
    {
        let (protocol, direction) = (qualifiers.protocol, qualifiers.direction);
        let none = Numbers::none();
        match (qualifiers.value_type, value) {
            (ValueType::Host, Value::Dotted(host, _)) => {
                let wanted = Wanted::Net(direction, None, host.address);
                self.emit_hosts(link, protocol, wanted, &none, to)
            }
            (ValueType::Host, Value::Ip6(address, _)) => {
                self.emit_ip6(link, direction, None, address, to)
            }
            (ValueType::Host, Value::Mac(address)) => {
                self.emit_ether_host(link, direction, address, to)
            }
            (ValueType::Net, Value::Ip6(address, prefix)) => {
                self.emit_ip6(link, direction, prefix, address, to)
            }
            (ValueType::Net, value) => match value.ip4_net() {
                None => Ok(to.no),
                Some(net) => {
                    let wanted = Wanted::Net(direction, partial_mask(net.mask), net.address);
                    self.emit_hosts(link, protocol, wanted, &none, to)
                }
            },
            (ValueType::Port, Value::Number(port, _)) => {
                self.emit_ports(link, protocol, Wanted::Port(direction, port), &none, to)
            }
            (ValueType::PortRange, Value::Range { first, last }) => {
                let wanted = Wanted::Ports(direction, first.min(last), first.max(last));
                self.emit_ports(link, protocol, wanted, &none, to)
            }
            (ValueType::Proto, Value::Number(number, _)) => {
                self.emit_proto(link, protocol, number, to)
            }
            _ => Ok(to.no),
        }
    }
}
