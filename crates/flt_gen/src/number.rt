//! Emits the parts of arithmetic, which the walk puts together: operators, the code between
//! operands, accessors, and the tests that accessors need. (Numbers, `len`, `-` and the order of
//! the parts are in walk.rt, in `emit_node`.) An *accessor*, such as `tcp[13]` or `ip[2:2]`, reads
//! bytes of a header. Its index is arithmetic too, and is in A when the code of the accessor
//! begins.
//!
//! Code grows from its end (`Code`): in each body here the last call emits what a run executes
//! first.

ghost use Rattle.std.specs.Prelude.{◌≡◌, OnOk, reverse};
ghost use Rattle.flt_gen.specs.inside.Code.{emit_base, emit_transport, emit_accessor};
ghost use Rattle.flt_gen.specs.inside.Code.{accessor_offset, alu_operation, computation};
ghost use Rattle.flt_gen.specs.{inside.Emits.Emits, Numbers.accessor_tests, Numbers.width_of};
ghost use Rattle.flt_gen.specs.inside.ProgramCode.{emit_accessor_tests};
ghost use Rattle.flt_gen.specs.inside.Code.{takes_constant, emit_operands, emit_all};

use crate::code::{Code, Result, Targets};
use crate::elementary::{
    FrameKind, Offset, first_fragment, has_ip_proto, kind_test, network_offset,
};
use cap_octet::Link;
use cap_octet::assigned::{IPPROTO_ICMP, IPPROTO_TCP, IPPROTO_UDP};
use flt_bpf::constant_fault;
use flt_bpf::operation::{AluOperation, Operand, Operation, Register, Source, Width};
use flt_words::{Operator, Protocol};
use std::alloc::Allocator;

/// The machine's operator for one of an expression.
pub fn alu_operation(operator: Operator) -> AluOperation
    ensures { result ≡ alu_operation operator }
{
    match operator {
        Operator::Add => AluOperation::Add,
        Operator::Subtract => AluOperation::Subtract,
        Operator::Multiply => AluOperation::Multiply,
        Operator::Divide => AluOperation::Divide,
        Operator::Or => AluOperation::Or,
        Operator::And => AluOperation::And,
        Operator::ShiftLeft => AluOperation::ShiftLeft,
        Operator::ShiftRight => AluOperation::ShiftRight,
        Operator::Remainder => AluOperation::Remainder,
        Operator::ExclusiveOr => AluOperation::ExclusiveOr,
    }
}

/// An operator between A and X, or between A and a constant.
pub fn computation(operator: Operator, operand: Operand) -> Operation
    ensures { result ≡ computation operator operand }
{
    Operation::Compute(alu_operation(operator), operand)
}

/// Whether an operator's instruction may have a constant: a division by 0 and a shift by 32 or
/// more aren't valid with one.
pub fn takes_constant(operator: Operator, constant: u32) -> bool
    ensures { result ≡ takes_constant operator constant }
{
    constant_fault(alu_operation(operator), constant).is_none()
}

/// The width of an accessor, by its size in bytes: 1, 2 or 4. Any other size, which was refused
/// before, counts as 4.
pub fn width_of(size: u32) -> Width
    ensures { result ≡ width_of size }
{
    match size {
        1 => Width::Byte,
        2 => Width::HalfWord,
        _ => Width::Word,
    }
}

/// Emits that the right operand goes from A into X, and the left one from its word into A.
pub fn emit_operands<A: Allocator>(code: &mut Code<A>, slot: u32) -> Result<()>
    ensures { OnOk result (code.new ≡ emit_operands slot code.old) }
{
    code.emit_plain(Operation::Load(Register::Accumulator, Source::Memory), slot)?;
    code.emit_plain(Operation::CopyToIndex, 0)
}

/// Emits A = the field A bytes past the place `at`, the start of the frame or of the network
/// header: X = A, then a load at X + `at`.
fn emit_base<A: Allocator>(code: &mut Code<A>, at: u32, width: Width) -> Result<()>
    ensures { OnOk result (code.new ≡ emit_base at width code.old) }
{
    code.emit_plain(Operation::LoadIndirect(width), at)?;
    code.emit_plain(Operation::CopyToIndex, 0)
}

/// Emits A = the field A bytes past the IPv4 header: X = the header's length, A = A + X, then the
/// field A bytes past the header's place.
fn emit_transport<A: Allocator>(code: &mut Code<A>, link: Link, width: Width) -> Result<()>
    ensures { OnOk result (code.new ≡ emit_transport link width code.old) }
{
    let start = network_offset(link);
    emit_base(code, start, width)?;
    code.emit_plain(computation(Operator::Add, Operand::IndexRegister), 0)?;
    code.emit_plain(Operation::LoadHeaderLength, start)
}

/// The place of an accessor's field with a constant index.
pub fn accessor_offset(link: Link, protocol: Protocol, index: u32) -> Offset
    ensures { result ≡ accessor_offset link protocol index }
{
    let start = network_offset(link);
    match protocol {
        Protocol::Ether => Offset::Fixed(index),
        Protocol::Tcp | Protocol::Udp | Protocol::Icmp => {
            Offset::AfterHeader(start, start.wrapping_add(index))
        }
        _ => Offset::Fixed(start.wrapping_add(index)),
    }
}

/// Emits the load of an accessor's field into A, which holds the accessor's index until then.
pub fn emit_accessor<A: Allocator>(
    code: &mut Code<A>,
    link: Link,
    protocol: Protocol,
    width: Width,
) -> Result<()>
    ensures { OnOk result (code.new ≡ emit_accessor link protocol width code.old) }
{
    match protocol {
        Protocol::Ether => emit_base(code, 0, width),
        Protocol::Tcp | Protocol::Udp | Protocol::Icmp => emit_transport(code, link, width),
        _ => emit_base(code, network_offset(link), width),
    }
}

/// Emits the tests of what must hold of a packet before a protocol's bytes are read. Returns the
/// place where they begin.
pub fn emit_protocol_tests<A: Allocator>(
    code: &mut Code<A>,
    link: Link,
    protocol: Protocol,
    to: Targets,
) -> Result<usize>
    ensures { Emits result (emit_all (accessor_tests link protocol) to.yes to.no code.old)
        code.new }
{
    let (kind, number) = match protocol {
        Protocol::Ether => (FrameKind::Ethernet, None),
        Protocol::Ip => (FrameKind::Ip, None),
        // There is no `icmp6[..]` in the grammar.
        Protocol::Ip6 | Protocol::Icmp6 => (FrameKind::Ip6, None),
        Protocol::Arp => (FrameKind::Arp, None),
        Protocol::Rarp => (FrameKind::Rarp, None),
        Protocol::Tcp => (FrameKind::Ip, Some(IPPROTO_TCP)),
        Protocol::Udp => (FrameKind::Ip, Some(IPPROTO_UDP)),
        Protocol::Icmp => (FrameKind::Ip, Some(IPPROTO_ICMP)),
    };
    let mut yes = to.yes;
    if let Some(number) = number {
        let number = has_ip_proto(link, number.into());
        yes = code.emit_tests(false, &[number, first_fragment(link)], to)?;
    }
    code.emit_elementary(kind_test(link, kind), Targets { yes, no: to.no })
}

/// Emits the tests of accessors' protocols. The first of `protocols` is that of the rightmost
/// accessor, whose tests are the last of the code. Returns the place where they begin; for no
/// protocol that is `to.yes`.
#[tactic(auto, using(crate::proofs::Turned::one_more))]
pub fn emit_accessor_tests<A: Allocator>(
    code: &mut Code<A>,
    link: Link,
    protocols: &[Protocol],
    to: Targets,
) -> Result<usize>
    ensures { Emits result (emit_accessor_tests link (reverse protocols.now) to.yes to.no code.old)
        code.new }
{
    let mut yes = to.yes;
    for protocol in protocols {
        yes = emit_protocol_tests(code, link, *protocol, Targets { yes, no: to.no })?;
    }
    Ok(yes)
}
