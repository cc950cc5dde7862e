//! Interface description blocks: an interface, and the options that describe it.
ghost use Rattle.std.specs.Prelude.{◌≡◌, ◌≤◌, ◌++◌, if◌then◌else◌, [], length, IfOk};
ghost use Rattle.cap_pcapng.specs.InterfaceOptions.{name_checks, offset_checks, offset_in_value};
ghost use Rattle.cap_pcapng.specs.Answer.{ChecksGive};
ghost use Rattle.cap_pcapng.specs.InterfaceOptions.{resolution_checks, units_in_value};

use crate::blocks::InterfaceBlock;
use crate::clock::{Clock, units_per_second};
use crate::options::{BlockOption, Options};
use arrayvec::ArrayVec;
use byteorder::{BigEndian, ByteOrder, LittleEndian};
use cap_octet::{Fault, Order, u16_at, u32_at};

/// The code of a name (option if_name).
pub(crate) const NAME_CODE: u16 = 2;

/// The code of a resolution (option if_tsresol).
pub(crate) const RESOLUTION_CODE: u16 = 9;

/// The code of an offset (option if_tsoffset).
const OFFSET_CODE: u16 = 14;

/// The ticks per second if no resolution is given.
const MICROSECONDS: u64 = 1_000_000;

/// The most bytes that the name of an interface in an input may have.
pub const MOST_NAME: usize = 255;

/// An interface's name, held in place.
pub type Name = ArrayVec<u8, MOST_NAME>;

/// An interface; its name is borrowed.
#[derive(Clone, Copy)]
pub struct Interface<'a> {
    /// The link type (tcpdump.org's list of LINKTYPE_ values).
    pub link: u16,
    /// The snap length, in bytes; 0 if there is none.
    pub snap: u32,
    /// Empty if there is none.
    pub name: &'a [u8],
    /// How the ticks of its packets become times.
    pub clock: Clock,
    ghost short_name: { length name.now ≤ 255 },
}

/// The options found so far: the value of the first one of each code, or `None`.
#[derive(Clone, Copy)]
struct FoundOptions<'a> {
    name: Option<&'a [u8]>,
    /// The ticks per second.
    units: Option<u64>,
    /// What is added to each time, in seconds.
    offset: Option<i64>,
}

/// The name in an option's value, or `BadOption` if it has over 255 bytes.
fn name_in_value(value: &[u8]) -> Result<&[u8], Fault>
    ensures { ChecksGive (name_checks value.now) result (λ name. name.now ≡ value.now) }
{
    if value.len() > MOST_NAME {
        return Err(Fault::BadOption);
    }
    Ok(value)
}

/// The ticks per second, by the resolution in an option's value; or `BadOption` if the value isn't
/// one byte, `BadTimeResolution` if that byte is out of range (`units_per_second`).
fn units_in_value(value: &[u8]) -> Result<u64, Fault>
    ensures { ChecksGive (resolution_checks value.now) result
        (λ units. units ≡ units_in_value value.now) }
{
    if value.len() != 1 {
        return Err(Fault::BadOption);
    }
    units_per_second(value[0])
}

/// The offset in an option's value, in seconds: a signed number of eight bytes in the block's byte
/// order; or `BadOption` if the value hasn't eight bytes.
#[tactic(auto, unfolding(cap_octet::specs::Number::number_in))]
fn offset_in_value(order: Order, value: &[u8]) -> Result<i64, Fault>
    ensures { ChecksGive (offset_checks value.now) result
        (λ offset. offset ≡ offset_in_value order value.now) }
{
    if value.len() != 8 {
        return Err(Fault::BadOption);
    }
    Ok(match order {
        Order::Little => LittleEndian::read_i64(value),
        Order::Big => BigEndian::read_i64(value),
    })
}

impl<'a> FoundOptions<'a> {
    ghost use Rattle.cap_pcapng.specs.InterfaceOptions.{first_checks, fitting_options, list_checks};
    ghost use Rattle.cap_pcapng.specs.OptionList.{coded_value, options_left};
    ghost use Rattle.cap_pcapng.specs.inside.Interface.{Adds, IsFound, is_found};

    /// Adds the value of one more option, or returns the first check that it fails. If an option is
    /// repeated, only the first one is checked and counts. Options of other codes are ignored.
    fn add_option(mut self, order: Order, option: BlockOption<'a>) -> Result<Self, Fault>
        ensures { ChecksGive (if is_found self.entry option.entry.code then []
            else first_checks (coded_value option.entry)) result
            (Adds order self.entry (coded_value option.entry)) }
    {
        match option.code {
            NAME_CODE if self.name.is_none() => self.name = Some(name_in_value(option.value)?),
            RESOLUTION_CODE if self.units.is_none() => self.units = Some(units_in_value(
                option.value,
            )?),
            OFFSET_CODE if self.offset.is_none() => {
                self.offset = Some(offset_in_value(order, option.value)?);
            }
            _ => {}
        }
        Ok(self)
    }

    /// The values in all of these options, or the first check that one of them fails.
    fn of_options(options: Options<'a>) -> Result<Self, Fault>
        ensures { ChecksGive (list_checks [] (options_left options.entry)) result
            (IsFound options.entry.order (fitting_options (options_left options.entry))) }
    {
        let mut found = FoundOptions {
            name: None,
            units: None,
            offset: None,
        };
        for option in options {
            found = found.add_option(options.order, option?)?;
        }
        Ok(found)
    }
}

impl<'a> InterfaceBlock<'a> {
    ghost use Rattle.cap_pcapng.specs.Block.{body_checks, option_checks, parts_in_body};
    ghost use Rattle.cap_pcapng.specs.{Interface.IsDescribed, Block.parts_of_interface};
    ghost use Rattle.cap_pcapng.specs.declared.frames.BlockType.TheVariants as kind;

    /// Reads the body of an interface description block, or returns the first check that it fails:
    /// `BadBody` if it is shorter than 8 bytes, or that of one of its options. By default the name
    /// is empty, a tick is a microsecond and the offset is 0.
    pub(crate) fn of_body(order: Order, body: &'a [u8]) -> Result<Self, Fault>
        ensures found { ChecksGive (body_checks kind.Interface order body.now
            ++ option_checks (parts_in_body kind.Interface order body.now)) result
            (λ b. parts_of_interface b ≡ parts_in_body kind.Interface order body.now) }
        ensures described { IfOk result IsDescribed }
    {
        // 0 link type, 2 reserved, 4 snap length, 8 options
        if body.len() < 8 {
            return Err(Fault::BadBody);
        }
        let options = Options::new(order, &body[8..]);
        let found = FoundOptions::of_options(options)?;
        let interface = Interface {
            link: u16_at(order, body, 0),
            snap: u32_at(order, body, 4),
            name: found.name.unwrap_or(&[]),
            clock: Clock {
                units: found.units.unwrap_or(MICROSECONDS),
                offset: found.offset.unwrap_or(0),
            },
        };
        Ok(InterfaceBlock { interface, options })
    }
}
