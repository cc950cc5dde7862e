//! Options, one after another at the end of a block's body (draft-ietf-opsawg-pcapng, "Options"):
//!
//! ```text
//! 0 code  2 length of the value  4 value, with padding to a multiple of four bytes
//! ```
ghost use Rattle.std.specs.Prelude.{◌≡◌, ◌≤◌, ◌+◌, ◌<◌, ◌^◌, length};
ghost use Rattle.cap_pcapng.specs.Padding.{padded_length};

use cap_octet::{Fault, Order, u16_at};

/// The code that ends a list of options.
const END_CODE: u16 = 0;

/// The code of a comment (option opt_comment).
pub(crate) const COMMENT_CODE: u16 = 1;

/// The options of a block, in order, up to code 0 or the end of their bytes. A value that doesn't
/// fit in the bytes is `BadOption`, and nothing follows it (draft-ietf-opsawg-pcapng, "Options").
#[derive(Clone, Copy)]
pub struct Options<'a> {
    /// The byte order of the block.
    pub order: Order,
    /// The bytes of the options that are left.
    pub rest: &'a [u8],
}

/// An option, with its value lent.
#[derive(Clone, Copy)]
pub struct BlockOption<'a> {
    /// What the option is: 1 for a comment; other codes, but those of custom options, belong to the
    /// type of the block.
    pub code: u16,
    /// At most 65,535 bytes.
    pub value: &'a [u8],
    ghost short: { length value.now ≤ 65535 },
}

/// A length in bytes with its padding: rounded up to a multiple of four.
pub(crate) fn padded_length(length: u64) -> u64
    requires { length + 3 < 2 ^ 64 }
    ensures { result ≡ padded_length length }
{
    (length + 3) / 4 * 4
}

impl<'a> Options<'a> {
    ghost use Rattle.cap_pcapng.specs.Comment.{comment_in};

    /// The options in these bytes, none of which is read yet.
    pub(crate) fn new(order: Order, rest: &'a [u8]) -> Self
        ensures order { result.order ≡ order }
        ensures rest { result.rest.now ≡ rest.now }
    {
        Options { order, rest }
    }

    /// The value of the first comment among the options of a packet; empty if there is none.
    /// The options end too at a value that doesn't fit, which isn't a fault in a packet.
    pub fn comment(mut self) -> &'a [u8]
        ensures value { result.now ≡ comment_in self.entry.order self.entry.rest.now }
        ensures short { length result.now ≤ 65535 }
    {
        while let Some(Ok(option)) = self.next() {
            if option.code == COMMENT_CODE {
                return option.value;
            }
        }
        &[]
    }
}

impl<'a> Iterator for Options<'a> {
    type Item = Result<BlockOption<'a>, Fault>;

    ghost use Rattle.std.specs.Iterator.{YieldsFirstBy, item_count};
    ghost use Rattle.cap_pcapng.specs.OptionList.{item_of, options_left};

    ghost next_gives = { YieldsFirstBy item_of options_left };

    ghost remaining = { item_count options_left };

    /// The next option; `None` at code 0 or where fewer than four bytes are left. A value that
    /// doesn't fit is `BadOption`, after which nothing is left.
    fn next(&mut self) -> Option<Result<BlockOption<'a>, Fault>> {
        let Options { order, rest } = *self;
        if rest.len() < 4 {
            return None;
        }
        let code = u16_at(order, rest, 0);
        if code == END_CODE {
            return None;
        }
        // 4 bytes of header, and the value without its padding.
        let size = 4 + usize::from(u16_at(order, rest, 2));
        if rest.len() < size {
            self.rest = &[];
            return Some(Err(Fault::BadOption));
        }
        // The place where the next option begins: after the padding, which the last one may lack.
        let following = rest.len().min(padded_length(size as u64) as usize);
        self.rest = &rest[following..];
        Some(Ok(BlockOption {
            code,
            value: &rest[4..size],
        }))
    }
}
