//! Packets from a device, one at a time, through one buffer; and packets to a device.
//!
//! [`Source`] reads a capture of either format, for `cap_inputs`: `advance` goes on to the next
//! packet, and `head` lends it. [`Sink`] writes a capture, for `cap_process`: `put` appends a
//! packet, and `finish` ends the capture. [`unit_in`] finds the unit at the beginning of some bytes,
//! for captures in memory, as the library (`capkit_c`) reads them.
#![tactic(auto)]

mod file_state;
mod first_unit;
pub mod laws;
mod lending;
mod next_unit;
mod numbering;
mod pcap;
mod pcapng;
mod sink;
mod source;
mod unit;
mod writing;

pub use file_state::FileState;
pub use first_unit::{FoundUnit, first_link_with, record_in, unit_in};
pub use numbering::MOST_OUTPUT_INTERFACES;
pub use sink::{Sink, SinkState};
pub use source::{Kind, Source};
