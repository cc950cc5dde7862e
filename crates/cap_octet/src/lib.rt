//! What all layers share: devices, numbers in bytes, times, packets, formats and faults.
//!
//! Most crates use it, from the readers of files and the compiler to the program and the library.
//! [`Input`] and [`Output`] are the devices that bytes are read from and written to. A [`Packet`]
//! is one packet with its time and its lengths, whatever file it came from.
//!
//! Nothing here allocates.
#![tactic(auto)]

pub mod assigned;
mod calendar;
mod count;
mod counting;
pub mod date;
mod device;
pub mod digits;
mod fault;
mod format;
pub mod laws;
mod link;
mod memory;
mod network;
mod number;
mod packet;
mod seconds;
mod stream;
mod timestamp;
mod trial;

pub use date::date_bytes;
pub use device::{
    DeviceFault, Input, Output, Stopped, read_full, write_all, write_all_parts, write_parts,
};
pub use fault::Fault;
pub use format::Format;
pub use link::Link;
pub use memory::{MemInput, MemOutput};
pub use network::{NetworkHeader, NetworkKind, link_header_length, network_header};
pub use number::{Order, u16_at, u32_at};
pub use packet::Packet;
pub use seconds::span_of;
pub use stream::{StdInput, StdOutput};
pub use timestamp::time_of;
pub use trial::{TrialInput, TrialOutput};
