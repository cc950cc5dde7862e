//! The lines that are printed of packets, after tcpdump(1).
//!
//! `cap_process` calls [`print_packet`], which writes a packet's line to a device, and the rows of
//! its bytes if [`Options`] ask for them. The library (`capkit_c`) calls [`write_line`], which puts
//! only the line into a buffer, a [`Text`].
//!
//! Nothing here takes memory.
#![tactic(auto)]

mod address;
mod dump;
mod hexadecimal;
mod last_second;
mod line;
mod network;
mod print;
mod text;

pub use line::write_line;
pub use print::{Options, print_packet};
pub use text::Text;
