//! Captures in memory, pcap and pcapng, one unit at a time, read and written. What is known of one
//! that is read, between two units, is the caller's, in C's layout. Nothing here takes memory.

mod layout;
mod pcap;
mod reader;
mod skip;
mod table;
mod writer;
mod writing;

pub use layout::{Interface, Packet, Reader, Writer};
pub(crate) use reader::bytes_at;
pub use reader::{Found, comment_of, next_packet, next_unit};
pub use skip::{Skip, skip_unit};
pub use writer::{Put, put_next};
pub use writing::{
    MOST_COMMENT, Written, write_file_header, write_interface, write_packet, write_record,
    write_section,
};
