//! The headers of pcap savefiles and of their records (draft-ietf-opsawg-pcap), one at a time.
//!
//! `cap_io` calls it for files, the library (`capkit_c`) for captures in memory. [`read_head`]
//! reads and checks the header of a file, [`read_record`] that of a record. [`record_bytes`] is the
//! header of a record that is written; `fits` first checks its packet.
//!
//! Nothing here takes memory.
#![tactic(auto)]

mod header;
mod write;

pub use header::{Head, RecordHead, Resolution, read_head, read_magic, read_record};
pub use write::{fits, head_bytes, record_bytes};
