//! The formats in which captures are written.

/// A savefile format. All of them are written little-endian.
#[derive(Clone, Copy)]
pub enum Format {
    /// pcap with microseconds (draft-ietf-opsawg-pcap).
    Pcap,
    /// pcap with nanoseconds.
    NsecPcap,
    /// pcapng with nanoseconds (draft-ietf-opsawg-pcapng).
    Pcapng,
}

impl Format {
    ghost use Rattle.std.specs.Prelude.{◌≡◌};
    ghost use Rattle.cap_octet.specs.Format.{format_name, format_of_name};

    /// Every format.
    pub const ALL: [Format; 3] = [Format::Pcap, Format::NsecPcap, Format::Pcapng];

    /// The format's name on command lines and in reports.
    pub fn name(self) -> &'static str
        ensures { result.now ≡ format_name self }
    {
        match self {
            Format::Pcap => "pcap",
            Format::NsecPcap => "nsecpcap",
            Format::Pcapng => "pcapng",
        }
    }

    /// The format that command lines call by this name; `None` if none has it.
    #[tactic(auto, unfolding(crate::specs::Format::all_formats))]
    pub fn of_name(name: &str) -> Option<Format>
        ensures { result ≡ format_of_name name.now }
    {
        Format::ALL
            .iter()
            .copied()
            .find(|format| format.name() == name)
    }
}
