ghost use Rattle.std.specs.Prelude.{◌≡◌};
ghost use Rattle.gps_help.specs.Options.{flag_of, range_of, takes};

use gps_words::{bytes_within, is_address, number_within};

/// An option of a command.
#[derive(Clone, Copy, Debug, PartialEq, Eq)]
pub enum OptionName {
    Listen,
    Queue,
    Requests,
    /// `--history` of `serve` and `replay`.
    History,
    Wait,
    Monitor,
    Reopen,
    CycleGap,
    Report,
    Stop,
    /// `--history` of `decode` and `pseudo`.
    Bytes,
    Seed,
    Size,
}

impl OptionName {
    /// The name, without its two dashes.
    pub fn text(self) -> &'static str {
        match self {
            OptionName::Listen => "listen",
            OptionName::Queue => "queue",
            OptionName::Requests => "requests",
            OptionName::History | OptionName::Bytes => "history",
            OptionName::Wait => "wait",
            OptionName::Monitor => "monitor",
            OptionName::Reopen => "reopen",
            OptionName::CycleGap => "cycle-gap",
            OptionName::Report => "report",
            OptionName::Stop => "stop",
            OptionName::Seed => "seed",
            OptionName::Size => "size",
        }
    }

    /// The name with its two dashes, as it is written.
    #[tactic(auto, unfolding(crate::specs::Options::flag_of))]
    pub(crate) fn flag(self) -> &'static str
        ensures { result.now ≡ flag_of self }
    {
        match self {
            OptionName::Listen => "--listen",
            OptionName::Queue => "--queue",
            OptionName::Requests => "--requests",
            OptionName::History | OptionName::Bytes => "--history",
            OptionName::Wait => "--wait",
            OptionName::Monitor => "--monitor",
            OptionName::Reopen => "--reopen",
            OptionName::CycleGap => "--cycle-gap",
            OptionName::Report => "--report",
            OptionName::Stop => "--stop",
            OptionName::Seed => "--seed",
            OptionName::Size => "--size",
        }
    }

    /// The least and the greatest number that the option takes, if it takes one.
    pub fn range(self) -> Option<(u32, u32)>
        ensures { result ≡ range_of self }
    {
        match self {
            OptionName::Listen | OptionName::Stop => None,
            OptionName::Queue => Some((1, 65_536)),
            OptionName::Requests => Some((1, 4_294_967_294)),
            OptionName::History | OptionName::Bytes => Some((1, 33_554_432)),
            OptionName::Wait => Some((0, 64)),
            OptionName::Monitor => Some((0, 1_000_000)),
            OptionName::Reopen => Some((1, 3_600)),
            OptionName::CycleGap => Some((1, 10_000)),
            OptionName::Report => Some((10, 86_400)),
            OptionName::Seed => Some((0, 4_294_967_295)),
            OptionName::Size => Some((1, 10_000)),
        }
    }

    /// Whether the option takes this text.
    #[tactic(auto, unfolding(crate::specs::Options::takes))]
    pub(crate) fn takes(self, text: &str) -> bool
        ensures { result ≡ takes self text.now }
    {
        match self {
            OptionName::Listen => is_address(text.as_bytes()),
            OptionName::Stop => !text.is_empty(),
            OptionName::Bytes => bytes_within(text).is_some(),
            _ => match self.range() {
                Some((least, most)) => number_within(text, least, most).is_some(),
                None => false,
            },
        }
    }
}
