use crate::{CommandName, OptionName};

/// Why words are refused.
#[derive(Clone, Copy, Debug, PartialEq, Eq)]
pub enum Cause {
    /// There is no word.
    NoCommand,
    /// The help is asked for, which the program answers itself.
    Help,
    /// The version is asked for, which the program answers itself.
    Version,
    /// The word is no command; the one that may have been meant.
    NoSuchCommand(Option<CommandName>),
    /// The word is no option of the command; the one that may have been meant.
    NoSuchOption(Option<OptionName>),
    /// The option that the word names lacks its value.
    NoValue(OptionName),
    /// An earlier word names the same option.
    Twice(OptionName),
    /// The word is no value of the option.
    BadValue(OptionName),
    /// The command lacks an option that it needs.
    Lacking(OptionName),
    /// The command takes only options, or `help` one command.
    Stray,
    /// `serve` lacks a device.
    NoDevice,
    /// The word is no device word, or does not fit to the others.
    Device(DeviceCause),
    /// Another cause.
    Other,
}

/// Why a device word is refused.
#[derive(Clone, Copy, Debug, PartialEq, Eq)]
pub enum DeviceCause {
    /// `NAME=` is missing.
    NoName,
    /// The name is none: 1 to 64 printable ASCII characters without the space, `"`, `\` and `=`.
    BadName,
    /// What comes after `NAME=` begins with none of `file:`, `tcp:`, `gpsd:` and `edges:`.
    NoSuchKind,
    /// The path is empty.
    NoPath,
    /// What comes after `tcp:` or `gpsd:` is no `HOST:PORT`.
    BadAddress,
    /// Another word says where the bytes of this name come from.
    NameTwice,
    /// Another word says where the edges of this name come from.
    EdgesTwice,
    /// The word of the device of these edges comes after them.
    EdgesFirst,
    /// No word says where the bytes of the device of these edges come from.
    EdgesAlone,
    /// Earlier words name eight devices.
    TooMany,
}
