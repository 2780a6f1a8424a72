use crate::gpsd_option::in_place_of;
use crate::near::is_within;
use crate::word::{is_dashed, name_of};
use crate::{Cause, CommandName, DeviceCause, OptionName, Question, Refusal};
use gps_words::is_address;
use std::fmt;

/// A refusal in words, in one line, beside the words that are refused.
#[derive(Clone, Copy)]
pub struct Told<'a> {
    refusal: Refusal,
    word: &'a str,
}

impl Refusal {
    /// The refusal in words; `words` are those that are refused.
    pub fn told<'a>(&self, words: &'a [String]) -> Told<'a> {
        let word = match self.at {
            Some(at) => match words.get(at) {
                Some(word) => word.as_str(),
                None => "",
            },
            None => "",
        };
        Told {
            refusal: *self,
            word,
        }
    }

    /// Whether the whole help belongs after the reason, as no command was asked for.
    pub fn wants_help(&self) -> bool {
        matches!(self.cause, Cause::NoCommand)
    }
}

/// What the value of an option is, as `a whole number from 1 to 64`.
fn write_value<W: fmt::Write>(option: OptionName, f: &mut fmt::Formatter<W>) -> fmt::Result {
    match option {
        OptionName::Listen => f.write_str("HOST:PORT, as 127.0.0.1:2947"),
        OptionName::Stop => f.write_str("a path, as /run/gpsrelay/stop"),
        OptionName::Bytes => {
            write_number(option, f)?;
            f.write_str(", or all")
        }
        _ => write_number(option, f),
    }
}

fn write_number<W: fmt::Write>(option: OptionName, f: &mut fmt::Formatter<W>) -> fmt::Result {
    match option.range() {
        Some((least, most)) => {
            write!(f, "a whole number from {} to {}", least, most)?;
            f.write_str(unit_of(option))
        }
        None => Ok(()),
    }
}

/// The unit of an option's number, as the end of a message.
fn unit_of(option: OptionName) -> &'static str {
    match option {
        OptionName::CycleGap => ", in milliseconds",
        OptionName::Reopen | OptionName::Report => ", in seconds",
        _ => "",
    }
}

/// The question to the program itself that a word may mean, as `version` for `--versoin`.
fn question_near(word: &str) -> Option<Question> {
    let name = name_of(word);
    if word == "-V" || word == "-v" || is_within(2, name.as_bytes(), b"version") {
        Some(Question::Version)
    } else if name.len() > 2 && is_within(2, name.as_bytes(), b"help") {
        Some(Question::Help)
    } else {
        None
    }
}

/// What to do for bytes that come in a way which the daemon does not know.
fn in_place_of_way(place: &str) -> Option<&'static str> {
    if place.starts_with("udp:") {
        Some(
            "serve reads no UDP: have socat write what comes into a FIFO, and give that as file:PATH",
        )
    } else if place.starts_with("ntrip:") || place.starts_with("dgpsip:") {
        Some(
            "serve sends no corrections to a receiver: another program has to, such as str2str of RTKLIB",
        )
    } else if place.starts_with("/dev/pps") || place.starts_with("pps:") {
        Some(
            "serve reads the edges of pulses as lines: have a program write them into a FIFO, and give that as NAME=edges:PATH",
        )
    } else {
        None
    }
}

fn is_digits(text: &str) -> bool {
    !text.is_empty()
        && text
            .as_bytes()
            .iter()
            .all(|byte| matches!(*byte, b'0'..=b'9'))
}

/// Whether a text is `HOST:PORT` but for its port, which is too great or too long.
fn has_bad_port(text: &str) -> bool {
    match text.rsplit_once(':') {
        Some((host, port)) => !host.is_empty() && is_digits(port) && !is_address(text.as_bytes()),
        None => false,
    }
}

/// Whether a text is a host without a port: a name, or an IPv6 address in brackets.
fn lacks_port(text: &str) -> bool {
    text.ends_with(']') || !text.is_empty() && !text.contains(':') && !is_digits(text)
}

/// What is wrong with a text that is no `HOST:PORT`, if that can be said.
fn address_hint(text: &str) -> Option<&'static str> {
    if text.contains('/') {
        None
    } else if has_bad_port(text) {
        Some("a port has at most 5 digits, and is at most 65535")
    } else if text.starts_with(':') {
        Some("the host is missing: 127.0.0.1 for this machine, 0.0.0.0 for all addresses")
    } else if lacks_port(text) {
        Some("the port is missing")
    } else {
        None
    }
}

/// The address of a text in the form of a URL, as `//host:2000` or `//host:2000/`.
fn address_of_url(text: &str) -> Option<&str> {
    let address = text.strip_prefix("//")?;
    let address = match address.strip_suffix('/') {
        Some(address) => address,
        None => address,
    };
    is_address(address.as_bytes()).then_some(address)
}

/// Whether a text says what a device is, as `tcp:HOST:PORT`.
fn has_kind(text: &str) -> bool {
    text.starts_with("file:")
        || text.starts_with("tcp:")
        || text.starts_with("gpsd:")
        || text.starts_with("edges:")
}

/// The place of a device with its kind, as it is to be written.
fn write_place<W: fmt::Write>(place: &str, f: &mut fmt::Formatter<W>) -> fmt::Result {
    if let Some((kind, text)) = place.split_once(':') {
        if let Some(address) = address_of_url(text) {
            return write!(f, "{}:{}", kind, address);
        }
    }
    if has_kind(place) {
        f.write_str(place)
    } else if is_address(place.as_bytes()) {
        write!(f, "tcp:{}", place)
    } else {
        write!(f, "file:{}", place)
    }
}

impl Told<'_> {
    /// The word as it is shown: an empty one in quotes.
    fn shown(&self) -> &str {
        if self.word.is_empty() {
            "\"\""
        } else {
            self.word
        }
    }

    fn command(&self) -> &'static str {
        match self.refusal.command {
            Some(command) => command.text(),
            None => "help",
        }
    }

    fn write_no_command<W: fmt::Write>(
        &self,
        near: Option<CommandName>,
        f: &mut fmt::Formatter<W>,
    ) -> fmt::Result {
        let word = self.word;
        if let Some(what) = in_place_of(word) {
            return write!(
                f,
                "{}: no such command; {}, and begin with serve",
                word, what
            );
        }
        if word.starts_with('/') {
            return write!(f, "{}: no such command; say serve gps0=file:{}", word, word);
        }
        if word.contains('=') {
            return write!(f, "{}: no such command; say serve {}", word, word);
        }
        write!(f, "{}: no such command", self.shown())?;
        if let Some(command) = near {
            return write!(f, "; did you mean {}?", command.text());
        }
        match question_near(word) {
            Some(Question::Version) => f.write_str("; did you mean gpsrelay --version?"),
            Some(_) => f.write_str("; did you mean gpsrelay --help?"),
            None if is_dashed(word) => {
                f.write_str("; a command comes before its options: gpsrelay help lists all")
            }
            None => f.write_str("; gpsrelay help lists all"),
        }
    }

    fn write_no_option<W: fmt::Write>(
        &self,
        near: Option<OptionName>,
        f: &mut fmt::Formatter<W>,
    ) -> fmt::Result {
        write!(f, "{}: no such option of {}", self.word, self.command())?;
        if self.refusal.command == Some(CommandName::Serve) {
            if let Some(what) = in_place_of(self.word) {
                return write!(f, "; {}", what);
            }
        }
        if let Some(option) = near {
            return write!(f, "; did you mean --{}?", option.text());
        }
        match question_near(self.word) {
            Some(Question::Version) => f.write_str("; did you mean gpsrelay --version?"),
            Some(_) => f.write_str("; did you mean --help?"),
            None => write!(f, "; gpsrelay help {} lists all", self.command()),
        }
    }

    fn write_stray<W: fmt::Write>(&self, f: &mut fmt::Formatter<W>) -> fmt::Result {
        let word = self.word;
        match self.refusal.command {
            Some(CommandName::Generate) => {
                write!(
                    f,
                    "{}: generate takes options alone: generate --seed N --size N",
                    self.shown()
                )
            }
            Some(command) if word.is_empty() || word == "-" => {
                write!(
                    f,
                    "{}: leave it out: {} reads standard input",
                    self.shown(),
                    command.text()
                )
            }
            Some(command) => write!(
                f,
                "{}: {} reads standard input: {} < {}",
                word,
                command.text(),
                command.text(),
                word
            ),
            None => write!(f, "{}: help takes one command", self.shown()),
        }
    }

    fn write_bad_value<W: fmt::Write>(
        &self,
        option: OptionName,
        f: &mut fmt::Formatter<W>,
    ) -> fmt::Result {
        write!(f, "{}: --{} takes ", self.shown(), option.text())?;
        write_value(option, f)?;
        let value = match self.word.split_once('=') {
            Some((_, value)) if self.word.starts_with("--") => value,
            _ => self.word,
        };
        match option {
            OptionName::Listen => match address_hint(value) {
                Some(hint) => write!(f, "; {}", hint),
                None if is_digits(value) => write!(f, "; say 127.0.0.1:{}", value),
                None => Ok(()),
            },
            OptionName::History if value == "all" => {
                f.write_str("; all is for decode and pseudo")
            }
            _ => Ok(()),
        }
    }

    /// The name and the place of a device word.
    fn halves(&self) -> (&str, &str) {
        match self.word.split_once('=') {
            Some(halves) => halves,
            None => (self.word, ""),
        }
    }

    fn write_no_name<W: fmt::Write>(&self, f: &mut fmt::Formatter<W>) -> fmt::Result {
        let word = self.word;
        if let Some(what) = in_place_of_way(word) {
            return write!(f, "{}: {}", word, what);
        }
        write!(f, "{}: say ", self.shown())?;
        if word.is_empty() {
            return f.write_str(
                "NAME=file:PATH, NAME=tcp:HOST:PORT, NAME=gpsd:HOST:PORT or NAME=edges:PATH",
            );
        }
        if !has_kind(word) && !word.starts_with('/') {
            if let Some((name, place)) = word.split_once(':') {
                if place.starts_with('/') && !place.starts_with("//") || has_kind(place) {
                    write!(f, "{}=", name)?;
                    return write_place(place, f);
                }
            }
        }
        f.write_str("NAME=")?;
        write_place(word, f)
    }

    fn write_no_kind<W: fmt::Write>(&self, f: &mut fmt::Formatter<W>) -> fmt::Result {
        let (name, place) = self.halves();
        if let Some(what) = in_place_of_way(place) {
            return write!(f, "{}: {}", self.word, what);
        }
        if place.starts_with('/') {
            write!(f, "{}: say {}=file:{}", self.word, name, place)
        } else if is_address(place.as_bytes()) {
            write!(f, "{}: say {}=tcp:{}", self.word, name, place)
        } else {
            write!(
                f,
                "{}: say {}=file:PATH, {}=tcp:HOST:PORT, {}=gpsd:HOST:PORT or {}=edges:PATH",
                self.word, name, name, name, name
            )
        }
    }

    fn write_bad_address<W: fmt::Write>(&self, f: &mut fmt::Formatter<W>) -> fmt::Result {
        let (name, place) = self.halves();
        let (kind, text) = match place.split_once(':') {
            Some(halves) => halves,
            None => (place, ""),
        };
        write!(f, "{}: say {}={}:", self.word, name, kind)?;
        if let Some(address) = address_of_url(text) {
            return f.write_str(address);
        }
        f.write_str("HOST:PORT")?;
        match address_hint(text) {
            Some(hint) => write!(f, "; {}", hint),
            None => Ok(()),
        }
    }

    fn write_device<W: fmt::Write>(
        &self,
        cause: DeviceCause,
        f: &mut fmt::Formatter<W>,
    ) -> fmt::Result {
        let word = self.word;
        let (name, _) = self.halves();
        match cause {
            DeviceCause::NoName => self.write_no_name(f),
            DeviceCause::BadName => write!(
                f,
                "{}: a name has 1 to 64 printable ASCII characters without space, \", \\ and =",
                word
            ),
            DeviceCause::NoSuchKind => self.write_no_kind(f),
            DeviceCause::NoPath => write!(f, "{}: the path is missing", word),
            DeviceCause::BadAddress => self.write_bad_address(f),
            DeviceCause::NameTwice => write!(f, "{}: the name {} is used twice", word, name),
            DeviceCause::EdgesTwice => {
                write!(f, "{}: the edges of {} are given twice", word, name)
            }
            DeviceCause::EdgesFirst => {
                write!(f, "{}: give the edges of {} after its own word", word, name)
            }
            DeviceCause::EdgesAlone => write!(
                f,
                "{}: the device {} is missing: say {}=file:PATH, {}=tcp:HOST:PORT or {}=gpsd:HOST:PORT before its edges",
                word, name, name, name, name
            ),
            DeviceCause::TooMany => write!(f, "{}: at most 8 devices are served", word),
        }
    }
}

impl fmt::Display for Told<'_> {
    fn fmt<W: fmt::Write>(&self, f: &mut fmt::Formatter<W>) -> fmt::Result {
        match self.refusal.cause {
            Cause::NoCommand => f.write_str("a command is missing"),
            Cause::Help => f.write_str("help"),
            Cause::Version => f.write_str("version"),
            Cause::NoSuchCommand(near) => self.write_no_command(near, f),
            Cause::NoSuchOption(near) => self.write_no_option(near, f),
            Cause::NoValue(option) => {
                write!(f, "--{}: the value is missing: ", option.text())?;
                write_value(option, f)
            }
            Cause::Twice(option) => write!(f, "--{}: the option is given twice", option.text()),
            Cause::BadValue(option) => self.write_bad_value(option, f),
            Cause::Lacking(option) => {
                write!(f, "{}: --{} is missing: ", self.command(), option.text())?;
                write_value(option, f)
            }
            Cause::Stray => self.write_stray(f),
            Cause::NoDevice => {
                f.write_str("serve: a device is missing: serve gps0=file:/dev/ttyUSB0")
            }
            Cause::Device(cause) => self.write_device(cause, f),
            Cause::Other => f.write_str("invalid command line; see gpsrelay help"),
        }
    }
}
