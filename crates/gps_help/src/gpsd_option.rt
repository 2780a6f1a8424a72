//! What to do in place of an option of gpsd (gpsd(8)).

use crate::word::head_of;

/// What to do in place of an option of gpsd, by its letter.
fn in_place_of_letter(letter: u8) -> Option<&'static str> {
    match letter {
        b'b' => Some("leave it out: serve writes nothing to a device"),
        b'D' => Some("leave it and its value out: serve has no levels of messages"),
        b'F' => Some(
            "leave it and its value out: the devices of serve are words, and a stop is asked by --stop",
        ),
        b'f' => Some("leave it and its value out: stty sets the bits and the parity of a line"),
        b'G' => Some("say --listen 0.0.0.0:2947 for all addresses"),
        b'l' => Some("leave it out: serve reads NMEA 0183 and UBX"),
        b'N' => Some("leave it out: serve stays in the foreground"),
        b'n' => Some("leave it out: serve reads its devices before a client connects"),
        b'P' => Some("leave it and its value out: what starts serve knows its process"),
        b'p' => Some("leave it out: serve never writes to a device"),
        b'r' => Some("leave it out: serve tells the time of the receiver also without a fix"),
        b'S' => Some("say --listen 127.0.0.1:PORT"),
        b's' => Some(
            "leave it and its value out: gpsrelay-port DEVICE SPEED sets the speed of a line",
        ),
        _ => None,
    }
}

/// The letter of a long option of gpsd, given without its dashes.
fn letter_of(name: &str) -> Option<u8> {
    match name {
        "badtime" => Some(b'r'),
        "debug" => Some(b'D'),
        "drivers" => Some(b'l'),
        "foreground" => Some(b'N'),
        "framing" => Some(b'f'),
        "listenany" => Some(b'G'),
        "nowait" => Some(b'n'),
        "passive" => Some(b'p'),
        "pidfile" => Some(b'P'),
        "port" => Some(b'S'),
        "readonly" => Some(b'b'),
        "sockfile" => Some(b'F'),
        "speed" => Some(b's'),
        _ => None,
    }
}

/// Whether an option of gpsd takes a value.
fn has_value(letter: u8) -> bool {
    matches!(letter, b'D' | b'F' | b'f' | b'P' | b'S' | b's')
}

/// Whether the value of an option begins so, in the option's own word.
fn begins_value(byte: u8) -> bool {
    matches!(byte, b'0'..=b'9' | b'/' | b'.')
}

/// What to do in place of several options of gpsd in one word, none of which takes a value.
fn in_place_of_letters(letters: &[u8]) -> Option<&'static str> {
    let are_all = letters.iter().all(|letter| matches!(
        *letter,
        b'b' | b'G' | b'N' | b'n' | b'p' | b'r'
    ));
    if !are_all {
        None
    } else if letters.iter().any(|letter| *letter == b'G') {
        in_place_of_letter(b'G')
    } else {
        Some("leave it out: serve needs none of these letters")
    }
}

/// What to do in place of an option of gpsd, as it is written: with one dash, its value behind it or not, or with two.
pub(crate) fn in_place_of(option: &str) -> Option<&'static str> {
    if let Some(name) = option.strip_prefix("--") {
        return in_place_of_letter(letter_of(head_of(name))?);
    }
    match option.as_bytes() {
        [b'-', letter] => in_place_of_letter(*letter),
        [b'-', letter, value, ..] if has_value(*letter) && begins_value(*value) => {
            in_place_of_letter(*letter)
        }
        [b'-', letters @ ..] => in_place_of_letters(letters),
        _ => None,
    }
}
