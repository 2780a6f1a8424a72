ghost use Rattle.std.specs.Prelude.{◌≡◌, ◌==◌, ◌<◌, IfOk, IfSome, length, position, option_map};
ghost use Rattle.gps_words.specs.Devices.{address_in, halves, has_port_behind, has_slash, is_address, is_port, last_colon, path_in, target_in, target_of, word_in, word_of};

use gps_fixed::{Bytes, NoMemory, read_whole};
use gps_report::{Name, NameFault};
use std::alloc::Global;

/// Where the bytes of a device come from.
#[derive(Debug, Drop, PartialEq, Eq)]
pub enum Input {
    /// The path of a file, not empty.
    File(Bytes),
    /// `HOST:PORT`.
    Tcp(Bytes),
    /// The `HOST:PORT` of another daemon.
    Gpsd(Bytes),
}

/// What a device word says of its name.
#[derive(Debug, Drop)]
pub(crate) enum Target {
    Device(Input),
    /// The path of a file with the edges of the device, not empty.
    Edges(Bytes),
}

/// A device word: `NAME=file:PATH`, `NAME=tcp:HOST:PORT`, `NAME=gpsd:HOST:PORT` or `NAME=edges:PATH`.
#[derive(Debug, Drop)]
pub(crate) struct DeviceWord {
    pub(crate) name: Name,
    pub(crate) target: Target,
}

fn place_of(text: &[u8], mark: u8) -> Option<usize>
    ensures is { result ≡ position (λ c. c == mark) text.now }
    ensures within { IfSome result (λ place. place < length text.now) }
{
    text.iter().position(|byte| *byte == mark)
}

/// What comes before the first such byte, and what follows it.
#[tactic(auto, unfolding(crate::specs::Devices::halves))]
fn halves(text: &[u8], mark: u8) -> Option<(&[u8], &[u8])>
    ensures { option_map (λ p. (p.0.now, p.1.now)) result ≡ halves mark text.entry.now }
{
    match place_of(text, mark) {
        Some(place) => Some((&text[..place], &text[place + 1..])),
        None => None,
    }
}

#[tactic(auto, using(crate::proofs::Colons::last_found, crate::proofs::Colons::last_passed, crate::proofs::Colons::no_colon))]
fn last_colon(text: &[u8]) -> Option<usize>
    ensures is { result ≡ last_colon text.now }
    ensures within { IfSome result (λ place. place < length text.now) }
{
    let mut rest = text;
    'bytes: while let [front @ .., last] = rest {
        if *last == b':' {
            return Some(front.len());
        }
        rest = front;
    }
    None
}

#[tactic(auto, unfolding(crate::specs::Devices::is_port))]
fn is_port(text: &[u8]) -> bool
    ensures { result ≡ is_port text.now }
{
    if text.is_empty() || text.len() > 5 {
        return false;
    }
    match read_whole(text, text.len()) {
        Some(port) => port <= 65_535,
        None => false,
    }
}

fn has_slash(text: &[u8]) -> bool
    ensures { result ≡ has_slash text.now }
{
    text.iter().any(|byte| *byte == b'/')
}

fn has_port(text: &[u8]) -> bool
    ensures { result ≡ has_port_behind text.now (last_colon text.now) }
{
    match last_colon(text) {
        Some(place) => place > 0 && is_port(&text[place + 1..]),
        None => false,
    }
}

/// Whether a text is `HOST:PORT`, split at its last `:`. The host has no `/`.
#[tactic(auto, unfolding(crate::specs::Devices::is_address))]
pub fn is_address(text: &[u8]) -> bool
    ensures { result ≡ is_address text.now }
{
    !has_slash(text) && has_port(text)
}

pub(crate) fn path(alloc: Global, text: &[u8]) -> Result<Option<Bytes>, NoMemory>
    ensures { IfOk result (λ path. path ≡ path_in text.now) }
{
    if text.is_empty() {
        return Ok(None);
    }
    let path = Bytes::from_slice(alloc, text)?;
    Ok(Some(path))
}

fn address(alloc: Global, text: &[u8]) -> Result<Option<Bytes>, NoMemory>
    ensures { IfOk result (λ address. address ≡ address_in text.now) }
{
    if !is_address(text) {
        return Ok(None);
    }
    let address = Bytes::from_slice(alloc, text)?;
    Ok(Some(address))
}

/// What a word of this kind says: a file, a connection, another daemon, or a file with edges. All else is refused.
#[tactic(auto, unfolding(crate::specs::Devices::target_of))]
fn target_of(alloc: Global, kind: &[u8], text: &[u8]) -> Result<Option<Target>, NoMemory>
    ensures { IfOk result (λ target. target ≡ target_of kind.now text.now) }
{
    if kind == b"file".as_slice() {
        let path = path(alloc, text)?;
        Ok(path.map(|path| Target::Device(Input::File(path))))
    } else if kind == b"tcp".as_slice() {
        let address = address(alloc, text)?;
        Ok(address.map(|address| Target::Device(Input::Tcp(address))))
    } else if kind == b"gpsd".as_slice() {
        let address = address(alloc, text)?;
        Ok(address.map(|address| Target::Device(Input::Gpsd(address))))
    } else if kind == b"edges".as_slice() {
        let path = path(alloc, text)?;
        Ok(path.map(|path| Target::Edges(path)))
    } else {
        Ok(None)
    }
}

#[tactic(auto, unfolding(crate::specs::Devices::target_in))]
fn target_in(alloc: Global, text: &[u8]) -> Result<Option<Target>, NoMemory>
    ensures { IfOk result (λ target. target ≡ target_in text.now) }
{
    match halves(text, b':') {
        Some((kind, text)) => target_of(alloc, kind, text),
        None => Ok(None),
    }
}

fn word_of(alloc: Global, name: &[u8], text: &[u8]) -> Result<Option<DeviceWord>, NoMemory>
    ensures { IfOk result (λ word. word ≡ word_of name.now (target_in text.now)) }
{
    match Name::of(alloc, name) {
        Ok(name) => match target_in(alloc, text)? {
            Some(target) => Ok(Some(DeviceWord { name, target })),
            None => Ok(None),
        },
        Err(NameFault::BadName) => Ok(None),
        Err(NameFault::NoMemory) => Err(NoMemory),
    }
}

/// The device word that a text is.
#[tactic(auto, unfolding(crate::specs::Devices::word_in))]
pub(crate) fn device_word(alloc: Global, text: &str) -> Result<Option<DeviceWord>, NoMemory>
    ensures { IfOk result (λ word. word ≡ word_in text.now) }
{
    match halves(text.as_bytes(), b'=') {
        Some((name, text)) => word_of(alloc, name, text),
        None => Ok(None),
    }
}
