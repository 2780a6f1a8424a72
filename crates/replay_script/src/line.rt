ghost use Rattle.std.specs.Prelude.{◌≡◌, IfOk, IfSome, Some, unwrap_or};
ghost use Rattle.replay_script.specs.Events.{Fits, bytes_event, device_in, edge_at, event_in, feed_in, input_in, monitor_in, number_event, open_in, word_event};

use crate::event::ScriptEvent;
use crate::payload::{Payload, payload_bytes};
use crate::words::{halves, number_and_count, numbered, stamped};
use gps_fixed::NoMemory;
use gps_report::{Name, NameFault};
use pps_edges::{edge_of_line, whole_number};
use std::alloc::Global;

#[tactic(auto, unfolding(crate::specs::Events::device_in))]
fn device(alloc: Global, text: &[u8]) -> Result<Option<ScriptEvent>, NoMemory>
    ensures is { IfOk result (λ event. event ≡ device_in text.now) }
    ensures fits { IfOk result (λ event. IfSome event Fits) }
{
    match Name::of(alloc, text) {
        Ok(name) => Ok(Some(ScriptEvent::Device(name))),
        Err(NameFault::BadName) => Ok(None),
        Err(NameFault::NoMemory) => Err(NoMemory),
    }
}

#[tactic(auto, unfolding(crate::specs::Events::feed_in))]
fn feed(alloc: Global, payload: Payload, text: &[u8]) -> Result<Option<ScriptEvent>, NoMemory>
    ensures is { IfOk result (λ event. event ≡ feed_in payload text.now) }
    ensures fits { IfOk result (λ event. IfSome event Fits) }
{
    let Some((device, rest)) = numbered(text) else {
        return Ok(None);
    };
    let Some((at, rest)) = stamped(rest) else {
        return Ok(None);
    };
    match payload_bytes(alloc, payload, rest)? {
        Some(bytes) => Ok(Some(ScriptEvent::Feed { device, at, bytes })),
        None => Ok(None),
    }
}

#[tactic(auto, unfolding(crate::specs::Events::input_in))]
fn input(alloc: Global, payload: Payload, text: &[u8]) -> Result<Option<ScriptEvent>, NoMemory>
    ensures is { IfOk result (λ event. event ≡ input_in payload text.now) }
    ensures fits { IfOk result (λ event. IfSome event Fits) }
{
    let Some((session, rest)) = numbered(text) else {
        return Ok(None);
    };
    match payload_bytes(alloc, payload, rest)? {
        Some(bytes) => Ok(Some(ScriptEvent::Input { session, bytes })),
        None => Ok(None),
    }
}

#[tactic(auto, unfolding(crate::specs::Events::edge_at))]
fn edge(text: &[u8]) -> Option<ScriptEvent>
    ensures is { result ≡ edge_at text.now }
    ensures fits { IfSome result Fits }
{
    let (device, line) = numbered(text)?;
    let edge = edge_of_line(line)?;
    Some(ScriptEvent::Edge { device, edge })
}

#[tactic(auto, unfolding(crate::specs::Events::open_in))]
fn open(text: &[u8]) -> Option<ScriptEvent>
    ensures is { result ≡ open_in text.now }
    ensures fits { IfSome result Fits }
{
    if let Some(session) = whole_number(text) {
        return Some(ScriptEvent::Open { session, cap: None });
    }
    let (session, cap) = number_and_count(text, 1, 65_536)?;
    Some(ScriptEvent::Open {
        session,
        cap: Some(cap),
    })
}

#[tactic(auto, unfolding(crate::specs::Events::monitor_in))]
fn monitor(text: &[u8]) -> Option<ScriptEvent>
    ensures is { result ≡ monitor_in text.now }
    ensures fits { IfSome result Fits }
{
    let (monitor, rest) = numbered(text)?;
    let unit = whole_number(rest)?;
    Some(ScriptEvent::Monitor { monitor, unit })
}

/// The event of a word that is followed by a name or bytes; none if it is another word.
#[tactic(auto, unfolding(crate::specs::Events::bytes_event))]
fn bytes_event(
    alloc: Global,
    word: &[u8],
    rest: &[u8],
) -> Result<Option<Option<ScriptEvent>>, NoMemory>
    ensures is { IfOk result (λ event. event ≡ bytes_event word.now rest.now) }
    ensures fits { IfOk result (λ event. IfSome event (λ e. IfSome e Fits)) }
{
    let event = if word == b"device".as_slice() {
        device(alloc, rest)?
    } else if word == b"bytes".as_slice() {
        feed(alloc, Payload::Hex, rest)?
    } else if word == b"text".as_slice() {
        feed(alloc, Payload::Sentence, rest)?
    } else if word == b"part".as_slice() {
        input(alloc, Payload::Part, rest)?
    } else if word == b"say".as_slice() {
        input(alloc, Payload::Request, rest)?
    } else if word == b"input".as_slice() {
        input(alloc, Payload::Hex, rest)?
    } else {
        return Ok(None);
    };
    Ok(Some(event))
}

/// The event of a word that is followed by numbers or an edge.
#[tactic(auto, unfolding(crate::specs::Events::number_event))]
fn number_event(word: &[u8], rest: &[u8]) -> Option<ScriptEvent>
    ensures is { result ≡ number_event word.now rest.now }
    ensures fits { IfSome result Fits }
{
    if word == b"segment".as_slice() {
        let (unit, first) = number_and_count(rest, 0, 1_073_741_823)?;
        Some(ScriptEvent::Segment { unit, first })
    } else if word == b"edge".as_slice() {
        edge(rest)
    } else if word == b"end".as_slice() {
        Some(ScriptEvent::End(whole_number(rest)?))
    } else if word == b"lose".as_slice() {
        Some(ScriptEvent::Lose(whole_number(rest)?))
    } else if word == b"open".as_slice() {
        open(rest)
    } else if word == b"hang".as_slice() {
        Some(ScriptEvent::Hang(whole_number(rest)?))
    } else if word == b"take".as_slice() {
        let (session, most) = number_and_count(rest, 1, 65_536)?;
        Some(ScriptEvent::Take { session, most })
    } else if word == b"monitor".as_slice() {
        monitor(rest)
    } else if word == b"store".as_slice() {
        let (unit, steps) = number_and_count(rest, 1, 1_000)?;
        Some(ScriptEvent::Store { unit, steps })
    } else if word == b"load".as_slice() {
        let (monitor, steps) = number_and_count(rest, 1, 1_000)?;
        Some(ScriptEvent::Load { monitor, steps })
    } else {
        None
    }
}

fn word_event(alloc: Global, word: &[u8], rest: &[u8]) -> Result<Option<ScriptEvent>, NoMemory>
    ensures is { IfOk result (λ event. event ≡ word_event word.now rest.now) }
    ensures fits { IfOk result (λ event. IfSome event Fits) }
{
    match bytes_event(alloc, word, rest)? {
        Some(event) => Ok(event),
        None => Ok(number_event(word, rest)),
    }
}

/// The event of a line, without its line end. None exactly if a script may not have the line. It may have an empty line or
/// one that begins with `#`, or a word, one space and the word's arguments, by the table of [`ScriptEvent`]. It allocates
/// only for a name and for bytes.
#[tactic(auto, unfolding(crate::specs::Events::event_in))]
pub fn event_of(alloc: Global, line: &[u8]) -> Result<Option<ScriptEvent>, NoMemory>
    ensures exact { IfOk result (λ event. event ≡ event_in line.now) }
    ensures fits { IfOk result (λ event. IfSome event Fits) }
{
    match line {
        [] | [b'#', ..] => Ok(Some(ScriptEvent::Nothing)),
        [_, ..] => match halves(line, b' ') {
            Some((word, rest)) => word_event(alloc, word, rest),
            None => Ok(None),
        },
    }
}
