ghost use Rattle.std.specs.Prelude.{◌≡◌, ◌∷◌, ◌++◌, ◌+◌, ◌*◌, ◌≤◌, IfOk, OnOk, fold, length, map};
ghost use Rattle.std.specs.Option.{option_or};
ghost use Rattle.gps_report.specs.Fits.{Fits};
ghost use Rattle.device_core.specs.Stream.{note_in};
ghost use Rattle.device_core.specs.Reports.{last_toff as last_of, newer};
ghost use Rattle.device_core.specs.Going.{TookAll, TookAllQuietly, TookOne, TookOneQuietly};
ghost use Rattle.packet_cut.specs.Packets.{placed_packet};

use epoch_core::Epochs;
use gps_fixed::NoMemory;
use gps_report::{Body, Note, Packet, PacketKind, Pair};
use nmea_decode::note_of;
use packet_cut::Placed;
use std::alloc::Global;
use ubx_decode::note_of_frame;

/// What the bytes of a packet say.
fn note_of_bytes(alloc: Global, kind: PacketKind, bytes: &[u8]) -> Result<Note, NoMemory>
    ensures note { IfOk result (λ note. note ≡ note_in kind bytes.now) }
    ensures fits { IfOk result Fits }
{
    match kind {
        PacketKind::Nmea => note_of(alloc, bytes),
        PacketKind::Ubx => note_of_frame(alloc, bytes),
    }
}

/// What a packet says. It only forwards: the prover then sees one packet in place of its parts.
fn note_of_packet(alloc: Global, packet: &Packet) -> Result<Note, NoMemory>
    ensures note { IfOk result (λ note. note ≡ note_in packet.now.kind packet.now.bytes) }
    ensures fits { IfOk result Fits }
{
    note_of_bytes(alloc, packet.kind, packet.bytes.as_slice())
}

fn newer_toff(body: &Body, before: Option<Pair>) -> Option<Pair>
    ensures { result ≡ newer before body.now }
{
    match body {
        Body::Toff(pair) => Some(*pair),
        _ => before,
    }
}

fn fold_toffs(bodies: &[Body], before: Option<Pair>) -> Option<Pair>
    ensures { result ≡ fold newer before bodies.now }
{
    bodies
        .iter()
        .fold(before, |toff, body| newer_toff(body, toff))
}

/// The last serial time among reports, or else the one before them.
#[tactic(auto, using(crate::proofs::Toffs::fold_is))]
fn last_toff(bodies: &[Body], before: Option<Pair>) -> Option<Pair>
    ensures { result ≡ option_or (last_of bodies.now) before }
{
    let toff = fold_toffs(bodies, before);
    toff
}

/// Adds a packet and what it causes after the reports.
fn add_told(out: &mut Vec<Body>, packet: Packet, mut caused: Vec<Body>) -> Result<(), NoMemory>
    ensures { OnOk result (out.new.items ≡ out.old.items ++ Body.Packet packet ∷ caused.items) }
{
    out.push(Body::Packet(packet))?;
    out.append(&mut caused)?;
    Ok(())
}

/// Takes a packet: it goes to the reports, and what its note causes after it, at most five.
#[tactic(auto, using(crate::proofs::Taking::took_one, crate::proofs::Taking::few_more))]
fn take_packet(
    alloc: Global,
    epochs: &mut Epochs,
    packet: Packet,
    toff: Option<Pair>,
    out: &mut Vec<Body>,
) -> Result<Option<Pair>, NoMemory>
    ensures took { IfOk result (λ next. TookOne epochs.old.now epochs.new.now toff next packet out.old.items out.new.items) }
    ensures few { OnOk result (length out.new.items ≤ length out.old.items + 6) }
    ensures back { epochs.new.back ≡ epochs.old.back }
{
    let note = note_of_packet(alloc, &packet)?;
    let caused = epochs.take(&note, packet.at)?;
    let next = last_toff(caused.as_slice(), toff);
    add_told(out, packet, caused)?;
    Ok(next)
}

/// Takes packets in order, and returns their reports and the last serial time.
#[tactic(auto, using(crate::proofs::Taking::took_none, crate::proofs::Taking::took_more))]
pub(crate) fn take_packets(
    alloc: Global,
    epochs: &mut Epochs,
    packets: Vec<Packet>,
    toff: Option<Pair>,
) -> Result<(Vec<Body>, Option<Pair>), NoMemory>
    ensures took { IfOk result (λ r. TookAll epochs.old.now epochs.new.now toff r.1 packets.items r.0.items) }
    ensures few { IfOk result (λ r. length r.0.items ≤ 6 * length packets.items) }
    ensures back { epochs.new.back ≡ epochs.old.back }
{
    // Few packets cause more than one report.
    let mut out = Vec::with_capacity(alloc, packets.len().saturating_mul(2))?;
    let mut last = toff;
    'packets: for packet in packets {
        last = take_packet(alloc, epochs, packet, last, &mut out)?;
    }
    Ok((out, last))
}

/// Adds reports after others. Most packets cause none, and mostly none come before those that are caused: then their own list is kept.
#[tactic(auto, using(crate::proofs::Taking::none_behind, crate::proofs::Taking::none_before))]
fn add_behind(out: &mut Vec<Body>, mut caused: Vec<Body>) -> Result<(), NoMemory>
    ensures { OnOk result (out.new.items ≡ out.old.items ++ caused.items) }
{
    if caused.is_empty() {
        return Ok(());
    }
    if out.is_empty() {
        *out = caused;
        return Ok(());
    }
    out.append(&mut caused)?;
    Ok(())
}

/// Takes the packet at a place: what its note causes goes to the reports, and it does not.
#[tactic(auto, using(crate::proofs::Quiet::took_one_quietly))]
fn take_placed(
    alloc: Global,
    epochs: &mut Epochs,
    bytes: &[u8],
    placed: Placed,
    toff: Option<Pair>,
    out: &mut Vec<Body>,
) -> Result<Option<Pair>, NoMemory>
    ensures took { IfOk result (λ next. TookOneQuietly epochs.old.now epochs.new.now toff next (placed_packet bytes.now placed) out.old.items out.new.items) }
    ensures back { epochs.new.back ≡ epochs.old.back }
{
    // A note is large: it is read where it was made.
    let note = note_of_bytes(alloc, placed.kind, placed.part(bytes));
    let caused = match &note {
        Ok(note) => epochs.take(note, placed.at)?,
        Err(_) => return Err(NoMemory),
    };
    let next = last_toff(caused.as_slice(), toff);
    add_behind(out, caused)?;
    Ok(next)
}

/// The same for all packets, in order: their reports without them, and the last serial time.
#[tactic(auto, using(crate::proofs::Quiet::took_none_quietly, crate::proofs::Quiet::took_more_quietly))]
pub(crate) fn take_all_placed(
    alloc: Global,
    epochs: &mut Epochs,
    bytes: &[u8],
    placed: Vec<Placed>,
    toff: Option<Pair>,
) -> Result<(Vec<Body>, Option<Pair>), NoMemory>
    ensures took { IfOk result (λ r. TookAllQuietly epochs.old.now epochs.new.now toff r.1 (map (placed_packet bytes.now) placed.items) r.0.items) }
    ensures back { epochs.new.back ≡ epochs.old.back }
{
    let mut out = Vec::new(alloc);
    let mut last = toff;
    'placed: for each in placed {
        last = take_placed(alloc, epochs, bytes, each, last, &mut out)?;
    }
    Ok((out, last))
}
