ghost use Rattle.std.specs.Prelude.{◌≡◌, ◌≤◌, ◌<◌, ◌+◌, ◌∷◌, ◌++◌, [], None, IfOk, OnOk, length};
ghost use Rattle.std.specs.Option.{option_or};
ghost use Rattle.std.specs.Vec.{vec_len, vec_capacity};
ghost use Rattle.book_batch.specs.Sharing.{SharesLines, shares_of};
ghost use Rattle.book_log.specs.DeviceLogView.{AreOf};
ghost use Rattle.book_log.specs.Readings.{fix_in, last_of, of_device, sky_in};
ghost use Rattle.book_log.specs.Steps.{announcement};

use book_batch::Batch;
use gps_fixed::{NoMemory, Stamp};
use gps_report::{Body, Fix, Names, Report, Sky};
use std::alloc::Global;

/// The reports of one call for one device, with their lines, and the last fix and the last sky among them.
#[derive(Drop)]
pub struct Gathered {
    pub(crate) batch: Batch,
    pub(crate) fix: Option<Fix>,
    pub(crate) sky: Option<Sky>,
}

#[derive(Drop)]
struct Listed {
    reports: Vec<Report>,
    fix: Option<Fix>,
    sky: Option<Sky>,
}

/// A fix replaces the last one.
#[inline(always)]
fn renew_fix(last: &mut Option<Fix>, body: &Body)
    ensures { last.new ≡ option_or (fix_in body.now) last.old }
{
    if let Body::Tpv(fix) = body {
        *last = Some(*fix);
    }
}

/// A sky replaces the last one.
#[inline(always)]
fn renew_sky(last: &mut Option<Sky>, body: &Body) -> Result<(), NoMemory>
    ensures { OnOk result (last.new ≡ option_or (sky_in body.now) last.old) }
{
    if let Body::Sky(sky) = body {
        *last = Some(sky.copy()?);
    }
    Ok(())
}

/// The announcement of a first byte, if there is one, and room for the given number of further reports.
fn begun(
    alloc: Global,
    device: u8,
    first: Option<Stamp>,
    more: usize,
) -> Result<Vec<Report>, NoMemory>
    ensures items { IfOk result (λ reports. reports.items ≡ of_device device (announcement first)) }
    ensures room { IfOk result (λ reports. vec_len reports + more ≤ vec_capacity reports) }
{
    let mut reports = Vec::with_capacity(alloc, more)?;
    if let Some(at) = first {
        let body = Body::Device(Some(at));
        reports.push(Report { device, body })?;
    }
    reports.reserve(more)?;
    Ok(reports)
}

fn last_fix(bodies: &[Body]) -> Option<Fix>
    ensures { result ≡ last_of fix_in bodies.now }
{
    let mut fix = None;
    for body in bodies {
        renew_fix(&mut fix, body);
    }
    fix
}

fn last_sky(bodies: &[Body]) -> Result<Option<Sky>, NoMemory>
    ensures { IfOk result (λ sky. sky ≡ last_of sky_in bodies.now) }
{
    let mut sky = None;
    for body in bodies {
        renew_sky(&mut sky, body)?;
    }
    Ok(sky)
}

/// The reports of a device's new bodies, after the announcement. A report has some 170 bytes: the loop does nothing else, so that the compiler copies
/// it as seldom as it can.
#[tactic(auto, using(crate::proofs::ReadingLaws::of_device_more))]
fn reported(
    alloc: Global,
    device: u8,
    first: Option<Stamp>,
    bodies: Vec<Body>,
) -> Result<Vec<Report>, NoMemory>
    ensures { IfOk result (λ reports. reports.items ≡ of_device device (announcement first ++ bodies.items)) }
{
    let mut reports = begun(alloc, device, first, bodies.len())?;
    'bodies: for body in bodies {
        reports.push_reserved(Report { device, body });
    }
    Ok(reports)
}

/// The reports of a device's new bodies, after the announcement of its first byte, if it came with them.
fn list(
    alloc: Global,
    device: u8,
    first: Option<Stamp>,
    bodies: Vec<Body>,
) -> Result<Listed, NoMemory>
    ensures reports { IfOk result (λ out. out.reports.items ≡ of_device device (announcement first ++ bodies.items)) }
    ensures fix { IfOk result (λ out. out.fix ≡ last_of fix_in bodies.items) }
    ensures sky { IfOk result (λ out. out.sky ≡ last_of sky_in bodies.items) }
{
    let fix = last_fix(bodies.as_slice());
    let sky = last_sky(bodies.as_slice())?;
    let reports = reported(alloc, device, first, bodies)?;
    Ok(Listed { reports, fix, sky })
}

/// The reports at a device's end: its last bodies, and then that it has ended.
fn list_end(alloc: Global, device: u8, bodies: Vec<Body>) -> Result<Listed, NoMemory>
    ensures reports { IfOk result (λ out. out.reports.items ≡ of_device device (bodies.items ++ Body.Device None ∷ [])) }
    ensures fix { IfOk result (λ out. out.fix ≡ last_of fix_in bodies.items) }
    ensures sky { IfOk result (λ out. out.sky ≡ last_of sky_in bodies.items) }
{
    let mut out = list(alloc, device, None, bodies)?;
    let body = Body::Device(None);
    out.reports.push(Report { device, body })?;
    Ok(out)
}

/// The batch of a device's reports.
#[tactic(auto, using(crate::proofs::Owned::are_named))]
fn batched(
    alloc: Global,
    device: u8,
    listed: Listed,
    names: &Names,
    shares: u32,
) -> Result<Gathered, NoMemory>
    // The reports are of a device that has a name.
    requires own { AreOf device listed.reports.items }
    requires named { device < length names.now }
    requires few { shares ≤ 64 }

    // The reports and their lines.
    ensures reports { IfOk result (λ out. out.batch.reports ≡ listed.reports.items) }
    ensures shares { IfOk result (λ out. shares_of out.batch ≡ shares) }
    ensures lines { IfOk result (λ out. SharesLines names.now out.batch) }

    // The last fix and the last sky among them.
    ensures fix { IfOk result (λ out. out.fix ≡ listed.fix) }
    ensures sky { IfOk result (λ out. out.sky ≡ listed.sky) }
{
    let Listed { reports, fix, sky } = listed;
    let batch = Batch::of_vec(alloc, reports, names, shares)?;
    Ok(Gathered { batch, fix, sky })
}

/// The reports of a device's new bodies, after the announcement of its first byte, if it came with them, and their lines.
#[tactic(auto, using(crate::proofs::Owned::own_ones))]
pub fn gather(
    alloc: Global,
    device: u8,
    first: Option<Stamp>,
    bodies: Vec<Body>,
    names: &Names,
    shares: u32,
) -> Result<Gathered, NoMemory>
    // The device has a name.
    requires named { device < length names.now }
    requires few { shares ≤ 64 }

    // The reports and their lines.
    ensures reports { IfOk result (λ out. out.batch.reports ≡ of_device device (announcement first ++ bodies.items)) }
    ensures shares { IfOk result (λ out. shares_of out.batch ≡ shares) }
    ensures lines { IfOk result (λ out. SharesLines names.now out.batch) }

    // The last fix and the last sky among them.
    ensures fix { IfOk result (λ out. out.fix ≡ last_of fix_in bodies.items) }
    ensures sky { IfOk result (λ out. out.sky ≡ last_of sky_in bodies.items) }
{
    let listed = list(alloc, device, first, bodies)?;
    let gathered = batched(alloc, device, listed, names, shares)?;
    Ok(gathered)
}

/// The reports at a device's end, and their lines.
#[tactic(auto, using(crate::proofs::Owned::own_ones))]
pub fn gather_end(
    alloc: Global,
    device: u8,
    bodies: Vec<Body>,
    names: &Names,
    shares: u32,
) -> Result<Gathered, NoMemory>
    // The device has a name.
    requires named { device < length names.now }
    requires few { shares ≤ 64 }

    // The reports and their lines.
    ensures reports { IfOk result (λ out. out.batch.reports ≡ of_device device (bodies.items ++ Body.Device None ∷ [])) }
    ensures shares { IfOk result (λ out. shares_of out.batch ≡ shares) }
    ensures lines { IfOk result (λ out. SharesLines names.now out.batch) }

    // The last fix and the last sky among them.
    ensures fix { IfOk result (λ out. out.fix ≡ last_of fix_in bodies.items) }
    ensures sky { IfOk result (λ out. out.sky ≡ last_of sky_in bodies.items) }
{
    let listed = list_end(alloc, device, bodies)?;
    let gathered = batched(alloc, device, listed, names, shares)?;
    Ok(gathered)
}
