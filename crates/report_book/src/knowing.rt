ghost use Rattle.std.specs.Prelude.{◌≡◌, ◌++◌, List, IfOk, OnOk, length, map};
ghost use Rattle.std.specs.List.{range_with_len};
ghost use Rattle.std.specs.Option.{option_copied};
ghost use Rattle.book_log.specs.Entries.{Entry};
ghost use Rattle.book_log.specs.History.{active};
ghost use Rattle.book_log.specs.DeviceLogView.{LogHolds};
ghost use Rattle.book_log.specs.Standing.{StandsFor};
ghost use Rattle.book_replies.specs.Polling.{without_reports};
ghost use Rattle.report_book.specs.Knowing.{fix_reports, known_in, shown_in, sky_reports};

use book_log::DeviceLog;
use book_replies::ReplyData;
use gps_fixed::{NoMemory, Stamp};
use gps_report::{Body, Fix, Names, Report, Sky};
use std::alloc::Global;

fn push_fix(
    fixes: &mut Vec<Report>,
    device: u8,
    is_active: bool,
    fix: Option<Fix>,
) -> Result<(), NoMemory>
    ensures { OnOk result (fixes.new.items ≡ fixes.old.items ++ fix_reports device is_active fix) }
{
    if !is_active {
        return Ok(());
    }
    if let Some(fix) = fix {
        let body = Body::Tpv(fix);
        fixes.push(Report { device, body })?;
    }
    Ok(())
}

fn push_sky(
    skies: &mut Vec<Report>,
    device: u8,
    is_active: bool,
    sky: Option<&Sky>,
) -> Result<(), NoMemory>
    ensures { OnOk result (skies.new.items ≡ skies.old.items ++ sky_reports device is_active (option_copied sky.entry)) }
{
    if !is_active {
        return Ok(());
    }
    if let Some(sky) = sky {
        let body = Body::Sky(sky.copy()?);
        skies.push(Report { device, body })?;
    }
    Ok(())
}

/// Of each device the stamp of its first byte, if it is active.
fn stamps(alloc: Global, log: &DeviceLog, names: &Names) -> Result<Vec<Option<Stamp>>, NoMemory>
    requires { length names.now ≡ length log.now.present.lines }
    ensures { IfOk result (λ firsts. (before : List Entry) → StandsFor log.now.opening before
        → firsts.items ≡ map (λ d. active d (before ++ log.now.log)) (range_with_len 0 (length names.now))) }
{
    let mut firsts = Vec::with_capacity(alloc, names.len())?;
    'devices: for device in 0..names.len() as u8 {
        firsts.push(log.active(device))?;
    }
    Ok(firsts)
}

/// What replies other than those to POLL show of the devices now.
fn stamps_known(alloc: Global, log: &DeviceLog, names: &Names) -> Result<ReplyData, NoMemory>
    requires named { length names.now ≡ length log.now.present.lines }
    requires holds { LogHolds log.now }
    ensures known { IfOk result (λ known. (before : List Entry) → StandsFor log.now.opening before
        → known ≡ without_reports (known_in (length names.now) (before ++ log.now.log))) }
    ensures count { IfOk result (λ known. length known.firsts ≡ length names.now) }
{
    let firsts = stamps(alloc, log, names)?;
    let last = log.last_stamp();
    Ok(ReplyData::of(firsts, last, Vec::new(alloc), Vec::new(alloc)))
}

/// All that replies show of the devices now.
#[tactic(auto, using(crate::proofs::Reading::none_read, crate::proofs::Reading::one_more_read))]
fn all_known(alloc: Global, log: &DeviceLog, names: &Names) -> Result<ReplyData, NoMemory>
    requires named { length names.now ≡ length log.now.present.lines }
    requires holds { LogHolds log.now }
    ensures known { IfOk result (λ known. (before : List Entry) → StandsFor log.now.opening before
        → known ≡ known_in (length names.now) (before ++ log.now.log)) }
    ensures count { IfOk result (λ known. length known.firsts ≡ length names.now) }
{
    let mut firsts = Vec::new(alloc);
    let mut fixes = Vec::new(alloc);
    let mut skies = Vec::new(alloc);
    'devices: for device in 0..names.len() as u8 {
        let first = log.active(device);
        let is_active = first.is_some();
        firsts.push(first)?;
        push_fix(&mut fixes, device, is_active, log.last_fix(device))?;
        push_sky(&mut skies, device, is_active, log.last_sky(device))?;
    }
    Ok(ReplyData::of(firsts, log.last_stamp(), fixes, skies))
}

/// What replies show of the devices now, their last fixes and skies only if `polls` is true.
pub fn known(
    alloc: Global,
    log: &DeviceLog,
    names: &Names,
    polls: bool,
) -> Result<ReplyData, NoMemory>
    requires named { length names.now ≡ length log.now.present.lines }
    requires holds { LogHolds log.now }
    ensures known { IfOk result (λ known. (before : List Entry) → StandsFor log.now.opening before
        → known ≡ shown_in polls (length names.now) (before ++ log.now.log)) }
    ensures count { IfOk result (λ known. length known.firsts ≡ length names.now) }
{
    if polls {
        all_known(alloc, log, names)
    } else {
        stamps_known(alloc, log, names)
    }
}
