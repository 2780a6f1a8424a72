ghost use Rattle.std.specs.Prelude.{◌≡◌, ◌++◌, ◌≤◌, ◌<◌, ◌+◌, ◌*◌, ◌^◌, false, true, [], List, IfOk, OnErr, get_or, length, max, set};
ghost use Rattle.std.specs.List.{list_all};
ghost use Rattle.std.specs.Option.{option_copied};
ghost use Rattle.gps_fixed.specs.Limits.{longest_piece, most_history};
ghost use Rattle.book_batch.specs.Sharing.{SharesLines, shares_of};
ghost use Rattle.book_log.specs.Entries.{Entry, edged, ended, fed, lost};
ghost use Rattle.book_log.specs.Readings.{last_fix, last_sky, last_stamp};
ghost use Rattle.book_log.specs.History.{active, history};
ghost use Rattle.book_log.specs.Standing.{StandsFor, has_stopped};
ghost use Rattle.book_log.specs.DeviceLogView.{LogAdds, AreOf, LogHolds, IsFresh, stopped_of, turned_if, turns_at};

use crate::addition::Addition;
use crate::device_states::DeviceStates;
use crate::generation::{Generation, begin, next_opening, turns_due};
use crate::log::Log;
use book_batch::Batch;
use gps_fixed::{NoMemory, Stamp};
use gps_report::{Edge, Fix, Names, Sky};
use std::alloc::Global;
use std::marker::Model;

/// The devices of a book, the opening of its generation, and the log since.
///
/// A refused call leaves all as it was. Devices are numbered from 0.
#[derive(Drop)]
pub struct DeviceLog {
    alloc: Global,
    present: DeviceStates,
    current: Generation,
    generation: u64,
    limit: u32,
}

impl Model for DeviceLog {
    ghost use Rattle.book_log.specs.DeviceLogView.{LogHolds, DeviceLogView};
    ghost use Rattle.book_log.specs.Turning.{shown};

    ghost Value = { DeviceLogView };

    ghost view = { λ b. shown b.present b.limit b.generation b.current };

    ghost invariant = { λ b. LogHolds (shown b.present b.limit b.generation b.current) };
}

impl DeviceLog {
    /// The given number of devices that were given nothing yet, and an empty log. A generation holds at most `limit` symbols, or those of one call
    /// if that is more.
    pub fn new(alloc: Global, devices: u8, limit: u32) -> Result<DeviceLog, NoMemory>
        requires { limit ≤ most_history }
        ensures fresh { IfOk result (λ log. IsFresh devices limit log) }
        ensures holds { IfOk result LogHolds }
    {
        let present = DeviceStates::new(alloc, devices)?;
        let opening = present.copy(alloc)?;
        let current = Generation {
            opening,
            log: Log::new(),
            length: 0,
            symbols: 0,
        };
        Ok(DeviceLog {
            alloc,
            present,
            current,
            generation: 0,
            limit,
        })
    }

    /// Gives a device its next piece of bytes, which came at this stamp: the reports that it adds, the announcement of the device's first
    /// byte before its packets. The log turns before it exactly if it holds a symbol and would come to more than the limit.
    pub fn feed(
        &mut self,
        device: u8,
        at: Stamp,
        bytes: &[u8],
        names: &Names,
        shares: u32,
    ) -> Result<Addition, NoMemory>
        // The device runs, and has a name. The piece has 1 to 512 bytes.
        requires named { device < length names.now }
        requires shares { shares ≤ 64 }
        requires runs { get_or (stopped_of self.old.present) device true ≡ false }
        requires some { 0 < length bytes.now }
        requires piece { length bytes.now ≤ longest_piece }

        // What the log gains.
        ensures adds { IfOk result (λ added. LogAdds (turned_if (turns_at self.old (length bytes.now)) self.old) self.new
            (fed device at bytes.now) added.batch.reports) }
        ensures turned { IfOk result (λ added. added.turned ≡ turns_at self.old (length bytes.now)) }
        ensures first { IfOk result (λ added. added.first ≡ (turned_if (turns_at self.old (length bytes.now)) self.old).length) }

        // What is handed on: the reports and their lines, for the given number of sessions.
        ensures few { IfOk result (λ added. length added.batch.reports ≤ 2056 + length bytes.now) }
        ensures own { IfOk result (λ added. AreOf device added.batch.reports) }
        ensures shares { IfOk result (λ added. shares_of added.batch ≡ shares) }
        ensures lines { IfOk result (λ added. SharesLines names.now added.batch) }

        // What the log is after it, and what a refusal leaves.
        ensures stopped { stopped_of self.new.present ≡ stopped_of self.old.present }
        ensures holds { LogHolds self.new }
        ensures err { OnErr result (self.new ≡ self.old) }
    {
        let turned = turns_due(self.current.symbols, self.limit, bytes.len() as u32);
        let next = next_opening(self.alloc, turned, &self.present)?;
        let batch = self
            .present
            .feed(self.alloc, device, at, bytes, names, shares)?;
        begin(next, &mut self.current, &mut self.generation);
        let first = self.current.length;
        self.current.log.push_piece(device, at, bytes);
        self.current.length += count_of(&batch);
        self.current.symbols += bytes.len() as u32;
        Ok(Addition {
            turned,
            first,
            batch,
        })
    }

    /// Gives a device its next pulse edge: the report that it adds, if it has one. The log turns before it exactly if it holds a
    /// symbol and would come to more than the limit.
    pub fn edge(
        &mut self,
        device: u8,
        edge: &Edge,
        names: &Names,
        shares: u32,
    ) -> Result<Addition, NoMemory>
        // The device runs, and has a name.
        requires named { device < length names.now }
        requires shares { shares ≤ 64 }
        requires runs { get_or (stopped_of self.old.present) device true ≡ false }

        // What the log gains.
        ensures adds { IfOk result (λ added. LogAdds (turned_if (turns_at self.old 1) self.old) self.new (edged device edge.now) added.batch.reports) }
        ensures turned { IfOk result (λ added. added.turned ≡ turns_at self.old 1) }
        ensures first { IfOk result (λ added. added.first ≡ (turned_if (turns_at self.old 1) self.old).length) }

        // What is handed on: the reports and their lines, for the given number of sessions.
        ensures few { IfOk result (λ added. length added.batch.reports ≤ 1) }
        ensures own { IfOk result (λ added. AreOf device added.batch.reports) }
        ensures shares { IfOk result (λ added. shares_of added.batch ≡ shares) }
        ensures lines { IfOk result (λ added. SharesLines names.now added.batch) }

        // What the log is after it, and what a refusal leaves.
        ensures stopped { stopped_of self.new.present ≡ stopped_of self.old.present }
        ensures holds { LogHolds self.new }
        ensures err { OnErr result (self.new ≡ self.old) }
    {
        let turned = turns_due(self.current.symbols, self.limit, 1);
        let next = next_opening(self.alloc, turned, &self.present)?;
        let batch = self.present.edge(self.alloc, device, edge, names, shares)?;
        begin(next, &mut self.current, &mut self.generation);
        let first = self.current.length;
        self.current.log.push_edge(device, edge);
        self.current.length += count_of(&batch);
        self.current.symbols += 1;
        Ok(Addition {
            turned,
            first,
            batch,
        })
    }

    /// Ends a device: the fix and the sky of its epoch that is not closed, and then that it has ended. The log never turns here.
    pub fn end_device(
        &mut self,
        device: u8,
        names: &Names,
        shares: u32,
    ) -> Result<Addition, NoMemory>
        // The device runs, and has a name.
        requires named { device < length names.now }
        requires shares { shares ≤ 64 }
        requires runs { get_or (stopped_of self.old.present) device true ≡ false }

        // What the log gains.
        ensures adds { IfOk result (λ added. LogAdds self.old self.new (ended device) added.batch.reports) }
        ensures turned { IfOk result (λ added. added.turned ≡ false) }
        ensures first { IfOk result (λ added. added.first ≡ self.old.length) }

        // What is handed on: the reports and their lines, for the given number of sessions.
        ensures few { IfOk result (λ added. length added.batch.reports ≤ 3) }
        ensures own { IfOk result (λ added. AreOf device added.batch.reports) }
        ensures shares { IfOk result (λ added. shares_of added.batch ≡ shares) }
        ensures lines { IfOk result (λ added. SharesLines names.now added.batch) }

        // What the log is after it, and what a refusal leaves.
        ensures stopped { IfOk result (λ added. stopped_of self.new.present ≡ set (stopped_of self.old.present) device true) }
        ensures holds { LogHolds self.new }
        ensures err { OnErr result (self.new ≡ self.old) }
    {
        let batch = self.present.finish(self.alloc, device, names, shares)?;
        let first = self.current.length;
        self.current.log.push_end(device);
        self.current.length += count_of(&batch);
        Ok(Addition {
            turned: false,
            first,
            batch,
        })
    }

    /// A device is lost, which adds no report. Takes no memory.
    pub fn lose_device(&mut self, device: u8)
        requires { get_or (stopped_of self.old.present) device true ≡ false }
        ensures adds { LogAdds self.old self.new (lost device) [] }
        ensures stopped { stopped_of self.new.present ≡ set (stopped_of self.old.present) device true }
        ensures holds { LogHolds self.new }
    {
        self.present.lose(device);
        self.current.log.push_loss(device);
    }

    /// Whether a device has ended or was lost, or does not exist.
    pub fn has_stopped(&self, device: u8) -> bool
        ensures { result ≡ get_or (stopped_of self.now.present) device true }
    {
        self.present.has_stopped(device)
    }

    pub fn all_ended(&self) -> bool
        ensures { result ≡ list_all (λ line. has_stopped line.stage) self.now.present.lines }
    {
        self.present.all_stopped()
    }

    /// The symbols of this generation: at most the larger of the limit and 512.
    pub fn symbols(&self) -> u32
        ensures symbols { result ≡ self.now.symbols }
        ensures few { result ≤ max self.now.limit longest_piece }
    {
        self.current.symbols
    }

    /// The number of turns; at its greatest value it stays there.
    pub fn generation(&self) -> u64
        ensures { result ≡ self.now.generation }
    {
        self.generation
    }

    /// The length of this generation's history, which is the place of the next report.
    #[tactic(auto, using(crate::proofs::ReadLaws::few_places))]
    pub fn place(&self) -> u64
        ensures place { result ≡ self.now.length }
        ensures small { result < 2 ^ 63 }
    {
        self.current.length
    }

    /// The stamp of the last byte of any device.
    #[tactic(auto, using(crate::proofs::ReadLaws::stamp_stands))]
    pub fn last_stamp(&self) -> Option<Stamp>
        ensures kept { result ≡ self.now.present.stamp }
        ensures stands { (before : List Entry) → StandsFor self.now.opening before → result ≡ last_stamp (before ++ self.now.log) }
    {
        self.present.stamp()
    }

    /// The stamp of a device's first byte, if it has had one and has not stopped.
    pub fn active(&self, device: u8) -> Option<Stamp>
        requires { device < length self.now.present.lines }
        ensures { (before : List Entry) → StandsFor self.now.opening before → result ≡ active device (before ++ self.now.log) }
    {
        self.present.line(device).active()
    }

    /// The last fix of a device.
    pub fn last_fix(&self, device: u8) -> Option<Fix>
        requires { device < length self.now.present.lines }
        ensures { (before : List Entry) → StandsFor self.now.opening before → result ≡ last_fix device (history (before ++ self.now.log)) }
    {
        self.present.line(device).fix()
    }

    /// The last sky of a device.
    pub fn last_sky(&self, device: u8) -> Option<&Sky>
        requires { device < length self.now.present.lines }
        ensures { (before : List Entry) → StandsFor self.now.opening before → option_copied result ≡ last_sky device (history (before ++ self.now.log)) }
    {
        self.present.line(device).sky()
    }
}

/// How many reports a batch holds.
fn count_of(batch: &Batch) -> u64
    ensures { result ≡ length batch.now.reports }
{
    batch.reports().len() as u64
}
