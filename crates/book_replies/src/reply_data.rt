ghost use Rattle.std.specs.Prelude.{◌≡◌, ◌≤◌, ◌++◌, true, IfOk, count_by, is_some, length};
ghost use Rattle.std.specs.List.{list_all};
ghost use Rattle.json_line.specs.Json.{line_end};
ghost use Rattle.json_line.specs.Lines.{devices, is_sky, is_tpv, poll};
ghost use Rattle.book_replies.specs.ReplyDataView.{AreOfDevices, active_count};

use gps_fixed::{Bytes, NoMemory, Stamp};
use gps_report::{Names, Report};
use json_line::{devices_line, poll_line};
use std::alloc::Global;
use std::marker::Model;

/// What replies show of the devices at one moment.
#[derive(Drop)]
pub struct ReplyData {
    firsts: Vec<Option<Stamp>>,
    last: Option<Stamp>,
    fixes: Vec<Report>,
    skies: Vec<Report>,
}

impl Model for ReplyData {
    ghost use Rattle.book_replies.specs.ReplyDataView.{IsKnowledge, ReplyDataView};

    ghost Value = { ReplyDataView };

    ghost view = { λ known. record {
      firsts = known.firsts.items;
      last = known.last;
      fixes = known.fixes.items;
      skies = known.skies.items;
    } };

    ghost invariant = { λ known. IsKnowledge (record {
      firsts = known.firsts.items;
      last = known.last;
      fixes = known.fixes.items;
      skies = known.skies.items;
    }) };
}

fn count_active(firsts: &[Option<Stamp>]) -> usize
    ensures { result ≡ count_by is_some firsts.now }
{
    firsts.iter().filter(|first| first.is_some()).count()
}

impl ReplyData {
    /// For each device, in order, the stamp of its first byte while it is active, which is until it ends; the
    /// stamp of the last byte of any device; the last Tpv and the last Sky reports of the active devices.
    pub fn of(
        firsts: Vec<Option<Stamp>>,
        last: Option<Stamp>,
        fixes: Vec<Report>,
        skies: Vec<Report>,
    ) -> ReplyData
        // The reports are of the right kind, each of one of the devices.
        requires fixes { list_all (λ report. is_tpv report.body) fixes.items ≡ true }
        requires skies { list_all (λ report. is_sky report.body) skies.items ≡ true }
        requires fixes_named { AreOfDevices (length firsts.items) fixes.items }
        requires skies_named { AreOfDevices (length firsts.items) skies.items }

        // It keeps what it is given.
        ensures firsts { result.firsts ≡ firsts.items }
        ensures last { result.last ≡ last }
        ensures fixes { result.fixes ≡ fixes.items }
        ensures skies { result.skies ≡ skies.items }
    {
        ReplyData {
            firsts,
            last,
            fixes,
            skies,
        }
    }

    /// The DEVICES line.
    pub(crate) fn devices_reply(&self, alloc: Global, names: &Names) -> Result<Bytes, NoMemory>
        requires { length names.now ≡ length self.now.firsts }
        ensures { IfOk result (λ line. line ≡ devices names.now self.now.firsts ++ line_end) }
    {
        devices_line(alloc, names, self.firsts.as_slice())
    }

    /// The POLL line.
    pub(crate) fn poll_reply(&self, alloc: Global, names: &Names) -> Result<Bytes, NoMemory>
        requires { length names.now ≡ length self.now.firsts }
        ensures { IfOk result (λ line. line
            ≡ poll self.now.last (active_count self.now) self.now.fixes self.now.skies names.now ++ line_end) }
    {
        let _devices = names.len();
        let active = count_active(self.firsts.as_slice()) as u8;
        let fixes = self.fixes.as_slice();
        let skies = self.skies.as_slice();
        poll_line(alloc, self.last, active, fixes, skies, names)
    }
}
