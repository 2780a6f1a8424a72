ghost use Rattle.std.specs.Prelude.{◌≡◌, true, List, ℕ, Option, IfSome};
ghost use Rattle.gps_fixed.specs.Moment.{Moment};
ghost use Rattle.gps_report.specs.declared.edge.Symbol.{Symbol};
ghost use Rattle.gps_report.specs.declared.report.Body.{Body};
ghost use Rattle.std.specs.List.{list_all};
ghost use Rattle.gps_report.specs.declared.report.Report.{Report};
ghost use Rattle.json_line.specs.Lines.{is_sky, is_tpv, poll};
ghost use Rattle.device_core.specs.Reports.{device_close, device_reports};
ghost use Rattle.gps_client.specs.History.{AreReadBack, IsReadBack, IsStream};
ghost use Rattle.gps_client.specs.Polls.{polled_of};
ghost use Rattle.gps_client.specs.Ranges.{IsName, IsStamp};
ghost use Rattle.gps_client.specs.Texts.{polled};

/// Law: each report of a device but its packets has a value in range, whose line is the report's: the device's name is in it, and
/// the times are cut to whole milliseconds. So reading the report's line gives that value.
///
/// It is said of the reports of every stream of bytes and edges, of those that its end gives, and of the report that a device is active or not.
pub fn reports_are_read_back()
    ensures reports { (name : List ℕ) (stream : List Symbol) → IsName name → IsStream stream → AreReadBack name (device_reports stream) }
    ensures at_the_end { (name : List ℕ) (stream : List Symbol) → IsName name → IsStream stream → AreReadBack name (device_close stream) }
    ensures devices { (name : List ℕ) (activated : Option Moment) → IsName name → IfSome activated IsStamp → IsReadBack name (Body.Device activated) }
{}

/// Law: the answer to a POLL, written from reports of devices by their numbers, is the text of these reports with the devices' names.
pub fn polls_name_their_devices()
    ensures { (last : Option Moment) (active : ℕ) (fixes skies : List Report) (names : List (List ℕ))
        → list_all (λ r. is_tpv r.body) fixes ≡ true → list_all (λ r. is_sky r.body) skies ≡ true
        → poll last active fixes skies names ≡ polled (polled_of last active fixes skies names) }
{}
