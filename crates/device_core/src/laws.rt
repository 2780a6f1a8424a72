//! The laws of a device's reports, as contracts of functions that do nothing.

ghost use Rattle.std.specs.Prelude.{◌≡◌, ◌++◌, List};
ghost use Rattle.gps_report.specs.declared.edge.Symbol.{Symbol};
ghost use Rattle.gps_report.specs.declared.report.Body.{Body};
ghost use Rattle.device_core.specs.Reports.{device_close, device_gain, device_reports, reports_from};
ghost use Rattle.device_core.specs.Standing.{DeviceKept, StandsFor};

/// More of a stream removes no report and changes none.
pub fn reports_are_a_beginning()
    ensures { (stream more : List Symbol) → (gained : List Body) × (device_reports (stream ++ more) ≡ device_reports stream ++ gained) }
{}

/// What more of a stream adds, symbol by symbol.
pub fn reports_go_on()
    ensures { (stream more : List Symbol) → device_reports (stream ++ more) ≡ device_reports stream ++ reports_from stream more }
{}

/// What more of a stream adds, and what is left at its end, are the same for all streams that one device stands for.
pub fn later_reports_are_decided()
    ensures gain { (kept : DeviceKept) (stream other more : List Symbol) → StandsFor kept stream → StandsFor kept other
        → device_gain stream more ≡ device_gain other more }
    ensures close { (kept : DeviceKept) (stream other more : List Symbol) → StandsFor kept stream → StandsFor kept other
        → device_close (stream ++ more) ≡ device_close (other ++ more) }
{}
