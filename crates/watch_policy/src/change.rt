ghost use Rattle.std.specs.Prelude.{◌≡◌, ◌<◌, ℕ, List, Some, None, IfOk, IfErr, codes, length};
ghost use Rattle.serde_json.specs.Find.{as_bool, as_str};
ghost use Rattle.serde_json.specs.View.{view};
ghost use Rattle.watch_policy.specs.Change.{NamesDevice, change_in, device_of, member, raw_of};

use gps_fixed::NoMemory;
use gps_report::{Name, NameFault};
use serde_json::Value;
use std::alloc::Global;

/// What a WATCH object changes. A member that the object leaves out is `None` and keeps its value; an absent
/// `enable` is true.
#[derive(Debug, Drop, PartialEq, Eq)]
pub struct Change {
    pub enable: bool,
    pub json: Option<bool>,
    pub nmea: Option<bool>,
    /// 0, 1 or 2.
    pub raw: Option<u8>,
    pub pps: Option<bool>,
    /// `Some(None)` clears the device.
    pub device: Option<Option<Name>>,
}

/// Why a JSON value is no [`Change`].
#[derive(Clone, Copy, Debug, PartialEq, Eq)]
pub enum ChangeFault {
    /// The value is no object, or one of its members is there and is not of its kind.
    BadWatch,
    NoMemory,
}

fn flag(value: &Value, key: &str) -> Result<Option<bool>, ChangeFault>
    ensures ok { IfOk result (λ flag. member key.now as_bool (view value.now) ≡ Some flag) }
    ensures fault { IfErr result (λ fault. fault ≡ ChangeFault.BadWatch) }
    ensures bad { IfErr result (λ _. member key.now as_bool (view value.now) ≡ None) }
{
    match value.get(key) {
        None => Ok(None),
        Some(value) => match value.as_bool() {
            Some(flag) => Ok(Some(flag)),
            None => Err(ChangeFault::BadWatch),
        },
    }
}

fn raw_level(value: &Value) -> Option<u8>
    ensures { result ≡ raw_of (view value.now) }
{
    match value.as_u64() {
        Some(0) => Some(0),
        Some(1) => Some(1),
        Some(2) => Some(2),
        _ => None,
    }
}

fn raw_member(value: &Value) -> Result<Option<u8>, ChangeFault>
    ensures ok { IfOk result (λ raw. member (codes "raw") raw_of (view value.now) ≡ Some raw) }
    ensures fault { IfErr result (λ fault. fault ≡ ChangeFault.BadWatch) }
    ensures bad { IfErr result (λ _. member (codes "raw") raw_of (view value.now) ≡ None) }
{
    match value.get("raw") {
        None => Ok(None),
        Some(value) => match raw_level(value) {
            Some(raw) => Ok(Some(raw)),
            None => Err(ChangeFault::BadWatch),
        },
    }
}

impl From<NameFault> for ChangeFault {
    ghost use Rattle.std.specs.Prelude.{◌≡◌};
    ghost use Rattle.watch_policy.specs.Change.{fault_of_name};

    ghost from_gives = { λ fault result. result ≡ fault_of_name fault };

    fn from(fault: NameFault) -> ChangeFault {
        match fault {
            NameFault::BadName => ChangeFault::BadWatch,
            NameFault::NoMemory => ChangeFault::NoMemory,
        }
    }
}

fn device_named(alloc: Global, value: &Value) -> Result<Option<Name>, ChangeFault>
    ensures ok { IfOk result (λ device. device_of (view value.now) ≡ Some device) }
    ensures bad { result ≡ Err ChangeFault.BadWatch → device_of (view value.now) ≡ None }
    ensures memory { result ≡ Err ChangeFault.NoMemory → (text : List ℕ) × (as_str (view value.now) ≡ Some text) × (0 < length text) }
{
    match value.as_str() {
        None => Err(ChangeFault::BadWatch),
        Some("") => Ok(None),
        Some(text) => Ok(Some(Name::of(alloc, text.as_bytes())?)),
    }
}

fn device_member(alloc: Global, value: &Value) -> Result<Option<Option<Name>>, ChangeFault>
    ensures ok { IfOk result (λ device. member (codes "device") device_of (view value.now) ≡ Some device) }
    ensures bad { result ≡ Err ChangeFault.BadWatch
        → member (codes "device") device_of (view value.now) ≡ None }
    ensures memory { result ≡ Err ChangeFault.NoMemory → NamesDevice (view value.now) }
{
    match value.get("device") {
        None => Ok(None),
        Some(value) => Ok(Some(device_named(alloc, value)?)),
    }
}

/// What a WATCH object changes. `BadWatch` comes exactly if the value is no object, if `enable`,
/// `json`, `nmea` or `pps` is there and no truth value, if `raw` is there and not the whole number 0, 1
/// or 2, or if `device` is there and neither a name nor the empty text. Other members are ignored. It
/// allocates only for the name of a device.
pub fn change_of(alloc: Global, value: &Value) -> Result<Change, ChangeFault>
    ensures ok { IfOk result (λ change. change_in (view value.now) ≡ Some change) }
    ensures bad { result ≡ Err ChangeFault.BadWatch → change_in (view value.now) ≡ None }
    ensures memory { result ≡ Err ChangeFault.NoMemory → NamesDevice (view value.now) }
{
    if !value.is_object() {
        return Err(ChangeFault::BadWatch);
    }
    let enable = flag(value, "enable")?;
    let json = flag(value, "json")?;
    let nmea = flag(value, "nmea")?;
    let raw = raw_member(value)?;
    let pps = flag(value, "pps")?;
    let device = device_member(alloc, value)?;
    Ok(Change {
        enable: enable.unwrap_or(true),
        json,
        nmea,
        raw,
        pps,
        device,
    })
}
