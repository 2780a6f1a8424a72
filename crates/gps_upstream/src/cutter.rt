ghost use Rattle.std.specs.Prelude.{◌≡◌, ◌≢◌, ◌+◌, ◌<◌, ◌≤◌, [], length, drop, true, false};
ghost use Rattle.json_line.specs.declared.names.Class.{Class};
ghost use Rattle.upstream_laws.specs.declared.stage.Stage.{Stage};
ghost use Rattle.upstream_laws.specs.Head.{fresh, can_be, can_begin, behind_line, within_line, bounded, more_head, most, taken, behind};

use crate::begin::Begin;
use gps_client::{Class, class_of};
use json_line::head;
use std::marker::Model;
use upstream_laws::Stage;

/// The most bytes that a head may have.
const MOST: u32 = 1_048_576;

const CLASSES: [Class; 10] = [
    Class::Tpv,
    Class::Sky,
    Class::Toff,
    Class::Pps,
    Class::Device,
    Class::Devices,
    Class::Watch,
    Class::Poll,
    Class::Version,
    Class::Error,
];

/// Takes the head off the bytes that another daemon sends, in whatever pieces they come.
#[derive(Drop)]
pub(crate) struct HeadCutter {
    stage: Stage,
    begin: Begin,
    count: u32,
}

impl Model for HeadCutter {
    ghost use Rattle.std.specs.Prelude.{◌≡◌, ◌<◌, ◌≤◌};
    ghost use Rattle.upstream_laws.specs.declared.stage.Stage.{Stage};
    ghost use Rattle.upstream_laws.specs.Head.{Stand, most};

    ghost Value = { Stand };

    ghost view = { λ c. record { stage = c.stage; begin = c.begin; count = c.count } };

    ghost invariant = { λ c. (c.count ≤ most) × (c.stage ≡ Stage.Inside → c.count < most) };
}

/// Whether an object of this class begins so, or with more bytes.
fn can_be(begin: &[u8], class: Class) -> bool
    ensures { result ≡ can_be begin.now class }
{
    begin.starts_with(head(class)) || head(class).starts_with(begin)
}

/// Whether an object of some class begins so, or with more bytes.
#[tactic(auto, unfolding(upstream_laws::specs::Head::can_begin))]
fn can_begin(begin: &[u8]) -> bool
    ensures { result ≡ can_begin begin.now }
{
    CLASSES.iter().any(|class| can_be(begin, *class))
}

/// The stage of a head after one of its lines.
fn behind_line(class: Option<Class>) -> Stage
    ensures { result ≡ behind_line class }
{
    match class {
        None => Stage::Nowhere,
        Some(Class::Watch) => Stage::Behind,
        Some(_) => Stage::Inside,
    }
}

/// The stage of a head of this many bytes, which would be `stage` if there were no limit.
fn bounded(count: u32, stage: Stage) -> Stage
    ensures value { result ≡ bounded count stage }
    ensures few { result ≡ Stage.Inside → count < most }
{
    match stage {
        Stage::Inside if count < MOST => Stage::Inside,
        Stage::Inside => Stage::Nowhere,
        Stage::Behind => Stage::Behind,
        Stage::Nowhere => Stage::Nowhere,
    }
}

impl HeadCutter {
    /// A cutter that was given no bytes.
    pub(crate) fn new() -> HeadCutter
        ensures { result ≡ fresh }
    {
        HeadCutter {
            stage: Stage::Inside,
            begin: Begin::new(),
            count: 0,
        }
    }

    pub(crate) fn stage(&self) -> Stage
        ensures stage { result ≡ self.now.stage }
        ensures count { self.now.count ≤ most }
    {
        self.stage
    }

    /// Takes one byte of the head.
    #[tactic(auto, unfolding(upstream_laws::specs::Head::more_head))]
    fn step(&mut self, byte: u8)
        requires { self.old.stage ≡ Stage.Inside }
        ensures { self.new ≡ more_head self.old byte }
    {
        self.count += 1;
        let stage = if byte == b'\n' {
            let class = class_of(self.begin.as_slice());
            self.begin.clear();
            behind_line(class)
        } else {
            self.begin.push(byte);
            if can_begin(self.begin.as_slice()) {
                Stage::Inside
            } else {
                Stage::Nowhere
            }
        };
        self.stage = bounded(self.count, stage);
    }

    fn is_inside(&self) -> bool
        ensures inside { result ≡ true → self.now.stage ≡ Stage.Inside }
        ensures outside { result ≡ false → self.now.stage ≢ Stage.Inside }
    {
        matches!(self.stage, Stage::Inside)
    }

    /// Takes the head off a piece: how many bytes of the piece belong to the head, or to what is no head.
    pub(crate) fn take(&mut self, piece: &[u8]) -> usize
        ensures within { result ≤ length piece.now }
        ensures stand { self.new ≡ taken self.old piece.now }
        ensures count { self.new.count ≡ self.old.count + result }
        ensures inside { self.new.stage ≡ Stage.Inside → result ≡ length piece.now }
        ensures head { self.new.stage ≡ Stage.Behind → behind self.old piece.now ≡ drop result piece.now }
        ensures none { self.new.stage ≢ Stage.Behind → behind self.old piece.now ≡ [] }
    {
        'bytes: for (used, byte) in piece.iter().enumerate() {
            if !self.is_inside() {
                return used;
            }
            self.step(*byte);
        }
        piece.len()
    }
}
