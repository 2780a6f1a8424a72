ghost use Rattle.std.specs.Prelude.{◌≡◌, ◌≤◌, ◌<◌, [], length, take, drop};
ghost use Rattle.gps_outside.specs.declared.source.ReadStep.{ReadStep};
ghost use Rattle.gps_outside.specs.Counts.{Rose};
ghost use Rattle.gps_outside.specs.Reads.{CountsQuiet, FailsOnly, FitsBuffer, Reads};

use gps_fixed::Bytes;
use gps_outside::{ReadStep, Source};
use std::marker::Model;

/// A script in memory as a source, which never fails.
#[derive(Drop)]
pub(crate) struct HeldScript {
    script: Bytes,
    at: usize,
}

impl Model for HeldScript {
    ghost use Rattle.std.specs.Prelude.{◌≤◌, length, take, drop};
    ghost use Rattle.gps_outside.specs.Told.{Stream};

    ghost Value = { Stream };

    ghost view = { λ h. record { taken = take h.at h.script; left = drop h.at h.script } };

    ghost invariant = { λ h. h.at ≤ length h.script };
}

impl HeldScript {
    pub(crate) fn new(script: Bytes) -> HeldScript
        ensures { result ≡ record { taken = []; left = script } }
    {
        HeldScript { script, at: 0 }
    }
}

impl Source for HeldScript {
    ghost use Rattle.std.specs.Prelude.{Some};

    ghost faults = { λ _. 0 };

    ghost quiets = { λ _. 0 };

    ghost content = { λ h. Some h };

    fn read(&mut self, buf: &mut [u8]) -> ReadStep
        // What is read.
        requires { 0 < length buf.old }
        ensures fits { FitsBuffer result (length buf.old) }
        ensures bytes { Reads result buf.new (Some self.old) (Some self.new) }

        // It never fails, and is never quiet.
        ensures failed { result ≡ ReadStep.Failed → Rose 0 0 }
        ensures quiet { result ≡ ReadStep.Quiet → Rose 0 0 }
        ensures fails_only { FailsOnly result 0 0 }
        ensures counts_quiet { CountsQuiet result 0 0 }
    {
        let n = buf.len().min(self.script.len() - self.at);
        if n == 0 {
            return ReadStep::End;
        }
        buf[..n].copy_from_slice(&self.script.as_slice()[self.at..self.at + n]);
        self.at += n;
        ReadStep::Got(n)
    }
}
