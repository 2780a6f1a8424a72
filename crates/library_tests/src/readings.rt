//! How long a reading bears a source that brings nothing.

use gps_outside::{AtEnd, Intake, IntakeStep, MemorySource};
use std::alloc::Global;
use std::test::Fail;

/// What comes of the step after this many quiet ones.
fn step_after(alloc: Global, quiets: u32) -> IntakeStep {
    let mut source = MemorySource::new(Vec::new(alloc), Vec::new(alloc), AtEnd::Quiet);
    let mut intake = Intake::new(512);
    let mut buf = [0u8; 16];
    for _ in 0..quiets {
        intake.step(&mut source, &mut buf);
    }
    intake.step(&mut source, &mut buf)
}

#[test]
fn the_thousandth_quiet_ends_a_reading(rt: HostRuntime) -> Result<(), Fail> {
    for (quiets, step) in [(998, IntakeStep::Quiet), (999, IntakeStep::TooQuiet)] {
        assert_eq!(rt; step_after(rt.alloc(), quiets), step);
    }
    Ok(())
}
