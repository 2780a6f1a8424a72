//! What runs beside a daemon.

use crate::form::MessageForm;
use crate::lookup::{LookupMachine, Lookups, start_lookups};
use crate::messages::Speaker;
use crate::report::start_report;
use crate::stopping::{StopMachine, StopRequest, start_stop};
use crate::tally::Tally;
use gps_fixed::NoMemory;
use gps_words::ServeOptions;
use std::alloc::Global;
use std::io::Eprint;
use std::sync::{Arc, Wait};
use std::thread::Threads;
use std::time;

/// What runs beside a daemon: the thread that writes its messages, those that wait for its stop and look names up, and the one that reports its
/// numbers. None of them is ever waited for.
#[derive(Drop)]
pub struct Beside {
    pub alloc: Global,
    pub speaker: Speaker,
    /// What may tell the daemon to stop.
    pub stop: Option<StopRequest>,
    /// What looks names up, if the daemon can be told to stop.
    pub lookups: Option<Lookups>,
    pub tally: Arc<Tally>,
}

impl Beside {
    /// Starts what these options ask for. Only a caller that knows the machine may start these threads: `main`.
    pub fn start<R, M>(
        rt: R,
        machine: M,
        alloc: Global,
        form: MessageForm,
        options: &ServeOptions,
    ) -> Result<Beside, NoMemory>
    where
        R: Threads + Wait + time::Clock + Eprint + Copy + Send + 'static,
        M: StopMachine + LookupMachine + Copy + Send + 'static,
    {
        let speaker = Speaker::start(rt, alloc, form)?;
        let tally = Arc::new(alloc, Tally::new(alloc, &options.names)?)?;
        let path = match &options.stop {
            Some(path) => Some(path.copy()?),
            None => None,
        };
        let stop = start_stop(rt, machine, alloc, &speaker, path)?;
        let lookups = start_lookups(rt, machine, alloc, options.inputs.len(), &stop)?;
        if let Some(seconds) = options.numbers.report {
            start_report(rt, &speaker, &tally, seconds)?;
        }
        Ok(Beside {
            alloc,
            speaker,
            stop,
            lookups,
            tally,
        })
    }
}
