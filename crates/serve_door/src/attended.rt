ghost use Rattle.std.specs.Prelude.{◌≡◌, []};
ghost use Rattle.serve_workers.specs.Sessions.{SessionRuns};
ghost use Rattle.serve_door.specs.Released.{AreEndsOf};

use crate::release::release_lanes;
use gps_hub::{DoorSeat, HubNaming};
use gps_outside::{ClientSink, Source};
use serve_floor::Floor;
use serve_workers::{Attending, LinkDone, SessionLink, Work};
use std::marker::Model;
use std::snapshot::Snapshot;
use std::sync::{Mutex, Wait};
use std::thread::Threads;

/// A session's threads at work, or what they handed back. Contracts see the link on which they work.
#[derive(Drop)]
pub(crate) struct Attended<S: Source, K: ClientSink, R: Wait + Copy> {
    link: Snapshot<SessionLink<S, K, R>>,
    work: Option<Work<LinkDone<S, K, R>, Attending<S, K, R>>>,
    run: Option<LinkDone<S, K, R>>,
}

impl<S: Source, K: ClientSink, R: Wait + Copy> Model for Attended<S, K, R> {
    ghost use Rattle.std.specs.Prelude.{◌≡◌, IfSome, IsSome, None};
    ghost use Rattle.serve_workers.specs.declared.session.SessionLink.{SessionLink};
    ghost use Rattle.serve_workers.specs.Sessions.{SessionRuns};

    ghost Value = { SessionLink S K R };

    ghost view = { λ a. a.link.value };

    ghost invariant = { λ a. IfSome a.work (λ work. work.link.value ≡ a.link.value)
        × IfSome a.run (λ run. SessionRuns S.content S.faults S.quiets K.written K.faults a.link.value run)
        × (a.work ≡ None → IsSome a.run) };
}

impl<S: Source, K: ClientSink, R: Wait + Copy> Attended<S, K, R> {
    pub(crate) fn new(
        link: Snapshot<SessionLink<S, K, R>>,
        work: Work<LinkDone<S, K, R>, Attending<S, K, R>>,
    ) -> Attended<S, K, R>
        requires { work.link.value ≡ link.value }
        ensures { result ≡ link.value }
    {
        Attended {
            link,
            work: Some(work),
            run: None,
        }
    }

    /// Waits for the threads, and keeps what they hand back.
    fn settle<T: Threads>(&mut self, rt: &T)
        ensures { self.new ≡ self.old }
    {
        if let Some(work) = self.work.take() {
            self.run = Some(work.join(rt));
        }
    }

    /// Empties the lanes of a closed session, if its threads were waited for.
    #[tactic(auto, using(crate::proofs::Released::ends_of))]
    fn let_go<J: HubNaming>(
        &mut self,
        rt: &R,
        floor: &Mutex<Floor<J, R>>,
        seat: &mut DoorSeat<J>,
        number: u32,
    )
        requires ends { AreEndsOf seat.old number self.old.items self.old.pieces }
        requires unused { self.old.pieces.put ≡ [] }
        ensures attended { self.new ≡ self.old }
        ensures seat { seat.new ≡ seat.old }
    {
        if let Some(run) = self.run.take() {
            self.run = Some(release_lanes(rt, floor, seat, number, run));
        }
    }

    /// Waits for the threads of the session `number`. If it is closed, empties its two lanes, so that they need no memory from then on.
    /// False if it is not closed yet.
    pub(crate) fn release<J: HubNaming>(
        &mut self,
        rt: &R,
        floor: &Mutex<Floor<J, R>>,
        seat: &mut DoorSeat<J>,
        number: u32,
    ) -> bool
    where
        R: Threads,
        requires ends { AreEndsOf seat.old number self.old.items self.old.pieces }
        requires unused { self.old.pieces.put ≡ [] }
        ensures attended { self.new ≡ self.old }
        ensures seat { seat.new ≡ seat.old }
    {
        self.settle(rt);
        if !floor.lock(rt).is_closed(number) {
            return false;
        }
        self.let_go(rt, floor, seat, number);
        true
    }

    /// Waits for the threads, and takes what they handed back.
    pub(crate) fn join<T: Threads>(self, rt: &T) -> LinkDone<S, K, R>
        ensures { SessionRuns S.content S.faults S.quiets K.written K.faults self result }
    {
        let Attended { link: _, work, run } = self;
        match run {
            Some(run) => run,
            None => match work {
                Some(work) => work.join(rt),
                None => unreachable!(),
            },
        }
    }
}
