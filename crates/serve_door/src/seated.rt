ghost use Rattle.std.specs.Prelude.{◌≡◌, ◌<◌, ◌≤◌, ◌+◌, ◌++◌, ◌∷◌, [], length, OnOk, true};
ghost use Rattle.std.specs.List.{AllZip};
ghost use Rattle.std.specs.Vec.{vec_len, vec_capacity};
ghost use Rattle.book_sessions.specs.Roster.{most_live};
ghost use Rattle.serve_workers.specs.Sessions.{SessionRuns};
ghost use Rattle.serve_door.specs.Doors.{HaveLanes, links_at};

use crate::attended::Attended;
use gps_fixed::NoMemory;
use gps_hub::{DoorSeat, HubNaming};
use gps_outside::{ClientSink, Source};
use serve_floor::{Floor, MOST};
use serve_workers::{LinkDone, SessionBells};
use std::alloc::Global;
use std::sync::{Arc, Mutex, Wait};
use std::thread::Threads;

/// A session's threads, and their bells.
#[derive(Drop)]
pub(crate) struct Seated<S: Source, K: ClientSink, R: Wait + Copy> {
    pub(crate) attended: Attended<S, K, R>,
    pub(crate) bells: Arc<SessionBells>,
}

/// The sessions that were admitted, in order, with room for what they hand back.
#[derive(Drop)]
pub(crate) struct Sessions<S: Source, K: ClientSink, R: Wait + Copy> {
    pub(crate) seated: Vec<Seated<S, K, R>>,
    // Those that are not released yet, by their places in `seated`.
    pub(crate) live: Vec<usize>,
    pub(crate) runs: Vec<LinkDone<S, K, R>>,
    ghost none: { runs.items ≡ [] },
    ghost room: { vec_len seated ≤ vec_capacity runs },
    ghost few: { vec_len live ≤ vec_len seated },
}

/// Joins the threads of a session, and empties its lanes if it is closed. False if it is not closed yet.
fn release_at<S: Source, K: ClientSink, J: HubNaming, R: Threads + Wait + Copy>(
    seated: &mut Vec<Seated<S, K, R>>,
    rt: &R,
    floor: &Mutex<Floor<J, R>>,
    seat: &mut DoorSeat<J>,
    session: usize,
) -> bool
    requires lanes { HaveLanes (links_at seated.old.items) seat.old }
    ensures seat { seat.new ≡ seat.old }
    ensures links { links_at seated.new.items ≡ links_at seated.old.items }
    ensures count { vec_len seated.new ≡ vec_len seated.old }
{
    if session >= seated.len() {
        return false;
    }
    let Ok(number) = u32::try_from(session) else {
        return false;
    };
    seated[session].attended.release(rt, floor, seat, number)
}

impl<S: Source, K: ClientSink, R: Wait + Copy> Sessions<S, K, R> {
    pub(crate) fn none(alloc: Global) -> Sessions<S, K, R>
        ensures { result.seated.items ≡ [] }
    {
        Sessions {
            seated: Vec::new(alloc),
            live: Vec::new(alloc),
            runs: Vec::new(alloc),
        }
    }

    /// Makes room for one more session.
    pub(crate) fn reserve(&mut self) -> Result<(), NoMemory>
        ensures seated { self.new.seated.items ≡ self.old.seated.items }
        ensures count { vec_len self.new.seated ≡ vec_len self.old.seated }
        ensures seated_room { OnOk result (vec_len self.new.seated < vec_capacity self.new.seated) }
        ensures live_room { OnOk result (vec_len self.new.live < vec_capacity self.new.live) }
        ensures runs_room { OnOk result (vec_len self.new.seated < vec_capacity self.new.runs) }
    {
        self.seated.reserve(1)?;
        self.live.reserve(1)?;
        let more = self.seated.len().saturating_add(1);
        self.runs.reserve(more)?;
        Ok(())
    }

    /// Adds a session, for which there is room.
    pub(crate) fn add(&mut self, session: Seated<S, K, R>)
        requires seated { vec_len self.old.seated < vec_capacity self.old.seated }
        requires live { vec_len self.old.live < vec_capacity self.old.live }
        requires runs { vec_len self.old.seated < vec_capacity self.old.runs }
        ensures seated { self.new.seated.items ≡ self.old.seated.items ++ session ∷ [] }
        ensures count { vec_len self.new.seated ≡ vec_len self.old.seated + 1 }
    {
        self.live.push_reserved(self.seated.len());
        self.seated.push_reserved(session);
    }

    /// How many sessions are not released yet.
    pub(crate) fn held(&self) -> usize
        ensures count { result ≡ vec_len self.now.live }
        ensures few { result ≤ length self.now.seated.items }
    {
        self.live.len()
    }

    /// Whether the number of unreleased sessions has reached [`MOST`].
    pub(crate) fn is_full(&self) -> bool
        ensures { result ≡ true → most_live ≤ vec_len self.now.live }
    {
        self.live.len() >= MOST
    }

    /// Whether the threads of the session at a place of the list of unreleased ones have ended.
    fn is_gone(&self, k: usize) -> bool
        ensures { result ≡ true → k < vec_len self.now.live }
    {
        match self.live.get(k) {
            Some(session) => match self.seated.get(*session) {
                Some(seated) => seated.bells.is_gone(),
                None => false,
            },
            None => false,
        }
    }

    /// Joins the threads of the session at a place of the list of unreleased ones, if they have ended. Once it is closed, it leaves the list.
    /// False if it stays.
    fn let_go<J: HubNaming>(
        &mut self,
        rt: &R,
        floor: &Mutex<Floor<J, R>>,
        seat: &mut DoorSeat<J>,
        k: usize,
    ) -> bool
    where
        R: Threads,
        requires lanes { HaveLanes (links_at self.old.seated.items) seat.old }
        ensures seat { seat.new ≡ seat.old }
        ensures links { links_at self.new.seated.items ≡ links_at self.old.seated.items }
        ensures count { vec_len self.new.seated ≡ vec_len self.old.seated }
    {
        if !self.is_gone(k) {
            return false;
        }
        let session = self.live[k];
        if !release_at(&mut self.seated, rt, floor, seat, session) {
            return false;
        }
        self.live.swap_remove(k);
        true
    }

    /// Joins the threads that have ended, and releases those sessions that are closed.
    #[tactic(auto, using(crate::proofs::Released::same_lanes))]
    pub(crate) fn join_gone<J: HubNaming>(
        &mut self,
        rt: &R,
        floor: &Mutex<Floor<J, R>>,
        seat: &mut DoorSeat<J>,
    )
    where
        R: Threads,
        requires lanes { HaveLanes (links_at self.old.seated.items) seat.old }
        ensures seat { seat.new ≡ seat.old }
        ensures links { links_at self.new.seated.items ≡ links_at self.old.seated.items }
        ensures count { vec_len self.new.seated ≡ vec_len self.old.seated }
    {
        let mut k = 0usize;
        'live: for _ in 0..self.live.len() {
            if !self.let_go(rt, floor, seat, k) {
                k = k.saturating_add(1);
            }
        }
    }

    pub(crate) fn close(&self) {
        for session in self.seated.as_slice() {
            session.bells.close();
        }
    }

    /// Waits for all threads.
    pub(crate) fn join_all<T: Threads>(self, rt: &T) -> Vec<LinkDone<S, K, R>>
        ensures runs { AllZip (SessionRuns S.content S.faults S.quiets K.written K.faults) (links_at self.seated.items) result.items }
        ensures count { vec_len result ≡ vec_len self.seated }
    {
        let Sessions {
            seated,
            live: _,
            mut runs,
        } = self;
        'sessions: for session in seated {
            let Seated { attended, bells: _ } = session;
            runs.push_reserved(attended.join(rt));
        }
        runs
    }
}
