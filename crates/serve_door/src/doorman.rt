ghost use Rattle.std.specs.Prelude.{◌≡◌, ◌≤◌, ◌<◌, ◌+◌, ◌⊎◌, ◌++◌, ◌∷◌, ℕ, List, Option, [], length, IfOk, IfSome, OnOk, None, true, false, not, map};
ghost use Rattle.std.specs.List.{AllZip};
ghost use Rattle.std.specs.Vec.{vec_len, vec_capacity};
ghost use Rattle.gps_fixed.specs.Limits.{most_queue};
ghost use Rattle.book_sessions.specs.Roster.{most_live};
ghost use Rattle.gps_outside.specs.Counts.{Rose, one_more};
ghost use Rattle.gps_outside.specs.Links.{AsksOf, IsUnread, IsUnwritten};
ghost use Rattle.gps_lane.specs.Carried.{input_part};
ghost use Rattle.serve_workers.specs.Readings.{IsInputPiece};
ghost use Rattle.serve_workers.specs.Sourced.{FromSource};
ghost use Rattle.serve_workers.specs.Writing.{MayWriteOn};
ghost use Rattle.serve_workers.specs.Sessions.{SessionRuns};
ghost use Rattle.serve_floor.specs.Admitting.{DropsOne};
ghost use Rattle.serve_door.specs.Doors.{AreSeated, Deals, FailsBy, HaveLanes, IsNewLink, Tends, Way, door_now, links_at, tally, way_of};

use crate::attended::Attended;
use crate::context::DoorContext;
use crate::door::DoorDone;
use crate::due_sinks::DueSinks;
use crate::places::{Places, ThreadBells, make_places};
use crate::seated::{Seated, Sessions};
use gps_fixed::NoMemory;
use gps_hub::{DoorSeat, HubNaming};
use gps_lane::Bell;
use gps_outside::{ClientSink, Door, DoorStep, Source};
use serve_end::SessionDone;
use serve_floor::{Floor, LinkRefusal};
use serve_workers::{Bells, SessionBells, SessionLink, Spawner, start_session};
use std::snapshot::Snapshot;
use std::sync::{Mutex, Wait};
use std::thread::Threads;
use std::time::Duration;

/// How many milliseconds the door worker waits after no link came.
const REST: u64 = 1;

/// Tells the threads of a session that nothing more comes, if the door worker is at its last step. Later there may be no thread to tell them.
fn end_early(bells: &Bells, session: &SessionBells) {
    if bells.door.is_closed() {
        session.close();
    }
}

/// The door worker.
#[derive(Drop)]
pub(crate) struct Doorman<
    S: Source,
    K: ClientSink,
    G: Door<In = S, Out = K>,
    J: HubNaming,
    R: Wait + Copy,
> {
    pub(crate) gate: G,
    pub(crate) seat: DoorSeat<J>,
    pub(crate) sessions: Sessions<S, K, R>,
    pub(crate) room: Vec<SessionDone<S, K, R>>,
    pub(crate) full: u64,
    pub(crate) no_memory: bool,
    pub(crate) failed: bool,
    pub(crate) sinks: DueSinks<K, J>,
    pub(crate) ghost none: { room.items ≡ [] },
    pub(crate) ghost enough: { vec_len sessions.seated ≤ vec_capacity room },
}

impl<S: Source, K: ClientSink, G: Door<In = S, Out = K>, J: HubNaming, R: Wait + Copy> Doorman<
    S,
    K,
    G,
    J,
    R,
> {
    /// Makes room for one more session, and changes nothing else.
    fn reserve(&mut self) -> Result<(), NoMemory>
        ensures gate { self.new.gate ≡ self.old.gate }
        ensures seat { self.new.seat ≡ self.old.seat }
        ensures seated { self.new.sessions.seated.items ≡ self.old.sessions.seated.items }
        ensures failed { self.new.failed ≡ self.old.failed }
        ensures full { self.new.full ≡ self.old.full }
        ensures no_memory { self.new.no_memory ≡ self.old.no_memory }

        // Each list has room for one more session.
        ensures seated_room { OnOk result (vec_len self.new.sessions.seated < vec_capacity self.new.sessions.seated) }
        ensures live_room { OnOk result (vec_len self.new.sessions.live < vec_capacity self.new.sessions.live) }
        ensures runs_room { OnOk result (vec_len self.new.sessions.seated < vec_capacity self.new.sessions.runs) }
        ensures done_room { OnOk result (vec_len self.new.sessions.seated < vec_capacity self.new.room) }
    {
        self.sessions.reserve()?;
        let more = self.sessions.seated.len().saturating_add(1);
        self.room.reserve(more)?;
        Ok(())
    }

    /// Starts the threads of a session that was admitted, and adds it to the lists, which have room.
    fn start<'s, E>(
        &mut self,
        spawner: &Spawner<'s, E, R>,
        daemon: &'s Bells,
        link: SessionLink<S, K, R>,
        bells: ThreadBells,
    )
    where
        S: Send + 's,
        K: Send + 's,
        R: Threads + Send + Sync + 's,
        requires open { link.pieces.is_open ≡ true }
        requires from { FromSource input_part IsInputPiece link.pieces.about.source link.pieces.put (S.content link.source) }
        requires goes_on { MayWriteOn K.asks K.written K.allows link.sink link.items }

        // Each list has room for it.
        requires seated { vec_len self.old.sessions.seated < vec_capacity self.old.sessions.seated }
        requires live { vec_len self.old.sessions.live < vec_capacity self.old.sessions.live }
        requires runs { vec_len self.old.sessions.seated < vec_capacity self.old.sessions.runs }
        requires done_room { vec_len self.old.sessions.seated < vec_capacity self.old.room }

        // Only the list of sessions changes: it gains this link.
        ensures gate { self.new.gate ≡ self.old.gate }
        ensures seat { self.new.seat ≡ self.old.seat }
        ensures failed { self.new.failed ≡ self.old.failed }
        ensures full { self.new.full ≡ self.old.full }
        ensures no_memory { self.new.no_memory ≡ self.old.no_memory }
        ensures links { links_at self.new.sessions.seated.items ≡ links_at self.old.sessions.seated.items ++ link ∷ [] }
    {
        let ThreadBells {
            door,
            reader,
            writer,
        } = bells;
        let shown = Snapshot::of(&link);
        end_early(daemon, &door);
        let work = start_session(spawner, link, reader, writer, &door, &daemon.pump);
        self.sessions.add(Seated {
            attended: Attended::new(shown, work),
            bells: door,
        });
    }

    /// Drops a link because `held` sessions are not yet released. The daemon gives 80; the door's list needs at least 64.
    fn drop_full(&mut self, rt: &R, floor: &Mutex<Floor<J, R>>, held: usize)
        requires many { most_live ≤ held }
        requires few { held ≤ length self.old.seat.links }

        // The sessions stay as they are.
        ensures gate { self.new.gate ≡ self.old.gate }
        ensures links { links_at self.new.sessions.seated.items ≡ links_at self.old.sessions.seated.items }
        ensures failed { self.new.failed ≡ self.old.failed }
        ensures no_memory { self.new.no_memory ≡ self.old.no_memory }

        // The link is counted, and noted in the door's list.
        ensures full { self.new.full ≡ one_more self.old.full }
        ensures drops { DropsOne held self.old.seat self.new.seat }
    {
        floor.lock(rt).drop_link(&mut self.seat, held);
        self.full = self.full.saturating_add(1);
    }

    /// Admits a session with a link that came, or drops the link.
    #[tactic(auto, using(crate::proofs::Seating::seated_more, crate::proofs::Dropping::seats, crate::proofs::Dropping::dropped_still, crate::proofs::Dropping::deals_dropped))]
    fn admit<'s, E>(&mut self, context: &DoorContext<'s, E, J, R>, queue: u32, source: S, sink: K)
    where
        S: Send + 's,
        K: Send + 's,
        R: Threads + Send + Sync + 's,
        requires low { 1 ≤ queue }
        requires high { queue ≤ most_queue }

        // Nothing was read from the link or written to it. So far each session has its link.
        requires source { IsUnread (S.content source) (S.faults source) (S.quiets source) }
        requires sink { IsUnwritten (K.written sink) (K.faults sink) }
        requires client { AsksOf (S.content source) (K.asks sink) }
        requires seated { AreSeated (IsNewLink S.content S.faults S.quiets K.written K.faults) queue (links_at self.old.sessions.seated.items) self.old.seat }

        // Each session still has its link, and the door's state stays.
        ensures seated { AreSeated (IsNewLink S.content S.faults S.quiets K.written K.faults) queue (links_at self.new.sessions.seated.items) self.new.seat }
        ensures gate { self.new.gate ≡ self.old.gate }
        ensures failed { self.new.failed ≡ self.old.failed }
        ensures done { self.new.seat.done ≡ self.old.seat.done }

        // What became of the link.
        ensures deals { Deals (vec_len self.old.sessions.live) (source, sink) (map way_of (links_at self.old.sessions.seated.items))
            (map way_of (links_at self.new.sessions.seated.items)) (tally self.old.seat.drops self.old.full self.old.no_memory)
            (tally self.new.seat.drops self.new.full self.new.no_memory) }
    {
        let (rt, alloc) = (context.spawner.rt, context.spawner.alloc);
        let (floor, bells) = (context.floor, context.bells);
        self.sinks.show();
        let held = self.sessions.held();
        if self.sessions.is_full() {
            self.drop_full(&rt, floor, held);
            return;
        }
        let Ok(places) = make_places::<K, J, R>(rt, alloc, queue, &sink) else {
            self.no_memory = true;
            return;
        };
        if self.reserve().is_err() {
            self.no_memory = true;
            return;
        }
        let Places {
            outlet,
            items,
            pieces,
            input,
            pump,
            bells: own,
        } = places;
        let admitted = floor
            .lock(&rt)
            .admit(&mut self.seat, outlet, input, pump, held);
        match admitted {
            Ok(_) => {
                bells.pump.ring();
                let link = SessionLink {
                    source,
                    sink,
                    pieces,
                    items,
                };
                self.start(&context.spawner, bells, link, own);
            }
            Err(LinkRefusal::TooMany) => self.full = self.full.saturating_add(1),
            Err(LinkRefusal::NoMemory) => self.no_memory = true,
        }
    }

    /// Tells the hub that the door has closed or failed, and wakes the pump.
    fn end(&mut self, rt: &R, floor: &Mutex<Floor<J, R>>, pump: &Bell)
        // Links, sessions and counts stay as they are.
        ensures gate { self.new.gate ≡ self.old.gate }
        ensures sessions { self.new.sessions ≡ self.old.sessions }
        ensures failed { self.new.failed ≡ self.old.failed }
        ensures full { self.new.full ≡ self.old.full }
        ensures no_memory { self.new.no_memory ≡ self.old.no_memory }
        ensures links { self.new.seat.links ≡ self.old.seat.links }
        ensures drops { self.new.seat.drops ≡ self.old.seat.drops }

        // The door is known to have closed or failed.
        ensures done { self.new.seat.done ≡ true }
    {
        floor.lock(rt).hub.door_done(&mut self.seat);
        pump.ring();
    }

    /// Asks the door once. The threads that ended while it waited are joined before a link is admitted. False if it has closed or failed.
    #[tactic(auto, using(crate::proofs::Seating::same_links, crate::proofs::Released::have_lanes))]
    fn ask<'s, E>(&mut self, context: &DoorContext<'s, E, J, R>, queue: u32) -> bool
    where
        S: Send + 's,
        K: Send + 's,
        R: Threads + Send + Sync + 's,
        requires low { 1 ≤ queue }
        requires high { queue ≤ most_queue }
        requires open { self.old.seat.done ≡ false }
        requires seated { AreSeated (IsNewLink S.content S.faults S.quiets K.written K.faults) queue (links_at self.old.sessions.seated.items) self.old.seat }

        // Each session has its link.
        ensures seated { AreSeated (IsNewLink S.content S.faults S.quiets K.written K.faults) queue (links_at self.new.sessions.seated.items) self.new.seat }

        // The door is said to have failed exactly if its faults rose.
        ensures faults_stay { G.faults self.old.gate ≤ G.faults self.new.gate }
        ensures failed { self.new.failed ≡ true → (self.old.failed ≡ true) ⊎ Rose (G.faults self.old.gate) (G.faults self.new.gate) }
        ensures still { self.new.failed ≡ false → (self.old.failed ≡ false) × (G.faults self.new.gate ≡ G.faults self.old.gate) }

        // Whether it has closed or failed, and what became of its links.
        ensures done { self.new.seat.done ≡ not result }
        ensures tends { (told : Option (List (Way S K)))
            → Tends told (door_now (G.links self.old.gate) (G.faults self.old.gate) (G.quiets self.old.gate)
            self.old.seat.drops self.old.full self.old.no_memory)
            (map way_of (links_at self.old.sessions.seated.items)) self.old.seat.done true
            → Tends told (door_now (G.links self.new.gate) (G.faults self.new.gate) (G.quiets self.new.gate)
            self.new.seat.drops self.new.full self.new.no_memory)
            (map way_of (links_at self.new.sessions.seated.items)) self.new.seat.done false }
    {
        let (rt, floor, bells) = (context.spawner.rt, context.floor, context.bells);
        match self.gate.accept() {
            DoorStep::Link(source, sink) => {
                self.join_gone(&rt, floor);
                self.admit(context, queue, source, sink);
                true
            }
            DoorStep::Quiet => {
                bells.door.wait_for(&rt, Duration::from_millis(REST));
                true
            }
            DoorStep::Closed => {
                self.end(&rt, floor, &bells.pump);
                false
            }
            DoorStep::Failed => {
                self.failed = true;
                self.end(&rt, floor, &bells.pump);
                false
            }
        }
    }

    /// Asks the door. If it has closed or failed, waits for the bell instead, unless this is the last step. False if it has closed or failed.
    #[tactic(auto, using(crate::proofs::Seating::fails_more))]
    fn ask_if<'s, E>(
        &mut self,
        context: &DoorContext<'s, E, J, R>,
        queue: u32,
        to_ask: bool,
        last: bool,
    ) -> bool
    where
        S: Send + 's,
        K: Send + 's,
        R: Threads + Send + Sync + 's,
        requires low { 1 ≤ queue }
        requires high { queue ≤ most_queue }
        requires open { to_ask ≡ true → self.old.seat.done ≡ false }
        requires seated { AreSeated (IsNewLink S.content S.faults S.quiets K.written K.faults) queue (links_at self.old.sessions.seated.items) self.old.seat }

        // Each session has its link. The door is asked again only if it has neither closed nor failed.
        ensures seated { AreSeated (IsNewLink S.content S.faults S.quiets K.written K.faults) queue (links_at self.new.sessions.seated.items) self.new.seat }
        ensures open { result ≡ true → self.new.seat.done ≡ false }

        // What was known of the door since its beginning is still known.
        ensures fails { (first : ℕ) → FailsBy self.old.failed first (G.faults self.old.gate) → FailsBy self.new.failed first (G.faults self.new.gate) }
        ensures tends { (told : Option (List (Way S K)))
            → Tends told (door_now (G.links self.old.gate) (G.faults self.old.gate) (G.quiets self.old.gate)
            self.old.seat.drops self.old.full self.old.no_memory)
            (map way_of (links_at self.old.sessions.seated.items)) self.old.seat.done to_ask
            → Tends told (door_now (G.links self.new.gate) (G.faults self.new.gate) (G.quiets self.new.gate)
            self.new.seat.drops self.new.full self.new.no_memory)
            (map way_of (links_at self.new.sessions.seated.items)) self.new.seat.done false }
    {
        if to_ask {
            self.ask(context, queue)
        } else {
            if !last {
                context.bells.door.wait(&context.spawner.rt);
            }
            false
        }
    }

    /// Joins the threads that have ended.
    #[tactic(auto, using(crate::proofs::Seating::same_links))]
    fn join_gone(&mut self, rt: &R, floor: &Mutex<Floor<J, R>>)
    where
        R: Threads,
        requires lanes { HaveLanes (links_at self.old.sessions.seated.items) self.old.seat }

        // Nothing else changes.
        ensures gate { self.new.gate ≡ self.old.gate }
        ensures seat { self.new.seat ≡ self.old.seat }
        ensures failed { self.new.failed ≡ self.old.failed }
        ensures full { self.new.full ≡ self.old.full }
        ensures no_memory { self.new.no_memory ≡ self.old.no_memory }
        ensures links { links_at self.new.sessions.seated.items ≡ links_at self.old.sessions.seated.items }
    {
        self.sessions.join_gone(rt, floor, &mut self.seat);
    }

    /// A step of the door worker: it asks the door, and joins the threads that have ended.
    #[tactic(auto, using(crate::proofs::Released::have_lanes))]
    pub(crate) fn step<'s, E>(
        &mut self,
        context: &DoorContext<'s, E, J, R>,
        queue: u32,
        to_ask: bool,
        last: bool,
    ) -> bool
    where
        S: Send + 's,
        K: Send + 's,
        R: Threads + Send + Sync + 's,
        requires low { 1 ≤ queue }
        requires high { queue ≤ most_queue }
        requires open { to_ask ≡ true → self.old.seat.done ≡ false }
        requires seated { AreSeated (IsNewLink S.content S.faults S.quiets K.written K.faults) queue (links_at self.old.sessions.seated.items) self.old.seat }

        // Each session has its link. The door is asked again only if it has neither closed nor failed.
        ensures seated { AreSeated (IsNewLink S.content S.faults S.quiets K.written K.faults) queue (links_at self.new.sessions.seated.items) self.new.seat }
        ensures open { result ≡ true → self.new.seat.done ≡ false }

        // What was known of the door since its beginning is still known.
        ensures fails { (first : ℕ) → FailsBy self.old.failed first (G.faults self.old.gate) → FailsBy self.new.failed first (G.faults self.new.gate) }
        ensures tends { (told : Option (List (Way S K)))
            → Tends told (door_now (G.links self.old.gate) (G.faults self.old.gate) (G.quiets self.old.gate)
            self.old.seat.drops self.old.full self.old.no_memory)
            (map way_of (links_at self.old.sessions.seated.items)) self.old.seat.done to_ask
            → Tends told (door_now (G.links self.new.gate) (G.faults self.new.gate) (G.quiets self.new.gate)
            self.new.seat.drops self.new.full self.new.no_memory)
            (map way_of (links_at self.new.sessions.seated.items)) self.new.seat.done false }
    {
        let to_ask = self.ask_if(context, queue, to_ask, last);
        self.join_gone(&context.spawner.rt, context.floor);
        to_ask
    }

    /// Tells the sessions that nothing more will come, and waits for their threads.
    pub(crate) fn leave<T: Threads>(self, rt: &T) -> DoorDone<S, K, G, J, R>
        ensures gate { result.gate ≡ self.gate }
        ensures seat { result.seat ≡ self.seat }
        ensures failed { result.failed ≡ self.failed }
        ensures full { result.full ≡ self.full }
        ensures no_memory { result.no_memory ≡ self.no_memory }
        ensures runs { AllZip (SessionRuns S.content S.faults S.quiets K.written K.faults) (links_at self.sessions.seated.items) result.runs.items }
    {
        self.sessions.close();
        let Doorman {
            gate,
            seat,
            sessions,
            room,
            full,
            no_memory,
            failed,
            sinks: _,
        } = self;
        let runs = sessions.join_all(rt);
        DoorDone {
            gate,
            seat,
            runs,
            room,
            full,
            no_memory,
            failed,
        }
    }
}
