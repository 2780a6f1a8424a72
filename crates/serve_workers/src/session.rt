ghost use Rattle.std.specs.Prelude.{◌≡◌, true};
ghost use Rattle.gps_lane.specs.Carried.{input_part};
ghost use Rattle.serve_workers.specs.Readings.{IsInputPiece};
ghost use Rattle.serve_workers.specs.Sourced.{FromSource};
ghost use Rattle.serve_workers.specs.Writing.{MayWriteOn};
ghost use Rattle.serve_workers.specs.Sessions.{SessionRuns, Wrote};

use crate::bells::{ReaderBells, SessionBells};
use crate::reading::{ReaderDone, session_reader};
use crate::spawner::Spawner;
use crate::work::{Work, start};
use crate::writer::{WriterEnd, write_items};
use gps_lane::{Bell, Piece, Rx, Tx};
use gps_outside::{ClientSink, Source};
use session_core::Item;
use std::alloc::Global;
use std::marker::Model;
use std::snapshot::Snapshot;
use std::sync::{Arc, Wait};
use std::thread::{Promise, Threads};

/// What a writer hands back.
#[derive(Drop)]
pub struct WriterDone<K: ClientSink, R> {
    pub sink: K,
    pub items: Rx<Item, R>,
    pub end: WriterEnd,
}

impl<K: ClientSink, R> Model for WriterDone<K, R> {
    ghost use Rattle.std.specs.Prelude.{◌≡◌};
    ghost use Rattle.serve_workers.specs.declared.writer.WriterEnd.TheVariants.{Drained};
    ghost use Rattle.serve_workers.specs.Writing.{MayWriteOn};
    ghost use Rattle.serve_workers.specs.Writers.{WriterView};

    ghost Value = { WriterView K };

    ghost view = { λ w. record { sink = w.sink; items = w.items; end = w.end } };

    // Unless its sink failed, what still comes from its lane may be written.
    ghost invariant = { λ w. w.end ≡ Drained → MayWriteOn K.asks K.written K.allows w.sink w.items };
}

/// What the two threads of a session hand back.
#[derive(Drop)]
pub struct LinkDone<S: Source, K: ClientSink, R> {
    pub reader: ReaderDone<S, R>,
    pub writer: WriterDone<K, R>,
}

/// What a session's threads work with.
#[derive(Drop)]
pub struct SessionLink<S: Source, K: ClientSink, R> {
    pub source: S,
    pub sink: K,
    pub pieces: Tx<Piece, R>,
    pub items: Rx<Item, R>,
}

/// A writer promises that it wrote to this sink what it received from this lane.
#[derive(Drop)]
pub struct Writing<K: ClientSink, R> {
    pub sink: Snapshot<K>,
    pub items: Snapshot<Rx<Item, R>>,
}

impl<K: ClientSink, R> Promise<WriterDone<K, R>> for Writing<K, R> {
    ghost use Rattle.serve_workers.specs.Sessions.{Wrote};

    ghost kept_by = { λ p r. Wrote r.end p.items.value r.items (K.written p.sink.value) (K.written r.sink) (K.faults p.sink.value) (K.faults r.sink) };
}

/// A session's threads promise that both did their work on this link.
#[derive(Drop)]
pub struct Attending<S: Source, K: ClientSink, R> {
    pub link: Snapshot<SessionLink<S, K, R>>,
}

impl<S: Source, K: ClientSink, R> Promise<LinkDone<S, K, R>> for Attending<S, K, R> {
    ghost use Rattle.serve_workers.specs.Sessions.{SessionRuns};

    ghost kept_by = { λ p r. SessionRuns S.content S.faults S.quiets K.written K.faults p.link.value r };
}

fn session_writer<K: ClientSink, R: Wait + Copy>(
    rt: &R,
    alloc: Global,
    items: Rx<Item, R>,
    sink: K,
    bells: &SessionBells,
) -> WriterDone<K, R>
    requires goes_on { MayWriteOn K.asks K.written K.allows sink items }
    ensures { Wrote result.end items result.items (K.written sink) (K.written result.sink) (K.faults sink) (K.faults result.sink) }
{
    let mut items = items;
    let mut sink = sink;
    let end = write_items(rt, alloc, &mut items, &bells.writer, &mut sink);
    bells.end_writing();
    WriterDone { sink, items, end }
}

/// The work of a session: its writer in a thread of its own, its reader here. If no thread can be started, none of its requests is taken,
/// and nothing is waited for: its lane is told that there was no memory, or that the source failed. Then what the session was given is written.
pub fn attend<
    's,
    E,
    S: Source + Send + 's,
    K: ClientSink + Send + 's,
    R: Threads + Wait + Copy + Send + Sync + 's,
>(
    spawner: Spawner<'s, E, R>,
    link: SessionLink<S, K, R>,
    bells: Arc<SessionBells>,
    writers: Arc<SessionBells>,
    pump: &'s Bell,
) -> LinkDone<S, K, R>
    requires open { link.pieces.is_open ≡ true }
    requires from { FromSource input_part IsInputPiece link.pieces.about.source link.pieces.put (S.content link.source) }
    requires goes_on { MayWriteOn K.asks K.written K.allows link.sink link.items }
    ensures { SessionRuns S.content S.faults S.quiets K.written K.faults link result }
{
    let hands = spawner.hands();
    let Spawner { rt, alloc, scope } = spawner;
    let SessionLink {
        source,
        sink,
        pieces,
        items,
    } = link;
    let promise = Writing {
        sink: Snapshot::of(&sink),
        items: Snapshot::of(&items),
    };
    let started = scope.spawn_with(
        promise,
        move || -> WriterDone<K, R>
            requires goes_on { MayWriteOn K.asks K.written K.allows sink items }
        {
            let (items, sink) = (items, sink);
            session_writer(&rt, alloc, items, sink, &writers)
        },
    );
    let reader_bells = ReaderBells {
        own: &bells.reader,
        alone: &bells.alone,
        pump,
    };
    match started {
        Ok(writer) => {
            let reader = session_reader(&hands, source, pieces, reader_bells);
            let writer = writer.join(&rt);
            bells.leave();
            LinkDone { reader, writer }
        }
        Err(refused) => {
            bells.alone.leave();
            let reader = session_reader(&hands, source, pieces, reader_bells);
            let writer = (refused.value)();
            bells.leave();
            LinkDone { reader, writer }
        }
    }
}

/// Starts the threads of a session.
pub fn start_session<
    's,
    E,
    S: Source + Send + 's,
    K: ClientSink + Send + 's,
    R: Threads + Wait + Copy + Send + Sync + 's,
>(
    spawner: &Spawner<'s, E, R>,
    link: SessionLink<S, K, R>,
    bells: Arc<SessionBells>,
    writers: Arc<SessionBells>,
    own: &SessionBells,
    pump: &'s Bell,
) -> Work<LinkDone<S, K, R>, Attending<S, K, R>>
    requires open { link.pieces.is_open ≡ true }
    requires from { FromSource input_part IsInputPiece link.pieces.about.source link.pieces.put (S.content link.source) }
    requires goes_on { MayWriteOn K.asks K.written K.allows link.sink link.items }
    ensures { result.link.value ≡ link }
{
    let promise = Attending {
        link: Snapshot::of(&link),
    };
    let (rt, alloc, scope) = (spawner.rt, spawner.alloc, spawner.scope);
    start(
        scope,
        promise,
        move || -> LinkDone<S, K, R>
            requires open { link.pieces.is_open ≡ true }
            requires from { FromSource input_part IsInputPiece link.pieces.about.source link.pieces.put (S.content link.source) }
            requires goes_on { MayWriteOn K.asks K.written K.allows link.sink link.items }
        { attend(Spawner { rt, alloc, scope }, link, bells, writers, pump) },
        move || own.alone.leave(),
    )
}
