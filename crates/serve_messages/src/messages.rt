//! The daemon's messages on their way to standard error. A thread that has something to say leaves it here and goes on; another thread writes
//! it. So a standard error that accepts nothing (a full pipe, a stopped terminal) blocks that thread alone.

use crate::form::{MessageForm, Weight};
use crate::later::PutOff;
use gps_fixed::NoMemory;
use std::alloc::Global;
use std::fmt::{self, Display, Write};
use std::io::{self, Eprint};
use std::sync::atomic::AtomicBool;
use std::sync::{Arc, Condvar, CondvarTimeouts, Mutex, Wait};
use std::thread::{self, Threads};
use std::time::{self, Duration};
use std::{mem, str};

/// How many bytes of messages may wait.
const ROOM: usize = 16_384;

/// How many messages that were put off are added at once.
const MOST_DUE: u32 = 16;

/// How many milliseconds the daemon waits, at its end, for its messages to be written.
const LAST_WAIT: u64 = 200;

/// Room for messages. It is taken once, so that a message needs no memory.
#[derive(Drop)]
struct Room {
    bytes: Vec<u8>,
}

impl Room {
    fn new(alloc: Global) -> Result<Room, NoMemory> {
        let bytes = Vec::with_capacity(alloc, ROOM)?;
        Ok(Room { bytes })
    }
}

impl Write for Room {
    fn write_str(&mut self, text: &str) -> fmt::Result {
        if text.len() > ROOM.saturating_sub(self.bytes.len()) {
            return Err(fmt::Error);
        }
        match self.bytes.extend_from_slice(text.as_bytes()) {
            Ok(()) => Ok(()),
            Err(_) => Err(fmt::Error),
        }
    }
}

/// The messages that wait.
#[derive(Drop)]
struct Waiting {
    room: Room,
    /// How many messages found no room since the last one that was written.
    left_out: u64,
    /// Whether the thread is writing.
    is_busy: bool,
    /// What is said a little later.
    put_off: PutOff,
}

impl Waiting {
    /// Adds what was put off and is due now.
    fn add_due(&mut self, head: &'static str, now: Duration) {
        for _ in 0..MOST_DUE {
            match self.put_off.take(now) {
                Some(message) => self.add(Line { head, message }),
                None => return,
            }
        }
    }

    fn is_empty(&self) -> bool {
        self.room.bytes.is_empty() && self.left_out == 0
    }

    /// Whether something is still to be written.
    fn is_due(&self) -> bool {
        self.is_busy || !self.is_empty()
    }

    /// Adds a message, if there is room for it and none was left out before it.
    fn add<D: Display + Drop>(&mut self, message: D) {
        let before = self.room.bytes.len();
        if self.left_out > 0 || self.room.write(message).is_err() {
            self.room.bytes.truncate(before);
            self.left_out = self.left_out.saturating_add(1);
        }
    }

    /// Moves what waits into a room that is empty, and says how many messages were left out after it.
    fn take(&mut self, own: &mut Room) -> u64 {
        mem::swap(&mut self.room, own);
        mem::replace(&mut self.left_out, 0)
    }
}

/// A message as a line.
#[derive(Drop)]
struct Line<D> {
    head: &'static str,
    message: D,
}

impl<D: Display> Display for Line<D> {
    fn fmt<W: Write>(&self, f: &mut fmt::Formatter<W>) -> fmt::Result {
        f.write_str(self.head)?;
        self.message.fmt(f)?;
        f.write_str("\n")
    }
}

/// What any thread may add to and one thread writes.
#[derive(Drop)]
pub struct Messages {
    form: MessageForm,
    waiting: Mutex<Waiting>,
    /// Rung when a message was added.
    added: Condvar,
    /// Rung when all that waited was written.
    written: Condvar,
}

impl Messages {
    fn new(alloc: Global, form: MessageForm) -> Result<Messages, NoMemory> {
        let room = Room::new(alloc)?;
        Ok(Messages {
            form,
            waiting: Mutex::new(Waiting {
                room,
                left_out: 0,
                is_busy: false,
                put_off: PutOff::new(alloc)?,
            }),
            added: Condvar::new(),
            written: Condvar::new(),
        })
    }

    fn add<D: Display + Drop, R: Wait>(&self, rt: &R, weight: Weight, message: D) {
        let head = self.form.head(weight);
        let mut waiting = self.waiting.lock(rt);
        waiting.add(Line { head, message });
        self.added.notify_one();
    }

    fn write_out<R: Eprint>(&self, rt: &R, room: &Room, left_out: u64) {
        if let Ok(text) = str::from_utf8(room.bytes.as_slice()) {
            let _ = eprint!(rt; "{text}");
        }
        let head = self.form.head(Weight::Fault);
        let _ = match left_out {
            0 => Ok(()),
            1 => eprintln!(rt; "{head}1 message was left out"),
            _ => eprintln!(rt; "{head}{left_out} messages were left out"),
        };
    }

    /// Puts a message off.
    fn put_off<D: Display + Drop, R: Wait>(
        &self,
        rt: &R,
        message: D,
        now: Duration,
    ) -> Option<Arc<AtomicBool>> {
        let mut waiting = self.waiting.lock(rt);
        let is_over = waiting.put_off.add(message, now).ok();
        self.added.notify_one();
        is_over
    }

    /// Takes what waits, once something does, and says how many messages were left out after it.
    fn take<R: Wait + time::Clock>(&self, rt: &R, own: &mut Room) -> u64 {
        let head = self.form.head(Weight::News);
        let mut waiting = self.waiting.lock(rt);
        waiting.is_busy = false;
        if waiting.is_empty() {
            self.written.notify_all();
        }
        for _ in rt.forever() {
            // If the clock fails, all is due.
            let now = rt.monotonic().unwrap_or(Duration::MAX);
            waiting.add_due(head, now);
            if !waiting.is_empty() {
                break;
            }
            waiting = match waiting.put_off.left(now) {
                Some(left) => self.added.wait_timeout(rt, waiting, left).0,
                None => self.added.wait(rt, waiting),
            };
        }
        waiting.is_busy = true;
        waiting.take(own)
    }

    /// Writes what comes, for as long as the program runs.
    fn write<R: Wait + time::Clock + Eprint>(&self, rt: &R, own: &mut Room) {
        for _ in rt.forever() {
            own.bytes.clear();
            let left_out = self.take(rt, own);
            self.write_out(rt, own, left_out);
        }
    }

    /// Waits until what was said is written, for at most [`LAST_WAIT`] milliseconds.
    fn settle<R: Wait + time::Clock>(&self, rt: &R) {
        let waiting = self.waiting.lock(rt);
        let most = Duration::from_millis(LAST_WAIT);
        let _done = self
            .written
            .wait_timeout_while(rt, waiting, most, |waiting| waiting.is_due());
    }

    /// Writes what was said, if no thread does.
    fn write_here<R: Wait + Eprint>(&self, rt: &R) {
        let mut waiting = self.waiting.lock(rt);
        self.write_out(rt, &waiting.room, waiting.left_out);
        waiting.room.bytes.clear();
        waiting.left_out = 0;
    }
}

impl<'a, R> Voice<'a, R> {
    /// A voice with these messages.
    pub fn new(rt: R, messages: &'a Messages) -> Voice<'a, R> {
        Voice { rt, messages }
    }
}

/// The messages of a daemon, with the thread that writes them.
#[derive(Drop)]
pub struct Speaker {
    messages: Arc<Messages>,
    /// Whether the system gave a thread.
    has_thread: bool,
}

impl Speaker {
    /// Starts the thread. Its end is never waited for, so a write may block it for ever.
    pub fn start<R: Threads + Wait + time::Clock + Eprint + Copy + Send + 'static>(
        rt: R,
        alloc: Global,
        form: MessageForm,
    ) -> Result<Speaker, NoMemory> {
        let messages = Arc::new(alloc, Messages::new(alloc, form)?)?;
        let theirs = Arc::try_clone(&messages)?;
        let mut own = Room::new(alloc)?;
        let has_thread = thread::spawn(&rt, move || theirs.write(&rt, &mut own)).is_ok();
        Ok(Speaker {
            messages,
            has_thread,
        })
    }

    /// The daemon's voice.
    pub fn voice<R>(&self, rt: R) -> Voice<'_, R> {
        Voice::new(rt, &self.messages)
    }

    /// Its messages, for another thread.
    pub fn messages(&self) -> Result<Arc<Messages>, NoMemory> {
        Ok(Arc::try_clone(&self.messages)?)
    }

    /// The end of the daemon: what was said is written, if standard error takes it soon.
    pub fn end<R: Wait + time::Clock + Eprint>(&self, rt: &R) {
        if self.has_thread {
            self.messages.settle(rt);
        } else {
            self.messages.write_here(rt);
        }
    }
}

/// What takes the daemon's messages.
pub trait Tell {
    /// Says what is so, or has come about.
    fn tell<D: Display + Drop>(&self, message: D);

    /// Says what failed, or who is not served.
    fn tell_fault<D: Display + Drop>(&self, message: D);

    /// Says this a second from now, unless the flag that it returns is set by then.
    fn tell_later<D: Display + Drop>(&self, message: D) -> Option<Arc<AtomicBool>>;
}

/// A standard error that never blocks its caller.
#[derive(Clone, Copy)]
pub struct Voice<'a, R> {
    rt: R,
    messages: &'a Messages,
}

impl<R: Wait + time::Clock> Tell for Voice<'_, R> {
    fn tell<D: Display + Drop>(&self, message: D) {
        self.messages.add(&self.rt, Weight::News, message);
    }

    fn tell_fault<D: Display + Drop>(&self, message: D) {
        self.messages.add(&self.rt, Weight::Fault, message);
    }

    fn tell_later<D: Display + Drop>(&self, message: D) -> Option<Arc<AtomicBool>> {
        let now = self.rt.monotonic().ok()?;
        self.messages.put_off(&self.rt, message, now)
    }
}

impl<R: time::Clock> time::Clock for Voice<'_, R> {
    fn monotonic(&self) -> io::Result<Duration> {
        self.rt.monotonic()
    }

    fn since_1970(&self) -> io::Result<Duration> {
        self.rt.since_1970()
    }

    fn sleep(&self, duration: Duration) {
        self.rt.sleep(duration);
    }
}
