//! The machine whose names are looked up by threads of their own. A silent name server holds a lookup for as long as the system's resolver waits for
//! it, and no call ends that. So a reader waits for the thread's answer, or for the daemon's stop, whichever comes first.

ghost use Rattle.std.specs.Prelude.{◌≤◌, length, IfOk};

use crate::stopping::{Machine, StopRequest, share};
use gps_fixed::NoMemory;
use std::alloc::{Allocator, Global};
use std::fs::{File, Metadata, OpenOptions};
use std::io::{self, ErrorKind};
use std::net::{Net, SocketAddr, TcpListener, TcpStream};
use std::rt::Files;
use std::sync::{Arc, Condvar, CondvarTimeouts, Mutex, Wait};
use std::thread::{self, Threads};
use std::time::{self, Duration};

/// How many addresses of a host are known at most.
const MOST: usize = 32;

/// How many threads look names up at most: no more devices are served.
const THREADS: usize = 8;

/// How many milliseconds pass between two looks whether the daemon was told to stop.
const LOOK: u64 = 100;

/// What a lookup asks of the machine. It is a trait of its own, because a spawned thread can be given no type whose bound names an associated type.
pub trait LookupMachine {
    /// Puts the addresses of a host at the head of `found`, and returns how many they are.
    fn look_up(&self, host: &str, port: u16, found: &mut [SocketAddr]) -> io::Result<usize>
        ensures { IfOk result (λ n. n ≤ length found.new) };
}

impl<R: Net> LookupMachine for Machine<R> {
    fn look_up(&self, host: &str, port: u16, found: &mut [SocketAddr]) -> io::Result<usize> {
        self.0.lookup_host(host, port, found)
    }
}

/// What a lookup found.
#[derive(Clone, Copy)]
struct Found {
    addresses: [SocketAddr; MOST],
    number: usize,
}

/// A host to be looked up, and where the answer goes.
#[derive(Drop)]
struct Question {
    host: String,
    port: u16,
    answer: Arc<Answer>,
}

/// The answer of a lookup, once it is there.
#[derive(Drop)]
struct Answer {
    found: Mutex<Option<io::Result<Found>>>,
    /// Rung when it is there.
    come: Condvar,
}

impl Answer {
    fn new() -> Answer {
        Answer {
            found: Mutex::new(None),
            come: Condvar::new(),
        }
    }

    fn put<R: Wait>(&self, rt: &R, found: io::Result<Found>) {
        let mut place = self.found.lock(rt);
        *place = Some(found);
        self.come.notify_all();
    }

    /// Waits for it. A fault once the daemon is told to stop.
    fn wait<R: Wait + time::Clock>(&self, rt: &R, stop: &StopRequest) -> io::Result<Found> {
        for _ in rt.forever() {
            if stop.is_told() {
                return Err(io::Error::from(ErrorKind::Interrupted));
            }
            let place = self.found.lock(rt);
            if let Some(found) = &*place {
                return *found;
            }
            let _place = self
                .come
                .wait_timeout(rt, place, Duration::from_millis(LOOK));
        }
        unreachable!()
    }
}

fn found_by<M: LookupMachine>(machine: &M, host: &str, port: u16) -> io::Result<Found> {
    let mut addresses = [SocketAddr::from(([0, 0, 0, 0], port)); MOST];
    let number = machine.look_up(host, port, &mut addresses)?;
    Ok(Found { addresses, number })
}

/// Where readers leave what is to be looked up, and threads take it.
#[derive(Drop)]
struct Desk {
    questions: Mutex<Vec<Question>>,
    /// Rung when a question was left.
    left: Condvar,
}

impl Desk {
    fn new(alloc: Global) -> Result<Desk, NoMemory> {
        Ok(Desk {
            questions: Mutex::new(Vec::with_capacity(alloc, THREADS)?),
            left: Condvar::new(),
        })
    }

    fn leave<R: Wait>(&self, rt: &R, question: Question) -> Result<(), NoMemory> {
        let mut questions = self.questions.lock(rt);
        questions.push(question)?;
        self.left.notify_one();
        Ok(())
    }

    /// Takes a question, once there is one.
    fn take<R: Wait>(&self, rt: &R) -> Question {
        let mut questions = self.questions.lock(rt);
        for _ in rt.forever() {
            if let Some(question) = questions.pop() {
                return question;
            }
            questions = self.left.wait(rt, questions);
        }
        unreachable!()
    }

    /// Answers what comes, for as long as the program runs.
    fn serve<R: Wait, M: LookupMachine>(&self, rt: &R, machine: &M) {
        for _ in rt.forever() {
            let question = self.take(rt);
            let found = found_by(machine, &question.host, question.port);
            question.answer.put(rt, found);
        }
    }
}

/// The threads that look names up, and the stop that ends the waiting for them.
#[derive(Drop)]
pub struct Lookups {
    alloc: Global,
    desk: Arc<Desk>,
    stop: StopRequest,
}

impl Lookups {
    /// Looks a host up, or fails once the daemon is told to stop.
    fn ask<R: Wait + time::Clock>(&self, rt: &R, host: &str, port: u16) -> io::Result<Found> {
        let answer = Arc::new(self.alloc, Answer::new())?;
        let question = Question {
            host: String::from_str(self.alloc, host)?,
            port,
            answer: Arc::try_clone(&answer)?,
        };
        match self.desk.leave(rt, question) {
            Ok(()) => answer.wait(rt, &self.stop),
            Err(NoMemory) => Err(io::Error::from(ErrorKind::OutOfMemory)),
        }
    }
}

/// Starts this number of threads that look names up, if the daemon can be told to stop: as many as wait for names at a time. They are never waited
/// for.
pub fn start_lookups<
    R: Threads + Wait + Copy + Send + 'static,
    M: LookupMachine + Copy + Send + 'static,
>(
    rt: R,
    machine: M,
    alloc: Global,
    number: usize,
    stop: &Option<StopRequest>,
) -> Result<Option<Lookups>, NoMemory> {
    let Some(stop) = share(stop) else {
        return Ok(None);
    };
    let desk = Arc::new(alloc, Desk::new(alloc)?)?;
    for _ in 0..number.min(THREADS) {
        let theirs = Arc::try_clone(&desk)?;
        if thread::spawn(&rt, move || theirs.serve(&rt, &machine)).is_err() {
            return Err(NoMemory);
        }
    }
    Ok(Some(Lookups { alloc, desk, stop }))
}

/// The machine of a daemon that may be told to stop. Everything but a lookup is the machine's own.
#[derive(Clone, Copy)]
pub struct DaemonMachine<'a, R> {
    rt: R,
    lookups: &'a Option<Lookups>,
}

impl<'a, R> DaemonMachine<'a, R> {
    pub fn new(rt: R, lookups: &'a Option<Lookups>) -> DaemonMachine<'a, R> {
        DaemonMachine { rt, lookups }
    }
}

/// Puts these addresses at the head of `found`, as many as there is room for.
fn give(given: &Found, found: &mut [SocketAddr]) {
    for (to, from) in found.iter_mut().zip(given.addresses.iter()) {
        *to = *from;
    }
}

/// A host without the brackets of an address with colons: the system knows `fe80::1%eth0`, and not `[fe80::1%eth0]`.
fn without_brackets(host: &str) -> &str {
    match host.strip_prefix('[') {
        Some(rest) => rest.strip_suffix(']').unwrap_or(host),
        None => host,
    }
}

impl<R> Net for DaemonMachine<'_, R>
where
    R: Net<Listener = TcpListener, Stream = TcpStream> + time::Clock + Wait,
{
    type Stream = TcpStream;

    type Listener = TcpListener;

    fn bind(&self, address: SocketAddr) -> io::Result<TcpListener> {
        self.rt.bind(address)
    }

    fn connect(&self, address: SocketAddr) -> io::Result<TcpStream> {
        self.rt.connect(address)
    }

    fn connect_timeout(&self, address: SocketAddr, timeout: Duration) -> io::Result<TcpStream> {
        self.rt.connect_timeout(address, timeout)
    }

    fn lookup_host(&self, host: &str, port: u16, found: &mut [SocketAddr]) -> io::Result<usize> {
        let host = without_brackets(host);
        match self.lookups {
            Some(lookups) => {
                let given = lookups.ask(&self.rt, host, port)?;
                give(&given, found);
                Ok(given.number.min(found.len()))
            }
            None => self.rt.lookup_host(host, port, found),
        }
    }
}

impl<R: time::Clock> time::Clock for DaemonMachine<'_, R> {
    fn monotonic(&self) -> io::Result<Duration> {
        self.rt.monotonic()
    }

    fn since_1970(&self) -> io::Result<Duration> {
        self.rt.since_1970()
    }

    fn sleep(&self, duration: Duration) {
        self.rt.sleep(duration);
    }
}

impl<R: Files<File = File>> Files for DaemonMachine<'_, R> {
    type File = File;

    type Dir = R::Dir;

    fn open_file(&self, how: &OpenOptions, path: &str) -> io::Result<File> {
        self.rt.open_file(how, path)
    }

    fn open_dir(&self, path: &str) -> io::Result<R::Dir> {
        self.rt.open_dir(path)
    }

    fn metadata(&self, path: &str) -> io::Result<Metadata> {
        self.rt.metadata(path)
    }

    fn symlink_metadata(&self, path: &str) -> io::Result<Metadata> {
        self.rt.symlink_metadata(path)
    }

    fn copy(&self, from: &str, to: &str) -> io::Result<u64> {
        self.rt.copy(from, to)
    }

    fn rename(&self, from: &str, to: &str) -> io::Result<()> {
        self.rt.rename(from, to)
    }

    fn remove_file(&self, path: &str) -> io::Result<()> {
        self.rt.remove_file(path)
    }

    fn create_dir(&self, path: &str) -> io::Result<()> {
        self.rt.create_dir(path)
    }

    fn remove_dir(&self, path: &str) -> io::Result<()> {
        self.rt.remove_dir(path)
    }

    fn remove_dir_all<B: Allocator>(&self, alloc: B, path: &str) -> io::Result<()> {
        self.rt.remove_dir_all(alloc, path)
    }
}
