//! The orderly stop of the daemon, which the first byte or the end of a file asks for. From then on the sources of its devices end and its door is
//! closed, so that it ends as if each device had ended.

use crate::messages::{Messages, Speaker, Tell, Voice};
use crate::place_text::text_of;
use crate::system::Reason;
use gps_fixed::{Bytes, NoMemory};
use gps_outside::Closer;
use gps_world::{HeldPipes, WaitingPipes};
use std::alloc::Global;
use std::fs::{self, File};
use std::io::{self, ErrorKind, Read};
use std::os::unix::fs::MetadataExt;
use std::rt::Files;
use std::sync::atomic::{AtomicBool, Ordering};
use std::sync::{Arc, Mutex, Wait};
use std::thread::{self, Threads};
use std::time::{self, Duration};

/// How many times a read of the path is tried while signals interrupt it.
const TRIES: u32 = 10_000;

/// How many seconds pass between two looks at the path.
const LOOK: u64 = 1;

/// How often the file of the path may be another than before.
const ANEW: u32 = 16;

/// Which file has a name now.
#[derive(Clone, Copy, PartialEq, Eq)]
pub struct FileId {
    device: u64,
    inode: u64,
}

/// What a stop wakes from its own thread, as it waits in a system call.
#[derive(Drop)]
struct Waiters {
    closer: Option<Closer>,
    pipes: Option<WaitingPipes>,
    /// The pipes that were roused, held to the end.
    held: Option<HeldPipes>,
}

/// What a stop asks of the machine. It is a trait of its own, because a spawned thread can be given no type whose bound names an associated type.
pub trait StopMachine {
    /// Waits for the first byte or the end of the file at a path.
    fn wait_for(&self, path: &str) -> io::Result<()>;

    /// The file that has a path now.
    fn file_at(&self, path: &str) -> Option<FileId>;

    /// Wakes the readers that wait at a pipe for a writer.
    fn rouse(&self, alloc: Global, pipes: &WaitingPipes) -> HeldPipes;
}

/// The machine whose files a stop uses.
#[derive(Clone, Copy)]
pub struct Machine<R>(pub R);

impl<R: Files<File = File>> StopMachine for Machine<R> {
    fn wait_for(&self, path: &str) -> io::Result<()> {
        wait_for(&self.0, path)
    }

    fn file_at(&self, path: &str) -> Option<FileId> {
        let metadata = fs::metadata(&self.0, path).ok()?;
        Some(FileId {
            device: metadata.dev(),
            inode: metadata.ino(),
        })
    }

    fn rouse(&self, alloc: Global, pipes: &WaitingPipes) -> HeldPipes {
        pipes.rouse(alloc, &self.0)
    }
}

#[derive(Drop)]
struct Shared {
    alloc: Global,
    is_told: AtomicBool,
    waiters: Mutex<Waiters>,
}

/// Whether the daemon was told to stop, for its door, the sources of its devices and the thread that waits for it.
#[derive(Drop)]
pub struct StopRequest {
    shared: Arc<Shared, Global>,
}

impl StopRequest {
    pub fn new(alloc: Global) -> Result<StopRequest, NoMemory> {
        let shared = Shared {
            alloc,
            is_told: AtomicBool::new(false),
            waiters: Mutex::new(Waiters {
                closer: None,
                pipes: None,
                held: None,
            }),
        };
        Ok(StopRequest {
            shared: Arc::new(alloc, shared)?,
        })
    }

    /// A second handle to the same request, if there is one.
    pub fn share(&self) -> Option<StopRequest> {
        match Arc::try_clone(&self.shared) {
            Ok(shared) => Some(StopRequest { shared }),
            Err(_) => None,
        }
    }

    /// Whether the daemon was told to stop.
    pub fn is_told(&self) -> bool {
        self.shared.is_told.load(Ordering::SeqCst)
    }

    /// Notes what waits in a system call, once the daemon listens.
    pub fn set_waiters<R: Wait>(&self, rt: &R, closer: Option<Closer>, pipes: WaitingPipes) {
        let mut waiters = self.shared.waiters.lock(rt);
        waiters.closer = closer;
        waiters.pipes = Some(pipes);
    }

    /// Tells the daemon to stop. A second call changes nothing.
    pub fn tell<R: Wait, M: StopMachine>(&self, rt: &R, machine: &M) {
        if self.shared.is_told.swap(true, Ordering::SeqCst) {
            return;
        }
        let mut waiters = self.shared.waiters.lock(rt);
        if let Some(closer) = &waiters.closer {
            closer.close();
        }
        if let Some(pipes) = &waiters.pipes {
            let held = machine.rouse(self.shared.alloc, pipes);
            waiters.held = Some(held);
        }
    }
}

/// A second handle to a request, if there is one.
pub fn share(stop: &Option<StopRequest>) -> Option<StopRequest> {
    match stop {
        Some(stop) => stop.share(),
        None => None,
    }
}

/// Waits for the first byte or the end of the file at a path.
fn wait_for<R: Files<File = File>>(rt: &R, path: &str) -> io::Result<()> {
    let mut file = fs::open(rt, path)?;
    let mut byte = [0u8; 1];
    'tries: for _ in 0..TRIES {
        match file.read(&mut byte) {
            Ok(_) => return Ok(()),
            Err(error) if error.kind() == ErrorKind::Interrupted => {}
            Err(error) => return Err(error),
        }
    }
    Err(io::Error::from(ErrorKind::Interrupted))
}

/// What the threads that wait for a stop have in common.
#[derive(Drop)]
struct Stopper<R, M> {
    rt: R,
    machine: M,
    messages: Arc<Messages>,
    path: Bytes,
    stop: StopRequest,
}

impl<R: Copy, M: Copy> Stopper<R, M> {
    /// The same for one more thread.
    fn share(&self) -> Result<Stopper<R, M>, NoMemory> {
        let Some(stop) = self.stop.share() else {
            return Err(NoMemory);
        };
        let messages = Arc::try_clone(&self.messages)?;
        let path = self.path.copy()?;
        Ok(Stopper {
            rt: self.rt,
            machine: self.machine,
            messages,
            path,
            stop,
        })
    }
}

impl<R: Wait + time::Clock + Copy, M: StopMachine> Stopper<R, M> {
    /// Waits for the path's first byte or its end, and tells the daemon to stop. A path that cannot be read stops nothing.
    fn wait(&self) {
        let voice = Voice::new(self.rt, &self.messages);
        let path = text_of(&self.path);
        match self.machine.wait_for(path) {
            Ok(()) if self.stop.is_told() => {}
            Ok(()) => {
                voice.tell("told to stop");
                self.stop.tell(&self.rt, &self.machine);
            }
            Err(error) => {
                let reason = Reason(Some(error));
                voice.tell_fault(format_args!(
                    "--stop {path} cannot be read{reason}; the daemon goes on, and is not stopped by it"
                ));
            }
        }
    }
}

/// Starts a thread that waits for the path. It is never waited for.
fn start_waiting<
    R: Threads + Wait + time::Clock + Copy + Send + 'static,
    M: StopMachine + Copy + Send + 'static,
>(stopper: &Stopper<R, M>) -> Result<(), NoMemory> {
    let theirs = stopper.share()?;
    match thread::spawn(&stopper.rt, move || theirs.wait()) {
        Ok(_) => Ok(()),
        Err(_) => Err(NoMemory),
    }
}

/// Looks each second whether another file has the path now, and has it waited for too. A thread that waits at a FIFO whose name is gone waits for
/// ever, so that is done [`ANEW`] times at most.
fn watch_path<
    R: Threads + Wait + time::Clock + Copy + Send + 'static,
    M: StopMachine + Copy + Send + 'static,
>(stopper: &Stopper<R, M>) {
    let path = text_of(&stopper.path);
    let mut seen = stopper.machine.file_at(path);
    let mut times: u32 = 0;
    for _ in stopper.rt.forever() {
        stopper.rt.sleep(Duration::from_secs(LOOK));
        if times == ANEW || stopper.stop.is_told() {
            return;
        }
        let there = stopper.machine.file_at(path);
        if there.is_some() && there != seen {
            seen = there;
            times = times.saturating_add(1);
            let _ = start_waiting(stopper);
        }
    }
}

/// Starts the threads that wait for the path, if one is given. They are never waited for.
pub fn start_stop<
    R: Threads + Wait + time::Clock + Copy + Send + 'static,
    M: StopMachine + Copy + Send + 'static,
>(
    rt: R,
    machine: M,
    alloc: Global,
    speaker: &Speaker,
    path: Option<Bytes>,
) -> Result<Option<StopRequest>, NoMemory> {
    let Some(path) = path else {
        return Ok(None);
    };
    let stop = StopRequest::new(alloc)?;
    let Some(theirs) = stop.share() else {
        return Err(NoMemory);
    };
    let stopper = Stopper {
        rt,
        machine,
        messages: speaker.messages()?,
        path,
        stop: theirs,
    };
    start_waiting(&stopper)?;
    match thread::spawn(&rt, move || watch_path(&stopper)) {
        Ok(_) => Ok(Some(stop)),
        Err(_) => Err(NoMemory),
    }
}
