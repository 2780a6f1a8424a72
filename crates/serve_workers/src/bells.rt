use crate::readers::Span;
use gps_fixed::NoMemory;
use gps_lane::Bell;
use gps_outside::Closer;
use std::alloc::Global;
use std::sync::atomic::{AtomicBool, Ordering};

/// Whether a reader has no thread of its own.
#[derive(Drop)]
pub struct Alone {
    is: AtomicBool,
}

/// The bells of a device's readers, and whether one of them has no thread.
#[derive(Drop)]
pub struct DeviceBells {
    pub bytes: Bell,
    pub edges: Bell,
    pub alone: Alone,
}

/// A reader's own bell, whether it has no thread, and the bell of the pump, which takes what it puts.
#[derive(Clone, Copy)]
pub struct ReaderBells<'a> {
    pub own: &'a Bell,
    pub alone: &'a Alone,
    pub pump: &'a Bell,
}

/// The bells of the daemon's own threads.
#[derive(Drop)]
pub struct Bells {
    pub pump: Bell,
    pub door: Bell,
    pub publisher: Bell,
    pub devices: Vec<DeviceBells>,
    pub monitors: Vec<Bell>,
    // Given for a number past the last device or unit. No thread sleeps on it.
    spare: DeviceBells,
}

impl Alone {
    const fn new() -> Alone {
        Alone {
            is: AtomicBool::new(false),
        }
    }

    /// Notes that no thread could be started.
    pub fn leave(&self) {
        self.is.store(true, Ordering::SeqCst);
    }

    /// How much to read: nothing, if there is no thread.
    pub fn span(&self) -> Span {
        if self.is.load(Ordering::SeqCst) {
            Span::Nothing
        } else {
            Span::Whole
        }
    }
}

impl DeviceBells {
    const fn new() -> DeviceBells {
        DeviceBells {
            bytes: Bell::new(),
            edges: Bell::new(),
            alone: Alone::new(),
        }
    }
}

impl Bells {
    /// Bells for this number of devices, with two monitors each.
    pub fn new(alloc: Global, devices: usize) -> Result<Bells, NoMemory> {
        let mut bells = Bells {
            pump: Bell::new(),
            door: Bell::new(),
            publisher: Bell::new(),
            devices: Vec::new(alloc),
            monitors: Vec::new(alloc),
            spare: DeviceBells::new(),
        };
        for _ in 0..devices {
            bells.devices.push(DeviceBells::new())?;
            bells.monitors.push(Bell::new())?;
            bells.monitors.push(Bell::new())?;
        }
        Ok(bells)
    }

    /// The bells of a device, by its number.
    pub fn device(&self, device: usize) -> &DeviceBells {
        match self.devices.get(device) {
            Some(bells) => bells,
            None => &self.spare,
        }
    }

    /// The bell of a monitor, by the number of its unit.
    pub fn monitor(&self, unit: usize) -> &Bell {
        match self.monitors.get(unit) {
            Some(bell) => bell,
            None => &self.spare.bytes,
        }
    }

    /// Wakes the devices' readers: their lanes may have room.
    pub fn ring_devices(&self) {
        for device in self.devices.as_slice() {
            device.bytes.ring();
            device.edges.ring();
        }
    }

    /// There is no thread for the door or for the publisher: no device is read, the door is asked once more at most, and nothing is waited for. The
    /// door is closed, if it has a closer.
    pub fn give_up(&self, closer: &Option<Closer>) {
        for device in self.devices.as_slice() {
            device.alone.leave();
        }
        self.publisher.close();
        self.door.close();
        if let Some(closer) = closer {
            closer.close();
        }
    }

    /// Closes all bells but the pump's: nothing more will come.
    pub fn close(&self) {
        for device in self.devices.as_slice() {
            device.bytes.close();
            device.edges.close();
        }
        for monitor in self.monitors.as_slice() {
            monitor.close();
        }
        self.publisher.close();
        self.door.close();
    }
}

/// The bells of a session's two threads, whether one of them could not be started, whether its writer has ended, and
/// whether both have.
///
/// The reader is told to end only once the writer has ended and closed the link. Its next read then finds the end of the link, and so the
/// file is closed.
#[derive(Drop)]
pub struct SessionBells {
    pub reader: Bell,
    pub writer: Bell,
    pub alone: Alone,
    written: AtomicBool,
    gone: AtomicBool,
}

impl SessionBells {
    pub const fn new() -> SessionBells {
        SessionBells {
            reader: Bell::new(),
            writer: Bell::new(),
            alone: Alone::new(),
            written: AtomicBool::new(false),
            gone: AtomicBool::new(false),
        }
    }

    /// Closes the writer's bell, and the reader's once the writer has ended: nothing more will come.
    pub fn close(&self) {
        self.writer.close();
        if self.written.load(Ordering::SeqCst) {
            self.reader.close();
        }
    }

    /// Notes that the writer has ended. If nothing more will come, the reader ends too.
    pub fn end_writing(&self) {
        self.written.store(true, Ordering::SeqCst);
        if self.writer.is_closed() {
            self.reader.close();
        }
    }

    /// Notes that both threads have ended.
    pub fn leave(&self) {
        self.gone.store(true, Ordering::SeqCst);
    }

    /// Whether both threads have ended.
    pub fn is_gone(&self) -> bool {
        self.gone.load(Ordering::SeqCst)
    }
}
