use arrayvec::ArrayVec;
use std::alloc::Global;
use std::fs::Metadata;
use std::os::unix::fs::MetadataExt;
use std::sync::Arc;
use std::sync::atomic::{AtomicU64, Ordering};

/// How many inputs a world has at most.
const INPUTS: usize = 16;

/// The file that an input has open: the number of its device, and its number there, which is 0 if there is none.
#[derive(Default, Drop)]
struct Slot {
    device: AtomicU64,
    node: AtomicU64,
}

/// Which named pipes and terminals the inputs of a world have open, each in a slot of its own. All that open share it, as each byte of such a file
/// is read once: under two names each would get a part.
#[derive(Drop)]
pub(crate) struct OpenFiles {
    /// None if there was no memory for them: then nothing is known.
    slots: Option<Arc<ArrayVec<Slot, 16, Global>, Global>>,
}

impl Slot {
    fn set(&self, file: &Metadata) {
        self.device.store(file.dev(), Ordering::SeqCst);
        self.node.store(file.ino(), Ordering::SeqCst);
    }

    fn clear(&self) {
        self.node.store(0, Ordering::SeqCst);
    }

    fn is(&self, file: &Metadata) -> bool {
        self.node.load(Ordering::SeqCst) == file.ino()
            && self.device.load(Ordering::SeqCst) == file.dev()
    }
}

impl OpenFiles {
    /// No input has a file open.
    pub(crate) fn none(alloc: Global) -> OpenFiles {
        let mut slots = ArrayVec::new_in(alloc);
        for _ in 0..INPUTS {
            let _ = slots.try_push(Slot::default());
        }
        OpenFiles {
            slots: Arc::new(alloc, slots).ok(),
        }
    }

    /// A copy.
    pub(crate) fn share(&self) -> OpenFiles {
        let slots = match &self.slots {
            Some(slots) => Arc::try_clone(slots).ok(),
            None => None,
        };
        OpenFiles { slots }
    }

    /// The input of this number opens this file. False: another input has it open. If two open it at the same moment, neither may.
    pub(crate) fn take(&self, number: usize, file: &Metadata) -> bool {
        let Some(slots) = &self.slots else {
            return true;
        };
        let slots = slots.as_slice();
        let Some(own) = slots.get(number) else {
            return true;
        };
        own.set(file);
        let holders = slots.iter().filter(|slot| slot.is(file)).count();
        if holders > 1 {
            own.clear();
        }
        holders <= 1
    }

    /// The input of this number has no file open.
    pub(crate) fn leave(&self, number: usize) {
        let Some(slots) = &self.slots else {
            return;
        };
        if let Some(own) = slots.as_slice().get(number) {
            own.clear();
        }
    }
}
