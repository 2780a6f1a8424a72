use std::alloc::Global;
use std::thread::Scope;

/// What each thread is given: the runtime, and the allocator.
#[derive(Clone, Copy)]
pub struct Hands<R> {
    pub rt: R,
    pub alloc: Global,
}

/// What starts threads: the runtime, the allocator and the scope of the threads.
#[derive(Drop)]
pub struct Spawner<'s, E, R> {
    pub rt: R,
    pub alloc: Global,
    pub scope: &'s Scope<'s, E>,
}

impl<'s, E, R: Copy> Spawner<'s, E, R> {
    /// What a thread of it is given.
    pub fn hands(&self) -> Hands<R> {
        Hands {
            rt: self.rt,
            alloc: self.alloc,
        }
    }
}
