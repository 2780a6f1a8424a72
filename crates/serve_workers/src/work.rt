ghost use Rattle.std.specs.Prelude.{◌≡◌, IfSome};

use std::marker::Model;
use std::snapshot::Snapshot;
use std::thread::{Promise, PromisedHandle, Scope, Threads};

/// A work in a thread of its own, or its result if no thread could be started. Contracts see what its result promises.
#[derive(Drop)]
pub struct Work<T: Drop, P: Promise<T> + Drop> {
    running: Option<PromisedHandle<T, P>>,
    done: Option<T>,
    promise: Snapshot<P>,
}

impl<T: Drop, P: Promise<T> + Drop> Model for Work<T, P> {
    ghost use Rattle.std.specs.Prelude.{◌≡◌, IfSome, IsSome, None};

    ghost Value = { P };

    ghost view = { λ w. w.promise.value };

    ghost invariant = { λ w. IfSome w.running (λ handle. handle.promise ≡ w.promise.value)
        × IfSome w.done (λ result. P.kept_by w.promise.value result)
        × (w.running ≡ None → IsSome w.done) };
}

/// Starts a work in a thread of its own. If no thread can be started, `alone` is called, and the work is done here.
pub fn start<
    's,
    E,
    P: Promise<T> + Drop,
    F: FnOnce() -> T + Send + 's,
    A: FnOnce(),
    T: Send + Drop + 's,
>(scope: &Scope<'s, E>, promise: P, work: F, alone: A) -> Work<T, P>
    requires runs { F.pre work }
    requires tells { A.pre alone }
    requires keeps { (result : T) → F.post work result → P.kept_by promise result }
    ensures { result ≡ promise }
{
    let shown = Snapshot::of(&promise);
    match scope.spawn_with(promise, work) {
        Ok(handle) => Work {
            running: Some(handle),
            done: None,
            promise: shown,
        },
        Err(refused) => {
            alone();
            let result = (refused.value)();
            Work {
                running: None,
                done: Some(result),
                promise: shown,
            }
        }
    }
}

impl<T: Drop, P: Promise<T> + Drop> Work<T, P> {
    /// Waits for the result.
    pub fn join<R: Threads>(self, rt: &R) -> T
        ensures { P.kept_by self result }
    {
        let Work {
            running,
            done,
            promise: _,
        } = self;
        match running {
            Some(handle) => handle.join(rt),
            None => match done {
                Some(result) => result,
                None => unreachable!(),
            },
        }
    }
}
