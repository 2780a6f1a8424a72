ghost use Rattle.hub_promise.specs.Parts.{devices_held};
ghost use Rattle.serve_workers.specs.Writing.{AllowsClients};

use gps_hub::HubNaming;
use gps_outside::ClientSink;
use std::marker::{Model, PhantomData};

/// What is known of all sinks of clients: each allows what its client is due of the hub's devices. It has no data. The door worker has it, so that
/// its threads know that too.
#[derive(Drop)]
pub struct DueSinks<K: ClientSink, J: HubNaming> {
    of: PhantomData<(K, J)>,
}

impl<K: ClientSink, J: HubNaming> Model for DueSinks<K, J> {
    ghost use Rattle.hub_promise.specs.Parts.{devices_held};
    ghost use Rattle.serve_workers.specs.Writing.{AllowsClients};

    ghost Value = { Unit {0} };

    ghost view = { λ _. tt };

    ghost invariant = { λ _. AllowsClients K.asks K.written K.allows (devices_held J.terms.names J.terms.lanes) };
}

impl<K: ClientSink, J: HubNaming> DueSinks<K, J> {
    /// By what is known of the sinks.
    pub fn known() -> DueSinks<K, J>
        requires writes { AllowsClients K.asks K.written K.allows (devices_held J.terms.names J.terms.lanes) }
    {
        DueSinks { of: PhantomData }
    }

    /// Each sink allows what its client is due.
    pub(crate) fn show(&self)
        ensures { AllowsClients K.asks K.written K.allows (devices_held J.terms.names J.terms.lanes) }
    {
        let _of = &self.of;
    }
}
