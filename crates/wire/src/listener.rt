ghost use Rattle.std.specs.Prelude.{◌≡◌, ◌≤◌, IfOk};
ghost use Rattle.wire.specs.Links.{IsNewLink};

use crate::{Inward, Outward};
use std::io::{self, ErrorKind};
use std::marker::Model;
use std::net::TcpListener;

/// A TCP listener, seen as the number of links that it gave: the numbers of its links are below.
#[derive(Drop)]
pub struct Listener {
    listener: TcpListener,
    links: u64,
}

impl Model for Listener {
    ghost use Rattle.std.specs.Prelude.{ℕ};

    ghost Value = { ℕ };

    ghost view = { λ s. s.links };
}

impl Listener {
    pub fn of_listener(listener: TcpListener) -> Listener
        ensures { result ≡ 0 }
    {
        Listener { listener, links: 0 }
    }

    /// Accepts the next connection, as a link: the half that is read and the half that is written have one number, which no other link of this
    /// listener has.
    pub fn accept(&mut self) -> io::Result<(Inward, Outward)>
        ensures more { self.old ≤ self.new }
        ensures link { IfOk result (λ halves. IsNewLink self.old self.new halves.0 halves.1) }
    {
        let (stream, _) = self.listener.accept()?;
        let other = stream.try_clone()?;
        let link = self.links;
        let Some(next) = link.checked_add(1) else {
            return Err(io::Error::from(ErrorKind::Other));
        };
        self.links = next;
        Ok((Inward::of_link(stream, link), Outward::of_link(other, link)))
    }
}
