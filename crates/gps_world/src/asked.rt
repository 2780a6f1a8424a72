ghost use Rattle.std.specs.Prelude.{◌≡◌, ◌<◌, length, Some};
ghost use Rattle.gps_world.specs.Asking.{asked_nothing, asked_for, listened_to};

use crate::Place;
use arrayvec::ArrayVec;
use gps_fixed::Bytes;
use std::alloc::Global;
use std::marker::Model;

/// What a world was asked so far: at most sixteen places, in order, and the address to listen to. Takes no memory.
#[derive(Drop)]
pub struct Asked {
    places: ArrayVec<Place, 16, Global>,
    address: Option<Bytes>,
}

impl Model for Asked {
    ghost use Rattle.gps_world.specs.Asking.{Asking};

    ghost Value = { Asking };

    ghost view = { λ a. record { places = a.places.items; address = a.address } };
}

impl Asked {
    /// Nothing was asked.
    pub fn nothing(alloc: Global) -> Asked
        ensures { result ≡ asked_nothing }
    {
        Asked {
            places: ArrayVec::new_in(alloc),
            address: None,
        }
    }

    pub fn places(&self) -> &[Place]
        ensures { result.now ≡ self.now.places }
    {
        self.places.as_slice()
    }

    pub(crate) fn add(&mut self, place: Place)
        requires { length self.old.places < 16 }
        ensures { self.new ≡ asked_for place self.old }
    {
        self.places.push(place);
    }

    pub(crate) fn set_address(&mut self, address: Bytes)
        ensures { self.new ≡ listened_to address self.old }
    {
        self.address = Some(address);
    }
}
