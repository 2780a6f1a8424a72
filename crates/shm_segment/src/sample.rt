ghost use Rattle.std.specs.Prelude.{◌≡◌, ◌<◌, slice_index};
ghost use Rattle.shm_segment.specs.Samples.{IsSample, IsBody, body_of, sample_of};

use gps_fixed::Stamp;

/// Two clocks read at one moment.
#[derive(Clone, Copy, Debug, PartialEq, Eq)]
pub struct Sample {
    /// The reference time, as the receiver gives it.
    pub reference: Stamp,
    /// The host's time.
    pub host: Stamp,
    /// The precision of the reference time, as a power of two of a second.
    pub precision: i8,
}

impl Sample {
    /// The word at this place of the body, in the order in which a publisher stores the nine of them.
    pub fn word(&self, place: u8) -> u64
        requires { place < 9 }
        ensures { result ≡ slice_index (body_of self.now) place }
    {
        match place {
            0 => self.reference.sec as u64,
            1 => u64::from(self.reference.nsec / 1000),
            2 => self.host.sec as u64,
            3 => u64::from(self.host.nsec / 1000),
            4 => 0,
            5 => i64::from(self.precision).cast_unsigned(),
            6 => 3,
            7 => u64::from(self.reference.nsec),
            _ => u64::from(self.host.nsec),
        }
    }

    /// Says what the type keeps: both stamps and the precision are in their ranges.
    pub fn show_range(&self)
        ensures { IsSample self.now }
    {
        let _seconds = (self.reference.sec, self.host.sec);
        let _precision = self.precision;
    }

    /// The sample of a body that was published whole.
    pub fn of_body(body: &[u64; 9]) -> Sample
        requires { IsBody body.now }
        ensures { result ≡ sample_of body.now }
    {
        Sample {
            reference: Stamp {
                sec: body[0].cast_signed(),
                nsec: body[7] as u32,
            },
            host: Stamp {
                sec: body[2].cast_signed(),
                nsec: body[8] as u32,
            },
            precision: body[5].cast_signed() as i8,
        }
    }
}
