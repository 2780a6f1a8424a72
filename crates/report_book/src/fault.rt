use book_sessions::AdmitFault;
use gps_fixed::NoMemory;

/// Why a book refuses a call. If several hold, the first of these.
#[derive(Clone, Copy, Debug, PartialEq, Eq)]
pub enum BookFault {
    /// There is no such device, session or unit.
    NoSuch,
    /// The device has ended or was lost, or the session is closed.
    Ended,
    /// 64 sessions are live, or 100,000 were opened.
    TooManySessions { live: u32, opened: u32 },
    NoMemory,
}

impl From<NoMemory> for BookFault {
    ghost use Rattle.std.specs.Prelude.{◌≡◌};
    ghost use Rattle.report_book.specs.declared.fault.BookFault.{BookFault};

    ghost from_gives = { λ fault result. result ≡ BookFault.NoMemory };

    fn from(_: NoMemory) -> BookFault {
        BookFault::NoMemory
    }
}

impl From<AdmitFault> for BookFault {
    ghost use Rattle.std.specs.Prelude.{◌≡◌};
    ghost use Rattle.report_book.specs.Faults.{fault_of_admission};

    ghost from_gives = { λ fault result. result ≡ fault_of_admission fault };

    fn from(fault: AdmitFault) -> BookFault {
        match fault {
            AdmitFault::TooManySessions { live, opened } => {
                BookFault::TooManySessions { live, opened }
            }
            AdmitFault::NoMemory => BookFault::NoMemory,
        }
    }
}
