//! Whether what a device sends can be read. Its bytes are gathered for ten seconds, and then looked at once: so it costs the way of the bytes
//! nothing. What gave a fix is looked at again a minute later.

use crate::messages::Tell;
use crate::place_text::{PlaceText, text_of};
use class_counts::{Finding, FirstBytes, PacketCounts};
use gps_world::Place;
use std::alloc::Global;
use std::fmt;
use std::time::Duration;

/// For how many seconds bytes are gathered.
const SPAN: u64 = 10;

/// How many seconds after bytes that gave a fix are gathered again.
const REST: u64 = 60;

/// How many seconds lie between two messages of what lasts.
const HOUR: u64 = 3_600;

/// What is wrong with what a device sends.
#[derive(Clone, Copy, PartialEq, Eq)]
enum Trouble {
    /// It holds no packet.
    Unreadable,
    /// It holds packets, none of which gives a fix.
    NoFix,
}

/// What was said last, and when.
#[derive(Clone, Copy)]
struct Said {
    trouble: Trouble,
    at: Duration,
}

/// The bytes that were gathered since a moment.
#[derive(Drop)]
struct Gathered {
    begun: Duration,
    count: u64,
    bytes: FirstBytes,
}

impl Gathered {
    fn new(alloc: Global, begun: Duration) -> Gathered {
        Gathered {
            begun,
            count: 0,
            bytes: FirstBytes::new(alloc),
        }
    }

    fn add(&mut self, piece: &[u8]) {
        self.count = self.count.saturating_add(piece.len() as u64);
        self.bytes.add(piece);
    }

    fn seconds(&self, now: Duration) -> u64 {
        now.saturating_sub(self.begun).as_secs()
    }
}

/// How many bytes came, and in what time.
#[derive(Clone, Copy)]
struct Amount {
    bytes: u64,
    seconds: u64,
}

impl fmt::Display for Amount {
    fn fmt<W: fmt::Write>(&self, f: &mut fmt::Formatter<W>) -> fmt::Result {
        write!(f, "{} bytes in {} s", self.bytes, self.seconds)
    }
}

/// Looks at what a device sends, and says once, and each hour, that it cannot be read or gives no fix; and when that is over.
#[derive(Drop)]
pub struct Readability {
    alloc: Global,
    /// Whether the device is a terminal, which has a speed.
    is_terminal: bool,
    gathered: Option<Gathered>,
    /// Before this moment nothing is gathered.
    next: Duration,
    said: Option<Said>,
}

impl Readability {
    pub fn new(alloc: Global, is_terminal: bool) -> Readability {
        Readability {
            alloc,
            is_terminal,
            gathered: None,
            next: Duration::ZERO,
            said: None,
        }
    }

    /// Its place was lost: what was gathered of it tells nothing of what comes next.
    pub fn begin_anew(&mut self) {
        self.gathered = None;
        self.next = Duration::ZERO;
    }

    /// Gathers a piece that came now, and looks at what was gathered if it is time for it.
    pub fn heard<V: Tell>(&mut self, voice: &V, place: &Place, piece: &[u8], now: Duration) {
        if now < self.next {
            return;
        }
        let mut gathered = match self.gathered.take() {
            Some(gathered) => gathered,
            None => Gathered::new(self.alloc, now),
        };
        gathered.add(piece);
        let is_over = gathered.seconds(now) >= SPAN;
        if is_over {
            self.judge(voice, place, &gathered, now);
        } else if gathered.bytes.is_full() {
            self.look_early(voice, place, gathered, now);
        } else {
            self.gathered = Some(gathered);
        }
    }

    /// Looks at bytes for which there is no more room. Without a fix among them, later ones are gathered in their place.
    fn look_early<V: Tell>(&mut self, voice: &V, place: &Place, gathered: Gathered, now: Duration) {
        let mut gathered = gathered;
        if let Finding::Fix = gathered.bytes.finding() {
            self.be_well(voice, place, now);
        } else {
            gathered.bytes = FirstBytes::new(self.alloc);
            self.gathered = Some(gathered);
        }
    }

    /// Says what was found, if that is news.
    fn judge<V: Tell>(&mut self, voice: &V, place: &Place, gathered: &Gathered, now: Duration) {
        let amount = Amount {
            bytes: gathered.count,
            seconds: gathered.seconds(now),
        };
        match gathered.bytes.finding() {
            Finding::Fix => self.be_well(voice, place, now),
            Finding::Packets(counts) => {
                if self.is_news(Trouble::NoFix, now) {
                    tell_no_fix(voice, place, amount, &counts);
                }
            }
            Finding::Unchecked(number) => {
                if self.is_news(Trouble::Unreadable, now) {
                    tell_unchecked(voice, place, amount, number);
                }
            }
            Finding::Json | Finding::Nothing => {
                if self.is_news(Trouble::Unreadable, now) {
                    self.tell_unreadable(voice, place, amount);
                }
            }
        }
    }

    /// Whether it is news that something is wrong: it is once, again each hour, and if packets come at last.
    fn is_news(&mut self, trouble: Trouble, now: Duration) -> bool {
        let is_news = match self.said {
            None => true,
            Some(said) => {
                let is_better = said.trouble == Trouble::Unreadable && trouble == Trouble::NoFix;
                is_better || now.saturating_sub(said.at) >= Duration::from_secs(HOUR)
            }
        };
        if is_news {
            self.said = Some(Said { trouble, at: now });
        }
        is_news
    }

    /// A fix was found. Says so after a message that there was none.
    fn be_well<V: Tell>(&mut self, voice: &V, place: &Place, now: Duration) {
        self.next = now.saturating_add(Duration::from_secs(REST));
        let place = PlaceText(place);
        match self.said.take() {
            Some(
                Said {
                    trouble: Trouble::Unreadable,
                    at: _,
                },
            ) => voice.tell(format_args!("{place} can be read now")),
            Some(
                Said {
                    trouble: Trouble::NoFix,
                    at: _,
                },
            ) => voice.tell(format_args!("{place} gives fixes now")),
            None => {}
        }
    }

    fn tell_unreadable<V: Tell>(&self, voice: &V, place: &Place, amount: Amount) {
        let text = PlaceText(place);
        match place {
            Place::File(path) if self.is_terminal => {
                let path = text_of(path);
                voice.tell_fault(format_args!(
                    "{text} cannot be read: {amount}, and no packet among them; a wrong speed is the usual cause: gpsrelay-port {path} finds the right one"
                ));
            }
            _ => voice.tell_fault(format_args!(
                "{text} cannot be read: {amount}, and no packet among them: is it NMEA 0183 or UBX?"
            )),
        }
    }
}

fn tell_unchecked<V: Tell>(voice: &V, place: &Place, amount: Amount, number: u64) {
    let text = PlaceText(place);
    voice.tell_fault(format_args!(
        "{text} cannot be read: {amount}: {number} sentences without a checksum, which are passed over"
    ));
}

fn tell_no_fix<V: Tell>(voice: &V, place: &Place, amount: Amount, counts: &PacketCounts<'_>) {
    let text = PlaceText(place);
    voice.tell(format_args!("{text} gives no fix: {amount}: {counts}"));
}
