ghost use Rattle.std.specs.Prelude.{◌≡◌, ◌≤◌, ◌+◌, ◌++◌, false, true, length, take};
ghost use Rattle.gps_outside.specs.Counts.{Rose};
ghost use Rattle.gps_outside.specs.Writes.{WritesAll};
ghost use Rattle.upstream_laws.specs.Carried.{request};

use gps_outside::{Sink, write_all};
use gps_report::Name;

/// The longest request has 94 bytes.
const ROOM: usize = 96;

/// Puts a text after the first `at` bytes of a buffer, and returns how many bytes are there then.
fn put(buf: &mut [u8], at: usize, text: &[u8]) -> usize
    requires { at + length text.now ≤ length buf.old }
    ensures len { result ≡ at + length text.now }
    ensures bytes { take result buf.new ≡ take at buf.old ++ text.now }
{
    let end = at + text.len();
    buf[at..end].copy_from_slice(text);
    end
}

/// Puts the request for the packets of a device, or of all, into a buffer: how many bytes it has.
fn put_request(buf: &mut [u8; ROOM], device: &Option<Name>) -> usize
    ensures within { result ≤ 96 }
    ensures bytes { take result buf.new ≡ request device.now }
{
    match device {
        None => put(buf, 0, b"?WATCH={\"raw\":2};\n"),
        Some(name) => {
            let len = put(buf, 0, b"?WATCH={\"raw\":2,\"device\":\"");
            let len = put(buf, len, name.as_slice());
            put(buf, len, b"\"};\n")
        }
    }
}

/// Asks another daemon for the packets of a device, or of all. False: a prefix of the request was written.
pub(crate) fn ask<K: Sink>(sink: &mut K, device: &Option<Name>) -> bool
    requires takes { K.takes sink.old }
    ensures takes { K.takes sink.new }
    ensures bytes { WritesAll result (request device.now) (K.written sink.old) (K.written sink.new) }
    ensures faults_stay { K.faults sink.old ≤ K.faults sink.new }
    ensures failed { result ≡ false → Rose (K.faults sink.old) (K.faults sink.new) }
    ensures fails_only { result ≡ true → K.faults sink.new ≡ K.faults sink.old }
{
    let mut buf = [0; ROOM];
    let len = put_request(&mut buf, device);
    write_all(sink, &buf[..len])
}
