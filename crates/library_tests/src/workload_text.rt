//! The script that is made for measuring.

use replay_script::workload;
use std::test::Fail;

/// What a script begins with.
const HEAD: &[u8] = b"device a
device b
monitor 0 0
open 0
say 0 ?WATCH={\"json\":true};
open 1
say 1 ?WATCH={\"nmea\":true,\"device\":\"b\"};
open 2
say 2 ?WATCH={\"pps\":true};
";

/// The first second of seed 1: x(1) is 1,103,527,590, so the digits are those of 137,940,948.
const FIRST: &[u8] = b"edge 0 assert 1717243200.000000000#1
edge 1 assert 1717243200.000000000#1
text 0 1717243200.100000000 $GPRMC,120000,A,4807.40948,N,01131.40948,E,0.50,84.40,010624,,,A*46
text 0 1717243200.100000000 $GPVTG,84.40,T,,M,0.50,N,0.93,K,A*0A
text 0 1717243200.100000000 $GPGGA,120000,4807.40948,N,01131.40948,E,1,04,0.90,545.4,M,46.9,M,,*7E
text 0 1717243200.100000000 $GPGSA,A,3,01,02,12,14,,,,,,,,,2.50,1.30,2.10*01
text 0 1717243200.100000000 $GPGSV,1,1,04,01,40,083,46,02,17,308,41,12,07,344,39,14,22,228,45*7A
text 0 1717243200.100000000 $GPGLL,4807.40948,N,01131.40948,E,120000,A,A*4D
";

/// The last lines of a script.
const LAST: &[u8] = b"store 0 13
store 1 13
store 2 13
store 3 13
load 0 12
take 0 64
take 1 64
take 2 64
";

#[test]
fn a_script_of_one_second(rt: HostRuntime) -> Result<(), Fail> {
    let script = workload(rt.alloc(), 1, 1)?;
    let text = script.as_slice();
    assert_eq!(rt; text.len(), 1_325);
    assert!(rt; text.starts_with(HEAD));
    assert!(rt; text.ends_with(LAST));
    if let Some(seconds) = text.strip_prefix(HEAD) {
        assert!(rt; seconds.starts_with(FIRST));
    }
    Ok(())
}
