/// The first line of standard error if the words are refused.
pub const USAGE: &str = "usage: gpsrelay decode|replay|generate|pseudo|lines|serve";

/// The version, as the daemon's VERSION line says it.
pub const RELEASE: &str = "gpsrelay-1";

/// The commands, in a line each.
pub const COMMANDS: &str = "\
commands:
  serve [OPTIONS] WORD ..      the daemon: serves receivers to clients in gpsd's JSON protocol
  decode [--history N|all]     reads receiver bytes on standard input, writes a JSON line for each fix and sky
  pseudo [--history N|all]     reads the same, writes NMEA sentences RMC and GGA for each fix
  lines                        reads the daemon's lines on standard input, writes how many are of each class
  replay [OPTIONS]             plays a script on standard input, writes what clients and monitors receive
  generate --seed N --size N   plays a made script, writes its closing lines
  help [COMMAND]               this text, or the help of a command, as COMMAND --help
  --version                    the version
";

pub(crate) const SERVE_USAGE: &str = "gpsrelay serve [OPTIONS] WORD ..";

/// The options and the words of `serve`.
pub const SERVE: &str = "
options of serve:
  --listen HOST:PORT   where clients connect; port 0 takes a free one (127.0.0.1:2947)
  --queue N            items that may wait for a client, 1 to 65536 (4096)
  --requests N         requests of a client that are answered, 1 to 4294967294 (65536)
  --history N          bytes and edges of one generation of the history, 1 to 33554432 (16777216)
  --wait N             clients that must have watched before what devices send is handed on, 0 to 64 (0)
  --monitor N          readings of each monitor of a segment, 0 to 1000000 (0)
  --reopen SECONDS     opens a terminal, FIFO or host again that many seconds after it ended or failed, 1 to 3600 (never)
  --cycle-gap MS       silence after which a receiver has said all of a moment, so that its fix is sent, 1 to 10000 (never)
  --report SECONDS     says every so many seconds on standard error what the daemon does, 10 to 86400 (never)
  --stop PATH          ends in order at the first byte or the end of this file, as a FIFO or /dev/stdin (never)

words of serve, 1 to 16 of at most 8 devices:
  NAME=file:PATH       a receiver at a file, a FIFO or a terminal (set it raw first: stty -F PATH raw -echo)
  NAME=tcp:HOST:PORT   a receiver at a TCP port
  NAME=gpsd:HOST:PORT  another daemon, gpsd or gpsrelay: the packets of its devices
  NAME=edges:PATH      the pulse edges of the device NAME, after its own word
";

/// The options of the other commands.
pub const OTHERS: &str = "
options of the other commands:
  decode, pseudo: --history N   bytes that are read at most, 1 to 33554432, or all (16777216)
  replay: --history N           bytes and edges of one generation of the history, 1 to 33554432 (16777216)
          --queue N             items that may wait for a client, 1 to 65536 (4096)
  generate: --seed N            0 to 4294967295
            --size N            seconds of the script, 1 to 10000
";

/// Examples, and what the statuses mean.
pub const EXAMPLES: &str = "
examples:
  gpsrelay serve gps0=file:/dev/ttyACM0
  gpsrelay serve --listen 0.0.0.0:2947 roof=tcp:192.168.1.5:4001 gps0=file:/dev/ttyS0 gps0=edges:/run/pps0
  gpsrelay decode < drive.nmea

statuses: 0 done, 2 invalid command line, 3 a read failed, 4 a write failed, 5 too many bytes, 6 a bad line,
  7 out of memory, 8 cannot listen
";

pub(crate) const DECODE_USAGE: &str = "gpsrelay decode [--history N|all] < FILE";

pub(crate) const DECODE: &str = "
Reads receiver bytes, NMEA 0183 or UBX, on standard input, and writes a JSON line for each fix and sky.

options of decode:
  --history N   bytes that are read at most, 1 to 33554432, or all (16777216)

example:
  gpsrelay decode < drive.nmea

statuses: 0 done, 2 invalid command line, 3 a read failed, 4 a write failed, 5 more bytes came than --history, 7 out of memory
";

pub(crate) const PSEUDO_USAGE: &str = "gpsrelay pseudo [--history N|all] < FILE";

pub(crate) const PSEUDO: &str = "
Reads receiver bytes, NMEA 0183 or UBX, on standard input, and writes the NMEA sentences RMC and GGA of each fix.

options of pseudo:
  --history N   bytes that are read at most, 1 to 33554432, or all (16777216)

example:
  gpsrelay pseudo < drive.ubx

statuses: 0 done, 2 invalid command line, 3 a read failed, 4 a write failed, 5 more bytes came than --history, 7 out of memory
";

pub(crate) const LINES_USAGE: &str = "gpsrelay lines < FILE";

pub(crate) const LINES: &str = "
Reads the daemon's lines on standard input, and writes how many are of each class. It has no options.

example:
  gpsrelay decode < drive.nmea | gpsrelay lines

statuses: 0 done, 2 invalid command line, 3 a read failed, 4 a write failed, 5 more than 1073741824 bytes came, 6 a bad line,
  7 out of memory
";

pub(crate) const REPLAY_USAGE: &str = "gpsrelay replay [--history N] [--queue N] < SCRIPT";

pub(crate) const REPLAY: &str = "
Plays a script on standard input, and writes what clients and monitors receive.

options of replay:
  --history N   bytes and edges of one generation of the history, 1 to 33554432 (16777216)
  --queue N     items that may wait for a client, 1 to 65536 (4096)

example:
  gpsrelay replay < drive.script

statuses: 0 done, 2 invalid command line, 3 a read failed, 4 a write failed, 5 more than 1073741824 bytes came, 6 a bad line,
  7 out of memory
";

pub(crate) const GENERATE_USAGE: &str = "gpsrelay generate --seed N --size N";

pub(crate) const GENERATE: &str = "
Plays a made script, and writes its closing lines. It reads nothing.

options of generate, both needed:
  --seed N   0 to 4294967295
  --size N   seconds of the script, 1 to 10000

example:
  gpsrelay generate --seed 1 --size 60

statuses: 0 done, 2 invalid command line, 4 a write failed, 7 out of memory
";
