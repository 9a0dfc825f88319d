//! How the commands are called, and what the help says after their arguments.

/// How `capture` is called.
pub const CAPTURE_USAGE: &str = "\
afdxmon capture [OPTIONS] <--code <TEXT>|--filter <FILE>|--source <FILE>> [RECORDING]...";

/// The text after the options in the help of `capture`.
pub const CAPTURE_EXAMPLE: &str = "\
One of --code, --filter and --source gives the filter. '-' is standard input, or standard output.

Example: keep the frames of virtual link 5
  afdxmon capture --code \"$(tcpdump -y EN10MB -ddd 'ether[4:2] = 5')\" recording.pcap -o link5.pcap";

/// The text after the options in the help of `asm`.
pub const ASM_EXAMPLE: &str = "\
Example: keep the frames of virtual link 5
  printf 'ldh [4]\\njne #5, drop\\nret #-1\\ndrop: ret #0\\n' | afdxmon asm";

/// How `watch` is called.
pub const WATCH_USAGE: &str = "\
afdxmon watch [OPTIONS] --config <FILE> --ledger <FILE> <--a <FILE>...|--b <FILE>...>";

/// The text after the options in the help of `watch`.
pub const WATCH_EXAMPLE: &str = "\
A network whose recording isn't given has no frames. Without --filter no frame is accepted, and
--capture can't be given. '-' is standard input, or standard output.

Example: keep the frames that examples/flight.filter accepts, and judge them all
  afdxmon watch --config flight.toml --filter flight.filter --a a.pcap --b b.pcap \\
    --capture kept.pcap --ledger verdicts.ledger";

/// How `debug` is called.
pub const DEBUG_USAGE: &str = "\
afdxmon debug [OPTIONS] --tap <FILE>... <--filter <FILE>|--source <FILE>>";

/// The text after the options in the help of `debug`.
pub const DEBUG_EXAMPLE: &str = "\
Commands: select <n>, step [+|-]<n>, cont, breakpoint <n>, disassemble, tally, quit

Example: the state before the filter's first three instructions on frame 0
  printf 'select 0\\nstep 1\\nstep 1\\n' | afdxmon debug --filter flight.filter --tap a.pcap";

/// How `cut` is called.
pub const CUT_USAGE: &str = "\
afdxmon cut [OPTIONS] --ledger <FILE> <--a <FILE>...|--b <FILE>...|--ledger-only>
       afdxmon cut [OPTIONS] --ledger <FILE> <--before <FILE>...|--after <FILE>...>";

/// The text after the options in the help of `cut`.
pub const CUT_EXAMPLE: &str = "\
Frames are written whole, as recorded, in the ledger's order. A frame is selected if it meets every
option from --link to --filters that is given. With --around the ledger is read twice: it has to be
a file. Lines of a network whose recording isn't given are passed over. A TIME is
'2027-01-15T08:00:12.119534506Z', the '08:00:12.1195' or '08:00' of the recording's day in UTC,
'+12.1195' or '+12s' after the ledger's first frame, or nanoseconds since 1970. A --to earlier in
the day than --from is one of the next day. '-' is standard input, or standard output.

By a ledger of transits, as `afdxmon transit --ledger` writes it, --verdict takes words of its
field 8 or 'faults', and each frame that went in has the one that came out of it beside it.

Example: keep the frames that policing discarded
  afdxmon cut --ledger flight.ledger --a a.pcap --b b.pcap --verdict excess -o excess.pcap";

/// How `links` is called.
pub const LINKS_USAGE: &str = "\
afdxmon links [OPTIONS] <--a <FILE>...|--b <FILE>...|--icd <FILE>>";

/// The text after the options in the help of `links`.
pub const LINKS_EXAMPLE: &str = "\
The draft says what was seen and not what was specified: check it against the ICD. With --icd it says
what the ICD specifies, and what was seen where that leaves a value out; comments say where both differ.
The ICD is a table as spreadsheets export it: the heads of its columns are id and any of name, bag_ms,
jitter_us, smax, integrity, redundancy, skew_us and group, or as 'VL ID', 'BAG [ms]' and 'LRU'; --column
names others, and all else is passed over. Without --constant the draft has the most common constant
field with bits 24 and 25 set. '-' is standard input.

Example: a table from two recordings, and a run with it
  afdxmon links --a a.pcap --b b.pcap > draft.toml
  afdxmon watch --config draft.toml --a a.pcap --b b.pcap --ledger verdicts.ledger";

/// How `report` is called.
pub const REPORT_USAGE: &str = "\
afdxmon report [OPTIONS] --config <FILE> --ledger <FILE>";

/// The text after the options in the help of `report`.
pub const REPORT_EXAMPLE: &str = "\
The page is one file without scripts and links. Without -o a terminal is shown the first part as text.
--from, --to, --link and --network tell of a part of the ledger; they are those of `afdxmon cut`, whose
--ledger-only writes a ledger's part that is taken too. '-' is standard input, or standard output.

Example: a page on a run, and one that compares it with the flight before
  afdxmon report --config flight.toml --ledger verdicts.ledger -o report.html
  afdxmon report --config flight.toml --ledger today.ledger --baseline yesterday.ledger -o two.html";

/// How `check` is called.
pub const CHECK_USAGE: &str = "afdxmon check [OPTIONS] --config <FILE>";

/// The text after the options in the help of `check`.
pub const CHECK_EXAMPLE: &str = "\
The answer goes to standard output; nothing else is written. Of each recording the first 1000000
frames are read, by --whole all. The exit status is 0 where a run would be sound, else 1. '-' is
standard input.

Example: whether a table, a filter and two recordings belong together
  afdxmon check --config flight.toml --filter flight.filter --a a.pcap --b b.pcap";

/// How `transit` is called.
pub const TRANSIT_USAGE: &str = "\
afdxmon transit [OPTIONS] --config <FILE> --before <FILE>... --after <FILE>...";

/// The text after the options in the help of `transit`.
pub const TRANSIT_EXAMPLE: &str = "\
Both recordings are made by one clock. The answer goes to standard output; the ledger has a line for each
frame that went in, and for each that came out and never went in. The exit status is 1 where a question
is open, as whether the clocks are apart. '-' is standard input, or standard output.

Example: what the switch did, and each frame that it dropped
  afdxmon transit --config flight.toml --before in.pcap --after out.pcap --ledger transit.ledger
  grep ' dropped ' transit.ledger";
