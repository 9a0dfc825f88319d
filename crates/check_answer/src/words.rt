//! The words and numbers of the answer.

use afdx_frame::Network;
use jiff::Timestamp;
use pcap_io::{ByteOrder, Precision};
use std::fmt;
use std::fmt::{Display, Formatter};
use traffic_survey::{Format, Question, Wiring};
use vl_config::ConfigFault;

/// The name of a fault of the table, as its line has it.
pub fn fault_word(fault: ConfigFault) -> &'static str {
    match fault {
        ConfigFault::Text => "Text",
        ConfigFault::Missing { .. } => "Missing",
        ConfigFault::Kind { .. } => "Kind",
        ConfigFault::Range { .. } => "Range",
        ConfigFault::UnknownKey { .. } => "UnknownKey",
        ConfigFault::TwiceId { .. } => "TwiceId",
        ConfigFault::TwiceName { .. } => "TwiceName",
        ConfigFault::TooMany => "TooMany",
        ConfigFault::Memory => "Memory",
    }
}

/// The format of a recording, in words.
pub fn format_words(format: Option<Format>) -> &'static str {
    let layout = match format {
        Some(Format::Pcap(layout)) => layout,
        Some(Format::Pcapng) => return "pcapng",
        None => return "unknown",
    };
    match (layout.order, layout.precision) {
        (ByteOrder::Little, Precision::Microseconds) => "pcap, little-endian, microseconds",
        (ByteOrder::Little, Precision::Nanoseconds) => "pcap, little-endian, nanoseconds",
        (ByteOrder::Big, Precision::Microseconds) => "pcap, big-endian, microseconds",
        (ByteOrder::Big, Precision::Nanoseconds) => "pcap, big-endian, nanoseconds",
    }
}

/// A timestamp in nanoseconds since 1970, as RFC 3339 writes it in UTC.
#[derive(Clone, Copy)]
pub struct Utc(pub u64);

impl Display for Utc {
    fn fmt<W: fmt::Write>(&self, f: &mut Formatter<W>) -> fmt::Result {
        let nanos = self.0;
        match Timestamp::from_nanosecond(i128::from(nanos)) {
            Ok(timestamp) => write!(f, "{timestamp}"),
            Err(_) => write!(f, "{nanos} ns"),
        }
    }
}

/// A number of seconds, with nine decimals.
#[derive(Clone, Copy)]
pub struct Seconds(pub u64);

impl Display for Seconds {
    fn fmt<W: fmt::Write>(&self, f: &mut Formatter<W>) -> fmt::Result {
        let (seconds, nanos) = (self.0 / 1_000_000_000, self.0 % 1_000_000_000);
        write!(f, "{seconds}.{nanos:09}")
    }
}

/// A number of things, with an s where there isn't one of them.
#[derive(Clone, Copy)]
pub struct Counted(pub u64, pub &'static str);

impl Display for Counted {
    fn fmt<W: fmt::Write>(&self, f: &mut Formatter<W>) -> fmt::Result {
        let (count, kind) = (self.0, self.1);
        let ending = if count == 1 { "" } else { "s" };
        write!(f, "{count} {kind}{ending}")
    }
}

/// The first word of a question about network A, the second of one about B.
fn by_network(network: Network, a: &'static str, b: &'static str) -> &'static str {
    match network {
        Network::A => a,
        Network::B => b,
    }
}

/// The word of a question, for scripts.
pub fn question_word(question: &Question) -> &'static str {
    match *question {
        Question::Empty(network) => by_network(network, "empty_a", "empty_b"),
        Question::SameRecording => "same_recording",
        Question::Wiring(Wiring::Swapped) => "swapped",
        Question::Wiring(Wiring::BothOfA) => "both_of_a",
        Question::Wiring(Wiring::BothOfB) => "both_of_b",
        Question::Apart => "apart",
        Question::Constant { .. } => "constant",
        Question::CheckSequence(network) => {
            by_network(network, "check_sequence_a", "check_sequence_b")
        }
        Question::Tagged { network, .. } => by_network(network, "tagged_a", "tagged_b"),
        Question::TooLong { .. } => "too_long",
        Question::OtherTable { .. } => "other_table",
        Question::Cut { network, .. } => by_network(network, "cut_a", "cut_b"),
        Question::Twice { network, .. } => by_network(network, "twice_a", "twice_b"),
        Question::Doubled(doubled) => by_network(doubled.network, "twice_a", "twice_b"),
        Question::Crossed(crossing) => by_network(crossing.network, "crossed_a", "crossed_b"),
        Question::Unlike(_) => "unlike",
        Question::Stepped(step) => by_network(step.ahead, "step_a", "step_b"),
        Question::Drift(_) => "drift",
        Question::Rounds { .. } => "rounds",
        Question::Clocks(_) => "clocks",
    }
}
