//! The kinds of findings, and how bad they are.

/// The kinds of findings. docs/REPORT.md says what each means.
#[derive(Clone, Copy, PartialEq, Eq, PartialOrd, Ord)]
pub enum Kind {
    /// A network's pause, until enough links say what it is.
    Gap,
    Silence,
    ClockStep,
    SkewStep,
    Absent,
    Lost,
    Skipped,
    Outage,
    Stops,
    StopsOn,
    StartsLate,
    StartsLateOn,
    Never,
    NeverOn,
    NoNumber,
    Rate,
    Bag,
    Bunched,
    Early,
    Excess,
    TooLong,
    Reset,
    Stray,
    Old,
    Twice,
    Stuck,
    Reordered,
    Late,
    SkewMoves,
    Apart,
    Jump,
    Out,
    Drift,
    Coarse,
    Begins,
    Ends,
    Torn,
    Dropped,
    Crossed,
    Tagged,
    Broken,
    NoFrames,
    Cut,
    Runt,
    Oversize,
    Foreign,
    Unconfigured,
}

impl Kind {
    /// Its word in JSON.
    pub fn word(self) -> &'static str {
        match self {
            Kind::Gap => "gap",
            Kind::Silence => "silence",
            Kind::ClockStep => "clock step",
            Kind::SkewStep => "skew step",
            Kind::Absent => "absent",
            Kind::Lost => "lost",
            Kind::Skipped => "skipped",
            Kind::Outage => "outage",
            Kind::Stops => "stops",
            Kind::StopsOn => "stops on",
            Kind::StartsLate => "starts late",
            Kind::StartsLateOn => "starts late on",
            Kind::Never => "never",
            Kind::NeverOn => "never on",
            Kind::NoNumber => "no number",
            Kind::Rate => "rate",
            Kind::Bag => "bag",
            Kind::Bunched => "bunched",
            Kind::Early => "early",
            Kind::Excess => "excess",
            Kind::TooLong => "toolong",
            Kind::Reset => "reset",
            Kind::Stray => "stray",
            Kind::Old => "old",
            Kind::Twice => "twice",
            Kind::Stuck => "stuck",
            Kind::Reordered => "reordered",
            Kind::Late => "late",
            Kind::SkewMoves => "skew moves",
            Kind::Apart => "apart",
            Kind::Jump => "jump",
            Kind::Out => "out",
            Kind::Drift => "drift",
            Kind::Coarse => "coarse stamps",
            Kind::Begins => "recorder starts late",
            Kind::Ends => "recorder ends early",
            Kind::Torn => "recording torn",
            Kind::Dropped => "recorder dropped",
            Kind::Crossed => "crossed",
            Kind::Tagged => "tagged",
            Kind::Broken => "recording broken",
            Kind::NoFrames => "no frames",
            Kind::Cut => "cut",
            Kind::Runt => "runt",
            Kind::Oversize => "oversize",
            Kind::Foreign => "foreign",
            Kind::Unconfigured => "unconfigured",
        }
    }

    /// Are events of this kind one where they begin or end at the same moment? Others are where they share
    /// half of their time.
    pub fn is_of_a_moment(self) -> bool {
        matches!(
            self,
            Kind::Stops
                | Kind::StopsOn
                | Kind::StartsLate
                | Kind::StartsLateOn
                | Kind::Reset
                | Kind::SkewMoves
        )
    }

    /// Is it a cause of one link alone? Such findings are told link by link up to 12 links.
    pub fn is_of_one_link(self) -> bool {
        matches!(
            self,
            Kind::Outage | Kind::Absent | Kind::Bag | Kind::Stops | Kind::Rate | Kind::Apart
        )
    }
}

/// How bad a finding or a link is.
#[derive(Clone, Copy, PartialEq, Eq, PartialOrd, Ord)]
pub enum Level {
    Trouble,
    Notice,
    /// A link that was never seen.
    Silent,
    Info,
    Clean,
}
