//! The times that the recordings cover.

ghost use Rattle.std.specs.Prelude.{◌≡◌};
ghost use Rattle.transit_run.specs.Told.{span_to};

use crate::facts::Span;

/// The times that both recordings cover, in nanoseconds.
#[derive(Clone, Copy)]
pub(crate) struct Reach {
    in_span: Option<Span>,
    out_span: Option<Span>,
    /// The greatest moment of a frame that was read of each recording.
    read_in: u64,
    read_out: u64,
}

impl Reach {
    /// Of no frame.
    pub(crate) fn new() -> Reach {
        Reach {
            in_span: None,
            out_span: None,
            read_in: 0,
            read_out: 0,
        }
    }

    /// A frame of the recording at the port in was read, and will be shown.
    pub(crate) fn read_in(&mut self, moment: u64) {
        self.read_in = self.read_in.max(moment);
    }

    /// The same of the recording at the port out.
    pub(crate) fn read_out(&mut self, moment: u64) {
        self.read_out = self.read_out.max(moment);
    }

    /// A frame that went in is shown.
    pub(crate) fn goes_in(&mut self, moment: u64) {
        self.in_span = Span::with(self.in_span, moment);
    }

    /// A frame that came out is shown.
    pub(crate) fn comes_out(&mut self, moment: u64) {
        self.out_span = Span::with(self.out_span, moment);
    }

    /// The recording at the port in, from its first frame to the last that was read.
    pub(crate) fn in_span(&self) -> Option<Span>
        ensures { result ≡ span_to self.now.read_in self.now.in_span }
    {
        let Span { first, last } = self.in_span?;
        let last = last.max(self.read_in);
        Some(Span { first, last })
    }

    /// The same of the recording at the port out.
    pub(crate) fn out_span(&self) -> Option<Span>
        ensures { result ≡ span_to self.now.read_out self.now.out_span }
    {
        let Span { first, last } = self.out_span?;
        let last = last.max(self.read_out);
        Some(Span { first, last })
    }

    /// When the first frame of either recording went in or came out.
    pub(crate) fn start(&self) -> Option<u64> {
        match (self.in_span, self.out_span) {
            (Some(went_in), Some(came_out)) => Some(went_in.first.min(came_out.first)),
            (Some(span), None) | (None, Some(span)) => Some(span.first),
            (None, None) => None,
        }
    }

    /// The first moment and the last whose windows both recordings cover.
    pub(crate) fn common(&self, early: u64, within: u64) -> Option<(u64, u64)> {
        let (went_in, came_out) = (self.in_span()?, self.out_span()?);
        let first = came_out.first.saturating_add(early);
        let last = came_out.last.saturating_sub(within);
        let (first, last) = (went_in.first.max(first), went_in.last.min(last));
        if first <= last {
            Some((first, last))
        } else {
            None
        }
    }
}
