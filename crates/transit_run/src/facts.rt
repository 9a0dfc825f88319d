//! The facts of each link, listed in the table or not.

ghost use Rattle.std.specs.Prelude.{◌≡◌};
ghost use Rattle.transit_run.specs.Told.{covers};

use crate::order::Order;

/// When frames of a link first went in and came out, in nanoseconds, and whether they kept their order.
#[derive(Clone, Copy)]
pub(crate) struct LinkFacts {
    pub(crate) first_in: Option<u64>,
    pub(crate) first_out: Option<u64>,
    pub(crate) order: Option<Order>,
    /// The rows of dropped and of new frames in which one of the link stands last.
    pub(crate) dropped_in: Option<u64>,
    pub(crate) new_in: Option<u64>,
}

impl LinkFacts {
    /// Of a link without a frame.
    pub(crate) fn new() -> LinkFacts {
        LinkFacts {
            first_in: None,
            first_out: None,
            order: None,
            dropped_in: None,
            new_in: None,
        }
    }

    /// A frame of the link is paired. Whether one that went in later came out earlier.
    pub(crate) fn overtakes(&mut self, went_in: u64, came_out: u64) -> bool {
        match &mut self.order {
            Some(order) => order.overtakes(went_in, came_out),
            None => {
                self.order = Some(Order::of(went_in, came_out));
                false
            }
        }
    }
}

/// The first moment and the last of a recording, in nanoseconds.
#[derive(Clone, Copy)]
pub(crate) struct Span {
    pub(crate) first: u64,
    pub(crate) last: u64,
}

impl Span {
    /// The span with a further moment, no earlier than its last.
    pub(crate) fn with(span: Option<Span>, moment: u64) -> Option<Span> {
        let first = match span {
            Some(span) => span.first,
            None => moment,
        };
        Some(Span {
            first,
            last: moment,
        })
    }
}

/// True if a recording covers the time from so much before a moment to so much after it.
pub(crate) fn covers(span: Option<Span>, moment: u64, before: u64, after: u64) -> bool
    ensures { result ≡ covers span moment before after }
{
    match span {
        Some(span) => {
            span.first.saturating_add(before) <= moment && moment.saturating_add(after) <= span.last
        }
        None => false,
    }
}

/// True if the moment, if there is one, is no later than the other.
pub(crate) fn is_by(moment: Option<u64>, other: u64) -> bool {
    match moment {
        Some(moment) => moment <= other,
        None => false,
    }
}
