//! The order of a link's frames, which a switch is to keep.

/// The order of the frames of a link that came out.
#[derive(Clone, Copy)]
pub(crate) struct Order {
    /// When the last of them came out.
    latest: u64,
    /// When the last went in of those that came out then.
    with_latest: u64,
    /// When the last went in of those that came out before.
    before_latest: Option<u64>,
}

impl Order {
    /// Of one frame, by its moments of going in and of coming out.
    pub(crate) fn of(went_in: u64, came_out: u64) -> Order {
        Order {
            latest: came_out,
            with_latest: went_in,
            before_latest: None,
        }
    }

    /// Another frame comes out, no earlier than the last. Whether one that went in later came out earlier.
    pub(crate) fn overtakes(&mut self, went_in: u64, came_out: u64) -> bool {
        if came_out > self.latest {
            let before = self.before_latest.unwrap_or(0).max(self.with_latest);
            *self = Order {
                latest: came_out,
                with_latest: went_in,
                before_latest: Some(before),
            };
        } else {
            self.with_latest = self.with_latest.max(went_in);
        }
        match self.before_latest {
            Some(before) => before > went_in,
            None => false,
        }
    }
}
