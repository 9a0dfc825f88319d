//! Columns of time.

/// Columns of time, each as wide as the others. Times are in nanoseconds.
#[derive(Clone, Copy)]
pub struct TimeColumns {
    /// When the first begins.
    pub start: u64,
    pub width: u64,
    /// How many there are.
    pub count: usize,
}

impl TimeColumns {
    /// The column of a moment. None: it lies before or after all of them.
    pub(crate) fn column(self, moment: u64) -> Option<usize> {
        let since = moment.checked_sub(self.start)?;
        let column = usize::try_from(since.checked_div(self.width)?).ok()?;
        if column < self.count {
            Some(column)
        } else {
            None
        }
    }
}
