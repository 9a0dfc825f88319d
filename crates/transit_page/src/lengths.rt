//! Lengths of time that may be below 0, and moments.

use report_page::{Page, Part, View};

/// Appends a length of time in nanoseconds, which is below 0 where clocks are apart.
pub(crate) fn push_length(page: &mut Page, nanos: i64) {
    let sign = if nanos < 0 { "-" } else { "" };
    let length = Part::Duration(nanos.unsigned_abs());
    page.fill(
        "$sign$$length$",
        &[("sign", Part::Text(sign)), ("length", length)],
    );
}

/// A moment, as the page tells it: one before the page's first line in UTC.
pub(crate) fn moment(view: &View<'_>, stamp: u64) -> Part<'static> {
    if stamp < view.report.start {
        Part::Utc(stamp)
    } else {
        view.since(stamp)
    }
}
