//! A link of two reports.

use crate::numbers::LinkNumbers;
use crate::worse::LinkComparison;
use crate::{Anomaly, LinkReport, Report};
use afdx_frame::VlId;

/// The lines of a link on both networks.
fn frames_of(link: &LinkReport) -> u64 {
    link.lanes.a.frames.saturating_add(link.lanes.b.frames)
}

/// The count of a sign on both networks.
fn count_both(link: &LinkReport, sign: Anomaly) -> u64 {
    let a = link.lanes.a.signs.of(sign).count;
    a.saturating_add(link.lanes.b.signs.of(sign).count)
}

/// The least interval of both networks, where there is one.
fn least_of(link: &LinkReport) -> Option<u64> {
    let (a, b) = (&link.lanes.a, &link.lanes.b);
    if a.intervals == 0 && b.intervals == 0 {
        None
    } else {
        Some(a.least.min(b.least))
    }
}

/// The greatest skew of copies and of late deliveries, where there is one.
fn skew_of(link: &LinkReport) -> Option<u64> {
    if link.copies == 0 && link.late_greatest == 0 {
        None
    } else {
        Some(link.skew_greatest.max(link.late_greatest))
    }
}

/// The numbers of a link in a flight, where it has a frame.
fn numbers_of(report: &Report, link: &LinkReport) -> Option<LinkNumbers> {
    let frames = frames_of(link);
    if frames == 0 {
        return None;
    }
    Some(LinkNumbers {
        length: report.end.saturating_sub(report.start),
        frames,
        copies: link.copies,
        too_long: count_both(link, Anomaly::TooLong),
        excess: count_both(link, Anomaly::Excess),
        out: count_both(link, Anomaly::Out),
        lost: count_both(link, Anomaly::Lost),
        lost_both: link.lost_both,
        repeat: count_both(link, Anomaly::Repeat),
        reset: count_both(link, Anomaly::Reset),
        alone: count_both(link, Anomaly::Alone),
        late: count_both(link, Anomaly::Late),
        least: least_of(link),
        skew: skew_of(link),
        skew_median: (link.copies > 0).then_some(link.skew_median),
    })
}

/// The link of this identifier in a report, whose links are by identifier.
fn link_of(report: &Report, id: VlId) -> Option<&LinkReport> {
    let place = report.links.binary_search_by_key(&id.0, |link| link.id.0);
    report.links.get(place.ok()?)
}

/// The link at this index of today's table in both reports, which may be against different tables. Nothing
/// where today's report doesn't have it.
pub fn comparison_at(today: &Report, baseline: &Report, index: usize) -> Option<LinkComparison> {
    let link = today.links.get(index)?;
    let before = link_of(baseline, link.id);
    Some(LinkComparison {
        link: link.id,
        redundancy: link.redundancy,
        today: numbers_of(today, link),
        baseline: before.and_then(|before| numbers_of(baseline, before)),
    })
}

/// Does a link outside the table have frames today, and none in the baseline?
pub fn is_new_outside(today: &Report, baseline: &Report, id: VlId) -> bool {
    today.outside_link(id).is_some() && baseline.outside_link(id).is_none()
}
