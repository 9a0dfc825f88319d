//! The links as comma-separated values.

use crate::groups::group_of;
use crate::ranks::{level_at, signs_of, word_of};
use crate::view::{Shown, View};
use crate::writer::Page;
use crate::writer::Part::{Number, Text};
use afdx_frame::Network;
use ledger_report::Anomaly::{Alone, Early, Excess, Late, Lost, Out, Repeat, Reset, TooLong};
use ledger_report::{Anomaly, LinkReport};
use std::alloc::{AllocError, Global};

/// The signs that have two columns, one of each network.
const COLUMNS: [Anomaly; 9] = [
    TooLong, Excess, Out, Lost, Repeat, Reset, Alone, Late, Early,
];

const HEAD: &str = "\
id,name,level,signs,bag_ns,frames_a,frames_b,least_a_ns,least_b_ns,most_a_ns,most_b_ns,copies,\
skew_median_ns,skew_most_ns,late_most_ns,lost_both";

const ROW: &str = "$id$,$name$,$level$,$signs$,$bag$";

/// Appends a number after a comma, or nothing where it isn't known.
fn push_known(page: &mut Page, number: Option<u64>) {
    page.text(",");
    if let Some(number) = number {
        page.path(&[("", number)]);
    }
}

/// Appends the numbers of a link's lanes.
fn push_lanes(page: &mut Page, link: &LinkReport) {
    let (a, b) = (&link.lanes.a, &link.lanes.b);
    let (some_a, some_b) = (a.intervals > 0, b.intervals > 0);
    page.path(&[(",", a.frames), (",", b.frames)]);
    push_known(page, some_a.then_some(a.least));
    push_known(page, some_b.then_some(b.least));
    push_known(page, some_a.then_some(a.greatest));
    push_known(page, some_b.then_some(b.greatest));
}

/// Appends the row of a link.
fn push_row(page: &mut Page, view: &View<'_>, index: usize) {
    let Some((link, configured)) = view.link(index) else {
        return;
    };
    fill!(page; ROW; id = Number(u64::from(link.id.0)), name = Text(&configured.name),
        level = Text(word_of(level_at(view.report, index))), signs = Number(signs_of(link)),
        bag = Number(link.bag));
    push_lanes(page, link);
    page.path(&[(",", link.copies)]);
    let some = link.copies > 0;
    push_known(page, some.then_some(link.skew_median));
    push_known(page, some.then_some(link.skew_greatest));
    page.path(&[(",", link.late_greatest), (",", link.lost_both)]);
    for &sign in &COLUMNS {
        for network in [Network::A, Network::B] {
            page.path(&[(",", link.lanes.of(network).signs.of(sign).count)]);
        }
    }
    fill!(page; ",$group$\n"; group = Text(group_of(configured).unwrap_or("")));
}

/// The links of a report, a row each in the order of the table, with a head.
///
/// # Errors
///
/// The system is out of memory.
pub fn csv_of(alloc: Global, shown: &Shown<'_>) -> Result<String, AllocError> {
    let view = View::new(alloc, shown)?;
    let mut page = Page::plain(alloc);
    page.text(HEAD);
    for &sign in &COLUMNS {
        fill!(page; ",$word$_a,$word$_b"; word = Text(sign.word()));
    }
    page.text(",group\n");
    for index in 0..view.report.links.len() {
        push_row(&mut page, &view, index);
    }
    page.into_text()
}
