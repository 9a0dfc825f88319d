//! The command that cuts the frames of a finding.

use crate::view::View;
use crate::writer::Page;
use crate::writer::Part::{Letter, Number, Text, Utc, Word};
use findings::Finding;
use run_manifest::RecordingRecord;

/// How many links a command names. Beyond them it takes the frames of all.
const LINKS: usize = 64;

/// Appends the command that cuts the frames of a finding, of the files that are known. Its time is some
/// milliseconds longer, so that the frames before and after stand beside it.
pub fn push_cut(page: &mut Page, view: &View<'_>, finding: &Finding) {
    let (from, to) = (finding.span.from.0, finding.span.to.0);
    let from = view.stamp(from.saturating_sub(ROOM));
    let to = view.stamp(to.saturating_add(ROOM));
    fill!(page; "afdxmon cut --ledger $ledger$"; ledger = Word(view.ledger));
    push_recording(page, " --a", view.path_a(), view.recording_a());
    push_recording(page, " --b", view.path_b(), view.recording_b());
    push_moment(page, "--from", from);
    push_moment(page, "--to", to);
    if let Some(network) = finding.side.network() {
        fill!(page; " --network $n$"; n = Letter(network));
    }
    if finding.links.len() <= LINKS {
        for id in finding.links.iter() {
            fill!(page; " --link $id$"; id = Number(u64::from(id.0)));
        }
    }
    page.text(" -o finding.pcap");
}

/// Appends the option of a moment.
fn push_moment(page: &mut Page, option: &str, stamp: u64) {
    fill!(page; " $option$ $at$"; option = Text(option), at = Utc(stamp));
}

/// Appends the option of a recording, with its files.
fn push_recording(page: &mut Page, option: &str, path: &str, recording: Option<&RecordingRecord>) {
    page.text(option);
    match recording.and_then(|recording| recording.files.as_ref()) {
        Some(files) => {
            for file in files {
                fill!(page; " $path$"; path = Word(&file.path));
            }
        }
        None => fill!(page; " $path$"; path = Word(path)),
    }
}

/// So long before a finding its frames begin, and after it they end.
const ROOM: i64 = 10_000_000;
