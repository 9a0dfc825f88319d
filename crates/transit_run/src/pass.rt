//! The pass over both recordings.

ghost use Rattle.std.specs.Prelude.{◌≡◌, ◌<◌, ◌-◌, List, [], ◌∷◌, None, IfOk, IfSome, OnErr, OnOk, filter, length};
ghost use Rattle.transit_run.specs.Counts.{IsCountOf, IsTallyOf, is_of};
ghost use Rattle.transit_run.specs.Held.{Passes, Turns, Writes, held, held_out, mark_of, shown, shown_out};
ghost use Rattle.transit_run.specs.Ledger.{GoesOn, Grows, IsEmpty};
ghost use Rattle.transit_run.specs.Partners.{Alike, SettlesAlike};
ghost use Rattle.transit_run.specs.Waits.{IsFirstAt, state_of};
ghost use Rattle.transit_run.specs.Told.{IsKnown, TellsOrigin, is_cut, is_discarded, is_excess, is_over, is_unsure, transit_by, transit_of};
ghost use Rattle.transit_run.specs.declared.line.Line.{Line};

use crate::facts::{Span, covers, is_by};
use crate::floor::Step;
use crate::kind::{Faults, Kind};
use crate::lane::{Lane, LinkTransits, police};
use crate::latency::Latency;
use crate::ledger::Ledger;
use crate::line::{AfterLine, BeforeLine, Line};
use crate::notes::Notes;
use crate::options::Options;
use crate::outcome::{Origin, Passage, fate_of, origin_of};
use crate::pairing::Pairing;
use crate::reach::Reach;
use crate::rows::{ComeOut, GoneIn, Head, Partner};
use crate::silence::Silence;
use crate::tally::Tally;
use afdx_frame::{LentFrame, Network, VlId};
use std::alloc::{AllocError, Global};
use transit_policing::Policed;
use vl_config::{Class, Config, class_by};

/// One pass over the frames of two recordings.
///
/// It is shown the frames that went in as those of network A, and those that came out as of network B,
/// with moments of coming out that are later by what clocks may be off; in order of their keys.
#[derive(Drop)]
pub struct Pass<'t> {
    alloc: Global,
    table: &'t Config,
    options: Options,
    reach: Reach,
    pairing: Pairing,
    ledger: Ledger,
    notes: Notes,
}

/// How long a frame took, in nanoseconds; below 0 where clocks are apart.
fn transit_by(went_in: u64, came_out: u64) -> i64
    ensures { result ≡ transit_by went_in came_out }
{
    if came_out >= went_in {
        i64::try_from(came_out - went_in).unwrap_or(i64::MAX)
    } else {
        0_i64.saturating_sub(i64::try_from(went_in - came_out).unwrap_or(i64::MAX))
    }
}

/// How long a frame that went in at a moment took, if it came out.
fn transit_of(moment: u64, partner: Option<Partner>) -> Option<i64>
    ensures { result ≡ transit_of moment partner }
{
    match partner {
        Some(partner) => Some(transit_by(moment, partner.moment)),
        None => None,
    }
}

/// True if some bytes of each frame of the class aren't recorded.
fn is_cut(class: Class) -> bool
    ensures { result ≡ is_cut class }
{
    matches!(class, Class::Cut)
}

/// True if the switch discards each frame of the class.
fn is_discarded(class: Class) -> bool
    ensures { result ≡ is_discarded class }
{
    !matches!(class, Class::Regular | Class::Cut)
}

/// True if policing discards the frame.
fn is_excess(policed: Option<Policed>) -> bool
    ensures { result ≡ is_excess policed }
{
    matches!(policed, Some(Policed::Excess))
}

/// True if policing may discard the frame or not.
fn is_unsure(policed: Option<Policed>) -> bool
    ensures { result ≡ is_unsure policed }
{
    matches!(policed, Some(Policed::Unsure))
}

/// The ledger of no frame, with a place for each link of the table in its order.
fn make_ledger(alloc: Global, table: &Config) -> Result<Ledger, AllocError>
    ensures { IfOk result IsEmpty }
{
    let mut ledger = Ledger::new(alloc)?;
    for link in table.links() {
        ledger.add_link(Some(link.id))?;
    }
    Ok(ledger)
}

fn make_lanes(alloc: Global, table: &Config, options: &Options) -> Result<Vec<Lane>, AllocError> {
    let links = table.links();
    let mut lanes = Vec::with_capacity(alloc, links.len().saturating_add(1))?;
    lanes.push(Lane::new(alloc, None, options))?;
    for link in links {
        lanes.push(Lane::new(alloc, Some(link), options))?;
    }
    Ok(lanes)
}

impl<'t> Pass<'t> {
    /// No frame was shown.
    ///
    /// # Errors
    ///
    /// `AllocError` if there is no memory for the lanes of all links.
    pub fn new(alloc: Global, table: &'t Config, options: Options) -> Result<Pass<'t>, AllocError>
        ensures ledger { IfOk result (λ pass. IsEmpty pass.ledger) }
        ensures frames { IfOk result (λ pass. held pass.pairing ≡ []) }
        ensures out { IfOk result (λ pass. held_out pass.pairing ≡ []) }
        ensures early { IfOk result (λ pass. pass.pairing.early ≡ options.early) }
    {
        let ledger = make_ledger(alloc, table)?;
        let lanes = make_lanes(alloc, table, &options)?;
        let pairing = Pairing::new(alloc, lanes, &options);
        Ok(Pass {
            alloc,
            table,
            options,
            reach: Reach::new(),
            pairing,
            ledger,
            notes: Notes::new(alloc),
        })
    }

    /// A frame was read of a recording, and will be shown. Before a frame of one recording is shown, a later
    /// one of the other has been read, unless that has ended: so it is known which windows both cover.
    pub fn read(&mut self, network: Network, stamp: u64)
        ensures ledger { self.new.ledger ≡ self.old.ledger }
        ensures frames { self.new.pairing ≡ self.old.pairing }
    {
        match network {
            Network::A => self.reach.read_in(stamp),
            Network::B => {
                let came_out = stamp.saturating_sub(self.options.early);
                self.reach.read_out(came_out);
            }
        }
    }

    /// Shows the next frame, of which [`read`](Pass::read) told.
    ///
    /// # Errors
    ///
    /// `AllocError` if there is no memory to hold it, or for lines.
    pub fn see(&mut self, frame: &LentFrame<'_>) -> Result<(), AllocError>
        ensures ok { OnOk result (Passes self.old self.new (shown frame.now)
            (shown_out self.old.pairing.early frame.now)) }
        ensures err { OnErr result (Grows self.old.ledger self.new.ledger) }
    {
        self.settle(Some(frame.stamp().0))?;
        match frame.network() {
            Network::A => self.goes_in(frame),
            Network::B => self.comes_out(frame),
        }
    }

    /// No frame follows: what became of each is certain.
    ///
    /// # Errors
    ///
    /// `AllocError` if there is no memory for lines.
    pub fn finish(&mut self) -> Result<(), AllocError>
        ensures ok { OnOk result (Passes self.old self.new [] []) }
        ensures alike { OnOk result (SettlesAlike self.old self.new None) }
        ensures all { OnOk result (held self.new.pairing ≡ []) }
        ensures out { OnOk result (held_out self.new.pairing ≡ []) }
        ensures err { OnErr result (Grows self.old.ledger self.new.ledger) }
    {
        self.settle(None)?;
        self.notes.end_rows()
    }

    /// Writes the counts and the transits of each link, once no frame follows.
    ///
    /// # Errors
    ///
    /// `AllocError` if there is no memory for lines.
    pub fn write_links(&mut self) -> Result<(), AllocError>
        ensures counts { self.new.ledger.counts ≡ self.old.ledger.counts }
        ensures ok { OnOk result (GoesOn self.old.ledger.text.items self.new.ledger.text.items) }
        ensures err { OnErr result (self.new.ledger.text.items ≡ self.old.ledger.text.items) }
    {
        let (lanes, latency) = (&self.pairing.lanes, &self.notes.latency);
        self.ledger.write_links(self.table, lanes, latency)
    }

    /// Writes the counts of all frames: the ledger's last line.
    ///
    /// # Errors
    ///
    /// `AllocError` if there is no memory for the line.
    pub fn write_total(&mut self) -> Result<(), AllocError>
        ensures counts { self.new.ledger.counts ≡ self.old.ledger.counts }
        ensures ok { OnOk result (GoesOn self.old.ledger.text.items self.new.ledger.text.items) }
        ensures err { OnErr result (self.new.ledger.text.items ≡ self.old.ledger.text.items) }
    {
        self.ledger.write_total()
    }

    /// The lines so far that weren't taken yet.
    pub fn text(&self) -> &[u8]
        ensures { result.now ≡ self.now.ledger.text.items }
    {
        self.ledger.text()
    }

    /// The lines so far were taken.
    pub fn clear_text(&mut self)
        ensures text { self.new.ledger.text.items ≡ [] }
        ensures counts { self.new.ledger.counts ≡ self.old.ledger.counts }
        ensures frames { self.new.pairing ≡ self.old.pairing }
    {
        self.ledger.clear_text();
    }

    /// The counts of all frames.
    pub fn tally(&self) -> &Tally
        ensures { result.now ≡ self.now.ledger.counts.all }
    {
        &self.ledger.counts.all
    }

    /// The transits of all pairs of alike frames.
    pub fn latency(&self) -> &Latency {
        &self.notes.latency
    }

    /// The faults so far.
    pub fn faults(&self) -> &Faults {
        &self.notes.faults
    }

    /// The frames of a lane: 0 is that of all frames whose bytes hold no link, then come the table's links in
    /// its order, and then others.
    pub fn link(&self, place: usize) -> Option<LinkTransits<'_>>
        ensures { IfSome result (λ link. (lines : List Line) → IsCountOf self.now.ledger.counts lines →
            IsTallyOf link.tally.now (filter (is_of link.id) lines)) }
    {
        let counts = self.ledger.counts.link(place)?;
        let lane = self.pairing.lanes.get(place)?;
        Some(LinkTransits {
            id: counts.link,
            tally: &counts.tally,
            latency: &lane.latency,
            row: lane.most_in_a_row,
            first_fault: lane.first_fault,
        })
    }

    /// How many links have frames with a fault of this kind; frames that hold no link count as one.
    pub fn links_with(&self, kind: Kind) -> u64 {
        let links = self.ledger.counts.links().iter();
        links.filter(|link| link.tally.faults(kind) > 0).count() as u64
    }

    /// How many lanes there are.
    pub fn link_count(&self) -> usize {
        self.pairing.lanes.len()
    }

    /// The times in which nothing came out, the first hundred.
    pub fn silences_out(&self) -> &[Silence] {
        self.notes.silences_out.list()
    }

    /// The times in which nothing was seen to go in, though frames came out, the first hundred.
    pub fn silences_in(&self) -> &[Silence] {
        self.notes.silences_in.list()
    }

    /// By how many parts of 10^9 the clocks seem to drift. None: they don't.
    pub fn drift(&self) -> Option<i64> {
        self.notes.floor.drift()
    }

    /// The step that the least transit seems to make. None: it makes none.
    pub fn step(&self) -> Option<Step> {
        self.notes.floor.step()
    }

    /// How many frames that went in have another constant field than the table's.
    pub fn foreign(&self) -> u64
        ensures { result ≡ self.now.ledger.counts.foreign }
    {
        self.ledger.counts.foreign
    }

    /// How many frames that went in are of links that the table lacks.
    pub fn unconfigured(&self) -> u64
        ensures { result ≡ self.now.ledger.counts.unconfigured }
    {
        self.ledger.counts.unconfigured
    }

    /// How many changed frames differ first in the byte of their source address that names the network.
    pub fn other_network(&self) -> u64 {
        self.notes.other_network
    }

    /// The first moment and the last whose windows both recordings cover, in nanoseconds.
    pub fn common(&self) -> Option<(u64, u64)> {
        self.reach.common(self.options.early, self.options.within)
    }

    /// When the first frame of either recording went in or came out, in nanoseconds.
    pub fn start(&self) -> Option<u64> {
        self.reach.start()
    }

    /// How the recordings are compared.
    pub fn options(&self) -> &Options {
        &self.options
    }

    /// The table of virtual links.
    pub fn table(&self) -> &'t Config {
        self.table
    }

    // ---- a frame

    /// The Smax of the link of a frame, where the table has it.
    fn smax_of(&self, frame: &LentFrame<'_>) -> Option<u32> {
        let place = self.ledger.counts.place(frame.link()).checked_sub(1)?;
        let link = self.table.links().get(place)?;
        Some(link.smax)
    }

    /// The head of a frame's line. Its link has a lane then.
    fn head_of(&mut self, frame: &LentFrame<'_>) -> Result<Head, AllocError>
        ensures ok { OnOk result (Writes self.old self.new) }
        ensures err { OnErr result (Grows self.old.ledger self.new.ledger) }
        ensures mark { IfOk result (λ head. mark_of head ≡ record {
          moment = frame.now.stamp;
          number = frame.now.number;
        }) }
    {
        let smax = self.smax_of(frame);
        let class = class_by(self.table.constant(), smax, frame);
        let address = match (frame.link(), frame.sequence()) {
            (Some(link), Some(sequence)) if class.is_addressed() => Some((link, sequence)),
            _ => None,
        };
        let mut head = Head {
            moment: frame.stamp().0,
            number: frame.number(),
            class,
            address,
            whole: frame.whole(),
            place: 0,
        };
        head.place = self.lane_of(head.link())?;
        Ok(head)
    }

    /// The place of the lane of a link, or of the frames that name none; a new one if it has none.
    #[tactic(auto, using(crate::proofs::Passing::writes_kept))]
    fn lane_of(&mut self, link: Option<VlId>) -> Result<usize, AllocError>
        ensures ok { OnOk result (Writes self.old self.new) }
        ensures err { OnErr result (Grows self.old.ledger self.new.ledger) }
    {
        let place = self.ledger.add_link(link)?;
        if place == self.pairing.lanes.len() {
            let lane = Lane::new(self.alloc, None, &self.options);
            self.pairing.lanes.push(lane)?;
        }
        Ok(place)
    }

    #[tactic(auto, using(crate::proofs::Passing::passes_in))]
    fn goes_in(&mut self, frame: &LentFrame<'_>) -> Result<(), AllocError>
        ensures ok { OnOk result (Passes self.old self.new (record {
          moment = frame.now.stamp;
          number = frame.now.number;
        } ∷ []) []) }
        ensures err { OnErr result (Grows self.old.ledger self.new.ledger) }
    {
        let head = self.head_of(frame)?;
        self.pairing.goes_in(head, frame.view().bytes())?;
        self.reach.goes_in(head.moment);
        Ok(())
    }

    #[tactic(auto, using(crate::proofs::Passing::passes_out))]
    fn comes_out(&mut self, frame: &LentFrame<'_>) -> Result<(), AllocError>
        ensures ok { OnOk result (Passes self.old self.new [] (record {
          moment = frame.now.stamp - self.old.pairing.early;
          number = frame.now.number;
        } ∷ [])) }
        ensures err { OnErr result (Grows self.old.ledger self.new.ledger) }
    {
        let head = self.head_of(frame)?;
        let came_out = head.moment.saturating_sub(self.options.early);
        self.reach.comes_out(came_out);
        if self.pairing.comes_out(head, frame.view().bytes())? {
            self.ledger.note_choice();
        }
        Ok(())
    }

    // ---- what is certain

    /// All that is certain where no frame before this moment follows; None: where none follows.
    fn settle(&mut self, now: Option<u64>) -> Result<(), AllocError>
        ensures ok { OnOk result (Writes self.old self.new) }
        ensures err { OnErr result (Grows self.old.ledger self.new.ledger) }
        ensures alike { OnOk result (SettlesAlike self.old self.new now) }
        ensures done { OnOk result (now ≡ None → held self.new.pairing ≡ []) }
        ensures out { OnOk result (now ≡ None → held_out self.new.pairing ≡ []) }
    {
        self.pairing.settle(now)?;
        self.write(now)
    }

    fn write(&mut self, now: Option<u64>) -> Result<(), AllocError>
        ensures ok { OnOk result (Writes self.old self.new) }
        ensures err { OnErr result (Grows self.old.ledger self.new.ledger) }
        ensures alike { OnOk result (Alike self.old self.new now) }
        ensures done { OnOk result (now ≡ None → held self.new.pairing ≡ []) }
        ensures out { OnOk result (now ≡ None → held_out self.new.pairing ≡ []) }
    {
        for _ in 0..self.pairing.count() {
            if !self.write_next(now)? {
                break;
            }
        }
        Ok(())
    }

    /// Writes the next line, where it is certain.
    #[tactic(auto, using(crate::proofs::Passing::writes_kept, crate::proofs::Partners::alike_same))]
    fn write_next(&mut self, now: Option<u64>) -> Result<bool, AllocError>
        ensures ok { OnOk result (Writes self.old self.new) }
        ensures err { OnErr result (Grows self.old.ledger self.new.ledger) }
        ensures alike { OnOk result (Alike self.old self.new now) }
        ensures turn { IfOk result (Turns now self.old.pairing self.new.pairing) }
    {
        match (self.pairing.first_before(), self.pairing.first_after()) {
            (None, None) => Ok(false),
            (Some(went_in), Some(came_out)) if came_out < went_in => self.write_after(
                now, came_out,
            ),
            (Some(went_in), _) => self.write_before(now, went_in),
            (None, Some(came_out)) => self.write_after(now, came_out),
        }
    }

    #[tactic(auto, using(crate::proofs::Passing::writes_before, crate::proofs::Passing::writes_kept))]
    fn write_before(&mut self, now: Option<u64>, moment: u64) -> Result<bool, AllocError>
        requires held { 0 < length self.old.pairing.befores.items }
        requires first { IsFirstAt moment (state_of self.old.pairing) }
        ensures ok { OnOk result (Writes self.old self.new) }
        ensures err { OnErr result (Grows self.old.ledger self.new.ledger) }
        ensures alike { OnOk result (Alike self.old self.new now) }
        ensures turn { IfOk result (Turns now self.old.pairing self.new.pairing) }
    {
        if !self.pairing.is_certain(now, moment) {
            return Ok(false);
        }
        let Some(row) = self.pairing.take_before() else {
            return Ok(false);
        };
        let policed = police(&mut self.pairing.lanes, &row, &self.options);
        let transit = transit_of(row.head.moment, row.partner);
        let fate = fate_of(self.passage_of(&row, policed, transit));
        let (lanes, bound) = (&mut self.pairing.lanes, self.options.bound);
        let start = self.reach.start().unwrap_or(moment);
        self.notes
            .note_transit(lanes, &row, (fate, transit), bound)?;
        self.notes.note_before(lanes, &row, fate, start)?;
        self.ledger.write(&Line::Before(BeforeLine {
            head: row.head,
            partner: row.partner,
            policed,
            fate,
            transit,
        }))?;
        Ok(true)
    }

    fn passage_of(&self, row: &GoneIn, policed: Option<Policed>, transit: Option<i64>) -> Passage
        ensures { IsKnown self.now.options self.now.reach row.now.head row.now.partner policed transit
            result }
    {
        let (head, options) = (&row.head, &self.options);
        let is_on_a_link = head.class.is_on_a_link();
        let is_elsewhere = head
            .link()
            .is_some_and(|link| options.is_routed_elsewhere(link));
        let first_out = match self.pairing.lanes.get(head.place) {
            Some(lane) => lane.facts.first_out,
            None => None,
        };
        let has_come = is_by(first_out, head.moment.saturating_add(options.within));
        let is_routed = if options.routed.is_some() {
            !is_elsewhere
        } else {
            has_come
        };
        Passage {
            is_cut: is_cut(head.class),
            pair: row.pair(),
            is_routed_elsewhere: is_on_a_link && is_elsewhere,
            is_discarded: is_discarded(head.class) || is_excess(policed),
            is_unsure: is_unsure(policed),
            is_overtaken: row.is_overtaken,
            is_slow: is_over(transit, options.bound),
            is_covered: covers(
                self.reach.out_span(),
                head.moment,
                options.early,
                options.within,
            ),
            is_unrouted: is_on_a_link && !is_routed,
        }
    }

    #[tactic(auto, using(crate::proofs::Passing::writes_after, crate::proofs::Passing::writes_kept))]
    fn write_after(&mut self, now: Option<u64>, came_out: u64) -> Result<bool, AllocError>
        requires { 0 < length self.old.pairing.afters.items }
        ensures ok { OnOk result (Writes self.old self.new) }
        ensures err { OnErr result (Grows self.old.ledger self.new.ledger) }
        ensures alike { OnOk result (Alike self.old self.new now) }
        ensures turn { IfOk result (Turns now self.old.pairing self.new.pairing) }
    {
        if !self.pairing.is_certain(now, came_out) {
            return Ok(false);
        }
        let Some(row) = self.pairing.take_after() else {
            return Ok(false);
        };
        if row.is_paired {
            return Ok(true);
        }
        let came_out = self.pairing.came_out(&row.head);
        let origin = self.origin_of(&row, came_out);
        let start = self.reach.start().unwrap_or(came_out);
        let lanes = &mut self.pairing.lanes;
        self.notes
            .note_after(lanes, &row.head, (came_out, origin), start)?;
        self.ledger.write(&Line::After(AfterLine {
            head: row.head,
            moment: came_out,
            origin,
        }))?;
        Ok(true)
    }

    fn origin_of(&self, row: &ComeOut, came_out: u64) -> Origin
        ensures { TellsOrigin self.now.options self.now.reach row.now.head came_out result }
    {
        let options = &self.options;
        let first_in = match self.pairing.lanes.get(row.head.place) {
            Some(lane) => lane.facts.first_in,
            None => None,
        };
        let has_gone = is_by(first_in, came_out.saturating_add(options.early));
        let is_elsewhere = row.head.address.is_some() && !has_gone;
        let span = self.reach.in_span();
        origin_of(
            is_cut(row.head.class),
            row.is_twice,
            covers(span, came_out, options.within, options.early),
            is_elsewhere,
        )
    }
}

/// True if a transit is longer than the bound, if there is one.
fn is_over(transit: Option<i64>, bound: Option<u64>) -> bool
    ensures { result ≡ is_over transit bound }
{
    match (transit, bound) {
        (Some(transit), Some(bound)) => transit > 0 && transit.unsigned_abs() > bound,
        _ => false,
    }
}
