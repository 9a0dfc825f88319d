//! All that the judgements of one link keep, in one piece, so that a worker can own it.

ghost use Rattle.std.specs.Prelude.{◌≡◌, ◌≤◌, ◌+◌, ℕ, List, [], ◌∷◌, ◌++◌, length, Some, None, false, is_some, IfOk, IsTrue, option_to_list, if◌then◌else◌};
ghost use Rattle.std.specs.Option.{option_map, option_map_or, ForSome};
ghost use Rattle.vl_config.specs.Link.{VirtualLink};
ghost use Rattle.vl_judge.specs.Verdicts.{Judged, is_of, size_of, sequence_number, verdict_on};
ghost use Rattle.vl_judge.specs.Judgement.{is_within};
ghost use Rattle.vl_config.specs.Class.{class_by};
ghost use Rattle.policing.specs.Windows as windows;
ghost use Rattle.policing.specs.Balance as account;
ghost use Rattle.integrity.specs.Sequence as check;
ghost use Rattle.integrity.specs.Sequence.{is_valid};
ghost use Rattle.redundancy.specs.Deliveries as deliveries;

use crate::verdict::Verdict;
use afdx_frame::{LentFrame, Network, VlId};
use integrity::{Check, Integrity};
use policing::{Account, Policing};
use redundancy::{Pair, Redundancy};
use std::alloc::{AllocError, Global};
use std::marker::Model;
use vl_config::{CHECK_LENGTH, Class, Link, class_by};

/// The state that policing and integrity checking keep of one virtual link on one network.
#[derive(Drop)]
pub struct Side {
    account: Account,
    check: Check,
}

impl Side {
    fn new(link: &Link) -> Side
        ensures account { account.StandsAfter result.account link.now [] }
        ensures check { check.StandsAfter result.check [] }
        ensures last { result.account.last ≡ None }
    {
        Side {
            account: Account::full(link),
            check: Check::new(),
        }
    }

    /// Judges a regular frame; where it is not within its account, integrity checking doesn't see it.
    #[inline(always)]
    fn judge(&mut self, on: bool, frame: &LentFrame<'_>, sn: u8) -> (Policing, Option<Integrity>)
        requires in_order { ForSome self.old.account.last (λ last. last ≤ frame.now.stamp) }
        requires short { frame.now.whole ≤ 1514 }
        ensures policing { (link : VirtualLink) (entries : List windows.Entry) →
            account.StandsAfter self.old.account link entries →
            result.0 ≡ windows.verdict_of link entries frame.now.stamp (size_of frame.now) }
        ensures account { (link : VirtualLink) (entries : List windows.Entry) →
            account.StandsAfter self.old.account link entries →
            account.StandsAfter self.new.account link (entries ++ record {
              stamp = frame.now.stamp;
              size = size_of frame.now;
              policing = result.0;
            } ∷ []) }
        ensures integrity { (numbers : List ℕ) → check.StandsAfter self.old.check numbers →
            result.1 ≡ (if is_within result.0
            then Some (check.verdict_at on (numbers ++ sn ∷ []) (length numbers)) else None) }
        ensures check { (numbers : List ℕ) → check.StandsAfter self.old.check numbers →
            check.StandsAfter self.new.check
            (numbers ++ option_to_list (option_map (λ _. sn) result.1)) }
        ensures reached { is_some result.1 ≡ is_within result.0 }
        ensures last { self.new.account.last ≡ Some frame.now.stamp }
    {
        match self
            .account
            .judge(frame.stamp(), frame.whole() + CHECK_LENGTH)
        {
            Policing::Within => (Policing::Within, Some(self.check.judge(on, sn))),
            Policing::Excess => (Policing::Excess, None),
        }
    }
}

/// The lane of one virtual link.
#[derive(Drop)]
pub struct Lane {
    id: VlId,
    smax: u32,
    skew: u64,
    integrity: bool,
    redundancy: bool,
    a: Side,
    b: Side,
    // Last, since it is large: what each frame reads lies together before it.
    pair: Pair,
}

impl Lane {
    ghost use Rattle.vl_judge.specs.Lane.{LaneStandsAfter, NoneLater};

    fn new(link: &Link) -> Lane
        ensures after { LaneStandsAfter result link.now [] }
        ensures none_later { (stamp : ℕ) → NoneLater result stamp }
    {
        Lane {
            id: link.id,
            smax: link.smax,
            skew: link.skew,
            integrity: link.integrity,
            redundancy: link.redundancy,
            a: Side::new(link),
            b: Side::new(link),
            pair: Pair::new(),
        }
    }

    #[inline(always)]
    fn judge_regular(&mut self, frame: &LentFrame<'_>) -> Verdict
        requires in_order { (later : ℕ) → frame.now.stamp ≤ later → NoneLater self.old later }
        requires short { frame.now.whole ≤ 1514 }
        ensures verdict { (link : VirtualLink) (earlier : List Judged) →
            LaneStandsAfter self.old link earlier →
            result ≡ verdict_on link Class.Regular earlier frame.now }
        ensures after { (link : VirtualLink) (earlier : List Judged) →
            IsTrue (is_of link.id frame.now) →
            LaneStandsAfter self.old link earlier → LaneStandsAfter self.new link
            (earlier ++ record { frame = frame.now; verdict = result } ∷ []) }
        ensures none_later { (later : ℕ) → frame.now.stamp ≤ later → NoneLater self.new later }
        ensures id { self.new.id ≡ self.old.id }
    {
        // A regular frame has bytes, and so a sequence number.
        let sn = frame.sequence().unwrap_or(0);
        let (policing, integrity) = match frame.network() {
            Network::A => self.a.judge(self.integrity, frame, sn),
            Network::B => self.b.judge(self.integrity, frame, sn),
        };
        let redundancy = manage(
            &mut self.pair,
            self.redundancy,
            self.skew,
            integrity,
            frame,
            sn,
        );
        Verdict {
            class: Class::Regular,
            policing: Some(policing),
            integrity,
            redundancy,
        }
    }
}

/// A lane in memory of its own, so that a move of it is a pointer's. A lane has kilobytes.
#[derive(Drop)]
pub struct LaneBox(Box<Lane>);

impl Model for LaneBox {
    ghost use Rattle.vl_judge.specs.declared.lane.Lane.{Lane};

    ghost Value = { Lane };

    ghost view = { λ lane. lane.0.value };
}

impl LaneBox {
    ghost use Rattle.vl_judge.specs.Lane.{LaneStandsAfter, NoneLater};

    /// The lane of a link, which has seen no frame.
    pub fn new(alloc: Global, link: &Link) -> Result<LaneBox, AllocError>
        ensures after { IfOk result (λ lane. LaneStandsAfter lane link.now []) }
        ensures none_later { IfOk result (λ lane. (stamp : ℕ) → NoneLater lane stamp) }
    {
        Ok(LaneBox(Box::new(alloc, Lane::new(link))?))
    }

    /// The identifier of the link.
    #[inline(always)]
    pub fn id(&self) -> VlId
        ensures { result ≡ self.now.id }
    {
        self.0.id
    }

    /// Judges a frame of the link under a table with this constant field.
    #[inline(always)]
    pub fn judge(&mut self, constant: u32, frame: &LentFrame<'_>) -> Verdict
        requires { (later : ℕ) → frame.now.stamp ≤ later → NoneLater self.old later }
        ensures verdict { (link : VirtualLink) (earlier : List Judged) →
            LaneStandsAfter self.old link earlier → result ≡
            verdict_on link (class_by constant (Some link.smax) frame.now) earlier frame.now }
        ensures after { (link : VirtualLink) (earlier : List Judged) →
            IsTrue (is_of link.id frame.now) →
            LaneStandsAfter self.old link earlier → LaneStandsAfter self.new link
            (earlier ++ record { frame = frame.now; verdict = result } ∷ []) }
        ensures none_later { (later : ℕ) → frame.now.stamp ≤ later → NoneLater self.new later }
        ensures id { self.new.id ≡ self.old.id }
    {
        let class = class_by(constant, Some(self.0.smax), frame);
        if class != Class::Regular {
            return Verdict::stopped(class);
        }
        self.0.judge_regular(frame)
    }
}

/// Judges a frame that reached integrity checking; where it is not valid, redundancy management
/// doesn't see it.
#[inline(always)]
fn manage(
    pair: &mut Pair,
    on: bool,
    skew: u64,
    integrity: Option<Integrity>,
    frame: &LentFrame<'_>,
    sn: u8,
) -> Option<Redundancy>
    requires { (later : ℕ) → frame.now.stamp ≤ later → deliveries.NoneLater pair.old later }
    ensures verdict { (entries : List deliveries.Entry) → deliveries.StandsAfter pair.old entries →
        result ≡ (if option_map_or is_valid integrity false
        then Some (deliveries.verdict_of on skew entries frame.now.network sn frame.now.stamp)
        else None) }
    ensures after { (entries : List deliveries.Entry) → deliveries.StandsAfter pair.old entries →
        deliveries.StandsAfter pair.new (entries ++ option_to_list
        (option_map (λ verdict. record {
          network = frame.now.network;
          number = sn;
          stamp = frame.now.stamp;
          redundancy = verdict;
        }) result)) }
    ensures reached { is_some result ≡ option_map_or is_valid integrity false }
    ensures none_later { (later : ℕ) → frame.now.stamp ≤ later →
        deliveries.NoneLater pair.new later }
{
    match integrity {
        Some(verdict) if verdict.is_valid() => {
            Some(pair.judge(on, skew, frame.network(), sn, frame.stamp()))
        }
        _ => None,
    }
}
