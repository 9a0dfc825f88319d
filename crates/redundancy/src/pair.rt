//! The state of redundancy management, and its step.

ghost use Rattle.std.specs.Prelude.{◌≡◌, ℕ, List, [], ◌∷◌, ◌++◌};
ghost use Rattle.redundancy.specs.Deliveries.{Entry, IsNotLater, NoneLater, StandsAfter, is_copy, verdict_of};

use crate::verdict::Redundancy;
use afdx_frame::{Network, Stamp};
use std::marker::Model;

/// The delivery of a sequence number: where and when the frame came.
#[derive(Clone, Copy)]
pub struct Delivery {
    network: Network,
    stamp: Stamp,
}

/// Redundancy management of one virtual link. It keeps the latest delivery of each of the 256
/// sequence numbers.
#[derive(Drop)]
pub struct Pair {
    latest: [Option<Delivery>; 256],
}

impl Model for Pair {
    ghost use Rattle.std.specs.Prelude.{List, Option};
    ghost use Rattle.redundancy.specs.declared.pair.Delivery.{Delivery};

    ghost Value = { List (Option Delivery) };

    ghost view = { λ pair. pair.latest };
}

impl Pair {
    /// A pair that has seen no frame.
    pub fn new() -> Pair
        ensures after { StandsAfter result [] }
        ensures none_later { (stamp : ℕ) → NoneLater result stamp }
    {
        Pair {
            latest: [None; 256],
        }
    }

    /// Judges the frame with this sequence number, and remembers it where it is delivered. `on` says
    /// whether the link has redundancy management on; where it is off, each frame is `Both`. `skew`
    /// is the link's SkewMax in nanoseconds. A frame is a `Copy` where the latest delivery of its
    /// number was on the other network and at most `skew` earlier (that the bound is included is this
    /// project's profile).
    ///
    /// The timestamp is not below that of any delivery that the pair keeps.
    #[inline(always)]
    pub fn judge(
        &mut self,
        on: bool,
        skew: u64,
        network: Network,
        sn: u8,
        stamp: Stamp,
    ) -> Redundancy
        requires { NoneLater self.old stamp.0 }
        ensures verdict { (entries : List Entry) → StandsAfter self.old entries →
            result ≡ verdict_of on skew entries network sn stamp.0 }
        ensures after { (entries : List Entry) → StandsAfter self.old entries →
            StandsAfter self.new (entries ++ record {
              network = network;
              number = sn;
              stamp = stamp.0;
              redundancy = result;
            } ∷ []) }
        ensures none_later { NoneLater self.new stamp.0 }
    {
        let index = sn as usize;
        if on && is_copy(self.latest[index], skew, network, stamp) {
            return Redundancy::Copy;
        }
        self.latest[index] = Some(Delivery { network, stamp });
        if on {
            Redundancy::Deliver
        } else {
            Redundancy::Both
        }
    }
}

/// Was the number delivered on the other network, at most `skew` earlier?
fn is_copy(latest: Option<Delivery>, skew: u64, network: Network, stamp: Stamp) -> bool
    requires { IsNotLater latest stamp.0 }
    ensures { result ≡ is_copy latest skew network stamp.0 }
{
    match latest {
        Some(delivery) => delivery.network != network && stamp.0 - delivery.stamp.0 <= skew,
        None => false,
    }
}
