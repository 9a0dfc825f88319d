//! The state of policing, and its step.

ghost use Rattle.std.specs.Prelude.{◌≡◌, ◌*◌, ◌+◌, ◌-◌, ◌<◌, ◌≤◌, List, [], ◌∷◌, ◌++◌, Option, Some, None, min};
ghost use Rattle.std.specs.Option.{ForSome, option_map_or};
ghost use Rattle.vl_config.specs.Link.{VirtualLink};
ghost use Rattle.policing.specs.Windows.{Entry, verdict_of};
ghost use Rattle.policing.specs.Balance.{content_at, StandsAfter};

use crate::verdict::Policing;
use afdx_frame::Stamp;
use std::marker::Model;
use vl_config::Link;

/// The account of one virtual link on one network: what the link may still send.
///
/// Its content is counted in bytes times BAG in nanoseconds, so that no credit is rounded: each
/// nanosecond credits Smax, up to `Smax * (BAG + jitter)`, and a frame costs its size times BAG.
#[derive(Drop)]
pub struct Account {
    smax: u32,
    bag: u64,
    cap: u64,
    content: u128,
    last: Option<Stamp>,
}

impl Model for Account {
    ghost use Rattle.std.specs.Prelude.{◌≤◌};
    ghost use Rattle.std.specs.Option.{option_map};
    ghost use Rattle.policing.specs.Balance.{Balance};

    ghost Value = { Balance };

    ghost view = { λ account. record {
      smax = account.smax;
      bag = account.bag;
      cap = account.cap;
      content = account.content;
      last = option_map (λ stamp. stamp.0) account.last;
    } };

    ghost invariant = { λ account. account.content ≤ account.cap };
}

impl Account {
    /// The full account of a link, which has seen no frame (that it begins full is this project's
    /// profile).
    pub fn full(link: &Link) -> Account
        ensures after { StandsAfter result link.now [] }
        ensures none_seen { result.last ≡ None }
    {
        let cap = u64::from(link.smax) * (link.bag + link.jitter);
        Account {
            smax: link.smax,
            bag: link.bag,
            cap,
            content: u128::from(cap),
            last: None,
        }
    }

    /// Judges a frame by its timestamp and its size in bytes, the frame check sequence included, and
    /// charges it where it is within. A frame that takes all that the account holds is within (this
    /// project's profile).
    ///
    /// The timestamp is not below that of the frame before.
    #[inline(always)]
    pub fn judge(&mut self, stamp: Stamp, size: u32) -> Policing
        requires { ForSome self.old.last (λ last. last ≤ stamp.0) }
        ensures verdict { (link : VirtualLink) (entries : List Entry) →
            StandsAfter self.old link entries → result ≡ verdict_of link entries stamp.0 size }
        ensures after { (link : VirtualLink) (entries : List Entry) →
            StandsAfter self.old link entries →
            StandsAfter self.new link (entries ++ record {
              stamp = stamp.0;
              size = size;
              policing = result;
            } ∷ []) }
        ensures last { self.new.last ≡ Some stamp.0 }
    {
        let content = self.content_at(stamp);
        let charge = u128::from(size) * u128::from(self.bag);
        self.last = Some(stamp);
        if charge <= content {
            self.content = content - charge;
            Policing::Within
        } else {
            self.content = content;
            Policing::Excess
        }
    }

    /// The content of the account at a moment, with the credit since the frame before.
    fn content_at(&self, stamp: Stamp) -> u128
        requires { ForSome self.now.last (λ last. last ≤ stamp.0) }
        ensures value { result ≡ content_at self.now stamp.0 }
        ensures bound { result ≤ self.now.cap }
    {
        let Some(last) = self.last else {
            return self.content;
        };
        let credit = u128::from(self.smax) * u128::from(stamp.0 - last.0);
        u128::from(self.cap).min(self.content + credit)
    }
}
