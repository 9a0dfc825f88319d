//! The policing of the frames of one link that went in.

ghost use Rattle.std.specs.Prelude.{◌≤◌};
ghost use Rattle.std.specs.Option.{ForSome};

use crate::options::Options;
use afdx_frame::Stamp;
use policing::{Account, Policing};
use transit_policing::{Observed, Policed};
use vl_config::Link;

/// The policing of a link. Without a grace it is an account that begins full, as `watch` keeps
/// one; with a grace it is what came out that tells what the switch's account may hold.
#[derive(Drop)]
pub(crate) struct Policer {
    smax: u32,
    bag: u64,
    cap: u64,
    last: u64,
    account: Account,
    observed: Option<Observed>,
    ghost account_order: { ForSome account.last (λ stamp. stamp ≤ last) },
    ghost observed_order: { ForSome observed (λ one. one.since ≤ last) },
}

impl Policer {
    pub(crate) fn new(link: &Link) -> Policer {
        Policer {
            smax: link.smax,
            bag: link.bag,
            cap: u64::from(link.smax).saturating_mul(link.bag.saturating_add(link.jitter)),
            last: 0,
            account: Account::full(link),
            observed: None,
        }
    }

    /// Judges a regular frame by its moment in nanoseconds, its size in bytes with its frame check
    /// sequence, and whether it came out.
    pub(crate) fn judge(
        &mut self,
        moment: u64,
        size: u32,
        came: bool,
        options: &Options,
    ) -> Policed {
        let moment = moment.max(self.last);
        let size = if options.frames { self.smax } else { size };
        if options.grace == 0 {
            self.judge_exactly(moment, size)
        } else {
            self.judge_by_what_came(moment, size, came, options.grace)
        }
    }

    fn judge_exactly(&mut self, moment: u64, size: u32) -> Policed
        requires { self.old.last ≤ moment }
    {
        let policing = self.account.judge(Stamp(moment), size);
        self.last = moment;
        match policing {
            Policing::Within => Policed::Within,
            Policing::Excess => Policed::Excess,
        }
    }

    fn judge_by_what_came(&mut self, moment: u64, size: u32, came: bool, grace: u32) -> Policed
        requires { self.old.last ≤ moment }
    {
        let price = u64::from(size).saturating_mul(self.bag);
        let mut account = match self.observed.take() {
            Some(account) => account,
            None => Observed::new(self.smax, self.cap, grace, moment),
        };
        let policed = account.judge(moment, price, came);
        self.last = moment;
        self.observed = Some(account);
        policed
    }
}
