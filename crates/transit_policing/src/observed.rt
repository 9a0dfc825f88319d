//! The bounds of an account, and their step.

ghost use Rattle.std.specs.Prelude.{◌≡◌, ℕ, ◌≤◌, ◌<◌, ◌+◌, ◌-◌, ◌^◌, ◌*◌, [], List, Option, Some, None, min, IsTrue, ◌↔◌, ◌≢◌};
ghost use Rattle.std.specs.Option.{ForSome};

/// The verdict of policing on a frame that went in.
#[derive(Clone, Copy, PartialEq, Eq)]
pub enum Policed {
    /// A switch lets it through, wherever in the bounds its account is.
    Within,
    /// No switch lets it through.
    Excess,
    /// A switch may do either.
    Unsure,
}

/// The account of a link at a switch, as far as what came out tells it.
///
/// Its content is counted in bytes times BAG in nanoseconds: each nanosecond credits Smax, and a frame
/// that came out was charged its price, its size times BAG.
#[derive(Drop)]
pub struct Observed {
    smax: u32,
    cap: u64,
    slack: u64,
    /// When the bounds below were, in nanoseconds: at the last charge, or at the link's first frame.
    since: u64,
    /// The least that the account held then.
    low: u128,
    /// By how much it was below the most that it holds and what the grace credits, at least. None: nothing
    /// is known.
    debt: Option<u128>,
    ghost low_fits: { low ≤ cap },
    ghost debt_fits: { ForSome debt (λ debt. debt < 2 ^ 65) },
}

impl Observed {
    ghost use Rattle.transit_policing.specs.Charges.{Charge, StandsAfter, charged, debt_with};
    ghost use Rattle.transit_policing.specs.Charges.{is_over_debt, verdict_by, verdict_of};

    /// The account of a link at its first frame, at the moment `first`: Smax in bytes, the most that it
    /// holds, and by how many nanoseconds the time between two frames may be off.
    pub fn new(smax: u32, cap: u64, grace: u32, first: u64) -> Observed
        ensures after { StandsAfter result first [] }
        ensures since { result.since ≡ first }
        ensures smax { result.smax ≡ smax }
        ensures cap { result.cap ≡ cap }
        ensures slack { result.slack ≡ smax * grace }
    {
        Observed {
            smax,
            cap,
            slack: u64::from(smax) * u64::from(grace),
            since: first,
            low: 0,
            debt: None,
        }
    }

    /// Judges a regular frame by its moment, no earlier than that of the frame before, and its price, and
    /// charges it where it came out and isn't excess.
    pub fn judge(&mut self, moment: u64, price: u64, came: bool) -> Policed
        requires { self.old.since ≤ moment }
        ensures verdict { (from : ℕ) (charges : List Charge) → StandsAfter self.old from charges →
            result ≡ verdict_of self.old.smax self.old.cap self.old.slack from charges moment price }
        ensures after { (from : ℕ) (charges : List Charge) → StandsAfter self.old from charges →
            StandsAfter self.new from (charged charges result came moment price) }
        ensures since { self.new.since ≤ moment }
        ensures smax { self.new.smax ≡ self.old.smax }
        ensures cap { self.new.cap ≡ self.old.cap }
        ensures slack { self.new.slack ≡ self.old.slack }
    {
        let credit = u128::from(self.smax) * u128::from(moment - self.since);
        let policed = self.verdict(credit, price);
        if came && policed != Policed::Excess {
            self.charge(moment, credit, price);
        }
        policed
    }

    /// The verdict of a frame of this price, with the credit since the last charge.
    fn verdict(&self, credit: u128, price: u64) -> Policed
        requires { credit < 2 ^ 96 }
        ensures { result ≡ verdict_by self.now credit price }
    {
        let price = u128::from(price);
        if self.is_over_debt(credit, price) {
            Policed::Excess
        } else if price + u128::from(self.slack) <= self.low + credit {
            Policed::Within
        } else {
            Policed::Unsure
        }
    }

    fn is_over_debt(&self, credit: u128, price: u128) -> bool
        requires credit { credit < 2 ^ 96 }
        requires price { price < 2 ^ 64 }
        ensures { result ≡ is_over_debt (self.now.cap + self.now.slack) self.now.debt credit price }
    {
        match self.debt {
            Some(debt) => u128::from(self.cap) + u128::from(self.slack) + credit < debt + price,
            None => false,
        }
    }

    /// Charges a frame that isn't excess, with the credit since the last charge.
    fn charge(&mut self, moment: u64, credit: u128, price: u64)
        requires credit { credit < 2 ^ 96 }
        requires fits { debt_with self.old.debt credit price < 2 ^ 65 }
        ensures since { self.new.since ≡ moment }
        ensures low { self.new.low ≡ min (self.old.low + credit) self.old.cap - price }
        ensures debt { self.new.debt ≡ Some (debt_with self.old.debt credit price) }
        ensures smax { self.new.smax ≡ self.old.smax }
        ensures cap { self.new.cap ≡ self.old.cap }
        ensures slack { self.new.slack ≡ self.old.slack }
    {
        let price = u128::from(price);
        let held = (self.low + credit).min(u128::from(self.cap));
        self.low = held.saturating_sub(price);
        self.debt = Some(match self.debt {
            Some(debt) => debt.saturating_sub(credit) + price,
            None => price,
        });
        self.since = moment;
    }
}
