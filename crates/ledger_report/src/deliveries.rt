//! The latest delivery of each sequence number of each link.

ghost use Rattle.std.specs.Prelude.{◌≡◌, ◌==◌, ◌&&◌, ℕ, Some, None, IfOk, OnOk, if◌then◌else◌, vec_len};
ghost use Rattle.ledger_report.specs.Held.{held_in};

use crate::per_number::PerNumber;
use afdx_frame::{Network, VL_ID_COUNT, VlId};
use std::alloc::{AllocError, Global};

/// The network and the timestamp of a frame that was delivered.
#[derive(Clone, Copy)]
pub struct Delivered {
    pub network: Network,
    pub stamp: u64,
}

/// The latest delivery of each sequence number of each link.
#[derive(Drop)]
pub struct Deliveries {
    /// By a link's identifier.
    links: Vec<PerNumber<Delivered>>,
    ghost whole: { vec_len links ≡ 65536 },
}

/// No delivery for each identifier.
fn of_no_link(alloc: Global) -> Result<Vec<PerNumber<Delivered>>, AllocError>
    ensures whole { IfOk result (λ links. vec_len links ≡ 65536) }
    ensures none { IfOk result (λ links. (id number : ℕ) → held_in links.items id number ≡ None) }
{
    let mut links = Vec::with_capacity(alloc, VL_ID_COUNT)?;
    for _id in 0..VL_ID_COUNT {
        links.push(PerNumber::new(alloc))?;
    }
    Ok(links)
}

impl Deliveries {
    /// No delivery.
    pub(crate) fn new(alloc: Global) -> Result<Deliveries, AllocError>
        ensures { IfOk result (λ deliveries.
            (id number : ℕ) → held_in deliveries.links.items id number ≡ None) }
    {
        Ok(Deliveries {
            links: of_no_link(alloc)?,
        })
    }

    /// The latest delivery of a number.
    #[inline]
    pub(crate) fn latest(&self, id: VlId, number: u8) -> Option<Delivered>
        ensures { result ≡ held_in self.now.links.items id.0 number }
    {
        self.links[usize::from(id.0)].get(number)
    }

    /// How many numbers of a link were delivered last after this time.
    pub(crate) fn count_after(&self, id: VlId, stamp: u64) -> usize {
        (0..=u8::MAX)
            .filter(|number| self
                .latest(id, *number)
                .is_some_and(|last| stamp < last.stamp))
            .count()
    }

    /// Notes a delivery.
    #[inline]
    pub(crate) fn note(
        &mut self,
        id: VlId,
        number: u8,
        delivered: Delivered,
    ) -> Result<(), AllocError>
        ensures { OnOk result ((i n : ℕ) → held_in self.new.links.items i n
            ≡ (if (id.0 == i) && (number == n) then Some delivered
            else held_in self.old.links.items i n)) }
    {
        self.links[usize::from(id.0)].set(number, delivered)
    }
}
