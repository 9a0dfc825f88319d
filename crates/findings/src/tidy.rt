//! Accounts that others absorbed are let go, so that memory follows the links and not the ledger's length.
use crate::accounts::{Accounts, Handle};
use crate::flight::Flight;
use crate::lane::Lane;
use crate::link::LinkState;
use std::alloc::AllocError;

/// A handle of the account that has the signs now.
fn resolve(accounts: &Accounts, handle: &mut Option<Handle>) {
    if let Some(held) = handle {
        *held = accounts.root(*held);
    }
}

/// The same for all handles of a lane.
fn resolve_lane(accounts: &Accounts, lane: &mut Lane) {
    resolve(accounts, &mut lane.last);
    resolve(accounts, &mut lane.loss);
    resolve(accounts, &mut lane.strange);
    if let Some(held) = &mut lane.held {
        resolve(accounts, &mut held.own);
    }
}

impl Flight {
    /// Lets absorbed accounts go, once there are many.
    pub fn tidy(&mut self, links: &mut [LinkState]) -> Result<(), AllocError> {
        if !self.accounts.are_many() {
            return Ok(());
        }
        for link in links.iter_mut() {
            resolve_lane(&self.accounts, &mut link.a);
            resolve_lane(&self.accounts, &mut link.b);
            for outage in link.outages.iter_mut() {
                *outage = self.accounts.root(*outage);
            }
            if let Some(begun) = &mut link.begun {
                begun.account = self.accounts.root(begun.account);
            }
        }
        self.resolve();
        self.accounts.release_absorbed()
    }

    /// All handles but those of links are of accounts that have the signs now.
    fn resolve(&mut self) {
        let accounts = &self.accounts;
        for state in self.skews.iter_mut() {
            resolve(accounts, &mut state.run);
            resolve(accounts, &mut state.apart);
            resolve(accounts, &mut state.move_account);
            if let Some(ended) = &mut state.ended {
                ended.account = accounts.root(ended.account);
            }
        }
        for step in self.clocks.steps.iter_mut() {
            step.account = accounts.root(step.account);
        }
        for group in self.groups.iter_mut() {
            group.resolve(accounts);
        }
        for kept in self.kept.iter_mut() {
            resolve(accounts, &mut kept.more);
        }
    }
}
