//! The lease of a journal: the active process renews it, and a standby process waits for its end.
ghost use Rattle.std.specs.Prelude.{◌≡◌, ◌==◌, ◌+◌, ◌≤◌, ◌↔◌, ◌⊎◌, ℕ, IfOk, IsTrue, OnErr, OnOk, if◌then◌else◌, min};
ghost use Rattle.ring_etcd.specs.Done.{IsDone};
ghost use Rattle.ring_etcd.specs.Hearing.{Hears, HearsSince};
ghost use Rattle.ring_etcd.specs.Leases.{HasLooked, MayClaim, SameLooks};

use crate::place::EtcdFault;
use crate::replies::{Revision, Seen};
use crate::store::Store;
use std::marker::Model;
use std::net::{Net, TcpStream};
use std::time::Clock;

/// How many looks in a row find the same revision before a standby process claims a lease.
pub const LOOKS: u32 = 5;

// How many milliseconds pass between two looks. Few looks end soon, also if each takes long.
const LOOK_MILLIS: u64 = 300;

/// The lease of a journal in etcd.
///
/// The active process renews it some three times a second. A standby process waits until nobody renews
/// it, and then claims it. The process that had it finds that at its next renewal. The lease only
/// decides how long these processes wait. Nothing else depends on it: the journal is safe if two
/// processes claim it, or none does.
///
/// Contracts see the revision that the last look found, and how many looks in a row found it. They
/// also see the number of replies that were heard, and the text of the last one.
#[derive(Drop)]
pub struct Lease<R> {
    store: Store<R>,
    // the number that this process puts; no other process has it
    process: u64,
    // the revision of the last put that the last look found; 0 if there was none
    revision: u64,
    // how many looks in a row found it, `LOOKS` at most
    looks: u32,
}

impl<R> Model for Lease<R> {
    ghost use Rattle.ring_etcd.specs.Leases.{Watched};

    ghost Value = { Watched };

    ghost view = { λ a. record {
      revision = a.revision;
      looks = a.looks;
      heard = a.store.cluster.heard;
      last = a.store.cluster.last.items;
    } };
}

impl<R: Net<Stream = TcpStream> + Clock + AllocGlobal + Copy + Drop> Lease<R> {
    /// Returns the lease of the journal with this name, before the first look. Asks for a number
    /// that no other process has. The members of etcd are HOST:PORT,HOST:PORT and so on.
    pub fn new(rt: &R, members: &str, name: &str) -> Result<Lease<R>, EtcdFault>
        ensures { IfOk result (λ lease. (lease.revision ≡ 0) × (lease.looks ≡ 0)) }
    {
        let mut store = Store::new(*rt, members, name)?;
        let Revision(process) = store.identity()?;
        Ok(Lease {
            store,
            process,
            revision: 0,
            looks: 0,
        })
    }

    /// Renews the lease, if this process has it. Returns whether it has, as the reply says that was
    /// heard: another process may have claimed it. Tries as often as the journal does before it
    /// returns `NoAnswer`. The caller may call again.
    pub fn renew(&mut self) -> Result<bool, EtcdFault>
        ensures held { IfOk result (λ is_held.
            Hears (λ json. IsTrue is_held ↔ IsDone json)
            self.old.heard self.new.heard self.new.last) }
        ensures same { SameLooks self.old self.new }
        ensures err { OnErr result (self.new.heard ≡ self.old.heard) }
    {
        match self.store.renew_lease(self.process) {
            Ok(held) => Ok(held.0),
            Err(fault) => Err(fault.into()),
        }
    }

    /// Looks once at the lease, and claims it if nothing is there, or if `LOOKS` looks in a row
    /// found the same revision. Returns whether this process claimed it. If it did, the last reply
    /// that was heard says that a put was carried out.
    ///
    /// Each renewal and each claim gives the lease another revision. If two processes claim the
    /// same one, etcd carries out one claim and refuses the other.
    ///
    /// A request to claim it is sent again if its answer is lost, and may then find that it was
    /// carried out: the key has the value of this process, and is put once more. If a look or a
    /// claim gets no answer at all, the looks count as before.
    pub fn claim(&mut self) -> Result<bool, EtcdFault>
        ensures looked { OnOk result ((revision : ℕ) × HasLooked self.old self.new revision) }
        ensures claimed { IfOk result (λ is_claimed. IsTrue is_claimed → MayClaim self.new) }
        ensures told { IfOk result (λ is_claimed. IsTrue is_claimed
            → HearsSince IsDone self.old.heard self.new.heard self.new.last) }
        ensures heard { self.old.heard ≤ self.new.heard }
        ensures err { OnErr result (SameLooks self.old self.new) }
    {
        let Seen(revision) = self.store.look_at_lease()?;
        let looks = looks_after(self.revision, self.looks, revision);
        let is_claimed = may_claim(revision, looks)
            && (self.store.claim_lease(revision, self.process)?.0
                || self.store.renew_lease(self.process)?.0);
        self.revision = revision;
        self.looks = looks;
        Ok(is_claimed)
    }

    /// Looks at the lease every 300 milliseconds until this process has claimed it. Then the last
    /// reply that was heard says that a put was carried out. Sleeps before the first look.
    ///
    /// If no member of etcd answers, it goes on. Such a time does not count as looks.
    pub fn stand_by(&mut self) -> Result<(), EtcdFault>
        ensures may { OnOk result (MayClaim self.new) }
        ensures told { OnOk result
            (HearsSince IsDone self.old.heard self.new.heard self.new.last) }
    {
        for _ in 0..u64::MAX {
            self.store.pause(LOOK_MILLIS);
            match self.claim() {
                Ok(true) => return Ok(()),
                Ok(false) | Err(EtcdFault::NoAnswer) => {}
                Err(fault) => return Err(fault),
            }
        }
        Err(EtcdFault::NoAnswer)
    }
}

// How many looks in a row found a revision that one more look found, `LOOKS` at most.
fn looks_after(old: u64, looks: u32, revision: u64) -> u32
    ensures { result ≡ (if revision == old then min LOOKS (looks + 1) else 1) }
{
    if revision == old {
        LOOKS.min(looks.saturating_add(1))
    } else {
        1
    }
}

// Whether a lease with this revision may be claimed after so many looks that found it.
fn may_claim(revision: u64, looks: u32) -> bool
    ensures { IsTrue result ↔ (revision ≡ 0) ⊎ (looks ≡ LOOKS) }
{
    revision == 0 || looks == LOOKS
}
