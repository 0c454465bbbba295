//! A table that goes on after a restart, by fewer changes if it can.
ghost use Rattle.std.specs.Prelude.{IfErr, IfOk};
ghost use Rattle.ring_recovery.specs.Compacted.{Resumes, ResumesAfterFirst};
ghost use Rattle.ring_recovery.specs.Damage.{IsFaultOf};

use crate::fault::RecoverFault;
use crate::recovered::Recovered;
use crate::recovery::recover;
use crate::restart::restarts_after_first;
use ring_any::Any;
use ring_lives::{follows_replays, replays_exact};
use std::alloc::Global;

/// Recovers a table from the bytes of its journal's file as `recover` does, and compacts it.
///
/// Refuses the bytes that `recover` refuses. If they have several faults, it may name another one.
pub fn resume(alloc: Global, found: Vec<u8>) -> Result<Recovered, RecoverFault>
    ensures ok { IfOk result (Resumes found.items) }
    ensures err { IfErr result (IsFaultOf found.items) }
{
    let recovered = match recover(alloc, found) {
        Ok(recovered) => recovered,
        Err(fault) => return Err(fault),
    };
    match recovered.compacted(alloc) {
        Ok(compacted) => Ok(compacted),
        Err(_) => Err(RecoverFault::NoMemory),
    }
}

/// A table that was resumed after a crash has the groups as they were after the first of its
/// entries. These are at least the entries that were kept for good.
///
/// The law is the contract; the call does nothing.
pub fn resumes_after_first()
    ensures { ResumesAfterFirst }
{
    restarts_after_first();
    follows_replays::<Any>();
    replays_exact::<Any>();
}
