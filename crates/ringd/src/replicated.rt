//! The journal in etcd: standing by, taking it over, and printing it.
ghost use Rattle.std.specs.Prelude.{◌≡◌, ℕ, IfErr, IfOk, None, length, map};
ghost use Rattle.ring_etcd.specs.Readings.{IsFound, IsTaken, Place};
ghost use Rattle.ring_journal.specs.Journals.{HasAll};
ghost use Rattle.ring_recovery.specs.Charters.{running_charters};
ghost use Rattle.ring_recovery.specs.Compacted.{Resumes};
ghost use Rattle.ringd.specs.Journal.{IsOfJournal, IsOfTaking, IsTakenOver};
ghost use Rattle.ringd.specs.private.Journal.{IsOfTail, etcd_told_as};

use crate::journal::{Ready, another, open_over, prepare, recovered, shared};
use ring_accept::{JournalFault, ProgramFault};
use ring_etcd::{Etcd, EtcdFault, EtcdMedium, EtcdPlace, Lease, Standing};
use ring_journal::whole_len;
use ring_recovery::{Alarm, Ending, Recovered};
use ring_server::{Metered, Resumed};
use std::alloc::Global;
use std::net::{Net, TcpListener, TcpStream};
use std::sync::{Arc, Wait};
use std::thread;
use std::thread::Threads;
use std::time::{Clock, Duration};

// How many milliseconds pass between two renewals of the lease.
const RENEWAL_MILLIS: u64 = 300;

/// Waits until no other process renews the lease of the journal in etcd with this name, takes the
/// journal over, and recovers its table. The journal begins anew as one in a file does. The meter
/// counts what is put from then on. The members of etcd are HOST:PORT,HOST:PORT and so on.
///
/// If it has to wait, it prints `ringd: standing by` on standard error. A thread renews the lease
/// from then on. If another process has claimed it, the alarm of the table is rung, and `standing`
/// says so. Nothing but these waits rests on the lease: a process puts nothing more once another
/// one has taken the journal over.
///
/// The faults, in their order: no member answers; a thread cannot be started; the journal is
/// damaged, of another version, or taken over meanwhile. Except at the last one, only the lease and
/// the entry that takes over were put. A journal with bytes after its last line is damaged.
pub fn take_over<R>(
    rt: &R,
    members: &str,
    name: &str,
    standing: &Arc<Standing>,
) -> Result<Resumed<Metered<EtcdMedium<Etcd<R>>, R>>, ProgramFault>
where
    R: Net<Stream = TcpStream, Listener = TcpListener>
        + Eprint
        + Clock
        + AllocGlobal
        + Threads
        + Wait
        + Copy
        + Send
        + Sync
        + Drop
        + 'static,
    ensures ok { IfOk result (λ resumed.
        IsTakenOver name.now resumed.table resumed.life) }
    ensures fault { IfErr result IsOfTaking }
{
    let signals = hold_lease(rt, members, name, standing)?;
    match recovered_over(rt, members, name) {
        Ok((place, resumed)) => begin_over(rt, place, resumed, signals),
        Err(fault) => {
            drop(signals);
            Err(fault)
        }
    }
}

// Takes over a journal. Returns its place, and the table that its bytes give, compacted.
fn recovered_over<R>(
    rt: &R,
    members: &str,
    name: &str,
) -> Result<(EtcdPlace<R>, Recovered), ProgramFault>
where
    R: Net<Stream = TcpStream> + Clock + AllocGlobal + Copy + Drop,
    ensures ok { IfOk result (λ over. (place : Place) × IsTaken name.now place
        × HasAll place.bytes × Resumes place.bytes over.1) }
    ensures fault { IfErr result IsOfJournal }
{
    match EtcdPlace::take(rt, members, name) {
        Ok(place) => recovered_at(rt.alloc(), place),
        Err(fault) => Err(told_of_etcd(fault)),
    }
}

// Returns a place that was taken, and the table that its bytes give, compacted.
fn recovered_at<R>(
    alloc: Global,
    mut place: EtcdPlace<R>,
) -> Result<(EtcdPlace<R>, Recovered), ProgramFault>
where
    R: Net<Stream = TcpStream> + Clock + AllocGlobal + Copy + Drop,
    ensures ok { IfOk result (λ over. HasAll place.bytes × Resumes place.bytes over.1) }
    ensures fault { IfErr result IsOfJournal }
{
    match recovered_whole(alloc, place.read()) {
        Ok(resumed) => Ok((place, resumed)),
        Err(fault) => {
            drop(place);
            Err(fault)
        }
    }
}

// Returns the table that the bytes of a journal in etcd give, compacted.
fn recovered_whole(alloc: Global, found: Vec<u8>) -> Result<Recovered, ProgramFault>
    ensures ok { IfOk result (λ resumed. HasAll found.items × Resumes found.items resumed) }
    ensures fault { IfErr result IsOfJournal }
{
    let found = whole(found)?;
    recovered(alloc, found)
}

// Returns the bytes of a journal in etcd. An entry is put whole or not at all there, so bytes after
// the last line are no torn tail: the journal is damaged.
fn whole(found: Vec<u8>) -> Result<Vec<u8>, ProgramFault>
    ensures same { IfOk result (λ whole. whole.items ≡ found.items) }
    ensures lines { IfOk result (λ whole. HasAll whole.items) }
    ensures tail { IfErr result (IsOfTail found.items) }
    ensures fault { IfErr result IsOfJournal }
{
    let at = whole_len(&found);
    if at < found.len() {
        drop(found);
        return Err(ProgramFault::Journal(JournalFault::Bad { at }));
    }
    Ok(found)
}

// Begins the journal of a resumed table anew, and opens the table over it.
fn begin_over<R>(
    rt: &R,
    place: EtcdPlace<R>,
    resumed: Recovered,
    signals: Signals,
) -> Result<Resumed<Metered<EtcdMedium<Etcd<R>>, R>>, ProgramFault>
where
    R: Net<Stream = TcpStream> + Clock + AllocGlobal + Copy + Drop,
    ensures ok { IfOk result (λ begun.
        (begun.table.book ≡ resumed.book) × (begun.table.history ≡ resumed.history)
        × (begun.life ≡ resumed.life)) }
    ensures fault { IfErr result IsOfJournal }
{
    match begin_text(rt.alloc(), place, &resumed, signals) {
        Ok((medium, ready)) => Ok(open_over(rt, resumed, medium, ready)),
        Err(fault) => {
            drop(resumed);
            Err(fault)
        }
    }
}

// Begins the journal of a resumed table anew. Returns its medium, and what else the table needs to
// be opened over it.
fn begin_text<R>(
    alloc: Global,
    place: EtcdPlace<R>,
    resumed: &Recovered,
    signals: Signals,
) -> Result<(EtcdMedium<Etcd<R>>, Ready), ProgramFault>
where
    R: Net<Stream = TcpStream> + Clock + AllocGlobal + Copy + Drop,
    ensures text { IfOk result (λ begun. begun.0
        ≡ record { text = resumed.now.text; kept = length resumed.now.text; other = None }) }
    ensures running { IfOk result (λ begun. map (λ charter. charter.value) begun.1.charters.items
        ≡ running_charters resumed.now.book) }
    ensures fault { IfErr result IsOfJournal }
{
    let Signals { alarm, standing } = signals;
    match prepare(alloc, resumed, alarm) {
        Ok(ready) => match place.begin(resumed.text(), standing) {
            Ok(medium) => Ok((medium, ready)),
            Err(fault) => {
                drop(ready);
                Err(told_of_etcd(fault))
            }
        },
        Err(fault) => {
            drop(place);
            drop(standing);
            Err(fault)
        }
    }
}

// What the thread that renews a lease shares with the journal.
#[derive(Drop)]
struct Signals {
    // the alarm of the table, which that thread rings
    alarm: Arc<Alarm>,
    // where it notes that another process has taken the journal over
    standing: Arc<Standing>,
}

impl Signals {
    // Returns another handle of each.
    fn another(&self) -> Result<Signals, ProgramFault>
        ensures { IfErr result (λ fault. fault ≡ ProgramFault.NoMemory) }
    {
        Ok(Signals {
            alarm: another(&self.alarm)?,
            standing: another(&self.standing)?,
        })
    }
}

// Claims the lease of a journal, and starts the thread that renews it. Returns what that thread
// shares with the journal.
fn hold_lease<R>(
    rt: &R,
    members: &str,
    name: &str,
    standing: &Arc<Standing>,
) -> Result<Signals, ProgramFault>
where
    R: Net<Stream = TcpStream, Listener = TcpListener>
        + Eprint
        + Clock
        + AllocGlobal
        + Threads
        + Wait
        + Copy
        + Send
        + Sync
        + Drop
        + 'static,
    ensures { IfErr result IsOfTaking }
{
    let lease = claimed(rt, members, name)?;
    match make_signals(rt.alloc(), standing) {
        Ok((ours, theirs)) => {
            keep_lease(rt, lease, theirs)?;
            Ok(ours)
        }
        Err(fault) => {
            drop(lease);
            Err(fault)
        }
    }
}

// Returns a new alarm and this standing, once for the journal and once for the thread that renews
// its lease.
fn make_signals(alloc: Global, standing: &Arc<Standing>) -> Result<(Signals, Signals), ProgramFault>
    ensures { IfErr result (λ fault. fault ≡ ProgramFault.NoMemory) }
{
    let ours = Signals {
        alarm: shared(alloc, Alarm::new())?,
        standing: another(standing)?,
    };
    let theirs = ours.another()?;
    Ok((ours, theirs))
}

// Waits for the lease of a journal, and returns it once this process has claimed it.
fn claimed<R>(rt: &R, members: &str, name: &str) -> Result<Lease<R>, ProgramFault>
where
    R: Net<Stream = TcpStream> + Eprint + Clock + AllocGlobal + Copy + Drop,
    ensures { IfErr result IsOfJournal }
{
    let mut lease = Lease::new(rt, members, name).map_err(told_of_etcd)?;
    match wait_for(rt, &mut lease) {
        Ok(()) => Ok(lease),
        Err(fault) => Err(told_of_etcd(fault)),
    }
}

// Waits until this process has claimed a lease. It says so if it has to wait.
fn wait_for<R>(rt: &R, lease: &mut Lease<R>) -> Result<(), EtcdFault>
where
    R: Net<Stream = TcpStream> + Eprint + Clock + AllocGlobal + Copy + Drop,
{
    if lease.claim()? {
        return Ok(());
    }
    let _said = eprintln!(rt; "ringd: standing by");
    lease.stand_by()
}

// Starts the thread that renews a lease.
fn keep_lease<R>(rt: &R, lease: Lease<R>, signals: Signals) -> Result<(), ProgramFault>
where
    R: Net<Stream = TcpStream, Listener = TcpListener>
        + Clock
        + AllocGlobal
        + Threads
        + Wait
        + Copy
        + Send
        + Sync
        + Drop
        + 'static,
    ensures { IfErr result (λ fault. fault ≡ ProgramFault.Thread) }
{
    let theirs = *rt;
    let Signals { alarm, standing } = signals;
    match thread::spawn(rt, move || renew(&theirs, lease, &standing, &alarm)) {
        Ok(_thread) => Ok(()),
        Err(refused) => {
            drop(refused);
            Err(ProgramFault::Thread)
        }
    }
}

// Renews a lease until another process has claimed it, and then notes that and rings the alarm. The
// next renewal makes up for one that failed.
fn renew<R>(rt: &R, mut lease: Lease<R>, standing: &Standing, bell: &Alarm)
where
    R: Net<Stream = TcpStream> + Clock + AllocGlobal + Wait + Copy + Drop,
{
    for _ in rt.forever() {
        if let Ok(false) = lease.renew() {
            standing.note_taken_over();
            return bell.ring(rt, Ending::Failed);
        }
        thread::sleep(rt, Duration::from_millis(RENEWAL_MILLIS));
    }
}

/// Returns the bytes of the journal in etcd with this name, and changes nothing there. Another
/// process may have the journal.
///
/// The faults: no member answers; there is no such journal, or it is damaged, as one is that has
/// bytes after its last line.
pub fn look<R>(rt: &R, members: &str, name: &str) -> Result<Vec<u8>, ProgramFault>
where
    R: Net<Stream = TcpStream> + Clock + AllocGlobal + Copy + Drop,
    ensures ok { IfOk result (λ found. (text pieces : ℕ) × IsFound name.now text pieces found.items) }
    ensures lines { IfOk result (λ found. HasAll found.items) }
    ensures fault { IfErr result IsOfJournal }
{
    match EtcdPlace::look(rt, members, name) {
        Ok(found) => whole(found),
        Err(fault) => Err(told_of_etcd(fault)),
    }
}

// Returns the program's fault for a journal in etcd that cannot be used.
fn told_of_etcd(fault: EtcdFault) -> ProgramFault
    ensures told { result ≡ etcd_told_as fault }
    ensures of_journal { IsOfJournal result }
{
    match fault {
        EtcdFault::NoAnswer => ProgramFault::Journal(JournalFault::NoAnswer),
        EtcdFault::TakenOver => ProgramFault::Journal(JournalFault::TakenOver),
        EtcdFault::Damaged => ProgramFault::Journal(JournalFault::Unreadable),
        EtcdFault::NoMemory => ProgramFault::NoMemory,
    }
}
