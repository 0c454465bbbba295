//! The journal: taking up that of a file, opening a table over it, and printing it.
ghost use Rattle.std.specs.Prelude.{◌≡◌, ℕ, List, IfErr, IfOk, MatchResult, None, length, map};
ghost use Rattle.ring_lines.specs.Ends.{Wrote, WroteFront};
ghost use Rattle.ring_recovery.specs.Charters.{running_charters};
ghost use Rattle.ring_recovery.specs.Compacted.{Resumes};
ghost use Rattle.ring_recovery.specs.Listing.{Lists};
ghost use Rattle.ringd.specs.Journal.{IsOfJournal, IsTakenUp, ListedAt};
ghost use Rattle.ringd.specs.private.Journal.{IsToldOf, place_told_as, recovery_told_as};

use crate::replicated;
use ring_accept::{JournalFault, ProgramFault};
use ring_any::Any;
use ring_file::{FileMedium, Place, PlaceFault, Replaces};
use ring_journal::Medium;
use ring_lines::{Outlet, put};
use ring_node::Charter;
use ring_recovery::{Alarm, RecoverFault, Recovered, list_journal, resume};
use ring_server::{Meter, Metered, Resumed};
use ring_words::JournalAt;
use std::alloc::Global;
use std::fs::{File, Files};
use std::io::{ErrorKind, Read};
use std::net::{Net, TcpStream};
use std::sync::Arc;
use std::time::Clock;
use std::{fs, io};

/// Takes the journal at `path` and recovers its table. The file begins anew with the lines that
/// were found, or with at most half as many that give equal groups and terms. While the result
/// lives, no other process gets the file. The life is the one after that of the file. The meter
/// counts what is written and synced from then on.
///
/// The faults, in their order: the journal is in use, unreadable, no file, damaged, of another
/// version; its new file cannot be written. Except at the last one, nothing has changed.
pub fn take_up<R>(rt: &R, path: &str) -> Result<Resumed<Metered<FileMedium<R>, R>>, ProgramFault>
where
    R: Files<File = File> + Replaces + Clock + AllocGlobal + Copy + Drop,
    ensures ok { IfOk result (λ resumed.
        (found : List ℕ) × IsTakenUp found resumed.table resumed.life) }
    ensures fault { IfErr result IsOfJournal }
{
    if path.is_empty() {
        return Err(ProgramFault::Journal(JournalFault::Unreadable));
    }
    let place = Place::take(rt, path).map_err(told_of_place)?;
    match recovered_at(rt, &place) {
        Ok(resumed) => begin(rt, place, resumed),
        Err(fault) => {
            drop(place);
            Err(fault)
        }
    }
}

// Returns the table that the bytes at a place give, compacted.
fn recovered_at<R>(rt: &R, place: &Place) -> Result<Recovered, ProgramFault>
where
    R: Files<File = File> + AllocGlobal,
    ensures ok { IfOk result (λ resumed. (found : List ℕ) × Resumes found resumed) }
    ensures fault { IfErr result IsOfJournal }
{
    match place.read(rt) {
        Ok(found) => recovered(rt.alloc(), found),
        Err(fault) => Err(told_of_place(fault)),
    }
}

// Begins the file of a resumed table anew, and opens the table over it.
fn begin<R>(
    rt: &R,
    place: Place,
    resumed: Recovered,
) -> Result<Resumed<Metered<FileMedium<R>, R>>, ProgramFault>
where
    R: Files<File = File> + Replaces + Clock + AllocGlobal + Copy + Drop,
    ensures ok { IfOk result (λ begun.
        (begun.table.book ≡ resumed.book) × (begun.table.history ≡ resumed.history)
        × (begun.life ≡ resumed.life)) }
    ensures fault { IfErr result IsOfJournal }
{
    match begin_file(rt, place, &resumed) {
        Ok((medium, ready)) => Ok(open_over(rt, resumed, medium, ready)),
        Err(fault) => {
            drop(resumed);
            Err(fault)
        }
    }
}

// Begins the file of a resumed table anew. Returns its medium, and what else the table needs to be
// opened over it.
fn begin_file<R>(
    rt: &R,
    place: Place,
    resumed: &Recovered,
) -> Result<(FileMedium<R>, Ready), ProgramFault>
where
    R: Files<File = File> + Replaces + AllocGlobal + Copy + Drop,
    ensures text { IfOk result (λ begun. begun.0
        ≡ record { text = resumed.now.text; kept = length resumed.now.text; other = None }) }
    ensures running { IfOk result (λ begun. map (λ charter. charter.value) begun.1.charters.items
        ≡ running_charters resumed.now.book) }
    ensures fault { IfErr result IsOfJournal }
{
    match prepare_alarmed(rt.alloc(), resumed) {
        Ok(ready) => match place.begin(rt, resumed.text()) {
            Ok(medium) => Ok((medium, ready)),
            Err(fault) => {
                drop(ready);
                Err(told_of_place(fault))
            }
        },
        Err(fault) => {
            drop(place);
            Err(fault)
        }
    }
}

/// Opens a resumed table over a medium of its text. Does not allocate.
pub fn open_over<R: Clock + AllocGlobal + Copy, D: Medium + Drop>(
    rt: &R,
    resumed: Recovered,
    medium: D,
    ready: Ready,
) -> Resumed<Metered<D, R>>
    requires text { (D.moment medium).text ≡ resumed.text }
    requires kept { (D.moment medium).kept ≡ length resumed.text }
    requires running { map (λ charter. charter.value) ready.charters.items
        ≡ running_charters resumed.book }
    ensures book { result.table.book ≡ resumed.book }
    ensures history { result.table.history ≡ resumed.history }
    ensures life { result.life ≡ resumed.life }
{
    let life = resumed.life();
    let Ready { charters, handles } = ready;
    let medium = Metered::new(*rt, medium, handles.counting);
    Resumed {
        table: resumed.open(rt.alloc(), medium, handles.bell),
        charters,
        alarm: handles.alarm,
        life,
        meter: handles.meter,
    }
}

/// What a table needs to be opened over its journal.
#[derive(Drop)]
pub struct Ready {
    // the charters of the running terms
    charters: Vec<Arc<Charter<Any>>>,
    handles: Handles,
}

// Returns what a resumed table needs to be opened, with an alarm of its own.
fn prepare_alarmed(alloc: Global, resumed: &Recovered) -> Result<Ready, ProgramFault>
    ensures ok { IfOk result (λ ready. map (λ charter. charter.value) ready.charters.items
        ≡ running_charters resumed.now.book) }
    ensures fault { IfErr result (λ fault. fault ≡ ProgramFault.NoMemory) }
{
    let alarm = shared(alloc, Alarm::new())?;
    prepare(alloc, resumed, alarm)
}

/// Returns what a resumed table needs to be opened. The alarm is rung if its journal fails.
pub fn prepare(alloc: Global, resumed: &Recovered, alarm: Arc<Alarm>) -> Result<Ready, ProgramFault>
    ensures ok { IfOk result (λ ready. map (λ charter. charter.value) ready.charters.items
        ≡ running_charters resumed.now.book) }
    ensures fault { IfErr result (λ fault. fault ≡ ProgramFault.NoMemory) }
{
    let Ok(charters) = resumed.charters(alloc) else {
        return Err(ProgramFault::NoMemory);
    };
    match make_handles(alloc, alarm, resumed.text().len()) {
        Ok(handles) => Ok(Ready { charters, handles }),
        Err(fault) => {
            drop(charters);
            Err(fault)
        }
    }
}

// What threads share beside a table.
#[derive(Drop)]
struct Handles {
    // for the thread that waits for the end
    alarm: Arc<Alarm>,
    // the same alarm, for the thread that rings it
    bell: Arc<Alarm>,
    // for who reads the figures of the journal
    meter: Arc<Meter>,
    // the same meter, for the medium that is counted
    counting: Arc<Meter>,
}

// Returns the handles of an alarm, and of the meter of a journal of `bytes` bytes.
fn make_handles(alloc: Global, alarm: Arc<Alarm>, bytes: usize) -> Result<Handles, ProgramFault>
    ensures { IfErr result (λ fault. fault ≡ ProgramFault.NoMemory) }
{
    let bell = another(&alarm)?;
    let meter = shared(alloc, Meter::new(bytes))?;
    let counting = another(&meter)?;
    Ok(Handles {
        alarm,
        bell,
        meter,
        counting,
    })
}

/// Returns a handle of a value.
pub fn shared<T: Drop>(alloc: Global, value: T) -> Result<Arc<T>, ProgramFault>
    ensures { IfErr result (λ fault. fault ≡ ProgramFault.NoMemory) }
{
    match Arc::new(alloc, value) {
        Ok(one) => Ok(one),
        Err(_) => Err(ProgramFault::NoMemory),
    }
}

/// Returns another handle of a value.
pub fn another<T: Drop>(one: &Arc<T>) -> Result<Arc<T>, ProgramFault>
    ensures { IfErr result (λ fault. fault ≡ ProgramFault.NoMemory) }
{
    match Arc::try_clone(one) {
        Ok(other) => Ok(other),
        Err(_) => Err(ProgramFault::NoMemory),
    }
}

/// Returns the table that the bytes of a journal give, compacted.
pub(crate) fn recovered(alloc: Global, found: Vec<u8>) -> Result<Recovered, ProgramFault>
    ensures ok { IfOk result (Resumes found.items) }
    ensures err { IfErr result (IsToldOf found.items) }
    ensures fault { IfErr result IsOfJournal }
{
    match resume(alloc, found) {
        Ok(resumed) => Ok(resumed),
        Err(fault) => Err(told_of_recovery(fault)),
    }
}

/// Prints what a journal holds, in the form of `list_journal`. Another process may have the journal.
///
/// The faults, in their order: the journal is unreadable, no file, unanswered, damaged, of another
/// version; standard output cannot be written.
pub fn list<R, O>(rt: &R, at: JournalAt<'_>, out: &mut O) -> Result<(), ProgramFault>
where
    R: Files + Net<Stream = TcpStream> + Clock + AllocGlobal + Copy + Drop,
    O: Outlet,
    ensures { MatchResult result
        (λ _. (found text : List ℕ) × Lists found text × Wrote O.write_gives out.old text out.new)
        (λ fault. ListedAt O.write_gives out.old fault out.new) }
{
    let found = look_at(rt, at)?;
    match list_journal(rt.alloc(), found) {
        Ok(text) => tell_bytes(out, &text),
        Err(fault) => Err(told_of_recovery(fault)),
    }
}

// Returns the bytes of a journal, and leaves it as it is.
fn look_at<R>(rt: &R, at: JournalAt<'_>) -> Result<Vec<u8>, ProgramFault>
where
    R: Files + Net<Stream = TcpStream> + Clock + AllocGlobal + Copy + Drop,
    ensures { IfErr result IsOfJournal }
{
    match at {
        JournalAt::File(path) => look(rt, path),
        JournalAt::Etcd { members, name } => replicated::look(rt, members, name),
    }
}

// Writes these bytes.
fn tell_bytes<O: Outlet>(out: &mut O, text: &[u8]) -> Result<(), ProgramFault>
    ensures { MatchResult result
        (λ _. Wrote O.write_gives out.old text.now out.new)
        (λ fault. (fault ≡ ProgramFault.Write)
        × WroteFront O.write_gives out.old text.now out.new) }
{
    match put(out, text) {
        Ok(()) => Ok(()),
        Err(_) => Err(ProgramFault::Write),
    }
}

// Returns the bytes of a journal's file, and leaves the file as it is.
fn look<R: Files + AllocGlobal>(rt: &R, path: &str) -> Result<Vec<u8>, ProgramFault>
    ensures { IfErr result IsOfJournal }
{
    check_file(rt, path)?;
    match fs::open(rt, path) {
        Ok(file) => read_all(rt.alloc(), file),
        Err(error) => Err(unreadable(error)),
    }
}

// Fails unless there is a file at the path. A folder, a link, a pipe or a device is none.
fn check_file<R: Files>(rt: &R, path: &str) -> Result<(), ProgramFault>
    ensures { IfErr result IsOfJournal }
{
    match fs::symlink_metadata(rt, path) {
        Ok(about) if about.is_file() => Ok(()),
        Ok(_) => Err(ProgramFault::Journal(JournalFault::NotAFile)),
        Err(error) => Err(unreadable(error)),
    }
}

// Returns all bytes that a reader has left.
fn read_all<F: Read + Drop>(alloc: Global, mut reader: F) -> Result<Vec<u8>, ProgramFault>
    ensures { IfErr result IsOfJournal }
{
    let mut found = Vec::new(alloc);
    match reader.read_to_end(&mut found) {
        Ok(_) => Ok(found),
        Err(error) => {
            drop(found);
            Err(unreadable(error))
        }
    }
}

// Returns the program's fault for a file that could not be read.
fn unreadable(error: io::Error) -> ProgramFault
    ensures { IsOfJournal result }
{
    match error.kind() {
        ErrorKind::OutOfMemory => ProgramFault::NoMemory,
        _ => ProgramFault::Journal(JournalFault::Unreadable),
    }
}

// Returns the program's fault for a place that cannot be used.
fn told_of_place(fault: PlaceFault) -> ProgramFault
    ensures told { result ≡ place_told_as fault }
    ensures of_journal { IsOfJournal result }
{
    match fault {
        PlaceFault::InUse => ProgramFault::Journal(JournalFault::InUse),
        PlaceFault::Unreadable => ProgramFault::Journal(JournalFault::Unreadable),
        PlaceFault::NotAFile => ProgramFault::Journal(JournalFault::NotAFile),
        PlaceFault::Failed => ProgramFault::Journal(JournalFault::Failed),
        PlaceFault::NoMemory => ProgramFault::NoMemory,
    }
}

// Returns the program's fault for bytes that give no table.
fn told_of_recovery(fault: RecoverFault) -> ProgramFault
    ensures told { result ≡ recovery_told_as fault }
    ensures of_journal { IsOfJournal result }
{
    match fault {
        RecoverFault::Bad { at } => ProgramFault::Journal(JournalFault::Bad { at }),
        RecoverFault::Version => ProgramFault::Journal(JournalFault::Version),
        RecoverFault::Lives => ProgramFault::Journal(JournalFault::Lives),
        RecoverFault::NoMemory => ProgramFault::NoMemory,
    }
}
