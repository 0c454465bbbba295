//! What a running service counts and notes beside its table.
ghost use Rattle.std.specs.Prelude.{◌≡◌, IfErr};

use crate::counting::Heeded;
use crate::directory::Directory;
use crate::metering::Meter;
use crate::noting::{Note, place_of};
use crate::shown::Shown;
use ring_accept::ProgramFault;
use ring_any::Any;
use ring_http::{Beside, Figures, Served};
use ring_id::{GroupName, Refusal};
use ring_node::Charter;
use ring_terms::Book;
use std::alloc::{AllocError, Global};
use std::fs::{File, Files};
use std::io::{Read, Seek, SeekFrom};
use std::sync::atomic::{AtomicU64, Ordering};
use std::sync::{Arc, Mutex, Wait};
use std::{array, fs};

// The bytes of a page of memory.
const PAGE: u64 = 4096;

/// Numbers of a running service, its groups with their algorithms and last charters, and what the
/// last answers about groups said.
///
/// Threads share it. What it counts and notes is tested, not proved.
#[derive(Drop)]
pub struct Watch {
    // how many clients of each port are served at most
    limit: u32,
    has_campaigns: bool,
    // how many clients of each port are served now
    sessions: AtomicU64,
    campaigns: AtomicU64,
    viewers: AtomicU64,
    failed_accepts: AtomicU64,
    // for each refusal, by its number
    refusals: [AtomicU64; 14],
    directory: Mutex<Directory>,
    shown: Mutex<Shown>,
    // the file with the sizes of this process, if it could be opened
    memory: Option<Mutex<File>>,
    // `None` if there is no journal
    meter: Option<Arc<Meter>>,
}

/// A port that is served.
#[derive(Clone, Copy, Debug, PartialEq, Eq)]
pub enum Port {
    /// The port for sessions.
    Sessions,
    /// The port for campaigns.
    Campaigns,
    /// The port for HTTP.
    Http,
}

impl Watch {
    /// Returns the watch of a service without groups, without a journal and without campaigns. It
    /// serves at most `limit` clients of each port. Its resident memory is not known. Fails only if
    /// an allocation fails.
    pub fn new(alloc: Global, limit: u32) -> Result<Watch, AllocError> {
        let shown = Shown::new(alloc)?;
        let directory = Directory::new(alloc)?;
        Ok(Watch {
            limit,
            has_campaigns: false,
            sessions: AtomicU64::new(0),
            campaigns: AtomicU64::new(0),
            viewers: AtomicU64::new(0),
            failed_accepts: AtomicU64::new(0),
            refusals: array::from_fn(|_| AtomicU64::new(0)),
            directory: Mutex::new(directory),
            shown: Mutex::new(shown),
            memory: None,
            meter: None,
        })
    }

    /// Returns the watch of a service that serves campaigns if `serves` is true.
    pub fn with_campaigns(self, serves: bool) -> Watch {
        let mut watch = self;
        watch.has_campaigns = serves;
        watch
    }

    /// Returns a watch that knows the resident memory of this process, if `/proc/self/statm` can be
    /// opened.
    pub fn with_memory<R: Files<File = File>>(self, rt: &R) -> Watch {
        let mut watch = self;
        watch.memory = match fs::open(rt, "/proc/self/statm") {
            Ok(file) => Some(Mutex::new(file)),
            Err(_) => None,
        };
        watch
    }

    /// Returns the watch of a service with a journal, which this meter counts.
    pub fn with_journal(self, meter: Arc<Meter>) -> Watch {
        let mut watch = self;
        watch.meter = Some(meter);
        watch
    }

    /// Returns the watch, for threads to share. Fails only if an allocation fails.
    pub(crate) fn shared(self, alloc: Global) -> Result<Arc<Watch>, ProgramFault>
        ensures { IfErr result (λ fault. fault ≡ ProgramFault.NoMemory) }
    {
        match Arc::new(alloc, self) {
            Ok(shared) => Ok(shared),
            Err(_) => Err(ProgramFault::NoMemory),
        }
    }

    /// Returns a watch that has noted the groups of a book, and the charters of their last terms.
    /// Fails only if an allocation fails.
    pub fn with_groups(self, alloc: Global, book: &Book<Any>) -> Result<Watch, AllocError> {
        let directory = Directory::of_book(alloc, book)?;
        let mut watch = self;
        watch.directory = Mutex::new(directory);
        Ok(watch)
    }

    /// Counts a client of this port, which is served from now on.
    pub fn enter(&self, port: Port) {
        self.clients(port).fetch_add(1, Ordering::SeqCst);
    }

    /// Counts a client of this port no longer, since it has been served.
    pub fn leave(&self, port: Port) {
        self.clients(port).fetch_sub(1, Ordering::SeqCst);
    }

    // Returns how many clients of a port are served now.
    fn clients(&self, port: Port) -> &AtomicU64 {
        match port {
            Port::Sessions => &self.sessions,
            Port::Campaigns => &self.campaigns,
            Port::Http => &self.viewers,
        }
    }

    /// Returns a listener whose failed accepts are counted.
    pub fn heeded<L: Drop>(&self, listener: L) -> Heeded<'_, L> {
        Heeded::new(listener, &self.failed_accepts)
    }

    /// Counts or notes this. Does not allocate.
    #[inline(never)]
    pub(crate) fn note<R: Wait>(&self, rt: &R, note: Note) {
        match note {
            Note::Refused(refusal) => self.count_refusal(refusal),
            Note::Created(group, algorithm) => self.directory.lock(rt).create(group, algorithm),
        }
    }

    /// Notes a term that was started. Does not allocate.
    pub(crate) fn note_term<R: Wait>(&self, rt: &R, charter: &Arc<Charter<Any>>) {
        let _ = self.directory.lock(rt).begin(charter);
    }

    /// Counts the first line of a campaign, if it was refused as no join.
    pub(crate) fn count_first(&self, refused: bool) {
        if refused {
            self.count_refusal(Refusal::BadLine);
        }
    }

    // Counts an answer that was this refusal.
    fn count_refusal(&self, refusal: Refusal) {
        self.refusals[place_of(refusal)].fetch_add(1, Ordering::SeqCst);
    }

    /// Returns what is known by this watch. Its locks are taken by `rt`. `unread` lines of sessions
    /// spelled no client command, and are counted as bad lines. Does not allocate.
    pub fn beside<'a, R: Wait>(&'a self, rt: &'a R, unread: u64) -> Known<'a, R> {
        Known {
            rt,
            watch: self,
            unread,
        }
    }

    // Returns how many clients of a port are served, and how many at most.
    fn served(&self, clients: &AtomicU64) -> Served {
        Served {
            now: clients.load(Ordering::SeqCst),
            limit: u64::from(self.limit),
        }
    }

    // Returns the counts of refusals. Those of the table have no bad lines: `unread` is added to
    // those of campaigns.
    fn refusals(&self, unread: u64) -> [u64; 14] {
        let mut counts = [0; 14];
        for (count, refusals) in counts.iter_mut().zip(&self.refusals) {
            *count = refusals.load(Ordering::SeqCst);
        }
        let at = place_of(Refusal::BadLine);
        counts[at] = counts[at].saturating_add(unread);
        counts
    }

    // Returns the bytes of memory that are resident, if they can be read.
    fn resident<R: Wait>(&self, rt: &R) -> Option<u64> {
        let memory = self.memory.as_ref()?;
        let mut file = memory.lock(rt);
        read_resident(&mut file)
    }
}

// Reads the bytes of memory that are resident from the file with the sizes of this process.
fn read_resident(file: &mut File) -> Option<u64> {
    let Ok(_) = file.seek(SeekFrom::Start(0)) else {
        return None;
    };
    let mut text = [0; 256];
    match file.read(&mut text) {
        Ok(len) => resident_in(&text[..len]),
        Err(_) => None,
    }
}

// Returns the bytes of the pages that are the second number of a text, or `None` if it has none.
fn resident_in(text: &[u8]) -> Option<u64> {
    let word = text.split(|byte| *byte == b' ').nth(1)?;
    if word.is_empty() {
        return None;
    }
    let mut pages: u64 = 0;
    for byte in word {
        if *byte < b'0' || *byte > b'9' {
            return None;
        }
        pages = pages.checked_mul(10)?.checked_add(u64::from(*byte - b'0'))?;
    }
    pages.checked_mul(PAGE)
}

/// What is known by a watch, read in a thread of this runtime.
#[derive(Drop)]
pub struct Known<'a, R> {
    rt: &'a R,
    watch: &'a Watch,
    // how many lines of sessions spelled no client command
    unread: u64,
}

impl<R: Wait> Beside for Known<'_, R> {
    fn figures(&self) -> Figures {
        let watch = self.watch;
        let campaigns = if watch.has_campaigns {
            Some(watch.served(&watch.campaigns))
        } else {
            None
        };
        let journal = match &watch.meter {
            Some(meter) => Some(meter.figures()),
            None => None,
        };
        Figures {
            sessions: watch.served(&watch.sessions),
            campaigns,
            viewers: watch.served(&watch.viewers),
            failed_accepts: watch.failed_accepts.load(Ordering::SeqCst),
            refusals: watch.refusals(self.unread),
            resident: watch.resident(self.rt),
            journal,
        }
    }

    fn algorithm(&self, group: GroupName) -> Option<Any> {
        self.watch.directory.lock(self.rt).algorithm(group)
    }

    fn charter(&self, group: GroupName) -> Option<Arc<Charter<Any>>> {
        self.watch.directory.lock(self.rt).charter(group)
    }

    fn shown_at(&self, place: usize) -> Option<u64> {
        self.watch.shown.lock(self.rt).at(place)
    }

    fn note_shown(&self, place: usize, sum: u64) {
        self.watch.shown.lock(self.rt).note(place, sum);
    }
}
