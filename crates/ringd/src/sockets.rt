//! Sockets in the file system: making them, and removing them.
//!
//! No contract speaks of the file system, so this file has to be read. Each call makes the system
//! calls that its comment names, in that order.
ghost use Rattle.std.specs.Prelude.{◌≡◌, IfErr, IfOk, MatchResult};
ghost use Rattle.ring_accept.specs.declared.fault.ProgramFault.TheVariants.{Listen, NoMemory};
ghost use Rattle.ringd.specs.Run.{IsOfListening};

use ring_accept::{ProgramFault, SocketFault};
use std::alloc::Global;
use std::fs::{DirBuilder, File, Files, Metadata, Permissions, TryLockError};
use std::io::ErrorKind;
use std::net::Net;
use std::os::unix::fs::{DirBuilderExt, FileTypeExt, MetadataExt, PermissionsExt};
use std::os::unix::net::{UnixListener, UnixStream};
use std::{fs, io};

// The most bytes of a path. The system takes 107, of which the name inside a room needs 6 more.
const LONGEST: usize = 100;

/// The sockets in the file system that this process has made.
#[derive(Drop)]
pub struct Sockets {
    made: Vec<Made>,
}

// A socket that this process has made. Its device and its number say whether a path still names it.
#[derive(Drop)]
struct Made {
    path: String,
    device: u64,
    number: u64,
}

impl Sockets {
    /// Returns no sockets.
    pub fn new(alloc: Global) -> Sockets {
        Sockets {
            made: Vec::new(alloc),
        }
    }

    /// Makes a socket with this mode at `path`, and listens on it.
    ///
    /// A socket at `path` on which no process listens is replaced. Nothing else is: the fault is
    /// `InUse` if a process listens there or is about to, and `NotASocket` if `path` names anything
    /// but a socket. All other faults are `Listen`, among them a path of more than 100 bytes, and
    /// `NoMemory`. After a fault the file system is as before.
    ///
    /// No other user can use the socket before it has its mode: it is made in a new folder that
    /// only this user may enter, `path.new`, gets its mode there, and then the name `path`, by a
    /// rename. Of two processes that do this at once for the same path, one has a lock on the
    /// folder. The other one gets `InUse`.
    pub fn bind<R>(&mut self, rt: &R, path: &str, mode: u32) -> Result<UnixListener, ProgramFault>
    where
        R: Files<File = File> + AllocGlobal + Net,
        ensures { IfErr result IsOfListening }
    {
        let Ok(()) = self.made.reserve(1) else {
            return Err(ProgramFault::NoMemory);
        };
        check_free(rt, path)?;
        let room = Room::take(rt, path)?;
        let bound = room.bind(rt, path, mode);
        room.leave(rt);
        let (listener, made) = bound?;
        self.made.push_reserved(made);
        Ok(listener)
    }

    /// Removes the sockets, each unless its path names something else by now.
    ///
    /// System calls for each: `statx` of the path, which follows no link, and `unlink`.
    pub fn remove<R: Files>(self, rt: &R) {
        for made in &self.made {
            if let Ok(about) = fs::symlink_metadata(rt, made.path.as_str())
                && about.file_type().is_socket()
                && about.dev() == made.device
                && about.ino() == made.number
            {
                let _ = fs::remove_file(rt, made.path.as_str());
            }
        }
    }
}

// A folder beside a path, in which its socket is made. As long as this value lives, no other
// process has the folder.
#[derive(Drop)]
struct Room {
    folder: String,
    // the name of a socket in it
    inside: String,
    // the open folder; the lock is released when this is closed
    lock: File,
}

impl Room {
    // Takes the folder `path.new`.
    //
    // System calls: `mkdir` of the folder with mode 0700, then those of `locked`. A dead process
    // may have left the folder. Then it is taken up, if it belongs to this user and only this user
    // may enter it: no other user has put anything into it, or holds a lock on it. The fault is
    // `InUse` if another process has it, or had it until now.
    fn take<R: Files<File = File> + AllocGlobal>(rt: &R, path: &str) -> Result<Room, ProgramFault>
        ensures { IfErr result IsOfListening }
    {
        let folder = format!(in rt.alloc(); "{path}.new")?;
        let inside = format!(in rt.alloc(); "{path}.new/s")?;
        make_folder(rt, folder.as_str())?;
        let lock = locked(rt, folder.as_str())?;
        Ok(Room {
            folder,
            inside,
            lock,
        })
    }

    // Makes the socket in the folder, gives it its mode, and then its name.
    //
    // System calls: those of `check_free`, as another process may have made a socket meanwhile.
    // Then `unlink` of a socket that a dead process left in the folder, `socket`, `bind`, `listen`,
    // and those of `give_name`.
    fn bind<R>(&self, rt: &R, path: &str, mode: u32) -> Result<(UnixListener, Made), ProgramFault>
    where
        R: Files<File = File> + AllocGlobal + Net,
        ensures { IfErr result IsOfListening }
    {
        let named = format!(in rt.alloc(); "{path}")?;
        check_free(rt, path)?;
        let inside = self.inside.as_str();
        remove_socket(rt, inside);
        let listener = UnixListener::bind(rt, inside).map_err(fault_of)?;
        let (device, number) = give_name(rt, inside, path, mode)?;
        let made = Made {
            path: named,
            device,
            number,
        };
        Ok((listener, made))
    }

    // Removes the folder (`unlink` of a socket in it, `rmdir`), and closes it.
    fn leave<R: Files>(self, rt: &R) {
        remove_socket(rt, self.inside.as_str());
        let _ = fs::remove_dir(rt, self.folder.as_str());
    }
}

// The fault of a path that another process has.
const IN_USE: ProgramFault = ProgramFault::Socket(SocketFault::InUse);

// Fails unless there is nothing at the path, or a socket on which no process listens.
//
// System calls: `statx`, which follows no link, and for a socket `socket`, `connect` and `close`.
fn check_free<R: Files + Net>(rt: &R, path: &str) -> Result<(), ProgramFault>
    ensures { IfErr result IsOfListening }
{
    if path.is_empty() || path.len() > LONGEST {
        return Err(ProgramFault::Listen);
    }
    match fs::symlink_metadata(rt, path) {
        Ok(about) if about.file_type().is_socket() => check_unused(rt, path),
        Ok(_) => Err(ProgramFault::Socket(SocketFault::NotASocket)),
        Err(error) => allow(ErrorKind::NotFound, error),
    }
}

// Fails unless no process listens on the socket at the path.
fn check_unused<R: Net>(rt: &R, path: &str) -> Result<(), ProgramFault>
    ensures { IfErr result IsOfListening }
{
    match UnixStream::connect(rt, path) {
        Ok(_) => Err(IN_USE),
        Err(error) => allow(ErrorKind::ConnectionRefused, error),
    }
}

// Opens a room's folder and locks it. The fault is `InUse` if another process has the lock, or if
// the path names another folder by then.
//
// System calls: `openat`, `flock`, which does not wait, `fstat` and `statx`. If the folder cannot
// be opened, it is removed.
fn locked<R: Files<File = File>>(rt: &R, folder: &str) -> Result<File, ProgramFault>
    ensures { IfErr result IsOfListening }
{
    let lock = match File::open(rt, folder) {
        Ok(lock) => lock,
        Err(error) => {
            let _ = fs::remove_dir(rt, folder);
            return Err(gone_or(error));
        }
    };
    match lock.try_lock() {
        Ok(()) => {}
        Err(TryLockError::WouldBlock) => return Err(IN_USE),
        Err(TryLockError::Error(_)) => return Err(ProgramFault::Listen),
    }
    let held = lock.metadata().map_err(fault_of)?;
    match fs::symlink_metadata(rt, folder) {
        Ok(there) if is_same(&there, &held) => Ok(lock),
        _ => Err(IN_USE),
    }
}

// Gives a socket its mode, and then the name `path`. Returns its device and its number.
//
// System calls: `chmod`, `statx` and `rename`.
fn give_name<R: Files>(
    rt: &R,
    inside: &str,
    path: &str,
    mode: u32,
) -> Result<(u64, u64), ProgramFault>
    ensures { IfErr result IsOfListening }
{
    fs::set_permissions(rt, inside, Permissions::from_mode(mode)).map_err(fault_of)?;
    let about = fs::symlink_metadata(rt, inside).map_err(fault_of)?;
    fs::rename(rt, inside, path).map_err(fault_of)?;
    Ok((about.dev(), about.ino()))
}

// Makes a folder that only this user may enter, unless there is one.
fn make_folder<R: Files>(rt: &R, folder: &str) -> Result<(), ProgramFault>
    ensures { IfErr result IsOfListening }
{
    match DirBuilder::new().mode(0o700).create(rt, folder) {
        Ok(()) => Ok(()),
        Err(error) if error.kind() != ErrorKind::AlreadyExists => Err(fault_of(error)),
        Err(_) if is_own(rt, folder)? => Ok(()),
        Err(_) => Err(ProgramFault::Listen),
    }
}

// Returns whether this is a folder of this user that no other user may enter. The owner of
// `/proc/self` is this user.
fn is_own<R: Files>(rt: &R, folder: &str) -> Result<bool, ProgramFault>
    ensures { IfErr result IsOfListening }
{
    let about = fs::symlink_metadata(rt, folder).map_err(gone_or)?;
    let process = fs::metadata(rt, "/proc/self").map_err(fault_of)?;
    Ok(about.is_dir() && about.uid() == process.uid() && about.mode() & 0o777 == 0o700)
}

// Returns whether these are one file.
fn is_same(one: &Metadata, other: &Metadata) -> bool {
    one.dev() == other.dev() && one.ino() == other.ino()
}

// Removes a socket, if there is one at the path, and nothing else.
fn remove_socket<R: Files>(rt: &R, path: &str) {
    if let Ok(about) = fs::symlink_metadata(rt, path)
        && about.file_type().is_socket()
    {
        let _ = fs::remove_file(rt, path);
    }
}

// Fails with the fault of a system call that failed, unless its error is of this kind.
fn allow(kind: ErrorKind, error: io::Error) -> Result<(), ProgramFault>
    ensures { IfErr result IsOfListening }
{
    if error.kind() == kind {
        Ok(())
    } else {
        Err(fault_of(error))
    }
}

// Returns the fault of a system call on a room that failed. If the room is gone, another process
// had it.
fn gone_or(error: io::Error) -> ProgramFault
    ensures { IsOfListening result }
{
    match error.kind() {
        ErrorKind::NotFound => IN_USE,
        _ => fault_of(error),
    }
}

// Returns the fault of a system call that failed.
fn fault_of(error: io::Error) -> ProgramFault
    ensures { IsOfListening result }
{
    match error.kind() {
        ErrorKind::OutOfMemory => ProgramFault::NoMemory,
        _ => ProgramFault::Listen,
    }
}
