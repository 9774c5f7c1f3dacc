//! Files in memory that stop at one of their calls.

use sqlite::{Alter, Connection, FileStore, Files, Options};
use sqlite_disk::{Crash, Disk, Fuse, Memory};
use std::alloc::{AllocError, Global};
use tests_databases::{Part, makes};

/// A file that stops after so many calls.
pub(crate) type Stopping = Fuse<Memory>;

/// Where a process is stopped, and what is left then.
#[derive(Clone, Copy)]
pub(crate) struct Stop {
    /// Whether the log is stopped, and not the file.
    pub(crate) on_log: bool,
    /// After how many of its calls.
    pub(crate) calls: u64,
    /// Whether all that was not synced is lost, and not kept.
    pub(crate) is_lossy: bool,
}

/// What a file and its log hold.
#[derive(Drop)]
pub(crate) struct Images {
    log: Vec<u8>,
    db: Vec<u8>,
}

/// The log is copied into the file often, so that stops meet that too.
fn options() -> Options {
    Options {
        checkpoint_frames: 6,
        ..Options::new(7)
    }
}

/// A synced file of those bytes, which stops after so many calls.
fn file(alloc: Global, bytes: &[u8], calls: u64) -> Option<Stopping> {
    let mut file = Memory::new(alloc);
    if file.write_at(0, bytes).is_err() || file.sync().is_err() {
        return None;
    }
    Some(Fuse::new(file, calls))
}

/// How many calls are made of the file, where the log is the other.
fn calls_of(stop: Stop, is_log: bool) -> u64 {
    if stop.on_log == is_log {
        stop.calls
    } else {
        u64::MAX
    }
}

/// The files, which stop there.
pub(crate) fn stopping(alloc: Global, images: &Images, stop: Stop) -> Option<Files<Stopping>> {
    let log = file(alloc, &images.log, calls_of(stop, true))?;
    let db = file(alloc, &images.db, calls_of(stop, false))?;
    Some(Files { log, db })
}

/// What is left of a file, which stops no more.
fn left(alloc: Global, mut stopped: Stopping, is_lossy: bool) -> Option<Stopping> {
    if is_lossy {
        stopped.crash();
        return Some(stopped);
    }
    file(alloc, stopped.inner().bytes(), u64::MAX)
}

/// What is left of the files.
pub(crate) fn all_left(
    alloc: Global,
    files: Files<Stopping>,
    is_lossy: bool,
) -> Option<Files<Stopping>> {
    let Files { log, db } = files;
    let log = left(alloc, log, is_lossy)?;
    let db = left(alloc, db, is_lossy)?;
    Some(Files { log, db })
}

/// A connection to the files, or else the files.
pub(crate) fn connected(
    alloc: Global,
    files: Files<Stopping>,
) -> Result<Connection<FileStore<Stopping>>, Files<Stopping>> {
    if !files.may_be_used() {
        return Err(files);
    }
    match Connection::open_files(alloc, files, options()) {
        Ok(conn) => Ok(conn),
        Err((_, left)) => Err(left.into_files()),
    }
}

/// The bytes of the files.
fn copied(alloc: Global, files: &Files<Stopping>) -> Result<Images, AllocError> {
    Ok(Images {
        log: Vec::from_slice(alloc, files.log.inner().bytes())?,
        db: Vec::from_slice(alloc, files.db.inner().bytes())?,
    })
}

/// The store of the connection, over which the parts were made.
fn made_store<S: Alter + Drop>(mut conn: Connection<S>, parts: &[Part]) -> Option<S> {
    if makes(&mut conn, parts) {
        Some(conn.into_store())
    } else {
        None
    }
}

/// What the files of the connection hold, over which the parts were made.
fn images_with(
    alloc: Global,
    conn: Connection<FileStore<Stopping>>,
    parts: &[Part],
) -> Option<Images> {
    match made_store(conn, parts) {
        Some(store) => copied(alloc, &store.close()).ok(),
        None => None,
    }
}

/// New files, which do not stop.
fn new_files(alloc: Global) -> Option<Files<Stopping>> {
    let log = file(alloc, &[], u64::MAX)?;
    let db = file(alloc, &[], u64::MAX)?;
    Some(Files { log, db })
}

/// What files hold that the parts make: nothing, where there are none.
pub(crate) fn images_of(alloc: Global, parts: &[Part]) -> Option<Images> {
    if parts.is_empty() {
        return Some(Images {
            log: Vec::new(alloc),
            db: Vec::new(alloc),
        });
    }
    match connected(alloc, new_files(alloc)?) {
        Ok(conn) => images_with(alloc, conn, parts),
        Err(_) => None,
    }
}
