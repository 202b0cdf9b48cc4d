//! The site of the program: a file of the current folder, and standard output.
ghost use Rattle.std.specs.Prelude.{◌≡◌, ◌≤◌, ◌+◌, ◌-◌, ◌^◌, [], length, IfOk, Ok, false};
ghost use Rattle.site_disk.specs.Causes.{HasCause};
ghost use Rattle.site_disk.specs.Silent.{silent, silent_is_now};

use crate::handle::{Handle, MAX_LEN};
use crate::parts::{TakesParts, read_whole, write_whole};
use crate::site::Site;
use crate::source::Failed;
use std::fs::OpenOptions;
use std::io::{self, ErrorKind, Write};

/// The name of the file, in the current folder.
const NAME: &str = "warehouse.idb";

/// Why a call on the site of the program failed.
#[derive(Clone, Copy, Debug)]
pub enum SiteError {
    /// Standard output is closed, or didn't take what was said.
    Output(io::Error),
    /// The file could not be opened, read, written or synced.
    File(io::Error),
    /// Another program has the file open as its store.
    Locked,
}

/// The file, as far as the site has looked. Where it saw none, it opens none that comes to be
/// later, since callers rest on what they were told.
#[derive(Drop)]
enum Store {
    Unseen,
    Missing,
    Open(Handle),
}

/// The file `warehouse.idb` of the current folder, and standard output. It tells nothing of
/// content.
///
/// The file is opened by the first call that asks for it, and not where standard output is closed.
/// It stays locked against a second program until the site is dropped.
#[derive(Drop)]
pub struct FileSite {
    rt: HostRuntime,
    store: Store,
    /// Whether the folder was synced since the file was opened, so that the file's name is kept
    /// too.
    is_named: bool,
    faults: u64,
    last: Option<SiteError>,
}

/// Counts a fault where the answer is an error, and keeps it.
pub(crate) fn counted<T: Drop, E: Drop>(
    answer: Result<T, E>,
    faults: &mut u64,
    last: &mut Option<E>,
) -> Result<T, Failed>
    ensures cause { HasCause faults.old faults.new result }
    ensures value { IfOk result (λ x. answer ≡ Ok x) }
{
    match answer {
        Ok(value) => Ok(value),
        Err(error) => {
            *faults = faults.saturating_add(1);
            *last = Some(error);
            Err(Failed)
        }
    }
}

/// An error of a call on the file.
impl From<io::Error> for SiteError {
    fn from(error: io::Error) -> SiteError {
        if error.kind() == ErrorKind::WouldBlock {
            return SiteError::Locked;
        }
        SiteError::File(error)
    }
}

/// Opens the file and locks it.
fn open_locked(rt: &HostRuntime, is_new: bool) -> io::Result<Handle> {
    let mut how = OpenOptions::new();
    how.read(true).write(true).create_new(is_new);
    let file = Handle::open(rt, &how, NAME)?;
    file.lock()?;
    Ok(file)
}

/// The file, where there is one.
fn open_old(rt: &HostRuntime) -> io::Result<Store> {
    match open_locked(rt, false) {
        Ok(file) => Ok(Store::Open(file)),
        Err(error) if error.kind() == ErrorKind::NotFound => Ok(Store::Missing),
        Err(error) => Err(error),
    }
}

/// Fails where standard output isn't open for writing: an empty write says nothing.
fn try_output(rt: &HostRuntime) -> Result<(), SiteError> {
    match io::writer(rt).write(&[]) {
        Ok(_) => Ok(()),
        Err(error) => Err(SiteError::Output(error)),
    }
}

/// Opens the file where there is one.
fn look(rt: &HostRuntime, store: &mut Store) -> Result<(), SiteError> {
    if let Store::Unseen = store {
        try_output(rt)?;
        *store = open_old(rt)?;
    }
    Ok(())
}

fn length(rt: &HostRuntime, store: &mut Store) -> Result<u64, SiteError>
    ensures { IfOk result (λ n. n ≤ 2 ^ 63 - 1) }
{
    look(rt, store)?;
    match store {
        Store::Open(file) => Ok(file.length()?),
        _ => Ok(0),
    }
}

/// Fills a piece. Nothing stands at an offset that no file reaches.
fn fill(rt: &HostRuntime, store: &mut Store, at: u64, into: &mut [u8]) -> Result<(), SiteError> {
    look(rt, store)?;
    match store {
        Store::Open(file) if at <= MAX_LEN => read_whole(file, at, into)?,
        _ => into.fill(0),
    }
    Ok(())
}

/// Writes, and makes the file where there is none.
fn put(rt: &HostRuntime, store: &mut Store, at: u64, bytes: &[u8]) -> Result<(), SiteError>
    requires { at + length bytes.now ≤ 2 ^ 63 - 1 }
{
    if bytes.is_empty() {
        return Ok(());
    }
    look(rt, store)?;
    if let Store::Missing = store {
        *store = Store::Open(open_locked(rt, true)?);
    }
    match store {
        Store::Open(file) => Ok(write_whole(file, at, bytes)?),
        _ => Err(SiteError::File(ErrorKind::NotFound.into())),
    }
}

/// Reaches the disk with the names in the current folder.
fn sync_folder(rt: &HostRuntime) -> io::Result<()> {
    let mut how = OpenOptions::new();
    how.read(true);
    Handle::open(rt, &how, ".")?.sync()
}

/// Reaches the disk with the data, the length, and once with the file's name.
fn settle(rt: &HostRuntime, store: &mut Store, is_named: &mut bool) -> Result<(), SiteError> {
    look(rt, store)?;
    if let Store::Open(file) = store {
        file.sync()?;
        if !*is_named {
            sync_folder(rt)?;
            *is_named = true;
        }
    }
    Ok(())
}

/// Standard output. It takes bytes in the order of the calls, whatever their offset.
#[derive(Drop)]
struct Output {
    rt: HostRuntime,
}

impl TakesParts for Output {
    ghost tells = { false };

    ghost held = { λ _. [] };

    fn write_part(&mut self, _at: u64, bytes: &[u8]) -> io::Result<usize> {
        io::writer(&self.rt).write(bytes)
    }
}

/// Says all of a piece.
fn say_whole(rt: &HostRuntime, bytes: &[u8]) -> Result<(), SiteError> {
    let mut output = Output { rt: *rt };
    match write_whole(&mut output, 0, bytes) {
        Ok(()) => Ok(()),
        Err(error) => Err(SiteError::Output(error)),
    }
}

impl FileSite {
    /// Opens nothing and makes nothing yet.
    pub fn new(rt: &HostRuntime) -> FileSite
        ensures { result.faults ≡ 0 }
    {
        FileSite {
            rt: *rt,
            store: Store::Unseen,
            is_named: false,
            faults: 0,
            last: None,
        }
    }

    /// Why the last call that failed did so.
    pub fn last_error(&self) -> Option<SiteError> {
        self.last
    }
}

impl Site for FileSite {
    ghost tells = { false };

    ghost state = { λ _. silent };

    ghost faults = { λ f. f.faults };

    ghost is_now = { λ f told. silent_is_now told };

    fn len(&mut self) -> Result<u64, Failed> {
        let answer = length(&self.rt, &mut self.store);
        counted(answer, &mut self.faults, &mut self.last)
    }

    fn read(&mut self, at: u64, into: &mut [u8]) -> Result<(), Failed> {
        let answer = fill(&self.rt, &mut self.store, at, into);
        counted(answer, &mut self.faults, &mut self.last)
    }

    fn write_at(&mut self, at: u64, bytes: &[u8]) -> Result<(), Failed> {
        let answer = put(&self.rt, &mut self.store, at, bytes);
        counted(answer, &mut self.faults, &mut self.last)
    }

    fn sync(&mut self) -> Result<(), Failed> {
        let answer = settle(&self.rt, &mut self.store, &mut self.is_named);
        counted(answer, &mut self.faults, &mut self.last)
    }

    fn say(&mut self, bytes: &[u8]) -> Result<(), Failed> {
        let answer = say_whole(&self.rt, bytes);
        counted(answer, &mut self.faults, &mut self.last)
    }
}
