//! The objects of the outside over the runtime, which no contract can know the content of.
ghost use Rattle.outside.specs.Causes.{HasCause, faults_after};
ghost use Rattle.outside.specs.Contents.{AreShort};
ghost use Rattle.outside.specs.Host.{KeeperFaults};
ghost use Rattle.std.specs.Prelude.{◌≡◌, ◌<◌, ◌≤◌, ◌^◌, ℕ, None, length, map, vec_len, IfOk, IfSome};
ghost use Rattle.std.specs.String.{string_bytes};

use crate::faults::Faults;
use crate::traits::{Folder, Keeper, Lost, NAME_LIMIT, Sink};
use std::fs::{File, Metadata, OpenFile};
use std::io::{ErrorKind, Read, Write};
use std::marker::Model;
use std::path::AsPath;
use std::rt::Files;
use std::{fs, io};

/// The most bytes of a file that [`HostFolder`] reads: 64 MiB.
pub const FILE_LIMIT: u64 = 67_108_864;

/// The most bytes that [`HostKeeper`] loads: 1 GiB.
pub const STORE_LIMIT: u64 = 1_073_741_824;

const STORE: &str = "store.json";

const NEW_STORE: &str = "store.json.new";

/// The metadata of the plain file that a path leads to, also by links, or `None` where it leads to none.
fn file_metadata<R: Files, P: AsPath>(rt: &R, path: P) -> io::Result<Option<Metadata>> {
    match fs::metadata(rt, path) {
        Ok(metadata) if metadata.is_file() => Ok(Some(metadata)),
        Ok(_) => Ok(None),
        Err(e) if leads_nowhere(e.kind()) => Ok(None),
        Err(e) => Err(e),
    }
}

fn leads_nowhere(kind: ErrorKind) -> bool {
    matches!(
        kind,
        ErrorKind::NotFound | ErrorKind::NotADirectory | ErrorKind::FilesystemLoop
    )
}

/// The bytes of the plain file at a path, or `None` where there is none. One of over `limit` bytes is an error.
fn read_file<R: Files + AllocGlobal>(rt: &R, path: &str, limit: u64) -> io::Result<Option<Vec<u8>>>
    requires { limit < 2 ^ 63 }
    ensures { IfOk result (λ found. IfSome found (λ bytes. vec_len bytes ≤ limit)) }
{
    let Some(metadata) = file_metadata(rt, path)? else {
        return Ok(None);
    };
    let mut bytes = Vec::new(rt.alloc());
    if metadata.len() <= limit {
        // One byte more shows a file that has grown since.
        File::open(rt, path)?
            .take(limit + 1)
            .read_to_end(&mut bytes)?;
        if bytes.len() as u64 <= limit {
            return Ok(Some(bytes));
        }
    }
    Err(io::Error::from(ErrorKind::FileTooLarge))
}

/// The names of the files in the current folder.
fn list_names<R: Files + AllocGlobal + Clone + Drop>(rt: &R) -> io::Result<Vec<String>>
    ensures { IfOk result (λ names. AreShort (map string_bytes names.items)) }
{
    let mut names = Vec::new(rt.alloc());
    for entry in fs::read_dir(rt, ".")? {
        let entry = entry?;
        let name = entry.file_name();
        if name.len() > NAME_LIMIT {
            return Err(io::Error::from(ErrorKind::InvalidFilename));
        }
        if file_metadata(rt, entry.path())?.is_none() {
            continue;
        }
        names.push(String::from_str(rt.alloc(), name)?)?;
    }
    Ok(names)
}

/// The current folder. Its files are the plain files in it and the links to plain files.
/// Contracts see how many faults there were.
#[derive(Drop)]
pub struct HostFolder<R> {
    rt: R,
    faults: Faults,
}

impl<R> Model for HostFolder<R> {
    ghost Value = { ℕ };

    ghost view = { λ folder. folder.faults };
}

impl<R> HostFolder<R> {
    /// The current folder of this runtime.
    pub fn new(rt: R) -> HostFolder<R>
        ensures { result ≡ 0 }
    {
        HostFolder {
            rt,
            faults: Faults::new(),
        }
    }
}

impl<R: Files + AllocGlobal + Clone + Drop> Folder for HostFolder<R> {
    ghost files = { λ _. None };

    ghost faults = { λ folder. folder };

    fn names(&mut self) -> Result<Vec<String>, Lost>
        ensures short { IfOk result (λ names. AreShort (map string_bytes names.items)) }
        ensures count { self.new ≡ faults_after self.old result }
        ensures cause { HasCause self.old self.new result }
    {
        match list_names(&self.rt) {
            Ok(names) => Ok(names),
            Err(e) => Err(self.faults.lost(&e)),
        }
    }

    /// A file of over [`FILE_LIMIT`] bytes is a fault.
    fn read(&mut self, name: &str) -> Result<Option<Vec<u8>>, Lost>
        ensures limit { IfOk result (λ found. IfSome found (λ bytes. vec_len bytes ≤ FILE_LIMIT)) }
        ensures count { self.new ≡ faults_after self.old result }
        ensures cause { HasCause self.old self.new result }
    {
        // Such a name would lead out of the folder, and no file can have it.
        if name.contains('/') {
            return Ok(None);
        }
        match read_file(&self.rt, name, FILE_LIMIT) {
            Ok(found) => Ok(found),
            Err(e) => Err(self.faults.lost(&e)),
        }
    }
}

/// The file `store.json` in the current folder. Contracts see how many faults there were.
#[derive(Drop)]
pub struct HostKeeper<R> {
    rt: R,
    load_faults: Faults,
    save_faults: Faults,
}

impl<R> Model for HostKeeper<R> {
    ghost Value = { KeeperFaults };

    ghost view = { λ keeper. record {
      load_faults = keeper.load_faults;
      save_faults = keeper.save_faults;
    } };
}

impl<R> HostKeeper<R> {
    /// The keeper in the current folder of this runtime.
    pub fn new(rt: R) -> HostKeeper<R>
        ensures { result ≡ record { load_faults = 0; save_faults = 0 } }
    {
        HostKeeper {
            rt,
            load_faults: Faults::new(),
            save_faults: Faults::new(),
        }
    }
}

/// Writes the bytes to a second file, and then renames it, so that a crash leaves the old bytes or the new ones.
/// A save that fails may leave the second file, which the next one removes.
fn replace_store<R: Files>(rt: &R, bytes: &[u8]) -> io::Result<()> {
    match fs::remove_file(rt, NEW_STORE) {
        Ok(()) => {}
        Err(e) if e.kind() == ErrorKind::NotFound => {}
        Err(e) => return Err(e),
    }
    let mut file = File::create_new(rt, NEW_STORE)?;
    file.write_all(bytes)?;
    file.sync_all()?;
    fs::rename(rt, NEW_STORE, STORE)
}

impl<R: Files + AllocGlobal> Keeper for HostKeeper<R> {
    ghost kept = { λ _. None };

    ghost load_faults = { λ keeper. keeper.load_faults };

    ghost save_faults = { λ keeper. keeper.save_faults };

    /// A store of over [`STORE_LIMIT`] bytes is a fault.
    fn load(&mut self) -> Result<Option<Vec<u8>>, Lost>
        ensures limit { IfOk result (λ found. IfSome found (λ bytes. vec_len bytes ≤ STORE_LIMIT)) }
        ensures count { self.new ≡ record self.old { load_faults = faults_after self.old.load_faults result } }
        ensures cause { HasCause self.old.load_faults self.new.load_faults result }
    {
        match read_file(&self.rt, STORE, STORE_LIMIT) {
            Ok(found) => Ok(found),
            Err(e) => Err(self.load_faults.lost(&e)),
        }
    }

    fn save(&mut self, bytes: &[u8]) -> Result<(), Lost>
        ensures count { self.new ≡ record self.old { save_faults = faults_after self.old.save_faults result } }
        ensures cause { HasCause self.old.save_faults self.new.save_faults result }
    {
        match replace_store(&self.rt, bytes) {
            Ok(()) => Ok(()),
            Err(e) => Err(self.save_faults.lost(&e)),
        }
    }
}

/// Standard output. Contracts see how many faults there were.
#[derive(Drop)]
pub struct HostSink<R> {
    rt: R,
    faults: Faults,
}

impl<R> Model for HostSink<R> {
    ghost Value = { ℕ };

    ghost view = { λ sink. sink.faults };
}

impl<R> HostSink<R> {
    /// The standard output of this runtime.
    pub fn new(rt: R) -> HostSink<R>
        ensures { result ≡ 0 }
    {
        HostSink {
            rt,
            faults: Faults::new(),
        }
    }
}

impl<R: Print> Sink for HostSink<R> {
    ghost written = { λ _. None };

    ghost faults = { λ sink. sink };

    /// A write that takes nothing of a piece that isn't empty is a fault.
    fn write(&mut self, piece: &[u8]) -> Result<usize, Lost>
        ensures at_most { IfOk result (λ count. count ≤ length piece.now) }
        ensures some { 0 < length piece.now → IfOk result (λ count. 0 < count) }
        ensures count { self.new ≡ faults_after self.old result }
        ensures cause { HasCause self.old self.new result }
    {
        if piece.is_empty() {
            return Ok(0);
        }
        match io::writer(&self.rt).write(piece) {
            Ok(count) if count > 0 => Ok(count),
            _ => Err(self.faults.failed()),
        }
    }
}
