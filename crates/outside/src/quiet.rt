//! Objects in memory whose calls never fail, so that nothing but want of memory refuses one.
ghost use Rattle.outside.specs.Contents.{Files, IsFolder, CanJoin, AreNamesOf, AreShort, files_of, content};
ghost use Rattle.outside.specs.Memory.{Gathered};
ghost use Rattle.std.specs.Prelude.{◌≡◌, ◌<◌, ◌≤◌, ◌↔◌, ◌++◌, List, [], ℕ, length, map, take, min, find, Option, Some, IfOk, OnOk, OnErr, IsTrue, IsOkUnless};
ghost use Rattle.std.specs.Option.{option_map, option_copied};
ghost use Rattle.std.specs.Str.{bytes_eq};
ghost use Rattle.std.specs.String.{string_bytes};

use crate::traits::{Folder, Keeper, Lost, NAME_LIMIT, Sink};
use std::alloc::Global;
use std::marker::Model;

/// A folder in memory. Contracts see its files.
#[derive(Drop)]
pub struct QuietFolder {
    files: Vec<(String, Vec<u8>)>,
}

impl Model for QuietFolder {
    ghost Value = { Files };

    ghost view = { λ folder. files_of folder.files.items };

    ghost invariant = { λ folder. IsFolder (files_of folder.files.items) };
}

/// The first of the files that has this name.
fn file_named<'a>(files: &'a [(String, Vec<u8>)], name: &str) -> Option<&'a (String, Vec<u8>)>
    ensures { option_copied result
        ≡ find (λ file. bytes_eq (string_bytes file.0) name.now) files.now }
{
    files.iter().find(|file| file.0.as_str() == name)
}

/// Whether a file of this name can join these: its name is short enough, and none of them has it.
fn can_join(files: &[(String, Vec<u8>)], name: &str) -> bool
    ensures { IsTrue result ↔ CanJoin (files_of files.now) name.now }
{
    name.len() <= NAME_LIMIT && file_named(files, name).is_none()
}

/// Whether these files can stand in one folder: no name stands twice, and each has at most [`NAME_LIMIT`] bytes.
pub fn is_folder(files: &[(String, Vec<u8>)]) -> bool
    ensures { IsTrue result ↔ IsFolder (files_of files.now) }
{
    for place in 0..files.len() {
        if !can_join(&files[..place], files[place].0.as_str()) {
            return false;
        }
    }
    true
}

impl QuietFolder {
    /// The folder of these files.
    pub fn new(files: Vec<(String, Vec<u8>)>) -> QuietFolder
        requires { IsFolder (files_of files.items) }
        ensures files { result ≡ files_of files.items }
        ensures quiet { (folder : Files) → ⟦<QuietFolder as Folder>⟧.faults folder ≡ 0 }
    {
        QuietFolder { files }
    }
}

impl Folder for QuietFolder {
    ghost files = { λ folder. Some folder };

    ghost faults = { λ _. 0 };

    fn names(&mut self) -> Result<Vec<String>, Lost>
        ensures names { IfOk result (λ names. AreNamesOf self.old (map string_bytes names.items)) }
        ensures short { IfOk result (λ names. AreShort (map string_bytes names.items)) }
        ensures same { self.new ≡ self.old }
        ensures quiet { IsOkUnless result Lost.NoMemory }
    {
        let mut names = Vec::new(*self.files.allocator());
        for file in &self.files {
            names.push(file.0.clone()?)?;
        }
        Ok(names)
    }

    fn read(&mut self, name: &str) -> Result<Option<Vec<u8>>, Lost>
        ensures bytes { IfOk result (λ found.
            option_map (λ bytes. bytes.items) found ≡ content self.old name.now) }
        ensures same { self.new ≡ self.old }
        ensures quiet { IsOkUnless result Lost.NoMemory }
    {
        let Some((_, bytes)) = file_named(&self.files, name) else {
            return Ok(None);
        };
        Ok(Some(Vec::from_slice(*self.files.allocator(), bytes)?))
    }
}

/// A keeper in memory. Contracts see the kept bytes, if there are any.
#[derive(Drop)]
pub struct QuietKeeper {
    kept: Option<Vec<u8>>,
    alloc: Global,
}

impl Model for QuietKeeper {
    ghost Value = { Option (List ℕ) };

    ghost view = { λ keeper. option_map (λ bytes. bytes.items) keeper.kept };
}

impl QuietKeeper {
    /// The keeper of these bytes.
    pub fn new(alloc: Global, kept: Option<Vec<u8>>) -> QuietKeeper
        ensures kept { result ≡ option_map (λ bytes. bytes.items) kept }
        ensures quiet { (keeper : Option (List ℕ)) → (⟦<QuietKeeper as Keeper>⟧.load_faults keeper ≡ 0)
            × (⟦<QuietKeeper as Keeper>⟧.save_faults keeper ≡ 0) }
    {
        QuietKeeper { kept, alloc }
    }

    /// The bytes that it keeps.
    pub fn kept(&self) -> Option<&[u8]>
        ensures { option_copied result ≡ self.now }
    {
        self.kept.as_deref()
    }
}

impl Keeper for QuietKeeper {
    ghost kept = { λ keeper. Some keeper };

    ghost load_faults = { λ _. 0 };

    ghost save_faults = { λ _. 0 };

    fn load(&mut self) -> Result<Option<Vec<u8>>, Lost>
        ensures bytes { IfOk result (λ found. option_map (λ bytes. bytes.items) found ≡ self.old) }
        ensures same { self.new ≡ self.old }
        ensures quiet { IsOkUnless result Lost.NoMemory }
    {
        match &self.kept {
            Some(bytes) => Ok(Some(Vec::from_slice(self.alloc, bytes)?)),
            None => Ok(None),
        }
    }

    fn save(&mut self, bytes: &[u8]) -> Result<(), Lost>
        ensures ok { OnOk result (self.new ≡ Some bytes.now) }
        ensures err { OnErr result (self.new ≡ self.old) }
        ensures quiet { IsOkUnless result Lost.NoMemory }
    {
        self.kept = Some(Vec::from_slice(self.alloc, bytes)?);
        Ok(())
    }
}

/// A sink in memory, which takes a few bytes at a time. Contracts see what it took, and how many it takes at a time.
#[derive(Drop)]
pub struct QuietSink {
    written: Vec<u8>,
    step: usize,
}

impl Model for QuietSink {
    ghost Value = { Gathered };

    ghost view = { λ sink. record { written = sink.written.items; step = sink.step } };

    ghost invariant = { λ sink. 0 < sink.step };
}

impl QuietSink {
    /// An empty sink whose writes take at most `step` bytes each.
    pub fn new(alloc: Global, step: usize) -> QuietSink
        requires { 0 < step }
        ensures empty { result ≡ record { written = []; step = step } }
        ensures quiet { (sink : Gathered) → ⟦<QuietSink as Sink>⟧.faults sink ≡ 0 }
    {
        QuietSink {
            written: Vec::new(alloc),
            step,
        }
    }

    /// The bytes that were written.
    pub fn written(&self) -> &[u8]
        ensures { result.now ≡ self.now.written }
    {
        self.written.as_slice()
    }
}

impl Sink for QuietSink {
    ghost written = { λ sink. Some sink.written };

    ghost faults = { λ _. 0 };

    fn write(&mut self, piece: &[u8]) -> Result<usize, Lost>
        ensures count { IfOk result (λ count. count ≡ min (length piece.now) self.old.step) }
        ensures some { 0 < length piece.now → IfOk result (λ count. 0 < count) }
        ensures bytes { IfOk result (λ count.
            self.new ≡ record self.old { written = self.old.written ++ take count piece.now }) }
        ensures err { OnErr result (self.new ≡ self.old) }
        ensures quiet { IsOkUnless result Lost.NoMemory }
    {
        let count = piece.len().min(self.step);
        self.written.extend_from_slice(&piece[..count])?;
        Ok(count)
    }
}
