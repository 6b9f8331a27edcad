//! Objects in memory of whose calls some fail, so that a test can try each fault of the outside.
ghost use Rattle.outside.specs.Calls.{FailsNext, after_call};
ghost use Rattle.outside.specs.Causes.{HasCause, faults_after};
ghost use Rattle.outside.specs.Contents.{IsFolder, AreNamesOf, AreShort, files_of, content};
ghost use Rattle.outside.specs.Memory.{Gathered, FailingFolder, FailingKeeper, FailingSink};
ghost use Rattle.std.specs.Prelude.{◌≡◌, ◌<◌, ◌↔◌, ◌++◌, [], length, map, take, min, Some, IfOk, OnOk, OnErr, IsErrOf};
ghost use Rattle.std.specs.Option.{option_map, option_copied};
ghost use Rattle.std.specs.String.{string_bytes};

use crate::calls::Calls;
use crate::faults::Faults;
use crate::quiet::{QuietFolder, QuietKeeper, QuietSink};
use crate::traits::{Folder, Keeper, Lost, Sink};
use std::alloc::Global;
use std::marker::Model;

/// A folder in memory, of whose calls the listed ones fail. A failed call changes nothing but the counts.
#[derive(Drop)]
pub struct MemoryFolder {
    folder: QuietFolder,
    calls: Calls,
    faults: Faults,
}

impl Model for MemoryFolder {
    ghost Value = { FailingFolder };

    ghost view = { λ memory. record { files = memory.folder; plan = memory.calls; faults = memory.faults } };
}

impl MemoryFolder {
    /// The folder of these files. `failing` lists the calls that fail, counted from 1.
    pub fn new(files: Vec<(String, Vec<u8>)>, failing: Vec<u32>) -> MemoryFolder
        requires { IsFolder (files_of files.items) }
        ensures { result ≡ record {
          files = files_of files.items;
          plan = record { made = 0; failing = failing.items };
          faults = 0;
        } }
    {
        MemoryFolder {
            folder: QuietFolder::new(files),
            calls: Calls::new(failing),
            faults: Faults::new(),
        }
    }
}

impl Folder for MemoryFolder {
    ghost files = { λ memory. Some memory.files };

    ghost faults = { λ memory. memory.faults };

    fn names(&mut self) -> Result<Vec<String>, Lost>
        ensures names { IfOk result (λ names. AreNamesOf self.old.files (map string_bytes names.items)) }
        ensures short { IfOk result (λ names. AreShort (map string_bytes names.items)) }
        ensures failed { IsErrOf result Lost.Failed ↔ FailsNext self.old.plan }
        ensures state { self.new ≡ record self.old {
          plan = after_call self.old.plan;
          faults = faults_after self.old.faults result;
        } }
        ensures cause { HasCause self.old.faults self.new.faults result }
    {
        if self.calls.next_fails() {
            return Err(self.faults.failed());
        }
        self.folder.names()
    }

    fn read(&mut self, name: &str) -> Result<Option<Vec<u8>>, Lost>
        ensures bytes { IfOk result (λ found.
            option_map (λ bytes. bytes.items) found ≡ content self.old.files name.now) }
        ensures failed { IsErrOf result Lost.Failed ↔ FailsNext self.old.plan }
        ensures state { self.new ≡ record self.old {
          plan = after_call self.old.plan;
          faults = faults_after self.old.faults result;
        } }
        ensures cause { HasCause self.old.faults self.new.faults result }
    {
        if self.calls.next_fails() {
            return Err(self.faults.failed());
        }
        self.folder.read(name)
    }
}

/// A keeper in memory, of whose calls the listed ones fail. A failed call changes nothing but the counts.
#[derive(Drop)]
pub struct MemoryKeeper {
    keeper: QuietKeeper,
    calls: Calls,
    load_faults: Faults,
    save_faults: Faults,
}

impl Model for MemoryKeeper {
    ghost Value = { FailingKeeper };

    ghost view = { λ memory. record {
      kept = memory.keeper;
      plan = memory.calls;
      load_faults = memory.load_faults;
      save_faults = memory.save_faults;
    } };
}

impl MemoryKeeper {
    /// The keeper of these bytes. `failing` lists the calls that fail, counted from 1.
    pub fn new(alloc: Global, kept: Option<Vec<u8>>, failing: Vec<u32>) -> MemoryKeeper
        ensures { result ≡ record {
          kept = option_map (λ bytes. bytes.items) kept;
          plan = record { made = 0; failing = failing.items };
          load_faults = 0;
          save_faults = 0;
        } }
    {
        MemoryKeeper {
            keeper: QuietKeeper::new(alloc, kept),
            calls: Calls::new(failing),
            load_faults: Faults::new(),
            save_faults: Faults::new(),
        }
    }

    /// The bytes that it keeps.
    pub fn kept(&self) -> Option<&[u8]>
        ensures { option_copied result ≡ self.now.kept }
    {
        self.keeper.kept()
    }
}

impl Keeper for MemoryKeeper {
    ghost kept = { λ memory. Some memory.kept };

    ghost load_faults = { λ memory. memory.load_faults };

    ghost save_faults = { λ memory. memory.save_faults };

    fn load(&mut self) -> Result<Option<Vec<u8>>, Lost>
        ensures bytes { IfOk result (λ found. option_map (λ bytes. bytes.items) found ≡ self.old.kept) }
        ensures failed { IsErrOf result Lost.Failed ↔ FailsNext self.old.plan }
        ensures state { self.new ≡ record self.old {
          plan = after_call self.old.plan;
          load_faults = faults_after self.old.load_faults result;
        } }
        ensures cause { HasCause self.old.load_faults self.new.load_faults result }
    {
        if self.calls.next_fails() {
            return Err(self.load_faults.failed());
        }
        self.keeper.load()
    }

    fn save(&mut self, bytes: &[u8]) -> Result<(), Lost>
        ensures ok { OnOk result (self.new.kept ≡ Some bytes.now) }
        ensures err { OnErr result (self.new.kept ≡ self.old.kept) }
        ensures failed { IsErrOf result Lost.Failed ↔ FailsNext self.old.plan }
        ensures state { self.new ≡ record self.old {
          kept = self.new.kept;
          plan = after_call self.old.plan;
          save_faults = faults_after self.old.save_faults result;
        } }
        ensures cause { HasCause self.old.save_faults self.new.save_faults result }
    {
        if self.calls.next_fails() {
            return Err(self.save_faults.failed());
        }
        self.keeper.save(bytes)
    }
}

/// A sink in memory, which takes a few bytes at a time, and of whose calls the listed ones fail.
/// A failed call changes nothing but the counts.
#[derive(Drop)]
pub struct MemorySink {
    sink: QuietSink,
    calls: Calls,
    faults: Faults,
}

impl Model for MemorySink {
    ghost Value = { FailingSink };

    ghost view = { λ memory. record { sink = memory.sink; plan = memory.calls; faults = memory.faults } };
}

impl MemorySink {
    /// An empty sink whose writes take at most `step` bytes each. `failing` lists the calls that fail, counted from 1.
    pub fn new(alloc: Global, step: usize, failing: Vec<u32>) -> MemorySink
        requires { 0 < step }
        ensures { result ≡ record {
          sink = record { written = []; step = step };
          plan = record { made = 0; failing = failing.items };
          faults = 0;
        } }
    {
        MemorySink {
            sink: QuietSink::new(alloc, step),
            calls: Calls::new(failing),
            faults: Faults::new(),
        }
    }

    /// The bytes that were written.
    pub fn written(&self) -> &[u8]
        ensures { result.now ≡ self.now.sink.written }
    {
        self.sink.written()
    }
}

impl Sink for MemorySink {
    ghost written = { λ memory. Some memory.sink.written };

    ghost faults = { λ memory. memory.faults };

    fn write(&mut self, piece: &[u8]) -> Result<usize, Lost>
        ensures count { IfOk result (λ count. count ≡ min (length piece.now) self.old.sink.step) }
        ensures some { 0 < length piece.now → IfOk result (λ count. 0 < count) }
        ensures bytes { IfOk result (λ count. self.new.sink
            ≡ record self.old.sink { written = self.old.sink.written ++ take count piece.now }) }
        ensures err { OnErr result (self.new.sink ≡ self.old.sink) }
        ensures failed { IsErrOf result Lost.Failed ↔ FailsNext self.old.plan }
        ensures state { self.new ≡ record self.old {
          sink = self.new.sink;
          plan = after_call self.old.plan;
          faults = faults_after self.old.faults result;
        } }
        ensures cause { HasCause self.old.faults self.new.faults result }
    {
        if self.calls.next_fails() {
            return Err(self.faults.failed());
        }
        self.sink.write(piece)
    }
}
