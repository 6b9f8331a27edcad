//! The three objects that the host knows of the outside, so that it runs over files or over memory alike.
ghost use Rattle.outside.specs.Causes.{HasCause};
ghost use Rattle.outside.specs.Contents.{Files, content, AreNamesOf, AreShort, Appends, AppendsProperPrefix, Keeps};
ghost use Rattle.std.specs.Prelude.{◌≡◌, ◌<◌, ◌≤◌, ◌⊎◌, List, ℕ, map, length, take, Option, IfOk, OnOk, OnErr, IsErrOf, IfSome};
ghost use Rattle.std.specs.Option.{option_map};
ghost use Rattle.std.specs.String.{string_bytes};

use std::alloc::{AllocError, AllocFailed};

/// The most bytes of a file's name, as many as a text may have.
pub const NAME_LIMIT: usize = 262_144;

/// Why a call on the outside was refused.
#[derive(Clone, Copy, Debug, PartialEq, Eq)]
pub enum Lost {
    /// The outside failed, and its count of faults rose.
    Failed,
    /// Memory was wanting, and the object is as before.
    NoMemory,
}

impl From<AllocError> for Lost {
    ghost use Rattle.outside.specs.declared.traits.Lost.TheVariants.{NoMemory};
    ghost use Rattle.std.specs.Prelude.{◌≡◌};

    ghost from_gives = { λ _ lost. lost ≡ NoMemory };

    fn from(_error: AllocError) -> Lost {
        Lost::NoMemory
    }
}

impl<T: Drop> From<AllocFailed<T>> for Lost {
    ghost use Rattle.outside.specs.declared.traits.Lost.TheVariants.{NoMemory};
    ghost use Rattle.std.specs.Prelude.{◌≡◌};

    ghost from_gives = { λ _ lost. lost ≡ NoMemory };

    fn from(_error: AllocFailed<T>) -> Lost {
        Lost::NoMemory
    }
}

/// A folder of files, each with a name and bytes.
pub trait Folder {
    /// The files, where the folder tells them.
    ghost files: { Self → Option Files };

    /// How many faults there were.
    ghost faults: { Self → ℕ };

    /// The name of each file, once, in any order. A name has at most [`NAME_LIMIT`] bytes.
    ///
    /// # Errors
    /// `Failed` for a fault of the listing, which is counted, and `NoMemory` where memory is wanting.
    fn names(&mut self) -> Result<Vec<String>, Lost>
        ensures names { IfOk result (λ names. IfSome (files self.old) (λ held.
            AreNamesOf held (map string_bytes names.items))) }
        ensures short { IfOk result (λ names. AreShort (map string_bytes names.items)) }
        ensures same { files self.new ≡ files self.old }
        ensures memory { IsErrOf result Lost.NoMemory → faults self.new ≡ faults self.old }
        ensures cause { HasCause (faults self.old) (faults self.new) result };

    /// The bytes of the file of this name, or `None` where there is no such file.
    ///
    /// # Errors
    /// `Failed` for a fault of the read, which is counted, and `NoMemory` where memory is wanting.
    fn read(&mut self, name: &str) -> Result<Option<Vec<u8>>, Lost>
        ensures bytes { IfOk result (λ found. IfSome (files self.old) (λ held.
            option_map (λ bytes. bytes.items) found ≡ content held name.now)) }
        ensures same { files self.new ≡ files self.old }
        ensures memory { IsErrOf result Lost.NoMemory → faults self.new ≡ faults self.old }
        ensures cause { HasCause (faults self.old) (faults self.new) result };
}

/// A place that keeps bytes from one run to the next.
pub trait Keeper {
    /// The kept bytes, if there are any, where the keeper tells them.
    ghost kept: { Self → Option (Option (List ℕ)) };

    /// How many faults of a load there were.
    ghost load_faults: { Self → ℕ };

    /// How many faults of a save there were.
    ghost save_faults: { Self → ℕ };

    /// The kept bytes, or `None` where nothing is kept.
    ///
    /// # Errors
    /// `Failed` for a fault of the load, which is counted, and `NoMemory` where memory is wanting.
    fn load(&mut self) -> Result<Option<Vec<u8>>, Lost>
        ensures bytes { IfOk result (λ found. IfSome (kept self.old) (λ held.
            option_map (λ bytes. bytes.items) found ≡ held)) }
        ensures same { kept self.new ≡ kept self.old }
        ensures other { save_faults self.new ≡ save_faults self.old }
        ensures memory { IsErrOf result Lost.NoMemory → load_faults self.new ≡ load_faults self.old }
        ensures cause { HasCause (load_faults self.old) (load_faults self.new) result };

    /// Keeps these bytes in place of those before.
    ///
    /// # Errors
    /// `Failed` for a fault of the save, which is counted: then the old bytes are kept or the new ones.
    /// `NoMemory` where memory is wanting: then the old bytes are kept.
    fn save(&mut self, bytes: &[u8]) -> Result<(), Lost>
        ensures ok { OnOk result (Keeps (kept self.old) (kept self.new) bytes.now) }
        ensures err { OnErr result
            ((kept self.new ≡ kept self.old) ⊎ Keeps (kept self.old) (kept self.new) bytes.now) }
        ensures other { load_faults self.new ≡ load_faults self.old }
        ensures memory { IsErrOf result Lost.NoMemory →
            (kept self.new ≡ kept self.old) × (save_faults self.new ≡ save_faults self.old) }
        ensures cause { HasCause (save_faults self.old) (save_faults self.new) result };
}

/// Where bytes are written, one piece after the other.
pub trait Sink {
    /// The bytes so far, where the sink tells them.
    ghost written: { Self → Option (List ℕ) };

    /// How many faults there were.
    ghost faults: { Self → ℕ };

    /// Takes the first bytes of the piece, and answers how many: at least one of a piece that isn't empty.
    ///
    /// # Errors
    /// `Failed` for a fault of the write, which is counted, and `NoMemory` where memory is wanting.
    /// Nothing of the piece was taken then.
    fn write(&mut self, piece: &[u8]) -> Result<usize, Lost>
        ensures at_most { IfOk result (λ count. count ≤ length piece.now) }
        ensures some { 0 < length piece.now → IfOk result (λ count. 0 < count) }
        ensures bytes { IfOk result (λ count.
            Appends (written self.old) (written self.new) (take count piece.now)) }
        ensures err { OnErr result (written self.new ≡ written self.old) }
        ensures memory { IsErrOf result Lost.NoMemory → faults self.new ≡ faults self.old }
        ensures cause { HasCause (faults self.old) (faults self.new) result };
}

/// Writes all the bytes, in as many writes as the sink takes them.
///
/// # Errors
/// The refusal of the first write that is refused. A proper prefix of the bytes was written by then.
pub fn write_all<S: Sink>(out: &mut S, bytes: &[u8]) -> Result<(), Lost>
    ensures ok { OnOk result (Appends (S.written out.old) (S.written out.new) bytes.now) }
    ensures err { OnErr result (AppendsProperPrefix (S.written out.old) (S.written out.new) bytes.now) }
    ensures memory { IsErrOf result Lost.NoMemory → S.faults out.new ≡ S.faults out.old }
    ensures cause { HasCause (S.faults out.old) (S.faults out.new) result }
{
    let mut at = 0;
    while at < bytes.len() {
        at += out.write(&bytes[at..])?;
    }
    Ok(())
}
