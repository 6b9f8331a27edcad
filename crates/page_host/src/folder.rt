//! Reads of the folder, whose faults become the run's: a failed call is a read fault, and a folder without a page is refused.

ghost use Rattle.outside.specs.Causes.{Rose};
ghost use Rattle.outside.specs.Contents.{AreNamesOf, content};
ghost use Rattle.page_host.specs.Faults.{page_missing};
ghost use Rattle.std.specs.Prelude.{◌≡◌, ◌⊎◌, ◌≤◌, None, Some, codes, map, IfErr, IfOk, IfSome, IsErrOf, OnOk};
ghost use Rattle.std.specs.Option.{option_map};
ghost use Rattle.std.specs.String.{string_bytes};

use crate::faults::HostFault;
use outside::{Folder, Lost};
use page_text::{PageFault, PageKind};

/// The names of the folder's files.
pub fn names_in<F: Folder>(folder: &mut F) -> Result<Vec<String>, HostFault>
    ensures names { IfOk result (λ v. IfSome (F.files folder.old) (λ files. AreNamesOf files (map string_bytes v.items))) }
    ensures same { F.files folder.new ≡ F.files folder.old }
    ensures later { F.faults folder.old ≤ F.faults folder.new }
    ensures failed { IsErrOf result HostFault.ReadFault → Rose (F.faults folder.old) (F.faults folder.new) }
    ensures steady { OnOk result (F.faults folder.new ≡ F.faults folder.old) }
    ensures memory { IsErrOf result HostFault.NoMemory → F.faults folder.new ≡ F.faults folder.old }
    ensures other { IfErr result (λ e. (e ≡ HostFault.ReadFault) ⊎ (e ≡ HostFault.NoMemory)) }
{
    match folder.names() {
        Ok(names) => Ok(names),
        Err(Lost::Failed) => Err(HostFault::ReadFault),
        Err(Lost::NoMemory) => Err(HostFault::NoMemory),
    }
}

/// The bytes of a file, if there is one.
pub fn read_file<F: Folder>(folder: &mut F, name: &str) -> Result<Option<Vec<u8>>, HostFault>
    ensures bytes { IfOk result (λ found. IfSome (F.files folder.old) (λ files. option_map (λ v. v.items) found ≡ content files name.now)) }
    ensures same { F.files folder.new ≡ F.files folder.old }
    ensures later { F.faults folder.old ≤ F.faults folder.new }
    ensures failed { IsErrOf result HostFault.ReadFault → Rose (F.faults folder.old) (F.faults folder.new) }
    ensures steady { OnOk result (F.faults folder.new ≡ F.faults folder.old) }
    ensures memory { IsErrOf result HostFault.NoMemory → F.faults folder.new ≡ F.faults folder.old }
    ensures other { IfErr result (λ e. (e ≡ HostFault.ReadFault) ⊎ (e ≡ HostFault.NoMemory)) }
{
    match folder.read(name) {
        Ok(found) => Ok(found),
        Err(Lost::Failed) => Err(HostFault::ReadFault),
        Err(Lost::NoMemory) => Err(HostFault::NoMemory),
    }
}

/// The bytes of `page.html`.
pub fn page_bytes<F: Folder>(folder: &mut F) -> Result<Vec<u8>, HostFault>
    ensures bytes { IfOk result (λ page. IfSome (F.files folder.old) (λ files. content files (codes "page.html") ≡ Some page.items)) }
    ensures missing { IsErrOf result page_missing → IfSome (F.files folder.old) (λ files. content files (codes "page.html") ≡ None) }
    ensures same { F.files folder.new ≡ F.files folder.old }
    ensures later { F.faults folder.old ≤ F.faults folder.new }
    ensures failed { IsErrOf result HostFault.ReadFault → Rose (F.faults folder.old) (F.faults folder.new) }
    ensures steady { OnOk result (F.faults folder.new ≡ F.faults folder.old) }
    ensures memory { IsErrOf result HostFault.NoMemory → F.faults folder.new ≡ F.faults folder.old }
    ensures other { IfErr result (λ e. (e ≡ HostFault.ReadFault) ⊎ (e ≡ HostFault.NoMemory) ⊎ (e ≡ page_missing)) }
{
    match read_file(folder, "page.html")? {
        Some(page) => Ok(page),
        None => Err(HostFault::PageRefused(PageFault {
            at: 0,
            kind: PageKind::Missing,
        })),
    }
}
