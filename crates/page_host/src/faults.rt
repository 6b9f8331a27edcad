//! Why a run ends without its report, and the line and the status that tell it.

ghost use Rattle.page_host.specs.Faults.{kind_name, line_of, status_of};
ghost use Rattle.std.specs.Prelude.{◌≡◌, IfOk};
ghost use Rattle.std.specs.String.{string_bytes};

use base_text::{Mem, NoMemory};
use page_text::{PageFault, PageKind};
use std::alloc::{AllocError, Global};

/// Why a run ends without its report.
#[derive(Clone, Copy, Debug, PartialEq, Eq)]
pub enum HostFault {
    /// The words of the command line don't read.
    Usage,
    /// `page.html` is missing or isn't a page.
    PageRefused(PageFault),
    /// There are more userscripts than a run may have: their number, or 2^32 - 1 where it is greater.
    TooManyScripts(u32),
    /// A call on the folder failed.
    ReadFault,
    /// A write of the report failed.
    WriteFault,
    /// No memory was found.
    NoMemory,
    /// The words or the files are of a form that isn't built yet.
    NotYet,
}

impl From<NoMemory> for HostFault {
    ghost use Rattle.page_host.specs.declared.faults.HostFault.TheVariants.{NoMemory};

    ghost from_gives = { λ _ e. e ≡ NoMemory };

    fn from(_error: NoMemory) -> HostFault {
        HostFault::NoMemory
    }
}

impl HostFault {
    /// The exit status of a run that ends with this fault.
    pub fn status(self) -> u8
        ensures { result ≡ status_of self }
    {
        match self {
            HostFault::Usage => 2,
            HostFault::PageRefused(_) => 3,
            HostFault::TooManyScripts(_) => 12,
            HostFault::ReadFault => 6,
            HostFault::WriteFault => 8,
            HostFault::NoMemory => 11,
            HostFault::NotYet => 14,
        }
    }
}

/// The word for what is wrong with a page.
fn kind_name(kind: PageKind) -> &'static str
    ensures { result.now ≡ kind_name kind }
{
    match kind {
        PageKind::Missing => "Missing",
        PageKind::NotUtf8 => "NotUtf8",
        PageKind::TooLong => "TooLong",
        PageKind::Unclosed => "Unclosed",
        PageKind::BadTag => "BadTag",
        PageKind::WrongEnd => "WrongEnd",
        PageKind::TooDeep => "TooDeep",
    }
}

fn page_line(alloc: Global, fault: PageFault) -> Result<String, AllocError>
    ensures { IfOk result (λ line. string_bytes line ≡ line_of (HostFault.PageRefused fault)) }
{
    let at = fault.at;
    let kind = kind_name(fault.kind);
    format!(in alloc; "page refused at {at}: {kind}")
}

fn scripts_line(alloc: Global, count: u32) -> Result<String, AllocError>
    ensures { IfOk result (λ line. string_bytes line ≡ line_of (HostFault.TooManyScripts count)) }
{
    format!(in alloc; "too many userscripts: {count}")
}

/// The line that tells a fault, without `pagehost: ` and LF.
pub fn fault_line(alloc: Global, fault: &HostFault) -> Mem<String>
    ensures { IfOk result (λ line. string_bytes line ≡ line_of fault.now) }
{
    let line = match *fault {
        HostFault::Usage => "usage: pagehost run ADDRESS [--trace] or gen N",
        HostFault::PageRefused(refused) => return Ok(page_line(alloc, refused)?),
        HostFault::TooManyScripts(count) => return Ok(scripts_line(alloc, count)?),
        HostFault::ReadFault => "read fault",
        HostFault::WriteFault => "write fault",
        HostFault::NoMemory => "no memory",
        HostFault::NotYet => "not built yet",
    };
    Ok(String::from_str(alloc, line)?)
}
