//! Loads the inputs, runs the page and its userscripts, and builds the report; nothing is written yet.

ghost use Rattle.door.specs.declared.limits.TheConstants.{MARK_LIMIT};
ghost use Rattle.outside.specs.Causes.{Rose};
ghost use Rattle.outside.specs.Contents.{content};
ghost use Rattle.page_host.specs.Address.{IsPlainAddress};
ghost use Rattle.page_host.specs.Faults.{IsRefusal, page_missing, status_of};
ghost use Rattle.page_host.specs.Loaded.{AreChosen, AreChosenOf, IsFolderFault, IsFormed, IsLoaded, IsOutput, IsRefusedAt};
ghost use Rattle.page_host.specs.Run.{IsRightOver};
ghost use Rattle.page_host.specs.Steps.{AreUnbuilt, IsRefused, file_steps, page_steps};
ghost use Rattle.page_host.specs.Words.{AreRead, IsRunCommand};
ghost use Rattle.small_forms.specs.Pages.{IsPage};
ghost use Rattle.std.specs.Prelude.{◌≡◌, ◌⊎◌, ◌≤◌, ◌↔◌, List, ℕ, false, Some, codes, map, IfErr, IfOk, IfSome, IsErrOf, OnOk};
ghost use Rattle.std.specs.String.{string_bytes};

use crate::address::is_plain_address;
use crate::faults::HostFault;
use crate::folder::{names_in, page_bytes};
use crate::names::{counted, has_events, script_names};
use crate::play::play;
use crate::report_text::report;
use crate::scripts::scripts_in;
use crate::words::{Command, read_words};
use base_text::Mem;
use dom_tree::NodeId;
use door::{DOCUMENT, Journal, USERSCRIPT_LIMIT};
use outside::Folder;
use page_text::print;
use small_forms::{Page, ScriptFile, page_in};
use std::alloc::Global;

/// What a run has made before it writes: its journal, and the bytes of the report.
#[derive(Drop)]
pub struct RunOutput {
    pub journal: Journal,
    pub report: Vec<u8>,
}

/// What a run reads of a folder.
#[derive(Drop)]
struct Loaded {
    page: Page,
    /// The userscripts, in byte order of their files' names.
    scripts: Vec<ScriptFile>,
}

/// The steps of a run but the last: it reads the words, loads the folder's files, runs the page and its
/// userscripts, and builds the report.
pub fn run<F: Folder>(
    alloc: Global,
    words: &[String],
    folder: &mut F,
) -> Result<RunOutput, HostFault>
    ensures right { IfOk result (λ output. IsRightOver (map string_bytes words.now) (F.files folder.old) output.journal.marks output.report.items) }
    ensures limit { IfOk result (λ output. output.journal.limit ≡ MARK_LIMIT) }
    ensures usage { IsErrOf result HostFault.Usage ↔ ¬ AreRead (map string_bytes words.now) }
    ensures unbuilt { AreUnbuilt (map string_bytes words.now) → IsErrOf result HostFault.NotYet }
    ensures refused { IfErr result (λ fault. IsRefusal fault → IfSome (F.files folder.old) (λ files. IsRefused (map string_bytes words.now) files fault)) }
    ensures same { F.files folder.new ≡ F.files folder.old }
    ensures later { F.faults folder.old ≤ F.faults folder.new }
    ensures failed { IsErrOf result HostFault.ReadFault → Rose (F.faults folder.old) (F.faults folder.new) }
    ensures steady { OnOk result (F.faults folder.new ≡ F.faults folder.old) }
    ensures memory { IsErrOf result HostFault.NoMemory → F.faults folder.new ≡ F.faults folder.old }
    ensures unwritten { IsErrOf result HostFault.WriteFault → ⊥ }
    ensures page { IfErr result (λ fault. status_of fault ≡ 3 → fault ≡ page_missing) }
{
    let address = address_in(words)?;
    let loaded = load(alloc, folder)?;
    Ok(run_and_report(alloc, address, &loaded)?)
}

/// The address of the command, where it is one that is read yet.
fn address_in(words: &[String]) -> Result<&str, HostFault>
    ensures ok { IfOk result (λ address. IsRunCommand (map string_bytes words.now) address.now false × IsPlainAddress address.now) }
    ensures usage { IsErrOf result HostFault.Usage ↔ ¬ AreRead (map string_bytes words.now) }
    ensures not_yet { IsErrOf result HostFault.NotYet → AreUnbuilt (map string_bytes words.now) }
    ensures other { IfErr result (λ e. (e ≡ HostFault.Usage) ⊎ (e ≡ HostFault.NotYet)) }
{
    match read_words(words) {
        None => Err(HostFault::Usage),
        Some(Command::Run { address, trace }) => {
            if !trace && is_plain_address(address) {
                Ok(address)
            } else {
                Err(HostFault::NotYet)
            }
        }
        Some(Command::Generate { .. }) => Err(HostFault::NotYet),
    }
}

/// Reads the folder: its names, the page, and each userscript in byte order.
fn load<F: Folder>(alloc: Global, folder: &mut F) -> Result<Loaded, HostFault>
    ensures told { IfOk result (λ loaded. IfSome (F.files folder.old) (λ files. IsLoaded files loaded)) }
    ensures forms { IfOk result (λ loaded. IsFormed loaded) }
    ensures refused { IfErr result (λ fault. IsRefusedAt (F.files folder.old) file_steps fault) }
    ensures same { F.files folder.new ≡ F.files folder.old }
    ensures later { F.faults folder.old ≤ F.faults folder.new }
    ensures failed { IsErrOf result HostFault.ReadFault → Rose (F.faults folder.old) (F.faults folder.new) }
    ensures steady { OnOk result (F.faults folder.new ≡ F.faults folder.old) }
    ensures memory { IsErrOf result HostFault.NoMemory → F.faults folder.new ≡ F.faults folder.old }
    ensures other { IfErr result IsFolderFault }
{
    let files = load_names(folder)?;
    let page = load_page(alloc, folder)?;
    let scripts = scripts_in(alloc, folder, files.as_slice())?;
    Ok(Loaded { page, scripts })
}

/// The names of the folder's userscripts, of which there aren't too many, where it has no list of events.
fn load_names<F: Folder>(folder: &mut F) -> Result<Vec<String>, HostFault>
    ensures told { IfOk result (λ v. IfSome (F.files folder.old) (λ files. AreChosenOf files (map string_bytes v.items))) }
    ensures forms { IfOk result (λ v. AreChosen (map string_bytes v.items)) }
    ensures refused { IfErr result (λ fault. IsRefusedAt (F.files folder.old) file_steps fault) }
    ensures same { F.files folder.new ≡ F.files folder.old }
    ensures later { F.faults folder.old ≤ F.faults folder.new }
    ensures failed { IsErrOf result HostFault.ReadFault → Rose (F.faults folder.old) (F.faults folder.new) }
    ensures steady { OnOk result (F.faults folder.new ≡ F.faults folder.old) }
    ensures memory { IsErrOf result HostFault.NoMemory → F.faults folder.new ≡ F.faults folder.old }
    ensures other { IfErr result IsFolderFault }
{
    let names = names_in(folder)?;
    let has_events = has_events(names.as_slice());
    let scripts = script_names(names);
    if scripts.as_slice().len() > USERSCRIPT_LIMIT {
        return Err(HostFault::TooManyScripts(counted(scripts.as_slice())));
    }
    if has_events {
        return Err(HostFault::NotYet);
    }
    Ok(scripts)
}

/// The page of the folder, where it is one of the form that is read yet.
fn load_page<F: Folder>(alloc: Global, folder: &mut F) -> Result<Page, HostFault>
    ensures told { IfOk result (λ page. IfSome (F.files folder.old) (λ files. (bytes : List ℕ) × (content files (codes "page.html") ≡ Some bytes) × IsPage bytes page)) }
    ensures form { IfOk result (λ page. (bytes : List ℕ) × IsPage bytes page) }
    ensures refused { IfErr result (λ fault. IsRefusedAt (F.files folder.old) page_steps fault) }
    ensures same { F.files folder.new ≡ F.files folder.old }
    ensures later { F.faults folder.old ≤ F.faults folder.new }
    ensures failed { IsErrOf result HostFault.ReadFault → Rose (F.faults folder.old) (F.faults folder.new) }
    ensures steady { OnOk result (F.faults folder.new ≡ F.faults folder.old) }
    ensures memory { IsErrOf result HostFault.NoMemory → F.faults folder.new ≡ F.faults folder.old }
    ensures other { IfErr result IsFolderFault }
{
    let bytes = page_bytes(folder)?;
    let Some(page) = page_in(alloc, bytes.as_slice())? else {
        return Err(HostFault::NotYet);
    };
    Ok(page)
}

/// Runs what was loaded, and builds the report.
fn run_and_report(alloc: Global, address: &str, loaded: &Loaded) -> Mem<RunOutput>
    requires address { IsPlainAddress address.now }
    requires forms { IsFormed loaded.now }
    ensures output { IfOk result (λ output. IsOutput address.now loaded.now output) }
    ensures limit { IfOk result (λ output. output.journal.limit ≡ MARK_LIMIT) }
{
    let played = play(alloc, &loaded.page, loaded.scripts.as_slice())?;
    let document = print(alloc, &played.tree, NodeId(DOCUMENT.number))?;
    let report = report(
        alloc,
        address,
        loaded.scripts.as_slice(),
        document.as_slice(),
        &played.journal,
    )?;
    Ok(RunOutput {
        journal: played.journal,
        report,
    })
}
