//! Reads the page and the userscripts of the current folder, runs them, and prints the report.
#![tactic(auto)]

ghost use Rattle.page_host.specs.Faults.{line_of};
ghost use Rattle.page_host.specs.declared.faults.HostFault.TheVariants.{NoMemory as MemoryFault, Usage};
ghost use Rattle.std.specs.Process.{exit_status};
ghost use Rattle.std.specs.Prelude.{◌≡◌, ◌≢◌, ◌++◌, ◌∷◌, [], codes, IfOk};
ghost use Rattle.std.specs.String.{string_bytes};

use base_text::Mem;
use outside::{HostFolder, HostKeeper, HostSink};
use page_host::{Ended, HostFault, fault_line, host_run};
use std::alloc::Global;
use std::env::Env;
use std::io::ErrorKind;
use std::process::ExitCode;
use std::{env, io};

/// The words of the command line, without the program's name.
fn words_of<R: Env + AllocGlobal>(rt: &R) -> io::Result<Vec<String>> {
    let mut words = Vec::new(rt.alloc());
    for word in env::args(rt)?.skip(1) {
        words.push(word)?;
    }
    Ok(words)
}

/// What is wrong where the words can't be had: no memory, or a word that isn't UTF-8.
fn words_fault(kind: ErrorKind) -> HostFault
    ensures memory { kind ≡ ErrorKind.OutOfMemory → result ≡ MemoryFault }
    ensures usage { kind ≢ ErrorKind.OutOfMemory → result ≡ Usage }
{
    match kind {
        ErrorKind::OutOfMemory => HostFault::NoMemory,
        _ => HostFault::Usage,
    }
}

/// What is printed of a fault.
fn fault_text(alloc: Global, fault: &HostFault) -> Mem<String>
    ensures { IfOk result (λ text. string_bytes text ≡ codes "pagehost: " ++ (line_of fault.now ++ 10 ∷ [])) }
{
    let line = fault_line(alloc, fault)?;
    Ok(format!(in alloc; "pagehost: {line}\n")?)
}

/// Prints a fault to standard error. Where its line finds no memory, it is left out.
fn tell<R: Eprint>(rt: &R, alloc: Global, fault: &HostFault) {
    let _ = match fault_text(alloc, fault) {
        Ok(text) => eprint!(rt; "{text}"),
        Err(_) => eprintln!(rt; "pagehost: "),
    };
}

fn exit_code(ended: &Ended) -> ExitCode
    ensures { exit_status result ≡ ended.now.status }
{
    ExitCode::from(ended.status)
}

fn main(rt: HostRuntime) -> ExitCode {
    let alloc = rt.alloc();
    let words = match words_of(&rt) {
        Ok(words) => words,
        Err(e) => {
            let fault = words_fault(e.kind());
            if fault != HostFault::NoMemory {
                tell(&rt, alloc, &fault);
            }
            return ExitCode::from(fault.status());
        }
    };
    let (for_folder, for_keeper, for_sink): (Result<_, _>, Result<_, _>, Result<_, _>) = (
        rt.clone(),
        rt.clone(),
        rt.clone(),
    );
    let (Ok(for_folder), Ok(for_keeper), Ok(for_sink)) = (for_folder, for_keeper, for_sink) else {
        return ExitCode::from(HostFault::NoMemory.status());
    };
    let mut folder = HostFolder::new(for_folder);
    let mut keeper = HostKeeper::new(for_keeper);
    let mut sink = HostSink::new(for_sink);
    let ended = host_run(alloc, words.as_slice(), &mut folder, &mut keeper, &mut sink);
    if let Some(fault) = &ended.fault {
        tell(&rt, alloc, fault);
    }
    exit_code(&ended)
}
