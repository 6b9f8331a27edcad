//! How an evaluation ends without a value, and the fuel of an entry.

ghost use Rattle.std.specs.Prelude.{◌≡◌, ◌≤◌, ◌+◌, List, ℕ, OnOk};
ghost use Rattle.door.specs.declared.marks.Mark.{Mark};
ghost use Rattle.door.specs.declared.values.Actor.{Actor};
ghost use Rattle.js_semantics.specs.Solo.{Program};
ghost use Rattle.js_semantics.specs.Intrinsics.{Setup};
ghost use Rattle.small_meaning.specs.Rows.{Bare, Cont, charge};
ghost use Rattle.small_meaning.specs.Reached.{HasReached};
ghost use Rattle.small_eval.specs.Continuations.{ContinuesWithUnit};

use base_text::NoMemory;
use door::{ErrorKind, StopKind};

/// Why an evaluation ends without a value.
#[derive(Debug, Drop)]
pub enum Exit {
    /// An error was thrown.
    Throw(ErrorKind),
    /// A limit was met, which nothing catches.
    Halt(StopKind),
    /// No memory was found, and the run ends.
    NoMemory,
}

impl From<NoMemory> for Exit {
    ghost use Rattle.std.specs.Prelude.{◌≡◌};
    ghost use Rattle.small_eval.specs.declared.exit.Exit.TheVariants.{NoMemory as NoMemoryExit};

    ghost from_gives = { λ _ e. e ≡ NoMemoryExit };

    fn from(_error: NoMemory) -> Exit {
        Exit::NoMemory
    }
}

/// Charges units of fuel. A charge above what is left uses all of it.
#[tactic(auto, unfolding(small_meaning::specs::Rows::charge))]
pub fn charge(fuel: &mut u32, units: u32) -> Result<(), Exit>
    ensures own { (s : Setup) (i : Actor) (marks : List Mark) (k : ℕ → Program Bare) (c : Cont) → HasReached s i marks (charge units k c fuel.old) → ContinuesWithUnit s i marks fuel.new k c result }
    ensures fuel { fuel.new ≤ fuel.old }
    ensures spent { OnOk result (fuel.new + units ≤ fuel.old) }
{
    if *fuel < units {
        *fuel = 0;
        return Err(Exit::Halt(StopKind::Fuel));
    }
    *fuel -= units;
    Ok(())
}
