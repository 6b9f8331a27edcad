//! A count of calls, by which the objects in memory know the calls that fail.
ghost use Rattle.outside.specs.Calls.{Plan, after_call, FailsNext};
ghost use Rattle.std.specs.Prelude.{◌≡◌, ◌↔◌, IsTrue};

use std::marker::Model;

/// Counts calls from 1, of which the listed ones fail.
#[derive(Drop)]
pub(crate) struct Calls {
    failing: Vec<u32>,
    made: u64,
}

impl Model for Calls {
    ghost Value = { Plan };

    ghost view = { λ calls. record { made = calls.made; failing = calls.failing.items } };
}

impl Calls {
    pub(crate) fn new(failing: Vec<u32>) -> Calls
        ensures { result ≡ record { made = 0; failing = failing.items } }
    {
        Calls { failing, made: 0 }
    }

    /// Counts one more call, and tells whether it fails.
    pub(crate) fn next_fails(&mut self) -> bool
        ensures made { self.new ≡ after_call self.old }
        ensures fails { IsTrue result ↔ FailsNext self.old }
    {
        self.made = self.made.saturating_add(1);
        self.failing
            .iter()
            .any(|call| u64::from(*call) == self.made)
    }
}
