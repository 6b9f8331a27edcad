//! A count of faults, which the objects whose calls can fail share.
ghost use Rattle.outside.specs.Causes.{after_refusal, risen};
ghost use Rattle.std.specs.Prelude.{◌≡◌, ◌≤◌, ℕ};

use crate::traits::Lost;
use std::io;
use std::marker::Model;

/// Counts faults, up to the last value of the count.
#[derive(Drop)]
pub(crate) struct Faults {
    count: u64,
}

impl Model for Faults {
    ghost Value = { ℕ };

    ghost view = { λ faults. faults.count };
}

impl Faults {
    pub(crate) fn new() -> Faults
        ensures { result ≡ 0 }
    {
        Faults { count: 0 }
    }

    /// Counts one more fault, and answers what the caller is told.
    pub(crate) fn failed(&mut self) -> Lost
        ensures answer { result ≡ Lost.Failed }
        ensures count { self.new ≡ risen self.old }
        ensures later { self.old ≤ self.new }
    {
        self.count = self.count.saturating_add(1);
        Lost::Failed
    }

    /// What the caller is told of an error. All but want of memory is a fault, which is counted.
    pub(crate) fn lost(&mut self, error: &io::Error) -> Lost
        ensures count { self.new ≡ after_refusal self.old result }
        ensures later { self.old ≤ self.new }
    {
        if error.kind() == io::ErrorKind::OutOfMemory {
            return Lost::NoMemory;
        }
        self.failed()
    }
}
