ghost use Rattle.std.specs.Prelude.{◌≡◌, ◌≤◌, is_err};
ghost use Rattle.ila_base.specs.Fakes.{no_calls, fails_next, after_call};

use crate::outside::Failed;
use std::marker::Model;

/// Which calls of a source, sink or shelf over memory fail: those whose numbers are listed, counted
/// from 0. It counts the calls and the faults.
#[derive(Debug, Drop)]
pub struct Schedule {
    fails: Vec<u32>,
    made: u64,
    faults: u64,
}

impl Model for Schedule {
    ghost use Rattle.ila_base.specs.Fakes.{Calls};

    ghost Value = { Calls };

    ghost view = { λ s. record { fails = s.fails.items; made = s.made; faults = s.faults } };
}

impl Schedule {
    /// No call so far, and the listed ones fail. It takes no memory.
    pub fn new(fails: Vec<u32>) -> Schedule
        ensures { result ≡ no_calls fails.items }
    {
        Schedule {
            fails,
            made: 0,
            faults: 0,
        }
    }

    /// Whether the next call is listed.
    pub fn fails_next(&self) -> bool
        ensures { result ≡ fails_next self.now }
    {
        self.fails
            .iter()
            .any(|number| u64::from(*number) == self.made)
    }

    /// Counts a call, which fails or not.
    pub fn count(&mut self, fails: bool) -> Result<(), Failed>
        ensures fails { is_err result ≡ fails }
        ensures counted { self.new ≡ after_call self.old fails }
        ensures later { self.old.faults ≤ self.new.faults }
    {
        self.made = self.made.saturating_add(1);
        if fails {
            self.faults = self.faults.saturating_add(1);
            return Err(Failed);
        }
        Ok(())
    }
}
