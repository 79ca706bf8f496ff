//! The step of a program.

ghost use Rattle.std.specs.Prelude.{◌≡◌, ◌<◌, ◌≤◌, if◌then◌else◌};
ghost use Rattle.ila_base.specs.Comparison.{bit_at};
ghost use Rattle.tsm_check.specs.Steps as steps;
ghost use Rattle.tsm_check.specs.Truth.{is_met, cond_true};
ghost use Rattle.tsm_check.specs.Validity.{IsShortState, IsShortProgram};

use crate::types::{Branch, Config, Program, State};

// Whether the mask has the register's bit.
fn has(mask: u8, register: u8) -> bool
    requires { register < 4 }
    ensures { result ≡ bit_at register mask }
{
    (mask >> register) % 2 == 1
}

impl Branch {
    // The counter of this number afterwards.
    fn counter_after(&self, counters: [u16; 4], register: u8) -> u16
        requires { register < 4 }
        ensures { result ≡ steps.counter_after self.now counters register }
    {
        let counter = counters[register as usize];
        if has(self.reset, register) {
            0
        } else if has(self.inc, register) {
            counter.wrapping_add(1)
        } else {
            counter
        }
    }

    // The bit of this flag afterwards.
    fn flag_after(&self, flags: u8, register: u8) -> u8
        requires { register < 4 }
        ensures value { result ≡ (if steps.flag_after self.now flags register then 1 else 0) }
        ensures small { result ≤ 1 }
    {
        if has(self.set, register) || (!has(self.clear, register) && has(flags, register)) {
            1
        } else {
            0
        }
    }

    // The four flags afterwards, flag n as bit n.
    fn flags_after(&self, flags: u8) -> u8
        ensures { result ≡ steps.flags_after self.now flags }
    {
        let high = self.flag_after(flags, 2) + 2 * self.flag_after(flags, 3);
        self.flag_after(flags, 0) + 2 * (self.flag_after(flags, 1) + 2 * high)
    }

    // What the branch leaves.
    fn after(&self, config: Config) -> Config
        ensures { result ≡ steps.after self.now config }
    {
        let counters = config.counters;
        Config {
            state: self.next,
            counters: [
                self.counter_after(counters, 0),
                self.counter_after(counters, 1),
                self.counter_after(counters, 2),
                self.counter_after(counters, 3),
            ],
            flags: self.flags_after(config.flags),
        }
    }
}

impl State {
    // The place of the first true condition, or how many there are.
    fn place_of(&self, config: Config, before: &[u128], now: &[u128]) -> usize
        requires { IsShortState self.now }
        ensures { result ≡ steps.first_place (cond_true (is_met before.now now.now config.counters)) self.now.conds }
    {
        for (place, cond) in self.conds.as_slice().iter().enumerate() {
            if cond.is_true(before, now, &config.counters) {
                return place;
            }
        }
        self.conds.len()
    }
}

/// What a program does at a clock (UG908, trigger state machine language), over the values of the
/// probes by their numbers, at the clock before and at this one: the configuration afterwards, and
/// whether it triggers. It takes the branch of the first true condition of its state, else the last
/// one. A probe without a value counts as 0; before clock 0 each is 0. It takes no memory. Its time
/// is that of the conditions of one state.
pub fn step(program: &Program, config: Config, before: &[u128], now: &[u128]) -> (Config, bool)
    requires { IsShortProgram program.now }
    ensures { result ≡ steps.reference_step program.now before.now now.now config }
{
    let Some(state) = program.states.get(config.state as usize) else {
        return (config, false);
    };
    match state.branches.get(state.place_of(config, before, now)) {
        Some(branch) => (branch.after(config), branch.trigger),
        None => (config, false),
    }
}
