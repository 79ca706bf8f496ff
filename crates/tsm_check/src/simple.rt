//! Programs that are made without a text.

ghost use Rattle.std.specs.Prelude.{◌≡◌, map, IfOk};
ghost use Rattle.tsm_check.specs.declared.types.Formula.TheVariants.{Probe};
ghost use Rattle.tsm_check.specs.Simple as simple;
ghost use Rattle.tsm_check.specs.Validity.{IsShortProgram};

use crate::types::{Branch, Cond, Formula, Program, State};
use ila_base::{BasicCond, Compare, Digits, Items, Join, Name, NoMemory};
use std::alloc::Global;

// The branch to state 0 that does nothing else, but may trigger.
fn plain_branch(trigger: bool) -> Branch
    ensures { result ≡ simple.plain_branch trigger }
{
    Branch {
        next: 0,
        trigger,
        set: 0,
        clear: 0,
        inc: 0,
        reset: 0,
    }
}

// The program of one state.
fn one_state(alloc: Global, conds: Items<Cond>, branches: &[Branch]) -> Result<Program, NoMemory>
    ensures { IfOk result (λ program. program ≡ simple.one_state conds branches.now) }
{
    let state = State {
        name: Name::new(alloc, &[])?,
        conds,
        branches: Items::from_slice(alloc, branches)?,
    };
    let mut states = Items::new(alloc);
    states.push(state)?;
    Ok(Program { states })
}

fn copied(alloc: Global, compare: &Compare) -> Result<Compare, NoMemory>
    ensures { IfOk result (λ copy. copy ≡ compare.now) }
{
    let digits = Vec::from_slice(alloc, compare.digits.list())?;
    Ok(Compare {
        probe: compare.probe,
        op: compare.op,
        digits: Digits::new(digits),
    })
}

// Each comparison as a formula.
fn parts(alloc: Global, compares: &[Compare]) -> Result<Items<Formula>, NoMemory>
    ensures { IfOk result (λ list. list ≡ map Probe compares.now) }
{
    let mut list = Items::new(alloc);
    for compare in compares {
        let copy = copied(alloc, compare)?;
        list.push(Formula::Probe(copy))?;
    }
    Ok(list)
}

// The condition of a basic condition.
fn cond_of(alloc: Global, basic: &BasicCond) -> Result<Cond, NoMemory>
    ensures { IfOk result (λ cond. cond ≡ simple.cond_of basic.now) }
{
    let list = parts(alloc, basic.compares.as_slice())?;
    Ok(match basic.join {
        Join::And => Cond {
            negated: false,
            formula: Formula::All(list),
        },
        Join::Or => Cond {
            negated: false,
            formula: Formula::Any(list),
        },
        Join::Nand => Cond {
            negated: true,
            formula: Formula::All(list),
        },
        Join::Nor => Cond {
            negated: true,
            formula: Formula::Any(list),
        },
    })
}

/// The program of a basic condition (UG908, basic trigger mode): one state without a name, that
/// triggers where the condition is true and else stays. It triggers exactly there and keeps the
/// configuration (`basic_steps`).
#[tactic(auto, using(crate::proofs::ShortLaws::basic_short))]
pub fn basic_program(alloc: Global, basic: &BasicCond) -> Result<Program, NoMemory>
    ensures value { IfOk result (λ program. program ≡ simple.basic_program basic.now) }
    // It is as `step` asks, where its condition is.
    ensures short { simple.IsShortCondition basic.now → IfOk result IsShortProgram }
{
    let mut conds = Items::new(alloc);
    conds.push(cond_of(alloc, basic)?)?;
    one_state(alloc, conds, &[plain_branch(true), plain_branch(false)])
}

/// The program of one state without a name that goes to itself. It keeps the configuration and never
/// triggers (`idle_steps`).
pub fn idle_program(alloc: Global) -> Result<Program, NoMemory>
    ensures value { IfOk result (λ program. program ≡ simple.idle_program) }
    ensures short { IfOk result IsShortProgram }
{
    one_state(alloc, Items::new(alloc), &[plain_branch(false)])
}
