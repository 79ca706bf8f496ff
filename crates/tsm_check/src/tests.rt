ghost use Rattle.std.specs.Prelude.{◌≤◌, length, IfOk};
ghost use Rattle.tsm_check.specs.Simple.{IsShortCondition};

use crate::types::{Branch, Config, Program, State};
use crate::{
    basic_is_valid, basic_program, basic_steps, idle_is_valid, idle_program, idle_steps, step,
    valid_steps,
};
use ila_base::{BasicCond, Compare, Digit, Digits, Items, Join, Name, NoMemory, Op};
use std::alloc::Global;
use std::process::Abort;
use std::test::Fail;

const START: Config = Config {
    state: 0,
    counters: [0; 4],
    flags: 0,
};

// The condition of one comparison of probe 0.
fn condition(alloc: Global, join: Join, op: Op, digits: &[Digit]) -> Result<BasicCond, NoMemory>
    requires { length digits.now ≤ 128 }
    ensures { IfOk result IsShortCondition }
{
    let mut compares = Items::new(alloc);
    compares.push(Compare {
        probe: 0,
        op,
        digits: Digits::new(Vec::from_slice(alloc, digits)?),
    })?;
    Ok(BasicCond { join, compares })
}

// Whether the program of one comparison of probe 0 triggers.
fn triggers(
    alloc: Global,
    join: Join,
    op: Op,
    digits: &[Digit; 2],
    before: u128,
    now: u128,
) -> Result<bool, NoMemory> {
    let program = basic_program(alloc, &condition(alloc, join, op, digits)?)?;
    let (_, triggers) = step(&program, START, &[before], &[now]);
    Ok(triggers)
}

// The configuration after a step of a program that always takes the branch.
fn after(alloc: Global, branch: Branch, config: Config) -> Result<Config, NoMemory> {
    let state = State {
        name: Name::new(alloc, b"s")?,
        conds: Items::new(alloc),
        branches: Items::from_slice(alloc, &[branch])?,
    };
    let mut states = Items::new(alloc);
    states.push(state)?;
    let (config, _) = step(&Program { states }, config, &[], &[]);
    Ok(config)
}

#[test]
fn idles(rt: HostRuntime) -> Result<(), Fail> {
    idle_steps();
    idle_is_valid();
    valid_steps();
    let program = idle_program(rt.alloc())?;
    let (config, triggers) = step(&program, START, &[], &[]);
    assert_eq!(&rt; config, START);
    assert!(&rt; !triggers);
    Ok(())
}

/// Each row is a branch's set, clear, inc and reset, the counters and flags before and after.
#[test]
fn acts_on_counters_and_flags(rt: HostRuntime) -> Result<(), Fail> {
    let rows: [([u8; 4], [u16; 4], u8, [u16; 4], u8); 5] = [
        ([0, 0, 0, 0], [1, 2, 3, 4], 5, [1, 2, 3, 4], 5),
        ([0, 0, 1, 0], [65535, 5, 5, 5], 0, [0, 5, 5, 5], 0),
        ([0, 0, 15, 0], [0, 9, 65534, 65535], 0, [1, 10, 65535, 0], 0),
        ([0, 0, 8, 1], [7, 8, 9, 10], 15, [0, 8, 9, 11], 15),
        ([5, 2, 0, 0], [1, 1, 1, 1], 10, [1, 1, 1, 1], 13),
    ];
    for ([set, clear, inc, reset], counters, flags, wanted, raised) in rows {
        let branch = Branch {
            next: 0,
            trigger: false,
            set,
            clear,
            inc,
            reset,
        };
        let before = Config {
            state: 0,
            counters,
            flags,
        };
        let found = after(rt.alloc(), branch, before)?;
        assert_eq!(&rt; found.counters, wanted);
        assert_eq!(&rt; found.flags, raised);
    }
    Ok(())
}

/// Each row is a join, an operator, two digits, the lower first, the values before and now of a probe,
/// and whether the basic program triggers.
#[test]
fn triggers_where_the_condition_holds(rt: HostRuntime) -> Result<(), Fail> {
    basic_steps();
    basic_is_valid();
    let rows = [
        (Join::And, Op::Eq, [Digit::One, Digit::Zero], 0, 1, true),
        (Join::And, Op::Eq, [Digit::One, Digit::Zero], 0, 2, false),
        (Join::Or, Op::Eq, [Digit::Rise, Digit::Any], 0, 3, true),
        (Join::Or, Op::Eq, [Digit::Rise, Digit::Any], 1, 3, false),
        (Join::And, Op::Eq, [Digit::Fall, Digit::Steady], 3, 2, true),
        (Join::And, Op::Eq, [Digit::Both, Digit::Steady], 3, 0, false),
        (Join::And, Op::Ne, [Digit::One, Digit::Any], 0, 2, true),
        (Join::And, Op::Ne, [Digit::One, Digit::One], 0, 1, true),
        (Join::Nand, Op::Eq, [Digit::One, Digit::One], 0, 3, false),
        (Join::Nor, Op::Eq, [Digit::One, Digit::One], 0, 1, true),
        (Join::And, Op::Lt, [Digit::Zero, Digit::One], 0, 1, true),
        (Join::And, Op::Le, [Digit::Zero, Digit::One], 0, 3, false),
        (Join::And, Op::Gt, [Digit::Zero, Digit::One], 0, 2, false),
        (Join::And, Op::Ge, [Digit::Zero, Digit::One], 0, 2, true),
    ];
    for (join, op, digits, before, now, wanted) in rows {
        assert_eq!(&rt;
            triggers(rt.alloc(), join, op, &digits, before, now)?,
            wanted
        );
    }
    Ok(())
}
