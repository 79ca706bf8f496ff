ghost use Rattle.std.specs.Prelude.{◌≡◌, ◌≤◌, IfOk};
ghost use Rattle.stim_read.specs.Stimulus.{AreNames, names_of};

use crate::{
    DataInput, Stim, StimFault, StimStop, inputs_have_names, one_refusal, rows_are_one,
    rows_are_read, rows_are_taken,
};
use ila_base::{MemSource, Name, NoMemory, StimRefusal};
use std::alloc::Global;
use std::test::Fail;

// An input `d` of so many bits.
fn one_input(alloc: Global, width: u32) -> Result<Vec<DataInput>, NoMemory>
    ensures { IfOk result (λ inputs. AreNames (names_of inputs.items)) }
{
    let name = Name::new(alloc, b"d")?;
    let mut inputs = Vec::new(alloc);
    inputs.push(DataInput { name, width })?;
    Ok(inputs)
}

// An input `d` of six bits and an input `r` of one bit.
fn two_inputs(alloc: Global) -> Result<Vec<DataInput>, NoMemory>
    ensures { IfOk result (λ inputs. AreNames (names_of inputs.items)) }
{
    let d = Name::new(alloc, b"d")?;
    let r = Name::new(alloc, b"r")?;
    let mut inputs = Vec::new(alloc);
    inputs.push(DataInput { name: d, width: 6 })?;
    inputs.push(DataInput { name: r, width: 1 })?;
    Ok(inputs)
}

// A source of the text, in pieces.
fn text(alloc: Global, bytes: &[u8], piece: usize, fails: Vec<u32>) -> Result<MemSource, NoMemory>
    requires { 1 ≤ piece }
{
    let bytes = Vec::from_slice(alloc, bytes)?;
    Ok(MemSource::new(bytes, piece, fails))
}

// The values of eight bits that are so many small numbers.
fn is_byte(bits: &[bool], value: u8) -> bool {
    bits.len() == 8
        && bits[7] == (value % 2 == 1)
        && bits[6] == (value / 2 % 2 == 1)
        && bits[5] == (value / 4 % 2 == 1)
        && !bits[4]
}

#[test]
fn rows_in_the_order_of_the_inputs(rt: HostRuntime) -> Result<(), Fail> {
    let alloc = rt.alloc();
    for piece in [1, 2, 7, 64] {
        let inputs = two_inputs(alloc)?;
        let mut source = text(alloc, b"r d\n1 2a\r\n0 3F", piece, Vec::new(alloc))?;
        let mut stim = Stim::over(alloc, &mut source, &inputs)?;
        assert_eq!(rt; stim.next(&mut source)?, true);
        let first = [true, false, true, false, true, false, true];
        assert_eq!(rt; stim.bits(), first.as_slice());
        assert_eq!(rt; stim.next(&mut source)?, true);
        let second = [true, true, true, true, true, true, false];
        assert_eq!(rt; stim.bits(), second.as_slice());
        assert_eq!(rt; stim.next(&mut source)?, false);
        assert_eq!(rt; stim.next(&mut source)?, false);
    }
    Ok(())
}

#[test]
fn a_cut_text(rt: HostRuntime) -> Result<(), Fail> {
    let alloc = rt.alloc();
    let inputs = one_input(alloc, 8)?;
    let mut source = text(alloc, b"d\n00\n01\n02\n03\n04\n0", 4, Vec::new(alloc))?;
    let mut stim = Stim::over(alloc, &mut source, &inputs)?;
    for value in [0, 1, 2, 3, 4] {
        assert_eq!(rt; stim.next(&mut source)?, true);
        assert!(rt; is_byte(stim.bits(), value));
    }
    let refused = Err(StimFault::Refused(StimRefusal::Line(7)));
    assert_eq!(rt; stim.next(&mut source), refused);
    assert_eq!(rt; stim.next(&mut source), refused);
    assert!(rt; is_byte(stim.bits(), 4));
    Ok(())
}

// A read that failed is not tried again in the same call: each of two failures is an answer.
#[test]
fn a_header_read_that_fails(rt: HostRuntime) -> Result<(), Fail> {
    let alloc = rt.alloc();
    let inputs = one_input(alloc, 8)?;
    let fails = vec![in alloc; 0, 1]?;
    let mut source = text(alloc, b"d\n00\n", 4, fails)?;
    for _ in 0..2 {
        let begun = Stim::over(alloc, &mut source, &inputs);
        assert_eq!(rt; begun.err(), Some(StimStop::ReadFault));
    }
    let mut stim = Stim::over(alloc, &mut source, &inputs)?;
    assert_eq!(rt; stim.next(&mut source), Ok(true));
    Ok(())
}

#[test]
fn a_read_that_fails(rt: HostRuntime) -> Result<(), Fail> {
    let alloc = rt.alloc();
    let inputs = one_input(alloc, 8)?;
    let fails = vec![in alloc; 2, 3]?;
    let mut source = text(alloc, b"d\n00\n01\n02\n03\n04\n0", 4, fails)?;
    let mut stim = Stim::over(alloc, &mut source, &inputs)?;
    assert_eq!(rt; stim.next(&mut source), Ok(true));
    assert!(rt; is_byte(stim.bits(), 0));
    assert_eq!(rt; stim.next(&mut source), Ok(true));
    assert!(rt; is_byte(stim.bits(), 1));
    assert_eq!(rt; stim.next(&mut source), Err(StimFault::ReadFault));
    assert_eq!(rt; stim.next(&mut source), Err(StimFault::ReadFault));
    assert_eq!(rt; stim.next(&mut source), Ok(true));
    assert!(rt; is_byte(stim.bits(), 2));
    Ok(())
}

#[test]
fn texts_without_a_header(rt: HostRuntime) -> Result<(), Fail> {
    let alloc = rt.alloc();
    let inputs = two_inputs(alloc)?;
    for bytes in ["", "d\n", "d  r\n", "d r d\n", "d q\n", "d r "] {
        let mut source = text(alloc, bytes.as_bytes(), 4, Vec::new(alloc))?;
        let begun = Stim::over(alloc, &mut source, &inputs);
        assert_eq!(rt; begun.err(), Some(StimStop::Refused(StimRefusal::Header)));
    }
    Ok(())
}

#[test]
fn laws_hold() {
    rows_are_one();
    rows_are_taken();
    rows_are_read();
    one_refusal();
    inputs_have_names();
}
