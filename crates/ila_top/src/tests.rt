use crate::Status;
use crate::line::write_error;
use ila_base::{MemSink, Name, NetRefusal, Place, ProjRefusal, ResRefusal, SetRefusal, TsmRefusal};
use std::alloc::Global;
use std::test::Fail;

// Whether this is what the error sink holds of the line of a status, where the core is named `c0`.
fn is_line(alloc: Global, status: Status, line: &[u8]) -> Result<bool, Fail> {
    let mut errors = MemSink::new(alloc, 64, 1000, Vec::new(alloc))?;
    let _ = write_error(&mut errors, &status, b"c0");
    Ok(errors.bytes() == line)
}

const PLACE: Place = Place { line: 3, col: 14 };

#[test]
fn line_of_a_refused_netlist(rt: HostRuntime) -> Result<(), Fail> {
    let refusal = NetRefusal::Construct(Name::new(rt.alloc(), b"q[4]")?);
    let found = is_line(
        rt.alloc(),
        Status::Netlist(refusal, PLACE),
        b"ila: N2 3:14 q[4]\n",
    )?;
    assert!(rt; found);
    Ok(())
}

#[test]
fn line_of_a_refused_project(rt: HostRuntime) -> Result<(), Fail> {
    let refusal = ProjRefusal::NameTaken(Name::new(rt.alloc(), b"q[4]")?);
    let found = is_line(rt.alloc(), Status::Project(refusal), b"ila: P10 q[4]\n")?;
    assert!(rt; found);
    Ok(())
}

#[test]
fn line_of_a_refused_program(rt: HostRuntime) -> Result<(), Fail> {
    let status = Status::Tsm(0, TsmRefusal::UnknownState, PLACE);
    assert!(rt; is_line(rt.alloc(), status, b"ila: Q4 c0 3:14\n")?);
    Ok(())
}

#[test]
fn line_of_few_resources(rt: HostRuntime) -> Result<(), Fail> {
    let terms = ResRefusal::Terms {
        state: 0,
        cond: 0,
        count: 18,
    };
    assert!(rt;
        is_line(
            rt.alloc(),
            Status::Resource(0, terms),
            b"ila: M3 c0 0 0 18\n"
        )?
    );
    Ok(())
}

#[test]
fn line_of_another_shape(rt: HostRuntime) -> Result<(), Fail> {
    let shape = SetRefusal::Shape {
        field: 0,
        file: 8,
        core: 16,
    };
    assert!(rt; is_line(rt.alloc(), Status::Settings(shape), b"ila: W2 0 8 16\n")?);
    Ok(())
}
