ghost use Rattle.std.specs.Prelude.{◌≡◌};
ghost use Rattle.net_core.specs.CellTable as table;

use net_core::CellKind;

// Whether output pin `output` of a CARRY4 depends on input pin `input`. The inputs are CI, CYINIT,
// DI[3:0] and S[3:0], the outputs CO[3:0] and O[3:0].
fn carry_depends(output: usize, input: usize) -> bool
    ensures { result ≡ table.carry_depends output input }
{
    if input < 2 {
        true
    } else if input < 6 {
        let data = 5usize.saturating_sub(input);
        if output < 4 {
            data <= 3 - output
        } else {
            data < 7usize.saturating_sub(output)
        }
    } else {
        let select = 9usize.saturating_sub(input);
        if output < 4 {
            select <= 3 - output
        } else {
            select <= 7usize.saturating_sub(output)
        }
    }
}

// Whether output pin `output` of a cell of this kind depends combinationally on input pin `input`.
pub fn depends(kind: CellKind, output: usize, input: usize) -> bool
    ensures { result ≡ table.depends kind output input }
{
    match kind {
        CellKind::Carry4 => carry_depends(output, input),
        CellKind::Fdce(_) => input == 1,
        CellKind::Fdpe(_) => input == 2,
        CellKind::Fdre(_) | CellKind::Fdse(_) | CellKind::Mem { .. } => false,
        _ => true,
    }
}
