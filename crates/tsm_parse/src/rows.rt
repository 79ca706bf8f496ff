use crate::calls::{constant, fit, program};
use crate::lexer::tokens;
use crate::types::{Ast, AstFormula, TsmStop};
use ila_base::{Digit, Place, TsmRefusal};
use std::alloc::Global;
use std::process::Abort;
use std::test::Fail;

// A text without its mark `@`, and the place where it stood, or that behind the text.
fn unmarked(alloc: Global, marked: &[u8]) -> Result<(Vec<u8>, Place), Fail> {
    let mut text = Vec::new(alloc);
    let mut front = Place { line: 1, col: 1 };
    let mut place = None;
    for byte in marked {
        if *byte == b'@' {
            place = Some(front);
            continue;
        }
        text.push(*byte)?;
        front = behind(front, *byte);
    }
    Ok((text, place.unwrap_or(front)))
}

fn behind(place: Place, byte: u8) -> Place {
    if byte == b'\n' {
        Place {
            line: place.line.saturating_add(1),
            col: 1,
        }
    } else {
        Place {
            line: place.line,
            col: place.col.saturating_add(1),
        }
    }
}

// Whether a text, without its mark, is refused for this at the mark.
fn is_refused(alloc: Global, marked: &[u8], refusal: TsmRefusal) -> Result<bool, Fail> {
    let (text, place) = unmarked(alloc, marked)?;
    match program(alloc, text.as_slice()) {
        Err(TsmStop::Refused(fault)) => Ok(fault.refusal == refusal && fault.place == place),
        Ok(_) | Err(TsmStop::NoMemory) => Ok(false),
    }
}

fn assert_refused(
    rt: &impl Abort,
    alloc: Global,
    refusal: TsmRefusal,
    rows: &[&[u8]],
) -> Result<(), Fail> {
    for row in rows {
        assert!(rt; is_refused(alloc, row, refusal)?, "at {row:?}");
    }
    Ok(())
}

#[test]
fn states_and_blocks(rt: HostRuntime) -> Result<(), Fail> {
    assert_refused(
        &rt,
        rt.alloc(),
        TsmRefusal::Syntax,
        &[
            b"@",
            b" // nothing\n@",
            b"@a",
            b"state@",
            b"state @if: goto a;",
            b"state @$flag0: goto a;",
            b"state a@",
            b"state a @goto a;",
            b"state a:@",
            b"state a: @;",
            b"state a: @endif",
            b"state a: goto@",
            b"state a: goto @;",
            b"state a: goto @trigger;",
            b"state a: goto a",
            b"state a: goto a @b;",
            b"state a: trigger@",
            b"state a: trigger @a;",
            b"state a: trigger; @trigger;",
            b"state a: goto a; @b",
            b"state a: goto a; state@",
            b"state a: set_flag @a;",
            b"state a: set_flag $flag0@",
            b"state a: set_flag $flag0 @goto a;",
            b"state a: set_flag $flag0; @endif",
            b"state a: reset_counter @;",
        ],
    )
}

#[test]
fn conditions(rt: HostRuntime) -> Result<(), Fail> {
    assert_refused(
        &rt,
        rt.alloc(),
        TsmRefusal::Syntax,
        &[
            b"state a: if@",
            b"state a: if @q == 1 then goto a; endif",
            b"state a: if (@) then goto a; endif",
            b"state a: if (q@) then goto a; endif",
            b"state a: if (q == @) then goto a; endif",
            b"state a: if (q == @q) then goto a; endif",
            b"state a: if (1 == @1) then goto a; endif",
            b"state a: if (1@) then goto a; endif",
            b"state a: if (q == 1 @q == 2) then goto a; endif",
            b"state a: if (q == 1 && @) then goto a; endif",
            b"state a: if (q == 1 || @) then goto a; endif",
            b"state a: if (q == 1 && @|| q == 2) then goto a; endif",
            b"state a: if ((q == 1) @then goto a; endif",
            b"state a: if (q == 1) @goto a; endif",
            b"state a: if (q == 1) then @endif",
            b"state a: if (q == 1) then goto a; @elseif2",
            b"state a: if (q == 1) then goto a;@",
            b"state a: if (q == 1) then goto a; @goto b; endif",
            b"state a: if (q == 1) then goto a; elseif @then goto a; endif",
            b"state a: if (q == 1) then goto a; else goto a; @elseif (q == 1) then goto a; endif",
            b"state a: if (q == 1) then goto a; elseif (q == 1) then goto a; @elseif (q == 1) then goto a; endif",
            b"state a: if (q == 1) then goto a; else goto a; @else goto a; endif",
        ],
    )
}

#[test]
fn bytes_that_begin_nothing(rt: HostRuntime) -> Result<(), Fail> {
    assert_refused(
        &rt,
        rt.alloc(),
        TsmRefusal::BadByte,
        &[
            b"state a: goto @! a",
            b"state a: if (q @= 1) then",
            b"state a: if (q == 4@'b) then",
            b"state a: goto a; @/ b",
            b"a a a @'",
        ],
    )
}

// The tree of a text that has one.
fn ast_of(alloc: Global, text: &[u8]) -> Result<Ast, Fail> {
    let ast = program(alloc, text).ok().ok_or("no program")?;
    Ok(ast)
}

#[test]
fn parts_of_programs(rt: HostRuntime) -> Result<(), Fail> {
    let alloc = rt.alloc();
    let text =
        b"STATE a: # first\n If (p == 1 && q == 2 || 3 < r) then set_flag $flag0; Goto b; endif\n\
        state b: if (((p == 1))) then trigger; elseif (q != 4'bX) then goto a; else goto b; EndIf\n\
        state c: trigger; // last";
    let ast = ast_of(alloc, text)?;
    assert_eq!(rt; ast.states.len(), 3);
    for (number, state) in ast.states.as_slice().iter().enumerate() {
        let wanted = match number {
            0 => (1, 1, false),
            1 => (2, 3, true),
            _ => (0, 1, true),
        };
        assert_eq!(rt;
            (state.conds.len(), state.blocks.len(), state.has_else),
            wanted
        );
        for formula in state.conds.as_slice() {
            match formula {
                // `&&` binds tighter than `||`.
                AstFormula::Any(parts) => {
                    assert_eq!(rt; parts.len(), 2);
                    assert!(rt; matches!(parts.get(0), Some(AstFormula::All(_))));
                    assert!(rt; matches!(parts.get(1), Some(AstFormula::Test(_))));
                }
                AstFormula::Test(_) => assert_eq!(rt; number, 1),
                AstFormula::All(_) => assert!(rt; false),
            }
        }
    }
    Ok(())
}

// A condition with so many parentheses around a comparison.
fn nested(alloc: Global, depth: usize) -> Result<Vec<u8>, Fail> {
    let mut text = Vec::from_slice(alloc, b"state a: if ")?;
    for _ in 0..depth {
        text.push(b'(')?;
    }
    text.extend_from_slice(b"q==1")?;
    for _ in 0..depth {
        text.push(b')')?;
    }
    text.extend_from_slice(b" then trigger; endif")?;
    Ok(text)
}

#[test]
fn open_parentheses(rt: HostRuntime) -> Result<(), Fail> {
    let alloc = rt.alloc();
    let text = nested(alloc, 64)?;
    assert!(rt; program(alloc, text.as_slice()).is_ok());
    let text = nested(alloc, 65)?;
    match program(alloc, text.as_slice()) {
        Err(TsmStop::Refused(fault)) => {
            assert!(rt; fault.refusal == TsmRefusal::Syntax);
            // The 65th stands behind the 12 bytes in front and 64 others.
            assert!(rt; fault.place == Place { line: 1, col: 77 });
        }
        Ok(_) | Err(TsmStop::NoMemory) => assert!(rt; false),
    }
    Ok(())
}

// Whether a constant fits a width with these digits, the lowest first.
fn fits_as(alloc: Global, text: &[u8], width: u8, wanted: &[Digit]) -> Result<bool, Fail> {
    let Some(constant) = constant(alloc, text)? else {
        return Ok(false);
    };
    if width == 0 || width > 128 {
        return Ok(false);
    }
    match fit(alloc, &constant, u32::from(width))? {
        Some(digits) => Ok(digits.list() == wanted),
        None => Ok(wanted.is_empty()),
    }
}

#[test]
fn constants_and_widths(rt: HostRuntime) -> Result<(), Fail> {
    let alloc = rt.alloc();
    let (zero, one) = (Digit::Zero, Digit::One);
    assert!(rt; fits_as(alloc, b"10", 4, &[zero, one, zero, one])?);
    assert!(rt; fits_as(alloc, b"0010", 4, &[zero, one, zero, one])?);
    assert!(rt; fits_as(alloc, b"0", 2, &[zero, zero])?);
    assert!(rt; fits_as(alloc, b"4", 2, &[])?);
    assert!(rt; fits_as(alloc, b"4'hA", 4, &[zero, one, zero, one])?);
    assert!(rt; fits_as(alloc, b"8'H1_0", 5, &[zero, zero, zero, zero, one])?);
    assert!(rt; fits_as(alloc, b"4'b1X0r", 4, &[Digit::Rise, zero, Digit::Any, one])?);
    assert!(rt;
        fits_as(
            alloc,
            b"4'bfBn",
            4,
            &[Digit::Steady, Digit::Both, Digit::Fall, zero]
        )?
    );
    assert!(rt; fits_as(alloc, b"3'b1010", 4, &[])?);
    assert!(rt; fits_as(alloc, b"3'b0010", 4, &[zero, one, zero, zero])?);
    assert!(rt; fits_as(alloc, b"129'd1", 4, &[])?);
    assert!(rt; fits_as(alloc, b"0'd0", 4, &[])?);
    assert!(rt; constant(alloc, b"4'b")?.is_none());
    assert!(rt; constant(alloc, b"_4")?.is_none());
    assert!(rt; constant(alloc, b"4' b1")?.is_none());
    Ok(())
}

const THREE: &[u8] = b"state a: if (p == 1 && q != 4'b1X0R) then set_flag $flag0; goto b; endif\n\
    state b: if (3 < p || (q == 2)) then increment_counter $counter1; goto c;\n\
    elseif (p == 1) then trigger; else goto a; endif\n\
    state c: if ($counter1 >= 5) then trigger; endif";

// Whether a front of the program that ends with a token is read where its last state is whole, and
// else refused behind its last byte.
fn is_judged(alloc: Global, front: &[u8]) -> Result<bool, Fail> {
    let (_, end) = unmarked(alloc, front)?;
    let whole = front.ends_with(b"endif");
    match program(alloc, front) {
        Ok(_) => Ok(whole),
        Err(TsmStop::Refused(fault)) => {
            Ok(!whole && fault.refusal == TsmRefusal::Syntax && fault.place == end)
        }
        Err(TsmStop::NoMemory) => Ok(false),
    }
}

#[test]
fn fronts_of_three_states(rt: HostRuntime) -> Result<(), Fail> {
    let alloc = rt.alloc();
    let found = tokens(alloc, THREE).ok().ok_or("no tokens")?;
    for token in &found {
        let front = THREE.get(..token.end as usize).unwrap_or(THREE);
        assert!(rt; is_judged(alloc, front)?, "at {front:?}");
    }
    Ok(())
}
