use crate::laws::one_reading;
use crate::lexer::tokens;
use crate::token::Token;
use crate::types::TsmStop;
use std::alloc::{AllocError, Global};
use std::process::Abort;
use std::test::Fail;

fn write_token(line: &mut String, token: &Token) -> Result<(), AllocError> {
    let sort = token.sort;
    let start = token.start;
    let end = token.end;
    let row = token.place.line;
    let col = token.place.col;
    write!(line, "{sort:?} {start}..{end} {row}:{col}, ")
}

fn write_tokens(line: &mut String, list: &[Token]) -> Result<(), AllocError> {
    for token in list {
        write_token(line, token)?;
    }
    Ok(())
}

fn write_stop(line: &mut String, stop: TsmStop) -> Result<(), AllocError> {
    match stop {
        TsmStop::Refused(fault) => {
            let refusal = fault.refusal;
            let row = fault.place.line;
            let col = fault.place.col;
            write!(line, "{refusal:?} {row}:{col}")
        }
        TsmStop::NoMemory => line.push_str("no memory"),
    }
}

/// The tokens of a text, each with its sort, its bytes from start to end and its place, or the
/// refusal.
fn shown(alloc: Global, text: &[u8]) -> Result<String, AllocError> {
    let mut line = String::new(alloc);
    if text.len() > 1_048_576 {
        return Ok(line);
    }
    match tokens(alloc, text) {
        Ok(list) => write_tokens(&mut line, &list)?,
        Err(stop) => write_stop(&mut line, stop)?,
    }
    Ok(line)
}

/// Each row is a text and what it gives.
fn assert_rows(rt: &impl Abort, alloc: Global, rows: &[(&[u8], &str)]) -> Result<(), Fail> {
    for (text, wanted) in rows {
        let line = shown(alloc, text)?;
        assert_eq!(rt; line.as_str(), *wanted, "at {text:?}");
    }
    Ok(())
}

#[test]
fn skips_what_stands_between_tokens(rt: HostRuntime) -> Result<(), Fail> {
    one_reading();
    assert_rows(
        &rt,
        rt.alloc(),
        &[
            (b"", ""),
            (b" \t\r\n\x0c", ""),
            (b"\x0b", "BadByte 1:1"),
            (b"// x", ""),
            (b"# x\ny", "Name 4..5 2:1, "),
            (b"a//b '\n c#d /", "Name 0..1 1:1, Name 8..9 2:2, "),
            (b"# a\r'\n\n '", "BadByte 3:2"),
            (b"/", "BadByte 1:1"),
            (b"a / b", "BadByte 1:3"),
            (b"a /* b */", "BadByte 1:3"),
        ],
    )
}

#[test]
fn takes_the_longest_constant(rt: HostRuntime) -> Result<(), Fail> {
    assert_rows(
        &rt,
        rt.alloc(),
        &[
            (b"4'", "BadByte 1:2"),
            (b"4'b", "BadByte 1:2"),
            (b"4'q", "BadByte 1:2"),
            (b"4' b1", "BadByte 1:2"),
            (b"4'b_1", "BadByte 1:2"),
            (b"12_", "Constant 0..2 1:1, Name 2..3 1:3, "),
            (b"4'b1_", "Constant 0..4 1:1, Name 4..5 1:5, "),
            (b"4'b12", "Constant 0..4 1:1, Constant 4..5 1:5, "),
            (b"4'hfg", "Constant 0..4 1:1, Name 4..5 1:5, "),
            (b"1__2'Br_X", "Constant 0..9 1:1, "),
            (b"0'U9 16'HaF", "Constant 0..4 1:1, Constant 5..11 1:6, "),
            (b"8'd1'b1", "BadByte 1:5"),
        ],
    )
}

#[test]
fn takes_the_longest_word_or_mark(rt: HostRuntime) -> Result<(), Fail> {
    assert_rows(
        &rt,
        rt.alloc(),
        &[
            (b"=", "BadByte 1:1"),
            (b"a==b", "Name 0..1 1:1, Equal 1..3 1:2, Name 3..4 1:4, "),
            (
                b"<=<>===",
                "LessEqual 0..2 1:1, Less 2..3 1:3, GreaterEqual 3..5 1:4, Equal 5..7 1:6, ",
            ),
            (
                b"&&||!=:;()>",
                "AndAnd 0..2 1:1, OrOr 2..4 1:3, NotEqual 4..6 1:5, Colon 6..7 1:7, Semicolon 7..8 1:8, LeftParenthesis 8..9 1:9, RightParenthesis 9..10 1:10, Greater 10..11 1:11, ",
            ),
            (b"a\n&|", "BadByte 2:1"),
            (b"||| a", "BadByte 1:3"),
            (b"!", "BadByte 1:1"),
            (b"$ a", "BadByte 1:1"),
            (b"$0", "BadByte 1:1"),
            (b"$_0$B", "Register 0..3 1:1, Register 3..5 1:4, "),
        ],
    )
}

#[test]
fn takes_keywords_in_any_case(rt: HostRuntime) -> Result<(), Fail> {
    assert_rows(
        &rt,
        rt.alloc(),
        &[
            (
                b"State IF then ELSEIF elSe EndIf",
                "State 0..5 1:1, If 6..8 1:7, Then 9..13 1:10, ElseIf 14..20 1:15, Else 21..25 1:22, EndIf 26..31 1:27, ",
            ),
            (
                b"gOTO\ntrigger\nset_FLAG Clear_flag",
                "Goto 0..4 1:1, Trigger 5..12 2:1, SetFlag 13..21 3:1, ClearFlag 22..32 3:10, ",
            ),
            (
                b"INCREMENT_COUNTER reset_counter states _if $if",
                "IncrementCounter 0..17 1:1, ResetCounter 18..31 1:19, Name 32..38 1:33, Name 39..42 1:40, Register 43..46 1:44, ",
            ),
        ],
    )
}
