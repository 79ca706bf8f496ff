use crate::{Item, Tree, parse};
use ila_base::{LimitKind, NetRefusal, NetStop, Place};
use std::alloc::Global;
use std::test::Fail;
use vlog_lex::tokens;

/// The number of a refusal; 170 and 171 are the limits on nesting and on indices.
fn number_of(refusal: &NetRefusal) -> u8 {
    match refusal {
        NetRefusal::Construct(_) => 2,
        NetRefusal::Syntax => 3,
        NetRefusal::Limit(LimitKind::Nesting, 33) => 170,
        NetRefusal::Limit(LimitKind::Index, _) => 171,
        _ => 0,
    }
}

fn tree_of(alloc: Global, text: &[u8]) -> Result<Tree, NetStop> {
    let tokens = tokens(alloc, text)?;
    parse(alloc, text, tokens.as_slice())
}

/// The number and place for which a text is refused; 0 where it is read.
fn answer(alloc: Global, text: &[u8]) -> Result<(u8, Place), Fail> {
    match tree_of(alloc, text) {
        Ok(_) => Ok((0, Place::NOWHERE)),
        Err(NetStop::Refused(fault)) => Ok((number_of(&fault.refusal), fault.place)),
        Err(NetStop::NoMemory) => Err("no memory")?,
    }
}

/// Each text is refused as N3 at its `^`, which isn't part of it.
const REFUSED: [&str; 36] = [
    "^modul m;",
    "module ^1;",
    "module ^module;",
    "module m^",
    "module m (clk^;",
    "module m (clk,^)",
    "module m (clk ^input d);",
    "module m (input ^);",
    "module m (input wire ^wire a);",
    "module m (input [^a:0] a);",
    "module m (input [1^] a);",
    "module m (input [1:0^:] a);",
    "module m () ^endmodule",
    "module m; endmodule ^;",
    "module m; input a ^output b;",
    "module m; wire ^;",
    "module m; assign ^= a;",
    "module m; assign a[^a] = b;",
    "module m; assign a[1:2^:3] = b;",
    "module m; assign a ^, b;",
    "module m; assign a = {^};",
    "module m; assign a = {b ^;",
    "module m; assign a = ^1;",
    "module m; and ^;",
    "module m; and g ^;",
    "module m; and (^);",
    "module m; and (a, b) ^g (a, b);",
    "module m; c ^;",
    "module m; c #(^a) i ();",
    "module m; c #(.a(^a)) i ();",
    "module m; c #(.a(1),^) i ();",
    "module m; c i (.^(a));",
    "module m; c i (.a(b ^c));",
    "module m; c i (.a(), ^a);",
    "module m; c i (a, ^.b());",
    "module m; c i () ^",
];

/// Whether a text is refused as N3 at its `^`.
fn is_refused_there(alloc: Global, marked: &str) -> Result<bool, Fail> {
    let Some(at) = marked.find('^') else {
        return Ok(false);
    };
    let mut text = Vec::from_slice(alloc, &marked.as_bytes()[..at])?;
    text.extend_from_slice(&marked.as_bytes()[at + 1..])?;
    let (number, place) = answer(alloc, text.as_slice())?;
    Ok(number == 3 && place.line == 1 && place.col as usize == at + 1)
}

#[test]
fn refuses_at_the_token(rt: HostRuntime) -> Result<(), Fail> {
    for marked in REFUSED {
        assert!(rt; is_refused_there(rt.alloc(), marked)?, "{marked}");
    }
    Ok(())
}

/// Texts with the number, line and column of their refusal.
const NUMBERED: [(&str, u8, u32, u32); 10] = [
    ("module m; endmodule", 0, 0, 0),
    (
        "module m (clk);\n  input clk;\n  always @(posedge clk) ;\nendmodule\n",
        2,
        3,
        3,
    ),
    ("module m ();\n", 3, 2, 1),
    // What stands outside the profile comes first, wherever it is.
    ("module module `define", 2, 1, 15),
    // The syntax comes before the limits.
    ("module m; wire [1048576:0] a;", 3, 1, 30),
    ("module m; wire [1048576:0] a; endmodule", 171, 1, 17),
    ("module m; wire [1048575:1048576] a; endmodule", 171, 1, 25),
    ("module m; assign a[1048576] = b; endmodule", 171, 1, 20),
    ("module m; assign b = a[0:1048576]; endmodule", 171, 1, 26),
    (
        "module m; assign a = {{{{{{{{{{{{{{{{{{{{{{{{{{{{{{{{{b}}}}}}}}}}}}}}}}}}}}}}}}}}}}}}}}}; endmodule",
        170,
        1,
        54,
    ),
];

#[test]
fn refuses_by_number(rt: HostRuntime) -> Result<(), Fail> {
    for (text, number, line, col) in NUMBERED {
        let found = answer(rt.alloc(), text.as_bytes())?;
        assert!(rt; found == (number, Place { line, col }), "{text}");
    }
    Ok(())
}

/// A hundred thousand open braces are refused at their end.
#[test]
fn reads_deep_texts(rt: HostRuntime) -> Result<(), Fail> {
    let mut text = Vec::from_slice(rt.alloc(), b"module m; assign a = ")?;
    for _ in 0..100_000 {
        text.push(b'{')?;
    }
    let found = answer(rt.alloc(), text.as_slice())?;
    assert!(rt;
        found
            == (
                3,
                Place {
                    line: 1,
                    col: 100_022
                }
            )
    );
    Ok(())
}

const ITEMS: &str = "module m (a, b);\n\
    input a;\n\
    assign b = {a, w[1], w[3:2], 4'b1010}, c = a;\n\
    nand (b, a), g (b, a);\n\
    LUT1 #(.INIT(2'h1), .N(7), .S(\"x\")) u (.I(a), .O()), v (a, b), w ();\n\
    endmodule";

/// What an item is: `n` for a net, `a` for an assignment, `g` for a gate, `i` for an instance.
fn letter(item: &Item) -> u8 {
    match item {
        Item::Net(_) => b'n',
        Item::Assign(_, _) => b'a',
        Item::Gate(_) => b'g',
        Item::Inst(_) => b'i',
    }
}

#[test]
fn reads_items_in_order(rt: HostRuntime) -> Result<(), Fail> {
    let mut letters = Vec::new(rt.alloc());
    match tree_of(rt.alloc(), ITEMS.as_bytes()) {
        Ok(tree) => {
            for module in tree.modules.as_slice() {
                for item in module.items.as_slice() {
                    letters.push(letter(item))?;
                }
            }
        }
        Err(_) => Err("refused")?,
    }
    assert_eq!(rt; letters.as_slice(), b"naaggiii".as_slice());
    Ok(())
}
