ghost use Rattle.std.specs.Prelude.{◌≡◌, ◌≤◌, None, length, IfOk, IfErr};
ghost use Rattle.std.specs.Option.{option_map};
ghost use Rattle.grammar.specs.Rule.{first};
ghost use Rattle.ila_base.specs.declared.limits.TheConstants.{SMALL_FILE_BYTES};
ghost use Rattle.tsm_parse.specs.Lexemes.{lexemes, AreWithin, place_of};
ghost use Rattle.tsm_parse.specs.Programs.{IsProgram};
ghost use Rattle.grammar.specs.Faults.{place_of_rest};
ghost use Rattle.ila_base.specs.Places.{place_behind};
ghost use Rattle.tsm_parse.specs.ReadTree.{IsReadTree};
ghost use Rattle.tsm_parse.specs.Refusals.{StandsFor, IsSyntaxFault, IsRefusal, StopsFor};

use crate::lexer::tokens;
use crate::parser::Parser;
use crate::token::Token;
use crate::types::{Ast, TsmFault, TsmStop};
use grammar::Stop;
use ila_base::limits::SMALL_FILE_BYTES;
use ila_base::{Place, TsmRefusal};
use std::alloc::Global;

/// The place of the next token, or that behind the text's last byte.
fn place_or_end(text: &[u8], next: Option<Place>) -> Place
    requires { length text.now ≤ SMALL_FILE_BYTES }
    ensures { (rest : _) → next ≡ option_map place_of (first rest)
        → result ≡ place_of_rest place_of (place_behind text.now) rest }
{
    match next {
        Some(place) => place,
        None => Place::behind(text),
    }
}

/// The tree of the program that the tokens are, or the place at which they are those of none.
fn read_program(alloc: Global, text: &[u8], tokens: &[Token]) -> Result<Ast, TsmStop>
    requires within { AreWithin (length text.now) tokens.now }
    requires short { length text.now ≤ SMALL_FILE_BYTES }
    ensures ok { IfOk result (IsProgram text.now tokens.now) }
    ensures err { IfErr result (StopsFor (IsSyntaxFault text.now tokens.now)) }
{
    let mut parser = Parser::new(text, tokens);
    match parser.program(alloc) {
        Ok(ast) => Ok(ast),
        Err(Stop::NoMemory) => Err(TsmStop::NoMemory),
        Err(Stop::Syntax) => Err(TsmStop::Refused(TsmFault {
            refusal: TsmRefusal::Syntax,
            place: place_or_end(text, parser.place()),
        })),
    }
}

/// The tree that the text of a trigger program stands for (UG908, trigger state machine language).
///
/// A text of more than 1,048,576 bytes is refused as Q2 at 0:0. Any other is refused at the first
/// byte outside white space and comments that begins no token (Q1); else at the first token that no
/// program goes on with, or behind the text's last byte where it ends before its program does (Q2).
/// The 65th parenthesis open at once is such a token; the one of `if` counts.
pub fn program(alloc: Global, text: &[u8]) -> Result<Ast, TsmStop>
    // The text stands for this tree, and for no other (`one_program`).
    ensures found { IfOk result (StandsFor text.now) }
    // It is as the next layer asks.
    ensures read { IfOk result IsReadTree }
    ensures short { IfOk result (λ _. length text.now ≤ SMALL_FILE_BYTES) }
    // It is refused for the first cause alone.
    ensures refused { IfErr result (StopsFor (IsRefusal text.now)) }
{
    if text.len() > SMALL_FILE_BYTES {
        return Err(TsmStop::Refused(TsmFault {
            refusal: TsmRefusal::Syntax,
            place: Place::NOWHERE,
        }));
    }
    let found = match tokens(alloc, text) {
        Ok(found) => found,
        Err(stop) => return Err(stop),
    };
    read_program(alloc, text, found.as_slice())
}
