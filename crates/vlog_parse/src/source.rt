ghost use Rattle.std.specs.Prelude.{◌≡◌, ◌≤◌, true, List, None, length, IfOk, IfErr, OnOk};
ghost use Rattle.std.specs.Option.{option_map};
ghost use Rattle.std.specs.List.{find};
ghost use Rattle.grammar.specs.Rule.{first};
ghost use Rattle.grammar.specs.Rule.Outcome.{Stuck};
ghost use Rattle.vlog_lex.specs.Cutting.{IsReading, IsWithin};
ghost use Rattle.ila_base.specs.Stops.{StopsFor};
ghost use Rattle.ila_base.specs.Places.{place_behind};
ghost use Rattle.grammar.specs.Faults.{place_of_rest};
ghost use Rattle.ila_base.specs.declared.limits.TheConstants.{FILE_BYTES};
ghost use Rattle.vlog_parse.specs.Lexemes.{Lexeme, lexemes, AreWithin, bytes_of};
ghost use Rattle.vlog_parse.specs.Items.{place_of};
ghost use Rattle.vlog_parse.specs.Design.{design_over};
ghost use Rattle.vlog_parse.specs.Skipping.{cut};
ghost use Rattle.vlog_parse.specs.Limits.{first_excess};
ghost use Rattle.vlog_parse.specs.Parsing.{is_outside, construct_name, HasNoOutside, IsConstructFault, IsRefusal, IsReadAs};
ghost use Rattle.vlog_parse.specs.ReadTree.{IsReadTree};

use crate::lexeme::bytes_of;
use crate::limits::Excess;
use crate::parser::Parser;
use crate::tree::Tree;
use grammar::Stop;
use ila_base::{Name, NetFault, NetRefusal, NetStop, Place};
use std::alloc::Global;
use vlog_lex::{Token, TokenKind};

fn is_outside(kind: TokenKind) -> bool
    ensures { result ≡ is_outside kind }
{
    matches!(kind, TokenKind::Outside)
}

/// The first token that stands for no construct of the profile.
fn first_outside(tokens: &[Token]) -> Option<Token>
    ensures { result ≡ find (λ t. is_outside t.kind) tokens.now }
{
    'tokens: for token in tokens {
        if is_outside(token.kind) {
            return Some(*token);
        }
    }
    None
}

/// The word or byte of a token that stands for no construct: a compiler directive's is without the
/// backquote.
fn construct_name(bytes: &[u8]) -> &[u8]
    ensures { result.now ≡ construct_name bytes.now }
{
    match bytes {
        [b'`', word @ ..] => word,
        _ => bytes,
    }
}

/// Refuses tokens among which one stands for no construct of the profile, at the first such.
fn check_profile(alloc: Global, text: &[u8], tokens: &[Token]) -> Result<(), NetStop>
    requires { AreWithin (length text.now) tokens.now }
    ensures ok { OnOk result (HasNoOutside tokens.now) }
    ensures err { IfErr result (StopsFor (IsConstructFault text.now tokens.now)) }
{
    match first_outside(tokens) {
        Some(token) => {
            let name = Name::new(alloc, construct_name(bytes_of(text, &token)))?;
            Err(NetStop::Refused(NetFault {
                refusal: NetRefusal::Construct(name),
                place: token.place,
            }))
        }
        None => Ok(()),
    }
}

/// The place of the next token, or that behind the text's last byte.
fn place_or_end(text: &[u8], next: Option<Place>) -> Place
    requires { length text.now ≤ FILE_BYTES }
    ensures { (rest : _) → next ≡ option_map place_of (first rest)
        → result ≡ place_of_rest place_of (place_behind text.now) rest }
{
    match next {
        Some(place) => place,
        None => Place::behind(text),
    }
}

/// Refuses tokens among which one stands for no construct of the profile, where that isn't known yet.
fn check_unless_clean(
    alloc: Global,
    text: &[u8],
    tokens: &[Token],
    clean: bool,
) -> Result<(), NetStop>
    requires within { AreWithin (length text.now) tokens.now }
    requires clean { clean ≡ true → HasNoOutside tokens.now }
    ensures ok { OnOk result (HasNoOutside tokens.now) }
    ensures err { IfErr result (StopsFor (IsConstructFault text.now tokens.now)) }
{
    if clean {
        return Ok(());
    }
    check_profile(alloc, text, tokens)
}

/// Why the tokens are refused, which are those of no design from a place on.
fn refused_at(alloc: Global, text: &[u8], tokens: &[Token], place: Place) -> NetStop
    requires { AreWithin (length text.now) tokens.now }
    ensures { (rest : List Lexeme) → (design_over cut).read (lexemes text.now tokens.now) ≡ Stuck rest
        → place ≡ place_of_rest place_of (place_behind text.now) rest → StopsFor (IsRefusal text.now tokens.now) result }
{
    match check_profile(alloc, text, tokens) {
        Err(stop) => stop,
        Ok(()) => NetStop::Refused(NetFault {
            refusal: NetRefusal::Syntax,
            place,
        }),
    }
}

/// The tree of the design that the tokens are, with its concatenations kept as deep as they may be,
/// or why they are refused that are those of none.
fn read_design(alloc: Global, text: &[u8], tokens: &[Token]) -> Result<Tree, NetStop>
    requires within { AreWithin (length text.now) tokens.now }
    requires short { length text.now ≤ FILE_BYTES }
    ensures ok { IfOk result (λ tree. (design_over cut).words (lexemes text.now tokens.now) tree) }
    ensures err { IfErr result (StopsFor (IsRefusal text.now tokens.now)) }
{
    let mut parser = Parser::new(text, tokens);
    match parser.design(alloc) {
        Ok(tree) => Ok(tree),
        Err(Stop::NoMemory) => Err(NetStop::NoMemory),
        Err(Stop::Syntax) => {
            let place = place_or_end(text, parser.place());
            Err(refused_at(alloc, text, tokens, place))
        }
    }
}

/// The tree that the tokens of a text stand for: the modules of its design (IEEE 1364-2005, clauses
/// 4, 5, 6, 7 and 12), in this profile.
///
/// The tokens are refused at the first of kind `Outside` (N2), with its word or byte. Else at the
/// first that no design goes on with, or behind the text's last byte where the text ends before its
/// design does (N3). Else at the first with which 33 braces are open at once (N17 Nesting, with 33),
/// or that is an index above 1,048,575 (N17 Index, with the index).
pub fn parse(alloc: Global, text: &[u8], tokens: &[Token]) -> Result<Tree, NetStop>
    requires { IsReading text.now tokens.now None }
    // The tokens are those of one design, whose tree this is (`one_tree`).
    ensures found { IfOk result (IsReadAs text.now tokens.now) }
    // Its names are spelled, its constants have their bits, its indices are within their limit, and
    // it has no more of anything than a text has bytes.
    ensures read { IfOk result IsReadTree }
    // They are refused for the first cause alone.
    ensures refused { IfErr result (StopsFor (IsRefusal text.now tokens.now)) }
{
    let tree = read_design(alloc, text, tokens)?;
    let scan = Parser::new(text, tokens).scan();
    check_unless_clean(alloc, text, tokens, scan.clean)?;
    match scan.excess {
        Some(excess) => Err(NetStop::Refused(NetFault {
            refusal: NetRefusal::Limit(excess.kind, excess.count),
            place: excess.place,
        })),
        None => Ok(tree),
    }
}
