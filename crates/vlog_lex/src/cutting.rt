ghost use Rattle.std.specs.Prelude.{◌≡◌, ℕ, List, [], ◌+◌, ◌^◌, ◌<◌, ◌≤◌, Some, None, length, IfOk, IfErr};
ghost use Rattle.vlog_lex.specs.declared.token.Token.{Token as TokenOf};
ghost use Rattle.vlog_lex.specs.Cutting.{Cuts, settled};
ghost use Rattle.ila_base.specs.Stops.{StopsFor};
ghost use Rattle.ila_base.specs.declared.limits.TheConstants.{FILE_BYTES};
ghost use Rattle.vlog_lex.specs.Reading.{bytes_of};
ghost use Rattle.vlog_lex.specs.Taking.{IsTaken, IsFlawAt};

use crate::directive::last_endif;
use crate::marks::{is_mark_of, settle_last};
use crate::piece::piece_at;
use crate::token::{Piece, Token};
use ila_base::{NetFault, NetStop, Place};
use std::alloc::Global;

/// Adds the token that a piece is, if it is one, to those before it, of which the last is settled
/// then, and gives the count of the piece's bytes.
fn take_piece(
    tokens: &mut Vec<Token>,
    at: usize,
    place: Place,
    piece: Piece,
) -> Result<usize, NetStop>
    requires { at + bytes_of piece < 2 ^ 32 }
    ensures taken { IfOk result (λ count. IsTaken at place piece count tokens.old.items tokens.new.items) }
    ensures refused { IfErr result (StopsFor (IsFlawAt place piece)) }
{
    match piece {
        Piece::Skip(count) => Ok(count),
        Piece::Token(kind, count) => {
            settle_last(tokens, is_mark_of(b'(', &kind));
            let start = at as u32;
            let end = (at + count) as u32;
            tokens.push(Token {
                kind,
                place,
                start,
                end,
            })?;
            Ok(count)
        }
        Piece::Refused(flaw) => Err(NetStop::Refused(NetFault {
            refusal: flaw.refusal(),
            place,
        })),
    }
}

/// The tokens of a text.
pub fn cut(alloc: Global, text: &[u8]) -> Result<Vec<Token>, NetStop>
    requires { length text.now ≤ FILE_BYTES }
    ensures found { IfOk result (λ tokens. (pieces : List TokenOf) × Cuts [] text.now pieces None × (tokens.items ≡ settled pieces)) }
    ensures refused { IfErr result (StopsFor (λ fault. (tokens : List TokenOf) × Cuts [] text.now tokens (Some fault))) }
{
    let closing = last_endif(text);
    let mut tokens = Vec::new(alloc);
    let mut place = Place::START;
    let mut at = 0;
    while at < text.len() {
        let piece = piece_at(&text[at..], at < closing);
        let count = take_piece(&mut tokens, at, place, piece)?;
        let end = at + count;
        place = place.further(text, at, end);
        at = end;
    }
    settle_last(&mut tokens, false);
    Ok(tokens)
}
