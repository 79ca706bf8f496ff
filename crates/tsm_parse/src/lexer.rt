ghost use Rattle.std.specs.Prelude.{◌≡◌, ℕ, List, [], ◌+◌, ◌^◌, ◌<◌, ◌≤◌, Some, None, length, All, IfOk, IfErr};
ghost use Rattle.ila_base.specs.declared.limits.TheConstants.{SMALL_FILE_BYTES};
ghost use Rattle.tsm_parse.specs.declared.token.Token.{Token as TokenOf};
ghost use Rattle.tsm_parse.specs.Reading.{bytes_of, IsTaken, IsNothing};
ghost use Rattle.tsm_parse.specs.Tokens.{Cuts, StopsAt, IsWithin, RiseFrom, IsTokenIn};

use crate::piece::{Piece, piece_at};
use crate::token::Token;
use crate::types::{TsmFault, TsmStop};
use ila_base::{Place, TsmRefusal};
use std::alloc::Global;

/// Adds the token that a piece is, if it is one, and gives the count of the piece's bytes.
fn take_piece(
    tokens: &mut Vec<Token>,
    at: usize,
    place: Place,
    piece: Piece,
) -> Result<usize, TsmStop>
    requires { at + bytes_of piece < 2 ^ 32 }
    ensures taken { IfOk result (λ count. IsTaken at place piece count tokens.old.items tokens.new.items) }
    ensures refused { IfErr result (StopsAt (λ stop. IsNothing piece × (stop ≡ place))) }
{
    match piece {
        Piece::Skip(count) => Ok(count),
        Piece::Token(sort, count) => {
            let start = at as u32;
            let end = (at + count) as u32;
            tokens.push(Token {
                sort,
                place,
                start,
                end,
            })?;
            Ok(count)
        }
        Piece::Nothing => Err(TsmStop::Refused(TsmFault {
            refusal: TsmRefusal::BadByte,
            place,
        })),
    }
}

/// The tokens of a trigger program of at most 1,048,576 bytes, in order (UG908, trigger state machine
/// language). Each is the longest that fits; white space, and comments from `#` or `//` to the end of
/// their line, are skipped between tokens.
///
/// A text is refused at the place of its first byte that begins nothing (Q1).
pub fn tokens(alloc: Global, text: &[u8]) -> Result<Vec<Token>, TsmStop>
    requires { length text.now ≤ SMALL_FILE_BYTES }

    // The text is cut to its end into these tokens, and into no others (`one_reading`).
    ensures found { IfOk result (λ tokens. Cuts [] text.now tokens.items None) }
    // It is refused at its one place.
    ensures refused { IfErr result (StopsAt (λ place. (tokens : List TokenOf) × Cuts [] text.now tokens (Some place))) }

    // Each token is a part of the text, behind the one before it, with the sort of its bytes.
    ensures within { IfOk result (λ tokens. All (IsWithin (length text.now)) tokens.items) }
    ensures rise { IfOk result (λ tokens. RiseFrom 0 tokens.items) }
    ensures sorted { IfOk result (λ tokens. All (IsTokenIn text.now) tokens.items) }
{
    let mut tokens = Vec::new(alloc);
    let mut place = Place::START;
    let mut at = 0;
    while at < text.len() {
        let piece = piece_at(&text[at..]);
        let count = take_piece(&mut tokens, at, place, piece)?;
        let end = at + count;
        place = place.further(text, at, end);
        at = end;
    }
    Ok(tokens)
}
