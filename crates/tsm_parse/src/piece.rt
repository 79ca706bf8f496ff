ghost use Rattle.std.specs.Prelude.{◌≡◌};
ghost use Rattle.tsm_parse.specs.Reading.{piece_at};

use crate::keywords::sort_at;
use crate::lengths::{skip_length, token_length};
use crate::token::Sort;

/// A piece that a text begins with, and how many bytes it has.
#[derive(Clone, Copy, Debug)]
pub enum Piece {
    /// White space or a comment.
    Skip(usize),
    /// A token.
    Token(Sort, usize),
    /// No piece: the text is refused here.
    Nothing,
}

/// The piece that the text begins with.
pub fn piece_at(text: &[u8]) -> Piece
    ensures { result ≡ piece_at text.now }
{
    let skipped = skip_length(text);
    if skipped > 0 {
        return Piece::Skip(skipped);
    }
    let count = token_length(text);
    if count > 0 {
        return Piece::Token(sort_at(&text[..count]), count);
    }
    Piece::Nothing
}
