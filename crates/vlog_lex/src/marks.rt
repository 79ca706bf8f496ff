ghost use Rattle.std.specs.Prelude.{◌≡◌};
ghost use Rattle.vlog_lex.specs.Cutting.{is_mark_of};
ghost use Rattle.vlog_lex.specs.Taking.{settled_last};

use crate::token::{Token, TokenKind};

/// Whether the token is this mark.
pub fn is_mark_of(mark: u8, kind: &TokenKind) -> bool
    ensures { result ≡ is_mark_of mark kind.now }
{
    match kind {
        TokenKind::Mark(byte) => *byte == mark,
        _ => false,
    }
}

/// Leaves the last token a mark `#` only where the next one is `(`.
pub fn settle_last(tokens: &mut Vec<Token>, parenthesis: bool)
    ensures { tokens.new.items ≡ settled_last tokens.old.items parenthesis }
{
    let count = tokens.len();
    if parenthesis {
        return;
    }
    if count == 0 {
        return;
    }
    let last = tokens[count - 1];
    if is_mark_of(b'#', &last.kind) {
        tokens[count - 1] = Token {
            kind: TokenKind::Outside,
            ..last
        };
    }
}
