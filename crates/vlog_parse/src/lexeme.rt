ghost use Rattle.std.specs.Prelude.{◌≡◌, length, ◌<◌, if◌then◌else◌};
ghost use Rattle.std.specs.Str.{bytes_eq};
ghost use Rattle.vlog_parse.specs.declared.sort.Sort.TheVariants.{Name};
ghost use Rattle.vlog_lex.specs.Cutting.{IsWithin};
ghost use Rattle.vlog_parse.specs.Lexemes.{word_sort, mark_sort, sort_of, name_of, bytes_of, number_of, word_of};

use crate::sort::Sort;
use ila_base::Word;
use vlog_lex::{PackedWord, Token, TokenKind};

/// The sort, where the word is its keyword, or a name.
fn sort_if(word: &[u8], keyword: &[u8], sort: Sort) -> Sort
    ensures { result ≡ (if bytes_eq word.now keyword.now then sort else Name) }
{
    if word == keyword {
        return sort;
    }
    Sort::Name
}

/// The keyword that an identifier is, or a name. Its first byte leaves few.
fn word_sort(word: &[u8]) -> Sort
    ensures { result ≡ word_sort word.now }
{
    match word {
        [b'a', b's', ..] => sort_if(word, b"assign", Sort::Assign),
        [b'a', ..] => sort_if(word, b"and", Sort::And),
        [b'b', ..] => sort_if(word, b"buf", Sort::Buf),
        [b'e', ..] => sort_if(word, b"endmodule", Sort::EndModule),
        [b'i', ..] => sort_if(word, b"input", Sort::Input),
        [b'm', ..] => sort_if(word, b"module", Sort::Module),
        [b'n', b'a', ..] => sort_if(word, b"nand", Sort::Nand),
        [b'n', b'o', b'r', ..] => sort_if(word, b"nor", Sort::Nor),
        [b'n', ..] => sort_if(word, b"not", Sort::Not),
        [b'o', b'r', ..] => sort_if(word, b"or", Sort::Or),
        [b'o', ..] => sort_if(word, b"output", Sort::Output),
        [b'w', ..] => sort_if(word, b"wire", Sort::Wire),
        [b'x', b'n', ..] => sort_if(word, b"xnor", Sort::Xnor),
        [b'x', ..] => sort_if(word, b"xor", Sort::Xor),
        _ => Sort::Name,
    }
}

/// What a mark is.
pub fn mark_sort(mark: u8) -> Sort
    ensures { result ≡ mark_sort mark }
{
    match mark {
        b'(' => Sort::LeftParenthesis,
        b')' => Sort::RightParenthesis,
        b'[' => Sort::LeftBracket,
        b']' => Sort::RightBracket,
        b'{' => Sort::LeftBrace,
        b'}' => Sort::RightBrace,
        b',' => Sort::Comma,
        b';' => Sort::Semicolon,
        b':' => Sort::Colon,
        b'.' => Sort::Dot,
        b'=' => Sort::Equals,
        b'#' => Sort::Hash,
        _ => Sort::Outside,
    }
}

/// The bytes of a token.
pub fn bytes_of<'a>(text: &'a [u8], token: &Token) -> &'a [u8]
    requires { IsWithin (length text.now) token.now }
    ensures { result.now ≡ bytes_of text.now token.now }
{
    &text[token.start as usize..token.end as usize]
}

/// What a token is.
pub fn sort_of(kind: TokenKind, bytes: &[u8]) -> Sort
    ensures { result ≡ sort_of kind bytes.now }
{
    match kind {
        TokenKind::Ident => word_sort(bytes),
        TokenKind::Escaped => Sort::Name,
        TokenKind::Number(_) => Sort::Number,
        TokenKind::Sized(_) => Sort::Sized,
        TokenKind::Text => Sort::Text,
        TokenKind::Mark(mark) => mark_sort(mark),
        TokenKind::Outside => Sort::Outside,
    }
}

/// The name that a token's bytes write.
pub fn name_of(kind: TokenKind, bytes: &[u8]) -> &[u8]
    requires { 0 < length bytes.now }
    ensures { result.now ≡ name_of kind bytes.now }
{
    match kind {
        TokenKind::Escaped => &bytes[1..],
        _ => bytes,
    }
}

/// The number of an unsized one, else 0.
pub fn number_of(kind: TokenKind) -> u32
    ensures { result ≡ number_of kind }
{
    match kind {
        TokenKind::Number(number) => number,
        _ => 0,
    }
}

/// The word of a constant, else one without bits.
pub fn word_of(kind: TokenKind) -> PackedWord
    ensures { result ≡ word_of kind }
{
    match kind {
        TokenKind::Sized(word) => word,
        _ => PackedWord::new(Word { width: 0, value: 0 }),
    }
}
