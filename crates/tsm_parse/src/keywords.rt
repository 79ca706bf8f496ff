ghost use Rattle.std.specs.Prelude.{◌≡◌, List, map};
ghost use Rattle.std.specs.Str.{bytes_eq};
ghost use Rattle.tsm_parse.specs.Words.{is_keyword, word_sort, single_sort, double_sort, mark_sort, lower};
ghost use Rattle.tsm_parse.specs.Reading.{sort_at};

use crate::letters::lower;
use crate::token::Sort;
use ila_base::bytes::{is_digit, is_letter};

/// Whether the bytes are the keyword, which is in lower case, in any case.
fn is_keyword(keyword: &[u8], bytes: &[u8]) -> bool
    ensures { result ≡ is_keyword keyword.now bytes.now }
{
    if bytes.len() != keyword.len() {
        return false;
    }
    for (at, byte) in bytes.iter().enumerate() {
        if lower(*byte) != keyword[at] {
            return false;
        }
    }
    true
}

/// What a word is to the grammar: a keyword, in any case, or a name.
fn word_sort(word: &[u8]) -> Sort
    ensures { result ≡ word_sort word.now }
{
    if is_keyword(b"state", word) {
        Sort::State
    } else if is_keyword(b"if", word) {
        Sort::If
    } else if is_keyword(b"then", word) {
        Sort::Then
    } else if is_keyword(b"elseif", word) {
        Sort::ElseIf
    } else if is_keyword(b"else", word) {
        Sort::Else
    } else if is_keyword(b"endif", word) {
        Sort::EndIf
    } else if is_keyword(b"goto", word) {
        Sort::Goto
    } else if is_keyword(b"trigger", word) {
        Sort::Trigger
    } else if is_keyword(b"set_flag", word) {
        Sort::SetFlag
    } else if is_keyword(b"clear_flag", word) {
        Sort::ClearFlag
    } else if is_keyword(b"increment_counter", word) {
        Sort::IncrementCounter
    } else if is_keyword(b"reset_counter", word) {
        Sort::ResetCounter
    } else {
        Sort::Name
    }
}

fn single_sort(byte: u8) -> Sort
    ensures { result ≡ single_sort byte }
{
    match byte {
        b':' => Sort::Colon,
        b';' => Sort::Semicolon,
        b'(' => Sort::LeftParenthesis,
        b')' => Sort::RightParenthesis,
        b'<' => Sort::Less,
        _ => Sort::Greater,
    }
}

fn double_sort(byte: u8) -> Sort
    ensures { result ≡ double_sort byte }
{
    match byte {
        b'=' => Sort::Equal,
        b'!' => Sort::NotEqual,
        b'<' => Sort::LessEqual,
        b'>' => Sort::GreaterEqual,
        b'&' => Sort::AndAnd,
        _ => Sort::OrOr,
    }
}

fn mark_sort(bytes: &[u8]) -> Sort
    ensures { result ≡ mark_sort bytes.now }
{
    match bytes {
        [] => Sort::Name,
        [byte] => single_sort(*byte),
        [byte, ..] => double_sort(*byte),
    }
}

/// What a token is to the grammar.
pub fn sort_at(bytes: &[u8]) -> Sort
    ensures { result ≡ sort_at bytes.now }
{
    let [byte, ..] = bytes else {
        return Sort::Name;
    };
    if is_digit(*byte) {
        Sort::Constant
    } else if is_letter(*byte) {
        word_sort(bytes)
    } else if *byte == b'$' {
        Sort::Register
    } else {
        mark_sort(bytes)
    }
}
