ghost use Rattle.std.specs.Prelude.{◌≡◌, ◌≤◌, ℕ, List, [], true, false, Some, None, MatchResult};
ghost use Rattle.ila_base.specs.declared.limits.TheConstants.{NESTING};
ghost use Rattle.vlog_parse.specs.Lexemes.{Lexeme, lexeme, sort_of};
ghost use Rattle.vlog_parse.specs.Limits.{open_behind, opens_index, excess_of, seen_of, first_excess, AreClean};

use crate::lexeme::{mark_sort, number_of};
use crate::parser::Parser;
use crate::sort::Sort;
use ila_base::limits::{GREATEST_INDEX, NESTING};
use ila_base::{LimitKind, Place};
use vlog_lex::{Token, TokenKind};

/// A count that is above its limit, and the place of the token with which it is.
#[derive(Clone, Copy, Debug)]
pub struct Excess {
    pub kind: LimitKind,
    pub count: u64,
    pub place: Place,
}

/// What counts of a token.
#[derive(Clone, Copy, Debug)]
pub struct Seen {
    /// Whether it opens a brace.
    pub opens: bool,
    /// Whether it closes one.
    pub closes: bool,
    /// Whether an index may follow it.
    pub before_index: bool,
    /// Whether it is a number that is too large for an index.
    pub large: bool,
    /// Whether it stands for no construct of the profile.
    pub outside: bool,
    pub number: u32,
    pub place: Place,
}

// What a token of this kind is, without its text, where every identifier is taken for a name.
fn kind_sort(kind: TokenKind) -> Sort
    ensures { result ≡ sort_of kind [] }
{
    match kind {
        TokenKind::Ident => Sort::Name,
        TokenKind::Escaped => Sort::Name,
        TokenKind::Number(_) => Sort::Number,
        TokenKind::Sized(_) => Sort::Sized,
        TokenKind::Text => Sort::Text,
        TokenKind::Mark(mark) => mark_sort(mark),
        TokenKind::Outside => Sort::Outside,
    }
}

/// What counts of a token. No keyword counts, so its text isn't looked at.
pub fn seen_in(token: &Token) -> Seen
    ensures { (text : List ℕ) → result ≡ seen_of (lexeme text token.now) }
{
    let sort = kind_sort(token.kind);
    let number = number_of(token.kind);
    Seen {
        opens: sort.is(Sort::LeftBrace),
        closes: sort.is(Sort::RightBrace),
        before_index: sort.is(Sort::LeftBracket) || sort.is(Sort::Colon),
        large: sort.is(Sort::Number) && number > GREATEST_INDEX,
        outside: sort.is(Sort::Outside),
        number,
        place: token.place,
    }
}

/// What counts of the tokens before.
#[derive(Clone, Copy, Debug)]
pub struct Counts {
    /// How many braces are open.
    pub braces: u32,
    /// Whether an index comes next.
    pub index: bool,
}

impl Counts {
    /// The counts behind one more token, or the limit that it passes.
    fn behind(self, seen: Seen) -> Result<Counts, Excess>
        requires { self.braces ≤ NESTING }
        ensures { (t : Lexeme) → seen ≡ seen_of t → MatchResult result
            (λ counts. (excess_of self.braces self.index t ≡ None) × (counts.braces ≡ open_behind self.braces t) × (counts.index ≡ opens_index t) × (counts.braces ≤ NESTING))
            (λ excess. excess_of self.braces self.index t ≡ Some excess) }
    {
        if seen.opens && self.braces == NESTING {
            return Err(Excess {
                kind: LimitKind::Nesting,
                count: u64::from(NESTING) + 1,
                place: seen.place,
            });
        }
        if self.index && seen.large {
            return Err(Excess {
                kind: LimitKind::Index,
                count: u64::from(seen.number),
                place: seen.place,
            });
        }
        let index = seen.before_index;
        if seen.opens {
            return Ok(Counts {
                braces: self.braces + 1,
                index,
            });
        }
        if seen.closes {
            return Ok(Counts {
                braces: self.braces.saturating_sub(1),
                index,
            });
        }
        Ok(Counts {
            braces: self.braces,
            index,
        })
    }
}

/// What a scan of the tokens finds.
#[derive(Clone, Copy, Debug)]
pub struct Scan {
    /// Whether all tokens were seen, and each stands for a construct of the profile.
    pub clean: bool,
    /// The first limit that is passed.
    pub excess: Option<Excess>,
}

impl<'a> Parser<'a> {
    /// The first limit that the tokens pass, if one does: 33 braces are open at once, or an index is
    /// above 1,048,575. It takes the tokens to there, and where it takes them all, it also tells
    /// whether each stands for a construct of the profile.
    pub fn scan(&mut self) -> Scan
        ensures excess { result.excess ≡ first_excess 0 false self.old }
        ensures clean { result.clean ≡ true → AreClean self.old }
    {
        let mut counts = Counts {
            braces: 0,
            index: false,
        };
        let mut clean = true;
        'tokens: while let Some(seen) = self.take() {
            clean = clean && !seen.outside;
            match counts.behind(seen) {
                Ok(next) => counts = next,
                Err(excess) => {
                    return Scan {
                        clean: false,
                        excess: Some(excess),
                    };
                }
            }
        }
        Scan {
            clean,
            excess: None,
        }
    }
}
