ghost use Rattle.std.specs.Prelude.{◌≡◌, [], ◌↔◌, IsTrue, IfOk, length, ◌<◌, ◌≤◌, slice_range};
ghost use Rattle.std.specs.Option.{option_map};
ghost use Rattle.grammar.specs.Rule.{looks, first, end};
ghost use Rattle.tsm_parse.specs.Lexemes.{is, of_sort, lexemes, place_of, AreWithin};
ghost use Rattle.tsm_parse.specs.Conditions.{mark, name, register, left, constant, constant_of_bytes, operator};
ghost use Rattle.tsm_parse.specs.Programs.{is_act, act};
ghost use Rattle.grammar.specs.Giving.{Gives};

use crate::digits;
use crate::parts::{Named, Valued};
use crate::token::{Sort, Token};
use crate::types::{Act, Constant};
use grammar::Stop;
use ila_base::{Digits, Name, NoMemory, Op, Place};
use std::alloc::Global;
use std::marker::Model;

/// What is left of a program's tokens. Each method is named as the rule of the grammar that it reads;
/// where the grammar refuses a token, the parser is left standing there.
#[derive(Drop)]
pub struct Parser<'a> {
    text: &'a [u8],
    rest: &'a [Token],
}

impl<'a> Model for Parser<'a> {
    ghost use Rattle.std.specs.Prelude.{List, length};
    ghost use Rattle.tsm_parse.specs.Lexemes.{Lexeme, lexemes, AreWithin};

    ghost Value = { List Lexeme };

    ghost view = { λ p. lexemes p.text.now p.rest.now };

    ghost invariant = { λ p. AreWithin (length p.text.now) p.rest.now };
}

/// The bytes of a token.
fn bytes_of<'a>(text: &'a [u8], token: &Token) -> &'a [u8]
    requires some { token.now.start < token.now.end }
    requires within { token.now.end ≤ length text.now }
    ensures { result.now ≡ slice_range text.now token.now.start token.now.end }
{
    &text[token.start as usize..token.end as usize]
}

// The constant that the bytes are.
fn constant_of(alloc: Global, bytes: &[u8]) -> Result<Constant, NoMemory>
    ensures { IfOk result (λ found. found ≡ constant_of_bytes bytes.now) }
{
    match digits::constant(alloc, bytes)? {
        Some(constant) => Ok(constant),
        None => Ok(Constant {
            width: None,
            digits: Digits::new(Vec::new(alloc)),
        }),
    }
}

impl<'a> Parser<'a> {
    /// All of a program's tokens are left.
    pub fn new(text: &'a [u8], tokens: &'a [Token]) -> Parser<'a>
        requires { AreWithin (length text.now) tokens.now }
        ensures { result ≡ lexemes text.now tokens.now }
    {
        Parser { text, rest: tokens }
    }

    /// The place of the next token, if there is one.
    pub fn place(&self) -> Option<Place>
        ensures { result ≡ option_map place_of (first self.now) }
    {
        match self.rest.first() {
            Some(token) => Some(token.place),
            None => None,
        }
    }

    /// Whether the next token is of the sort.
    pub fn sees(&self, sort: Sort) -> bool
        ensures { result ≡ looks (is sort) self.now }
    {
        match self.rest.first() {
            Some(token) => token.sort.is(sort),
            None => false,
        }
    }

    pub fn sees_act(&self) -> bool
        ensures { result ≡ looks (of_sort is_act) self.now }
    {
        match self.rest.first() {
            Some(token) => token.sort.is_act(),
            None => false,
        }
    }

    /// Whether no token is left.
    pub fn is_at_end(&self) -> bool
        ensures { IsTrue result ↔ (self.now ≡ []) }
    {
        self.rest.is_empty()
    }

    /// The end of the text.
    pub fn end_of_text(&mut self) -> Result<(), Stop>
        ensures { Gives (end.read self.old) result self.new }
    {
        if self.is_at_end() {
            return Ok(());
        }
        Err(Stop::Syntax)
    }

    /// A token of the sort.
    pub fn mark(&mut self, sort: Sort) -> Result<(), Stop>
        ensures { Gives ((mark sort).read self.old) result self.new }
    {
        match self.rest.split_first() {
            Some((token, rest)) => {
                if !token.sort.is(sort) {
                    return Err(Stop::Syntax);
                }
                self.rest = rest;
                Ok(())
            }
            None => Err(Stop::Syntax),
        }
    }

    /// A word that is no keyword.
    pub fn name(&mut self, alloc: Global) -> Result<Named, Stop>
        ensures { Gives (name.read self.old) result self.new }
    {
        match self.rest.split_first() {
            Some((token, rest)) => {
                if !token.sort.is(Sort::Name) {
                    return Err(Stop::Syntax);
                }
                let name = Name::new(alloc, bytes_of(self.text, token))?;
                self.rest = rest;
                Ok(Named {
                    name,
                    place: token.place,
                })
            }
            None => Err(Stop::Syntax),
        }
    }

    /// A register, with its `$`.
    pub fn register(&mut self, alloc: Global) -> Result<Named, Stop>
        ensures { Gives (register.read self.old) result self.new }
    {
        match self.rest.split_first() {
            Some((token, rest)) => {
                if !token.sort.is(Sort::Register) {
                    return Err(Stop::Syntax);
                }
                let name = Name::new(alloc, bytes_of(self.text, token))?;
                self.rest = rest;
                Ok(Named {
                    name,
                    place: token.place,
                })
            }
            None => Err(Stop::Syntax),
        }
    }

    /// The left side of a comparison: a name or a register.
    pub fn left(&mut self, alloc: Global) -> Result<Named, Stop>
        ensures { Gives (left.read self.old) result self.new }
    {
        match self.rest.split_first() {
            Some((token, rest)) => {
                if !token.sort.is_left() {
                    return Err(Stop::Syntax);
                }
                let name = Name::new(alloc, bytes_of(self.text, token))?;
                self.rest = rest;
                Ok(Named {
                    name,
                    place: token.place,
                })
            }
            None => Err(Stop::Syntax),
        }
    }

    /// A constant.
    pub fn constant(&mut self, alloc: Global) -> Result<Valued, Stop>
        ensures { Gives (constant.read self.old) result self.new }
    {
        match self.rest.split_first() {
            Some((token, rest)) => {
                if !token.sort.is(Sort::Constant) {
                    return Err(Stop::Syntax);
                }
                let constant = constant_of(alloc, bytes_of(self.text, token))?;
                self.rest = rest;
                Ok(Valued {
                    constant,
                    place: token.place,
                })
            }
            None => Err(Stop::Syntax),
        }
    }

    /// An operator of a comparison.
    pub fn operator(&mut self) -> Result<Op, Stop>
        ensures { Gives (operator.read self.old) result self.new }
    {
        match self.rest.split_first() {
            Some((token, rest)) => {
                if !token.sort.is_operator() {
                    return Err(Stop::Syntax);
                }
                self.rest = rest;
                Ok(token.sort.op())
            }
            None => Err(Stop::Syntax),
        }
    }

    /// The keyword of an action.
    pub fn act(&mut self) -> Result<Act, Stop>
        ensures { Gives (act.read self.old) result self.new }
    {
        match self.rest.split_first() {
            Some((token, rest)) => {
                if !token.sort.is_act() {
                    return Err(Stop::Syntax);
                }
                self.rest = rest;
                Ok(token.sort.act())
            }
            None => Err(Stop::Syntax),
        }
    }
}
