ghost use Rattle.std.specs.Prelude.{◌≡◌, length, drop};
ghost use Rattle.grammar.specs.Rule.{first, looks, end};
ghost use Rattle.vlog_parse.specs.Lexemes.{lexemes, AreWithin};
ghost use Rattle.vlog_parse.specs.Sorts.{is_direction, is_gate, begins_item, begins_expr};
ghost use Rattle.vlog_parse.specs.Expressions.{is, mark, name, number, constant};
ghost use Rattle.vlog_parse.specs.Items.{of_sort, direction, gate, value, opened, place_of};
ghost use Rattle.std.specs.Option.{option_map};
ghost use Rattle.vlog_parse.specs.Limits.{seen_of};
ghost use Rattle.grammar.specs.Giving.{Gives};

use crate::lexeme::{bytes_of, name_of, number_of, sort_of, word_of};
use crate::limits::{Seen, seen_in};
use crate::parts::Named;
use crate::sort::Sort;
use crate::tree::{Dir, Expr, GateKind, Value};
use grammar::Stop;
use ila_base::{Name, Place};
use std::alloc::Global;
use std::marker::Model;
use vlog_lex::Token;

/// What is left of a text's tokens. Each method is named as the rule of the grammar that it reads;
/// where the grammar refuses a token, the parser is left standing there.
#[derive(Drop)]
pub struct Parser<'a> {
    text: &'a [u8],
    rest: &'a [Token],
}

impl<'a> Model for Parser<'a> {
    ghost use Rattle.std.specs.Prelude.{List, length};
    ghost use Rattle.vlog_parse.specs.Lexemes.{Lexeme, lexemes, AreWithin};

    ghost Value = { List Lexeme };

    ghost view = { λ p. lexemes p.text.now p.rest.now };

    ghost invariant = { λ p. AreWithin (length p.text.now) p.rest.now };
}

impl<'a> Parser<'a> {
    /// The parser of a text's tokens.
    pub fn new(text: &'a [u8], tokens: &'a [Token]) -> Parser<'a>
        requires { AreWithin (length text.now) tokens.now }
        ensures { result ≡ lexemes text.now tokens.now }
    {
        Parser { text, rest: tokens }
    }

    /// Whether the next token is of the sort.
    pub fn sees(&self, sort: Sort) -> bool
        ensures { result ≡ looks (is sort) self.now }
    {
        match self.rest.first() {
            Some(token) => sort_of(token.kind, bytes_of(self.text, token)).is(sort),
            None => false,
        }
    }

    pub fn sees_direction(&self) -> bool
        ensures { result ≡ looks (of_sort is_direction) self.now }
    {
        match self.rest.first() {
            Some(token) => sort_of(token.kind, bytes_of(self.text, token)).is_direction(),
            None => false,
        }
    }

    pub fn sees_gate(&self) -> bool
        ensures { result ≡ looks (of_sort is_gate) self.now }
    {
        match self.rest.first() {
            Some(token) => sort_of(token.kind, bytes_of(self.text, token)).is_gate(),
            None => false,
        }
    }

    pub fn sees_item(&self) -> bool
        ensures { result ≡ looks (of_sort begins_item) self.now }
    {
        match self.rest.first() {
            Some(token) => sort_of(token.kind, bytes_of(self.text, token)).begins_item(),
            None => false,
        }
    }

    pub fn sees_expr(&self) -> bool
        ensures { result ≡ looks (of_sort begins_expr) self.now }
    {
        match self.rest.first() {
            Some(token) => sort_of(token.kind, bytes_of(self.text, token)).begins_expr(),
            None => false,
        }
    }

    /// How many tokens are left.
    pub fn left(&self) -> usize
        ensures { result ≡ length self.now }
    {
        self.rest.len()
    }

    /// The place of the next token, if there is one.
    pub fn place(&self) -> Option<Place>
        ensures { result ≡ option_map place_of (first self.now) }
    {
        match self.rest.first() {
            Some(token) => Some(token.place),
            None => None,
        }
    }

    /// Takes the next token, if there is one, whatever it is.
    pub fn take(&mut self) -> Option<Seen>
        ensures token { result ≡ option_map seen_of (first self.old) }
        ensures rest { self.new ≡ drop 1 self.old }
    {
        match self.rest.split_first() {
            Some((token, rest)) => {
                self.rest = rest;
                Some(seen_in(token))
            }
            None => None,
        }
    }

    /// The end of the text.
    pub fn end(&self) -> Result<(), Stop>
        ensures { Gives (end.read self.now) result self.now }
    {
        if self.rest.is_empty() {
            return Ok(());
        }
        Err(Stop::Syntax)
    }

    /// A token of the sort.
    pub fn mark(&mut self, sort: Sort) -> Result<(), Stop>
        ensures { Gives ((mark sort).read self.old) result self.new }
    {
        match self.rest.split_first() {
            Some((token, rest)) => {
                if !sort_of(token.kind, bytes_of(self.text, token)).is(sort) {
                    return Err(Stop::Syntax);
                }
                self.rest = rest;
                Ok(())
            }
            None => Err(Stop::Syntax),
        }
    }

    /// A name: an identifier that is no keyword, or an escaped one (IEEE 1364-2005, 3.7).
    pub fn name(&mut self, alloc: Global) -> Result<Named, Stop>
        ensures { Gives (name.read self.old) result self.new }
    {
        match self.rest.split_first() {
            Some((token, rest)) => {
                let bytes = bytes_of(self.text, token);
                if !sort_of(token.kind, bytes).is(Sort::Name) {
                    return Err(Stop::Syntax);
                }
                let name = Name::new(alloc, name_of(token.kind, bytes))?;
                self.rest = rest;
                Ok(Named {
                    name,
                    place: token.place,
                })
            }
            None => Err(Stop::Syntax),
        }
    }

    /// An unsized number (3.5.1).
    pub fn number(&mut self) -> Result<u32, Stop>
        ensures { Gives (number.read self.old) result self.new }
    {
        match self.rest.split_first() {
            Some((token, rest)) => {
                if !sort_of(token.kind, bytes_of(self.text, token)).is(Sort::Number) {
                    return Err(Stop::Syntax);
                }
                self.rest = rest;
                Ok(number_of(token.kind))
            }
            None => Err(Stop::Syntax),
        }
    }

    /// A sized constant (3.5.1).
    pub fn constant(&mut self) -> Result<Expr, Stop>
        ensures { Gives (constant.read self.old) result self.new }
    {
        match self.rest.split_first() {
            Some((token, rest)) => {
                if !sort_of(token.kind, bytes_of(self.text, token)).is(Sort::Sized) {
                    return Err(Stop::Syntax);
                }
                self.rest = rest;
                Ok(Expr::Const(word_of(token.kind), token.place))
            }
            None => Err(Stop::Syntax),
        }
    }

    /// The keyword of a port's direction (12.3.3).
    pub fn direction(&mut self) -> Result<Dir, Stop>
        ensures { Gives (direction.read self.old) result self.new }
    {
        match self.rest.split_first() {
            Some((token, rest)) => {
                let sort = sort_of(token.kind, bytes_of(self.text, token));
                if !sort.is_direction() {
                    return Err(Stop::Syntax);
                }
                self.rest = rest;
                Ok(sort.dir())
            }
            None => Err(Stop::Syntax),
        }
    }

    /// The keyword of a gate (7.2, 7.3).
    pub fn gate(&mut self) -> Result<GateKind, Stop>
        ensures { Gives (gate.read self.old) result self.new }
    {
        match self.rest.split_first() {
            Some((token, rest)) => {
                let sort = sort_of(token.kind, bytes_of(self.text, token));
                if !sort.is_gate() {
                    return Err(Stop::Syntax);
                }
                self.rest = rest;
                Ok(sort.gate())
            }
            None => Err(Stop::Syntax),
        }
    }

    /// The `(` of a gate's terminals, and its place.
    pub fn opened(&mut self) -> Result<Place, Stop>
        ensures { Gives (opened.read self.old) result self.new }
    {
        match self.rest.split_first() {
            Some((token, rest)) => {
                if !sort_of(token.kind, bytes_of(self.text, token)).is(Sort::LeftParenthesis) {
                    return Err(Stop::Syntax);
                }
                self.rest = rest;
                Ok(token.place)
            }
            None => Err(Stop::Syntax),
        }
    }

    /// The value of a parameter: an unsized number, a sized constant or a string (12.2.2.2).
    pub fn value(&mut self) -> Result<Value, Stop>
        ensures { Gives (value.read self.old) result self.new }
    {
        match self.rest.split_first() {
            Some((token, rest)) => {
                let sort = sort_of(token.kind, bytes_of(self.text, token));
                if !sort.is_value() {
                    return Err(Stop::Syntax);
                }
                self.rest = rest;
                match sort {
                    Sort::Number => Ok(Value::Whole(number_of(token.kind))),
                    Sort::Sized => Ok(Value::Sized(word_of(token.kind))),
                    _ => Ok(Value::Text),
                }
            }
            None => Err(Stop::Syntax),
        }
    }
}
