ghost use Rattle.std.specs.Prelude.{◌≡◌};
ghost use Rattle.grammar.specs.Rule.{looks, Shrinks, separated, Keeps};
ghost use Rattle.vlog_parse.specs.Expressions.{is};
ghost use Rattle.grammar.specs.Giving.{Gives};
ghost use Rattle.vlog_parse.specs.Readers.{rule_of, list_reader, repeat_reader};

use crate::parser::Parser;
use crate::sort::Sort;
use grammar::Stop;
use ila_base::Items;
use std::alloc::Global;

/// What a list of the grammar is of.
pub trait Part: Drop + Sized {
    ghost use Rattle.std.specs.Prelude.{List};
    ghost use Rattle.vlog_parse.specs.Lexemes.{Lexeme};
    ghost use Rattle.grammar.specs.Rule.{Outcome};

    /// How one of them is read.
    ghost reader: { List Lexeme → Outcome Lexeme Self };

    fn part(parser: &mut Parser, alloc: Global) -> Result<Self, Stop>
        ensures { Gives (reader parser.old) result parser.new };
}

/// What a repetition of the grammar is of.
pub trait Repeated: Part {
    ghost use Rattle.std.specs.Prelude.{Bool};
    ghost use Rattle.vlog_parse.specs.Lexemes.{Lexeme};

    /// Which tokens one of them begins with.
    ghost opens: { Lexeme → Bool };

    /// Whether one of them comes next.
    fn is_next(parser: &Parser) -> bool
        ensures { result ≡ looks opens parser.now };
}

impl<'a> Parser<'a> {
    /// A separator, and then one of them.
    fn behind<P: Part>(&mut self, alloc: Global, separator: Sort) -> Result<P, Stop>
        ensures { Gives ((separated (is separator) (rule_of P.reader)).read self.old) result self.new }
    {
        self.mark(separator)?;
        P::part(self, alloc)
    }

    /// One or more, with the separator between two.
    pub fn list<P: Part>(&mut self, alloc: Global, separator: Sort) -> Result<Items<P>, Stop>
        requires { Keeps (rule_of P.reader) }
        ensures { Gives (list_reader (is separator) P.reader self.old) result self.new }
    {
        let mut parts = Vec::new(alloc);
        let first = P::part(self, alloc)?;
        parts.push(first)?;
        'parts: while self.sees(separator) {
            let part = self.behind(alloc, separator)?;
            parts.push(part)?;
        }
        Ok(Items::from_vec(parts))
    }

    /// As many as come.
    pub fn repeat<P: Repeated>(&mut self, alloc: Global) -> Result<Items<P>, Stop>
        requires { Shrinks (rule_of P.reader) }
        ensures { Gives (repeat_reader P.opens P.reader self.old) result self.new }
    {
        let mut parts = Vec::new(alloc);
        'parts: while P::is_next(self) {
            let part = P::part(self, alloc)?;
            parts.push(part)?;
        }
        Ok(Items::from_vec(parts))
    }
}
