ghost use Rattle.std.specs.Prelude.{◌≡◌};
ghost use Rattle.vlog_parse.specs.Expressions.{range, part_behind, bit_behind, select_behind, reference, operand, concatenation, args};
ghost use Rattle.grammar.specs.Giving.{Gives};
ghost use Rattle.vlog_parse.specs.Skipping.{cut_within};

use crate::parser::Parser;
use crate::parts::Named;
use crate::sort::Sort;
use crate::tree::{Expr, Range};
use grammar::Stop;
use ila_base::Items;
use std::alloc::Global;

impl<'a> Parser<'a> {
    /// The range of a declaration (IEEE 1364-2005, 4.3).
    pub fn range(&mut self) -> Result<Range, Stop>
        ensures { Gives (range.read self.old) result self.new }
    {
        self.mark(Sort::LeftBracket)?;
        let left = self.number()?;
        self.mark(Sort::Colon)?;
        let right = self.number()?;
        self.mark(Sort::RightBracket)?;
        Ok(Range { left, right })
    }

    /// The rest of a part, behind its left index.
    fn part_behind(&mut self, name: Named, left: u32) -> Result<Expr, Stop>
        ensures { Gives ((part_behind name left).read self.old) result self.new }
    {
        self.mark(Sort::Colon)?;
        let right = self.number()?;
        self.mark(Sort::RightBracket)?;
        Ok(Expr::Part(name.name, left, right, name.place))
    }

    /// The rest of a bit, behind its index.
    fn bit_behind(&mut self, name: Named, index: u32) -> Result<Expr, Stop>
        ensures { Gives ((bit_behind name index).read self.old) result self.new }
    {
        self.mark(Sort::RightBracket)?;
        Ok(Expr::Bit(name.name, index, name.place))
    }

    /// A bit or a part of a net, behind its name (5.2.1).
    fn select_behind(&mut self, name: Named) -> Result<Expr, Stop>
        ensures { Gives ((select_behind name).read self.old) result self.new }
    {
        self.mark(Sort::LeftBracket)?;
        let left = self.number()?;
        if self.sees(Sort::Colon) {
            return self.part_behind(name, left);
        }
        self.bit_behind(name, left)
    }

    /// A net, a bit or a part of one.
    fn reference(&mut self, alloc: Global) -> Result<Expr, Stop>
        ensures { Gives (reference.read self.old) result self.new }
    {
        let name = self.name(alloc)?;
        if self.sees(Sort::LeftBracket) {
            return self.select_behind(name);
        }
        Ok(Expr::Whole(name.name, name.place))
    }

    /// An expression that is no concatenation.
    pub fn operand(&mut self, alloc: Global) -> Result<Expr, Stop>
        ensures { Gives (operand.read self.old) result self.new }
    {
        if self.sees(Sort::Name) {
            return self.reference(alloc);
        }
        self.constant()
    }
}
