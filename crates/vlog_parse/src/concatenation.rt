ghost use Rattle.std.specs.Prelude.{◌≡◌};
ghost use Rattle.vlog_parse.specs.Expressions.{args, concatenation};
ghost use Rattle.grammar.specs.Giving.{Gives};
ghost use Rattle.vlog_parse.specs.Skipping.{cut_within, cut};

use crate::parser::Parser;
use crate::sort::Sort;
use crate::tree::Expr;
use grammar::Stop;
use ila_base::Items;
use ila_base::limits::NESTING;
use std::alloc::Global;

/// How many concatenations stand in one another at most with their parts kept.
const DEEPEST: u8 = NESTING as u8;

impl<'a> Parser<'a> {
    /// An expression, with its concatenations kept as deep as they may be.
    #[tactic(auto, unfolding(crate::specs::Skipping::cut))]
    pub fn cut(&mut self, alloc: Global) -> Result<Expr, Stop>
        ensures { Gives (cut.read self.old) result self.new }
    {
        self.expr(alloc, DEEPEST)
    }

    /// One or more such expressions, with commas between.
    #[tactic(auto, unfolding(crate::specs::Skipping::cut))]
    pub fn cut_args(&mut self, alloc: Global) -> Result<Items<Expr>, Stop>
        ensures { Gives ((args cut).read self.old) result self.new }
    {
        self.args(alloc, DEEPEST)
    }

    /// An expression (IEEE 1364-2005, 5.1.14, 5.2.1). The parts of a concatenation are kept where it
    /// stands in fewer others than there is room.
    #[cycle(expr)]
    #[tactic(auto, using(crate::proofs::CutLaws::cut_operand, crate::proofs::CutLaws::cut_skipped, crate::proofs::CutLaws::cut_concatenation))]
    fn expr(&mut self, alloc: Global, room: u8) -> Result<Expr, Stop>
        ensures { Gives ((cut_within room).read self.old) result self.new }
    {
        if !self.sees(Sort::LeftBrace) {
            return self.operand(alloc);
        }
        if room == 0 {
            return self.skipped(alloc);
        }
        self.concatenation(alloc, room - 1)
    }

    /// A concatenation.
    #[cycle(expr)]
    fn concatenation(&mut self, alloc: Global, room: u8) -> Result<Expr, Stop>
        ensures { Gives ((concatenation (cut_within room)).read self.old) result self.new }
    {
        self.mark(Sort::LeftBrace)?;
        let parts = self.args(alloc, room)?;
        self.mark(Sort::RightBrace)?;
        Ok(Expr::Concat(parts))
    }

    /// One or more expressions, with commas between.
    #[cycle(expr)]
    fn args(&mut self, alloc: Global, room: u8) -> Result<Items<Expr>, Stop>
        ensures { Gives ((args (cut_within room)).read self.old) result self.new }
    {
        let mut parts = Vec::new(alloc);
        let first = self.expr(alloc, room)?;
        parts.push(first)?;
        'parts: while self.sees(Sort::Comma) {
            self.mark(Sort::Comma)?;
            let part = self.expr(alloc, room)?;
            parts.push(part)?;
        }
        Ok(Items::from_vec(parts))
    }
}
