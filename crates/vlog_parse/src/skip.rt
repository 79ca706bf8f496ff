ghost use Rattle.std.specs.Prelude.{◌≡◌, ◌+◌, ◌^◌, ◌<◌, true, false, length};
ghost use Rattle.grammar.specs.Rule.{looks};
ghost use Rattle.vlog_parse.specs.declared.sort.Sort.TheVariants.{LeftBrace as OpenMark};
ghost use Rattle.vlog_parse.specs.Expressions.{is};
ghost use Rattle.grammar.specs.Giving.{Gives};
ghost use Rattle.vlog_parse.specs.Skipping.{skipped, wanting, Turns};

use crate::parser::Parser;
use crate::sort::Sort;
use crate::tree::Expr;
use grammar::Stop;
use ila_base::Items;
use std::alloc::Global;

/// Where in an expression a reading stands that keeps nothing of it.
#[derive(Clone, Copy, Debug)]
pub struct Skip {
    /// Whether an expression comes next.
    pub wants: bool,
    /// How many braces are open.
    pub depth: usize,
}

impl<'a> Parser<'a> {
    /// A turn where an expression comes next.
    #[tactic(auto, using(crate::proofs::SkipLaws::turn_open, crate::proofs::SkipLaws::stop_operand))]
    fn skip_into(&mut self, alloc: Global, skip: Skip) -> Result<Skip, Stop>
        requires wants { skip.wants ≡ true }
        requires room { skip.depth + length self.old < 2 ^ 64 }
        ensures { Turns skip self.old result self.new }
    {
        if self.sees(Sort::LeftBrace) {
            self.mark(Sort::LeftBrace)?;
            return Ok(Skip {
                wants: true,
                depth: skip.depth + 1,
            });
        }
        let _ = self.operand(alloc)?;
        Ok(Skip {
            wants: false,
            depth: skip.depth,
        })
    }

    /// A turn behind an expression, in an open brace.
    #[tactic(auto, using(crate::proofs::SkipLaws::turn_close, crate::proofs::SkipLaws::turn_comma, crate::proofs::SkipLaws::stop_comma))]
    fn skip_behind(&mut self, skip: Skip) -> Result<Skip, Stop>
        requires wants { skip.wants ≡ false }
        requires some { 0 < skip.depth }
        ensures { Turns skip self.old result self.new }
    {
        if self.sees(Sort::RightBrace) {
            self.mark(Sort::RightBrace)?;
            return Ok(Skip {
                wants: false,
                depth: skip.depth - 1,
            });
        }
        self.mark(Sort::Comma)?;
        Ok(Skip {
            wants: true,
            depth: skip.depth,
        })
    }

    /// An expression of any depth, of which nothing is kept. No call stands in another for it.
    fn skip_expr(&mut self, alloc: Global) -> Result<(), Stop>
        ensures { Gives ((wanting 0).read self.old) result self.new }
    {
        let limit = self.left();
        let mut skip = Skip {
            wants: true,
            depth: 0,
        };
        'turns: while skip.wants || skip.depth > 0 {
            skip = if skip.wants {
                self.skip_into(alloc, skip)?
            } else {
                self.skip_behind(skip)?
            };
        }
        Ok(())
    }

    /// A concatenation, without its parts.
    #[tactic(auto, using(crate::proofs::SkipLaws::skipped_by))]
    pub fn skipped(&mut self, alloc: Global) -> Result<Expr, Stop>
        requires { looks (is OpenMark) self.old ≡ true }
        ensures { Gives (skipped.read self.old) result self.new }
    {
        self.skip_expr(alloc)?;
        Ok(Expr::Concat(Items::new(alloc)))
    }
}
