ghost use Rattle.std.specs.Prelude.{◌≡◌};
ghost use Rattle.grammar.specs.Rule.{repeat, optional, either};
ghost use Rattle.tsm_parse.specs.declared.token.Sort.TheVariants.{ElseIf, Else, Goto};
ghost use Rattle.tsm_parse.specs.Lexemes.{is, of_sort};
ghost use Rattle.tsm_parse.specs.Programs as programs;
ghost use Rattle.tsm_parse.specs.Programs.{is_act, action, goto_end, trigger_end, block, branch, else_if, else_block, if_body, plain_body, body, state, states, program};
ghost use Rattle.grammar.specs.Giving.{Gives};

use crate::parser::Parser;
use crate::parts::{Body, Branch};
use crate::token::Sort;
use crate::types::{Act, Ast, AstBlock, AstState, End};
use grammar::Stop;
use ila_base::{Items, Name, NoMemory, Place};
use std::alloc::Global;

impl<'a> Parser<'a> {
    /// What is done with a register.
    fn action(&mut self, alloc: Global) -> Result<(Act, Name, Place), Stop>
        ensures { Gives (action.read self.old) result self.new }
    {
        let act = self.act()?;
        let register = self.register(alloc)?;
        self.mark(Sort::Semicolon)?;
        Ok((act, register.name, register.place))
    }

    fn actions(&mut self, alloc: Global) -> Result<Items<(Act, Name, Place)>, Stop>
        ensures { Gives ((repeat (of_sort is_act) action).read self.old) result self.new }
    {
        let mut actions = Vec::new(alloc);
        'actions: while self.sees_act() {
            let action = self.action(alloc)?;
            actions.push(action)?;
        }
        Ok(Items::from_vec(actions))
    }

    fn goto_end(&mut self, alloc: Global) -> Result<End, Stop>
        ensures { Gives (goto_end.read self.old) result self.new }
    {
        self.mark(Sort::Goto)?;
        let name = self.name(alloc)?;
        self.mark(Sort::Semicolon)?;
        Ok(End::Goto(name.name, name.place))
    }

    fn trigger_end(&mut self) -> Result<End, Stop>
        ensures { Gives (trigger_end.read self.old) result self.new }
    {
        self.mark(Sort::Trigger)?;
        self.mark(Sort::Semicolon)?;
        Ok(End::Trigger)
    }

    fn end(&mut self, alloc: Global) -> Result<End, Stop>
        ensures { Gives ((either (is Goto) goto_end trigger_end).read self.old) result self.new }
    {
        if self.sees(Sort::Goto) {
            return self.goto_end(alloc);
        }
        self.trigger_end()
    }

    /// What a branch does, and how it ends.
    fn block(&mut self, alloc: Global) -> Result<AstBlock, Stop>
        ensures { Gives (block.read self.old) result self.new }
    {
        let actions = self.actions(alloc)?;
        let end = self.end(alloc)?;
        Ok(AstBlock { actions, end })
    }

    /// A condition and its block.
    fn branch(&mut self, alloc: Global) -> Result<Branch, Stop>
        ensures { Gives (branch.read self.old) result self.new }
    {
        let cond = self.condition(alloc)?;
        self.mark(Sort::Then)?;
        let block = self.block(alloc)?;
        Ok(Branch { cond, block })
    }

    fn else_if(&mut self, alloc: Global) -> Result<Branch, Stop>
        ensures { Gives (else_if.read self.old) result self.new }
    {
        self.mark(Sort::ElseIf)?;
        self.branch(alloc)
    }

    fn else_block(&mut self, alloc: Global) -> Result<AstBlock, Stop>
        ensures { Gives (else_block.read self.old) result self.new }
    {
        self.mark(Sort::Else)?;
        self.block(alloc)
    }

    fn some_else_if(&mut self, alloc: Global) -> Result<Option<Branch>, Stop>
        ensures { Gives ((optional (is ElseIf) else_if).read self.old) result self.new }
    {
        if self.sees(Sort::ElseIf) {
            let branch = self.else_if(alloc)?;
            return Ok(Some(branch));
        }
        Ok(None)
    }

    fn some_else(&mut self, alloc: Global) -> Result<Option<AstBlock>, Stop>
        ensures { Gives ((optional (is Else) else_block).read self.old) result self.new }
    {
        if self.sees(Sort::Else) {
            let block = self.else_block(alloc)?;
            return Ok(Some(block));
        }
        Ok(None)
    }

    fn if_body(&mut self, alloc: Global) -> Result<Body, Stop>
        ensures { Gives (if_body.read self.old) result self.new }
    {
        self.mark(Sort::If)?;
        let first = self.branch(alloc)?;
        let second = self.some_else_if(alloc)?;
        let last = self.some_else(alloc)?;
        self.mark(Sort::EndIf)?;
        Ok(body_of(alloc, first, second, last)?)
    }

    fn plain_body(&mut self, alloc: Global) -> Result<Body, Stop>
        ensures { Gives (plain_body.read self.old) result self.new }
    {
        let block = self.block(alloc)?;
        let mut blocks = Items::new(alloc);
        blocks.push(block)?;
        Ok(Body {
            conds: Items::new(alloc),
            blocks,
            has_else: true,
        })
    }

    fn body(&mut self, alloc: Global) -> Result<Body, Stop>
        ensures { Gives (body.read self.old) result self.new }
    {
        if self.sees(Sort::If) {
            return self.if_body(alloc);
        }
        self.plain_body(alloc)
    }

    fn state(&mut self, alloc: Global) -> Result<AstState, Stop>
        ensures { Gives (state.read self.old) result self.new }
    {
        self.mark(Sort::State)?;
        let name = self.name(alloc)?;
        self.mark(Sort::Colon)?;
        let body = self.body(alloc)?;
        Ok(AstState {
            name: name.name,
            place: name.place,
            conds: body.conds,
            blocks: body.blocks,
            has_else: body.has_else,
        })
    }

    fn states(&mut self, alloc: Global) -> Result<Items<AstState>, Stop>
        ensures { Gives (states.read self.old) result self.new }
    {
        let mut states = Vec::new(alloc);
        let first = self.state(alloc)?;
        states.push(first)?;
        'states: while self.sees(Sort::State) {
            let state = self.state(alloc)?;
            states.push(state)?;
        }
        Ok(Items::from_vec(states))
    }

    /// The whole program.
    pub fn program(&mut self, alloc: Global) -> Result<Ast, Stop>
        ensures { Gives (program.read self.old) result self.new }
    {
        let states = self.states(alloc)?;
        self.end_of_text()?;
        Ok(Ast { states })
    }
}

// The conditions and blocks of a state with `if`.
fn body_of(
    alloc: Global,
    first: Branch,
    second: Option<Branch>,
    last: Option<AstBlock>,
) -> Result<Body, NoMemory>
    ensures { programs.IsBodyOf first second last result }
{
    let mut conds = Items::new(alloc);
    let mut blocks = Items::new(alloc);
    conds.push(first.cond)?;
    blocks.push(first.block)?;
    if let Some(second) = second {
        conds.push(second.cond)?;
        blocks.push(second.block)?;
    }
    let has_else = last.is_some();
    if let Some(last) = last {
        blocks.push(last)?;
    }
    Ok(Body {
        conds,
        blocks,
        has_else,
    })
}
