ghost use Rattle.std.specs.Prelude.{◌≡◌, IfOk};
ghost use Rattle.grammar.specs.Rule.{list};
ghost use Rattle.vlog_parse.specs.declared.sort.Sort.TheVariants.{Comma};
ghost use Rattle.vlog_parse.specs.Expressions.{is};
ghost use Rattle.vlog_parse.specs.Items.{param, some_params, params_list, params};
ghost use Rattle.grammar.specs.Giving.{Gives};

use crate::list::Part;
use crate::parser::Parser;
use crate::sort::Sort;
use crate::tree::Value;
use grammar::Stop;
use ila_base::{Items, Name, NoMemory};
use std::alloc::Global;

/// The same parameters, in no more memory than they take.
pub fn copied(
    alloc: Global,
    params: &Items<(Name, Value)>,
) -> Result<Items<(Name, Value)>, NoMemory>
    ensures { IfOk result (λ copy. copy ≡ params.now) }
{
    let mut copy = Vec::with_capacity(alloc, params.len())?;
    'params: for param in params.as_slice() {
        let name = param.0.copied(alloc)?;
        copy.push((name, param.1))?;
    }
    Ok(Items::from_vec(copy))
}

impl<'a> Parser<'a> {
    /// A parameter by its name (IEEE 1364-2005, 12.2.2.2).
    fn param(&mut self, alloc: Global) -> Result<(Name, Value), Stop>
        ensures { Gives (param.read self.old) result self.new }
    {
        self.mark(Sort::Dot)?;
        let name = self.name(alloc)?;
        self.mark(Sort::LeftParenthesis)?;
        let value = self.value()?;
        self.mark(Sort::RightParenthesis)?;
        Ok((name.name, value))
    }

    /// One or more parameters, with commas between.
    fn param_list(&mut self, alloc: Global) -> Result<Items<(Name, Value)>, Stop>
        ensures { Gives ((list (is Comma) param).read self.old) result self.new }
    {
        self.list(alloc, Sort::Comma)
    }

    /// The parameters in the parentheses, if there are any.
    fn some_params(&mut self, alloc: Global) -> Result<Items<(Name, Value)>, Stop>
        ensures { Gives (some_params.read self.old) result self.new }
    {
        if self.sees(Sort::Dot) {
            return self.param_list(alloc);
        }
        Ok(Items::new(alloc))
    }

    /// The parameters from their `#` on.
    fn params_list(&mut self, alloc: Global) -> Result<Items<(Name, Value)>, Stop>
        ensures { Gives (params_list.read self.old) result self.new }
    {
        self.mark(Sort::Hash)?;
        self.mark(Sort::LeftParenthesis)?;
        let found = self.some_params(alloc)?;
        self.mark(Sort::RightParenthesis)?;
        Ok(found)
    }

    /// The parameters of instances, where they come next (12.2.2.2).
    pub fn params(&mut self, alloc: Global) -> Result<Items<(Name, Value)>, Stop>
        ensures { Gives (params.read self.old) result self.new }
    {
        if self.sees(Sort::Hash) {
            return self.params_list(alloc);
        }
        Ok(Items::new(alloc))
    }
}

impl Part for (Name, Value) {
    ghost use Rattle.vlog_parse.specs.Items.{param};

    ghost reader = { param.read };

    fn part(parser: &mut Parser, alloc: Global) -> Result<(Name, Value), Stop> {
        parser.param(alloc)
    }
}
