ghost use Rattle.std.specs.Prelude.{◌≡◌};
ghost use Rattle.grammar.specs.Rule.{list, separated};
ghost use Rattle.tsm_parse.specs.declared.token.Sort.TheVariants.{AndAnd, OrOr};
ghost use Rattle.tsm_parse.specs.Lexemes.{is};
ghost use Rattle.tsm_parse.specs.Conditions as conditions;
ghost use Rattle.tsm_parse.specs.Conditions.{left_first, constant_first, comparison, all_over, any_over, bracketed, part_within, condition};
ghost use Rattle.grammar.specs.Giving.{Gives};

use crate::parser::Parser;
use crate::parts::{Named, Valued};
use crate::token::Sort;
use crate::types::{AstFormula, AstTest};
use grammar::Stop;
use ila_base::limits::PARENTHESES;
use ila_base::{Items, Op};
use std::alloc::Global;

/// How many parentheses may be open at once behind that of `if`.
const DEEPEST: u8 = PARENTHESES - 1;

/// The operator with its sides turned round.
fn turned(op: Op) -> Op
    ensures { result ≡ conditions.turned op }
{
    match op {
        Op::Eq => Op::Eq,
        Op::Ne => Op::Ne,
        Op::Lt => Op::Gt,
        Op::Le => Op::Ge,
        Op::Gt => Op::Lt,
        Op::Ge => Op::Le,
    }
}

fn test_of(left: Named, op: Op, constant: Valued) -> AstFormula
    ensures { result ≡ conditions.test_of left op constant }
{
    AstFormula::Test(AstTest {
        left: left.name,
        left_place: left.place,
        op,
        constant: constant.constant,
        constant_place: constant.place,
    })
}

/// Of one part it is that part.
fn all_of(mut parts: Items<AstFormula>) -> AstFormula
    ensures { result ≡ conditions.all_of parts }
{
    if parts.len() != 1 {
        return AstFormula::All(parts);
    }
    match parts.pop() {
        Some(part) => part,
        None => AstFormula::All(parts),
    }
}

/// Of one part it is that part.
fn any_of(mut parts: Items<AstFormula>) -> AstFormula
    ensures { result ≡ conditions.any_of parts }
{
    if parts.len() != 1 {
        return AstFormula::Any(parts);
    }
    match parts.pop() {
        Some(part) => part,
        None => AstFormula::Any(parts),
    }
}

impl<'a> Parser<'a> {
    /// A comparison with its name on the left.
    fn left_first(&mut self, alloc: Global) -> Result<AstFormula, Stop>
        ensures { Gives (left_first.read self.old) result self.new }
    {
        let left = self.left(alloc)?;
        let op = self.operator()?;
        let constant = self.constant(alloc)?;
        Ok(test_of(left, op, constant))
    }

    /// A comparison with its constant on the left, turned round.
    fn constant_first(&mut self, alloc: Global) -> Result<AstFormula, Stop>
        ensures { Gives (constant_first.read self.old) result self.new }
    {
        let constant = self.constant(alloc)?;
        let op = self.operator()?;
        let left = self.left(alloc)?;
        Ok(test_of(left, turned(op), constant))
    }

    fn comparison(&mut self, alloc: Global) -> Result<AstFormula, Stop>
        ensures { Gives (comparison.read self.old) result self.new }
    {
        if self.sees(Sort::Constant) {
            return self.constant_first(alloc);
        }
        self.left_first(alloc)
    }

    /// The condition of `if` or `elseif`, in its parentheses.
    pub fn condition(&mut self, alloc: Global) -> Result<AstFormula, Stop>
        ensures { Gives (condition.read self.old) result self.new }
    {
        self.bracketed(alloc, DEEPEST)
    }

    /// A condition in parentheses, in which so many more may be open at once.
    #[cycle(part)]
    fn bracketed(&mut self, alloc: Global, room: u8) -> Result<AstFormula, Stop>
        ensures { Gives ((bracketed (any_over (part_within room))).read self.old) result self.new }
    {
        self.mark(Sort::LeftParenthesis)?;
        let formula = self.any(alloc, room)?;
        self.mark(Sort::RightParenthesis)?;
        Ok(formula)
    }

    /// A condition of which any part of a list holds.
    #[cycle(part)]
    fn any(&mut self, alloc: Global, room: u8) -> Result<AstFormula, Stop>
        ensures { Gives ((any_over (part_within room)).read self.old) result self.new }
    {
        let parts = self.alls(alloc, room)?;
        Ok(any_of(parts))
    }

    #[cycle(part)]
    fn alls(&mut self, alloc: Global, room: u8) -> Result<Items<AstFormula>, Stop>
        ensures { Gives ((list (is OrOr) (all_over (part_within room))).read self.old) result self.new }
    {
        let mut parts = Vec::new(alloc);
        let first = self.all(alloc, room)?;
        parts.push(first)?;
        'parts: while self.sees(Sort::OrOr) {
            let part = self.next_all(alloc, room)?;
            parts.push(part)?;
        }
        Ok(Items::from_vec(parts))
    }

    #[cycle(part)]
    fn next_all(&mut self, alloc: Global, room: u8) -> Result<AstFormula, Stop>
        ensures { Gives ((separated (is OrOr) (all_over (part_within room))).read self.old) result self.new }
    {
        self.mark(Sort::OrOr)?;
        self.all(alloc, room)
    }

    /// A condition of which all parts of a list hold.
    #[cycle(part)]
    fn all(&mut self, alloc: Global, room: u8) -> Result<AstFormula, Stop>
        ensures { Gives ((all_over (part_within room)).read self.old) result self.new }
    {
        let parts = self.parts(alloc, room)?;
        Ok(all_of(parts))
    }

    #[cycle(part)]
    fn parts(&mut self, alloc: Global, room: u8) -> Result<Items<AstFormula>, Stop>
        ensures { Gives ((list (is AndAnd) (part_within room)).read self.old) result self.new }
    {
        let mut parts = Vec::new(alloc);
        let first = self.part(alloc, room)?;
        parts.push(first)?;
        'parts: while self.sees(Sort::AndAnd) {
            let part = self.next_part(alloc, room)?;
            parts.push(part)?;
        }
        Ok(Items::from_vec(parts))
    }

    #[cycle(part)]
    fn next_part(&mut self, alloc: Global, room: u8) -> Result<AstFormula, Stop>
        ensures { Gives ((separated (is AndAnd) (part_within room)).read self.old) result self.new }
    {
        self.mark(Sort::AndAnd)?;
        self.part(alloc, room)
    }

    /// A comparison, or a condition in parentheses where there is room for them.
    #[cycle(part)]
    #[tactic(auto, using(crate::proofs::PartLaws::no_room, crate::proofs::PartLaws::opened, crate::proofs::PartLaws::compared))]
    fn part(&mut self, alloc: Global, room: u8) -> Result<AstFormula, Stop>
        ensures { Gives ((part_within room).read self.old) result self.new }
    {
        if room == 0 {
            return self.comparison(alloc);
        }
        if self.sees(Sort::LeftParenthesis) {
            return self.bracketed(alloc, room - 1);
        }
        self.comparison(alloc)
    }
}
