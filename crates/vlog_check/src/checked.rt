//! Checked designs.

ghost use Rattle.std.specs.Prelude.{◌≡◌, ◌<◌, ◌≤◌, ℕ, List, length, Some, None, IfOk, IfErr};
ghost use Rattle.ila_base.specs.Stops.{StopsFor};
ghost use Rattle.vlog_parse.specs.ReadTree.{IsReadTree};
ghost use Rattle.vlog_check.specs.Design.{IsScope};
ghost use Rattle.vlog_check.specs.Found.{IsLeastFinding};
ghost use Rattle.vlog_check.specs.Scope.{module_number};
ghost use Rattle.vlog_check.specs.Checked.{Finds, IsChecked, IsRefused, IsFault};

use crate::contained::first_inside;
use crate::design::find_all;
use crate::modules::Scope;
use ila_base::{Name, NetFault, NetRefusal, NetStop, NoMemory, Place};
use std::alloc::Global;
use std::marker::Model;
use vlog_parse::Tree;

/// A design that is checked: a tree and the name of its top, of which nothing is found. The top is one
/// of the modules, and none of it and the modules below it contains itself.
#[derive(Drop)]
pub struct Checked {
    tree: Tree,
    top: Name,
}

impl Model for Checked {
    ghost use Rattle.std.specs.Prelude.{ℕ, List};
    ghost use Rattle.vlog_parse.specs.declared.tree.Tree.{Tree};
    ghost use Rattle.vlog_parse.specs.ReadTree.{IsReadTree};
    ghost use Rattle.vlog_parse.specs.contracts.tree.Expr as e;
    ghost use Rattle.std.specs.Coded.{codes};
    ghost use Rattle.vlog_check.specs.Checked.{IsChecked, Design};

    ghost Value = { Design };

    ghost coded = { Prim.hlevel (codes, e.the_row.coded) };

    ghost view = { λ c. record { tree = c.tree; top = c.top } };

    ghost invariant = { λ c. IsChecked c.tree c.top × IsReadTree c.tree };
}

impl Checked {
    /// The tree, which was read from a text.
    pub fn tree(&self) -> &Tree
        ensures tree { result.now ≡ self.now.tree }
        ensures checked { IsChecked self.now.tree self.now.top }
        ensures read { IsReadTree self.now.tree }
    {
        &self.tree
    }

    /// The name of the top.
    pub fn top(&self) -> &Name
        ensures top { result.now ≡ self.now.top }
        ensures checked { IsChecked self.now.tree self.now.top }
        ensures read { IsReadTree self.now.tree }
    {
        &self.top
    }
}

// A fault that has no place.
fn nowhere(refusal: NetRefusal) -> NetFault
    ensures { result ≡ record { refusal = refusal; place = record { line = 0; col = 0 } } }
{
    NetFault {
        refusal,
        place: Place { line: 0, col: 0 },
    }
}

// Why a design is refused whose top has this number, and of which nothing was found.
fn fault_below(alloc: Global, scope: &Scope, number: usize) -> Result<Option<NetFault>, NoMemory>
    requires scope { IsScope scope.now.tree.now scope.now }
    requires few { length scope.now.tree.now.modules ≤ 67108864 }
    requires clean { IsLeastFinding (Finds scope.now.tree.now) None }
    requires top { number < length scope.now.tree.now.modules }
    ensures { IfOk result (λ fault. (top : List ℕ) → module_number scope.now.tree.now top ≡ Some number → IsFault scope.now.tree.now top fault) }
{
    match first_inside(alloc, scope, number)? {
        None => Ok(None),
        Some(inside) => {
            let name = scope.tree.modules.as_slice()[inside].name.copied(alloc)?;
            Ok(Some(nowhere(NetRefusal::Recursion(name))))
        }
    }
}

// Why a design is refused of which nothing was found.
fn fault_of_top(alloc: Global, scope: &Scope, top: &[u8]) -> Result<Option<NetFault>, NoMemory>
    requires scope { IsScope scope.now.tree.now scope.now }
    requires few { length scope.now.tree.now.modules ≤ 67108864 }
    requires clean { IsLeastFinding (Finds scope.now.tree.now) None }
    ensures { IfOk result (IsFault scope.now.tree.now top.now) }
{
    match scope.modules.get(top) {
        None => {
            let name = Name::new(alloc, top)?;
            Ok(Some(nowhere(NetRefusal::TopOrClock(name))))
        }
        Some(number) => fault_below(alloc, scope, number),
    }
}

// Why a design is refused.
fn fault_of(alloc: Global, tree: &Tree, top: &[u8]) -> Result<Option<NetFault>, NoMemory>
    requires { IsReadTree tree.now }
    ensures { IfOk result (IsFault tree.now top.now) }
{
    let (scope, found) = find_all(alloc, tree)?;
    match found {
        None => fault_of_top(alloc, &scope, top),
        Some(found) => Ok(Some(found.fault())),
    }
}

/// Checks a tree that was read from a text: the design with the top of this name, or of all findings
/// on names, pins and widths the first one; else that the top isn't there; else the first module
/// that contains itself.
pub fn check(alloc: Global, tree: Tree, top: &str) -> Result<Checked, NetStop>
    requires { IsReadTree tree }
    ensures found { IfOk result (λ c. (c.tree ≡ tree) × (c.top ≡ top.now) × IsChecked tree top.now) }
    ensures refused { IfErr result (StopsFor (IsRefused tree top.now)) }
{
    match fault_of(alloc, &tree, top.as_bytes())? {
        Some(fault) => Err(NetStop::Refused(fault)),
        None => {
            let top = Name::new(alloc, top.as_bytes())?;
            Ok(Checked { tree, top })
        }
    }
}
