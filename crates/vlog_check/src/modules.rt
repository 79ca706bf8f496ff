ghost use Rattle.std.specs.Prelude.{◌≡◌, ℕ, List, take, map, IfOk};
ghost use Rattle.std.specs.List.{list_any};
ghost use Rattle.std.specs.Str.{bytes_eq};
ghost use Rattle.vlog_parse.specs.declared.tree.Module.{Module as ModuleOf};
ghost use Rattle.vlog_check.specs.Design.{IsScope, FindsEarly};
ghost use Rattle.vlog_check.specs.Found.{IsLeastFinding, FindsAmong};
ghost use Rattle.vlog_check.specs.FindingNames.{gate_words, is_taken, FindsModule};
ghost use Rattle.vlog_check.specs.Names.{IsNumbering};
ghost use Rattle.vlog_check.specs.Scope.{module_names};

use crate::found::{Found, earlier};
use crate::names::{Names, duplicate, read_names};
use crate::primitive::cell_of;
use crate::table::Table;
use ila_base::NoMemory;
use std::alloc::Global;
use vlog_parse::{Module, Tree};

/// What the names of a tree stand for.
#[derive(Drop)]
pub struct Scope<'a> {
    pub tree: &'a Tree,
    /// The number of the first module of each name.
    pub modules: Table<'a, usize>,
    /// What the names of each module stand for.
    pub names: Vec<Names<'a>>,
}

// The words of gates (IEEE 1364-2005, 7.2, 7.3).
fn gate_words() -> &'static [&'static [u8]]
    ensures { map (λ word. word.now) result.now ≡ gate_words }
{
    &[
        b"and", b"nand", b"or", b"nor", b"xor", b"xnor", b"buf", b"not",
    ]
}

fn is_gate_word(name: &[u8]) -> bool
    ensures { result ≡ list_any (bytes_eq name.now) gate_words }
{
    for word in gate_words() {
        if name == *word {
            return true;
        }
    }
    false
}

// Whether a name can't be that of a module behind others.
fn is_taken(modules: &Table<usize>, name: &[u8]) -> bool
    ensures { (past : List ModuleOf) → IsNumbering modules.now (module_names past) → result ≡ is_taken past name.now }
{
    modules.get(name).is_some() || cell_of(name).is_some() || is_gate_word(name)
}

// The finding on the name of a module behind others.
fn find_module(alloc: Global, modules: &Table<usize>, m: &Module) -> Result<Option<Found>, NoMemory>
    ensures { IfOk result (λ found. (all : List ModuleOf) (k : ℕ) → IsNumbering modules.now (module_names (take k all)) → IsLeastFinding (FindsModule all k m.now) found) }
{
    if is_taken(modules, m.name.bytes()) {
        let found = duplicate(alloc, m.place, 0, &m.name)?;
        return Ok(Some(found));
    }
    Ok(None)
}

/// What the names of a tree stand for, and the first finding on names that are given twice.
pub fn read_scope<'a>(alloc: Global, tree: &'a Tree) -> Result<(Scope<'a>, Option<Found>), NoMemory>
    ensures scope { IfOk result (λ r. IsScope r.0.tree.now r.0) }
    ensures own { IfOk result (λ r. r.0.tree.now ≡ tree.now) }
    ensures least { IfOk result (λ r. IsLeastFinding (FindsAmong (FindsEarly tree.now.modules) tree.now.modules) r.1) }
{
    let mut modules = Table::new(alloc);
    let mut all = Vec::new(alloc);
    let mut best = None;
    for (k, m) in tree.modules.as_slice().iter().enumerate() {
        let own = find_module(alloc, &modules, m)?;
        let (names, within) = read_names(alloc, m)?;
        best = earlier(best, earlier(own, within));
        modules.put(m.name.bytes(), k)?;
        all.push(names)?;
    }
    let scope = Scope {
        tree,
        modules,
        names: all,
    };
    Ok((scope, best))
}
