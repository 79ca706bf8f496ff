ghost use Rattle.std.specs.Prelude.{◌≡◌, ◌≤◌, ◌^◌, sum_by, filter_map};
ghost use Rattle.std.specs.Option.{option_map_or};
ghost use Rattle.vlog_parse.specs.declared.tree.Module.{Module as ModuleOf};
ghost use Rattle.vlog_check.specs.Scope as look;
ghost use Rattle.elab_scope.specs.Nets.{AreNets};
ghost use Rattle.elab_count.specs.Counting.{conns_width};
ghost use Rattle.elab_count.specs.Amounts.{saturated};

use elab_scope::Nets;
use ila_base::Name;
use vlog_check::range_width;
use vlog_parse::{Conns, Expr, Range};

fn width_of_net(nets: &Nets, name: &[u8]) -> u64
    ensures value { result ≡ option_map_or look.range_width (look.value_of nets.now.ranges name.now) 0 }
    ensures small { result ≤ 2 ^ 32 }
{
    match nets.ranges.get(name) {
        Some(range) => range_width(range),
        None => 0,
    }
}

/// How many bits an expression has. It recurses as deep as concatenations are nested.
pub fn width_of(nets: &Nets, e: &Expr) -> u64
    ensures { (m : ModuleOf) → AreNets m nets.now → result ≡ saturated (look.width_of m e.now) }
{
    match e {
        Expr::Whole(name, _) => width_of_net(nets, name.bytes()),
        Expr::Bit(_, _, _) => 1,
        Expr::Part(_, left, right, _) => range_width(Some(Range {
            left: *left,
            right: *right,
        })),
        Expr::Const(word, _) => word.width() as u64,
        Expr::Concat(parts) => {
            let mut width: u64 = 0;
            for part in parts.as_slice() {
                width = width.saturating_add(width_of(nets, part));
            }
            width
        }
    }
}

fn width_of_conn(nets: &Nets, conn: &(Name, Option<Expr>)) -> u64
    ensures { (m : ModuleOf) → AreNets m nets.now → result ≡ saturated (option_map_or (look.width_of m) conn.now.1 0) }
{
    match &conn.1 {
        Some(e) => width_of(nets, e),
        None => 0,
    }
}

// How many bits the expressions of pins have, without the open ones.
fn width_of_named(nets: &Nets, given: &[(Name, Option<Expr>)]) -> u64
    ensures { (m : ModuleOf) → AreNets m nets.now → result ≡ saturated (sum_by (look.width_of m) (filter_map (λ c. c.1) given.now)) }
{
    let mut width: u64 = 0;
    for conn in given {
        width = width.saturating_add(width_of_conn(nets, conn));
    }
    width
}

fn width_of_placed(nets: &Nets, given: &[Expr]) -> u64
    ensures { (m : ModuleOf) → AreNets m nets.now → result ≡ saturated (sum_by (look.width_of m) given.now) }
{
    let mut width: u64 = 0;
    for e in given {
        width = width.saturating_add(width_of(nets, e));
    }
    width
}

/// How many bits the connections of an instance have.
pub fn width_of_conns(nets: &Nets, conns: &Conns) -> u64
    ensures { (m : ModuleOf) → AreNets m nets.now → result ≡ saturated (conns_width m conns.now) }
{
    match conns {
        Conns::ByName(given) => width_of_named(nets, given.as_slice()),
        Conns::ByPlace(given) => width_of_placed(nets, given.as_slice()),
    }
}
