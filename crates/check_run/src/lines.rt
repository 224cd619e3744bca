// The line for programs that differ.

ghost use Rattle.std.specs.Prelude.{◌≡◌, IfOk, string_bytes};
ghost use Rattle.check_run.specs.Lines.{clauses_line, differs_line, group_of, named_line};

use es_base::ids::NodeId;
use es_clauses::clause::Clause;
use std::alloc::{AllocError, Global};
use step_check::verdict::Part;

/// The group of clauses that a clause is of: 2 what is left, 3 declarations of generated names, 4 other new declarations, 5 the
/// values of generated names, 6 what stays of the source, 7 printing, 8 fields, other elements and calls of helpers. The first
/// is that of numbers.
fn group_of(clause: Clause) -> u8
    ensures { result ≡ group_of clause }
{
    match clause {
        Clause::Left => 2,
        Clause::Declared => 3,
        Clause::Accounted => 4,
        Clause::Initialized | Clause::Timely | Clause::Temporaries | Clause::Keys => 5,
        Clause::Names
        | Clause::References
        | Clause::Strict
        | Clause::Texts
        | Clause::Carriers
        | Clause::Nodes
        | Clause::Classes
        | Clause::Statements
        | Clause::Lists
        | Clause::Homes => 6,
        Clause::Printable => 7,
        Clause::Definitions | Clause::Elements | Clause::Calls => 8,
    }
}

fn clauses_line(alloc: Global, group: u8, node: NodeId) -> Result<String, AllocError>
    ensures { IfOk result (λ s. string_bytes s ≡ clauses_line group node.0) }
{
    let at = node.0;
    format!(in alloc; "differs: Lowered {group} at {at}\n")
}

fn named_line(alloc: Global, name: &str, node: NodeId) -> Result<String, AllocError>
    ensures { IfOk result (λ s. string_bytes s ≡ named_line name.now node.0) }
{
    let at = node.0;
    format!(in alloc; "differs: {name} at {at}\n")
}

/// The line for a lowered program that fails in this part, at this node. Fails on allocation failure alone.
pub fn differs_line(alloc: Global, part: Part, node: NodeId) -> Result<String, AllocError>
    ensures { IfOk result (λ s. string_bytes s ≡ differs_line part node.0) }
{
    match part {
        Part::Numbers => clauses_line(alloc, 1, node),
        Part::Lowered(clause) => clauses_line(alloc, group_of(clause), node),
        Part::Texts => clauses_line(alloc, group_of(Clause::Texts), node),
        Part::NoMeaning => named_line(alloc, "NoMeaning", node),
        Part::Program => named_line(alloc, "Program", node),
        Part::Function => named_line(alloc, "Function", node),
        Part::Class => named_line(alloc, "Class", node),
        Part::Construction => named_line(alloc, "Construction", node),
        Part::Private => named_line(alloc, "Private", node),
        Part::Declaration => named_line(alloc, "Declaration", node),
        Part::Export => named_line(alloc, "Export", node),
    }
}
