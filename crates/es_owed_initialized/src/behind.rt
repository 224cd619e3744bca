// Assignments that are the first statement behind a class declaration.

ghost use Rattle.std.specs.Prelude.{◌≡◌, ◌++◌, ℕ, option_map, IfOk, OnOk};
ghost use Rattle.std.specs.Option.{option_to_list};
ghost use Rattle.es_base.specs.Tree.{child, trees};
ghost use Rattle.es_binding_faults.specs.Seen.{seen};
ghost use Rattle.es_by_number.specs.Numbered.{pairs};
ghost use Rattle.es_grouped.specs.Groups.{group, having};
ghost use Rattle.es_node.specs.View.{kind_of};
ghost use Rattle.es_owed_initialized.specs.Behind.{is_assignment, pairs_with};
ghost use Rattle.es_lowered.specs.Lowered as spec;

use es_base::kind::Kind;
use es_by_number::numbered::Numbered;
use es_grouped::Grouped;
use es_node::node::Node;
use es_owed::lists::declared_class;
use es_owed::statements::statement_list;
use es_tree::statement::ExpressionStatementRef;
use std::alloc::{AllocError, Global};

/// Of each assignment that is the first statement behind the declaration of a class, in a list of statements of one of these
/// nodes, this class. Fails on allocation failure alone.
pub fn classes_before(alloc: Global, nodes: &[&Node]) -> Result<Grouped<u32>, AllocError>
    ensures { IfOk result (λ g. (m : ℕ) → group m g ≡ having m (spec.all_behind (seen nodes.now))) }
{
    let found = all_behind(alloc, nodes)?;
    Grouped::of(alloc, found)
}

/// These assignments, each with the class. Fails on allocation failure alone.
#[tactic(auto, using(crate::proofs::PairsBehind::more_lists))]
fn all_behind(alloc: Global, nodes: &[&Node]) -> Result<Vec<Numbered<u32>>, AllocError>
    ensures { IfOk result (λ r. pairs r.items ≡ spec.all_behind (seen nodes.now)) }
{
    let mut found = Vec::new(alloc);
    for node in nodes {
        add_behind(statement_list(node), &mut found)?;
    }
    Ok(found)
}

/// Adds those of a list of statements. Fails on allocation failure alone.
#[tactic(auto, using(crate::proofs::PairsBehind::last_pair))]
fn add_behind(statements: &[Node], found: &mut Vec<Numbered<u32>>) -> Result<(), AllocError>
    ensures { OnOk result (pairs found.new.items ≡ pairs found.old.items ++ spec.pairs_behind (trees statements.now)) }
{
    let mut before = None;
    for statement in statements {
        add_pair(before, statement, found)?;
        before = Some(statement);
    }
    Ok(())
}

/// Adds the statement, if it is an assignment and the one before declares a class. Fails on allocation failure alone.
#[tactic(auto, using(crate::proofs::PairsBehind::class_numbers))]
fn add_pair(
    before: Option<&Node>,
    statement: &Node,
    found: &mut Vec<Numbered<u32>>,
) -> Result<(), AllocError>
    ensures { OnOk result (pairs found.new.items ≡ pairs found.old.items ++ pairs_with (option_map (λ x. x.now) before.entry) statement.now) }
{
    match before {
        Some(before) => add_paired(assignment_in(statement), declared_class(before), found),
        None => Ok(()),
    }
}

/// Adds the assignment with the class, if there are both. Fails on allocation failure alone.
fn add_paired(
    assignment: Option<u32>,
    class: Option<u32>,
    found: &mut Vec<Numbered<u32>>,
) -> Result<(), AllocError>
    ensures { OnOk result (pairs found.new.items ≡ pairs found.old.items ++ spec.paired (option_to_list assignment) (option_to_list class)) }
{
    if let Some(number) = assignment {
        if let Some(value) = class {
            found.push(Numbered { number, value })?;
        }
    }
    Ok(())
}

/// The number of the assignment that a statement is.
#[tactic(auto, using(crate::proofs::PairsBehind::assigned, crate::proofs::PairsBehind::unassigned))]
fn assignment_in(statement: &Node) -> Option<u32>
    ensures { option_to_list result ≡ spec.assignment_number (child statement.now) }
{
    match statement.kind() {
        // _A = A;
        Kind::ExpressionStatement => {
            let expression = ExpressionStatementRef::from_node(statement).expression;
            if is_assignment(expression) {
                Some(expression.node_id().0)
            } else {
                None
            }
        }
        _ => None,
    }
}

fn is_assignment(node: &Node) -> bool
    ensures { result ≡ is_assignment (kind_of node.now) }
{
    matches!(node.kind(), Kind::AssignmentExpression)
}
