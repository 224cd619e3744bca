// The function declarations of a program.

ghost use Rattle.std.specs.Prelude.{◌≡◌, ◌++◌, IfOk, OnOk};
ghost use Rattle.std.specs.Option.{option_to_list};
ghost use Rattle.es_base.specs.Preorder.{preorder};
ghost use Rattle.es_binding_faults.specs.Seen.{seen};
ghost use Rattle.es_by_number.specs.Numbered.{pairs};
ghost use Rattle.es_steps.specs.Meaning as spec;
ghost use Rattle.es_steps.specs.Meaning.{by_number};
ghost use Rattle.es_declarations.specs.Functions.{default_function, named_function};

use es_base::kind::Kind;
use es_binding_faults::preorder::preorder;
use es_by_number::numbered::{Numbered, sort_by_number};
use es_generated::ledger::Ledger;
use es_node::node::Node;
use es_tree::function::FunctionDeclarationRef;
use es_tree::identifier::BindingIdentifierRef;
use es_tree::module::ExportDefaultDeclarationRef;
use std::alloc::{AllocError, Global};

/// The declaring identifiers of the function declarations of a program whose names were not generated, by number, each with its
/// function; a default export stands for a function without name. Fails on allocation failure alone.
pub fn declared_functions(
    alloc: Global,
    ledger: &Ledger,
    program: &Node,
) -> Result<Vec<Numbered<u32>>, AllocError>
    ensures { IfOk result (λ fs. pairs fs.items ≡ by_number (spec.declared_functions ledger.now (preorder program.now))) }
{
    let nodes = preorder(alloc, program)?;
    let mut functions = functions_among(alloc, ledger, nodes.as_slice())?;
    sort_by_number(&mut functions)?;
    Ok(functions)
}

fn functions_among(
    alloc: Global,
    ledger: &Ledger,
    nodes: &[&Node],
) -> Result<Vec<Numbered<u32>>, AllocError>
    ensures { IfOk result (λ fs. pairs fs.items ≡ spec.declared_functions ledger.now (seen nodes.now)) }
{
    let mut functions = Vec::new(alloc);
    for node in nodes {
        add_if_some(declared_function(ledger, node), &mut functions)?;
    }
    Ok(functions)
}

fn add_if_some(
    function: Option<Numbered<u32>>,
    functions: &mut Vec<Numbered<u32>>,
) -> Result<(), AllocError>
    ensures { OnOk result (pairs functions.new.items ≡ pairs functions.old.items ++ pairs (option_to_list function)) }
{
    if let Some(function) = function {
        functions.push(function)?;
    }
    Ok(())
}

/// The function that a node declares, under the number of the identifier or the default export.
#[tactic(auto, using(crate::proofs::FunctionNodes::named, crate::proofs::FunctionNodes::unnamed, crate::proofs::FunctionNodes::by_default, crate::proofs::FunctionNodes::none))]
fn declared_function(ledger: &Ledger, node: &Node) -> Option<Numbered<u32>>
    ensures { pairs (option_to_list result) ≡ spec.declared_function ledger.now node.now }
{
    match node.kind() {
        // function f() {}
        Kind::FunctionDeclaration => match FunctionDeclarationRef::from_node(node).id {
            Some(id) => named_function(ledger, id, node.node_id().0),
            None => None,
        },
        // export default function () {}
        Kind::ExportDefaultDeclaration => {
            let export = ExportDefaultDeclarationRef::from_node(node);
            default_function(export.node_id.0, export.declaration)
        }
        _ => None,
    }
}

/// The function under the number of its identifier, unless that was generated.
#[tactic(auto, using(crate::proofs::FunctionNodes::no_identifier))]
fn named_function(ledger: &Ledger, id: &Node, function: u32) -> Option<Numbered<u32>>
    ensures { pairs (option_to_list result) ≡ named_function ledger.now id.now function }
{
    match id.kind() {
        Kind::BindingIdentifier => {
            let identifier = BindingIdentifierRef::from_node(id);
            match ledger.generated_as(identifier.name.as_str()) {
                Some(_) => None,
                None => Some(Numbered {
                    number: identifier.node_id.0,
                    value: function,
                }),
            }
        }
        _ => None,
    }
}

/// The function that a default export declares without a name.
#[tactic(auto, using(crate::proofs::FunctionNodes::no_function))]
fn default_function(export: u32, declaration: &Node) -> Option<Numbered<u32>>
    ensures { pairs (option_to_list result) ≡ default_function export declaration.now }
{
    match declaration.kind() {
        Kind::FunctionDeclaration => {
            let function = FunctionDeclarationRef::from_node(declaration);
            match function.id {
                Some(_) => None,
                None => Some(Numbered {
                    number: export,
                    value: function.node_id.0,
                }),
            }
        }
        _ => None,
    }
}
