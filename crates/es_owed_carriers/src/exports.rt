// What an export declares.

ghost use Rattle.std.specs.Prelude.{◌≡◌, option_map};
ghost use Rattle.es_base.specs.Tree.{child, nullable};
ghost use Rattle.es_lowered.specs.Carriers.{form_of_export};
ghost use Rattle.es_owed_carriers.specs.Forms.{form_in};

use crate::forms::OddForm;
use es_base::kind::Kind;
use es_node::node::Node;

/// The form of an export that declares this, or nothing.
pub fn form_of_export(declaration: Option<&Node>) -> OddForm
    ensures { form_in result ≡ form_of_export (nullable (option_map (λ x. x.now) declaration.entry)) }
{
    match declaration {
        Some(declaration) => form_of_declaration(declaration),
        None => OddForm::None,
    }
}

/// The form of an export of this node.
#[tactic(auto, using(crate::proofs::OddForms::export_by_kind))]
fn form_of_declaration(declaration: &Node) -> OddForm
    ensures { form_in result ≡ form_of_export (child declaration.now) }
{
    match declaration.kind() {
        // export function f() {}
        Kind::FunctionDeclaration => OddForm::None,
        // export class A {}
        Kind::ClassDeclaration => OddForm::None,
        // export let a;
        Kind::VariableDeclaration => OddForm::None,
        _ => OddForm::ExportsOddly,
    }
}
