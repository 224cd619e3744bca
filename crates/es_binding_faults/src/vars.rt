// How far a `var` is hoisted, and which names it passes. (ECMA-262, 8.2.6: VarDeclaredNames; B.3.2 and B.3.4.)

ghost use Rattle.std.specs.Prelude.{◌≡◌};
ghost use Rattle.es_node.specs.View.{parts_of};
ghost use Rattle.es_steps.specs.References as spec;

use crate::bound::is_binding_identifier;
use crate::hoisted::part_at;
use es_base::kind::Kind;
use es_node::node::Part;

/// Whether a `var` inside is hoisted no further: a function, an arrow or a static block.
pub fn takes_vars(kind: Kind) -> bool
    ensures { result ≡ spec.takes_vars kind }
{
    matches!(
        kind,
        Kind::FunctionDeclaration
            | Kind::FunctionExpression
            | Kind::ArrowFunctionExpression
            | Kind::StaticBlock
    )
}

/// Whether it is a catch of one name, which the `var` of a function in a block passes (B.3.4).
#[tactic(auto, using(crate::proofs::Catches::caught_name, crate::proofs::Catches::no_catch, crate::proofs::Catches::no_name))]
pub fn catches_a_name(kind: Kind, parts: &[Part]) -> bool
    ensures { result ≡ spec.catches_a_name kind (parts_of parts.now) }
{
    match kind {
        // catch (e) {}
        Kind::CatchClause => match part_at(parts, 0) {
            Some(Part::Child(param)) => is_binding_identifier(param),
            _ => false,
        },
        _ => false,
    }
}
