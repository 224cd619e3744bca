// What a name is where it stands.

ghost use Rattle.std.specs.Prelude.{◌≡◌, IfOk};
ghost use Rattle.std.specs.Str.{chars};
ghost use Rattle.es_codes.specs.View.{kind_of};
ghost use Rattle.es_seen_names.specs.Declarations.{class_name_of};
ghost use Rattle.es_steps.specs.Context as spec;
ghost use Rattle.es_steps.specs.References.{varying};
ghost use Rattle.es_code_reading.specs.Contexts.{context_of};
ghost use Rattle.es_code_reading.specs.NameKinds.{is_own, steady_kind};

use crate::context::{Context, Terms};
use es_base::ids::NodeId;
use es_base::name::Name;
use es_codes::name::{NameKind, Referent};
use es_generated::numbers::is_new;
use es_seen_names::declaration::ClassName;
use es_seen_names::names::declared;
use es_shapes::facts::NameFacts;
use std::alloc::{AllocError, Global};

/// What a name is that this identifier declares as the name of this class, if the binding does not vary.
fn steady_kind(terms: &Terms, binding: u32, class_name: ClassName) -> NameKind
    ensures { kind_of result ≡ steady_kind terms.now.first_new binding (class_name_of class_name) }
{
    match class_name {
        ClassName::NoClass => NameKind::Fixed(binding),
        ClassName::Declares(class) | ClassName::OwnName(class) => {
            NameKind::MeansClass { class, binding }
        }
        ClassName::LetNames { variables, class } => {
            if is_new(terms.first_new, variables) {
                NameKind::MeansClass { class, binding }
            } else {
                NameKind::Fixed(binding)
            }
        }
    }
}

/// What a name is that this identifier declares as the name of this class.
#[tactic(auto, using(crate::proofs::NameKinds::own_kind, crate::proofs::NameKinds::other_kind))]
fn declared_kind(terms: &Terms, binding: u32, class_name: ClassName) -> NameKind
    ensures { kind_of result ≡ spec.declared_kind terms.now.first_new (varying terms.now.names.now.program.now) binding (class_name_of class_name) }
{
    if is_own(class_name) || !terms.names.is_varying(NodeId(binding)) {
        steady_kind(terms, binding, class_name)
    } else {
        NameKind::Changing(Referent::Bound(binding))
    }
}

/// Whether a class is named inside of it.
fn is_own(class_name: ClassName) -> bool
    ensures { result ≡ is_own (class_name_of class_name) }
{
    matches!(class_name, ClassName::OwnName(_))
}

/// What a name is. Fails on allocation failure alone.
pub fn name_kind(alloc: Global, c: &Context, name: &str) -> Result<NameKind, AllocError>
    ensures { IfOk result (λ k. kind_of k ≡ spec.name_kind (context_of c.now) (chars name.now)) }
{
    if let Some(kind) = c.terms.ledger.generated_as(name) {
        return Ok(NameKind::Generated(kind));
    }
    match declared(&c.names, name) {
        Some(declaration) => Ok(declared_kind(c.terms, declaration.node, declaration.class_name)),
        None => Ok(NameKind::Changing(Referent::Free(Name::new(alloc, name)?))),
    }
}
