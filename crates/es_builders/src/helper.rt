// The helpers that a lowered program calls.

ghost use Rattle.std.specs.Prelude.{◌≡◌, IfOk, OnOk, None, Some, true, length};
ghost use Rattle.es_base.specs.Ascii.{is_ascii};
ghost use Rattle.es_scopes.specs.Table.{HasRoom, with_created_reference};
ghost use Rattle.es_scopes.specs.declared.flags.TheConstants.ReferenceFlags as flag;
ghost use Rattle.es_steps.specs.Helpers.{helper_named};
ghost use Rattle.es_builders.specs.Builders as builder;
ghost use Rattle.es_builders.specs.Helpers.{helper_name, meaning};

use crate::bound_identifier::make_reference;
use crate::builders::create_member_callee;
use es_base::list::List;
use es_base::name::Name;
use es_node::node::Node;
use es_scopes::flags::ReferenceFlags;
use es_scopes::scoping::Scoping;
use es_tree::expression::make_call_expression;
use std::alloc::{AllocError, Global};

/// A helper: a member of the global `babelHelpers` (Babel's runtime helpers).
#[derive(Debug, Clone, Copy, PartialEq, Eq)]
pub enum Helper {
    DefineProperty,
    ClassPrivateFieldInitSpec,
    ClassPrivateMethodInitSpec,
    ClassPrivateFieldGet2,
    ClassPrivateFieldSet2,
    AssertClassBrand,
    ToSetter,
    CheckInRHS,
    ReadOnlyError,
    WriteOnlyError,
    SuperPropGet,
    SuperPropSet,
    ClassPrivateFieldLooseKey,
    ClassPrivateFieldLooseBase,
    SetFunctionName,
    ToPropertyKey,
}

/// The name of the helper, by which the meaning of programs knows it.
pub fn helper_name(helper: Helper) -> &'static str
    ensures name { result.now ≡ helper_name helper }
    ensures ascii { is_ascii result.now ≡ true }
    ensures means { helper_named result.now ≡ Some (meaning helper) }
{
    match helper {
        Helper::DefineProperty => "defineProperty",
        Helper::ClassPrivateFieldInitSpec => "classPrivateFieldInitSpec",
        Helper::ClassPrivateMethodInitSpec => "classPrivateMethodInitSpec",
        Helper::ClassPrivateFieldGet2 => "classPrivateFieldGet2",
        Helper::ClassPrivateFieldSet2 => "classPrivateFieldSet2",
        Helper::AssertClassBrand => "assertClassBrand",
        Helper::ToSetter => "toSetter",
        Helper::CheckInRHS => "checkInRHS",
        Helper::ReadOnlyError => "readOnlyError",
        Helper::WriteOnlyError => "writeOnlyError",
        Helper::SuperPropGet => "superPropGet",
        Helper::SuperPropSet => "superPropSet",
        Helper::ClassPrivateFieldLooseKey => "classPrivateFieldLooseKey",
        Helper::ClassPrivateFieldLooseBase => "classPrivateFieldLooseBase",
        Helper::SetFunctionName => "setFunctionName",
        Helper::ToPropertyKey => "toPropertyKey",
    }
}

/// `babelHelpers.name`, a free reference that reads. Fails on allocation failure alone; then nothing is said
/// of the table.
pub fn helper_load(alloc: Global, helper: Helper, scoping: &mut Scoping) -> Result<Node, AllocError>
    requires { HasRoom scoping.old.references }
    ensures node { IfOk result (λ t. t ≡ builder.helper (length scoping.old.references) (helper_name helper)) }
    ensures table { OnOk result (scoping.new ≡ with_created_reference scoping.old None flag.READ) }
{
    let reference_id = scoping.create_reference(None, ReferenceFlags::READ)?;
    let name = Name::from_ascii(alloc, "babelHelpers")?;
    let object = make_reference(alloc, name, None, reference_id)?;
    create_member_callee(alloc, object, helper_name(helper))
}

/// `babelHelpers.name(args)`. Fails on allocation failure alone; then nothing is said of the table.
pub fn helper_call_expr(
    alloc: Global,
    helper: Helper,
    args: List<Node>,
    scoping: &mut Scoping,
) -> Result<Node, AllocError>
    requires { HasRoom scoping.old.references }
    ensures node { IfOk result (λ t. t ≡ builder.helper_call (length scoping.old.references) (helper_name helper) args) }
    ensures table { OnOk result (scoping.new ≡ with_created_reference scoping.old None flag.READ) }
{
    let callee = helper_load(alloc, helper, scoping)?;
    make_call_expression(alloc, callee, args, false)
}
