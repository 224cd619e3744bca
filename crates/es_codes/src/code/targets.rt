// Targets, form by form.

ghost use Rattle.std.specs.Prelude.{◌≡◌};
ghost use Rattle.es_steps.specs.Code as of;
ghost use Rattle.es_codes.specs.View.{kind_of, reference_of, home_of};
ghost use Rattle.es_codes.specs.CodeView.{code_of, target_of, codes_of};

use crate::boxed::Boxed;
use crate::code::{Code, Target};
use crate::event::Home;
use crate::name::{NameKind, PrivateReference};
use crate::value::Value;
use es_base::kind::Kind;
use es_base::list::List;
use es_base::name::Name;

impl Target {
    /// `x`
    #[tactic(auto, using(crate::proofs::Forms::to_name_is))]
    pub fn to_name(node: u32, spelling: Name, kind: NameKind) -> Target
        ensures { target_of result ≡ of.to_name node spelling (kind_of kind) }
    {
        Target::ToName {
            node,
            spelling,
            kind,
        }
    }

    /// `o[k]`
    #[tactic(auto, using(crate::proofs::Forms::to_member_is))]
    pub fn to_member(node: u32, object: Boxed<Code>, key: Boxed<Code>) -> Target
        ensures { target_of result ≡ of.to_member node (code_of object) (code_of key) }
    {
        Target::ToMember { node, object, key }
    }

    /// `o.#x`
    #[tactic(auto, using(crate::proofs::Forms::to_private_is))]
    pub fn to_private(node: u32, means: PrivateReference, object: Boxed<Code>) -> Target
        ensures { target_of result ≡ of.to_private node (reference_of means) (code_of object) }
    {
        Target::ToPrivate {
            node,
            means,
            object,
        }
    }

    /// `super[k]`
    #[tactic(auto, using(crate::proofs::Forms::to_super_is))]
    pub fn to_super(node: u32, home: Home, key: Boxed<Code>, this: Value) -> Target
        ensures { target_of result ≡ of.to_super node (home_of home) (code_of key) this }
    {
        Target::ToSuper {
            node,
            home,
            key,
            this,
        }
    }

    /// `babelHelpers.toSetter(..)._`
    #[tactic(auto, using(crate::proofs::Forms::to_setter_is))]
    pub fn to_setter(node: u32, key: u32, object: Boxed<Code>) -> Target
        ensures { target_of result ≡ of.to_setter node key (code_of object) }
    {
        Target::ToSetter { node, key, object }
    }

    /// `[a, b]`
    #[tactic(auto, using(crate::proofs::Forms::to_pattern_is))]
    pub fn to_pattern(node: u32, kind: Kind, members: List<Code>) -> Target
        ensures { target_of result ≡ of.to_pattern node kind (codes_of members) }
    {
        Target::ToPattern {
            node,
            kind,
            members,
        }
    }

    /// `t = e` in a pattern
    #[tactic(auto, using(crate::proofs::Forms::to_default_is))]
    pub fn to_default(node: u32, to: Boxed<Target>, default: Boxed<Code>) -> Target
        ensures { target_of result ≡ of.to_default node (target_of to) (code_of default) }
    {
        Target::ToDefault { node, to, default }
    }

    /// What cannot be assigned to.
    #[tactic(auto, using(crate::proofs::Forms::no_target_is))]
    pub fn no_target() -> Target
        ensures { target_of result ≡ of.no_target }
    {
        Target::NoTarget
    }
}
