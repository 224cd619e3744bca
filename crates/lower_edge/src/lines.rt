// The lines of refusals.

ghost use Rattle.std.specs.Prelude.{◌≡◌, IfOk, string_bytes};
ghost use Rattle.lower_edge.specs.Ending.{IsRefusalText};
ghost use Rattle.lower_edge.specs.Lines.{rule_name, left_out_name};

use es_validity::error::LowerError;
use es_validity::fault::{LeftOut, TreeRule};
use std::alloc::{AllocError, Global};

/// The name of a rule.
fn rule_name(rule: TreeRule) -> &'static str
    ensures { result.now ≡ rule_name rule }
{
    match rule {
        TreeRule::TwoConstructors => "TwoConstructors",
        TreeRule::ConstructorForm => "ConstructorForm",
        TreeRule::PrivateConstructor => "PrivateConstructor",
        TreeRule::SuperCall => "SuperCall",
        TreeRule::SuperMember => "SuperMember",
        TreeRule::SuperPrivate => "SuperPrivate",
        TreeRule::DeletePrivate => "DeletePrivate",
        TreeRule::RepeatedName => "RepeatedName",
        TreeRule::StrayJump => "StrayJump",
        TreeRule::OwnArguments => "OwnArguments",
        TreeRule::AwaitYield => "AwaitYield",
        TreeRule::NoName => "NoName",
        TreeRule::ChainForm => "ChainForm",
        TreeRule::DeclarationPlace => "DeclarationPlace",
        TreeRule::ModuleItem => "ModuleItem",
    }
}

/// The name of a form that is left out.
fn left_out_name(what: LeftOut) -> &'static str
    ensures { result.now ≡ left_out_name what }
{
    match what {
        LeftOut::Foreign => "Foreign",
        LeftOut::With => "With",
        LeftOut::Eval => "Eval",
        LeftOut::HelperName => "HelperName",
        LeftOut::LooseMethod => "LooseMethod",
        LeftOut::LooseIn => "LooseIn",
        LeftOut::SuperForm => "SuperForm",
        LeftOut::SuperInInitializer => "SuperInInitializer",
    }
}

/// The line that says why a program is refused. Fails on allocation failure alone, and where that is why.
pub fn refusal_line(alloc: Global, error: LowerError) -> Result<String, AllocError>
    ensures { IfOk result (λ s. IsRefusalText error (string_bytes s)) }
{
    match error {
        LowerError::NoMemory => Err(AllocError),
        LowerError::Unsupported { node, what } => {
            let word = left_out_name(what);
            let at = node.0;
            format!(in alloc; "refused: Unsupported {word} at {at}\n")
        }
        LowerError::UndeclaredPrivate { node } => {
            let at = node.0;
            format!(in alloc; "refused: UndeclaredPrivate at {at}\n")
        }
        LowerError::DuplicatePrivate { node } => {
            let at = node.0;
            format!(in alloc; "refused: DuplicatePrivate at {at}\n")
        }
        LowerError::BadTree { node, rule } => {
            let word = rule_name(rule);
            let at = node.0;
            format!(in alloc; "refused: BadTree {word} at {at}\n")
        }
        LowerError::TooLarge { nodes } => format!(in alloc; "refused: TooLarge {nodes}\n"),
        LowerError::NotYet { node } => {
            let at = node.0;
            format!(in alloc; "refused: NotYet at {at}\n")
        }
    }
}
