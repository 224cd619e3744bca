// The lines that the program writes where its bytes are no tree.

ghost use Rattle.std.specs.Prelude.{◌≡◌, IfOk, string_bytes};
ghost use Rattle.es_reading.specs.Fault.{not_a_tree, float_at};
ghost use Rattle.lower_run.specs.Lines.{fault_line, what_name};

use es_reading::fault::What;
use std::alloc::{AllocError, Global};

/// The name of what is wrong with a value.
fn what_name(what: What) -> &'static str
    ensures { result.now ≡ what_name what }
{
    match what {
        What::NotANode => "NotANode",
        What::UnknownKind => "UnknownKind",
        What::WrongPlace => "WrongPlace",
        What::BadMember => "BadMember",
    }
}

/// The line for a value that is no tree: what is wrong, and the number of the node. Fails on allocation failure alone.
pub fn not_a_tree_line(alloc: Global, at: u32, what: What) -> Result<String, AllocError>
    ensures { IfOk result (λ s. string_bytes s ≡ fault_line (not_a_tree at what)) }
{
    let word = what_name(what);
    format!(in alloc; "not a tree: {word} at {at}\n")
}

/// The line for a float where no node stands. Fails on allocation failure alone.
pub fn float_line(alloc: Global, at: u32) -> Result<String, AllocError>
    ensures { IfOk result (λ s. string_bytes s ≡ fault_line (float_at at)) }
{
    format!(in alloc; "not a tree: float at {at}\n")
}
