// What was lowered can be printed.

ghost use Rattle.std.specs.Prelude.{◌≡◌, IfOk};
ghost use Rattle.es_steps.specs.Printable as spec;

use crate::bad_nodes::has_bad;
use crate::bare_strings::bare_strings_stay;
use crate::reserved::has_reserved;
use crate::stray_jumps::has_stray;
use crate::stray_targets::has_stray_target;
use crate::words::no_words;
use es_node::node::Node;
use es_owed::listed::Listed;
use es_validity::jumps::no_jumps;
use std::alloc::{AllocError, Global};

/// Whether what a program was lowered to can be printed where the source can, and has no string in the place of a directive
/// that the source has not. Fails on allocation failure alone.
pub fn stays_printable(alloc: Global, source: &Listed, lowered: &Listed) -> Result<bool, AllocError>
    ensures { IfOk result (λ holds. holds ≡ spec.stays_printable source.now.program.now lowered.now.program.now) }
{
    let is_kept = !is_printable(source.program) || is_printable(lowered.program);
    let stay = bare_strings_stay(alloc, source.nodes.as_slice(), lowered.nodes.as_slice())?;
    Ok(is_kept && stay)
}

/// Whether a program can be printed: each of its nodes can, each `break`, `continue` and `return` has what it leaves, each
/// `new.target` stands where one may, and no name is a reserved word where it stands.
pub fn is_printable(program: &Node) -> bool
    ensures { result ≡ spec.is_printable program.now }
{
    !(has_bad(false, false, program)
        || (has_stray(&no_jumps(false), program)
            || (has_stray_target(false, program) || has_reserved(no_words(), program))))
}
