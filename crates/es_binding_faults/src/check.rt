// Whether a program is valid.

ghost use Rattle.std.specs.Prelude.{◌≡◌, ◌<◌, ◌^◌, map, true, IfErr, OnOk};
ghost use Rattle.es_base.specs.Preorder.{nodes};
ghost use Rattle.es_validity.specs.Facts.{facts_of};
ghost use Rattle.es_validity.specs.Validity.{is_valid, IsRefusedBy};

use crate::facts::name_faults;
use es_base::ids::NodeId;
use es_node::node::Node;
use es_steps::options::Options;
use es_validity::check::{self, Facts};
use es_validity::error::LowerError;
use std::alloc::Global;

/// Whether a program is valid: it has no more than 1,048,576 nodes, and no fault. The error is `TooLarge`, or its first fault.
/// `foreign` are the numbers of nodes that have members outside the table. Takes time in proportion to the program, but for
/// labels of labels, classes in classes, and a `var` in blocks of blocks. `NoMemory` comes on allocation failure alone.
/// (docs/REFUSALS.md)
pub fn check_valid(
    alloc: Global,
    program: &Node,
    foreign: &[NodeId],
    options: &Options,
) -> Result<(), LowerError>
    requires { nodes program.now < 2 ^ 32 }
    ensures valid { OnOk result (is_valid options.now (map (λ n. n.0) foreign.now) program.now ≡ true) }
    ensures refused { IfErr result (IsRefusedBy (facts_of program.now) options.now (map (λ n. n.0) foreign.now) program.now) }
{
    let faults = name_faults(alloc, program)?;
    let facts = Facts {
        repeated_names: faults.repeated_names.as_slice(),
        eval_calls: faults.eval_calls.as_slice(),
    };
    check::check_valid(alloc, program, foreign, &facts, options)
}
