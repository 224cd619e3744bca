// Building the scope table of a program.

ghost use Rattle.std.specs.Prelude.{◌≡◌, ◌<◌, ◌^◌, IfOk, OnOk, OnErr, [], true};
ghost use Rattle.es_base.specs.Carried.{stripped};
ghost use Rattle.es_base.specs.Conforms.{conforms};
ghost use Rattle.es_base.specs.Numbered.{numbers, EachOnce};
ghost use Rattle.es_base.specs.Preorder.{nodes};
ghost use Rattle.es_base.specs.declared.table.Place.{Place};
ghost use Rattle.es_scopes.specs.Agreement.{Agrees};
ghost use Rattle.es_scopes.specs.Built.{built_table};
ghost use Rattle.es_scopes_law.specs.Build.{built_tree};

use crate::collect::entries_of;
use crate::written::write_node;
use es_node::node::Node;
use es_scopes::refer::number_all;
use es_scopes::scoping::Scoping;
use std::alloc::{AllocError, Global};

/// The scope table of a program, whose numbers are written on its nodes. The tree is otherwise unchanged.
/// The table agrees with the tree, if it conforms to the grammar and no two of its nodes have one number.
/// Takes time in proportion to the program, where scopes stand in few others. Fails on allocation failure
/// alone, and then the tree stays.
pub fn build(alloc: Global, program: &mut Node) -> Result<Scoping, AllocError>
    requires { nodes program.old < 2 ^ 32 }
    ensures table { IfOk result (λ t. t ≡ built_table program.old) }
    ensures agrees { IfOk result (λ t. conforms Place.Program program.old ≡ true → EachOnce (numbers program.old) → Agrees [] t program.new) }
    ensures tree { OnOk result (program.new ≡ built_tree program.old) }
    ensures stripped { OnOk result (stripped program.new ≡ stripped program.old) }
    ensures err { OnErr result (program.new ≡ program.old) }
{
    let numbering = {
        let entries = entries_of(alloc, program)?;
        number_all(alloc, entries.as_slice())?
    };
    write_node(program, numbering.ids.as_slice(), 0);
    Ok(numbering.declarations.scoping)
}
