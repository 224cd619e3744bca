// Reading programs.

ghost use Rattle.std.specs.Prelude.{◌≡◌, ◌+◌, ◌<◌, ◌^◌, IfOk, IfErr, Ok, true};
ghost use Rattle.es_base.specs.Conforms.{conforms};
ghost use Rattle.es_base.specs.Numbered.{IsNumbered};
ghost use Rattle.es_base.specs.declared.table.Place.{Place};
ghost use Rattle.es_reading.specs.Reading.{read, root};
ghost use Rattle.es_reading.specs.Told.{Tells, ids, values};
ghost use Rattle.es_reading.specs.declared.numbers.Numbers.{Numbers};
ghost use Rattle.es_json.specs.Typed.{program_tree};
ghost use Rattle.serde_json.specs.View.{view};

use borrowed_json::owned::borrowed;
use es_reading::fault::ReadError;
use es_reading::numbers::Numbers;
use es_reading::tree::read_tree;
use es_tree::program::Program;
use serde_json::Value;
use std::alloc::Global;

/// The program that a value is, with its nodes numbered 0, 1, .. in preorder. (ESTree;
/// docs/JSON.md)
///
/// Where the value is no program, the error is its first fault in preorder; beside that it fails on
/// allocation failure alone. The value holds fewer than 2^32 - 1 values, itself and those at every depth
/// counted, as `is_countable` tests.
pub fn read_program(alloc: Global, value: &Value) -> Result<Program, ReadError>
    requires { values (view value.now) + 1 < 2 ^ 32 }
    ensures ok { IfOk result (λ p.
        read Numbers.Preorder (view value.now) root 0 ≡ Ok (record { value = program_tree p; foreign = ids p.foreign })) }
    ensures numbered { IfOk result (λ p. IsNumbered 0 (program_tree p)) }
    ensures conforms { IfOk result (λ p. conforms Place.Program (program_tree p) ≡ true) }
    ensures err { IfErr result (λ e. Tells e (read Numbers.Preorder (view value.now) root 0)) }
{
    read_as(alloc, value, Numbers::Preorder)
}

/// The program that a value is, with the numbers of the members `node`. (docs/JSON.md)
///
/// A node without a whole `node` of u32 is refused as a bad member; else as `read_program`.
pub fn read_numbered(alloc: Global, value: &Value) -> Result<Program, ReadError>
    requires { values (view value.now) + 1 < 2 ^ 32 }
    ensures ok { IfOk result (λ p.
        read Numbers.Given (view value.now) root 0 ≡ Ok (record { value = program_tree p; foreign = ids p.foreign })) }
    ensures conforms { IfOk result (λ p. conforms Place.Program (program_tree p) ≡ true) }
    ensures err { IfErr result (λ e. Tells e (read Numbers.Given (view value.now) root 0)) }
{
    read_as(alloc, value, Numbers::Given)
}

#[tactic(auto, using(crate::proofs::OfKind::kind_of_program))]
fn read_as(alloc: Global, value: &Value, numbers: Numbers) -> Result<Program, ReadError>
    requires { values (view value.now) + 1 < 2 ^ 32 }
    ensures ok { IfOk result (λ p.
        read numbers (view value.now) root 0 ≡ Ok (record { value = program_tree p; foreign = ids p.foreign })) }
    ensures numbered { IfOk result (λ p. numbers ≡ Numbers.Preorder → IsNumbered 0 (program_tree p)) }
    ensures conforms { IfOk result (λ p. conforms Place.Program (program_tree p) ≡ true) }
    ensures err { IfErr result (λ e. Tells e (read numbers (view value.now) root 0)) }
{
    let borrowed = borrowed(alloc, value)?;
    let (tree, foreign) = read_tree(alloc, &borrowed, numbers)?;
    Ok(Program::from_node(tree, foreign))
}
