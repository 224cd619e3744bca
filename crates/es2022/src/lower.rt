// The lowering of a program.

ghost use Rattle.std.specs.Prelude.{◌≡◌, ◌*◌, ◌<◌, ◌≤◌, ◌^◌, IfErr, IfOk};
ghost use Rattle.es_base.specs.Preorder.{nodes};
ghost use Rattle.es_lowering.specs.Any.{DeclinesByNode};
ghost use Rattle.es_scopes.specs.Built.{built_table};

use crate::class_properties::ClassProperties;
use crate::state::{Settings, State};
use es_base::ids::NodeId;
use es_ctx::ctx::TraverseCtx;
use es_lowering::lowering::{LoweredProgram, Unlowered};
use es_node::node::Node;
use es_scopes::scoping::Scoping;
use es_scopes_build::build::build;
use es_steps::options::Options;
use es_walk::program::walk_program;
use std::alloc::{AllocError, Global};

/// Programs of more nodes are not lowered.
const MAX_NODES: u32 = 1 << 20;

/// How many nodes are made for each node of a program, at most.
const ROOM: u32 = 63;

/// What a valid program is lowered to under the options, with class properties on: its nodes keep their numbers, which are those
/// of preorder, and new nodes have the numbers from the number of its nodes on. It has at most 64 times the nodes of its source.
/// Fails on allocation failure, and where a form is not lowered: private names, and a class without a place for what it needs.
#[tactic(auto, using(crate::specs::Paid::total_one))]
pub fn lower(alloc: Global, options: &Options, source: &Node) -> Result<LoweredProgram, Unlowered>
    ensures few { IfOk result (λ r. nodes r.program ≤ 64 * nodes source.now) }
    ensures declined { IfErr result (DeclinesByNode options.now source.now) }
{
    if !source.has_at_most(MAX_NODES) {
        return Err(Unlowered::NotYet { node: NodeId(0) });
    }
    let first = source.nodes();
    let (mut program, scoping) = with_scopes(alloc, source)?;
    let mut ctx = TraverseCtx::new(alloc, &program, scoping, options.assumptions)?;
    let mut transform = ClassProperties {
        room: ROOM * first,
        state: State::new(alloc, Settings::of(options)),
    };
    walk_program(&mut transform, &mut program, &mut ctx)?;
    let state = transform.state;
    match state.declined {
        Some(node) => Err(Unlowered::NotYet { node }),
        None => {
            let (_table, _warnings, names) = ctx.finish();
            Ok(LoweredProgram {
                program: numbered(program, first),
                names,
            })
        }
    }
}

/// A copy of a program, and its scope table, whose numbers are written on the copy.
#[tactic(auto, using(crate::proofs::Counted::built_nodes))]
fn with_scopes(alloc: Global, source: &Node) -> Result<(Node, Scoping), AllocError>
    requires { nodes source.now < 2 ^ 32 }
    ensures nodes { IfOk result (λ r. nodes r.0 ≡ nodes source.now) }
    ensures table { IfOk result (λ r. r.1 ≡ built_table source.now) }
{
    let mut program = source.clone_tree(alloc)?;
    let scoping = build(alloc, &mut program)?;
    Ok((program, scoping))
}

/// The program, whose new nodes have the numbers from this one on.
#[tactic(auto, using(crate::proofs::Counted::news_few, crate::proofs::Counted::numbered_nodes))]
fn numbered(program: Node, first: u32) -> Node
    requires many { nodes program ≤ 64 * first }
    requires few { first ≤ 2 ^ 20 }
    ensures { nodes result ≡ nodes program }
{
    let mut program = program;
    program.renumber_from(first);
    program
}
