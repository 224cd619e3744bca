// The lowering of classes, of which nothing is taken for granted but how many nodes it makes.

use es_base::ids::NodeId;
use es_left::left::first_left;
use es_lowering::lowering::{LoweredProgram, Lowering, Unlowered};
use es_node::node::Node;
use es_steps::options::Options;
use es2022::lower::lower;
use std::alloc::Global;

/// The lowering of class properties, where they are to be lowered (crate `es2022`).
#[derive(Clone, Copy)]
pub struct Classes;

impl Lowering for Classes {
    ghost use Rattle.es_lowering.specs.Any.{DeclinesByNode};
    ghost use Rattle.lower_es2022.specs.Own.{MakesFew};

    ghost makes = { MakesFew };

    ghost declines = { DeclinesByNode };

    fn lower(
        &self,
        alloc: Global,
        options: &Options,
        source: &Node,
    ) -> Result<LoweredProgram, Unlowered> {
        if options.es2022.class_properties.is_none() {
            let node = first_left(source, options).unwrap_or(NodeId(0));
            return Err(Unlowered::NotYet { node });
        }
        lower(alloc, options, source)
    }
}
