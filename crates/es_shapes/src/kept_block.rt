// Whether a static block is kept beside a static field or a private member, or beside fields that are initialized outside of the class.

ghost use Rattle.std.specs.Prelude.{◌≡◌, ◌&&◌, ◌||◌};
ghost use Rattle.es_base.specs.Preorder.{preorder};
ghost use Rattle.es_steps.specs.LoweredClasses.{constructor_in, is_lowered_class};
ghost use Rattle.es_steps.specs.Parts.{is_present};
ghost use Rattle.es_steps.specs.Shapes.{lowered_classes, has_pattern_parameter, keeps_block, has_shape_3};
ghost use Rattle.es_shapes.specs.Classes.{class_view, is_lowered, is_lowered_with};

use crate::asked::{lowers_blocks, lowers_fields};
use crate::class::{ClassRef, class_of, elements_of};
use crate::element::{ElementKinds, element_kinds};
use crate::late_class::initializes_with_pattern;
use crate::walk::{NodeTest, any_node};
use es_node::node::Node;
use es_steps::options::Options;

/// Whether a static block is kept beside a static field or a private member, or, in a class with a heritage, beside
/// fields of instances and a parameter of its constructor that is no identifier, with class properties on: shape S3.
#[tactic(auto, using(crate::proofs::Lowered::any_lowered))]
pub fn has_kept_block(program: &Node, options: &Options) -> bool
    ensures { result ≡ has_shape_3 options.now (lowered_classes options.now (preorder program.now)) }
{
    let test = KeepsBlock { options: *options };
    lowers_fields(options) && !lowers_blocks(options) && any_node(&test, program)
}

/// Whether the node is a lowered class with a static block beside one of these.
#[derive(Drop)]
struct KeepsBlock {
    options: Options,
}

impl NodeTest for KeepsBlock {
    ghost passes = { λ k t. is_lowered_with k.options keeps_block t };

    fn passes(&self, node: &Node) -> bool
        ensures { result ≡ is_lowered_with self.now.options keeps_block node.now }
    {
        // class A { static x = 1; static {} }, class A extends B { x = 1; static {} constructor(y = super()) {} }
        match class_of(node) {
            Some(class) => keeps_block(&self.options, class),
            None => false,
        }
    }
}

fn keeps_block(options: &Options, class: ClassRef) -> bool
    ensures { result ≡ (is_lowered options.now (class_view class.entry) && keeps_block (class_view class.entry)) }
{
    let kinds = element_kinds(options, elements_of(class.body));
    is_block_kept(kinds, initializes_outside(kinds, class))
}

/// Whether a class with these kinds of elements may have its fields initialized outside of it.
fn initializes_outside(kinds: ElementKinds, class: ClassRef) -> bool
    ensures { result ≡ (is_present (class_view class.entry).heritage && (kinds.has_instance_initializer && has_pattern_parameter (constructor_in (class_view class.entry).body))) }
{
    class.super_class.is_some() && initializes_with_pattern(kinds, elements_of(class.body))
}

/// Whether a lowered class with these kinds of elements keeps a static block beside a static field or a
/// private member, or beside fields that are initialized outside of it.
fn is_block_kept(kinds: ElementKinds, is_outside: bool) -> bool
    ensures { result ≡ (kinds.has_lowered && (kinds.has_block && ((kinds.has_static_field || kinds.has_private) || is_outside))) }
{
    kinds.has_lowered
        && kinds.has_block
        && (kinds.has_static_field || kinds.has_private || is_outside)
}
