// Declarations, each with the class that its name is the name of.

ghost use Rattle.std.specs.Prelude.{◌≡◌, ◌++◌, OnOk};
ghost use Rattle.es_binding_faults.specs.Hoisted.{hoisted};
ghost use Rattle.es_binding_faults.specs.Named.{named};
ghost use Rattle.es_node.specs.View.{kind_of, number_in, part_of, parts_in, parts_of};
ghost use Rattle.es_steps.specs.Parts.{at};
ghost use Rattle.es_steps.specs.Scopes.{bound_names, bound_part, declaration, var_part};
ghost use Rattle.es_base.specs.Tree.{child};
ghost use Rattle.es_base.specs.declared.kind.Kind.{Kind};
ghost use Rattle.es_seen_names.specs.Declarations.{all_named_as, class_name_of, declarations};

use es_binding_faults::bound::Declared;
use es_binding_faults::hoisted::{Hoist, add_hoisted};
use es_binding_faults::{bound, hoisted};
use es_node::node::{Node, Part};
use std::alloc::{AllocError, Global};

/// The class that a name is the name of, by the number of its node.
#[derive(Debug, Clone, Copy, PartialEq, Eq)]
pub enum ClassName {
    /// No class.
    NoClass,
    /// A class declaration, seen around it.
    Declares(u32),
    /// A class, inside of it.
    OwnName(u32),
    /// The class in the initializer of a `let`, which counts where that is new.
    LetNames { variables: u32, class: u32 },
}

/// An identifier that declares a name.
#[derive(Debug, Clone, Copy)]
pub struct Declaration<'a> {
    pub name: &'a str,
    pub node: u32,
    pub class_name: ClassName,
}

/// Adds these names as names of this class.
fn add_as<'a>(
    class_name: ClassName,
    plain: &[Declared<'a>],
    names: &mut Vec<Declaration<'a>>,
) -> Result<(), AllocError>
    ensures { OnOk result (declarations names.new.items ≡ declarations names.old.items ++ all_named_as (class_name_of class_name) (named plain.now)) }
{
    for declared in plain {
        names.push(Declaration {
            name: declared.name,
            node: declared.node.0,
            class_name,
        })?;
    }
    Ok(())
}

/// Adds the names that the part at this place binds, as names of this class. Fails on allocation failure alone.
#[tactic(auto, using(crate::proofs::Naming::bound_part_as))]
pub fn add_bound_at<'a>(
    alloc: Global,
    class_name: ClassName,
    parts: &'a [Part],
    i: usize,
    names: &mut Vec<Declaration<'a>>,
) -> Result<(), AllocError>
    ensures { OnOk result (declarations names.new.items ≡ declarations names.old.items ++ bound_part (class_name_of class_name) (at i (parts_of parts.now))) }
{
    let mut plain = Vec::new(alloc);
    hoisted::add_bound_at(parts, i, &mut plain)?;
    add_as(class_name, plain.as_slice(), names)
}

/// Adds the names that a pattern or a declaration binds. Fails on allocation failure alone.
#[tactic(auto, using(crate::proofs::Naming::bound_as))]
pub fn add_bound<'a>(
    alloc: Global,
    class_name: ClassName,
    node: &'a Node,
    names: &mut Vec<Declaration<'a>>,
) -> Result<(), AllocError>
    ensures { OnOk result (declarations names.new.items ≡ declarations names.old.items ++ bound_names (class_name_of class_name) node.now) }
{
    let mut plain = Vec::new(alloc);
    bound::add_bound(node, &mut plain)?;
    add_as(class_name, plain.as_slice(), names)
}

/// Adds an identifier as the name of this class. Fails on allocation failure alone.
pub fn add_identifier<'a>(
    alloc: Global,
    class_name: ClassName,
    node: &'a Node,
    names: &mut Vec<Declaration<'a>>,
) -> Result<(), AllocError>
    requires { kind_of node.now ≡ Kind.BindingIdentifier }
    ensures { OnOk result (declarations names.new.items ≡ declarations names.old.items ++ declaration (class_name_of class_name) (number_in node.now) (parts_in node.now)) }
{
    let mut plain = Vec::new(alloc);
    bound::add_identifier(node, &mut plain)?;
    add_as(class_name, plain.as_slice(), names)
}

/// Adds the names of `var` that a statement hoists. Fails on allocation failure alone.
#[tactic(auto, using(crate::proofs::Naming::var_as))]
pub fn add_var<'a>(
    alloc: Global,
    node: &'a Node,
    names: &mut Vec<Declaration<'a>>,
) -> Result<(), AllocError>
    ensures { OnOk result (declarations names.new.items ≡ declarations names.old.items ++ var_part (child node.now)) }
{
    let mut plain = Vec::new(alloc);
    add_hoisted(Hoist::Var, node, &mut plain)?;
    add_as(ClassName::NoClass, plain.as_slice(), names)
}
