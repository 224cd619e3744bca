// The temporaries that keep the keys of fields, each with the class of its field.

ghost use Rattle.std.specs.Prelude.{◌≡◌, ◌++◌, IfOk, OnOk};
ghost use Rattle.std.specs.Str.{chars};
ghost use Rattle.es_base.specs.Preorder.{preorder};
ghost use Rattle.es_base.specs.Tree.{child};
ghost use Rattle.es_binding_faults.specs.Seen.{seen};
ghost use Rattle.es_seen_names.specs.PrivateMembers.{private_members_of};
ghost use Rattle.es_lowered.specs.Definitions as spec;
ghost use Rattle.es_owed_initialized.specs.Keys.{keys_of};
ghost use Rattle.es_owed_definitions.specs.Fields.{HasStatics};
ghost use Rattle.es_owed_definitions.specs.Views.{definition_views, key_view};
ghost use Rattle.es_owed_keys.specs.Temporaries.{temporaries_at, temporary_of};

use es_base::ledger::GeneratedKind;
use es_generated::ledger::Ledger;
use es_node::node::Node;
use es_owed_definitions::definition::{DefinedKey, FieldDefinition};
use es_owed_definitions::lowered::LoweredProgram;
use es_owed_initialized::keys::KeyTemporary;
use es_owed_initialized::kinds::is_class;
use es_owed_initialized::spelling::spelling;
use std::alloc::{AllocError, Global};

/// Adds the temporary that this key is, if it is one. Fails on allocation failure alone.
fn add_named<'a>(
    ledger: &Ledger,
    class: u32,
    key: &'a Node,
    found: &mut Vec<KeyTemporary<'a>>,
) -> Result<(), AllocError>
    ensures { OnOk result (keys_of found.new.items ≡ keys_of found.old.items ++ temporary_of ledger.now class (spec.spelling (child key.now))) }
{
    let name = spelling(key);
    match ledger.generated_as(name) {
        Some(GeneratedKind::Temp) => {
            found.push(KeyTemporary { name, class })?;
            Ok(())
        }
        _ => Ok(()),
    }
}

/// The same of what a definition says of its key. Fails on allocation failure alone.
fn add_key<'a>(
    ledger: &Ledger,
    class: u32,
    key: DefinedKey<'a>,
    found: &mut Vec<KeyTemporary<'a>>,
) -> Result<(), AllocError>
    ensures { OnOk result (keys_of found.new.items ≡ keys_of found.old.items ++ spec.with_class class (spec.key_temporary ledger.now (key_view key.entry))) }
{
    match key {
        DefinedKey::Value(key) | DefinedKey::Name(key) => add_named(ledger, class, key, found),
        DefinedKey::Brand(_) | DefinedKey::Private(_) => Ok(()),
    }
}

/// The same of definitions. Fails on allocation failure alone.
#[tactic(auto, using(crate::proofs::Classed::one_more))]
fn add_keys<'a>(
    ledger: &Ledger,
    class: u32,
    definitions: &[FieldDefinition<'a>],
    found: &mut Vec<KeyTemporary<'a>>,
) -> Result<(), AllocError>
    ensures { OnOk result (keys_of found.new.items ≡ keys_of found.old.items ++ spec.with_class class (spec.key_temporaries ledger.now (definition_views definitions.now))) }
{
    for definition in definitions {
        add_key(ledger, class, definition.key, found)?;
    }
    Ok(())
}

/// Those of a class. Fails on allocation failure alone.
fn add_class<'a>(
    alloc: Global,
    lowered: &LoweredProgram<'a>,
    class: u32,
    found: &mut Vec<KeyTemporary<'a>>,
) -> Result<(), AllocError>
    requires { HasStatics lowered.now.terms (private_members_of lowered.now.members.now) lowered.now.listed.now.program.now lowered.now.statics }
    ensures { OnOk result (keys_of found.new.items ≡ keys_of found.old.items ++ spec.with_class class (spec.class_temporaries lowered.now.terms.first lowered.now.terms.options.now lowered.now.terms.ledger.now (private_members_of lowered.now.members.now) lowered.now.listed.now.program.now class)) }
{
    let ledger = lowered.terms.ledger;
    let instance = lowered.instance_definitions(alloc, class)?;
    add_keys(ledger, class, instance.as_slice(), found)?;
    add_keys(ledger, class, lowered.static_definitions(class), found)
}

/// Those of a node, if it is a class. Fails on allocation failure alone.
fn add_node<'a>(
    alloc: Global,
    lowered: &LoweredProgram<'a>,
    node: &Node,
    found: &mut Vec<KeyTemporary<'a>>,
) -> Result<(), AllocError>
    requires { HasStatics lowered.now.terms (private_members_of lowered.now.members.now) lowered.now.listed.now.program.now lowered.now.statics }
    ensures { OnOk result (keys_of found.new.items ≡ keys_of found.old.items ++ temporaries_at lowered.now.terms (private_members_of lowered.now.members.now) lowered.now.listed.now.program.now node.now) }
{
    if is_class(node.kind()) {
        return add_class(alloc, lowered, node.node_id().0, found);
    }
    Ok(())
}

/// Those of the classes among these nodes. Fails on allocation failure alone.
#[tactic(auto, using(crate::proofs::Classed::node_more))]
fn add_nodes<'a>(
    alloc: Global,
    lowered: &LoweredProgram<'a>,
    nodes: &[&Node],
    found: &mut Vec<KeyTemporary<'a>>,
) -> Result<(), AllocError>
    requires { HasStatics lowered.now.terms (private_members_of lowered.now.members.now) lowered.now.listed.now.program.now lowered.now.statics }
    ensures { OnOk result (keys_of found.new.items ≡ keys_of found.old.items ++ spec.all_temporaries lowered.now.terms.first lowered.now.terms.options.now lowered.now.terms.ledger.now (private_members_of lowered.now.members.now) lowered.now.listed.now.program.now (seen nodes.now)) }
{
    for node in nodes {
        add_node(alloc, lowered, node, found)?;
    }
    Ok(())
}

/// The temporaries that keep the keys of the fields of a lowered program, each with the class of its field. Fails on allocation
/// failure alone.
pub fn all_temporaries<'a>(
    alloc: Global,
    lowered: &LoweredProgram<'a>,
) -> Result<Vec<KeyTemporary<'a>>, AllocError>
    requires { HasStatics lowered.now.terms (private_members_of lowered.now.members.now) lowered.now.listed.now.program.now lowered.now.statics }
    ensures { IfOk result (λ ks. keys_of ks.items ≡ spec.all_temporaries lowered.now.terms.first lowered.now.terms.options.now lowered.now.terms.ledger.now (private_members_of lowered.now.members.now) lowered.now.listed.now.program.now (preorder lowered.now.listed.now.program.now)) }
{
    let mut found = Vec::new(alloc);
    add_nodes(alloc, lowered, lowered.nodes(), &mut found)?;
    Ok(found)
}
