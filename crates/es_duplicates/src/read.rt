// Names that are read more than once.

ghost use Rattle.std.specs.Prelude.{◌≡◌, ◌+◌, ◌-◌, ◌^◌, ◌<◌, None, Some, IfOk, OnOk, length};
ghost use Rattle.es_base.specs.Carried.{span_of};
ghost use Rattle.es_builders.specs.Builders as builder;
ghost use Rattle.es_duplicates.specs.Reads.{names_read, with_reads};
ghost use Rattle.es_scopes.specs.Table.{HasSymbol, with_created_reference};
ghost use Rattle.es_scopes.specs.declared.flags.TheConstants.ReferenceFlags as flag;

use es_base::ids::Span;
use es_base::list::List;
use es_builders::bound_identifier::BoundIdentifier;
use es_node::node::Node;
use es_scopes::flags::ReferenceFlags;
use es_scopes::scoping::Scoping;
use std::alloc::{AllocError, Global};

/// `name`, as often as is asked for, each a new reference to its symbol. Fails on allocation failure alone, as the call
/// below does; then nothing is said of the table.
pub(crate) fn read_names(
    alloc: Global,
    name: &BoundIdentifier,
    span: Option<Span>,
    count: usize,
    scoping: &mut Scoping,
) -> Result<List<Node>, AllocError>
    requires symbol { HasSymbol scoping.old name.now.symbol_id }
    requires room { length scoping.old.references + count < 2 ^ 32 }
    ensures names { IfOk result (λ ts. ts ≡ names_read (span_of span) name.now.name (length scoping.old.references) count) }
    ensures table { OnOk result (scoping.new ≡ with_reads name.now.symbol_id count scoping.old) }
{
    let mut names = List::new(alloc);
    while names.len() < count {
        names.push(name.create_reference(alloc, span, ReferenceFlags::READ, scoping)?)?;
    }
    Ok(names)
}

/// `name = value`, and then `name` as often as is asked for.
pub(crate) fn assign_and_read(
    alloc: Global,
    name: &BoundIdentifier,
    value: Node,
    count: usize,
    scoping: &mut Scoping,
) -> Result<(Node, List<Node>), AllocError>
    requires symbol { HasSymbol scoping.old name.now.symbol_id }
    requires room { length scoping.old.references + count < 2 ^ 32 - 1 }
    ensures first { IfOk result (λ d. d.0 ≡ builder.assignment (length scoping.old.references) name.now.name value) }
    ensures again { IfOk result (λ d. d.1 ≡ names_read None name.now.name (length scoping.old.references + 1) count) }
    ensures table { OnOk result (scoping.new ≡ with_reads name.now.symbol_id count (with_created_reference scoping.old (Some name.now.symbol_id) flag.WRITE)) }
{
    let first = name.create_assignment(alloc, value, scoping)?;
    let again = read_names(alloc, name, None, count, scoping)?;
    Ok((first, again))
}
