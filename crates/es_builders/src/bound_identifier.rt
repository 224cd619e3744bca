// Names with the symbols that they mean, and the nodes that refer to these or declare them.

ghost use Rattle.std.specs.Prelude.{◌≡◌, IfOk, OnOk, IsSome, Some, None, length};
ghost use Rattle.es_base.specs.Carried.{span_of};
ghost use Rattle.es_base.specs.Numbered.{unnumbered};
ghost use Rattle.es_base.specs.declared.kind.Kind.{Kind};
ghost use Rattle.es_builders.specs.Builders as builder;
ghost use Rattle.es_expression.specs.Identifier.{binding_identifier, identifier_reference};
ghost use Rattle.es_node.specs.View.{kind_of, number_in, semantic_id_in, span_in};
ghost use Rattle.es_scopes.specs.NodeReferences.{read_write};
ghost use Rattle.es_scopes.specs.Table.{HasRoom, HasSymbol, with_created_reference};
ghost use Rattle.es_scopes.specs.declared.flags.TheConstants.ReferenceFlags as flag;

use es_base::ids::{ReferenceId, Span, SymbolId};
use es_base::name::Name;
use es_base::operator::AssignmentOperator;
use es_node::node::Node;
use es_scopes::flags::ReferenceFlags;
use es_scopes::scoping::Scoping;
use es_tree::expression::make_assignment_expression;
use es_tree::identifier::{
    BindingIdentifier, BindingIdentifierRef, IdentifierReference, make_binding_identifier,
    make_identifier_reference,
};
use std::alloc::{AllocError, Global};

/// A name, and the symbol that it means (oxc_traverse, `BoundIdentifier`).
#[derive(Drop)]
pub struct BoundIdentifier {
    pub name: Name,
    pub symbol_id: SymbolId,
}

/// `name`, as this reference. Fails on allocation failure alone.
pub(crate) fn make_reference(
    alloc: Global,
    name: Name,
    span: Option<Span>,
    reference_id: ReferenceId,
) -> Result<Node, AllocError>
    ensures { IfOk result (λ t. t ≡ identifier_reference unnumbered (span_of span) (Some reference_id.0) name) }
{
    let mut reference = IdentifierReference::from_node(make_identifier_reference(alloc, name)?);
    reference.span = span;
    reference.reference_id = Some(reference_id);
    Ok(reference.into_node())
}

impl BoundIdentifier {
    ghost use Rattle.es_builders.specs.declared.bound_identifier.BoundIdentifier.{BoundIdentifier};

    /// The name and its symbol.
    pub fn new(name: Name, symbol_id: SymbolId) -> BoundIdentifier
        ensures name { result.name ≡ name }
        ensures symbol { result.symbol_id ≡ symbol_id }
    {
        BoundIdentifier { name, symbol_id }
    }

    /// Of an identifier that declares a symbol. Fails on allocation failure alone.
    pub fn from_binding_ident(alloc: Global, id: &Node) -> Result<BoundIdentifier, AllocError>
        requires kind { kind_of id.now ≡ Kind.BindingIdentifier }
        requires bound { IsSome (semantic_id_in id.now) }
        ensures { IfOk result (λ b. id.now ≡ binding_identifier (number_in id.now) (span_in id.now) (Some b.symbol_id.0) b.name) }
    {
        let id = BindingIdentifierRef::from_node(id);
        match id.symbol_id {
            Some(symbol_id) => Ok(BoundIdentifier {
                name: id.name.try_clone(alloc)?,
                symbol_id,
            }),
            None => unreachable!(),
        }
    }

    /// An equal one. Fails on allocation failure alone.
    pub fn try_clone(&self, alloc: Global) -> Result<BoundIdentifier, AllocError>
        ensures { IfOk result (λ b. b ≡ self.now) }
    {
        Ok(BoundIdentifier {
            name: self.name.try_clone(alloc)?,
            symbol_id: self.symbol_id,
        })
    }

    /// `name`, as a new reference to the symbol. Fails on allocation failure alone; then, and after an error
    /// of the calls below, nothing is said of the table.
    pub fn create_reference(
        &self,
        alloc: Global,
        span: Option<Span>,
        flags: ReferenceFlags,
        scoping: &mut Scoping,
    ) -> Result<Node, AllocError>
        requires symbol { HasSymbol scoping.old self.now.symbol_id }
        requires room { HasRoom scoping.old.references }
        ensures node { IfOk result (λ t. t ≡ identifier_reference unnumbered (span_of span) (Some (length scoping.old.references)) self.now.name) }
        ensures table { OnOk result (scoping.new ≡ with_created_reference scoping.old (Some self.now.symbol_id) flags) }
    {
        let reference_id = scoping.create_reference(Some(self.symbol_id), flags)?;
        make_reference(alloc, self.name.try_clone(alloc)?, span, reference_id)
    }

    /// `name`, as it is read. Fails on allocation failure alone.
    pub fn create_read_expression(
        &self,
        alloc: Global,
        scoping: &mut Scoping,
    ) -> Result<Node, AllocError>
        requires symbol { HasSymbol scoping.old self.now.symbol_id }
        requires room { HasRoom scoping.old.references }
        ensures node { IfOk result (λ t. t ≡ identifier_reference unnumbered None (Some (length scoping.old.references)) self.now.name) }
        ensures table { OnOk result (scoping.new ≡ with_created_reference scoping.old (Some self.now.symbol_id) flag.READ) }
    {
        self.create_reference(alloc, None, ReferenceFlags::READ, scoping)
    }

    /// `name`, as it is written. Fails on allocation failure alone.
    pub fn create_target(&self, alloc: Global, scoping: &mut Scoping) -> Result<Node, AllocError>
        requires symbol { HasSymbol scoping.old self.now.symbol_id }
        requires room { HasRoom scoping.old.references }
        ensures node { IfOk result (λ t. t ≡ identifier_reference unnumbered None (Some (length scoping.old.references)) self.now.name) }
        ensures table { OnOk result (scoping.new ≡ with_created_reference scoping.old (Some self.now.symbol_id) flag.WRITE) }
    {
        self.create_reference(alloc, None, ReferenceFlags::WRITE, scoping)
    }

    /// `name = value`. Fails on allocation failure alone.
    pub fn create_assignment(
        &self,
        alloc: Global,
        value: Node,
        scoping: &mut Scoping,
    ) -> Result<Node, AllocError>
        requires symbol { HasSymbol scoping.old self.now.symbol_id }
        requires room { HasRoom scoping.old.references }
        ensures node { IfOk result (λ t. t ≡ builder.assignment (length scoping.old.references) self.now.name value) }
        ensures table { OnOk result (scoping.new ≡ with_created_reference scoping.old (Some self.now.symbol_id) flag.WRITE) }
    {
        let target = self.create_target(alloc, scoping)?;
        make_assignment_expression(alloc, AssignmentOperator::Assign, target, value)
    }

    /// `name`, as it declares the symbol. Fails on allocation failure alone.
    pub fn create_binding_identifier(
        &self,
        alloc: Global,
        span: Option<Span>,
    ) -> Result<Node, AllocError>
        ensures { IfOk result (λ t. t ≡ binding_identifier unnumbered (span_of span) (Some self.now.symbol_id.0) self.now.name) }
    {
        let name = self.name.try_clone(alloc)?;
        let mut id = BindingIdentifier::from_node(make_binding_identifier(alloc, name)?);
        id.span = span;
        id.symbol_id = Some(self.symbol_id);
        Ok(id.into_node())
    }

    /// The same as an identifier: this tree has one type of nodes.
    pub fn create_read_reference(
        &self,
        alloc: Global,
        scoping: &mut Scoping,
    ) -> Result<Node, AllocError>
        requires symbol { HasSymbol scoping.old self.now.symbol_id }
        requires room { HasRoom scoping.old.references }
        ensures node { IfOk result (λ t. t ≡ identifier_reference unnumbered None (Some (length scoping.old.references)) self.now.name) }
        ensures table { OnOk result (scoping.new ≡ with_created_reference scoping.old (Some self.now.symbol_id) flag.READ) }
    {
        self.create_read_expression(alloc, scoping)
    }

    /// `name`, as it is written where no pattern stands.
    pub fn create_write_simple_target(
        &self,
        alloc: Global,
        scoping: &mut Scoping,
    ) -> Result<Node, AllocError>
        requires symbol { HasSymbol scoping.old self.now.symbol_id }
        requires room { HasRoom scoping.old.references }
        ensures node { IfOk result (λ t. t ≡ identifier_reference unnumbered None (Some (length scoping.old.references)) self.now.name) }
        ensures table { OnOk result (scoping.new ≡ with_created_reference scoping.old (Some self.now.symbol_id) flag.WRITE) }
    {
        self.create_target(alloc, scoping)
    }

    /// `name`, as it is read and then written: in `name += 1`. Fails on allocation failure alone.
    pub fn create_read_write_simple_target(
        &self,
        alloc: Global,
        scoping: &mut Scoping,
    ) -> Result<Node, AllocError>
        requires symbol { HasSymbol scoping.old self.now.symbol_id }
        requires room { HasRoom scoping.old.references }
        ensures node { IfOk result (λ t. t ≡ identifier_reference unnumbered None (Some (length scoping.old.references)) self.now.name) }
        ensures table { OnOk result (scoping.new ≡ with_created_reference scoping.old (Some self.now.symbol_id) (record { 0 = read_write })) }
    {
        self.create_spanned_read_write_simple_target(alloc, None, scoping)
    }

    /// `name`, as it is read, with a span. Fails on allocation failure alone, as the calls below do.
    pub fn create_spanned_read_reference(
        &self,
        alloc: Global,
        span: Option<Span>,
        scoping: &mut Scoping,
    ) -> Result<Node, AllocError>
        requires symbol { HasSymbol scoping.old self.now.symbol_id }
        requires room { HasRoom scoping.old.references }
        ensures node { IfOk result (λ t. t ≡ identifier_reference unnumbered (span_of span) (Some (length scoping.old.references)) self.now.name) }
        ensures table { OnOk result (scoping.new ≡ with_created_reference scoping.old (Some self.now.symbol_id) flag.READ) }
    {
        self.create_reference(alloc, span, ReferenceFlags::READ, scoping)
    }

    /// `name`, as it is written, with a span.
    pub fn create_spanned_write_simple_target(
        &self,
        alloc: Global,
        span: Option<Span>,
        scoping: &mut Scoping,
    ) -> Result<Node, AllocError>
        requires symbol { HasSymbol scoping.old self.now.symbol_id }
        requires room { HasRoom scoping.old.references }
        ensures node { IfOk result (λ t. t ≡ identifier_reference unnumbered (span_of span) (Some (length scoping.old.references)) self.now.name) }
        ensures table { OnOk result (scoping.new ≡ with_created_reference scoping.old (Some self.now.symbol_id) flag.WRITE) }
    {
        self.create_reference(alloc, span, ReferenceFlags::WRITE, scoping)
    }

    /// `name`, as it is read and then written, with a span.
    pub fn create_spanned_read_write_simple_target(
        &self,
        alloc: Global,
        span: Option<Span>,
        scoping: &mut Scoping,
    ) -> Result<Node, AllocError>
        requires symbol { HasSymbol scoping.old self.now.symbol_id }
        requires room { HasRoom scoping.old.references }
        ensures node { IfOk result (λ t. t ≡ identifier_reference unnumbered (span_of span) (Some (length scoping.old.references)) self.now.name) }
        ensures table { OnOk result (scoping.new ≡ with_created_reference scoping.old (Some self.now.symbol_id) (record { 0 = read_write })) }
    {
        let flags = ReferenceFlags::READ.with(ReferenceFlags::WRITE);
        self.create_reference(alloc, span, flags, scoping)
    }

    /// `name`, as a pattern that declares the symbol.
    pub fn create_binding_pattern(&self, alloc: Global) -> Result<Node, AllocError>
        ensures { IfOk result (λ t. t ≡ binding_identifier unnumbered None (Some self.now.symbol_id.0) self.now.name) }
    {
        self.create_binding_identifier(alloc, None)
    }
}
