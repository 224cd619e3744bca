// Printed by tools/tree.py from tools/kinds.py.
// Imports and exports. Each kind has a struct of its members, which keeps the emptied list of its
// node's parts, the same borrowed, and a maker.

ghost use Rattle.std.specs.Prelude.{◌≡◌, IfOk, None, length, option_map};
ghost use Rattle.es_base.specs.Carried.{span_of};
ghost use Rattle.es_base.specs.Numbered.{unnumbered};
ghost use Rattle.es_base.specs.declared.kind.Kind.{Kind};
ghost use Rattle.es_node.specs.View.{kind_of};
ghost use Rattle.es_declaration.specs.Module.{import_declaration, import_specifier, import_default_specifier, import_namespace_specifier, export_named_declaration, export_specifier, export_default_declaration, export_all_declaration};

use es_base::ids::{NodeId, Span};
use es_base::kind::Kind;
use es_base::list::List;
use es_node::node::{Contents, Node, Part};
use es_node::parts::nullable_part;
use es_node::room::{put_one, put_three, put_two, take_one, take_three, take_two};
use std::alloc::{AllocError, Global};

/// `import specifiers from source` (ECMA-262, 16.2.2).
#[derive(Drop)]
pub struct ImportDeclaration {
    pub node_id: NodeId,
    pub span: Option<Span>,
    pub specifiers: List<Node>,
    pub source: Node,
    emptied_parts: List<Part>,
    ghost part_count: { length emptied_parts ≡ 2 },
}

impl ImportDeclaration {
    /// Takes a node of this kind apart.
    pub fn from_node(node: Node) -> ImportDeclaration
        requires { kind_of node ≡ Kind.ImportDeclaration }
        ensures { node ≡ import_declaration result.node_id.0 (span_of result.span) result.specifiers
            result.source }
    {
        let contents = node.into_contents();
        let mut emptied_parts = contents.parts;
        let (specifiers, source) = take_two(&mut emptied_parts);
        ImportDeclaration {
            node_id: contents.node_id,
            span: contents.span,
            specifiers: specifiers.into_list(),
            source: source.into_child(),
            emptied_parts,
        }
    }

    /// Puts the node together again. Takes no memory.
    pub fn into_node(self) -> Node
        ensures { result ≡ import_declaration self.node_id.0 (span_of self.span) self.specifiers
            self.source }
    {
        let mut parts = self.emptied_parts;
        put_two(
            &mut parts,
            Part::List(self.specifiers),
            Part::Child(self.source),
        );
        Node::new(
            Kind::ImportDeclaration,
            Contents {
                node_id: self.node_id,
                span: self.span,
                semantic_id: None,
                parts,
            },
        )
    }
}

/// `ImportDeclaration`, borrowed.
#[derive(Clone, Copy)]
pub struct ImportDeclarationRef<'a> {
    pub node_id: NodeId,
    pub span: Option<Span>,
    pub specifiers: &'a [Node],
    pub source: &'a Node,
}

impl<'a> ImportDeclarationRef<'a> {
    /// Reads a node of this kind.
    pub fn from_node(node: &'a Node) -> ImportDeclarationRef<'a>
        requires { kind_of node.now ≡ Kind.ImportDeclaration }
        ensures { node.now ≡ import_declaration result.node_id.0 (span_of result.span)
            result.specifiers.now result.source.now }
    {
        match node.parts() {
            [specifiers, source] => ImportDeclarationRef {
                node_id: node.node_id(),
                span: node.span(),
                specifiers: specifiers.as_list(),
                source: source.as_child(),
            },
            _ => unreachable!(),
        }
    }
}

/// Makes a node of this kind, which has no number yet: `import specifiers from source` (ECMA-262,
/// 16.2.2). Fails on allocation failure alone.
pub fn make_import_declaration(
    alloc: Global,
    specifiers: List<Node>,
    source: Node,
) -> Result<Node, AllocError>
    ensures { IfOk result (λ t. t ≡ import_declaration unnumbered None specifiers source) }
{
    let parts = vec![in alloc; Part::List(specifiers), Part::Child(source)]?;
    Ok(Node::new(
        Kind::ImportDeclaration,
        Contents {
            node_id: NodeId::DUMMY,
            span: None,
            semantic_id: None,
            parts: List::from_vec(parts),
        },
    ))
}

/// `imported as local` (ECMA-262, 16.2.2).
#[derive(Drop)]
pub struct ImportSpecifier {
    pub node_id: NodeId,
    pub span: Option<Span>,
    pub imported: Node,
    pub local: Node,
    emptied_parts: List<Part>,
    ghost part_count: { length emptied_parts ≡ 2 },
}

impl ImportSpecifier {
    /// Takes a node of this kind apart.
    pub fn from_node(node: Node) -> ImportSpecifier
        requires { kind_of node ≡ Kind.ImportSpecifier }
        ensures { node ≡ import_specifier result.node_id.0 (span_of result.span) result.imported
            result.local }
    {
        let contents = node.into_contents();
        let mut emptied_parts = contents.parts;
        let (imported, local) = take_two(&mut emptied_parts);
        ImportSpecifier {
            node_id: contents.node_id,
            span: contents.span,
            imported: imported.into_child(),
            local: local.into_child(),
            emptied_parts,
        }
    }

    /// Puts the node together again. Takes no memory.
    pub fn into_node(self) -> Node
        ensures { result ≡ import_specifier self.node_id.0 (span_of self.span) self.imported
            self.local }
    {
        let mut parts = self.emptied_parts;
        put_two(
            &mut parts,
            Part::Child(self.imported),
            Part::Child(self.local),
        );
        Node::new(
            Kind::ImportSpecifier,
            Contents {
                node_id: self.node_id,
                span: self.span,
                semantic_id: None,
                parts,
            },
        )
    }
}

/// `ImportSpecifier`, borrowed.
#[derive(Clone, Copy)]
pub struct ImportSpecifierRef<'a> {
    pub node_id: NodeId,
    pub span: Option<Span>,
    pub imported: &'a Node,
    pub local: &'a Node,
}

impl<'a> ImportSpecifierRef<'a> {
    /// Reads a node of this kind.
    pub fn from_node(node: &'a Node) -> ImportSpecifierRef<'a>
        requires { kind_of node.now ≡ Kind.ImportSpecifier }
        ensures { node.now ≡ import_specifier result.node_id.0 (span_of result.span)
            result.imported.now result.local.now }
    {
        match node.parts() {
            [imported, local] => ImportSpecifierRef {
                node_id: node.node_id(),
                span: node.span(),
                imported: imported.as_child(),
                local: local.as_child(),
            },
            _ => unreachable!(),
        }
    }
}

/// Makes a node of this kind, which has no number yet: `imported as local` (ECMA-262, 16.2.2).
/// Fails on allocation failure alone.
pub fn make_import_specifier(alloc: Global, imported: Node, local: Node) -> Result<Node, AllocError>
    ensures { IfOk result (λ t. t ≡ import_specifier unnumbered None imported local) }
{
    let parts = vec![in alloc; Part::Child(imported), Part::Child(local)]?;
    Ok(Node::new(
        Kind::ImportSpecifier,
        Contents {
            node_id: NodeId::DUMMY,
            span: None,
            semantic_id: None,
            parts: List::from_vec(parts),
        },
    ))
}

/// The name of a default import (ECMA-262, 16.2.2).
#[derive(Drop)]
pub struct ImportDefaultSpecifier {
    pub node_id: NodeId,
    pub span: Option<Span>,
    pub local: Node,
    emptied_parts: List<Part>,
    ghost part_count: { length emptied_parts ≡ 1 },
}

impl ImportDefaultSpecifier {
    /// Takes a node of this kind apart.
    pub fn from_node(node: Node) -> ImportDefaultSpecifier
        requires { kind_of node ≡ Kind.ImportDefaultSpecifier }
        ensures { node ≡ import_default_specifier result.node_id.0 (span_of result.span)
            result.local }
    {
        let contents = node.into_contents();
        let mut emptied_parts = contents.parts;
        let local = take_one(&mut emptied_parts);
        ImportDefaultSpecifier {
            node_id: contents.node_id,
            span: contents.span,
            local: local.into_child(),
            emptied_parts,
        }
    }

    /// Puts the node together again. Takes no memory.
    pub fn into_node(self) -> Node
        ensures { result ≡ import_default_specifier self.node_id.0 (span_of self.span) self.local }
    {
        let mut parts = self.emptied_parts;
        put_one(&mut parts, Part::Child(self.local));
        Node::new(
            Kind::ImportDefaultSpecifier,
            Contents {
                node_id: self.node_id,
                span: self.span,
                semantic_id: None,
                parts,
            },
        )
    }
}

/// `ImportDefaultSpecifier`, borrowed.
#[derive(Clone, Copy)]
pub struct ImportDefaultSpecifierRef<'a> {
    pub node_id: NodeId,
    pub span: Option<Span>,
    pub local: &'a Node,
}

impl<'a> ImportDefaultSpecifierRef<'a> {
    /// Reads a node of this kind.
    pub fn from_node(node: &'a Node) -> ImportDefaultSpecifierRef<'a>
        requires { kind_of node.now ≡ Kind.ImportDefaultSpecifier }
        ensures { node.now ≡ import_default_specifier result.node_id.0 (span_of result.span)
            result.local.now }
    {
        match node.parts() {
            [local] => ImportDefaultSpecifierRef {
                node_id: node.node_id(),
                span: node.span(),
                local: local.as_child(),
            },
            _ => unreachable!(),
        }
    }
}

/// Makes a node of this kind, which has no number yet: the name of a default import (ECMA-262,
/// 16.2.2). Fails on allocation failure alone.
pub fn make_import_default_specifier(alloc: Global, local: Node) -> Result<Node, AllocError>
    ensures { IfOk result (λ t. t ≡ import_default_specifier unnumbered None local) }
{
    let parts = vec![in alloc; Part::Child(local)]?;
    Ok(Node::new(
        Kind::ImportDefaultSpecifier,
        Contents {
            node_id: NodeId::DUMMY,
            span: None,
            semantic_id: None,
            parts: List::from_vec(parts),
        },
    ))
}

/// `* as local` (ECMA-262, 16.2.2).
#[derive(Drop)]
pub struct ImportNamespaceSpecifier {
    pub node_id: NodeId,
    pub span: Option<Span>,
    pub local: Node,
    emptied_parts: List<Part>,
    ghost part_count: { length emptied_parts ≡ 1 },
}

impl ImportNamespaceSpecifier {
    /// Takes a node of this kind apart.
    pub fn from_node(node: Node) -> ImportNamespaceSpecifier
        requires { kind_of node ≡ Kind.ImportNamespaceSpecifier }
        ensures { node ≡ import_namespace_specifier result.node_id.0 (span_of result.span)
            result.local }
    {
        let contents = node.into_contents();
        let mut emptied_parts = contents.parts;
        let local = take_one(&mut emptied_parts);
        ImportNamespaceSpecifier {
            node_id: contents.node_id,
            span: contents.span,
            local: local.into_child(),
            emptied_parts,
        }
    }

    /// Puts the node together again. Takes no memory.
    pub fn into_node(self) -> Node
        ensures { result ≡ import_namespace_specifier self.node_id.0 (span_of self.span)
            self.local }
    {
        let mut parts = self.emptied_parts;
        put_one(&mut parts, Part::Child(self.local));
        Node::new(
            Kind::ImportNamespaceSpecifier,
            Contents {
                node_id: self.node_id,
                span: self.span,
                semantic_id: None,
                parts,
            },
        )
    }
}

/// `ImportNamespaceSpecifier`, borrowed.
#[derive(Clone, Copy)]
pub struct ImportNamespaceSpecifierRef<'a> {
    pub node_id: NodeId,
    pub span: Option<Span>,
    pub local: &'a Node,
}

impl<'a> ImportNamespaceSpecifierRef<'a> {
    /// Reads a node of this kind.
    pub fn from_node(node: &'a Node) -> ImportNamespaceSpecifierRef<'a>
        requires { kind_of node.now ≡ Kind.ImportNamespaceSpecifier }
        ensures { node.now ≡ import_namespace_specifier result.node_id.0 (span_of result.span)
            result.local.now }
    {
        match node.parts() {
            [local] => ImportNamespaceSpecifierRef {
                node_id: node.node_id(),
                span: node.span(),
                local: local.as_child(),
            },
            _ => unreachable!(),
        }
    }
}

/// Makes a node of this kind, which has no number yet: `* as local` (ECMA-262, 16.2.2). Fails on
/// allocation failure alone.
pub fn make_import_namespace_specifier(alloc: Global, local: Node) -> Result<Node, AllocError>
    ensures { IfOk result (λ t. t ≡ import_namespace_specifier unnumbered None local) }
{
    let parts = vec![in alloc; Part::Child(local)]?;
    Ok(Node::new(
        Kind::ImportNamespaceSpecifier,
        Contents {
            node_id: NodeId::DUMMY,
            span: None,
            semantic_id: None,
            parts: List::from_vec(parts),
        },
    ))
}

/// `export declaration` or `export { specifiers } from source` (ECMA-262, 16.2.3).
#[derive(Drop)]
pub struct ExportNamedDeclaration {
    pub node_id: NodeId,
    pub span: Option<Span>,
    pub declaration: Option<Node>,
    pub specifiers: List<Node>,
    pub source: Option<Node>,
    emptied_parts: List<Part>,
    ghost part_count: { length emptied_parts ≡ 3 },
}

impl ExportNamedDeclaration {
    /// Takes a node of this kind apart.
    pub fn from_node(node: Node) -> ExportNamedDeclaration
        requires { kind_of node ≡ Kind.ExportNamedDeclaration }
        ensures { node ≡ export_named_declaration result.node_id.0 (span_of result.span)
            result.declaration result.specifiers result.source }
    {
        let contents = node.into_contents();
        let mut emptied_parts = contents.parts;
        let (declaration, specifiers, source) = take_three(&mut emptied_parts);
        ExportNamedDeclaration {
            node_id: contents.node_id,
            span: contents.span,
            declaration: declaration.into_nullable(),
            specifiers: specifiers.into_list(),
            source: source.into_nullable(),
            emptied_parts,
        }
    }

    /// Puts the node together again. Takes no memory.
    pub fn into_node(self) -> Node
        ensures { result ≡ export_named_declaration self.node_id.0 (span_of self.span)
            self.declaration self.specifiers self.source }
    {
        let mut parts = self.emptied_parts;
        put_three(
            &mut parts,
            nullable_part(self.declaration),
            Part::List(self.specifiers),
            nullable_part(self.source),
        );
        Node::new(
            Kind::ExportNamedDeclaration,
            Contents {
                node_id: self.node_id,
                span: self.span,
                semantic_id: None,
                parts,
            },
        )
    }
}

/// `ExportNamedDeclaration`, borrowed.
#[derive(Clone, Copy)]
pub struct ExportNamedDeclarationRef<'a> {
    pub node_id: NodeId,
    pub span: Option<Span>,
    pub declaration: Option<&'a Node>,
    pub specifiers: &'a [Node],
    pub source: Option<&'a Node>,
}

impl<'a> ExportNamedDeclarationRef<'a> {
    /// Reads a node of this kind.
    pub fn from_node(node: &'a Node) -> ExportNamedDeclarationRef<'a>
        requires { kind_of node.now ≡ Kind.ExportNamedDeclaration }
        ensures { node.now ≡ export_named_declaration result.node_id.0 (span_of result.span)
            (option_map (λ x. x.now) result.declaration) result.specifiers.now
            (option_map (λ x. x.now) result.source) }
    {
        match node.parts() {
            [declaration, specifiers, source] => ExportNamedDeclarationRef {
                node_id: node.node_id(),
                span: node.span(),
                declaration: declaration.as_nullable(),
                specifiers: specifiers.as_list(),
                source: source.as_nullable(),
            },
            _ => unreachable!(),
        }
    }
}

/// Makes a node of this kind, which has no number yet: `export declaration` or `export { specifiers
/// } from source` (ECMA-262, 16.2.3). Fails on allocation failure alone.
pub fn make_export_named_declaration(
    alloc: Global,
    declaration: Option<Node>,
    specifiers: List<Node>,
    source: Option<Node>,
) -> Result<Node, AllocError>
    ensures { IfOk result (λ t. t ≡ export_named_declaration unnumbered None declaration specifiers
        source) }
{
    let parts = vec![in alloc;
        nullable_part(declaration),
        Part::List(specifiers),
        nullable_part(source),
    ]?;
    Ok(Node::new(
        Kind::ExportNamedDeclaration,
        Contents {
            node_id: NodeId::DUMMY,
            span: None,
            semantic_id: None,
            parts: List::from_vec(parts),
        },
    ))
}

/// `local as exported` (ECMA-262, 16.2.3).
#[derive(Drop)]
pub struct ExportSpecifier {
    pub node_id: NodeId,
    pub span: Option<Span>,
    pub local: Node,
    pub exported: Node,
    emptied_parts: List<Part>,
    ghost part_count: { length emptied_parts ≡ 2 },
}

impl ExportSpecifier {
    /// Takes a node of this kind apart.
    pub fn from_node(node: Node) -> ExportSpecifier
        requires { kind_of node ≡ Kind.ExportSpecifier }
        ensures { node ≡ export_specifier result.node_id.0 (span_of result.span) result.local
            result.exported }
    {
        let contents = node.into_contents();
        let mut emptied_parts = contents.parts;
        let (local, exported) = take_two(&mut emptied_parts);
        ExportSpecifier {
            node_id: contents.node_id,
            span: contents.span,
            local: local.into_child(),
            exported: exported.into_child(),
            emptied_parts,
        }
    }

    /// Puts the node together again. Takes no memory.
    pub fn into_node(self) -> Node
        ensures { result ≡ export_specifier self.node_id.0 (span_of self.span) self.local
            self.exported }
    {
        let mut parts = self.emptied_parts;
        put_two(
            &mut parts,
            Part::Child(self.local),
            Part::Child(self.exported),
        );
        Node::new(
            Kind::ExportSpecifier,
            Contents {
                node_id: self.node_id,
                span: self.span,
                semantic_id: None,
                parts,
            },
        )
    }
}

/// `ExportSpecifier`, borrowed.
#[derive(Clone, Copy)]
pub struct ExportSpecifierRef<'a> {
    pub node_id: NodeId,
    pub span: Option<Span>,
    pub local: &'a Node,
    pub exported: &'a Node,
}

impl<'a> ExportSpecifierRef<'a> {
    /// Reads a node of this kind.
    pub fn from_node(node: &'a Node) -> ExportSpecifierRef<'a>
        requires { kind_of node.now ≡ Kind.ExportSpecifier }
        ensures { node.now ≡ export_specifier result.node_id.0 (span_of result.span)
            result.local.now result.exported.now }
    {
        match node.parts() {
            [local, exported] => ExportSpecifierRef {
                node_id: node.node_id(),
                span: node.span(),
                local: local.as_child(),
                exported: exported.as_child(),
            },
            _ => unreachable!(),
        }
    }
}

/// Makes a node of this kind, which has no number yet: `local as exported` (ECMA-262, 16.2.3).
/// Fails on allocation failure alone.
pub fn make_export_specifier(alloc: Global, local: Node, exported: Node) -> Result<Node, AllocError>
    ensures { IfOk result (λ t. t ≡ export_specifier unnumbered None local exported) }
{
    let parts = vec![in alloc; Part::Child(local), Part::Child(exported)]?;
    Ok(Node::new(
        Kind::ExportSpecifier,
        Contents {
            node_id: NodeId::DUMMY,
            span: None,
            semantic_id: None,
            parts: List::from_vec(parts),
        },
    ))
}

/// `export default declaration` (ECMA-262, 16.2.3).
#[derive(Drop)]
pub struct ExportDefaultDeclaration {
    pub node_id: NodeId,
    pub span: Option<Span>,
    pub declaration: Node,
    emptied_parts: List<Part>,
    ghost part_count: { length emptied_parts ≡ 1 },
}

impl ExportDefaultDeclaration {
    /// Takes a node of this kind apart.
    pub fn from_node(node: Node) -> ExportDefaultDeclaration
        requires { kind_of node ≡ Kind.ExportDefaultDeclaration }
        ensures { node ≡ export_default_declaration result.node_id.0 (span_of result.span)
            result.declaration }
    {
        let contents = node.into_contents();
        let mut emptied_parts = contents.parts;
        let declaration = take_one(&mut emptied_parts);
        ExportDefaultDeclaration {
            node_id: contents.node_id,
            span: contents.span,
            declaration: declaration.into_child(),
            emptied_parts,
        }
    }

    /// Puts the node together again. Takes no memory.
    pub fn into_node(self) -> Node
        ensures { result ≡ export_default_declaration self.node_id.0 (span_of self.span)
            self.declaration }
    {
        let mut parts = self.emptied_parts;
        put_one(&mut parts, Part::Child(self.declaration));
        Node::new(
            Kind::ExportDefaultDeclaration,
            Contents {
                node_id: self.node_id,
                span: self.span,
                semantic_id: None,
                parts,
            },
        )
    }
}

/// `ExportDefaultDeclaration`, borrowed.
#[derive(Clone, Copy)]
pub struct ExportDefaultDeclarationRef<'a> {
    pub node_id: NodeId,
    pub span: Option<Span>,
    pub declaration: &'a Node,
}

impl<'a> ExportDefaultDeclarationRef<'a> {
    /// Reads a node of this kind.
    pub fn from_node(node: &'a Node) -> ExportDefaultDeclarationRef<'a>
        requires { kind_of node.now ≡ Kind.ExportDefaultDeclaration }
        ensures { node.now ≡ export_default_declaration result.node_id.0 (span_of result.span)
            result.declaration.now }
    {
        match node.parts() {
            [declaration] => ExportDefaultDeclarationRef {
                node_id: node.node_id(),
                span: node.span(),
                declaration: declaration.as_child(),
            },
            _ => unreachable!(),
        }
    }
}

/// Makes a node of this kind, which has no number yet: `export default declaration` (ECMA-262,
/// 16.2.3). Fails on allocation failure alone.
pub fn make_export_default_declaration(alloc: Global, declaration: Node) -> Result<Node, AllocError>
    ensures { IfOk result (λ t. t ≡ export_default_declaration unnumbered None declaration) }
{
    let parts = vec![in alloc; Part::Child(declaration)]?;
    Ok(Node::new(
        Kind::ExportDefaultDeclaration,
        Contents {
            node_id: NodeId::DUMMY,
            span: None,
            semantic_id: None,
            parts: List::from_vec(parts),
        },
    ))
}

/// `export * as exported from source` (ECMA-262, 16.2.3).
#[derive(Drop)]
pub struct ExportAllDeclaration {
    pub node_id: NodeId,
    pub span: Option<Span>,
    pub exported: Option<Node>,
    pub source: Node,
    emptied_parts: List<Part>,
    ghost part_count: { length emptied_parts ≡ 2 },
}

impl ExportAllDeclaration {
    /// Takes a node of this kind apart.
    pub fn from_node(node: Node) -> ExportAllDeclaration
        requires { kind_of node ≡ Kind.ExportAllDeclaration }
        ensures { node ≡ export_all_declaration result.node_id.0 (span_of result.span)
            result.exported result.source }
    {
        let contents = node.into_contents();
        let mut emptied_parts = contents.parts;
        let (exported, source) = take_two(&mut emptied_parts);
        ExportAllDeclaration {
            node_id: contents.node_id,
            span: contents.span,
            exported: exported.into_nullable(),
            source: source.into_child(),
            emptied_parts,
        }
    }

    /// Puts the node together again. Takes no memory.
    pub fn into_node(self) -> Node
        ensures { result ≡ export_all_declaration self.node_id.0 (span_of self.span) self.exported
            self.source }
    {
        let mut parts = self.emptied_parts;
        put_two(
            &mut parts,
            nullable_part(self.exported),
            Part::Child(self.source),
        );
        Node::new(
            Kind::ExportAllDeclaration,
            Contents {
                node_id: self.node_id,
                span: self.span,
                semantic_id: None,
                parts,
            },
        )
    }
}

/// `ExportAllDeclaration`, borrowed.
#[derive(Clone, Copy)]
pub struct ExportAllDeclarationRef<'a> {
    pub node_id: NodeId,
    pub span: Option<Span>,
    pub exported: Option<&'a Node>,
    pub source: &'a Node,
}

impl<'a> ExportAllDeclarationRef<'a> {
    /// Reads a node of this kind.
    pub fn from_node(node: &'a Node) -> ExportAllDeclarationRef<'a>
        requires { kind_of node.now ≡ Kind.ExportAllDeclaration }
        ensures { node.now ≡ export_all_declaration result.node_id.0 (span_of result.span)
            (option_map (λ x. x.now) result.exported) result.source.now }
    {
        match node.parts() {
            [exported, source] => ExportAllDeclarationRef {
                node_id: node.node_id(),
                span: node.span(),
                exported: exported.as_nullable(),
                source: source.as_child(),
            },
            _ => unreachable!(),
        }
    }
}

/// Makes a node of this kind, which has no number yet: `export * as exported from source`
/// (ECMA-262, 16.2.3). Fails on allocation failure alone.
pub fn make_export_all_declaration(
    alloc: Global,
    exported: Option<Node>,
    source: Node,
) -> Result<Node, AllocError>
    ensures { IfOk result (λ t. t ≡ export_all_declaration unnumbered None exported source) }
{
    let parts = vec![in alloc; nullable_part(exported), Part::Child(source)]?;
    Ok(Node::new(
        Kind::ExportAllDeclaration,
        Contents {
            node_id: NodeId::DUMMY,
            span: None,
            semantic_id: None,
            parts: List::from_vec(parts),
        },
    ))
}
