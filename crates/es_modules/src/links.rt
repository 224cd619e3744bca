// The imports of a program, and its exports from other modules. (ECMA-262, 16.2.)

ghost use Rattle.std.specs.Prelude.{◌≡◌, ◌++◌, option_map, IfOk, OnOk};
ghost use Rattle.std.specs.Option.{option_to_list};
ghost use Rattle.es_base.specs.Tree.{child, nullable, nullable_trees, trees};
ghost use Rattle.es_steps.specs.Meaning.{body_of};
ghost use Rattle.es_steps.specs.Modules as spec;
ghost use Rattle.es_modules.specs.Links.{links_of, specifier_in, specifiers_in};

use crate::link::{ModuleLink, Specifier};
use crate::names::{module_name, nullable_name};
use es_base::kind::Kind;
use es_node::node::Node;
use es_seen_names::parts::{Items, items_at};
use es_tree::module::{
    ExportAllDeclarationRef, ExportNamedDeclarationRef, ExportSpecifierRef, ImportDeclarationRef,
    ImportDefaultSpecifierRef, ImportNamespaceSpecifierRef, ImportSpecifierRef,
};
use std::alloc::{AllocError, Global};

/// The imports of a program and its exports from other modules, in order. Fails on allocation failure alone.
#[tactic(auto, using(crate::proofs::Linked::body_node))]
pub fn links<'a>(alloc: Global, program: &'a Node) -> Result<Vec<ModuleLink<'a>>, AllocError>
    ensures { IfOk result (λ ls. links_of ls.items ≡ spec.links_in (body_of program.now)) }
{
    let mut links = Vec::new(alloc);
    match items_at(program.parts(), 1) {
        Items::Nodes(nodes) => add_links(alloc, nodes, &mut links)?,
        Items::Holes(nodes) => add_links_with_holes(alloc, nodes, &mut links)?,
        Items::None => (),
    }
    Ok(links)
}

fn add_links<'a>(
    alloc: Global,
    nodes: &'a [Node],
    links: &mut Vec<ModuleLink<'a>>,
) -> Result<(), AllocError>
    ensures { OnOk result (links_of links.new.items ≡ links_of links.old.items ++ spec.links_in (trees nodes.now)) }
{
    for node in nodes {
        add_link_of(alloc, node, links)?;
    }
    Ok(())
}

fn add_links_with_holes<'a>(
    alloc: Global,
    nodes: &'a [Option<Node>],
    links: &mut Vec<ModuleLink<'a>>,
) -> Result<(), AllocError>
    ensures { OnOk result (links_of links.new.items ≡ links_of links.old.items ++ spec.links_in (nullable_trees nodes.now)) }
{
    for node in nodes {
        add_link_of_hole(alloc, node, links)?;
    }
    Ok(())
}

fn add_link_of_hole<'a>(
    alloc: Global,
    node: &'a Option<Node>,
    links: &mut Vec<ModuleLink<'a>>,
) -> Result<(), AllocError>
    ensures { OnOk result (links_of links.new.items ≡ links_of links.old.items ++ spec.link_of (nullable node.now)) }
{
    match node {
        Some(node) => add_link_of(alloc, node, links),
        None => Ok(()),
    }
}

/// Adds what a statement imports or exports from another module. Fails on allocation failure alone.
#[tactic(auto, using(crate::proofs::Linked::no_link))]
fn add_link_of<'a>(
    alloc: Global,
    node: &'a Node,
    links: &mut Vec<ModuleLink<'a>>,
) -> Result<(), AllocError>
    ensures { OnOk result (links_of links.new.items ≡ links_of links.old.items ++ spec.link_of (child node.now)) }
{
    match node.kind() {
        // import a from 'm';
        Kind::ImportDeclaration => {
            let import = ImportDeclarationRef::from_node(node);
            let specifiers = specifiers_of(alloc, import.specifiers)?;
            add_link(import.node_id.0, import.source, specifiers, links)
        }
        // export { a } from 'm';
        Kind::ExportNamedDeclaration => {
            let export = ExportNamedDeclarationRef::from_node(node);
            match export.source {
                Some(source) => {
                    let specifiers = specifiers_of(alloc, export.specifiers)?;
                    add_link(export.node_id.0, source, specifiers, links)
                }
                None => Ok(()),
            }
        }
        // export * from 'm';
        Kind::ExportAllDeclaration => {
            let export = ExportAllDeclarationRef::from_node(node);
            let mut specifiers = Vec::new(alloc);
            specifiers.push(Specifier::ReexportedAll(nullable_name(export.exported)))?;
            add_link(export.node_id.0, export.source, specifiers, links)
        }
        _ => Ok(()),
    }
}

fn add_link<'a>(
    number: u32,
    source: &'a Node,
    specifiers: Vec<Specifier<'a>>,
    links: &mut Vec<ModuleLink<'a>>,
) -> Result<(), AllocError>
    ensures { OnOk result (links_of links.new.items ≡ links_of links.old.items ++ spec.link number (child source.now) (specifiers_in specifiers.entry.items)) }
{
    links.push(ModuleLink {
        number,
        source: module_name(source),
        specifiers,
    })?;
    Ok(())
}

// ---- specifiers

/// What these specifiers say. Fails on allocation failure alone.
fn specifiers_of<'a>(alloc: Global, nodes: &'a [Node]) -> Result<Vec<Specifier<'a>>, AllocError>
    ensures { IfOk result (λ ss. specifiers_in ss.items ≡ spec.specifiers_of (trees nodes.now)) }
{
    let mut specifiers = Vec::new(alloc);
    for node in nodes {
        add_if_some(specifier_of(node), &mut specifiers)?;
    }
    Ok(specifiers)
}

fn add_if_some<'a>(
    specifier: Option<Specifier<'a>>,
    specifiers: &mut Vec<Specifier<'a>>,
) -> Result<(), AllocError>
    ensures { OnOk result (specifiers_in specifiers.new.items ≡ specifiers_in specifiers.old.items ++ specifiers_in (option_to_list specifier.entry)) }
{
    if let Some(specifier) = specifier {
        specifiers.push(specifier)?;
    }
    Ok(())
}

/// What a specifier says.
#[tactic(auto, using(crate::proofs::Linked::no_specifier, crate::proofs::Linked::imported, crate::proofs::Linked::imported_default, crate::proofs::Linked::imported_namespace))]
fn specifier_of(node: &Node) -> Option<Specifier<'_>>
    ensures { specifiers_in (option_to_list result) ≡ spec.specifier_of (child node.now) }
{
    match node.kind() {
        // import { a as b } from 'm';
        Kind::ImportSpecifier => {
            let specifier = ImportSpecifierRef::from_node(node);
            Some(Specifier::Imported {
                name: module_name(specifier.imported),
                binding: specifier.local.node_id().0,
            })
        }
        // import a from 'm';
        Kind::ImportDefaultSpecifier => {
            let specifier = ImportDefaultSpecifierRef::from_node(node);
            Some(Specifier::ImportedDefault(specifier.local.node_id().0))
        }
        // import * as a from 'm';
        Kind::ImportNamespaceSpecifier => {
            let specifier = ImportNamespaceSpecifierRef::from_node(node);
            Some(Specifier::ImportedNamespace(specifier.local.node_id().0))
        }
        // export { a as b } from 'm';
        Kind::ExportSpecifier => {
            let specifier = ExportSpecifierRef::from_node(node);
            Some(Specifier::Reexported {
                name: module_name(specifier.local),
                as_name: module_name(specifier.exported),
            })
        }
        _ => None,
    }
}
