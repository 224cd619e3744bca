// The exports of a program that are its own. (ECMA-262, 16.2.3.)

ghost use Rattle.std.specs.Prelude.{◌≡◌, ◌++◌, ◌∷◌, [], false, true, option_map, IfOk, MatchOption, OnOk};
ghost use Rattle.std.specs.Str.{chars};
ghost use Rattle.es_base.specs.Tree.{absent, child, list, nullable, nullable_trees, trees};
ghost use Rattle.es_binding_faults.specs.Named.{named};
ghost use Rattle.es_code_reading.specs.Contexts.{context_of};
ghost use Rattle.es_node.specs.View.{kind_of, parts_in};
ghost use Rattle.es_steps.specs.Context.{name_kind};
ghost use Rattle.es_steps.specs.Evaluation.{Environment, default_key, found};
ghost use Rattle.es_steps.specs.Meaning.{body_of};
ghost use Rattle.es_steps.specs.Modules as spec;
ghost use Rattle.es_steps.specs.Parts.{at};
ghost use Rattle.es_steps.specs.Scopes.{lexical_part, var_part};
ghost use Rattle.es_exports.specs.Exports.{default_by, default_means, export_of, exports_by, exports_of, meaning_in};

use crate::export::{Export, Exported, exported_as, exported_value};
use es_base::kind::Kind;
use es_binding_faults::bound::Declared;
use es_binding_faults::hoisted::{Hoist, add_hoisted};
use es_code_reading::context::Context;
use es_code_reading::name_kind::name_kind;
use es_codes::value::Value;
use es_modules::names::module_name;
use es_node::node::Node;
use es_seen_names::parts::{Items, items_at};
use es_tree::class::ClassDeclarationRef;
use es_tree::function::FunctionDeclarationRef;
use es_tree::module::{ExportDefaultDeclarationRef, ExportNamedDeclarationRef, ExportSpecifierRef};
use std::alloc::{AllocError, Global};

/// The names that a program exports of its own, in order, with what they mean where this is seen in its body, and this is the
/// value that it gave its default export. Fails on allocation failure alone.
pub fn exports<'a>(
    alloc: Global,
    c: &Context,
    default: Option<&Value>,
    program: &'a Node,
) -> Result<Vec<Export<'a>>, AllocError>
    ensures { (env : Environment) → option_map (λ v. v.now) default.entry ≡ found default_key env → IfOk result (λ xs. exports_of xs.items ≡ spec.exports_in (context_of c.now) env (body_of program.now)) }
{
    own_exports(alloc, c, default, program)
}

#[tactic(auto, using(crate::proofs::Exporting::body_node))]
fn own_exports<'a>(
    alloc: Global,
    c: &Context,
    default: Option<&Value>,
    program: &'a Node,
) -> Result<Vec<Export<'a>>, AllocError>
    ensures { IfOk result (λ xs. exports_of xs.items ≡ exports_by (context_of c.now) (option_map (λ v. v.now) default.entry) (body_of program.now)) }
{
    let mut exports = Vec::new(alloc);
    match items_at(program.parts(), 1) {
        Items::Nodes(nodes) => add_exports(alloc, c, default, nodes, &mut exports)?,
        Items::Holes(nodes) => add_exports_with_holes(alloc, c, default, nodes, &mut exports)?,
        Items::None => (),
    }
    Ok(exports)
}

fn add_exports<'a>(
    alloc: Global,
    c: &Context,
    default: Option<&Value>,
    nodes: &'a [Node],
    exports: &mut Vec<Export<'a>>,
) -> Result<(), AllocError>
    ensures { OnOk result (exports_of exports.new.items ≡ exports_of exports.old.items ++ exports_by (context_of c.now) (option_map (λ v. v.now) default.entry) (trees nodes.now)) }
{
    for node in nodes {
        add_export_of(alloc, c, default, node, exports)?;
    }
    Ok(())
}

fn add_exports_with_holes<'a>(
    alloc: Global,
    c: &Context,
    default: Option<&Value>,
    nodes: &'a [Option<Node>],
    exports: &mut Vec<Export<'a>>,
) -> Result<(), AllocError>
    ensures { OnOk result (exports_of exports.new.items ≡ exports_of exports.old.items ++ exports_by (context_of c.now) (option_map (λ v. v.now) default.entry) (nullable_trees nodes.now)) }
{
    for node in nodes {
        add_export_of_hole(alloc, c, default, node, exports)?;
    }
    Ok(())
}

fn add_export_of_hole<'a>(
    alloc: Global,
    c: &Context,
    default: Option<&Value>,
    node: &'a Option<Node>,
    exports: &mut Vec<Export<'a>>,
) -> Result<(), AllocError>
    ensures { OnOk result (exports_of exports.new.items ≡ exports_of exports.old.items ++ export_of (context_of c.now) (option_map (λ v. v.now) default.entry) (nullable node.now)) }
{
    match node {
        Some(node) => add_export_of(alloc, c, default, node, exports),
        None => Ok(()),
    }
}

/// Adds what a statement exports of its own. Fails on allocation failure alone.
#[tactic(auto, using(crate::proofs::Exporting::no_export))]
fn add_export_of<'a>(
    alloc: Global,
    c: &Context,
    default: Option<&Value>,
    node: &'a Node,
    exports: &mut Vec<Export<'a>>,
) -> Result<(), AllocError>
    ensures { OnOk result (exports_of exports.new.items ≡ exports_of exports.old.items ++ export_of (context_of c.now) (option_map (λ v. v.now) default.entry) (child node.now)) }
{
    match node.kind() {
        // export { a as b };
        Kind::ExportNamedDeclaration => {
            let export = ExportNamedDeclarationRef::from_node(node);
            match export.source {
                Some(_) => Ok(()),
                None => add_local(alloc, c, export.declaration, export.specifiers, exports),
            }
        }
        // export default f();
        Kind::ExportDefaultDeclaration => {
            let export = ExportDefaultDeclarationRef::from_node(node);
            add_default(alloc, c, default, export.declaration, exports)
        }
        _ => Ok(()),
    }
}

// ---- named exports

/// Adds the names that a declaration declares, and those of specifiers. Fails on allocation failure alone.
fn add_local<'a>(
    alloc: Global,
    c: &Context,
    declaration: Option<&'a Node>,
    specifiers: &'a [Node],
    exports: &mut Vec<Export<'a>>,
) -> Result<(), AllocError>
    ensures { OnOk result (exports_of exports.new.items ≡ exports_of exports.old.items ++ spec.local_exports (context_of c.now) (nullable (option_map (λ n. n.now) declaration.entry)) (list (trees specifiers.now)) absent) }
{
    add_declared(alloc, c, declaration, exports)?;
    add_specifiers(alloc, c, specifiers, exports)
}

#[tactic(auto, using(crate::proofs::Exporting::declared_plain))]
fn add_declared<'a>(
    alloc: Global,
    c: &Context,
    declaration: Option<&'a Node>,
    exports: &mut Vec<Export<'a>>,
) -> Result<(), AllocError>
    ensures { OnOk result (exports_of exports.new.items ≡ exports_of exports.old.items ++ spec.declared_exports (context_of c.now) (lexical_part (nullable (option_map (λ n. n.now) declaration.entry)) ++ var_part (nullable (option_map (λ n. n.now) declaration.entry)))) }
{
    let Some(declaration) = declaration else {
        return Ok(());
    };
    let mut names = Vec::new(alloc);
    add_hoisted(Hoist::Lexical, declaration, &mut names)?;
    add_hoisted(Hoist::Var, declaration, &mut names)?;
    add_names(alloc, c, names.as_slice(), exports)
}

fn add_names<'a>(
    alloc: Global,
    c: &Context,
    names: &[Declared<'a>],
    exports: &mut Vec<Export<'a>>,
) -> Result<(), AllocError>
    ensures { OnOk result (exports_of exports.new.items ≡ exports_of exports.old.items ++ spec.declared_exports (context_of c.now) (named names.now)) }
{
    for declared in names {
        add_export(alloc, c, declared.name, declared.name, exports)?;
    }
    Ok(())
}

fn add_specifiers<'a>(
    alloc: Global,
    c: &Context,
    specifiers: &'a [Node],
    exports: &mut Vec<Export<'a>>,
) -> Result<(), AllocError>
    ensures { OnOk result (exports_of exports.new.items ≡ exports_of exports.old.items ++ spec.specifier_exports (context_of c.now) (trees specifiers.now)) }
{
    for specifier in specifiers {
        add_specifier(alloc, c, specifier, exports)?;
    }
    Ok(())
}

#[tactic(auto, using(crate::proofs::Exporting::no_specifier))]
fn add_specifier<'a>(
    alloc: Global,
    c: &Context,
    node: &'a Node,
    exports: &mut Vec<Export<'a>>,
) -> Result<(), AllocError>
    ensures { OnOk result (exports_of exports.new.items ≡ exports_of exports.old.items ++ spec.specifier_export (context_of c.now) (child node.now)) }
{
    match node.kind() {
        // a as b
        Kind::ExportSpecifier => {
            let specifier = ExportSpecifierRef::from_node(node);
            let exported = module_name(specifier.exported);
            add_export(alloc, c, module_name(specifier.local), exported, exports)
        }
        _ => Ok(()),
    }
}

/// Adds a name that is exported by this one. Fails on allocation failure alone.
fn add_export<'a>(
    alloc: Global,
    c: &Context,
    name: &str,
    exported: &'a str,
    exports: &mut Vec<Export<'a>>,
) -> Result<(), AllocError>
    ensures { OnOk result (exports_of exports.new.items ≡ exports_of exports.old.items ++ record { name = chars exported.now; means = spec.exported_as (name_kind (context_of c.now) (chars name.now)) } ∷ []) }
{
    let kind = name_kind(alloc, c, name)?;
    push_export(exported, exported_as(kind), exports)
}

/// Adds a name with what it means. Fails on allocation failure alone.
fn push_export<'a>(
    name: &'a str,
    means: Option<Exported>,
    exports: &mut Vec<Export<'a>>,
) -> Result<(), AllocError>
    ensures { OnOk result (exports_of exports.new.items ≡ exports_of exports.old.items ++ record { name = chars name.now; means = meaning_in means } ∷ []) }
{
    exports.push(Export { name, means })?;
    Ok(())
}

// ---- the default export

/// Adds the default export of this declaration or expression. Fails on allocation failure alone.
fn add_default<'a>(
    alloc: Global,
    c: &Context,
    default: Option<&Value>,
    declaration: &Node,
    exports: &mut Vec<Export<'a>>,
) -> Result<(), AllocError>
    ensures { OnOk result (exports_of exports.new.items ≡ exports_of exports.old.items ++ default_by (context_of c.now) (option_map (λ v. v.now) default.entry) (child declaration.now)) }
{
    let means = default_means(alloc, c, default, declaration)?;
    push_export("default", means, exports)
}

/// What a default export means: the binding of a declaration with a name, or else the value that the program gave. Fails on
/// allocation failure alone.
#[tactic(auto, using(crate::proofs::Exporting::default_named, crate::proofs::Exporting::default_unnamed))]
fn default_means(
    alloc: Global,
    c: &Context,
    default: Option<&Value>,
    declaration: &Node,
) -> Result<Option<Exported>, AllocError>
    ensures { IfOk result (λ x. meaning_in x ≡ default_means (context_of c.now) (option_map (λ v. v.now) default.entry) declaration.now) }
{
    match declared_name(declaration) {
        Some(name) => {
            let kind = name_kind(alloc, c, module_name(name))?;
            Ok(exported_as(kind))
        }
        None => exported_value(alloc, default),
    }
}

/// The name of a function or class declaration.
#[tactic(auto, using(crate::proofs::Exporting::unnamed))]
fn declared_name(declaration: &Node) -> Option<&Node>
    ensures { MatchOption result
        (spec.is_named_declaration (kind_of declaration.now) (at 0 (parts_in declaration.now)) ≡ false)
        (λ name. (spec.is_named_declaration (kind_of declaration.now) (at 0 (parts_in declaration.now)) ≡ true) × (at 0 (parts_in declaration.now) ≡ child name.now)) }
{
    match declaration.kind() {
        // export default function f() {}
        Kind::FunctionDeclaration => FunctionDeclarationRef::from_node(declaration).id,
        // export default class A {}
        Kind::ClassDeclaration => ClassDeclarationRef::from_node(declaration).id,
        _ => None,
    }
}
