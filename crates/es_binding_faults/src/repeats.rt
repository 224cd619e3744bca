// Names that are declared again in one scope.

ghost use Rattle.std.specs.Prelude.{◌≡◌, ◌++◌, ◌∷◌, ℕ, List, [], None, IfOk, OnOk, cond, filter};
ghost use Rattle.es_node.specs.View.{kind_of, parts_in};
ghost use Rattle.es_steps.specs.References.{has_number, numbers_of};
ghost use Rattle.es_steps.specs.Scopes.{Declaration};
ghost use Rattle.es_validity.specs.Facts.{not_among, is_repeat, repeats};
ghost use Rattle.es_binding_faults.specs.Leasts.{number_of};
ghost use Rattle.es_binding_faults.specs.Named.{named, declaration_of};
ghost use Rattle.es_binding_faults.specs.Repeats.{numbers, least_from, is_below, is_lexical, repeats_in};

use crate::bound::Declared;
use crate::counted::add_counted;
use crate::leasts::Leasts;
use crate::numbers::Numbers;
use crate::scopes::scope_form;
use es_base::ids::NodeId;
use es_node::node::Node;
use std::alloc::{AllocError, Global};

/// Adds a declaration where it holds. Fails on allocation failure alone.
fn keep_if<'a>(
    holds: bool,
    declared: &Declared<'a>,
    names: &mut Vec<Declared<'a>>,
) -> Result<(), AllocError>
    ensures { OnOk result (named names.new.items ≡ named names.old.items ++ cond holds (declaration_of declared.now ∷ []) []) }
{
    if holds {
        names.push(*declared)?;
    }
    Ok(())
}

/// The declarations whose numbers are not among these. Fails on allocation failure alone.
fn without<'a>(
    alloc: Global,
    branches: &Numbers,
    names: &[Declared<'a>],
) -> Result<Vec<Declared<'a>>, AllocError>
    ensures { IfOk result (λ r. named r.items ≡ filter (not_among branches.now) (named names.now)) }
{
    let mut kept = Vec::new(alloc);
    for declared in names {
        keep_if(!branches.has(declared.node), declared, &mut kept)?;
    }
    Ok(kept)
}

/// The least number of each name. Fails on allocation failure alone.
fn leasts<'a>(alloc: Global, names: &[Declared<'a>]) -> Result<Leasts<'a>, AllocError>
    ensures { IfOk result (λ r. (s : List ℕ) → number_of s r ≡ least_from s None (named names.now)) }
{
    let mut leasts = Leasts::new(alloc);
    for declared in names {
        leasts.add(declared.name, declared.node.0)?;
    }
    Ok(leasts)
}

/// The declarations whose numbers are among these. Fails on allocation failure alone.
fn lexical_names<'a>(
    alloc: Global,
    lexical: &Numbers,
    names: &[Declared<'a>],
) -> Result<Vec<Declared<'a>>, AllocError>
    ensures { IfOk result (λ r. named r.items ≡ filter (is_lexical lexical.now) (named names.now)) }
{
    let mut kept = Vec::new(alloc);
    for declared in names {
        keep_if(lexical.has(declared.node), declared, &mut kept)?;
    }
    Ok(kept)
}

/// Whether a number is there, and less than the other.
fn is_below(number: Option<u32>, other: u32) -> bool
    ensures { result ≡ is_below number other }
{
    match number {
        Some(number) => number < other,
        None => false,
    }
}

/// Whether a declaration repeats one before it, where these are the least numbers of all, and of those by `let`, `const`,
/// `class` or `import`, which have these numbers.
fn is_repeat(all: &Leasts, lets: &Leasts, lexical: &Numbers, declared: &Declared) -> bool
    ensures { (ds : List Declaration) → ((s : List ℕ) → number_of s all.now ≡ least_from s None ds) → ((s : List ℕ) → number_of s lets.now ≡ least_from s None (filter (is_lexical lexical.now) ds)) → result ≡ is_repeat lexical.now ds (declaration_of declared.now) }
{
    if lexical.has(declared.node) {
        is_below(all.get(declared.name), declared.node.0)
    } else {
        is_below(lets.get(declared.name), declared.node.0)
    }
}

/// Adds a number where it holds. Fails on allocation failure alone.
pub fn push_if(holds: bool, node: NodeId, nodes: &mut Vec<NodeId>) -> Result<(), AllocError>
    ensures { OnOk result (numbers nodes.new.items ≡ numbers nodes.old.items ++ cond holds (node.0 ∷ []) []) }
{
    if holds {
        nodes.push(node)?;
    }
    Ok(())
}

/// Adds the numbers of declarations that repeat a name, of which one is lexical. Fails on allocation failure alone.
fn add_repeats(
    alloc: Global,
    lexical: &Numbers,
    names: &[Declared],
    found: &mut Vec<NodeId>,
) -> Result<(), AllocError>
    ensures { OnOk result (numbers found.new.items ≡ numbers found.old.items ++ repeats lexical.now (named names.now)) }
{
    let lets = lexical_names(alloc, lexical, names)?;
    if lets.as_slice().is_empty() {
        return Ok(());
    }
    let all = leasts(alloc, names)?;
    let lets = leasts(alloc, lets.as_slice())?;
    for declared in names {
        push_if(
            is_repeat(&all, &lets, lexical, declared),
            declared.node,
            found,
        )?;
    }
    Ok(())
}

/// Adds the numbers of declarations that repeat a name in the scope of this node. Fails on allocation failure alone.
pub fn add_repeats_in(
    alloc: Global,
    lexical: &Numbers,
    branches: &Numbers,
    node: &Node,
    found: &mut Vec<NodeId>,
) -> Result<(), AllocError>
    ensures { OnOk result (numbers found.new.items ≡ numbers found.old.items ++ repeats_in lexical.now branches.now node.now) }
{
    let mut names = Vec::new(alloc);
    add_counted(scope_form(node.kind()), node.parts(), &mut names)?;
    let names = without(alloc, branches, names.as_slice())?;
    add_repeats(alloc, lexical, names.as_slice(), found)
}
