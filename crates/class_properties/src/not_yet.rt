// Which programs are of the first form: the least number of a node that is not as the form asks.

ghost use Rattle.std.specs.Prelude.{◌≡◌, true, [], ◌∷◌, ◌++◌, ◌&&◌, bytes_eq, codes, map, option_map, IfOk, OnOk};
ghost use Rattle.std.specs.List.{All};
ghost use Rattle.es_base.specs.Conforms.{conforms};
ghost use Rattle.es_base.specs.Tree.{end, more, child, trees};
ghost use Rattle.es_base.specs.Words.{source_type_string};
ghost use Rattle.es_base.specs.declared.table.Place.{Place};
ghost use Rattle.es_steps.specs.FirstForm.{class_names, statements_breaches, not_yet};
ghost use Rattle.class_properties.specs.Least.{number_in, least_with};
ghost use Rattle.es_name_set.specs.Names.{HaveSame};

use crate::not_yet::class::{class_name, statement_breaches};
use crate::not_yet::least::{least_of, unless};
use es_base::ids::NodeId;
use es_base::operator::SourceType;
use es_name_set::Names;
use es_node::node::Node;
use es_tree::program::ProgramRef;
use std::alloc::{AllocError, Global};

mod class;
mod field;
mod least;

/// A program has at most this many nodes.
const MOST_NODES: u32 = 1048576;

/// The least number of a node that is not as the first form asks; nothing where the program is of the
/// form. `foreign` are the numbers of nodes that have members outside the table, which count as well.
/// Takes time in proportion to the program, but for the logarithm of the number of its classes. Fails
/// on allocation failure alone.
pub fn not_yet(
    alloc: Global,
    program: &Node,
    foreign: &[NodeId],
) -> Result<Option<NodeId>, AllocError>
    requires { conforms Place.Program program.now ≡ true }
    ensures answer { IfOk result (λ r. option_map (λ n. n.0) r ≡ not_yet program.now (map (λ n. n.0) foreign.now)) }
{
    let is_small = program.has_at_most(MOST_NODES);
    let program = ProgramRef::from_node(program, foreign);
    let names = class_names(alloc, program.body)?;
    let is_small_script = is_small_script(program.source_type, is_small);
    let least = unless(is_small_script, program.node_id, None);
    let least = statements_breaches(alloc, program.body, &names, least)?;
    Ok(least_of(foreign, least))
}

/// Whether a program of this source type is a script, if it is small.
fn is_small_script(source_type: SourceType, is_small: bool) -> bool
    ensures { result ≡ (bytes_eq (source_type_string source_type) (codes "script") && is_small) }
{
    match source_type {
        SourceType::Script => is_small,
        SourceType::Module => false,
    }
}

/// The names of the classes among these statements. Fails on allocation failure alone.
fn class_names<'a>(alloc: Global, statements: &'a [Node]) -> Result<Names<'a>, AllocError>
    requires { All (λ t. conforms Place.Statement t ≡ true) statements.now }
    ensures { IfOk result (λ names. HaveSame names (class_names (trees statements.now))) }
{
    let mut names = Names::new(alloc);
    for statement in statements {
        add_class(&mut names, statement)?;
    }
    Ok(names)
}

/// Adds the name of the class, if the statement is one. Fails on allocation failure alone.
fn add_class<'a>(names: &mut Names<'a>, statement: &'a Node) -> Result<(), AllocError>
    requires { conforms Place.Statement statement.now ≡ true }
    ensures { OnOk result (HaveSame names.new (class_names (more (child statement.now) end) ++ names.old)) }
{
    match class_name(statement) {
        None => Ok(()),
        Some(name) => names.insert(name.as_str()),
    }
}

/// The least number, where those of the nodes in these statements count that are not as the first form
/// asks: the classes of the program have these names. Fails on allocation failure alone.
fn statements_breaches(
    alloc: Global,
    statements: &[Node],
    names: &Names,
    least: Option<NodeId>,
) -> Result<Option<NodeId>, AllocError>
    requires { All (λ t. conforms Place.Statement t ≡ true) statements.now }
    ensures { IfOk result (λ r. number_in r ≡ least_with (number_in least) (statements_breaches [] names.now (trees statements.now))) }
{
    let mut earlier = Names::new(alloc);
    let mut least = least;
    for statement in statements {
        least = statement_breaches(&earlier, names, statement, least);
        add_class(&mut earlier, statement)?;
    }
    Ok(least)
}
