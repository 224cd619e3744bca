// The marks of a program in the order of evaluation.

ghost use Rattle.std.specs.Prelude.{◌≡◌, ◌++◌, ◌&&◌, ◌||◌, ◌<◌, [], None, cond, drop, length, nat_eq, option_map, OnOk, ℕ};
ghost use Rattle.std.specs.Str.{chars};
ghost use Rattle.es_base.specs.Tree.{nullable, nullable_trees, trees};
ghost use Rattle.es_base.specs.declared.kind.Kind.{Kind};
ghost use Rattle.es_node.specs.View.{kind_of, number_in, part_of, parts_in, parts_of};
ghost use Rattle.es_lowered.specs.Timely as spec;
ghost use Rattle.es_marks.specs.Around.{around_here};
ghost use Rattle.es_marks.specs.Marks.{form_in, marks_of};
ghost use Rattle.es_owed_timely.specs.Search as found;
ghost use Rattle.es_owed_timely.specs.Walk.{around_at, body_marks, gives_name, key_mark, marks_from, marks_inside, parts_from, value_mark};

use crate::search::{add_initialized, add_marks_before, add_marks_behind};
use crate::terms::Search;
use es_base::kind::Kind;
use es_base::strings::spells;
use es_generated::numbers::has_number;
use es_marks::around::Around;
use es_marks::marks::{Mark, MarkForm};
use es_marks_around::inside::around_in;
use es_node::node::{Node, Part};
use es_owed_initialized::kinds::{is_arrow, is_element};
use es_owed_initialized::runs::runs_with_class;
use es_owed_initialized::spelling::spelling_at;
use es_seen_names::lexical::is_let;
use es_seen_names::parts::string_at;
use es_tree::class::ClassBodyRef;
use es_tree::expression::CallExpressionRef;
use std::alloc::{AllocError, Global};

/// Adds the marks of a node with this around it, which stands in a declaration by `let` of this form, if in one. Fails on
/// allocation failure alone.
#[cycle(marks)]
#[tactic(auto, using(crate::proofs::WalkedMarks::marks_node, es_node::proofs::Below::nodes_in))]
pub fn add_marks<'a>(
    alloc: Global,
    search: &Search<'_, 'a>,
    around: &Around<'_, 'a>,
    in_let: Option<MarkForm>,
    node: &'a Node,
    marks: &mut Vec<Mark<'a>>,
) -> Result<(), AllocError>
    ensures { OnOk result (marks_of marks.new.items ≡ marks_of marks.old.items ++ found.marks search.now (around_here around.now) (option_map form_in in_let) node.now) }
{
    add_marks_before(alloc, search, around, node, marks)?;
    add_marks_inside(alloc, search, around, node, marks)?;
    add_marks_behind(alloc, search, around, in_let, node, marks)
}

/// Adds the marks of the parts of a node. Fails on allocation failure alone.
#[cycle(marks)]
#[tactic(auto, using(crate::proofs::WalkedMarks::inside_body, crate::proofs::WalkedMarks::inside_other, es_node::proofs::Below::nodes_in))]
fn add_marks_inside<'a>(
    alloc: Global,
    search: &Search<'_, 'a>,
    around: &Around<'_, 'a>,
    node: &'a Node,
    marks: &mut Vec<Mark<'a>>,
) -> Result<(), AllocError>
    ensures { OnOk result (marks_of marks.new.items ≡ marks_of marks.old.items ++ marks_inside search.now (around_here around.now) node.now) }
{
    match node.kind() {
        // { a = 1; }
        Kind::ClassBody => {
            let inside = around_in(search.first, search.ledger, &*around, node, 0);
            let elements = ClassBodyRef::from_node(node).body;
            add_marks_of_body(alloc, search, &inside, elements, marks)
        }
        // f()
        Kind::CallExpression => add_marks_of_call(alloc, search, around, node, marks),
        _ => {
            let in_let = let_form(search, node);
            let gives = gives_name(node);
            let parts = node.parts();
            add_marks_from(alloc, search, around, in_let, gives, node, 0, parts, marks)
        }
    }
}

/// Adds the marks of the parts of a call: an arrow that is called where it stands is behind the arguments. Fails on
/// allocation failure alone.
#[cycle(marks)]
#[tactic(auto, using(crate::proofs::WalkedMarks::called_arrow, crate::proofs::WalkedMarks::called_other, es_node::proofs::Below::nodes_in))]
fn add_marks_of_call<'a>(
    alloc: Global,
    search: &Search<'_, 'a>,
    around: &Around<'_, 'a>,
    node: &'a Node,
    marks: &mut Vec<Mark<'a>>,
) -> Result<(), AllocError>
    requires { kind_of node.now ≡ Kind.CallExpression }
    ensures { OnOk result (marks_of marks.new.items ≡ marks_of marks.old.items ++ marks_inside search.now (around_here around.now) node.now) }
{
    let callee = CallExpressionRef::from_node(node).callee;
    let parts = node.parts();
    if is_arrow(callee.kind()) {
        add_marks_from(alloc, search, &*around, None, false, node, 1, parts, marks)?;
        let inside = around_in(search.first, search.ledger, &*around, node, 0);
        add_marks(alloc, search, &inside, None, callee, marks)
    } else {
        add_marks_from(alloc, search, around, None, false, node, 0, parts, marks)
    }
}

/// Adds the marks of these parts of a node from this one on, but of the second, if that is a name which the node gives a
/// value. Fails on allocation failure alone.
#[cycle(marks)]
#[tactic(auto, using(crate::proofs::WalkedMarks::dropped))]
fn add_marks_from<'a>(
    alloc: Global,
    search: &Search<'_, 'a>,
    around: &Around<'_, 'a>,
    in_let: Option<MarkForm>,
    gives: bool,
    node: &'a Node,
    from: usize,
    parts: &'a [Part],
    marks: &mut Vec<Mark<'a>>,
) -> Result<(), AllocError>
    ensures { OnOk result (marks_of marks.new.items ≡ marks_of marks.old.items ++ marks_from search.now (around_at search.now (around_here around.now) node.now) gives (option_map form_in in_let) from (parts_from from (parts_of parts.now))) }
{
    for i in from..parts.len() {
        let is_given = is_given_at(gives, i);
        add_marks_of_part(
            alloc, search, &*around, in_let, is_given, node, i, &parts[i], marks,
        )?;
    }
    Ok(())
}

/// Whether the i-th part is the name that a node gives a value, if it gives one.
fn is_given_at(gives: bool, i: usize) -> bool
    ensures { result ≡ (nat_eq i 1 && gives) }
{
    i == 1 && gives
}

/// Adds the marks of the i-th part of a node, but if that is given a value. Fails on allocation failure alone.
#[cycle(marks)]
fn add_marks_of_part<'a>(
    alloc: Global,
    search: &Search<'_, 'a>,
    around: &Around<'_, 'a>,
    in_let: Option<MarkForm>,
    is_given: bool,
    node: &'a Node,
    i: usize,
    part: &'a Part,
    marks: &mut Vec<Mark<'a>>,
) -> Result<(), AllocError>
    ensures { OnOk result (marks_of marks.new.items ≡ marks_of marks.old.items ++ cond is_given [] (found.marks_at search.now (around_at search.now (around_here around.now) node.now i) (option_map form_in in_let) (part_of part.now))) }
{
    if is_given {
        return Ok(());
    }
    let inside = around_in(search.first, search.ledger, &*around, node, i);
    add_marks_at(alloc, search, &inside, in_let, part, marks)
}

#[cycle(marks)]
fn add_marks_at<'a>(
    alloc: Global,
    search: &Search<'_, 'a>,
    around: &Around<'_, 'a>,
    in_let: Option<MarkForm>,
    part: &'a Part,
    marks: &mut Vec<Mark<'a>>,
) -> Result<(), AllocError>
    ensures { OnOk result (marks_of marks.new.items ≡ marks_of marks.old.items ++ found.marks_at search.now (around_here around.now) (option_map form_in in_let) (part_of part.now)) }
{
    match part {
        Part::Child(node) => add_marks(alloc, search, around, in_let, node, marks),
        Part::List(nodes) => {
            add_marks_of_list(alloc, search, around, in_let, nodes.as_slice(), marks)
        }
        Part::Holes(nodes) => {
            add_marks_of_list_with_holes(alloc, search, around, in_let, nodes.as_slice(), marks)
        }
        _ => Ok(()),
    }
}

#[cycle(marks)]
fn add_marks_of_list<'a>(
    alloc: Global,
    search: &Search<'_, 'a>,
    around: &Around<'_, 'a>,
    in_let: Option<MarkForm>,
    nodes: &'a [Node],
    marks: &mut Vec<Mark<'a>>,
) -> Result<(), AllocError>
    ensures { OnOk result (marks_of marks.new.items ≡ marks_of marks.old.items ++ found.marks_of search.now (around_here around.now) (option_map form_in in_let) (trees nodes.now)) }
{
    for node in nodes {
        add_marks(alloc, search, &*around, in_let, node, marks)?;
    }
    Ok(())
}

#[cycle(marks)]
fn add_marks_of_list_with_holes<'a>(
    alloc: Global,
    search: &Search<'_, 'a>,
    around: &Around<'_, 'a>,
    in_let: Option<MarkForm>,
    nodes: &'a [Option<Node>],
    marks: &mut Vec<Mark<'a>>,
) -> Result<(), AllocError>
    ensures { OnOk result (marks_of marks.new.items ≡ marks_of marks.old.items ++ found.marks_of search.now (around_here around.now) (option_map form_in in_let) (nullable_trees nodes.now)) }
{
    for node in nodes {
        add_marks_of_hole(alloc, search, &*around, in_let, node, marks)?;
    }
    Ok(())
}

#[cycle(marks)]
fn add_marks_of_hole<'a>(
    alloc: Global,
    search: &Search<'_, 'a>,
    around: &Around<'_, 'a>,
    in_let: Option<MarkForm>,
    node: &'a Option<Node>,
    marks: &mut Vec<Mark<'a>>,
) -> Result<(), AllocError>
    ensures { OnOk result (marks_of marks.new.items ≡ marks_of marks.old.items ++ found.marks_at search.now (around_here around.now) (option_map form_in in_let) (nullable node.now)) }
{
    match node {
        Some(node) => add_marks(alloc, search, around, in_let, node, marks),
        None => Ok(()),
    }
}

// ---- the body of a class

/// Adds the marks of the elements of a class: the keys, the own name of the class, the elements that do not run with the
/// class, which those that do may call, and these. Fails on allocation failure alone.
#[cycle(marks)]
fn add_marks_of_body<'a>(
    alloc: Global,
    search: &Search<'_, 'a>,
    around: &Around<'_, 'a>,
    elements: &'a [Node],
    marks: &mut Vec<Mark<'a>>,
) -> Result<(), AllocError>
    ensures { OnOk result (marks_of marks.new.items ≡ marks_of marks.old.items ++ body_marks search.now (around_here around.now) (trees elements.now)) }
{
    add_keys(alloc, search, &*around, elements, marks)?;
    add_initialized(alloc, search, &*around, around.class_name, None, marks)?;
    add_values(alloc, search, false, &*around, elements, marks)?;
    add_values(alloc, search, true, around, elements, marks)
}

/// Adds the marks of the keys. Fails on allocation failure alone.
#[cycle(marks)]
#[tactic(auto, using(crate::proofs::WalkedMarks::keys_more))]
fn add_keys<'a>(
    alloc: Global,
    search: &Search<'_, 'a>,
    around: &Around<'_, 'a>,
    elements: &'a [Node],
    marks: &mut Vec<Mark<'a>>,
) -> Result<(), AllocError>
    ensures { OnOk result (marks_of marks.new.items ≡ marks_of marks.old.items ++ found.key_marks search.now (around_here around.now) (trees elements.now)) }
{
    for element in elements {
        add_key(alloc, search, &*around, element, marks)?;
    }
    Ok(())
}

#[cycle(marks)]
#[tactic(auto, using(crate::proofs::WalkedMarks::key_first, crate::proofs::WalkedMarks::key_none, es_node::proofs::Below::nodes_in))]
fn add_key<'a>(
    alloc: Global,
    search: &Search<'_, 'a>,
    around: &Around<'_, 'a>,
    element: &'a Node,
    marks: &mut Vec<Mark<'a>>,
) -> Result<(), AllocError>
    ensures { OnOk result (marks_of marks.new.items ≡ marks_of marks.old.items ++ key_mark search.now (around_here around.now) element.now) }
{
    match element.parts() {
        [key, ..] => {
            let is_no_key = !is_element(element.kind());
            add_marks_of_part(
                alloc, search, around, None, is_no_key, element, 0, key, marks,
            )
        }
        [] => Ok(()),
    }
}

/// Adds the marks of the elements that run with the class, or of the others, but for keys. Fails on allocation failure
/// alone.
#[cycle(marks)]
#[tactic(auto, using(crate::proofs::WalkedMarks::values_more))]
fn add_values<'a>(
    alloc: Global,
    search: &Search<'_, 'a>,
    runs: bool,
    around: &Around<'_, 'a>,
    elements: &'a [Node],
    marks: &mut Vec<Mark<'a>>,
) -> Result<(), AllocError>
    ensures { OnOk result (marks_of marks.new.items ≡ marks_of marks.old.items ++ found.value_marks search.now runs (around_here around.now) (trees elements.now)) }
{
    for element in elements {
        add_value(alloc, search, runs, &*around, element, marks)?;
    }
    Ok(())
}

#[cycle(marks)]
#[tactic(auto, using(crate::proofs::WalkedMarks::value_node, es_node::proofs::Below::nodes_in))]
fn add_value<'a>(
    alloc: Global,
    search: &Search<'_, 'a>,
    runs: bool,
    around: &Around<'_, 'a>,
    element: &'a Node,
    marks: &mut Vec<Mark<'a>>,
) -> Result<(), AllocError>
    ensures { OnOk result (marks_of marks.new.items ≡ marks_of marks.old.items ++ value_mark search.now runs (around_here around.now) element.now) }
{
    let parts = element.parts();
    if !is_same(runs, runs_with_class(element)) {
        Ok(())
    } else if is_element(element.kind()) {
        add_marks_from(alloc, search, around, None, false, element, 1, parts, marks)
    } else {
        add_marks_from(alloc, search, around, None, false, element, 0, parts, marks)
    }
}

// ---- at a node

fn is_same(one: bool, other: bool) -> bool
    ensures { result ≡ spec.is_same one other }
{
    if one { other } else { !other }
}

/// The form of the declarations by `let` that a node is.
#[tactic(auto, using(crate::proofs::WalkedMarks::let_of, crate::proofs::WalkedMarks::no_let))]
fn let_form(search: &Search, node: &Node) -> Option<MarkForm>
    ensures { option_map form_in result ≡ found.let_form search.now (kind_of node.now) (number_in node.now) (parts_in node.now) }
{
    match node.kind() {
        // let _a;
        Kind::VariableDeclaration => {
            if is_let(node.parts()) {
                Some(if has_number(node.node_id().0, search.leading) {
                    MarkForm::Leads
                } else {
                    MarkForm::Declares
                })
            } else {
                None
            }
        }
        _ => None,
    }
}

/// Whether the node is an assignment by `=` to a name, which is no use of that.
#[tactic(auto, using(crate::proofs::WalkedMarks::gives_by_kind, crate::proofs::WalkedMarks::gives_none))]
fn gives_name(node: &Node) -> bool
    ensures { result ≡ gives_name (kind_of node.now) (parts_in node.now) }
{
    match node.kind() {
        // _a = b
        Kind::AssignmentExpression => {
            spells(string_at(node.parts(), 0), "=") && is_spelled(spelling_at(node.parts(), 1))
        }
        _ => false,
    }
}

fn is_spelled(name: &str) -> bool
    ensures { result ≡ spec.is_spelled (chars name.now) }
{
    match name.chars().next() {
        Some(_) => true,
        None => false,
    }
}
