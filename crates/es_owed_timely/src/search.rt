// Which marks are asked for, and those that a node has by itself.

ghost use Rattle.std.specs.Prelude.{◌≡◌, ◌++◌, ◌∷◌, [], option_map, OnOk};
ghost use Rattle.std.specs.Option.{option_to_list};
ghost use Rattle.std.specs.Str.{chars};
ghost use Rattle.es_base.specs.declared.kind.Kind.{Kind};
ghost use Rattle.es_node.specs.View.{kind_of, number_in, parts_in, parts_of};
ghost use Rattle.es_steps.specs.Parts.{at};
ghost use Rattle.es_lowered.specs.Timely as spec;
ghost use Rattle.es_marks.specs.Around.{around_here};
ghost use Rattle.es_marks.specs.Marks.{form_in, marks_of};
ghost use Rattle.es_owed_timely.specs.Search as found;
ghost use Rattle.es_owed_timely.specs.Search.{asked_by, called_around};
ghost use Rattle.es_seen_names.specs.PrivateMembers.{private_members_of};

use crate::terms::Search;
use es_base::kind::Kind;
use es_base::ledger::{GeneratedKind, LedgerEntry};
use es_binding_faults::hoisted::part_at;
use es_generated::ledger::Ledger;
use es_generated::numbers::has_number;
use es_marks::around::Around;
use es_marks::marks::{Mark, MarkForm};
use es_node::node::{Node, Part};
use es_owed_initialized::spelling::spelling_at;
use es_seen_names::parts::string_at;
use std::alloc::{AllocError, Global};

/// Of which names or nodes marks are asked for.
#[derive(Clone, Copy)]
pub enum Asked<'a> {
    /// Those of these generated names.
    Generated(&'a Ledger<'a>),
    /// Those of the nodes of these numbers.
    Nodes(&'a [u32]),
    /// Those of nodes: of all references and classes.
    AnyNode,
}

impl<'a> Asked<'a> {
    /// Whether a mark of this name and node is asked for.
    #[tactic(auto, using(crate::proofs::OwnMarks::among_one))]
    pub fn asks(&self, name: &str, node: Option<u32>) -> bool
        ensures { result ≡ asked_by self.now (chars name.now) (option_to_list node) }
    {
        match self {
            Asked::Generated(ledger) => ledger.is_generated(name),
            Asked::Nodes(numbers) => match node {
                Some(node) => has_number(node, numbers),
                None => false,
            },
            Asked::AnyNode => match node {
                Some(_) => true,
                None => false,
            },
        }
    }
}

/// Adds a mark, if it is asked for. Fails on allocation failure alone.
fn add_mark<'a>(
    alloc: Global,
    search: &Search<'_, 'a>,
    around: &Around<'_, 'a>,
    form: MarkForm,
    name: &'a str,
    node: Option<u32>,
    marks: &mut Vec<Mark<'a>>,
) -> Result<(), AllocError>
    ensures { OnOk result (marks_of marks.new.items ≡ marks_of marks.old.items ++ found.mark search.now (around_here around.now) (form_in form) (chars name.now) (option_to_list node)) }
{
    if search.asked.asks(name, node) {
        push_mark(alloc, around, form, name, node, marks)
    } else {
        Ok(())
    }
}

fn push_mark<'a>(
    alloc: Global,
    around: &Around<'_, 'a>,
    form: MarkForm,
    name: &'a str,
    node: Option<u32>,
    marks: &mut Vec<Mark<'a>>,
) -> Result<(), AllocError>
    ensures { OnOk result (marks_of marks.new.items ≡ marks_of marks.old.items ++ found.one (around_here around.now) (form_in form) (chars name.now) (option_to_list node) ∷ []) }
{
    let around = around.kept(alloc)?;
    marks.push(Mark {
        name,
        node,
        form,
        around,
    })?;
    Ok(())
}

// ---- in front of the marks of the parts

/// Adds the marks that a node has in front of those of its parts. Fails on allocation failure alone.
#[tactic(auto, using(crate::proofs::OwnMarks::before_reference, crate::proofs::OwnMarks::before_class, crate::proofs::OwnMarks::before_class_expression, crate::proofs::OwnMarks::before_function, crate::proofs::OwnMarks::before_none))]
pub fn add_marks_before<'a>(
    alloc: Global,
    search: &Search<'_, 'a>,
    around: &Around<'_, 'a>,
    node: &'a Node,
    marks: &mut Vec<Mark<'a>>,
) -> Result<(), AllocError>
    ensures { OnOk result (marks_of marks.new.items ≡ marks_of marks.old.items ++ found.marks_before search.now (around_here around.now) (kind_of node.now) (number_in node.now) (parts_in node.now)) }
{
    match node.kind() {
        // _a
        Kind::IdentifierReference => add_use(alloc, search, around, node, marks),
        // class A {}
        Kind::ClassDeclaration => add_needed(alloc, search, around, node.node_id().0, marks),
        // (class A {})
        Kind::ClassExpression => add_needed(alloc, search, around, node.node_id().0, marks),
        // function _a() {}
        Kind::FunctionDeclaration => {
            let name = spelling_at(node.parts(), 0);
            add_mark(alloc, search, around, MarkForm::Hoists, name, None, marks)
        }
        _ => Ok(()),
    }
}

/// Adds the mark of a reference. Fails on allocation failure alone.
fn add_use<'a>(
    alloc: Global,
    search: &Search<'_, 'a>,
    around: &Around<'_, 'a>,
    node: &'a Node,
    marks: &mut Vec<Mark<'a>>,
) -> Result<(), AllocError>
    ensures { OnOk result (marks_of marks.new.items ≡ marks_of marks.old.items ++ found.marks_before search.now (around_here around.now) Kind.IdentifierReference (number_in node.now) (parts_in node.now)) }
{
    let name = string_at(node.parts(), 0);
    let kind = search.ledger.generated_as(name);
    let here = use_around(kind, around);
    let number = Some(node.node_id().0);
    add_mark(alloc, search, &here, use_form(kind), name, number, marks)
}

/// How a name of this kind is used.
fn use_form(kind: Option<GeneratedKind>) -> MarkForm
    ensures { form_in result ≡ spec.use_form kind }
{
    if comes_first(kind) {
        MarkForm::Needs
    } else {
        MarkForm::Uses
    }
}

/// Whether a name of this kind is given in front of each use, also of those that run later.
fn comes_first(kind: Option<GeneratedKind>) -> bool
    ensures { result ≡ spec.comes_first kind }
{
    matches!(
        kind,
        Some(
            GeneratedKind::WeakMap(_)
                | GeneratedKind::Brand(_)
                | GeneratedKind::LooseKey(_)
                | GeneratedKind::Method(_)
                | GeneratedKind::SuperFn(_)
                | GeneratedKind::Closure
        )
    )
}

/// Whether a name of this kind is called.
fn is_called_first(kind: Option<GeneratedKind>) -> bool
    ensures { result ≡ spec.is_called_first kind }
{
    matches!(
        kind,
        Some(GeneratedKind::SuperFn(_) | GeneratedKind::Closure)
    )
}

/// What is around a use of a name of this kind.
fn use_around<'r, 'a>(kind: Option<GeneratedKind>, around: &Around<'r, 'a>) -> Around<'r, 'a>
    ensures { around_here result ≡ spec.use_around kind (around_here around.now) }
{
    if is_called_first(kind) {
        called_around(around)
    } else {
        *around
    }
}

/// The same, where each function declaration may be called in front of where it stands.
fn called_around<'r, 'a>(around: &Around<'r, 'a>) -> Around<'r, 'a>
    ensures { around_here result ≡ called_around (around_here around.now) }
{
    Around {
        later: around.called,
        ..*around
    }
}

// ---- what a class needs

/// Adds a mark for each name that has to be given in front of this class. Fails on allocation failure alone.
fn add_needed<'a>(
    alloc: Global,
    search: &Search<'_, 'a>,
    around: &Around<'_, 'a>,
    class: u32,
    marks: &mut Vec<Mark<'a>>,
) -> Result<(), AllocError>
    ensures { OnOk result (marks_of marks.new.items ≡ marks_of marks.old.items ++ spec.uses_of (around_here around.now) (spec.needed_names class (private_members_of search.now.members.now) search.now.ledger.now)) }
{
    let called = called_around(around);
    let entries = search.needed_by(class);
    for entry in entries {
        add_needed_name(alloc, &called, *entry, marks)?;
    }
    Ok(())
}

fn add_needed_name<'a>(
    alloc: Global,
    called: &Around<'_, 'a>,
    entry: &'a LedgerEntry,
    marks: &mut Vec<Mark<'a>>,
) -> Result<(), AllocError>
    ensures { OnOk result (marks_of marks.new.items ≡ marks_of marks.old.items ++ found.one (around_here called.now) spec.needs entry.now.name [] ∷ []) }
{
    push_mark(
        alloc,
        called,
        MarkForm::Needs,
        entry.name.as_str(),
        None,
        marks,
    )
}

// ---- behind the marks of the parts

/// Adds the marks that a node has behind those of its parts, which stands in a declaration by `let` of this form, if in one.
/// Fails on allocation failure alone.
#[tactic(auto, using(crate::proofs::OwnMarks::behind_assignment, crate::proofs::OwnMarks::behind_declarator, crate::proofs::OwnMarks::behind_class, crate::proofs::OwnMarks::behind_class_expression, crate::proofs::OwnMarks::behind_none, es_seen_names::proofs::Strings::no_characters))]
pub fn add_marks_behind<'a>(
    alloc: Global,
    search: &Search<'_, 'a>,
    around: &Around<'_, 'a>,
    in_let: Option<MarkForm>,
    node: &'a Node,
    marks: &mut Vec<Mark<'a>>,
) -> Result<(), AllocError>
    ensures { OnOk result (marks_of marks.new.items ≡ marks_of marks.old.items ++ found.marks_behind search.now (around_here around.now) (option_map form_in in_let) (kind_of node.now) (number_in node.now) (parts_in node.now)) }
{
    match node.kind() {
        // _a = b
        Kind::AssignmentExpression => {
            let name = spelling_at(node.parts(), 1);
            add_initialized(alloc, search, around, name, None, marks)
        }
        // let _a = b;
        Kind::VariableDeclarator => {
            add_declared(alloc, search, around, in_let, node.parts(), marks)?;
            add_given(alloc, search, around, node.parts(), marks)
        }
        // class A {}
        Kind::ClassDeclaration => {
            let number = Some(node.node_id().0);
            add_initialized(alloc, search, around, "", number, marks)
        }
        // (class A {})
        Kind::ClassExpression => {
            let number = Some(node.node_id().0);
            add_initialized(alloc, search, around, "", number, marks)
        }
        _ => Ok(()),
    }
}

/// Adds the mark of what gives a name a value. Fails on allocation failure alone.
pub fn add_initialized<'a>(
    alloc: Global,
    search: &Search<'_, 'a>,
    around: &Around<'_, 'a>,
    name: &'a str,
    node: Option<u32>,
    marks: &mut Vec<Mark<'a>>,
) -> Result<(), AllocError>
    ensures { OnOk result (marks_of marks.new.items ≡ marks_of marks.old.items ++ found.mark search.now (around_here around.now) spec.initializes (chars name.now) (option_to_list node)) }
{
    add_mark(
        alloc,
        search,
        around,
        MarkForm::Initializes,
        name,
        node,
        marks,
    )
}

/// Adds the mark of a declarator that declares by `let`. Fails on allocation failure alone.
fn add_declared<'a>(
    alloc: Global,
    search: &Search<'_, 'a>,
    around: &Around<'_, 'a>,
    in_let: Option<MarkForm>,
    parts: &'a [Part],
    marks: &mut Vec<Mark<'a>>,
) -> Result<(), AllocError>
    ensures { OnOk result (marks_of marks.new.items ≡ marks_of marks.old.items ++ found.declared_mark search.now (around_here around.now) (option_map form_in in_let) (at 0 (parts_of parts.now))) }
{
    match in_let {
        Some(form) => {
            let name = spelling_at(parts, 0);
            add_mark(alloc, search, around, form, name, None, marks)
        }
        None => Ok(()),
    }
}

/// Adds the mark of a declarator that gives a value. Fails on allocation failure alone.
fn add_given<'a>(
    alloc: Global,
    search: &Search<'_, 'a>,
    around: &Around<'_, 'a>,
    parts: &'a [Part],
    marks: &mut Vec<Mark<'a>>,
) -> Result<(), AllocError>
    ensures { OnOk result (marks_of marks.new.items ≡ marks_of marks.old.items ++ found.initialized_mark search.now (around_here around.now) (at 0 (parts_of parts.now)) (at 1 (parts_of parts.now))) }
{
    match part_at(parts, 1) {
        Some(Part::Child(_)) => {
            let name = spelling_at(parts, 0);
            add_initialized(alloc, search, around, name, None, marks)
        }
        _ => Ok(()),
    }
}
