// The functions of generated names that their class alone calls: those of private methods, and those for `super(..)`, which the
// constructor calls, in front of which stands what the class needs.

ghost use Rattle.std.specs.Prelude.{◌≡◌, ◌++◌, ℕ, IfOk, OnOk};
ghost use Rattle.std.specs.List.{list_any};
ghost use Rattle.std.specs.Str.{chars};
ghost use Rattle.es_base.specs.Conforms.{is_among};
ghost use Rattle.es_binding_faults.specs.Seen.{seen};
ghost use Rattle.es_by_number.specs.Numbered.{pairs};
ghost use Rattle.es_grouped.specs.Groups.{group, having};
ghost use Rattle.es_node.specs.View.{parts_of};
ghost use Rattle.es_steps.specs.Parts.{at};
ghost use Rattle.es_lowered.specs.Timely as spec;
ghost use Rattle.es_marks.specs.Around.{later_function, later_functions};
ghost use Rattle.es_marks.specs.Marks.{mark_of};
ghost use Rattle.es_marks.specs.MethodFunctions.{method_functions};
ghost use Rattle.es_owed_timely.specs.Functions.{given_in, method_in, method_of, needs, super_at, super_functions_of, super_in, super_of};
ghost use Rattle.es_owed_timely.specs.Needed.{names_of};
ghost use Rattle.es_seen_names.specs.PrivateMembers.{private_members_of};

use crate::terms::Search;
use es_base::kind::Kind;
use es_base::ledger::{GeneratedKind, LedgerEntry};
use es_base::strings::is_word;
use es_binding_faults::hoisted::part_at;
use es_by_number::numbered::Numbered;
use es_generated::ledger::Ledger;
use es_grouped::Grouped;
use es_marks::around::LaterFunction;
use es_marks::marks::{Mark, MarkForm, is_needed};
use es_marks::method_functions::MethodFunction;
use es_node::node::{Node, Part};
use es_owed_initialized::spelling::spelling_at;
use std::alloc::{AllocError, Global};

/// The function for `super(..)` of a class.
#[derive(Debug, Clone, Copy)]
pub struct SuperFunction {
    pub node: u32,
    pub class: u32,
}

/// Such functions, the classes looked up by the numbers of these.
#[derive(Drop)]
pub struct SuperFunctions {
    pub functions: Vec<SuperFunction>,
    pub classes: Grouped<u32>,

    ghost classes_are: { (m : ℕ) → group m classes ≡ having m (super_functions_of functions.items) },
}

// ---- functions of private methods

/// The functions of private methods that these nodes declare. Fails on allocation failure alone.
#[tactic(auto, using(crate::proofs::CalledByClass::methods_more))]
pub fn declared_methods<'a>(
    alloc: Global,
    ledger: &Ledger,
    nodes: &[&'a Node],
) -> Result<Vec<MethodFunction<'a>>, AllocError>
    ensures { IfOk result (λ r. method_functions r.items ≡ spec.declared_methods ledger.now (seen nodes.now)) }
{
    let mut functions = Vec::new(alloc);
    for node in nodes {
        add_method(ledger, *node, &mut functions)?;
    }
    Ok(functions)
}

/// Adds the node, if it declares the function of a private method. Fails on allocation failure alone.
#[tactic(auto, using(crate::proofs::CalledByClass::method_of_function, crate::proofs::CalledByClass::no_method))]
fn add_method<'a>(
    ledger: &Ledger,
    node: &'a Node,
    functions: &mut Vec<MethodFunction<'a>>,
) -> Result<(), AllocError>
    ensures { OnOk result (method_functions functions.new.items ≡ method_functions functions.old.items ++ method_of ledger.now node.now) }
{
    match node.kind() {
        // function _m() {}
        Kind::FunctionDeclaration => {
            add_named_method(
                ledger,
                node.node_id().0,
                spelling_at(node.parts(), 0),
                functions,
            )
        }
        _ => Ok(()),
    }
}

fn add_named_method<'a>(
    ledger: &Ledger,
    node: u32,
    name: &'a str,
    functions: &mut Vec<MethodFunction<'a>>,
) -> Result<(), AllocError>
    ensures { OnOk result (method_functions functions.new.items ≡ method_functions functions.old.items ++ method_in ledger.now node (chars name.now)) }
{
    match ledger.generated_as(name) {
        Some(GeneratedKind::Method(_)) => {
            functions.push(MethodFunction { node, name })?;
            Ok(())
        }
        _ => Ok(()),
    }
}

// ---- functions for `super(..)`

impl SuperFunctions {
    /// Those that these nodes give to generated names. Fails on allocation failure alone.
    pub fn of(alloc: Global, ledger: &Ledger, nodes: &[&Node]) -> Result<SuperFunctions, AllocError>
        ensures { IfOk result (λ f. super_functions_of f.functions.items ≡ spec.super_functions ledger.now (seen nodes.now)) }
    {
        let functions = super_functions(alloc, ledger, nodes)?;
        let classes = classes(alloc, functions.as_slice())?;
        Ok(SuperFunctions { functions, classes })
    }

    /// Whether the mark stands in one of these functions whose class needs its name.
    fn is_given_with(&self, search: &Search, mark: &Mark) -> bool
        ensures { result ≡ spec.is_given_with search.now.ledger.now (private_members_of search.now.members.now) (mark_of mark.now) (super_functions_of self.now.functions.items) }
    {
        self.is_given_around(search, mark.name, mark.around.later.as_slice())
    }

    /// Whether one of the functions around is one whose class needs this name.
    fn is_given_around(&self, search: &Search, name: &str, around: &[LaterFunction]) -> bool
        ensures { result ≡ list_any (given_in (super_functions_of self.now.functions.items) (needs (private_members_of search.now.members.now) search.now.ledger.now (chars name.now))) (later_functions around.now) }
    {
        for function in around {
            if self.is_given_in(search, name, *function) {
                return true;
            }
        }
        false
    }

    /// Whether the function is one whose class needs this name.
    fn is_given_in(&self, search: &Search, name: &str, function: LaterFunction) -> bool
        ensures { result ≡ given_in (super_functions_of self.now.functions.items) (needs (private_members_of search.now.members.now) search.now.ledger.now (chars name.now)) (later_function function) }
    {
        any_needs(search, name, self.classes_of(function.node))
    }

    /// The classes of the functions of this number.
    fn classes_of(&self, node: u32) -> &[u32]
        ensures { result.now ≡ having node (super_functions_of self.now.functions.items) }
    {
        self.classes.get(node)
    }
}

fn classes(alloc: Global, functions: &[SuperFunction]) -> Result<Grouped<u32>, AllocError>
    ensures { IfOk result (λ g. (m : ℕ) → group m g ≡ having m (super_functions_of functions.now)) }
{
    let items = with_numbers(alloc, functions)?;
    Grouped::of(alloc, items)
}

/// The classes of these functions, each with the number of its function. Fails on allocation failure alone.
fn with_numbers(
    alloc: Global,
    functions: &[SuperFunction],
) -> Result<Vec<Numbered<u32>>, AllocError>
    ensures { IfOk result (λ r. pairs r.items ≡ super_functions_of functions.now) }
{
    let mut items = Vec::new(alloc);
    for function in functions {
        items.push(Numbered {
            number: function.node,
            value: function.class,
        })?;
    }
    Ok(items)
}

/// The functions for `super(..)` that these nodes give to generated names. Fails on allocation failure alone.
#[tactic(auto, using(crate::proofs::CalledByClass::supers_more))]
pub fn super_functions(
    alloc: Global,
    ledger: &Ledger,
    nodes: &[&Node],
) -> Result<Vec<SuperFunction>, AllocError>
    ensures { IfOk result (λ r. super_functions_of r.items ≡ spec.super_functions ledger.now (seen nodes.now)) }
{
    let mut functions = Vec::new(alloc);
    for node in nodes {
        add_super(ledger, node, &mut functions)?;
    }
    Ok(functions)
}

/// Adds what the node gives to a name, if that is such a function. Fails on allocation failure alone.
#[tactic(auto, using(crate::proofs::CalledByClass::super_of_declarator, crate::proofs::CalledByClass::super_of_assignment, crate::proofs::CalledByClass::no_super))]
fn add_super(
    ledger: &Ledger,
    node: &Node,
    functions: &mut Vec<SuperFunction>,
) -> Result<(), AllocError>
    ensures { OnOk result (super_functions_of functions.new.items ≡ super_functions_of functions.old.items ++ super_of ledger.now node.now) }
{
    match node.kind() {
        // var _super = () => super();
        Kind::VariableDeclarator => add_super_in(ledger, node.parts(), 0, 1, functions),
        // _super = () => super()
        Kind::AssignmentExpression => add_super_in(ledger, node.parts(), 1, 2, functions),
        _ => Ok(()),
    }
}

/// Adds the part at `value`, if the name at `target` is that of such a function. Fails on allocation failure alone.
#[tactic(auto, using(crate::proofs::CalledByClass::super_named))]
fn add_super_in(
    ledger: &Ledger,
    parts: &[Part],
    target: usize,
    value: usize,
    functions: &mut Vec<SuperFunction>,
) -> Result<(), AllocError>
    ensures { OnOk result (super_functions_of functions.new.items ≡ super_functions_of functions.old.items ++ super_in ledger.now (at target (parts_of parts.now)) (at value (parts_of parts.now))) }
{
    match ledger.generated_as(spelling_at(parts, target)) {
        Some(GeneratedKind::SuperFn(class)) => add_super_at(class.0, parts, value, functions),
        _ => Ok(()),
    }
}

/// Adds the i-th part, which is the function of this class. Fails on allocation failure alone.
#[tactic(auto, using(es_owed::proofs::Nodes::number_of_node))]
fn add_super_at(
    class: u32,
    parts: &[Part],
    i: usize,
    functions: &mut Vec<SuperFunction>,
) -> Result<(), AllocError>
    ensures { OnOk result (super_functions_of functions.new.items ≡ super_functions_of functions.old.items ++ super_at class (at i (parts_of parts.now))) }
{
    match part_at(parts, i) {
        Some(Part::Child(node)) => {
            functions.push(SuperFunction {
                node: node.node_id().0,
                class,
            })?;
            Ok(())
        }
        _ => Ok(()),
    }
}

// ---- marks in functions for `super(..)`

/// The mark, but a plain use where it stands in a function for `super(..)` whose class needs its name.
pub fn with_super<'a>(search: &Search, functions: &SuperFunctions, mark: Mark<'a>) -> Mark<'a>
    ensures { mark_of result ≡ spec.with_super search.now.ledger.now (private_members_of search.now.members.now) (super_functions_of functions.now.functions.items) (mark_of mark.entry) }
{
    if is_needed(mark.form) && functions.is_given_with(search, &mark) {
        Mark {
            form: MarkForm::Uses,
            ..mark
        }
    } else {
        mark
    }
}

/// Whether the name has to be given in front of one of these classes.
fn any_needs(search: &Search, name: &str, classes: &[u32]) -> bool
    ensures { result ≡ list_any (needs (private_members_of search.now.members.now) search.now.ledger.now (chars name.now)) classes.now }
{
    for class in classes {
        if needs_name(search, *class, name) {
            return true;
        }
    }
    false
}

/// Whether the name has to be given in front of this class.
fn needs_name(search: &Search, class: u32, name: &str) -> bool
    ensures { result ≡ needs (private_members_of search.now.members.now) search.now.ledger.now (chars name.now) class }
{
    is_one_of(name, search.needed_by(class))
}

/// Whether the name is one of these.
fn is_one_of(name: &str, entries: &[&LedgerEntry]) -> bool
    ensures { result ≡ is_among (chars name.now) (names_of entries.now) }
{
    for entry in entries {
        if is_word(name, entry.name.as_str()) {
            return true;
        }
    }
    false
}
