// What is known inside of a node, part by part.

ghost use Rattle.std.specs.Prelude.{◌≡◌, ℕ, IfOk, MatchOption, None, Some, cond, option_map};
ghost use Rattle.std.specs.Str.{chars};
ghost use Rattle.es_base.specs.Tree.{child};
ghost use Rattle.es_node.specs.View.{kind_of, number_in, parts_in, parts_of};
ghost use Rattle.es_steps.specs.Context as spec;
ghost use Rattle.es_steps.specs.Parts.{at};
ghost use Rattle.es_steps.specs.References as references;
ghost use Rattle.es_steps.specs.Scopes as scopes;
ghost use Rattle.es_seen_names.specs.Declarations.{declarations};
ghost use Rattle.es_seen_names.specs.Frames.{names_in};
ghost use Rattle.es_code_reading.specs.Contexts.{Seen, context_of, context_with, frame_in, role_of, where_seen};

use crate::context::{Around, Context, FunctionRole, Terms, This};
use es_base::kind::Kind;
use es_base::ledger::GeneratedKind;
use es_base::strings::spells;
use es_binding_faults::hoisted::part_at;
use es_binding_faults::scopes::is_body_part;
use es_binding_faults::vars::{catches_a_name, takes_vars};
use es_codes::event::Home;
use es_generated::ledger::Ledger;
use es_generated::numbers::is_new;
use es_node::node::{Node, Part};
use es_seen_names::class_in::class_in;
use es_seen_names::declaration::Declaration;
use es_seen_names::names::Names;
use es_seen_names::parts::{is_present_at, is_true_at, name_at, string_at};
use es_seen_names::scope::names_seen;
use es_seen_names::super_call::{initializing_call, rest_at};
use std::alloc::{AllocError, Global};

/// How a node changes what is known inside of it.
#[derive(Debug, Clone, Copy, PartialEq, Eq)]
pub enum Frame {
    Function,
    Arrow,
    Class,
    Field,
    Method,
    StaticBlock,
    Object,
    Property,
    Assignment,
    Declarator,
    Same,
}

/// How nodes of this kind do.
fn frame_of(kind: Kind) -> Frame
    ensures { frame_in result ≡ spec.frame_of kind }
{
    match kind {
        Kind::FunctionDeclaration | Kind::FunctionExpression => Frame::Function,
        Kind::ArrowFunctionExpression => Frame::Arrow,
        Kind::ClassDeclaration | Kind::ClassExpression => Frame::Class,
        Kind::PropertyDefinition => Frame::Field,
        Kind::MethodDefinition => Frame::Method,
        Kind::StaticBlock => Frame::StaticBlock,
        Kind::ObjectExpression => Frame::Object,
        Kind::Property => Frame::Property,
        Kind::AssignmentExpression => Frame::Assignment,
        Kind::VariableDeclarator => Frame::Declarator,
        _ => Frame::Same,
    }
}

// ---- functions and elements

/// In a function that is no arrow.
fn in_function<'a>(terms: &Terms, node: u32, parts: &'a [Part], around: Around<'a>) -> Around<'a>
    ensures { (seen : Seen) → context_with terms.now seen result ≡ spec.in_function (role_of around.entry.role) node (parts_of parts.now) (context_with terms.now seen around.entry) }
{
    let in_new_function = is_new(terms.first_new, node);
    let rest_name = rest_at(parts, 1);
    match around.role {
        FunctionRole::Function => Around {
            this: This::Of(node),
            new_target: Some(node),
            arguments: Some(node),
            home: None,
            constructs: None,
            in_new_function,
            rest_name,
            ..around
        },
        FunctionRole::ConstructorOf(class) => Around {
            this: This::Of(class),
            new_target: Some(class),
            arguments: Some(class),
            home: Some(Home::OfPrototype(class)),
            constructs: if around.has_heritage {
                Some(class)
            } else {
                None
            },
            initializing: initializing_call(parts),
            in_new_function,
            rest_name,
            ..around
        },
        FunctionRole::MethodOn(home) => Around {
            this: This::Of(node),
            new_target: Some(node),
            arguments: Some(node),
            home: Some(home),
            constructs: None,
            in_new_function,
            rest_name,
            ..around
        },
        FunctionRole::SuperFunctionOf(class) => Around {
            this: This::Of(class),
            new_target: None,
            arguments: Some(node),
            home: None,
            constructs: None,
            in_new_function,
            rest_name,
            ..around
        },
    }
}

/// In the value of a field or in a static block, where no `await` or `yield` of the code around can stand.
fn in_element<'a>(terms: &Terms, is_static: bool, around: Around<'a>) -> Around<'a>
    ensures { (seen : Seen) → context_with terms.now seen result ≡ spec.in_element is_static (context_with terms.now seen around.entry) }
{
    let class = around.class;
    Around {
        this: if is_static {
            This::Class(class)
        } else {
            This::Of(class)
        },
        new_target: None,
        arguments: Some(class),
        home: Some(if is_static {
            Home::OfClass(class)
        } else {
            Home::OfPrototype(class)
        }),
        constructs: None,
        in_new_function: true,
        ..around
    }
}

// ---- what a function is

/// Whether a method is a constructor.
pub fn is_constructor(kind: &str) -> bool
    ensures { result ≡ spec.is_constructor (chars kind.now) }
{
    spells(kind, "constructor")
}

/// The function of a method of a class.
fn method_role(kind: &str, is_static: bool, class: u32) -> FunctionRole
    ensures { role_of result ≡ spec.method_role (chars kind.now) is_static class }
{
    if is_constructor(kind) {
        FunctionRole::ConstructorOf(class)
    } else if is_static {
        FunctionRole::MethodOn(Home::OfClass(class))
    } else {
        FunctionRole::MethodOn(Home::OfPrototype(class))
    }
}

/// The function of a property of an object.
fn property_role(kind: &str, is_method: bool, object: u32) -> FunctionRole
    ensures { role_of result ≡ spec.property_role (chars kind.now) is_method object }
{
    if is_method || spells(kind, "get") || spells(kind, "set") {
        FunctionRole::MethodOn(Home::OfObject(object))
    } else {
        FunctionRole::Function
    }
}

/// The function that this name is assigned.
fn role_of_generated(name: &str, ledger: &Ledger) -> FunctionRole
    ensures { role_of result ≡ spec.role_of_generated (spec.generated_as (chars name.now) ledger.now) }
{
    match ledger.generated_as(name) {
        Some(GeneratedKind::SuperFn(class)) => FunctionRole::SuperFunctionOf(class.0),
        _ => FunctionRole::Function,
    }
}

/// What a function is that stands as the i-th part of a node.
fn role_in(frame: Frame, parts: &[Part], i: usize, terms: &Terms, around: Around) -> FunctionRole
    ensures { (seen : Seen) → role_of result ≡ spec.role_in (frame_in frame) (parts_of parts.now) i (context_with terms.now seen around.entry) }
{
    match frame {
        Frame::Method => {
            if i == 1 {
                method_role(string_at(parts, 2), is_true_at(parts, 4), around.class)
            } else {
                FunctionRole::Function
            }
        }
        Frame::Property => {
            if i == 1 {
                property_role(string_at(parts, 2), is_true_at(parts, 3), around.object)
            } else {
                FunctionRole::Function
            }
        }
        Frame::Assignment => {
            if i == 2 {
                role_of_generated(name_at(parts, 1), terms.ledger)
            } else {
                FunctionRole::Function
            }
        }
        Frame::Declarator => {
            if i == 1 {
                role_of_generated(name_at(parts, 0), terms.ledger)
            } else {
                FunctionRole::Function
            }
        }
        _ => FunctionRole::Function,
    }
}

// ---- the class that a `let` names

/// The identifier at the first place.
fn first_identifier(parts: &[Part]) -> Option<u32>
    ensures { MatchOption result
        ((n : ℕ) → spec.let_class_of None (Some n) (at 0 (parts_of parts.now)) ≡ None)
        (λ b. (n : ℕ) → spec.let_class_of None (Some n) (at 0 (parts_of parts.now)) ≡ Some (n, b)) }
{
    match part_at(parts, 0) {
        Some(Part::Child(node)) => identifier(node),
        _ => None,
    }
}

fn identifier(node: &Node) -> Option<u32>
    ensures { MatchOption result
        ((n : ℕ) → spec.let_class_of None (Some n) (child node.now) ≡ None)
        (λ b. (n : ℕ) → spec.let_class_of None (Some n) (child node.now) ≡ Some (n, b)) }
{
    match node.kind() {
        Kind::BindingIdentifier => Some(node.node_id().0),
        _ => None,
    }
}

/// The class in the initializer of a new declarator, and the identifier that it declares, unless that is a generated
/// name. Fails on allocation failure alone.
fn let_class(alloc: Global, terms: &Terms, parts: &[Part]) -> Result<Option<(u32, u32)>, AllocError>
    ensures { IfOk result (λ r. r ≡ spec.let_class_of (spec.generated_as (spec.name_in (at 0 (parts_of parts.now))) terms.now.ledger.now) (scopes.class_in (at 1 (parts_of parts.now))) (at 0 (parts_of parts.now))) }
{
    if terms.ledger.generated_as(name_at(parts, 0)).is_some() {
        return Ok(None);
    }
    let class = match part_at(parts, 1) {
        Some(init) => class_in(alloc, init)?,
        None => None,
    };
    Ok(match class {
        Some(class) => match first_identifier(parts) {
            Some(binding) => Some((class, binding)),
            None => None,
        },
        None => None,
    })
}

// ---- inside of a node

/// In the i-th part of a class.
fn in_class<'a>(
    terms: &Terms,
    node: u32,
    parts: &'a [Part],
    i: usize,
    around: Around<'a>,
) -> Around<'a>
    ensures { (seen : Seen) → context_with terms.now seen result ≡ spec.framed spec.class_frame node (parts_of parts.now) i (context_with terms.now seen around.entry) }
{
    if i == 2 {
        Around {
            class: node,
            has_heritage: is_present_at(parts, 1),
            ..around
        }
    } else {
        around
    }
}

/// In the i-th part of a field.
fn in_field<'a>(
    terms: &Terms,
    node: u32,
    parts: &'a [Part],
    i: usize,
    around: Around<'a>,
) -> Around<'a>
    ensures { (seen : Seen) → context_with terms.now seen result ≡ spec.framed spec.field_frame node (parts_of parts.now) i (context_with terms.now seen around.entry) }
{
    if i == 1 {
        in_element(terms, is_true_at(parts, 3), around)
    } else {
        around
    }
}

/// In a declarator. Fails on allocation failure alone.
fn in_declarator<'a>(
    alloc: Global,
    terms: &Terms,
    node: u32,
    parts: &'a [Part],
    around: Around<'a>,
) -> Result<Around<'a>, AllocError>
    ensures { IfOk result (λ r. (i : ℕ) (seen : Seen) → context_with terms.now seen r ≡ spec.framed spec.declarator_frame node (parts_of parts.now) i (context_with terms.now seen around.entry)) }
{
    if is_new(terms.first_new, node) {
        let let_class = let_class(alloc, terms, parts)?;
        Ok(Around {
            let_class,
            ..around
        })
    } else {
        Ok(around)
    }
}

/// What a node says of its i-th part, but for what it is. Fails on allocation failure alone.
fn framed<'a>(
    alloc: Global,
    terms: &Terms,
    frame: Frame,
    node: u32,
    parts: &'a [Part],
    i: usize,
    around: Around<'a>,
) -> Result<Around<'a>, AllocError>
    ensures { IfOk result (λ r. (seen : Seen) → context_with terms.now seen r ≡ spec.framed (frame_in frame) node (parts_of parts.now) i (context_with terms.now seen around.entry)) }
{
    match frame {
        Frame::Function => Ok(in_function(terms, node, parts, around)),
        Frame::Arrow => Ok(Around {
            in_new_function: is_new(terms.first_new, node),
            rest_name: rest_at(parts, 0),
            ..around
        }),
        Frame::Class => Ok(in_class(terms, node, parts, i, around)),
        Frame::Field => Ok(in_field(terms, node, parts, i, around)),
        Frame::StaticBlock => Ok(in_element(terms, true, around)),
        Frame::Object => Ok(Around {
            object: node,
            ..around
        }),
        Frame::Declarator => in_declarator(alloc, terms, node, parts, around),
        Frame::Method | Frame::Property | Frame::Assignment | Frame::Same => Ok(around),
    }
}

/// What is known in the i-th part of a node, what is seen aside. Fails on allocation failure alone.
pub fn around_inside<'a>(
    alloc: Global,
    c: &Context<'_, 'a>,
    node: &'a Node,
    i: usize,
) -> Result<Around<'a>, AllocError>
    ensures { IfOk result (λ r. (seen : Seen) → context_with c.now.terms.now seen r
        ≡ where_seen seen (spec.inside (context_of c.now) (kind_of node.now) (number_in node.now) (parts_in node.now) i)) }
{
    let kind = node.kind();
    let frame = frame_of(kind);
    let parts = node.parts();
    let around = framed(alloc, c.terms, frame, node.node_id().0, parts, i, c.around)?;
    Ok(Around {
        role: role_in(frame, parts, i, c.terms, c.around),
        is_body: is_body_part(kind, i),
        ..around
    })
}

// ---- what a function in a block is seen by (B.3.2, B.3.4)

/// The names that the i-th part of a node sees of its scope, but for the name that a catch declares. Fails on allocation
/// failure alone.
#[tactic(auto, using(crate::proofs::Catches::caught, crate::proofs::Catches::class_around, crate::proofs::Catches::seen_around))]
pub fn names_around<'a>(
    alloc: Global,
    is_body: bool,
    node: &'a Node,
    i: usize,
) -> Result<Vec<Declaration<'a>>, AllocError>
    ensures { IfOk result (λ r. declarations r.items ≡ references.names_around is_body (kind_of node.now) (number_in node.now) (parts_in node.now) i) }
{
    if catches_a_name(node.kind(), node.parts()) {
        return Ok(Vec::new(alloc));
    }
    match node.kind() {
        // class A {}, whose name is not seen around
        Kind::ClassDeclaration => Ok(Vec::new(alloc)),
        _ => names_seen(alloc, is_body, node, i),
    }
}

/// Those of the names around a node of this kind that no catch in the function around its parts declares as a name: all of them,
/// if the node is itself that function, an arrow or a static block.
pub fn uncaught_around<'r, 'a>(c: &Context<'r, 'a>, kind: Kind) -> Names<'r, 'a>
    ensures { names_in result ≡ cond (references.takes_vars kind) (names_in c.now.names) (names_in c.now.uncaught) }
{
    if takes_vars(kind) {
        c.names
    } else {
        c.uncaught
    }
}

/// What is seen around the block, the cases or the `if` that a function stands in which is declared in a node of this kind.
pub fn block_inside<'r, 'a>(c: &Context<'r, 'a>, kind: Kind) -> Option<Names<'r, 'a>>
    ensures { option_map names_in result ≡ spec.around_inside (context_of c.now) kind }
{
    match kind {
        Kind::BlockStatement => {
            if c.around.is_body {
                None
            } else {
                Some(c.uncaught)
            }
        }
        Kind::SwitchStatement => Some(c.uncaught),
        Kind::SwitchCase | Kind::LabeledStatement => c.block,
        Kind::IfStatement => match c.block {
            Some(block) => Some(block),
            None => Some(c.uncaught),
        },
        _ => None,
    }
}
