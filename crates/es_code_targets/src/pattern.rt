// The codes of patterns. (ECMA-262, 13.15.5 and 14.3.3.)

ghost use Rattle.std.specs.Prelude.{◌≡◌, ◌+◌, ◌∷◌, [], IfOk, OnOk, length};
ghost use Rattle.es_base.specs.declared.kind.Kind.{Kind};
ghost use Rattle.es_codes.specs.CodeView.{code_of, codes_of, target_of};
ghost use Rattle.es_codes.specs.View.{details_of};
ghost use Rattle.es_steps.specs.Code as of;
ghost use Rattle.es_steps.specs.Code.{joined};
ghost use Rattle.es_steps.specs.Members as members;
ghost use Rattle.es_steps.specs.Statements as spec;
ghost use Rattle.es_code_members.specs.MembersView.{item_of, items_in, member_of};
ghost use Rattle.es_code_targets.specs.Patterns.{hole, taken_item};
ghost use Rattle.es_code_targets.specs.PropertyView.{members_of_property};

use crate::key::add_key;
use crate::target::boxed_target;
use es_base::kind::Kind;
use es_base::list::List;
use es_code_members::codes::take_codes;
use es_code_members::member::{Member, flag_of, take_code};
use es_codes::boxed::Boxed;
use es_codes::code::{Code, Target};
use es_codes::event::{Detail, Operation};
use std::alloc::{AllocError, Global};
use std::mem;

/// `t = e` in a pattern. Fails on allocation failure alone.
pub fn default_code(
    alloc: Global,
    node: u32,
    target: &mut Member,
    default: &mut Member,
) -> Result<Code, AllocError>
    ensures { IfOk result (λ c. code_of c ≡ spec.default_code node (members.more (member_of target.old) (members.more (member_of default.old) members.end))) }
{
    let default = Boxed::new(alloc, take_code(default))?;
    let to = boxed_target(alloc, take_code(target))?;
    let to = Boxed::new(alloc, Target::to_default(node, to, default))?;
    Ok(Code::pattern(node, to))
}

/// `...t`. Fails on allocation failure alone.
pub fn rest_code(alloc: Global, target: &mut Member) -> Result<Code, AllocError>
    ensures { IfOk result (λ c. code_of c ≡ spec.rest_code (members.more (member_of target.old) members.end)) }
{
    Ok(Code::rest(boxed_target(alloc, take_code(target))?))
}

/// The number of a target, or this number where it has none.
#[tactic(auto, using(crate::proofs::Numbers::of_name, crate::proofs::Numbers::of_member, crate::proofs::Numbers::of_private, crate::proofs::Numbers::of_super, crate::proofs::Numbers::of_setter, crate::proofs::Numbers::of_pattern, crate::proofs::Numbers::of_default, crate::proofs::Numbers::of_none))]
fn target_number(to: &Target, otherwise: u32) -> u32
    ensures { result ≡ spec.target_number (target_of to.now) otherwise }
{
    match to {
        Target::ToName { node, .. } => *node,
        Target::ToMember { node, .. } => *node,
        Target::ToPrivate { node, .. } => *node,
        Target::ToSuper { node, .. } => *node,
        Target::ToSetter { node, .. } => *node,
        Target::ToPattern { node, .. } => *node,
        Target::ToDefault { node, .. } => *node,
        Target::NoTarget => otherwise,
    }
}

/// What a target takes that no key is evaluated for.
fn taken(alloc: Global, node: u32, details: List<Detail>, to: Boxed<Target>) -> Code
    ensures { code_of result ≡ spec.taken node (details_of details) (target_of to) }
{
    let number = target_number(to.get(), node);
    Code::takes(number, details, List::new(alloc), to)
}

// ---- arrays

/// The i-th element of an array. Fails on allocation failure alone.
#[tactic(auto, using(crate::proofs::Rests::rest_element, crate::proofs::Rests::other_element))]
fn taken_element(alloc: Global, node: u32, i: usize, element: &mut Code) -> Result<Code, AllocError>
    ensures { IfOk result (λ c. code_of c ≡ spec.taken_element node i (code_of element.old)) }
{
    let mut details = List::new(alloc);
    details.push(Detail::Index(i))?;
    match element {
        Code::Rest { to } => {
            details.push(Detail::Rest)?;
            let none = Boxed::new(alloc, Target::no_target())?;
            Ok(taken(alloc, node, details, mem::replace(to, none)))
        }
        _ => {
            let to = boxed_target(alloc, mem::replace(element, Code::nothing()))?;
            Ok(taken(alloc, node, details, to))
        }
    }
}

/// A hole. Fails on allocation failure alone.
fn taken_hole(alloc: Global, node: u32, i: usize) -> Result<Code, AllocError>
    ensures { IfOk result (λ c. code_of c ≡ of.operation node (hole i) of.done of.done) }
{
    let mut details = List::new(alloc);
    details.push(Detail::Index(i))?;
    details.push(Detail::Empty)?;
    Ok(Code::operation(
        node,
        Operation::Take(details),
        List::new(alloc),
        List::new(alloc),
    ))
}

fn taken_item(
    alloc: Global,
    node: u32,
    i: usize,
    item: &mut Option<Code>,
) -> Result<Code, AllocError>
    ensures { IfOk result (λ c. code_of c ≡ taken_item node i (item_of item.old)) }
{
    match item {
        Some(element) => taken_element(alloc, node, i, element),
        None => taken_hole(alloc, node, i),
    }
}

/// Adds what an array gives its next element. Fails on allocation failure alone.
#[tactic(auto, using(es_code_members::proofs::Chaining::joined_one))]
fn add_taken_item(
    alloc: Global,
    node: u32,
    item: &mut Option<Code>,
    taken: &mut List<Code>,
) -> Result<(), AllocError>
    ensures added { OnOk result (codes_of taken.new ≡ joined (codes_of taken.old) (of.and (taken_item node (length taken.old) (item_of item.old)) of.done)) }
    ensures one_more { OnOk result (length taken.new ≡ length taken.old + 1) }
{
    let i = taken.len();
    let code = taken_item(alloc, node, i, item)?;
    taken.push(code)
}

/// The elements of an array, each under the number of its target. Fails on allocation failure alone.
fn taken_items(
    alloc: Global,
    node: u32,
    items: &mut [Option<Code>],
) -> Result<List<Code>, AllocError>
    ensures { IfOk result (λ cs. codes_of cs ≡ spec.elements_from node 0 (items_in items.old)) }
{
    let mut taken = List::new(alloc);
    for item in items.iter_mut() {
        add_taken_item(alloc, node, item, &mut taken)?;
    }
    Ok(taken)
}

fn taken_members(alloc: Global, node: u32, elements: &mut Member) -> Result<List<Code>, AllocError>
    ensures { IfOk result (λ cs. codes_of cs ≡ spec.elements_from node 0 (spec.members_of_list (member_of elements.old))) }
{
    match elements {
        Member::List(items) => taken_items(alloc, node, items.as_mut_slice()),
        _ => Ok(List::new(alloc)),
    }
}

/// `[a, b]`, which is given something. Fails on allocation failure alone.
pub fn array_pattern_code(
    alloc: Global,
    node: u32,
    elements: &mut Member,
) -> Result<Code, AllocError>
    ensures { IfOk result (λ c. code_of c ≡ spec.array_pattern_code node (members.more (member_of elements.old) members.end)) }
{
    let elements = taken_members(alloc, node, elements)?;
    let to = Target::to_pattern(node, Kind::ArrayPattern, elements);
    Ok(Code::pattern(node, Boxed::new(alloc, to)?))
}

// ---- objects

/// What a property of an object takes: a rest takes what is left. Fails on allocation failure alone.
#[tactic(auto, using(crate::proofs::Rests::rest_property, crate::proofs::Rests::other_property))]
fn taken_property(alloc: Global, node: u32, property: &mut Code) -> Result<Code, AllocError>
    ensures { IfOk result (λ c. of.and (code_of c) of.done ≡ spec.taken_properties node (of.and (code_of property.old) of.done)) }
{
    match property {
        Code::Rest { to } => {
            let mut details = List::new(alloc);
            details.push(Detail::Rest)?;
            let none = Boxed::new(alloc, Target::no_target())?;
            Ok(taken(alloc, node, details, mem::replace(to, none)))
        }
        _ => Ok(mem::replace(property, Code::nothing())),
    }
}

/// Adds what an object gives its next property. Fails on allocation failure alone.
#[tactic(auto, using(es_code_members::proofs::Chaining::joined_one))]
fn add_taken_property(
    alloc: Global,
    node: u32,
    property: &mut Code,
    taken: &mut List<Code>,
) -> Result<(), AllocError>
    ensures { OnOk result (codes_of taken.new ≡ joined (codes_of taken.old) (spec.taken_properties node (of.and (code_of property.old) of.done))) }
{
    let code = taken_property(alloc, node, property)?;
    taken.push(code)
}

/// The properties of an object. Fails on allocation failure alone.
fn taken_properties(
    alloc: Global,
    node: u32,
    properties: &mut [Code],
) -> Result<List<Code>, AllocError>
    ensures { IfOk result (λ cs. codes_of cs ≡ spec.taken_properties node (codes_of properties.old)) }
{
    let mut taken = List::new(alloc);
    for property in properties.iter_mut() {
        add_taken_property(alloc, node, property, &mut taken)?;
    }
    Ok(taken)
}

/// `{ k: t }`, which is given something. Fails on allocation failure alone.
pub fn object_pattern_code(
    alloc: Global,
    node: u32,
    properties: &mut Member,
) -> Result<Code, AllocError>
    ensures { IfOk result (λ c. code_of c ≡ spec.object_pattern_code node (members.more (member_of properties.old) members.end)) }
{
    let mut properties = take_codes(alloc, properties)?;
    let properties = taken_properties(alloc, node, properties.as_mut_slice())?;
    let to = Target::to_pattern(node, Kind::ObjectPattern, properties);
    Ok(Code::pattern(node, Boxed::new(alloc, to)?))
}

/// The members of a property, of an object or a pattern: `[k]: v`, `get k() {}`.
#[derive(Drop)]
pub struct PropertyMembers {
    pub key: Member,
    pub value: Member,
    pub kind: Member,
    pub is_method: Member,
    pub is_shorthand: Member,
    pub is_computed: Member,
}

/// `k: t` in a pattern. Fails on allocation failure alone.
#[tactic(auto, using(crate::proofs::KeyDetails::pattern_property, es_code_members::proofs::Chaining::joined_nothing))]
pub fn pattern_property_code(
    alloc: Global,
    node: u32,
    property: &mut PropertyMembers,
) -> Result<Code, AllocError>
    ensures { IfOk result (λ c. code_of c ≡ spec.pattern_property_code node (members_of_property property.old)) }
{
    let is_computed = flag_of(&property.is_computed);
    let mut details = List::new(alloc);
    let mut keys = List::new(alloc);
    add_key(
        alloc,
        &mut property.key,
        is_computed,
        false,
        &mut details,
        &mut keys,
    )?;
    let to = boxed_target(alloc, take_code(&mut property.value))?;
    Ok(Code::takes(node, details, keys, to))
}
