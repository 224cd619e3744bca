// Declaring identifiers and lists of statements stay in their functions, and the identifiers keep their spelling.

ghost use Rattle.std.specs.Prelude.{◌≡◌, ◌&&◌, ◌||◌, ◌++◌, [], ℕ, map, IfOk, OnOk};
ghost use Rattle.std.specs.Str.{chars};
ghost use Rattle.es_base.specs.Tree.{nullable, nullable_trees, trees};
ghost use Rattle.es_binding_faults.specs.Seen.{seen};
ghost use Rattle.es_by_number.specs.Numbered.{pairs};
ghost use Rattle.es_grouped.specs.Groups.{group};
ghost use Rattle.es_node.specs.View.{kind_of, number_in, part_of, parts_in, parts_of};
ghost use Rattle.es_steps.specs.KeptNodes as spec;
ghost use Rattle.es_steps.specs.KeptNodes.{all_at_home, all_homes, block_numbers, function_around, has_home, home_fits, homed, homes, homes_at, homes_of, is_constructor_part, is_own_name_part, is_underscored, lowered_blocks, name_fits, name_of, stands_at_home, stands_nowhere};
ghost use Rattle.es_owed.specs.Homes.{block_number, home_here, home_within, homed_all, homed_here, homed_numbered, homes_from, is_nowhere};

use crate::listed::Listed;
use crate::numbers::set_of;
use es_base::ids::NodeId;
use es_base::kind::Kind;
use es_base::strings::is_word;
use es_binding_faults::numbers::Numbers;
use es_by_number::numbered::Numbered;
use es_generated::numbers::is_new;
use es_grouped::Grouped;
use es_node::node::{Node, Part};
use es_seen_names::parts::string_at;
use es_steps::options::Options;
use es_tree::class::MethodDefinitionRef;
use es_validity::class::is_constructor;
use std::alloc::{AllocError, Global};

/// A declaring identifier or a list of statements.
#[derive(Debug, Clone, Copy)]
pub struct Homed<'a> {
    pub number: u32,
    /// The function or static block around it.
    pub home: u32,
    pub spelling: &'a str,
    /// Whether it is the own name of a class expression.
    pub is_own_name: bool,
    pub in_constructor: bool,
}

/// What is around a part.
#[derive(Debug, Clone, Copy)]
pub struct Around {
    /// The function or static block.
    pub function: u32,
    /// Whether the part is the own name of a class expression.
    pub is_own_name: bool,
    pub in_constructor: bool,
}

/// Whether the declaring identifiers and the lists of statements of the source stay in their functions, and the identifiers
/// keep their spelling. What stands in a static block that is lowered may get a new function, the own name of a class
/// expression may go, and a name in a constructor may get one that begins with `_`. Fails on allocation failure alone.
#[tactic(auto, using(crate::proofs::HomesKept::same_at_home))]
pub fn homes_kept(
    alloc: Global,
    first: u32,
    options: &Options,
    source: &Listed,
    lowered: &Listed,
) -> Result<bool, AllocError>
    ensures { IfOk result (λ holds. holds ≡ spec.homes_kept first options.now source.now.program.now lowered.now.program.now) }
{
    let numbers = lowered_blocks(alloc, options, source)?;
    let blocks = set_of(alloc, numbers.as_slice())?;
    let there = all_homes(alloc, source.program)?;
    let found = Homes::of(alloc, lowered.program)?;
    Ok(all_at_home(first, &blocks, there.as_slice(), &found))
}

// ---- static blocks

/// The static blocks that are lowered. Fails on allocation failure alone.
fn lowered_blocks(alloc: Global, options: &Options, source: &Listed) -> Result<Vec<u32>, AllocError>
    ensures { IfOk result (λ blocks. blocks.items ≡ lowered_blocks options.now source.now.program.now) }
{
    if options.es2022.class_static_block {
        block_numbers(alloc, source.nodes.as_slice())
    } else {
        Ok(Vec::new(alloc))
    }
}

#[tactic(auto, using(crate::proofs::HomesKept::block_more))]
fn block_numbers(alloc: Global, nodes: &[&Node]) -> Result<Vec<u32>, AllocError>
    ensures { IfOk result (λ blocks. blocks.items ≡ block_numbers (seen nodes.now)) }
{
    let mut blocks = Vec::new(alloc);
    for node in nodes {
        add_block(node, &mut blocks)?;
    }
    Ok(blocks)
}

/// Adds the number of a static block. Fails on allocation failure alone.
#[tactic(auto, using(crate::proofs::HomesKept::block_node))]
fn add_block(node: &Node, blocks: &mut Vec<u32>) -> Result<(), AllocError>
    ensures { OnOk result (blocks.new.items ≡ blocks.old.items ++ block_number node.now) }
{
    if is_static_block(node.kind()) {
        blocks.push(node.node_id().0)?;
    }
    Ok(())
}

// ---- the walk

/// The declaring identifiers and lists of statements of a program. Fails on allocation failure alone.
#[tactic(auto, using(crate::proofs::Nodes::number_of_node))]
fn all_homes(alloc: Global, program: &Node) -> Result<Vec<Homed<'_>>, AllocError>
    ensures { IfOk result (λ found. homed_all found.items ≡ all_homes program.now) }
{
    let mut found = Vec::new(alloc);
    let around = Around {
        function: program.node_id().0,
        is_own_name: false,
        in_constructor: false,
    };
    add_homes(around, program, &mut found)?;
    Ok(found)
}

/// Adds those of a node that stands so. Fails on allocation failure alone.
#[cycle(homes)]
#[tactic(auto, using(es_node::proofs::Below::nodes_in))]
fn add_homes<'a>(
    around: Around,
    node: &'a Node,
    found: &mut Vec<Homed<'a>>,
) -> Result<(), AllocError>
    ensures { OnOk result (homed_all found.new.items ≡ homed_all found.old.items ++ homes (home_here around) node.now) }
{
    add_homed(around, node, found)?;
    add_homes_in(around, node, node.parts(), found)
}

/// Adds those of the parts of a node. Fails on allocation failure alone.
#[cycle(homes)]
fn add_homes_in<'a>(
    around: Around,
    node: &Node,
    parts: &'a [Part],
    found: &mut Vec<Homed<'a>>,
) -> Result<(), AllocError>
    ensures { OnOk result (homed_all found.new.items ≡ homed_all found.old.items ++ homes_from (home_within (home_here around) node.now) 0 (parts_of parts.now)) }
{
    for (i, part) in parts.iter().enumerate() {
        add_homes_at(home_in(around, node, i), part, found)?;
    }
    Ok(())
}

#[cycle(homes)]
fn add_homes_at<'a>(
    around: Around,
    part: &'a Part,
    found: &mut Vec<Homed<'a>>,
) -> Result<(), AllocError>
    ensures { OnOk result (homed_all found.new.items ≡ homed_all found.old.items ++ homes_at (home_here around) (part_of part.now)) }
{
    match part {
        Part::Child(node) => add_homes(around, node, found),
        Part::List(nodes) => add_homes_of_list(around, nodes.as_slice(), found),
        Part::Holes(nodes) => add_homes_of_list_with_holes(around, nodes.as_slice(), found),
        _ => Ok(()),
    }
}

#[cycle(homes)]
fn add_homes_of_list<'a>(
    around: Around,
    nodes: &'a [Node],
    found: &mut Vec<Homed<'a>>,
) -> Result<(), AllocError>
    ensures { OnOk result (homed_all found.new.items ≡ homed_all found.old.items ++ homes_of (home_here around) (trees nodes.now)) }
{
    for node in nodes {
        add_homes(around, node, found)?;
    }
    Ok(())
}

#[cycle(homes)]
fn add_homes_of_list_with_holes<'a>(
    around: Around,
    nodes: &'a [Option<Node>],
    found: &mut Vec<Homed<'a>>,
) -> Result<(), AllocError>
    ensures { OnOk result (homed_all found.new.items ≡ homed_all found.old.items ++ homes_of (home_here around) (nullable_trees nodes.now)) }
{
    for node in nodes {
        add_homes_of_hole(around, node, found)?;
    }
    Ok(())
}

#[cycle(homes)]
fn add_homes_of_hole<'a>(
    around: Around,
    node: &'a Option<Node>,
    found: &mut Vec<Homed<'a>>,
) -> Result<(), AllocError>
    ensures { OnOk result (homed_all found.new.items ≡ homed_all found.old.items ++ homes_at (home_here around) (nullable node.now)) }
{
    match node {
        Some(node) => add_homes(around, node, found),
        None => Ok(()),
    }
}

/// Adds the node, if it is a declaring identifier or a list of statements. Fails on allocation failure alone.
fn add_homed<'a>(
    around: Around,
    node: &'a Node,
    found: &mut Vec<Homed<'a>>,
) -> Result<(), AllocError>
    ensures { OnOk result (homed_all found.new.items ≡ homed_all found.old.items ++ homed (home_here around) (kind_of node.now) (number_in node.now) (parts_in node.now)) }
{
    if has_home(node.kind()) {
        found.push(Homed {
            number: node.node_id().0,
            home: around.function,
            spelling: name_of(node),
            is_own_name: around.is_own_name,
            in_constructor: around.in_constructor,
        })?;
    }
    Ok(())
}

// ---- by their numbers

/// The declaring identifiers and lists of statements of a program, also by their numbers.
#[derive(Drop)]
pub struct Homes<'a> {
    pub list: Vec<Homed<'a>>,
    pub by_number: Grouped<Homed<'a>>,

    ghost are_its: { (m : ℕ) → homed_all (group m by_number) ≡ homed_numbered m (homed_all list.items) },
}

impl<'a> Homes<'a> {
    /// Those of this program. Fails on allocation failure alone.
    fn of(alloc: Global, program: &'a Node) -> Result<Homes<'a>, AllocError>
        ensures { IfOk result (λ h. homed_all h.list.items ≡ all_homes program.now) }
    {
        let list = all_homes(alloc, program)?;
        let by_number = by_number(alloc, list.as_slice())?;
        Ok(Homes { list, by_number })
    }

    /// Those of this number: at most one, where no number stands twice.
    fn numbered(&self, number: u32) -> &[Homed<'a>]
        ensures { homed_all result.now ≡ homed_numbered number (homed_all self.now.list.items) }
    {
        self.by_number.get(number)
    }
}

fn by_number<'a>(alloc: Global, homes: &[Homed<'a>]) -> Result<Grouped<Homed<'a>>, AllocError>
    ensures { IfOk result (λ g. (m : ℕ) → homed_all (group m g) ≡ homed_numbered m (homed_all homes.now)) }
{
    let items = with_numbers(alloc, homes)?;
    Grouped::of(alloc, items)
}

/// These, each with its number. Fails on allocation failure alone.
fn with_numbers<'a>(
    alloc: Global,
    homes: &[Homed<'a>],
) -> Result<Vec<Numbered<Homed<'a>>>, AllocError>
    ensures { IfOk result (λ r. pairs r.items ≡ map (λ h. (h.number, h)) homes.now) }
{
    let mut items = Vec::new(alloc);
    for homed in homes {
        items.push(Numbered {
            number: homed.number,
            value: *homed,
        })?;
    }
    Ok(items)
}

// ---- at a node

fn is_static_block(kind: Kind) -> bool
    ensures { result ≡ spec.is_static_block kind }
{
    matches!(kind, Kind::StaticBlock)
}

fn has_home(kind: Kind) -> bool
    ensures { result ≡ has_home kind }
{
    matches!(
        kind,
        Kind::BindingIdentifier | Kind::BlockStatement | Kind::SwitchCase
    )
}

/// The name of an identifier that declares.
#[tactic(auto, using(crate::proofs::HomesKept::no_name, es_seen_names::proofs::Strings::no_characters))]
fn name_of(node: &Node) -> &str
    ensures { chars result.now ≡ name_of (kind_of node.now) (parts_in node.now) }
{
    match node.kind() {
        Kind::BindingIdentifier => string_at(node.parts(), 0),
        _ => "",
    }
}

/// What is around the i-th part of a node that stands so.
#[tactic(auto, using(crate::proofs::HomesKept::home_node))]
fn home_in(around: Around, node: &Node, i: usize) -> Around
    ensures { home_here result ≡ home_within (home_here around) node.now i }
{
    Around {
        function: function_around(around.function, node, i),
        is_own_name: is_own_name_part(node.kind(), i),
        in_constructor: around.in_constructor || is_constructor_part(node, i),
    }
}

/// The function or static block around the i-th part of a node with this one around it.
#[tactic(auto, using(crate::proofs::HomesKept::no_function))]
pub fn function_around(home: u32, node: &Node, i: usize) -> u32
    ensures { result ≡ function_around home (kind_of node.now) (number_in node.now) i }
{
    match node.kind() {
        Kind::FunctionDeclaration => { if i == 0 { home } else { node.node_id().0 } }
        Kind::FunctionExpression | Kind::ArrowFunctionExpression | Kind::StaticBlock => {
            node.node_id().0
        }
        _ => home,
    }
}

#[tactic(auto, using(crate::proofs::HomesKept::no_own_name))]
fn is_own_name_part(kind: Kind, i: usize) -> bool
    ensures { result ≡ is_own_name_part kind i }
{
    match kind {
        Kind::ClassExpression => i == 0,
        _ => false,
    }
}

/// Whether the i-th part of the node is the function of a constructor.
#[tactic(auto, using(crate::proofs::HomesKept::no_method))]
pub fn is_constructor_part(node: &Node, i: usize) -> bool
    ensures { result ≡ is_constructor_part (kind_of node.now) (parts_in node.now) i }
{
    match node.kind() {
        Kind::MethodDefinition => {
            i == 1 && is_constructor(MethodDefinitionRef::from_node(node).kind)
        }
        _ => false,
    }
}

// ---- what stays

/// Whether each of those of the source stays, but own names of class expressions that are found nowhere.
fn all_at_home(first: u32, blocks: &Numbers, there: &[Homed], found: &Homes) -> bool
    ensures { result ≡ all_at_home first blocks.now (homed_all there.now) (homed_all found.now.list.items) }
{
    for homed in there {
        if !is_at_home(first, blocks, *homed, found) {
            return false;
        }
    }
    true
}

#[tactic(auto, using(crate::proofs::HomesKept::nowhere))]
fn is_at_home(first: u32, blocks: &Numbers, homed: Homed, found: &Homes) -> bool
    ensures { result ≡ (stands_at_home first blocks.now (homed_here homed.entry) (homed_all found.now.list.items) || (homed.entry.is_own_name && stands_nowhere first blocks.now (homed_here homed.entry) (homed_all found.now.list.items))) }
{
    stands_at_home(first, blocks, homed, found)
        || (homed.is_own_name && stands_nowhere(homed.number, found))
}

fn stands_at_home(first: u32, blocks: &Numbers, homed: Homed, found: &Homes) -> bool
    ensures { result ≡ stands_at_home first blocks.now (homed_here homed.entry) (homed_all found.now.list.items) }
{
    any_fits(first, blocks, homed, found.numbered(homed.number))
}

/// Whether one of these has the number of the first, a home and a name that the first may get.
fn any_fits(first: u32, blocks: &Numbers, homed: Homed, found: &[Homed]) -> bool
    ensures { result ≡ stands_at_home first blocks.now (homed_here homed.entry) (homed_all found.now) }
{
    for other in found {
        if homed.number == other.number && fits(first, blocks, homed, *other) {
            return true;
        }
    }
    false
}

/// Whether the second is at a home and has a name that the first may get.
fn fits(first: u32, blocks: &Numbers, homed: Homed, other: Homed) -> bool
    ensures { result ≡ (home_fits first blocks.now (homed_here homed.entry) (homed_here other.entry) && name_fits first blocks.now (homed_here homed.entry) (homed_here other.entry)) }
{
    home_fits(first, blocks, homed, other) && name_fits(homed, other)
}

fn home_fits(first: u32, blocks: &Numbers, homed: Homed, other: Homed) -> bool
    ensures { result ≡ home_fits first blocks.now (homed_here homed.entry) (homed_here other.entry) }
{
    homed.is_own_name
        || (homed.home == other.home
            || (blocks.has(NodeId(homed.home)) && is_new(first, other.home)))
}

fn name_fits(homed: Homed, other: Homed) -> bool
    ensures { result ≡ name_fits 0 [] (homed_here homed.entry) (homed_here other.entry) }
{
    is_word(other.spelling, homed.spelling)
        || (homed.in_constructor && is_underscored(other.spelling))
}

/// Whether the string begins with `_`.
pub fn is_underscored(string: &str) -> bool
    ensures { result ≡ is_underscored (chars string.now) }
{
    match string.chars().next() {
        Some(first) => first == '_',
        None => false,
    }
}

/// Whether nothing of this number is found.
#[tactic(auto, using(crate::proofs::HomesKept::nowhere_empty))]
fn stands_nowhere(number: u32, found: &Homes) -> bool
    ensures { result ≡ is_nowhere number (homed_all found.now.list.items) }
{
    found.numbered(number).is_empty()
}
