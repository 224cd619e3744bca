// The function of a private method, which stands behind the statement of its class, is called by its class alone: what may run or
// not around the class is around what stands in it, too.

ghost use Rattle.std.specs.Prelude.{◌≡◌, ◌++◌, ◌∷◌, [], ℕ, IfOk, OnOk};
ghost use Rattle.std.specs.List.{list_any};
ghost use Rattle.es_by_number.specs.Numbered.{numbered};
ghost use Rattle.es_grouped.specs.Groups.{group, having};
ghost use Rattle.es_lowered.specs.Timely as spec;
ghost use Rattle.es_marks.specs.Around.{held_parts, later_function, later_functions, surroundings_of};
ghost use Rattle.es_marks.specs.Marks.{mark_of, marks_of};
ghost use Rattle.es_marks.specs.MethodFunctions.{any_list, held_for, held_list, held_lists, helds, joined, method_function, method_functions, stands_for, with_held};

use crate::around::{HeldPart, LaterFunction, Surroundings};
use crate::in_time::is_around;
use crate::marks::Mark;
use crate::needing::NeedingNames;
use es_by_number::numbered::Numbered;
use es_grouped::Grouped;
use std::alloc::{AllocError, Global};

/// The function of a private method, with its generated name.
#[derive(Debug, Clone, Copy)]
pub struct MethodFunction<'a> {
    pub node: u32,
    pub name: &'a str,
}

/// Functions of private methods, with what holds the classes that need them.
#[derive(Drop)]
pub struct HeldFunctions<'f, 'm, 'a> {
    pub functions: &'f [MethodFunction<'a>],
    pub needing: &'f NeedingNames<'m, 'a>,
    /// What holds the classes, by the numbers of the functions.
    pub by_node: Grouped<&'m [HeldPart]>,

    ghost are_its: { (k : ℕ) → held_lists (group k by_node) ≡ having k (helds (marks_of needing.now.marks.now) (method_functions functions.now)) },
}

impl<'f, 'm, 'a> HeldFunctions<'f, 'm, 'a> {
    /// These functions, where the marks are those of the program. Fails on allocation failure alone.
    pub fn of(
        alloc: Global,
        functions: &'f [MethodFunction<'a>],
        needing: &'f NeedingNames<'m, 'a>,
    ) -> Result<HeldFunctions<'f, 'm, 'a>, AllocError>
        ensures functions { IfOk result (λ h. h.functions.now ≡ functions.now) }
        ensures marks { IfOk result (λ h. h.needing.now.marks.now ≡ needing.now.marks.now) }
    {
        let by_node = by_node(alloc, functions, needing)?;
        Ok(HeldFunctions {
            functions,
            needing,
            by_node,
        })
    }

    /// What holds the classes of those of these functions that run later. Fails on allocation failure alone.
    #[cycle(held)]
    fn held_by(&self, alloc: Global, later: &[LaterFunction]) -> Result<Vec<HeldPart>, AllocError>
        ensures { IfOk result (λ r. held_parts r.items ≡ spec.held_by (marks_of self.now.needing.now.marks.now) (later_functions later.now) (method_functions self.now.functions.now)) }
    {
        match later {
            [] => Ok(Vec::new(alloc)),
            [function, rest @ ..] => self.held_from(alloc, *function, rest, later),
        }
    }

    /// The same of the first that runs later, the rest, and all of them: most marks stand in one such function at most.
    #[cycle(held)]
    fn held_from(
        &self,
        alloc: Global,
        function: LaterFunction,
        rest: &[LaterFunction],
        later: &[LaterFunction],
    ) -> Result<Vec<HeldPart>, AllocError>
        requires { later_functions later.now ≡ later_function function ∷ later_functions rest.now }
        ensures { IfOk result (λ r. held_parts r.items ≡ spec.held_by (marks_of self.now.needing.now.marks.now) (later_functions later.now) (method_functions self.now.functions.now)) }
    {
        if !self.stands_for(function) {
            let held = self.held_by(alloc, rest)?;
            return Ok(held);
        }
        if self.any_stands_for(rest) {
            return held_by_any(alloc, self.needing, later, self.functions);
        }
        let held = joined(alloc, self.held_lists(function.node))?;
        Ok(held)
    }

    /// Whether the function is one of a private method.
    fn stands_for(&self, function: LaterFunction) -> bool
        ensures { result ≡ stands_for (helds (marks_of self.now.needing.now.marks.now) (method_functions self.now.functions.now)) (later_function function) }
    {
        any_list(self.held_lists(function.node))
    }

    /// Whether one of these functions is.
    fn any_stands_for(&self, functions: &[LaterFunction]) -> bool
        ensures { result ≡ list_any (stands_for (helds (marks_of self.now.needing.now.marks.now) (method_functions self.now.functions.now))) (later_functions functions.now) }
    {
        for function in functions {
            if self.stands_for(*function) {
                return true;
            }
        }
        false
    }

    /// What holds the classes of the functions of this number.
    fn held_lists(&self, node: u32) -> &[&'m [HeldPart]]
        ensures { held_lists result.now ≡ having node (helds (marks_of self.now.needing.now.marks.now) (method_functions self.now.functions.now)) }
    {
        self.by_node.get(node)
    }
}

/// The mark, held by what holds the classes that need these functions, where it stands in one. Fails on allocation failure
/// alone.
pub fn with_class<'a>(
    alloc: Global,
    functions: &HeldFunctions,
    mark: &Mark<'a>,
) -> Result<Mark<'a>, AllocError>
    ensures { IfOk result (λ m. mark_of m ≡ spec.with_class (method_functions functions.now.functions.now) (marks_of functions.now.needing.now.marks.now) (mark_of mark.now)) }
{
    let around = with_held(alloc, functions, &mark.around)?;
    Ok(Mark {
        name: mark.name,
        node: mark.node,
        form: mark.form,
        around,
    })
}

/// What is around such a mark. Fails on allocation failure alone.
fn with_held<'a>(
    alloc: Global,
    functions: &HeldFunctions,
    around: &Surroundings<'a>,
) -> Result<Surroundings<'a>, AllocError>
    ensures { IfOk result (λ x. surroundings_of x ≡ with_held (method_functions functions.now.functions.now) (marks_of functions.now.needing.now.marks.now) (surroundings_of around.now)) }
{
    let mut held = functions.held_by(alloc, around.later.as_slice())?;
    held.extend_from_slice(around.held.as_slice())?;
    Ok(Surroundings {
        held,
        later: Vec::from_slice(alloc, around.later.as_slice())?,
        called: Vec::from_slice(alloc, around.called.as_slice())?,
        is_called: around.is_called,
        running: Vec::from_slice(alloc, around.running.as_slice())?,
        class_name: around.class_name,
    })
}

// ---- what holds the classes of several functions

/// What holds the classes of those of these functions that run later. Fails on allocation failure alone.
fn held_by_any(
    alloc: Global,
    needing: &NeedingNames,
    later: &[LaterFunction],
    functions: &[MethodFunction],
) -> Result<Vec<HeldPart>, AllocError>
    ensures { IfOk result (λ r. held_parts r.items ≡ spec.held_by (marks_of needing.now.marks.now) (later_functions later.now) (method_functions functions.now)) }
{
    let mut held = Vec::new(alloc);
    for function in functions {
        add_held_for(needing, later, *function, &mut held)?;
    }
    Ok(held)
}

fn add_held_for(
    needing: &NeedingNames,
    later: &[LaterFunction],
    function: MethodFunction,
    held: &mut Vec<HeldPart>,
) -> Result<(), AllocError>
    ensures { OnOk result (held_parts held.new.items ≡ held_parts held.old.items ++ held_for (marks_of needing.now.marks.now) (later_functions later.now) (method_function function.entry)) }
{
    if is_around(function.node, later) {
        held.extend_from_slice(needing.held_of(function.name))?;
    }
    Ok(())
}

// ---- by the numbers of functions

fn by_node<'m, 'a>(
    alloc: Global,
    functions: &[MethodFunction<'a>],
    needing: &NeedingNames<'m, 'a>,
) -> Result<Grouped<&'m [HeldPart]>, AllocError>
    ensures { IfOk result (λ g. (k : ℕ) → held_lists (group k g) ≡ having k (helds (marks_of needing.now.marks.now) (method_functions functions.now))) }
{
    let items = with_nodes(alloc, functions, needing)?;
    Grouped::of(alloc, items)
}

/// What holds the classes of these functions, each with the number of the function. Fails on allocation failure alone.
fn with_nodes<'m, 'a>(
    alloc: Global,
    functions: &[MethodFunction<'a>],
    needing: &NeedingNames<'m, 'a>,
) -> Result<Vec<Numbered<&'m [HeldPart]>>, AllocError>
    ensures { IfOk result (λ r. numbered held_list r.items ≡ helds (marks_of needing.now.marks.now) (method_functions functions.now)) }
{
    let mut items = Vec::new(alloc);
    for function in functions {
        items.push(Numbered {
            number: function.node,
            value: needing.held_of(function.name),
        })?;
    }
    Ok(items)
}

// ---- lists of parts

fn any_list(lists: &[&[HeldPart]]) -> bool
    ensures { result ≡ any_list (held_lists lists.now) }
{
    match lists {
        [] => false,
        [_, ..] => true,
    }
}

/// All of these. Fails on allocation failure alone.
fn joined(alloc: Global, lists: &[&[HeldPart]]) -> Result<Vec<HeldPart>, AllocError>
    ensures { IfOk result (λ r. held_parts r.items ≡ joined (held_lists lists.now)) }
{
    let mut all = Vec::new(alloc);
    for list in lists {
        all.extend_from_slice(*list)?;
    }
    Ok(all)
}
