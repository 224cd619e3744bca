// What is around a place of a program.

ghost use Rattle.std.specs.Prelude.{◌≡◌, ◌++◌, IfOk, OnOk};
ghost use Rattle.es_lowered.specs.Timely as spec;
ghost use Rattle.es_marks.specs.Around.{around_here, held_in, held_parts, later_functions, later_in, running_classes, running_in, surroundings_of};

use std::alloc::{AllocError, Global};

/// A part of a node that may run or not, or again.
#[derive(Debug, Clone, Copy)]
pub struct HeldPart {
    pub node: u32,
    pub part: usize,
}

/// A function that runs later.
#[derive(Debug, Clone, Copy)]
pub struct LaterFunction {
    pub node: u32,
    /// Whether it may be called in front of where it stands.
    pub is_early: bool,
}

/// A class whose body has elements that run with it.
#[derive(Debug, Clone, Copy)]
pub struct RunningClass<'a> {
    pub node: u32,
    /// Its own name, or nothing.
    pub name: &'a str,
}

/// Such parts around a place, the innermost first.
#[derive(Clone, Copy)]
pub enum HeldParts<'r> {
    None,
    Inside {
        part: HeldPart,
        outer: &'r HeldParts<'r>,
    },
}

/// Such functions around a place, the innermost first.
#[derive(Clone, Copy)]
pub enum LaterFunctions<'r> {
    None,
    Inside {
        function: LaterFunction,
        outer: &'r LaterFunctions<'r>,
    },
}

/// Such classes whose body is around a place, the innermost first.
#[derive(Clone, Copy)]
pub enum RunningClasses<'r, 'a> {
    None,
    Inside {
        class: RunningClass<'a>,
        outer: &'r RunningClasses<'r, 'a>,
    },
}

/// What is around a place.
#[derive(Clone, Copy)]
pub struct Around<'r, 'a> {
    pub held: HeldParts<'r>,
    pub later: LaterFunctions<'r>,
    /// The same functions, where each function declaration may be called in front of where it stands.
    pub called: LaterFunctions<'r>,
    /// Whether what stands here is called.
    pub is_called: bool,
    pub running: RunningClasses<'r, 'a>,
    /// The own name of the nearest class, or nothing.
    pub class_name: &'a str,
}

/// The same, kept.
#[derive(Debug, Drop)]
pub struct Surroundings<'a> {
    pub held: Vec<HeldPart>,
    pub later: Vec<LaterFunction>,
    pub called: Vec<LaterFunction>,
    pub is_called: bool,
    pub running: Vec<RunningClass<'a>>,
    pub class_name: &'a str,
}

impl<'r, 'a> Around<'r, 'a> {
    /// Around a program.
    #[tactic(auto, using(es_base::proofs::Ascii::chars_ascii))]
    pub fn nowhere() -> Around<'r, 'a>
        ensures { around_here result ≡ spec.nowhere }
    {
        Around {
            held: HeldParts::None,
            later: LaterFunctions::None,
            called: LaterFunctions::None,
            is_called: false,
            running: RunningClasses::None,
            class_name: "",
        }
    }

    /// The same, to be kept. Fails on allocation failure alone.
    pub fn kept(&self, alloc: Global) -> Result<Surroundings<'a>, AllocError>
        ensures { IfOk result (λ r. surroundings_of r ≡ around_here self.now) }
    {
        let mut held = Vec::new(alloc);
        add_held(&self.held, &mut held)?;
        let mut later = Vec::new(alloc);
        add_later(&self.later, &mut later)?;
        let mut called = Vec::new(alloc);
        add_later(&self.called, &mut called)?;
        let mut running = Vec::new(alloc);
        add_running(&self.running, &mut running)?;
        Ok(Surroundings {
            held,
            later,
            called,
            is_called: self.is_called,
            running,
            class_name: self.class_name,
        })
    }
}

/// Adds these parts. Fails on allocation failure alone.
fn add_held(parts: &HeldParts, kept: &mut Vec<HeldPart>) -> Result<(), AllocError>
    ensures { OnOk result (held_parts kept.new.items ≡ held_parts kept.old.items ++ held_in parts.now) }
{
    match parts {
        HeldParts::None => Ok(()),
        HeldParts::Inside { part, outer } => {
            kept.push(*part)?;
            add_held(outer, kept)
        }
    }
}

/// Adds these functions. Fails on allocation failure alone.
fn add_later(functions: &LaterFunctions, kept: &mut Vec<LaterFunction>) -> Result<(), AllocError>
    ensures { OnOk result (later_functions kept.new.items ≡ later_functions kept.old.items ++ later_in functions.now) }
{
    match functions {
        LaterFunctions::None => Ok(()),
        LaterFunctions::Inside { function, outer } => {
            kept.push(*function)?;
            add_later(outer, kept)
        }
    }
}

/// Adds these classes. Fails on allocation failure alone.
fn add_running<'a>(
    classes: &RunningClasses<'_, 'a>,
    kept: &mut Vec<RunningClass<'a>>,
) -> Result<(), AllocError>
    ensures { OnOk result (running_classes kept.new.items ≡ running_classes kept.old.items ++ running_in classes.now) }
{
    match classes {
        RunningClasses::None => Ok(()),
        RunningClasses::Inside { class, outer } => {
            kept.push(*class)?;
            add_running(outer, kept)
        }
    }
}
