// Definitions, looked up by what they define.
//
// What is opened and its definitions have one number, whatever it is: that is all that a look-up rests on. That others have other
// numbers makes it fast.

ghost use Rattle.std.specs.Prelude.{◌≡◌, ℕ, IfOk, map, option_map};
ghost use Rattle.es_by_number.specs.Numbered as by_number;
ghost use Rattle.es_code_rules.specs.Elsewhere.{definition_behind, definition_of, definitions_behind, opened_by};
ghost use Rattle.es_code_rules.specs.Indexed.{numbered_definitions, opened_number};
ghost use Rattle.es_codes.specs.CodeView.{opened_of};
ghost use Rattle.es_grouped.specs.Groups.{group, having};
ghost use Rattle.es_steps.specs.Opening as of;

use crate::definition::Definition;
use es_base::strings::is_word;
use es_binding_faults::leasts::Leasts;
use es_by_number::numbered::Numbered;
use es_codes::code::Opened;
use es_generated::spellings::spelling_number;
use es_grouped::Grouped;
use std::alloc::{AllocError, Global};
use std::marker::Model;

/// Definitions, which contracts see as a list. To look one up takes the same time however many there are.
#[derive(Drop)]
pub struct Definitions<'a> {
    list: &'a [Definition],
    spellings: Leasts<'a>,
    by_number: Grouped<&'a Definition>,
}

impl<'a> Model for Definitions<'a> {
    ghost use Rattle.std.specs.Prelude.{◌≡◌, ℕ, List, map};
    ghost use Rattle.std.specs.Coded.{coded_list};
    ghost use Rattle.es_code_rules.specs.Elsewhere.{definition_of, definitions_behind};
    ghost use Rattle.es_code_rules.specs.Indexed.{numbered_definitions};
    ghost use Rattle.es_code_rules.specs.contracts.definition.Definition as definitions;
    ghost use Rattle.es_code_rules.specs.declared.definition.Definition.{Definition};
    ghost use Rattle.es_grouped.specs.Groups.{group, having};

    ghost Value = { List Definition };

    ghost coded = { coded_list definitions.the_row.coded };

    ghost view = { λ d. d.list.now };

    ghost invariant = { λ d. (m : ℕ) → definitions_behind (group m d.by_number) ≡ having m (numbered_definitions d.spellings (map definition_of d.list.now)) };
}

impl<'a> Definitions<'a> {
    /// These. Fails on allocation failure alone.
    pub fn of(alloc: Global, list: &'a [Definition]) -> Result<Definitions<'a>, AllocError>
        ensures { IfOk result (λ d. d ≡ list.now) }
    {
        let spellings = spellings_of(alloc, list)?;
        let by_number = by_number(alloc, &spellings, list)?;
        Ok(Definitions {
            list,
            spellings,
            by_number,
        })
    }

    /// The first of them that is a definition of what is opened.
    #[tactic(auto, using(crate::proofs::DefinitionNumbers::defined_by_number))]
    pub fn get(&self, opened: &Opened) -> Option<&'a Definition>
        ensures { option_map definition_behind result ≡ of.definition_of (opened_of opened.now) (map definition_of self.now) }
    {
        let number = opened_number(opened, &self.spellings);
        first_among(self.by_number.get(number), opened)
    }
}

/// Whether it is a definition of what is opened.
pub fn is_opened(definition: &Definition, opened: &Opened) -> bool
    ensures { result ≡ of.defines (opened_of opened.now) (definition_of definition.now) }
{
    match opened {
        Opened::InitializersOf(opened) => match definition {
            Definition::OfClass { class, .. } => *opened == *class,
            Definition::OfName { .. } => false,
            Definition::OfCalled { .. } => false,
        },
        Opened::BodyOf(opened) => match definition {
            Definition::OfClass { .. } => false,
            Definition::OfName { name, .. } => is_word(name.as_str(), opened.as_str()),
            Definition::OfCalled { .. } => false,
        },
        Opened::CalledBodyOf(opened) => match definition {
            Definition::OfClass { .. } => false,
            Definition::OfName { .. } => false,
            Definition::OfCalled { name, .. } => is_word(name.as_str(), opened.as_str()),
        },
    }
}

fn first_among<'a>(definitions: &[&'a Definition], opened: &Opened) -> Option<&'a Definition>
    ensures { option_map definition_behind result ≡ of.definition_of (opened_of opened.now) (definitions_behind definitions.now) }
{
    for definition in definitions {
        if is_opened(definition, opened) {
            return Some(*definition);
        }
    }
    None
}

// ---- numbers

/// The number of a class, and that of the spelling of a name.
fn opened_number(opened: &Opened, spellings: &Leasts) -> u32
    ensures { result ≡ opened_number spellings.now (opened_of opened.now) }
{
    match opened {
        Opened::InitializersOf(class) => *class,
        Opened::BodyOf(name) => spelling_number(name.as_str(), spellings),
        Opened::CalledBodyOf(name) => spelling_number(name.as_str(), spellings),
    }
}

/// The number of what it defines.
fn definition_number(definition: &Definition, spellings: &Leasts) -> u32
    ensures { result ≡ opened_number spellings.now (opened_by (definition_of definition.now)) }
{
    match definition {
        Definition::OfClass { class, .. } => *class,
        Definition::OfName { name, .. } => spelling_number(name.as_str(), spellings),
        Definition::OfCalled { name, .. } => spelling_number(name.as_str(), spellings),
    }
}

/// A number for the spelling of each name that they define: that of its first definition. Fails on allocation failure alone.
fn spellings_of(alloc: Global, definitions: &[Definition]) -> Result<Leasts, AllocError> {
    let mut spellings = Leasts::new(alloc);
    let mut number = 0_u32;
    for definition in definitions {
        add_spelling(definition, number, &mut spellings)?;
        number = number.saturating_add(1);
    }
    Ok(spellings)
}

fn add_spelling<'a>(
    definition: &'a Definition,
    number: u32,
    spellings: &mut Leasts<'a>,
) -> Result<(), AllocError> {
    match definition {
        Definition::OfClass { .. } => Ok(()),
        Definition::OfName { name, .. } => spellings.add(name.as_str(), number),
        Definition::OfCalled { name, .. } => spellings.add(name.as_str(), number),
    }
}

/// Definitions by their numbers. Fails on allocation failure alone.
fn by_number<'a>(
    alloc: Global,
    spellings: &Leasts,
    definitions: &'a [Definition],
) -> Result<Grouped<&'a Definition>, AllocError>
    ensures { IfOk result (λ g. (m : ℕ) → definitions_behind (group m g) ≡ having m (numbered_definitions spellings.now (map definition_of definitions.now))) }
{
    let items = with_numbers(alloc, spellings, definitions)?;
    Grouped::of(alloc, items)
}

/// Definitions, each with its number. Fails on allocation failure alone.
fn with_numbers<'a>(
    alloc: Global,
    spellings: &Leasts,
    definitions: &'a [Definition],
) -> Result<Vec<Numbered<&'a Definition>>, AllocError>
    ensures { IfOk result (λ r. by_number.numbered definition_behind r.items ≡ numbered_definitions spellings.now (map definition_of definitions.now)) }
{
    let mut items = Vec::new(alloc);
    for definition in definitions {
        items.push(Numbered {
            number: definition_number(definition, spellings),
            value: definition,
        })?;
    }
    Ok(items)
}
