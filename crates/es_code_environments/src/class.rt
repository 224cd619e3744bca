// Entries of classes, and where their constructions start.

ghost use Rattle.std.specs.Prelude.{◌≡◌, Some, length, option_map, IfOk, OnOk};
ghost use Rattle.es_codes.specs.CodeView.{code_of, codes_of, form_of};
ghost use Rattle.es_entries.specs.Methods.{methods_in};
ghost use Rattle.es_entries.specs.Parameters.{parameters_in};
ghost use Rattle.es_evaluation.specs.Direct.{kept};
ghost use Rattle.es_steps.specs.Entries as spec;
ghost use Rattle.es_code_environments.specs.Classes as classes;
ghost use Rattle.es_code_environments.specs.FlatEntries.{entry_in, flat_entry};
ghost use Rattle.es_code_environments.specs.Results.{Gives, Holds, Proceeds};

use crate::assigned::add_assigned_in_all;
use crate::here::Here;
use crate::part::{CodeRole, CodesRole, Part};
use crate::terms::Terms;
use es_base::list::List;
use es_codes::code::{Code, FunctionForm};
use es_codes::value::Value;
use es_entries::constructor::written_constructor;
use es_entries::entry::{ClassEntry, Entry};
use es_entries::method::Method;
use es_entries::parameter::{Parameter, parameters_of};
use es_evaluator::fault::Fault;
use std::alloc::{AllocError, Global};

// ---- where a construction starts

/// Where the construction of a class starts that stands here: without the temporaries that its elements give a value, and with what
/// the private elements hold that are generated in front of all others.
#[tactic(auto, using(crate::proofs::ClassForms::start_is, crate::proofs::Back::back_twice))]
pub fn class_start(
    terms: &Terms<'_>,
    here: &mut Here,
    class: u32,
    heritage: &[Code],
    elements: &[Code],
) -> Result<Here, Fault>
    ensures start { IfOk result (λ h. h ≡ classes.start_of terms.now class here.old (codes_of heritage.now) (codes_of elements.now)) }
    ensures here { OnOk result (here.new ≡ here.old) }
    ensures err { Proceeds result }
{
    let alloc = terms.among.alloc;
    let mut names = Vec::new(alloc);
    add_assigned_in_all(alloc, elements, &mut names)?;
    let mut start = here.without(alloc, names.as_slice())?;
    let front = here.len();
    here.pass(terms, Part::Codes(CodesRole::All, heritage))?;
    here.pass(terms, Part::Codes(CodesRole::Keys, elements))?;
    let behind_keys = here.len();
    pass_leading(terms, here, class, elements)?;
    start.give_private(alloc, &*here, behind_keys)?;
    here.back(front);
    Ok(start)
}

/// Goes on behind the private elements that are generated in front of all elements which run with the class.
#[tactic(auto, using(crate::proofs::ClassForms::leading_more, crate::proofs::ClassForms::leading_stops, crate::proofs::ClassForms::leading_ends, crate::proofs::Back::back_here, crate::proofs::Back::back_twice))]
fn pass_leading(
    terms: &Terms<'_>,
    here: &mut Here,
    class: u32,
    elements: &[Code],
) -> Result<(), Fault>
    ensures leads { OnOk result (here.new ≡ classes.behind_leading terms.now class here.old (codes_of elements.now)) }
    ensures over { OnOk result (kept (length here.old) here.new ≡ here.old) }
    ensures err { Proceeds result }
{
    for element in elements {
        if !pass_element(terms, here, class, element)? {
            return Ok(());
        }
    }
    Ok(())
}

/// Goes on behind an element, if nothing happens in it; gives whether that is so.
#[tactic(auto, using(es_codes::proofs::Forms::generated_element_is, es_codes::proofs::Forms::field_is, es_codes::proofs::Forms::private_field_is, es_codes::proofs::Forms::method_is, es_codes::proofs::Forms::private_method_is, es_codes::proofs::Forms::constructor_is, crate::proofs::Others::not_leading, crate::proofs::Others::stays_here, crate::proofs::Back::back_here))]
fn pass_element(
    terms: &Terms<'_>,
    here: &mut Here,
    class: u32,
    element: &Code,
) -> Result<bool, Fault>
    ensures is_leading { IfOk result (λ b. b ≡ classes.is_leading terms.now class here.old (code_of element.now)) }
    ensures here { OnOk result (here.new ≡ classes.behind_element terms.now class here.old (code_of element.now)) }
    ensures over { OnOk result (kept (length here.old) here.new ≡ here.old) }
    ensures err { Proceeds result }
{
    match element {
        Code::GeneratedElement { .. } => {
            here.pass_if_quiet(terms, Part::Code(CodeRole::Static(class), element))
        }
        Code::Field { is_static, .. } => Ok(!*is_static),
        Code::PrivateField { is_static, .. } => Ok(!*is_static),
        Code::Method { .. } => Ok(true),
        Code::PrivateMethod { .. } => Ok(true),
        Code::Constructor { .. } => Ok(true),
        _ => Ok(false),
    }
}

/// In front of the parameters of a constructor: behind the fields, where the class has no heritage.
#[tactic(auto, using(crate::proofs::ClassForms::fields_behind, crate::proofs::ClassForms::no_fields_behind, crate::proofs::Back::back_here))]
pub fn pass_fields(
    terms: &Terms<'_>,
    start: &mut Here,
    class: u32,
    heritage: &[Code],
    elements: &[Code],
) -> Result<(), Fault>
    ensures leads { OnOk result (start.new ≡ classes.behind_fields terms.now start.old class (codes_of heritage.now) (codes_of elements.now)) }
    ensures over { OnOk result (kept (length start.old) start.new ≡ start.old) }
    ensures err { Proceeds result }
{
    if heritage.is_empty() {
        start.pass(terms, Part::Codes(CodesRole::Fields(class), elements))
    } else {
        Ok(())
    }
}

// ---- what an entry is made of

/// The entry of a class that stands here, and whose construction starts there.
#[tactic(auto, using(crate::proofs::Back::back_here))]
pub fn class_entry(
    terms: &Terms<'_>,
    here: &mut Here,
    start: &mut Here,
    class: u32,
    declared: Option<u32>,
    heritage: &[Code],
    elements: &[Code],
) -> Result<Entry, Fault>
    ensures entry { Gives entry_in result (option_map flat_entry (classes.class_at terms.now here.old start.old class declared (codes_of heritage.now) (codes_of elements.now))) }
    ensures here { OnOk result (here.new ≡ here.old) }
    ensures start { OnOk result (start.new ≡ start.old) }
{
    let value = heritage_of(terms, here, heritage)?;
    let front = here.len();
    here.pass(terms, Part::Codes(CodesRole::All, heritage))?;
    let methods = methods_of(terms, here, elements)?;
    keys_stay(terms, here, start, elements)?;
    here.back(front);
    let construction = start.list_of_construction(terms, class, heritage, elements)?;
    let head = head_of(terms.among.alloc, elements)?;
    Ok(Entry::Class(ClassEntry {
        declared,
        heritage: value,
        methods,
        form: head.form,
        parameters: head.parameters,
        construction,
    }))
}

/// What the constructor of a class is beside its body.
#[derive(Drop)]
struct Head {
    form: FunctionForm,
    parameters: List<Parameter>,
}

/// What the constructor among these elements is beside its body: one that is new has the form and the parameters of none. Fails
/// on allocation failure alone.
fn head_of(alloc: Global, elements: &[Code]) -> Result<Head, AllocError>
    ensures form { IfOk result (λ h. form_of h.form ≡ spec.constructor_form (codes_of elements.now)) }
    ensures parameters { IfOk result (λ h. parameters_in h.parameters ≡ spec.constructor_parameters (codes_of elements.now)) }
{
    match written_constructor(elements) {
        Some(constructor) => Ok(Head {
            form: constructor.form,
            parameters: parameters_of(alloc, constructor.parameters.as_slice())?,
        }),
        None => Ok(Head {
            form: FunctionForm {
                is_arrow: false,
                is_async: false,
                is_generator: false,
            },
            parameters: List::new(alloc),
        }),
    }
}

/// The value of a heritage, if there is one.
#[tactic(auto, using(crate::proofs::ClassForms::no_heritage, crate::proofs::ClassForms::first_heritage))]
fn heritage_of(
    terms: &Terms<'_>,
    here: &mut Here,
    heritage: &[Code],
) -> Result<Option<Value>, Fault>
    ensures value { Gives (λ v. v) result (classes.heritage_in terms.now here.old (codes_of heritage.now)) }
    ensures here { OnOk result (here.new ≡ here.old) }
{
    if heritage.is_empty() {
        return Ok(None);
    }
    let value = here.value_of(terms, Part::Code(CodeRole::Value, &heritage[0]))?;
    Ok(Some(value))
}

// ---- methods

/// The methods among the elements of a class, in front of whose keys we are.
#[tactic(auto, using(crate::proofs::ClassForms::method_more, crate::proofs::ClassForms::method_fails, crate::proofs::ClassForms::method_ends, crate::proofs::ClassForms::none_yet, crate::proofs::Back::back_here, crate::proofs::Back::back_twice))]
fn methods_of(terms: &Terms<'_>, here: &mut Here, elements: &[Code]) -> Result<List<Method>, Fault>
    ensures methods { Gives (λ ms. methods_in ms) result (classes.methods_in terms.now here.old (codes_of elements.now)) }
    ensures here { OnOk result (here.new ≡ here.old) }
{
    let front = here.len();
    let mut methods = List::new(terms.among.alloc);
    for element in elements {
        add_method(terms, here, element, &mut methods)?;
    }
    here.back(front);
    Ok(methods)
}

/// Adds the method that an element is, if it is one, and goes on behind its key.
#[tactic(auto, using(es_codes::proofs::Forms::method_is, crate::proofs::Others::no_method, crate::proofs::ClassForms::method_pushed, crate::proofs::ClassForms::methods_more, crate::proofs::ClassForms::nothing_joined))]
fn add_method(
    terms: &Terms<'_>,
    here: &mut Here,
    element: &Code,
    methods: &mut List<Method>,
) -> Result<(), Fault>
    ensures methods { Gives (λ x. methods_in methods.new) result (classes.joined (Some (methods_in methods.old)) (classes.method_at terms.now here.old (code_of element.now))) }
    ensures leads { OnOk result (here.new ≡ classes.behind_key terms.now here.old (code_of element.now)) }
    ensures over { OnOk result (kept (length here.old) here.new ≡ here.old) }
{
    match element {
        // k() {}
        Code::Method {
            is_static,
            kind,
            function,
            ..
        } => {
            let key = here.pass_value(terms, Part::Code(CodeRole::Key, element))?;
            let function = number_of(function.get())?;
            let kind = kind.try_clone(terms.among.alloc)?;
            methods.push(Method {
                is_static: *is_static,
                kind,
                key: key.as_key(),
                function,
            })?;
            Ok(())
        }
        _ => {
            here.pass(terms, Part::Code(CodeRole::Key, element))?;
            Ok(())
        }
    }
}

/// The number of a function of the source; none of another code.
#[tactic(auto, using(es_codes::proofs::Forms::function_is, crate::proofs::Others::no_function))]
fn number_of(function: &Code) -> Result<u32, Fault>
    ensures { Gives (λ n. n) result (classes.function_in (code_of function.now)) }
{
    match function {
        Code::Function { node, .. } => Ok(*node),
        _ => Err(Fault::NoMeaning),
    }
}

// ---- keys of fields

/// Refuses a class with an instance field whose key has another value where a construction, which starts there, defines it.
#[tactic(auto, using(crate::proofs::ClassForms::key_more, crate::proofs::ClassForms::key_fails, crate::proofs::ClassForms::key_ends, crate::proofs::Back::back_here, crate::proofs::Back::back_twice))]
fn keys_stay(
    terms: &Terms<'_>,
    here: &mut Here,
    start: &mut Here,
    elements: &[Code],
) -> Result<(), Fault>
    ensures stay { Holds result (classes.keys_stay terms.now here.old start.old (codes_of elements.now)) }
    ensures here { OnOk result (here.new ≡ here.old) }
    ensures start { OnOk result (start.new ≡ start.old) }
{
    let front = here.len();
    for element in elements {
        key_stays(terms, here, start, element)?;
    }
    here.back(front);
    Ok(())
}

/// Refuses an instance field whose key has another value there, and goes on behind the key.
#[tactic(auto, using(crate::proofs::ClassForms::other_key, crate::proofs::ClassForms::field_key, es_evaluator::proofs::SameValues::same_value_is))]
fn key_stays(
    terms: &Terms<'_>,
    here: &mut Here,
    start: &mut Here,
    element: &Code,
) -> Result<(), Fault>
    ensures stays { Holds result (classes.key_stays terms.now here.old start.old (code_of element.now)) }
    ensures leads { OnOk result (here.new ≡ classes.behind_key terms.now here.old (code_of element.now)) }
    ensures over { OnOk result (kept (length here.old) here.new ≡ here.old) }
    ensures start { OnOk result (start.new ≡ start.old) }
{
    if !is_instance_field(element) {
        here.pass(terms, Part::Code(CodeRole::Key, element))?;
        return Ok(());
    }
    let value = here.pass_value(terms, Part::Code(CodeRole::Key, element))?;
    let there = start.value_of(terms, Part::Code(CodeRole::Key, element))?;
    if value.is_same(&there) {
        Ok(())
    } else {
        Err(Fault::NoMeaning)
    }
}

/// Whether it is a field of instances that is not private.
#[tactic(auto, using(es_codes::proofs::Forms::field_is, crate::proofs::Others::not_field, crate::proofs::ClassForms::is_field))]
fn is_instance_field(element: &Code) -> bool
    ensures { result ≡ classes.is_instance_field (code_of element.now) }
{
    match element {
        Code::Field { is_static, .. } => !*is_static,
        _ => false,
    }
}
