// Entries of functions and classes.

ghost use Rattle.std.specs.Prelude.{◌≡◌, ◌&&◌, ◌↔◌, IsTrue};
ghost use Rattle.es_steps.specs.Entries as spec;
ghost use Rattle.es_entries.specs.Entered.{HaveOneHead, IsClassEntry, IsEntry, IsFunctionEntry};

use crate::form::same_form;
use crate::listed::{Listed, same_listed};
use crate::method::{Method, same_methods};
use crate::parameter::{Parameter, same_parameters};
use es_base::list::List;
use es_codes::code::FunctionForm;
use es_codes::value::Value;

/// What a function does when it is called (ECMA-262, 10.2.1).
#[derive(Drop)]
pub struct FunctionEntry {
    pub form: FunctionForm,
    /// The identifier that is its own name.
    pub own_name: Option<u32>,
    pub parameters: List<Parameter>,
    pub body: Listed,
}

/// What a class is, and does when it is constructed (ECMA-262, 15.7.14 and 10.2.2).
#[derive(Drop)]
pub struct ClassEntry {
    /// The identifier that declares it.
    pub declared: Option<u32>,
    pub heritage: Option<Value>,
    pub methods: List<Method>,
    /// Those of its constructor.
    pub form: FunctionForm,
    pub parameters: List<Parameter>,
    pub construction: Listed,
}

/// What a function or a class does.
#[derive(Drop)]
pub enum Entry {
    Function(FunctionEntry),
    Class(ClassEntry),
}

fn both(first: bool, second: bool) -> bool
    ensures { result ≡ (first && second) }
{
    first && second
}

fn same_number(left: Option<u32>, right: Option<u32>) -> bool
    ensures { IsTrue result ↔ (left ≡ right) }
{
    match left {
        Some(number) => match right {
            Some(other) => number == other,
            None => false,
        },
        None => right.is_none(),
    }
}

fn same_heritage(left: &Option<Value>, right: &Option<Value>) -> bool
    ensures { IsTrue result ↔ (left.now ≡ right.now) }
{
    match left {
        Some(value) => match right {
            Some(other) => value.is_same(other),
            None => false,
        },
        None => right.is_none(),
    }
}

#[tactic(auto, using(crate::proofs::SameEntries::same_functions))]
fn same_function(left: &FunctionEntry, right: &FunctionEntry) -> bool
    ensures { (e g : spec.Entry) → IsFunctionEntry left.now e → IsFunctionEntry right.now g → IsTrue result ↔ (e ≡ g) }
{
    let forms = same_form(left.form, right.form);
    let names = same_number(left.own_name, right.own_name);
    let parameters = same_parameters(left.parameters.as_slice(), right.parameters.as_slice());
    let bodies = same_listed(&left.body, &right.body);
    let heads = both(forms, names);
    let all = both(heads, parameters);
    both(all, bodies)
}

/// Whether two classes are declared alike, and have the same heritage and methods.
pub fn same_head(left: &ClassEntry, right: &ClassEntry) -> bool
    ensures { IsTrue result ↔ HaveOneHead left.now right.now }
{
    let declared = same_number(left.declared, right.declared);
    let heritages = same_heritage(&left.heritage, &right.heritage);
    let methods = same_methods(left.methods.as_slice(), right.methods.as_slice());
    let two = both(declared, heritages);
    both(two, methods)
}

#[tactic(auto, using(crate::proofs::SameEntries::same_classes))]
fn same_class(left: &ClassEntry, right: &ClassEntry) -> bool
    ensures { (e g : spec.Entry) → IsClassEntry left.now e → IsClassEntry right.now g → IsTrue result ↔ (e ≡ g) }
{
    let heads = same_head(left, right);
    let forms = same_form(left.form, right.form);
    let parameters = same_parameters(left.parameters.as_slice(), right.parameters.as_slice());
    let constructions = same_listed(&left.construction, &right.construction);
    let two = both(heads, forms);
    let all = both(two, parameters);
    both(all, constructions)
}

impl Entry {
    /// Whether two entries are the same.
    #[tactic(auto, using(crate::proofs::SameEntries::function_no_class, crate::proofs::SameEntries::class_no_function))]
    pub fn is_same(&self, other: &Entry) -> bool
        ensures { (e g : spec.Entry) → IsEntry self.now e → IsEntry other.now g → IsTrue result ↔ (e ≡ g) }
    {
        match self {
            Entry::Function(function) => match other {
                Entry::Function(another) => same_function(function, another),
                Entry::Class(_) => false,
            },
            Entry::Class(class) => match other {
                Entry::Function(_) => false,
                Entry::Class(another) => same_class(class, another),
            },
        }
    }
}
