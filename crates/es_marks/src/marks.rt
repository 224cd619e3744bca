// Marks of names and nodes of a program.

ghost use Rattle.std.specs.Prelude.{◌≡◌};
ghost use Rattle.es_lowered.specs.Timely as spec;
ghost use Rattle.es_marks.specs.Marks.{form_in};

use crate::around::Surroundings;

/// What stands at a mark.
#[derive(Debug, Clone, Copy, PartialEq, Eq)]
pub enum MarkForm {
    /// A declaration by `let`.
    Declares,
    /// One at the head of a list, in front of which nothing there runs.
    Leads,
    /// What gives a value.
    Initializes,
    /// A function declaration, which is there from the head of its list on.
    Hoists,
    /// A use.
    Uses,
    /// What a class uses where it stands, or what is given in front of each use.
    Needs,
}

/// A mark, at an identifier of this name, and, for references and classes, of this node.
#[derive(Debug, Drop)]
pub struct Mark<'a> {
    pub name: &'a str,
    pub node: Option<u32>,
    pub form: MarkForm,
    pub around: Surroundings<'a>,
}

/// Whether it is a use.
pub fn is_use(form: MarkForm) -> bool
    ensures { result ≡ spec.is_use (form_in form) }
{
    matches!(form, MarkForm::Uses | MarkForm::Needs)
}

/// Whether it is a use of what is given in front of each use.
pub fn is_needed(form: MarkForm) -> bool
    ensures { result ≡ spec.is_needed (form_in form) }
{
    matches!(form, MarkForm::Needs)
}

/// Whether it is a declaration by `let`.
pub fn is_declaration(form: MarkForm) -> bool
    ensures { result ≡ spec.is_declaration (form_in form) }
{
    matches!(form, MarkForm::Declares | MarkForm::Leads)
}

/// Whether it is a declaration in front of which something may run.
pub fn is_called_past(form: MarkForm) -> bool
    ensures { result ≡ spec.is_called_past (form_in form) }
{
    matches!(form, MarkForm::Declares)
}
