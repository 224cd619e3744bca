// What a use of a private name means.

ghost use Rattle.std.specs.Prelude.{◌≡◌, is_some};
ghost use Rattle.class_details.specs.Details.{is_accessor_kind, is_written_first, readable, reads_first, resolved, side_resolved, sides, writable};

use es_base::operator::MethodDefinitionKind;

/// A private member that was found: the place of its class in the stack, its own in the class, and what it is.
#[derive(Debug, Clone, Copy, PartialEq, Eq)]
pub struct Found {
    pub class: usize,
    pub member: usize,
    pub is_static: bool,
    /// What it is, unless it is a field.
    pub method_kind: Option<MethodDefinitionKind>,
    /// Whether it has a second name, as two accessors have.
    pub has_second: bool,
    /// Whether the class is a declaration.
    pub is_declaration: bool,
}

/// What a use of a private name means (oxc_transformer, `ResolvedPrivateProp`).
#[derive(Debug, Clone, Copy, PartialEq, Eq)]
pub struct ResolvedPrivateProp {
    /// The place of the class in the stack.
    pub class: usize,
    /// The place of the member in its class.
    pub member: usize,
    /// Whether the second name of the member is meant.
    pub second: bool,
    pub is_static: bool,
    pub is_method: bool,
    pub is_accessor: bool,
    /// Whether the class is a declaration.
    pub is_declaration: bool,
}

/// The same of a use that reads and writes (oxc_transformer, `ResolvedGetSetPrivateProp`).
#[derive(Debug, Clone, Copy, PartialEq, Eq)]
pub struct ResolvedGetSetPrivateProp {
    pub class: usize,
    pub member: usize,
    /// Whether it can be read.
    pub has_get: bool,
    /// Whether it can be written.
    pub has_set: bool,
    pub is_static: bool,
    pub is_method: bool,
    pub is_accessor: bool,
    pub is_declaration: bool,
}

/// Whether it is a getter or a setter.
pub(crate) fn is_accessor_kind(kind: Option<MethodDefinitionKind>) -> bool
    ensures { result ≡ is_accessor_kind kind }
{
    match kind {
        Some(MethodDefinitionKind::Get) | Some(MethodDefinitionKind::Set) => true,
        _ => false,
    }
}

/// Whether the first name of a member is that of its side that reads.
fn reads_first(kind: Option<MethodDefinitionKind>) -> bool
    ensures { result ≡ reads_first kind }
{
    match kind {
        Some(MethodDefinitionKind::Set) => false,
        _ => true,
    }
}

/// Whether it is that of its side that writes.
fn is_written_first(kind: Option<MethodDefinitionKind>) -> bool
    ensures { result ≡ is_written_first kind }
{
    match kind {
        None | Some(MethodDefinitionKind::Set) => true,
        _ => false,
    }
}

impl Found {
    /// By its first name or its second.
    pub(crate) fn resolve(self, second: bool) -> ResolvedPrivateProp
        ensures { result ≡ resolved second self }
    {
        ResolvedPrivateProp {
            class: self.class,
            member: self.member,
            second,
            is_static: self.is_static,
            is_method: self.method_kind.is_some(),
            is_accessor: is_accessor_kind(self.method_kind),
            is_declaration: self.is_declaration,
        }
    }

    /// By its first name, if this is that of the side; else by its second, if it has one.
    fn resolve_side(self, first: bool) -> Option<ResolvedPrivateProp>
        ensures { result ≡ side_resolved first self }
    {
        if first {
            Some(self.resolve(false))
        } else if self.has_second {
            Some(self.resolve(true))
        } else {
            None
        }
    }

    /// As it is read, if it can be.
    pub(crate) fn read(self) -> Option<ResolvedPrivateProp>
        ensures { result ≡ readable self }
    {
        self.resolve_side(reads_first(self.method_kind))
    }

    /// As it is written, if it can be.
    pub(crate) fn written(self) -> Option<ResolvedPrivateProp>
        ensures { result ≡ writable self }
    {
        self.resolve_side(is_written_first(self.method_kind))
    }

    /// Both sides.
    pub(crate) fn get_set(self) -> ResolvedGetSetPrivateProp
        ensures { result ≡ sides self }
    {
        ResolvedGetSetPrivateProp {
            class: self.class,
            member: self.member,
            has_get: self.read().is_some(),
            has_set: self.written().is_some(),
            is_static: self.is_static,
            is_method: self.method_kind.is_some(),
            is_accessor: is_accessor_kind(self.method_kind),
            is_declaration: self.is_declaration,
        }
    }
}
