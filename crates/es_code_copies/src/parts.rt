// Copies of what stands in codes.

ghost use Rattle.std.specs.Prelude.{◌≡◌, IfOk};

use es_base::list::List;
use es_base::literal::clone_of_nullable;
use es_base::name::Name;
use es_codes::code::{Opened, TemplateString};
use es_codes::name::NameKind;
use std::alloc::{AllocError, Global};

/// A copy of what a name is. Fails on allocation failure alone.
pub fn copy_kind(alloc: Global, kind: &NameKind) -> Result<NameKind, AllocError>
    ensures { IfOk result (λ k. k ≡ kind.now) }
{
    Ok(match kind {
        NameKind::Fixed(binding) => NameKind::Fixed(*binding),
        NameKind::Changing(referent) => NameKind::Changing(referent.try_clone(alloc)?),
        NameKind::MeansClass { class, binding } => NameKind::MeansClass {
            class: *class,
            binding: *binding,
        },
        NameKind::Generated(generated) => NameKind::Generated(*generated),
        NameKind::StaticMethod { key, class } => NameKind::StaticMethod {
            key: *key,
            class: *class,
        },
    })
}

fn copy_opening(alloc: Global, opened: &Opened) -> Result<Opened, AllocError>
    ensures { IfOk result (λ o. o ≡ opened.now) }
{
    Ok(match opened {
        Opened::InitializersOf(class) => Opened::InitializersOf(*class),
        Opened::BodyOf(spelling) => Opened::BodyOf(spelling.try_clone(alloc)?),
        Opened::CalledBodyOf(spelling) => Opened::CalledBodyOf(spelling.try_clone(alloc)?),
    })
}

/// A copy of what is evaluated behind a `super(..)`. Fails on allocation failure alone.
pub fn copy_opened(alloc: Global, opened: &Option<Opened>) -> Result<Option<Opened>, AllocError>
    ensures { IfOk result (λ o. o ≡ opened.now) }
{
    match opened {
        Some(opened) => Ok(Some(copy_opening(alloc, opened)?)),
        None => Ok(None),
    }
}

/// A copy of a string of a template. Fails on allocation failure alone.
pub fn copy_string(alloc: Global, string: &TemplateString) -> Result<TemplateString, AllocError>
    ensures { IfOk result (λ s. s ≡ string.now) }
{
    let raw = string.raw.try_clone(alloc)?;
    let cooked = clone_of_nullable(alloc, &string.cooked)?;
    Ok(TemplateString {
        raw,
        cooked,
        is_tail: string.is_tail,
    })
}

/// Copies of the strings of a template. Fails on allocation failure alone.
pub fn copy_strings(
    alloc: Global,
    strings: &[TemplateString],
) -> Result<List<TemplateString>, AllocError>
    ensures { IfOk result (λ ss. ss ≡ strings.now) }
{
    let mut copies = List::new(alloc);
    for string in strings {
        copies.push(copy_string(alloc, string)?)?;
    }
    Ok(copies)
}

/// Copies of names. Fails on allocation failure alone.
pub fn copy_names(alloc: Global, names: &[Name]) -> Result<List<Name>, AllocError>
    ensures { IfOk result (λ ns. ns ≡ names.now) }
{
    let mut copies = List::new(alloc);
    for name in names {
        copies.push(name.try_clone(alloc)?)?;
    }
    Ok(copies)
}
