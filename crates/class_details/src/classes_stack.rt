// The classes around a place.

ghost use Rattle.std.specs.Prelude.{◌≡◌, ◌<◌, ◌∷◌, ◌-◌, ◌++◌, ◌↔◌, [], IsTrue, IsSome, Some, None, false, length, vec_len, option_map, option_and_then, slice_get, OnOk, OnErr, IfOk};

use crate::class_details::ClassDetails;
use crate::find::find_among;
use crate::found::{Found, ResolvedGetSetPrivateProp, ResolvedPrivateProp};
use es_base::name::Name;
use std::alloc::{AllocError, Global};

/// The classes around a place, the innermost last; the first is no class, and is never taken away
/// (oxc_transformer, `class_details`).
#[derive(Drop)]
pub struct ClassesStack {
    pub classes: Vec<ClassDetails>,
    ghost dummy: { 0 < vec_len classes },
}

impl ClassesStack {
    ghost use Rattle.class_details.specs.Details.{readable, resolved, sides, writable};
    ghost use Rattle.class_details.specs.Lending.{LendsClass};
    ghost use Rattle.class_details.specs.Stack.{found};
    ghost use Rattle.std.specs.Borrow.{sem};

    /// No class. Fails on allocation failure alone.
    pub fn new(alloc: Global) -> Result<ClassesStack, AllocError>
        ensures { IfOk result (λ s. length s.classes.items ≡ 1) }
    {
        let none = ClassDetails::dummy(alloc, false);
        Ok(ClassesStack {
            classes: vec![in alloc; none]?,
        })
    }

    /// Adds a class, as the innermost. Fails on allocation failure alone, and then drops it.
    pub fn push(&mut self, class: ClassDetails) -> Result<(), AllocError>
        ensures ok { OnOk result (self.new.classes.items ≡ self.old.classes.items ++ class ∷ []) }
        ensures err { OnErr result (self.new.classes.items ≡ self.old.classes.items) }
    {
        self.classes.push(class)?;
        Ok(())
    }

    /// Takes the innermost class away.
    pub fn pop(&mut self) -> ClassDetails
        requires { 1 < length self.old.classes.items }
        ensures { self.old.classes.items ≡ self.new.classes.items ++ result ∷ [] }
    {
        match self.classes.pop() {
            Some(class) => class,
            None => unreachable!(),
        }
    }

    /// The innermost class.
    pub fn last(&self) -> &ClassDetails
        ensures { slice_get self.now.classes.items (length self.now.classes.items - 1) ≡ Some result.now }
    {
        &self.classes[self.classes.len() - 1]
    }

    /// The innermost class, to be changed.
    pub fn last_mut(&mut self) -> &mut ClassDetails
        ensures* writes_back { sem 𝓛 (LendsClass self.entry (length self.old.classes.items - 1) result) }
        ensures value { slice_get self.old.classes.items (length self.old.classes.items - 1) ≡ Some result.now }
    {
        let innermost = self.classes.len() - 1;
        self.class_mut(innermost)
    }

    /// The class at a place, as it is found, to be changed.
    pub fn class_mut(&mut self, place: usize) -> &mut ClassDetails
        requires { place < length self.old.classes.items }
        ensures* writes_back { sem 𝓛 (LendsClass self.entry place result) }
        ensures value { slice_get self.old.classes.items place ≡ Some result.now }
    {
        &mut self.classes[place]
    }

    /// Whether a class declares the private name, so that it can be found.
    pub fn declares(&self, name: &Name) -> bool
        ensures { IsTrue result ↔ IsSome (found name.now self.now.classes.items) }
    {
        find_among(self.classes.as_slice(), name).is_some()
    }

    /// What a use of the private name means.
    pub fn find_private_prop(&self, name: &Name) -> ResolvedPrivateProp
        requires { IsSome (found name.now self.now.classes.items) }
        ensures { option_map (resolved false) (found name.now self.now.classes.items) ≡ Some result }
    {
        self.find(name).resolve(false)
    }

    /// What a use that reads means; nothing where the member cannot be read.
    pub fn find_readable_private_prop(&self, name: &Name) -> Option<ResolvedPrivateProp>
        requires { IsSome (found name.now self.now.classes.items) }
        ensures { result ≡ option_and_then readable (found name.now self.now.classes.items) }
    {
        self.find(name).read()
    }

    /// What a use that writes means; nothing where the member cannot be written.
    pub fn find_writable_private_prop(&self, name: &Name) -> Option<ResolvedPrivateProp>
        requires { IsSome (found name.now self.now.classes.items) }
        ensures { result ≡ option_and_then writable (found name.now self.now.classes.items) }
    {
        self.find(name).written()
    }

    /// What a use that reads and writes means.
    pub fn find_get_set_private_prop(&self, name: &Name) -> ResolvedGetSetPrivateProp
        requires { IsSome (found name.now self.now.classes.items) }
        ensures { option_map sides (found name.now self.now.classes.items) ≡ Some result }
    {
        self.find(name).get_set()
    }

    /// The member of this name of the innermost class that declares it.
    fn find(&self, name: &Name) -> Found
        requires { IsSome (found name.now self.now.classes.items) }
        ensures { found name.now self.now.classes.items ≡ Some result }
    {
        match find_among(self.classes.as_slice(), name) {
            Some(found) => found,
            None => unreachable!(),
        }
    }
}
