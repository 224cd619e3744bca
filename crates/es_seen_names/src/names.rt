// The names that are seen at a place, scope by scope.

ghost use Rattle.std.specs.Prelude.{◌≡◌, option_map};
ghost use Rattle.std.specs.Str.{chars};
ghost use Rattle.es_steps.specs.References.{declared};
ghost use Rattle.es_seen_names.specs.Declarations.{declaration_of};
ghost use Rattle.es_seen_names.specs.Frames.{names_in};

use crate::declaration::Declaration;
use crate::frame::Frame;

/// The names that are seen at a place.
#[derive(Clone, Copy)]
pub enum Names<'r, 'a> {
    /// None.
    Outside,
    /// Those of a scope, and those around them.
    Inside {
        frame: &'r Frame<'a>,
        outer: &'r Names<'r, 'a>,
    },
}

/// What the name means: the nearest declaration of it.
#[tactic(auto, using(crate::proofs::Declaring::declared_here, crate::proofs::Declaring::declared_outside))]
pub fn declared<'a>(names: &Names<'_, 'a>, name: &str) -> Option<Declaration<'a>>
    ensures { option_map declaration_of result ≡ declared (chars name.now) (names_in names.now) }
{
    match names {
        Names::Outside => None,
        Names::Inside { frame, outer } => match frame.get(name) {
            Some(declaration) => Some(declaration),
            None => declared(outer, name),
        },
    }
}
