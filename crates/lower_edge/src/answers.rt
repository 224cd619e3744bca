// What a program answers.

ghost use Rattle.std.specs.Prelude.{◌≡◌, ◌≤◌, ℕ, List, Option, Some, None, IfOk, length};
ghost use Rattle.es_steps.specs.declared.options.Options.{Options};
ghost use Rattle.lower_edge.specs.Ending.{most_bytes};
ghost use Rattle.lower_edge.specs.declared.status.EdgeStatus.{EdgeStatus};

use crate::output::Output;
use crate::status::EdgeStatus;
use es_steps::options::Options;
use std::alloc::{AllocError, Global};

/// A program that answers the bytes of a source.
pub trait Answers {
    /// How a run of it ends: a status of the edge, or one with which it answers.
    type Status: Copy;

    /// The status of the edge that a status is, if it is one.
    ghost edge: { Self.Status → Option EdgeStatus };

    /// What is answered under options: these bytes, with this status and this text.
    ghost gives: { Options → List ℕ → Self.Status → List ℕ → Type 0 };

    /// The status that stands for one of the edge.
    fn of_edge(status: EdgeStatus) -> Self::Status
        ensures { edge result ≡ Some status };

    /// The answer to these bytes, of which there are at most 67,108,864. Fails on allocation failure alone.
    fn answer(
        &self,
        alloc: Global,
        options: &Options,
        bytes: &[u8],
    ) -> Result<Output<Self::Status>, AllocError>
        requires { length bytes.now ≤ most_bytes }
        ensures status { IfOk result (λ s. edge s.status ≡ None) }
        ensures text { IfOk result (λ s. gives options.now bytes.now s.status s.text.items) };
}
