// Warnings.

ghost use Rattle.std.specs.Prelude.{◌≡◌, ◌<◌, ◌^◌, IfOk};
ghost use Rattle.es_base.specs.Carried.{span_of};
ghost use Rattle.es_writing.specs.Kept.{SpanFits};
ghost use Rattle.es_writing.specs.Lowered.{IsArranged, WarningsFit, WritesInOrder, warning_cmp, warning_value};
ghost use Rattle.serde_json.specs.View.{view};

use crate::entries::{put_number, put_span, put_str};
use es_base::diagnostic::Diagnostic;
use serde_json::{Map, Value};
use std::alloc::{AllocError, Global};

/// What a warning says.
pub const MESSAGE: &str = "Top-level await is not available in the configured target environment.";

/// The list of the values of the warnings, in order (our own). Fails on allocation failure alone.
pub fn write_warnings(alloc: Global, warnings: &[Diagnostic]) -> Result<Value, AllocError>
    ensures { IfOk result (WritesInOrder warning_cmp warning_value WarningsFit warnings.now) }
{
    let ordered = by_node(alloc, warnings)?;
    visit_warnings(ordered.as_slice());
    let mut items = Vec::new(alloc);
    for warning in &ordered {
        items.push(warning_value(alloc, *warning)?)?;
    }
    Ok(Value::from(items))
}

/// Visits each warning: JSON can hold them all. Takes no memory.
pub fn visit_warnings(warnings: &[Diagnostic])
    ensures { WarningsFit warnings.now }
{
    for warning in warnings {
        visit_warning(*warning);
    }
}

fn visit_warning(_warning: Diagnostic)
    ensures number { _warning.node.0 < 2 ^ 32 }
    ensures span { SpanFits (span_of _warning.span) }
{}

/// The warnings in the order of the numbers of their nodes; equal ones in the order that they had.
pub fn by_node(alloc: Global, warnings: &[Diagnostic]) -> Result<Vec<Diagnostic>, AllocError>
    ensures { IfOk result (λ v. IsArranged warning_cmp warnings.now v.items) }
{
    let mut ordered = Vec::from_slice(alloc, warnings)?;
    ordered.sort_by_key(|warning| warning.node.0)?;
    Ok(ordered)
}

/// The value of a warning: its message, the number of its node, and where it stands in its source.
fn warning_value(alloc: Global, warning: Diagnostic) -> Result<Value, AllocError>
    ensures { IfOk result (λ v. view v ≡ warning_value warning) }
{
    let mut object = Map::new(alloc);
    put_str(&mut object, alloc, "message", MESSAGE)?;
    put_number(&mut object, alloc, "node", warning.node.0)?;
    put_span(&mut object, alloc, warning.span)?;
    Ok(Value::from(object))
}
