// The text of a lowered program.

ghost use Rattle.std.specs.Prelude.{◌≡◌, ◌++◌, IfOk, OnOk, Some, codes, map};
ghost use Rattle.es_base.specs.Shape.{shape_number};
ghost use Rattle.es_base.specs.declared.kind.Kind.{Kind};
ghost use Rattle.es_node.specs.View.{kind_of};
ghost use Rattle.es_writing.specs.Kept.{IsKept};
ghost use Rattle.es_writing.specs.Lowered.{WritesText, entry_value, items_of, warning_value, write_lowered, written_name};
ghost use Rattle.es_writing.specs.Slots.{class_of, data_tokens, lowered_data, member_of, member_tokens, name_in};
ghost use Rattle.es_writing.specs.Writing.{number_of, string_of};
ghost use Rattle.serde_json.specs.Data.{array};

use crate::generated::{kind_word, signed_name, visit_names};
use crate::kept::visit_tree;
use crate::members::{
    write_end, write_nullable_number, write_number, write_start, write_str, write_string,
};
use crate::order::arranged;
use crate::slots::{Slot, program_slots};
use crate::text::write_slot;
use crate::warnings::{MESSAGE, by_node, visit_warnings};
use es_base::diagnostic::Diagnostic;
use es_base::ledger::{GeneratedKind, Ledger, LedgerEntry};
use es_base::shape::Shape;
use es_node::node::Node;
use json::Writer;
use std::alloc::{AllocError, Global};

/// Room for the first bytes of a text.
const ROOM: usize = 65_536;

/// The compact JSON text of a lowered program: that of the value that `lowered::write_lowered` gives, which
/// is not made. Fails on allocation failure alone.
pub fn lowered_text(
    alloc: Global,
    program: &Node,
    ledger: &Ledger,
    warnings: &[Diagnostic],
    outside: &[Shape],
) -> Result<Vec<u8>, AllocError>
    requires { kind_of program.now ≡ Kind.Program }
    ensures text { IfOk result (λ v. WritesText v.items program.now ledger.now.entries warnings.now outside.now) }
    ensures kept { IfOk result (λ v. IsKept program.now) }
{
    visit_tree(program);
    let names = arranged(alloc, ledger.entries.as_slice())?;
    visit_names(names.as_slice());
    let ordered = by_node(alloc, warnings)?;
    visit_warnings(ordered.as_slice());
    let mut out = Writer::new(Vec::with_capacity(alloc, ROOM)?);
    write_program(
        alloc,
        &mut out,
        program,
        names.as_slice(),
        ordered.as_slice(),
        outside,
    )?;
    Ok(out.into_inner())
}

/// Writes the object of a lowered program.
fn write_program(
    alloc: Global,
    out: &mut Writer,
    program: &Node,
    names: &[&LedgerEntry],
    warnings: &[Diagnostic],
    shapes: &[Shape],
) -> Result<(), AllocError>
    requires { kind_of program.now ≡ Kind.Program }
    ensures ok { OnOk result (out.new.tokens ≡ out.old.tokens ++ data_tokens (write_lowered program.now (map (λ e. e.now) names.now) warnings.now shapes.now)) }
    ensures before { out.new.before ≡ out.old.before }
{
    // the parts of a node have the shapes of its members
    let _parts = program.parts();
    out.begin_object()?;
    for slot in program_slots() {
        write_program_slot(alloc, out, program, names, warnings, shapes, *slot)?;
    }
    out.end_object()
}

/// Writes what stands at a member of a lowered program.
fn write_program_slot(
    alloc: Global,
    out: &mut Writer,
    program: &Node,
    names: &[&LedgerEntry],
    warnings: &[Diagnostic],
    shapes: &[Shape],
    slot: Slot,
) -> Result<(), AllocError>
    requires { kind_of program.now ≡ Kind.Program }
    ensures ok { OnOk result (out.new.tokens ≡ out.old.tokens ++ member_tokens (name_in Kind.Program slot)
        (lowered_data program.now (map (λ e. e.now) names.now) warnings.now shapes.now slot)) }
    ensures before { out.new.before ≡ out.old.before }
{
    match slot {
        Slot::Generated => write_names(alloc, out, names),
        Slot::Warnings => write_warnings(out, warnings),
        Slot::Outside => write_shapes(out, shapes),
        _ => write_slot(out, program, slot),
    }
}

/// Writes `generated`, the generated names.
fn write_names(alloc: Global, out: &mut Writer, names: &[&LedgerEntry]) -> Result<(), AllocError>
    ensures ok { OnOk result (out.new.tokens ≡ out.old.tokens ++ member_tokens (codes "generated") (Some (array (items_of (map entry_value (map (λ e. e.now) names.now)))))) }
    ensures before { out.new.before ≡ out.old.before }
{
    out.key("generated")?;
    out.begin_array()?;
    for entry in names {
        write_entry(alloc, out, entry)?;
    }
    out.end_array()
}

/// Writes a generated name: the number of the class that it stands for, its kind, the number of the private
/// name that it stands for, and its string.
fn write_entry(alloc: Global, out: &mut Writer, entry: &LedgerEntry) -> Result<(), AllocError>
    ensures ok { OnOk result (out.new.tokens ≡ out.old.tokens ++ data_tokens (entry_value entry.now)) }
    ensures before { out.new.before ≡ out.old.before }
{
    out.begin_object()?;
    write_nullable_number(out, "class", class_of(entry.kind))?;
    write_str(out, "kind", kind_word(entry.kind))?;
    write_nullable_number(out, "member", member_of(entry.kind))?;
    write_written_name(alloc, out, entry)?;
    out.end_object()
}

/// Writes the string of a name; that of a private name begins with `#`.
fn write_written_name(
    alloc: Global,
    out: &mut Writer,
    entry: &LedgerEntry,
) -> Result<(), AllocError>
    ensures ok { OnOk result (out.new.tokens ≡ out.old.tokens ++ member_tokens (codes "name") (Some (string_of (written_name entry.now)))) }
    ensures before { out.new.before ≡ out.old.before }
{
    match entry.kind {
        GeneratedKind::Private(_) => {
            let string = signed_name(alloc, entry)?;
            write_str(out, "name", string.as_str())
        }
        _ => write_string(out, "name", &entry.name),
    }
}

/// The number of the class that a name stands for.
fn class_of(kind: GeneratedKind) -> Option<u32>
    ensures { result ≡ class_of kind }
{
    match kind {
        GeneratedKind::ClassTemp(id)
        | GeneratedKind::Brand(id)
        | GeneratedKind::SuperFn(id)
        | GeneratedKind::Private(id) => Some(id.0),
        _ => None,
    }
}

/// The number of the private name that a name stands for.
fn member_of(kind: GeneratedKind) -> Option<u32>
    ensures { result ≡ member_of kind }
{
    match kind {
        GeneratedKind::WeakMap(id)
        | GeneratedKind::StaticField(id)
        | GeneratedKind::Method(id)
        | GeneratedKind::LooseKey(id) => Some(id.0),
        _ => None,
    }
}

/// Writes `warnings`.
fn write_warnings(out: &mut Writer, warnings: &[Diagnostic]) -> Result<(), AllocError>
    ensures ok { OnOk result (out.new.tokens ≡ out.old.tokens ++ member_tokens (codes "warnings") (Some (array (items_of (map warning_value warnings.now))))) }
    ensures before { out.new.before ≡ out.old.before }
{
    out.key("warnings")?;
    out.begin_array()?;
    for warning in warnings {
        write_warning(out, *warning)?;
    }
    out.end_array()
}

/// Writes a warning: its message, the number of its node, and where it stands in its source.
fn write_warning(out: &mut Writer, warning: Diagnostic) -> Result<(), AllocError>
    ensures ok { OnOk result (out.new.tokens ≡ out.old.tokens ++ data_tokens (warning_value warning)) }
    ensures before { out.new.before ≡ out.old.before }
{
    out.begin_object()?;
    write_end(out, warning.span)?;
    write_str(out, "message", MESSAGE)?;
    write_number(out, "node", warning.node.0)?;
    write_start(out, warning.span)?;
    out.end_object()
}

/// Writes `outside`, the numbers of the shapes.
fn write_shapes(out: &mut Writer, shapes: &[Shape]) -> Result<(), AllocError>
    ensures ok { OnOk result (out.new.tokens ≡ out.old.tokens ++ member_tokens (codes "outside") (Some (array (items_of (map (λ s. number_of (shape_number s)) shapes.now))))) }
    ensures before { out.new.before ≡ out.old.before }
{
    out.key("outside")?;
    out.begin_array()?;
    for shape in shapes {
        out.u64(u64::from(shape.number()))?;
    }
    out.end_array()
}
