// Pairs of programs, from their bytes to the line that is written of them.

use crate::arguments::arguments_of;
use crate::programs::{
    empty, empty_written, no_field, no_field_misnumbered, no_field_written, one_field,
    one_field_kept, one_field_lowered, two_fields, two_fields_lowered,
};
use check_run::run::check_run;
use lower_io::sink::SureSink;
use lower_io::source::SureSource;
use std::alloc::{AllocError, Global};
use std::test::Fail;

/// Room for each line.
const ROOM: usize = 128;

const LOWER: &str = "--class-properties\n";

/// A source with a member of TypeScript, and that with numbers and names.
const TYPED: &str =
    r#"{"type":"Program","sourceType":"script","body":[],"of":{"type":"TSTypeAnnotation"}}"#;

const TYPED_WRITTEN: &str =
    r#"{"type":"Program","sourceType":"script","body":[],"node":0,"generated":[],"of":{"type":"TSTypeAnnotation"}}"#;

/// The empty script with numbers, without names.
const NAMELESS: &str = r#"{"type":"Program","sourceType":"script","body":[],"node":0}"#;

/// Whether a check of these bytes with these arguments ends with this status and this line.
fn is_checked_so(
    alloc: Global,
    arguments: &str,
    input: &str,
    status: u8,
    line: &str,
) -> Result<bool, AllocError> {
    let arguments = arguments_of(alloc, arguments)?;
    let mut source = SureSource::new(input.as_bytes().to_vec(alloc)?);
    let mut sink = SureSink::new(alloc, ROOM)?;
    let ended = check_run(alloc, arguments.as_slice(), &mut source, &mut sink);
    Ok(ended.number() == status && sink.bytes() == line.as_bytes())
}

#[test]
fn lowered_programs_agree_or_differ(rt: HostRuntime) -> Result<(), Fail> {
    let alloc = rt.alloc();
    let pairs = [
        (one_field(), one_field_lowered(), 0, "agreed\n"),
        (two_fields(), two_fields_lowered(), 0, "agreed\n"),
        (no_field(), no_field_written(), 0, "agreed\n"),
        // a number stands twice
        (
            no_field(),
            no_field_misnumbered(),
            1,
            "differs: Lowered 1 at 0\n",
        ),
        // the field is left
        (
            one_field(),
            one_field_kept(),
            1,
            "differs: Lowered 2 at 4\n",
        ),
        (
            TYPED,
            empty_written(),
            8,
            "refused: Unsupported Foreign at 0\n",
        ),
    ];
    for (source, lowered, status, line) in pairs {
        let input = format!(in alloc; "[{source},{lowered}]")?;
        assert!(rt;
            is_checked_so(alloc, LOWER, input.as_str(), status, line)?,
            "of {input}"
        );
    }
    Ok(())
}

#[test]
fn values_that_are_no_pair(rt: HostRuntime) -> Result<(), Fail> {
    let alloc = rt.alloc();
    let source = empty();
    let lowered = empty_written();
    let values = [
        format!(in alloc; "[{source},{lowered}")?,
        format!(in alloc; "[]")?,
        format!(in alloc; "[{lowered}]")?,
        format!(in alloc; "[{source},{lowered},{lowered}]")?,
        format!(in alloc; "{{\"0\":{source},\"1\":{lowered}}}")?,
        format!(in alloc; "[1,{lowered}]")?,
        format!(in alloc; "[{source},{source}]")?,
        format!(in alloc; "[{source},{NAMELESS}]")?,
        format!(in alloc; "[{source},{TYPED_WRITTEN}]")?,
    ];
    for input in &values {
        assert!(rt;
            is_checked_so(alloc, LOWER, input.as_str(), 3, "not a pair\n")?,
            "of {input}"
        );
    }
    assert!(rt; is_checked_so(alloc, "--minify\n", "[]", 2, "bad words\n")?);
    Ok(())
}
