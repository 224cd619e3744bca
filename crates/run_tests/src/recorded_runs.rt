// Runs over recorded lowerings, from the bytes of a source to what is written of it.

use crate::arguments::arguments_of;
use crate::programs::{
    derived, derived_written, one_field, one_field_kept, one_field_lowered, two_fields,
    two_fields_lowered,
};
use crate::recorded::Recorded;
use crate::recorded_programs::{
    heritage, heritage_lowered, other_name, other_name_captured, other_name_lowered, own_name,
    own_name_dropped, own_name_exchanged, own_name_kept, own_name_lowered, own_name_undeclared,
};
use lower_io::sink::SureSink;
use lower_io::source::SureSource;
use lower_run::status::Status;
use lower_with::run::run_with;
use std::alloc::{AllocError, Global};
use std::test::Fail;

/// Room for each output.
const ROOM: usize = 4096;

const FIELDS: &str = "--class-properties\n";

const FIELDS_AND_BLOCKS: &str = "--class-properties\n--static-block\n";

/// How a run ended, and what its sink then holds.
#[derive(Drop)]
struct Ended {
    status: Status,
    output: String,
}

/// A run on this source over the lowering that gives this program.
fn run_over(
    alloc: Global,
    arguments: &str,
    source: &str,
    lowered: &str,
) -> Result<Ended, AllocError> {
    let arguments = arguments_of(alloc, arguments)?;
    let mut source = SureSource::new(source.as_bytes().to_vec(alloc)?);
    let mut sink = SureSink::new(alloc, ROOM)?;
    let lowering = Recorded { text: lowered };
    let status = run_with(
        alloc,
        &lowering,
        arguments.as_slice(),
        &mut source,
        &mut sink,
    );
    Ok(Ended {
        status,
        output: String::from_utf8_lossy(alloc, sink.bytes())?,
    })
}

#[test]
fn right_programs_are_written(rt: HostRuntime) -> Result<(), Fail> {
    let alloc = rt.alloc();
    let cases = [
        (FIELDS, one_field(), one_field_lowered()),
        (FIELDS, two_fields(), two_fields_lowered()),
        (FIELDS, own_name(), own_name_lowered()),
        (FIELDS, other_name(), other_name_lowered()),
        // clauses alone are asked where there is a shape
        (FIELDS_AND_BLOCKS, heritage(), heritage_lowered()),
    ];
    for (arguments, source, lowered) in cases {
        let ended = run_over(alloc, arguments, source, lowered)?;
        assert_eq!(rt; ended.output.as_str(), lowered);
        assert_eq!(rt; ended.status, Status::Done);
    }
    // a program with nothing to lower, of which the lowering is not asked
    let ended = run_over(alloc, FIELDS, derived(), "none")?;
    assert_eq!(rt; ended.output.as_str(), derived_written());
    assert_eq!(rt; ended.status, Status::Done);
    Ok(())
}

#[test]
fn wrong_programs_are_not_written(rt: HostRuntime) -> Result<(), Fail> {
    let alloc = rt.alloc();
    let cases = [
        // the source, with its fields
        (one_field(), one_field_kept()),
        (own_name(), own_name_kept()),
        // no program
        (own_name(), "none"),
        // that of another source
        (one_field(), two_fields_lowered()),
        (other_name(), own_name_lowered()),
        (own_name(), own_name_dropped()),
        (own_name(), own_name_exchanged()),
        (own_name(), own_name_undeclared()),
        (other_name(), other_name_captured()),
    ];
    for (source, lowered) in cases {
        let ended = run_over(alloc, FIELDS, source, lowered)?;
        assert!(rt;
            ended.output.as_str().starts_with("refused: NotYet at "),
            "{lowered}"
        );
        assert_eq!(rt; ended.status, Status::Refused);
    }
    // the field is the node that is left
    let ended = run_over(alloc, FIELDS, own_name(), own_name_kept())?;
    assert_eq!(rt; ended.output.as_str(), "refused: NotYet at 4\n");
    Ok(())
}
