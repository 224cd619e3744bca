// Runs, from the bytes of a source to what a sink holds: a table of cases, and sources and sinks that go in small steps
// or fail.

ghost use Rattle.std.specs.Prelude.{◌<◌};

use crate::arguments::arguments_of;
use crate::programs::{
    awaits, awaits_warned, awaits_written, derived, derived_written, empty, empty_of_many_members,
    empty_written, no_field, no_field_written, one_field, one_field_kept, one_field_lowered,
    one_field_set, two_awaits, two_awaits_warned, two_classes, two_classes_lowered, two_fields,
    two_fields_lowered,
};
use lower_es2022::run::run;
use lower_io::sink::{BytesSink, SureSink};
use lower_io::source::{BytesSource, SureSource};
use std::alloc::{AllocError, Global};
use std::test::Fail;

/// Room for each output here.
const ROOM: usize = 4096;

/// How a source or a sink goes: how many bytes a call moves at most, and the numbers of the calls that
/// fail, counted from 1.
#[derive(Clone, Copy)]
struct Pace<'a> {
    step: usize,
    fails: &'a [u64],
}

/// How a run ended, and what its sink then holds.
#[derive(Drop)]
struct Ended {
    status: u8,
    output: String,
}

/// A run with these arguments on this input.
fn run_at(
    alloc: Global,
    arguments: &str,
    input: &str,
    reads: Pace,
    writes: Pace,
) -> Result<Ended, AllocError>
    requires reads_some { 0 < reads.step }
    requires writes_some { 0 < writes.step }
{
    let arguments = arguments_of(alloc, arguments)?;
    let bytes = input.as_bytes().to_vec(alloc)?;
    let mut source = BytesSource::new(bytes, reads.step, reads.fails.to_vec(alloc)?);
    let mut sink = BytesSink::new(alloc, ROOM, writes.step, writes.fails.to_vec(alloc)?)?;
    let status = run(alloc, arguments.as_slice(), &mut source, &mut sink);
    Ok(Ended {
        status: status.number(),
        output: String::from_utf8_lossy(alloc, sink.bytes())?,
    })
}

const ALL_AT_ONCE: Pace = Pace {
    step: ROOM,
    fails: &[],
};

/// The status of a run with these arguments on this input.
pub fn status_of(alloc: Global, arguments: &str, input: &str) -> Result<u8, AllocError> {
    let ended = run_at(alloc, arguments, input, ALL_AT_ONCE, ALL_AT_ONCE)?;
    Ok(ended.status)
}

/// Whether a run with these arguments on this input ends with this status and this output.
pub fn ends_so(
    alloc: Global,
    arguments: &str,
    input: &str,
    status: u8,
    output: &str,
) -> Result<bool, AllocError> {
    let ended = run_at(alloc, arguments, input, ALL_AT_ONCE, ALL_AT_ONCE)?;
    Ok(ended.status == status && ended.output.as_str() == output)
}

pub const NONE: &str = "";

pub const LOWER: &str = "--class-properties\n";

#[test]
fn programs_of_the_form_are_lowered(rt: HostRuntime) -> Result<(), Fail> {
    let alloc = rt.alloc();
    let lowered = [
        (one_field(), one_field_lowered()),
        (two_fields(), two_fields_lowered()),
        (no_field(), no_field_written()),
        (two_classes(), two_classes_lowered()),
    ];
    for (input, output) in lowered {
        assert!(rt; ends_so(alloc, LOWER, input, 0, output)?, "of {input}");
    }
    let twice = "--class-properties\n--class-properties\n";
    assert!(rt; ends_so(alloc, twice, one_field(), 0, one_field_lowered())?);
    let kept = [
        (empty(), empty_written()),
        (empty_of_many_members(), empty_written()),
        (no_field(), no_field_written()),
        (one_field(), one_field_kept()),
        (derived(), derived_written()),
    ];
    for (input, output) in kept {
        assert!(rt; ends_so(alloc, NONE, input, 0, output)?, "of {input}");
    }
    // nothing to lower
    let unchanged = [(empty(), empty_written()), (derived(), derived_written())];
    for (input, output) in unchanged {
        assert!(rt; ends_so(alloc, LOWER, input, 0, output)?, "of {input}");
    }
    Ok(())
}

#[test]
fn refusals_have_their_line(rt: HostRuntime) -> Result<(), Fail> {
    let alloc = rt.alloc();
    let arguments = [
        "--minify\n",
        "--minify\n--class-properties\n",
        "--class-properties\n--minify\n",
        "--class-propertie\n",
        "--class-propertie\n--class-properties\n",
        "--class-properties\n--class-propertie\n",
        "--class-propertiess\n",
        "--class-propertiess\n--class-properties\n",
        "--class-properties\n--class-propertiess\n",
        "\n",
        "\n--class-properties\n",
        "--class-properties\n\n",
    ];
    for arguments in arguments {
        assert!(rt;
            ends_so(alloc, arguments, one_field(), 2, "bad words\n")?,
            "at {arguments}"
        );
    }
    let no_programs = [
        (r#"{"#, "not a tree: json\n"),
        (
            r#"{"type":"Program","sourceType":"script","body":[3]}"#,
            "not a tree: NotANode at 1\n",
        ),
        (
            r#"{"type":"Program","sourceType":"script","body":[{"type":"ParenthesizedExpression"}]}"#,
            "not a tree: UnknownKind at 1\n",
        ),
        (
            r#"{"type":"Program","sourceType":"script","body":[{"type":"Identifier","name":"a"}]}"#,
            "not a tree: WrongPlace at 1\n",
        ),
        (
            r#"{"type":"Program","sourceType":"script","body":1}"#,
            "not a tree: BadMember at 0\n",
        ),
        (
            r#"{"type":"Program","sourceType":"script","body":[{"type":"ExpressionStatement","expression":{"type":"Literal","value":1.5,"raw":"1.5"}}]}"#,
            "not a tree: float at 2\n",
        ),
    ];
    for (input, line) in no_programs {
        assert!(rt; ends_so(alloc, LOWER, input, 3, line)?, "of {input}");
        assert!(rt; ends_so(alloc, NONE, input, 3, line)?, "of {input}");
    }
    Ok(())
}

#[test]
fn arguments_outside_the_grammar(rt: HostRuntime) -> Result<(), Fail> {
    let arguments = [
        // `--loose` without `--class-properties`
        "--loose\n",
        "--loose\n--static-block\n",
        // no argument behind `--assume`
        "--assume\n",
        "--class-properties\n--assume\n",
        // a second `--assume`
        "--assume\n{}\n--assume\n{}\n",
        "--assume\n{}\n--class-properties\n--assume\n",
        // no JSON
        "--assume\n{\n",
        "--assume\n\n",
        "--assume\n--class-properties\n",
        "--assume\n--assume\n{}\n",
        // JSON of no assumptions
        "--assume\n[]\n",
        "--assume\ntrue\n",
        "--assume\n{\"foo\":true}\n",
        "--assume\n{\"setPublicClassFields\":1}\n",
        "--assume\n{\"set_public_class_fields\":true}\n",
        // an argument too many, and words that are not quite those
        "--assume\n{}\n{}\n",
        "--static-blocks\n",
        "--await-warning\n",
        "--remove-field\n",
        "--Loose\n--class-properties\n",
    ];
    for arguments in arguments {
        assert!(rt;
            ends_so(rt.alloc(), arguments, one_field(), 2, "bad words\n")?,
            "at {arguments}"
        );
    }
    Ok(())
}

#[test]
fn programs_with_nothing_to_lower_stay(rt: HostRuntime) -> Result<(), Fail> {
    let arguments = [
        "--class-properties\n--loose\n",
        "--loose\n--class-properties\n--loose\n",
        "--static-block\n--static-block\n",
        "--await-warnings\n--await-warnings\n",
        "--remove-fields\n--remove-fields\n",
        "--assume\n{}\n",
        "--assume\n{\"setPublicClassFields\":true,\"noDocumentAll\":true}\n",
        "--assume\n { \"pureGetters\" : false } \n--class-properties\n",
        "--class-properties\n--loose\n--static-block\n--await-warnings\n--remove-fields\n--assume\n{\"constantSuper\":true}\n",
    ];
    let unchanged = [
        (empty(), empty_written()),
        (no_field(), no_field_written()),
        (derived(), derived_written()),
    ];
    for arguments in arguments {
        for (input, output) in unchanged {
            assert!(rt;
                ends_so(rt.alloc(), arguments, input, 0, output)?,
                "at {arguments} of {input}"
            );
        }
    }
    Ok(())
}

#[test]
fn fields_are_defined_or_set(rt: HostRuntime) -> Result<(), Fail> {
    let alloc = rt.alloc();
    let defining = [
        "--class-properties\n--static-block\n",
        "--await-warnings\n--class-properties\n",
        "--class-properties\n--remove-fields\n",
        "--assume\n{\"noDocumentAll\":true,\"privateFieldsAsProperties\":true}\n--class-properties\n",
        "--class-properties\n--assume\n{\"setPublicClassFields\":false}\n",
        // the last of repeated keys counts
        "--class-properties\n--assume\n{\"setPublicClassFields\":true,\"setPublicClassFields\":false}\n",
    ];
    for arguments in defining {
        assert!(rt;
            ends_so(alloc, arguments, one_field(), 0, one_field_lowered())?,
            "at {arguments}"
        );
    }
    let setting = [
        "--class-properties\n--loose\n",
        "--class-properties\n--assume\n{\"setPublicClassFields\":true}\n",
        "--class-properties\n--assume\n{\"setPublicClassFields\":false,\"setPublicClassFields\":true}\n",
        "--static-block\n--class-properties\n--loose\n--remove-fields\n",
    ];
    for arguments in setting {
        assert!(rt;
            ends_so(alloc, arguments, one_field(), 0, one_field_set())?,
            "at {arguments}"
        );
    }
    // without class properties a field stays
    for arguments in [
        "--static-block\n",
        "--remove-fields\n",
        "--await-warnings\n",
    ] {
        assert!(rt;
            ends_so(alloc, arguments, one_field(), 0, one_field_kept())?,
            "at {arguments}"
        );
    }
    Ok(())
}

#[test]
fn top_level_awaits_are_warned_of(rt: HostRuntime) -> Result<(), Fail> {
    let alloc = rt.alloc();
    let warned = "--await-warnings\n";
    assert!(rt; ends_so(alloc, warned, awaits(), 0, awaits_warned())?);
    assert!(rt; ends_so(alloc, NONE, awaits(), 0, awaits_written())?);
    assert!(rt; ends_so(alloc, warned, two_awaits(), 0, two_awaits_warned())?);
    Ok(())
}

#[test]
fn small_steps_and_faults(rt: HostRuntime) -> Result<(), Fail> {
    let alloc = rt.alloc();
    for (read, write) in [(1, ROOM), (ROOM, 64), (1, 64), (7, 1)] {
        let reads = Pace {
            step: read,
            fails: &[],
        };
        let writes = Pace {
            step: write,
            fails: &[],
        };
        let ended = run_at(alloc, "--class-properties\n", two_classes(), reads, writes)?;
        assert_eq!(rt;
            ended.output.as_str(),
            two_classes_lowered(),
            "at {read} and {write}"
        );
        assert_eq!(rt; ended.status, 0);
    }
    // five calls give the 318 bytes, and the sixth tells the end
    for call in 1..8 {
        let reads = Pace {
            step: 64,
            fails: &[call],
        };
        let ended = run_at(
            alloc,
            "--class-properties\n",
            one_field(),
            reads,
            ALL_AT_ONCE,
        )?;
        assert_eq!(rt;
            ended.status,
            if call < 7 { 4 } else { 0 },
            "at call {call}"
        );
        let output = if call < 7 {
            "read fault\n"
        } else {
            one_field_lowered()
        };
        assert_eq!(rt; ended.output.as_str(), output, "at call {call}");
    }
    // sixteen calls take the 1010 bytes
    for taken in 0..17 {
        let writes = Pace {
            step: 64,
            fails: &[taken as u64 + 1],
        };
        let ended = run_at(
            alloc,
            "--class-properties\n",
            one_field(),
            ALL_AT_ONCE,
            writes,
        )?;
        assert_eq!(rt;
            ended.status,
            if taken < 16 { 5 } else { 0 },
            "after {taken} calls"
        );
        let output = one_field_lowered().as_bytes();
        let part = if taken < 16 {
            output.get(..64 * taken).ok_or("short")?
        } else {
            output
        };
        assert_eq!(rt; ended.output.as_bytes(), part, "after {taken} calls");
    }
    Ok(())
}

/// A run on these bytes, where neither the source nor the sink can fail.
fn run_surely(alloc: Global, bytes: Vec<u8>) -> Result<Ended, AllocError> {
    let arguments = arguments_of(alloc, "--class-properties\n")?;
    let mut source = SureSource::new(bytes);
    let mut sink = SureSink::new(alloc, ROOM)?;
    let status = run(alloc, arguments.as_slice(), &mut source, &mut sink);
    Ok(Ended {
        status: status.number(),
        output: String::from_utf8_lossy(alloc, sink.bytes())?,
    })
}

#[test]
fn sources_and_sinks_that_never_fail(rt: HostRuntime) -> Result<(), Fail> {
    let alloc = rt.alloc();
    let ended = run_surely(alloc, one_field().as_bytes().to_vec(alloc)?)?;
    assert_eq!(rt; ended.output.as_str(), one_field_lowered());
    assert_eq!(rt; ended.status, 0);
    // one byte more than is read
    let ended = run_surely(alloc, vec![in alloc; b' '; 67_108_865]?)?;
    assert_eq!(rt; ended.output.as_str(), "too long\n");
    assert_eq!(rt; ended.status, 7);
    Ok(())
}
