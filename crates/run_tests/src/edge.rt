// Sources and sinks, read and written whole.

use lower_io::failed::Failed;
use lower_io::sink::{BytesSink, Sink, SureSink};
use lower_io::source::{BytesSource, Source, SureSource};
use lower_io::standard::{StdinSource, StdoutSink};
use lower_io::whole::{ReadStop, read_all, write_all};
use std::alloc::{AllocError, Global};
use std::test::Fail;

/// So many bytes, which count up.
fn counting(alloc: Global, length: usize) -> Result<Vec<u8>, AllocError> {
    let mut bytes = Vec::new(alloc);
    for place in 0..length {
        bytes.push((place % 251) as u8)?;
    }
    Ok(bytes)
}

#[test]
fn sources_are_read_whole(rt: HostRuntime) -> Result<(), Fail> {
    let alloc = rt.alloc();
    // one byte at a time, and then nothing is left
    let mut source = BytesSource::new(counting(alloc, 300)?, 1, Vec::new(alloc));
    let bytes = read_all(alloc, &mut source, 300)?;
    assert_eq!(rt; bytes.as_slice(), counting(alloc, 300)?.as_slice());
    assert_eq!(rt; source.take(&mut [0]), Ok(0));
    // a call that fails takes nothing
    let fail = [1, 4].to_vec(alloc)?;
    let mut source = BytesSource::new(counting(alloc, 6)?, 2, fail);
    assert_eq!(rt;
        read_all(alloc, &mut source, 9).err(),
        Some(ReadStop::Failed)
    );
    let mut pair = [9; 2];
    assert_eq!(rt; source.take(&mut pair), Ok(2));
    assert_eq!(rt; pair, [0, 1]);
    assert_eq!(rt; source.take(&mut pair[..1]), Ok(1));
    assert_eq!(rt; source.take(&mut pair), Err(Failed));
    assert_eq!(rt;
        read_all(alloc, &mut source, 9)?.as_slice(),
        [3, 4, 5].as_slice()
    );
    // more bytes than are let in
    for (most, fits) in [(0, false), (69999, false), (70000, true), (70001, true)] {
        let mut source = SureSource::new(counting(alloc, 70000)?);
        match read_all(alloc, &mut source, most) {
            Ok(bytes) => {
                assert!(rt; fits, "let in at {most}");
                assert_eq!(rt; bytes.as_slice(), counting(alloc, 70000)?.as_slice());
            }
            Err(stop) => {
                assert!(rt; !fits, "stopped at {most}");
                assert_eq!(rt; stop, ReadStop::TooLong);
            }
        }
    }
    Ok(())
}

/// Asks for no byte.
fn take_none<S: Source>(source: &mut S) -> Option<usize> {
    source.take(&mut []).ok()
}

#[test]
fn sinks_are_written_whole(rt: HostRuntime) -> Result<(), Fail> {
    let alloc = rt.alloc();
    // a sink that fails at its third call holds what the first two took
    let bytes = counting(alloc, 200)?;
    let mut sink = BytesSink::new(alloc, 1000, 64, [3].to_vec(alloc)?)?;
    assert_eq!(rt; write_all(&mut sink, &bytes), Err(Failed));
    assert_eq!(rt; sink.bytes(), counting(alloc, 128)?.as_slice());
    let rest = bytes.get(128..).ok_or("short")?;
    assert_eq!(rt; write_all(&mut sink, rest), Ok(()));
    assert_eq!(rt; sink.bytes(), bytes.as_slice());
    // pieces that do not fit
    let mut sink = BytesSink::new(alloc, 5, 3, Vec::new(alloc))?;
    assert_eq!(rt; write_all(&mut sink, &[1, 2, 3, 4, 5, 6, 7]), Ok(()));
    assert_eq!(rt; sink.bytes(), [1, 2, 3].as_slice());
    assert_eq!(rt; sink.put(&[8]), Ok(1));
    assert_eq!(rt; sink.bytes(), [1, 2, 3].as_slice());
    let mut sink = SureSink::new(alloc, 5)?;
    assert_eq!(rt; write_all(&mut sink, &[1, 2, 3]), Ok(()));
    assert_eq!(rt; write_all(&mut sink, &[4, 5]), Ok(()));
    assert_eq!(rt; sink.bytes(), [1, 2, 3, 4, 5].as_slice());
    assert_eq!(rt; write_all(&mut sink, &[6]), Ok(()));
    assert_eq!(rt; sink.bytes(), [1, 2, 3, 4, 5].as_slice());
    // the standard streams
    let _ = take_none(&mut StdinSource::new(rt.stdin()));
    let mut sink = StdoutSink::new(rt.stdout());
    assert_eq!(rt; write_all(&mut sink, b"to standard output\n"), Ok(()));
    Ok(())
}
