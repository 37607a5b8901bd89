// What a source read to its end gives, and what sinks hold after writes that fail.
use book_files::*;
use std::alloc::{AllocError, Global};
use std::test::Fail;

// How many bytes a read gives, or how it fails.
type Read = Result<usize, LoadError>;

// A call that fails, and how many bytes two reads give, or how they fail.
const FAILING: &[(u64, Read, Read)] = &[
    (0, Ok(5), Ok(0)),
    (1, Err(LoadError::Failed), Ok(5)),
    (2, Err(LoadError::Failed), Ok(0)),
    (3, Ok(5), Err(LoadError::Failed)),
];

// How many bytes a source has, and how many two reads give, or how they fail.
const LONG: &[(usize, Read, Read)] = &[
    (67_108_864, Ok(67_108_864), Ok(0)),
    (67_108_865, Err(LoadError::TooLong), Ok(0)),
    (67_108_867, Err(LoadError::TooLong), Ok(2)),
];

// A source of these bytes, of whose calls the one with this number fails.
fn source_of(alloc: Global, text: &[u8], failing: u64) -> Result<MemSource, AllocError> {
    let mut bytes = Vec::new(alloc);
    bytes.extend_from_slice(text)?;
    Ok(MemSource::new(bytes, vec![in alloc; failing]?))
}

// Whether a source gives so many bytes up to its end, or fails so.
fn gives<I: Source>(alloc: Global, source: &mut I, expected: &Read) -> bool {
    match read_all(alloc, source) {
        Ok(bytes) => *expected == Ok(bytes.len()),
        Err(error) => *expected == Err(error),
    }
}

// Whether a source of five bytes gives so many in two reads.
fn gives_with_fault(
    alloc: Global,
    failing: u64,
    first: &Read,
    second: &Read,
) -> Result<bool, AllocError> {
    let mut source = source_of(alloc, b"hello", failing)?;
    Ok(gives(alloc, &mut source, first) && gives(alloc, &mut source, second))
}

#[test]
fn reads_up_to_the_call_that_fails(rt: HostRuntime) -> Result<(), Fail> {
    for (failing, first, second) in FAILING {
        let are_given = gives_with_fault(rt.alloc(), *failing, first, second)?;
        assert!(rt; are_given, "call {failing} fails");
    }
    Ok(())
}

// Whether a source of so many bytes gives so many in two reads.
fn gives_to_limit(
    alloc: Global,
    length: usize,
    first: &Read,
    second: &Read,
) -> Result<bool, AllocError> {
    let mut source = CalmSource::new(vec![in alloc; b'x'; length]?);
    Ok(gives(alloc, &mut source, first) && gives(alloc, &mut source, second))
}

#[test]
fn reads_no_more_than_the_limit(rt: HostRuntime) -> Result<(), Fail> {
    for (length, first, second) in LONG {
        let are_given = gives_to_limit(rt.alloc(), *length, first, second)?;
        assert!(rt; are_given, "{length} bytes");
    }
    Ok(())
}

const PIECES: [&[u8]; 3] = [b"ab", b"", b"cd"];

// A call that fails, the bytes that a sink takes in the end, and the write that fails.
const WRITES: &[(u64, &[u8], u64)] = &[
    (0, b"abcd", 0),
    (1, b"cd", 1),
    (2, b"abcd", 2),
    (3, b"ab", 3),
    (4, b"abcd", 0),
];

// Whether a write is taken, or fails where it is to fail.
fn write_is_right<S: Sink>(sink: &mut S, piece: &[u8], is_to_fail: bool) -> bool {
    let written = sink.write(piece);
    if is_to_fail {
        written == Err(WriteError::Failed)
    } else {
        written == Ok(())
    }
}

// Whether the writes of the pieces are taken but for the one with this number, counted from 1.
fn takes_others<S: Sink>(sink: &mut S, failed: u64) -> bool {
    for (i, piece) in (1u64..4).zip(PIECES.iter()) {
        if !write_is_right(sink, piece, i == failed) {
            return false;
        }
    }
    true
}

// Whether a sink of whose calls one fails takes the other writes alone.
fn takes(alloc: Global, failing: u64, held: &[u8], failed: u64) -> Result<bool, AllocError> {
    let mut sink = MemSink::new(alloc, vec![in alloc; failing]?)?;
    Ok(takes_others(&mut sink, failed) && sink.bytes() == held)
}

#[test]
fn a_failed_write_takes_nothing(rt: HostRuntime) -> Result<(), Fail> {
    for (failing, held, failed) in WRITES {
        let is_right = takes(rt.alloc(), *failing, held, *failed)?;
        assert!(rt; is_right, "call {failing} fails");
    }
    let are_taken = takes_all(rt.alloc())?;
    assert!(rt; are_taken);
    Ok(())
}

// Whether a sink of whose calls none fails takes all writes.
fn takes_all(alloc: Global) -> Result<bool, AllocError> {
    let mut calm = CalmSink::new(alloc)?;
    Ok(takes_others(&mut calm, 0) && calm.bytes() == b"abcd".as_slice())
}
