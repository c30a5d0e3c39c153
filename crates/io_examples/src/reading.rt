// Reading tapes to their ends.
use lab_io::{ReadEnd, Tape, read_all};
use std::alloc::{AllocError, Global};
use std::test::Fail;

fn text(alloc: Global, len: usize) -> Result<Vec<u8>, AllocError> {
    (0..len).map(|i| (i % 251) as u8).collect(alloc)
}

#[test]
fn pieces_of_any_size_make_the_whole_text(rt: HostRuntime) -> Result<(), Fail> {
    let alloc = rt.alloc();
    for len in [0, 1, 4095, 4096, 4097, 9000] {
        for piece in [1, 4096, 4097] {
            let bytes = text(alloc, len)?;
            let mut tape = Tape::new(bytes.clone()?, piece, Vec::new(alloc));
            let read = read_all(alloc, &mut tape, len as u64)?;
            assert!(rt; read == bytes, "{len} bytes by {piece}");
        }
    }
    Ok(())
}

#[test]
fn a_failing_read_is_a_fault_and_loses_no_byte(rt: HostRuntime) -> Result<(), Fail> {
    let alloc = rt.alloc();
    for (call, lost) in [(0, 0), (1, 4), (2, 8), (3, 10)] {
        let bytes = text(alloc, 10)?;
        let mut tape = Tape::new(bytes.clone()?, 4, vec![in alloc; call]?);
        assert_eq!(rt;
            read_all(alloc, &mut tape, 10),
            Err(ReadEnd::Fault),
            "call {call}"
        );
        let rest = read_all(alloc, &mut tape, 10)?;
        assert_eq!(rt;
            Some(rest.as_slice()),
            bytes.get(lost..),
            "after call {call}"
        );
    }
    Ok(())
}

#[test]
fn no_read_asks_for_more_than_4096_bytes(rt: HostRuntime) -> Result<(), Fail> {
    let alloc = rt.alloc();
    // 4,096 bytes, then 904, and the third read fails.
    let mut tape = Tape::new(text(alloc, 5000)?, 10_000, vec![in alloc; 2]?);
    assert_eq!(rt; read_all(alloc, &mut tape, 5000), Err(ReadEnd::Fault));
    Ok(())
}

#[test]
fn one_byte_more_than_the_maximum_is_too_long(rt: HostRuntime) -> Result<(), Fail> {
    let alloc = rt.alloc();
    for (len, max) in [(1, 0), (4096, 4095), (4097, 4096), (9000, 8999), (9000, 10)] {
        let bytes = text(alloc, len)?;
        let mut tape = Tape::new(bytes.clone()?, 4096, Vec::new(alloc));
        assert_eq!(rt;
            read_all(alloc, &mut tape, max),
            Err(ReadEnd::TooLong),
            "{len} of {max}"
        );
        let rest = read_all(alloc, &mut tape, u64::MAX)?;
        assert_eq!(rt; rest.len(), len - max as usize - 1, "{len} of {max}");
    }
    Ok(())
}

#[test]
fn each_end_has_its_words(rt: HostRuntime) -> Result<(), Fail> {
    let ends = [ReadEnd::Fault, ReadEnd::TooLong, ReadEnd::Memory];
    for (end, words) in ends.into_iter().zip(["read fault", "too long", "memory"]) {
        assert_eq!(rt; end.to_string(rt.alloc())?.as_str(), words);
    }
    Ok(())
}
