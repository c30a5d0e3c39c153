// Writing to pages.
use lab_io::{Failed, Page, Sink, write_all};
use std::test::Fail;

const TEXT: &[u8] = b"end ok / cursor 1500";

#[test]
fn a_page_holds_what_came_before_the_failing_call(rt: HostRuntime) -> Result<(), Fail> {
    let alloc = rt.alloc();
    for (call, held) in [(0, 0), (1, 8), (2, 16)] {
        let mut page = Page::new(alloc, 20, 8, vec![in alloc; call]?)?;
        assert_eq!(rt; write_all(&mut page, TEXT), Err(Failed), "call {call}");
        assert_eq!(rt; page.held(), &TEXT[..held], "call {call}");
    }
    let mut page = Page::new(alloc, 20, 8, vec![in alloc; 3]?)?;
    assert_eq!(rt; write_all(&mut page, TEXT), Ok(()));
    assert_eq!(rt; page.held(), TEXT);
    Ok(())
}

#[test]
fn a_full_page_takes_no_more(rt: HostRuntime) -> Result<(), Fail> {
    let alloc = rt.alloc();
    for (room, held) in [(0, 0), (7, 7), (8, 8), (19, 19)] {
        let mut page = Page::new(alloc, room, 8, Vec::new(alloc))?;
        assert_eq!(rt; write_all(&mut page, TEXT), Err(Failed), "room {room}");
        assert_eq!(rt; page.held(), &TEXT[..held], "room {room}");
        assert_eq!(rt; page.write(b""), Ok(0), "room {room}");
    }
    Ok(())
}

#[test]
fn no_memory_holds_an_endless_page(rt: HostRuntime) {
    let alloc = rt.alloc();
    assert!(rt; Page::new(alloc, u64::MAX, 1, Vec::new(alloc)).is_err());
}
