// Each list gives back what it is made of.

use core_isa::{CodeFunction, CodeFunctionList, CodeLine, CodeLineList, Instr, Mark, NameList};
use rtio_types::Name;
use std::test::Fail;

#[test]
fn lists_give_back_what_they_are_made_of(rt: HostRuntime) -> Result<(), Fail> {
    let alloc = rt.alloc();
    let name = Name::read(b"pulses").expect(&rt, "a name");
    let names = NameList::of(vec![in alloc; name]?);
    assert!(rt; names.items() == [name].as_slice());
    let main = CodeFunction {
        first: 0,
        params: 0,
        slots: 4,
        value: false,
        plain: true,
    };
    let functions = CodeFunctionList::of(vec![in alloc; main]?);
    assert!(rt; functions.items() == [main].as_slice());
    let mark = Mark {
        height: 0,
        tries: 0,
        rec: 0,
    };
    let line = CodeLine {
        instr: Instr::Const(-3),
        mark,
    };
    let last = CodeLine {
        instr: Instr::Return,
        mark,
    };
    let lines = CodeLineList::of(vec![in alloc; line, last]?);
    assert!(rt; lines.items() == [line, last].as_slice());
    assert!(rt; lines.items() != [last, line].as_slice());
    Ok(())
}
