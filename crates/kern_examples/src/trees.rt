// A tree that no text was read to.

use kern_syntax::{
    Block, DeclaredType, Function, Identifier, Parameter, ParameterList, Program, Stmt, StmtKind,
    nodes, print,
};
use std::alloc::{AllocError, Global};
use std::test::Fail;

fn identifier(alloc: Global, text: &str) -> Result<Identifier, AllocError> {
    Ok(Identifier::of(Vec::from_slice(alloc, text.as_bytes())?))
}

#[test]
fn a_tree_is_built_by_hand(rt: HostRuntime) -> Result<(), Fail> {
    let alloc = rt.alloc();
    let parameter = Parameter {
        name: identifier(alloc, "n")?,
        declared: DeclaredType::Int64,
    };
    let statement = Stmt {
        line: 2,
        kind: StmtKind::Pass,
    };
    let function = Function {
        line: 1,
        name: identifier(alloc, "main")?,
        parameters: ParameterList::of(vec![in alloc; parameter]?),
        result: None,
        body: Block {
            statements: vec![in alloc; statement]?,
        },
    };
    let program = Program::of(vec![in alloc; function]?);
    let text = print(alloc, &program)?;
    assert!(rt; text.as_slice() == b"def main(n: int64):\n    pass\n".as_slice());
    assert_eq!(rt; nodes(&program), 2);
    assert_eq!(rt; nodes(&Program::of(Vec::new(alloc))), 0);
    Ok(())
}
