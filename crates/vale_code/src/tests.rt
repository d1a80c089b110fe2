use crate::{Code, Func, Instr, Sequence, Ty};
use std::alloc::Global;
use std::test::Fail;
use vale_base::{Memory, Text};

// The code that prints 7.
fn seven(alloc: Global) -> Result<Code, Memory> {
    let mut texts = Sequence::new(alloc);
    texts.push(Text::from_slice(alloc, b"main")?)?;
    let mut body = Sequence::new(alloc);
    body.push(Instr::Int { to: 0, number: 7 })?;
    body.push(Instr::Print { from: 0, choice: 1 })?;
    body.push(Instr::RetVoid)?;
    let mut funcs = Sequence::new(alloc);
    funcs.push(Func {
        name: 0,
        form: 0,
        params: Sequence::new(alloc),
        result: Ty::Void,
        registers: 1,
        body,
    })?;
    Code::new(texts, Sequence::new(alloc), Sequence::new(alloc), funcs, 0)
}

#[test]
fn a_short_code_is_made_with_ample_memory(rt: HostRuntime) -> Result<(), Fail> {
    let code = seven(rt.alloc()).ok().ok_or("memory")?;
    assert_eq!(rt; code.texts.len(), 1);
    assert_eq!(rt; code.kinds.len() + code.impls.len(), 0);
    assert_eq!(rt; code.main, 0);
    let funcs = code.funcs.into_vec();
    assert_eq!(rt; funcs.len(), 1);
    assert_eq!(rt; funcs[0].body.len(), 3);
    assert!(rt; matches!(funcs[0].body.as_slice(), [_, _, Instr::RetVoid]));
    Ok(())
}
