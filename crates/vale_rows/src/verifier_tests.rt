// Which facts certify a code, and how a fault of certificates is told.
use std::alloc::Global;
use std::test::Fail;
use vale_base::{Fail as Fault, Kind, Memory, Spot, Text};
use vale_cert::{Facts, FuncFacts};
use vale_code::{Code, Func, Instr, KindInfo, Sequence, Ty};
use vale_verifier::{VerifyFault, certified, verify};

// The texts of a code whose only function is `main`.
fn names(alloc: Global) -> Result<Sequence<Text>, Memory> {
    let mut texts = Sequence::new(alloc);
    texts.push(Text::from_slice(alloc, b"main")?)?;
    Ok(texts)
}

// What prints 7, with this last instruction.
fn body(alloc: Global, last: Instr) -> Result<Sequence<Instr>, Memory> {
    let mut body = Sequence::new(alloc);
    body.push(Instr::Int { to: 0, number: 7 })?;
    body.push(Instr::Print { from: 0, choice: 1 })?;
    body.push(last)?;
    Ok(body)
}

fn main_of(alloc: Global, body: Sequence<Instr>) -> Result<Sequence<Func>, Memory> {
    let mut funcs = Sequence::new(alloc);
    funcs.push(Func {
        name: 0,
        form: 0,
        params: Sequence::new(alloc),
        result: Ty::Void,
        registers: 1,
        body,
    })?;
    Ok(funcs)
}

// The code that prints 7, with this last instruction.
fn seven(alloc: Global, last: Instr) -> Result<Code, Memory> {
    let funcs = main_of(alloc, body(alloc, last)?)?;
    Code::new(
        names(alloc)?,
        Sequence::new(alloc),
        Sequence::new(alloc),
        funcs,
        0,
    )
}

// The code that makes an object of a struct without fields; it drops it, or forgets it.
fn object(alloc: Global, is_dropped: bool) -> Result<Code, Memory> {
    let mut kinds = Sequence::new(alloc);
    kinds.push(KindInfo::Struct {
        name: 0,
        destructor: None,
        fields: Sequence::new(alloc),
    })?;
    let mut body = Sequence::new(alloc);
    body.push(Instr::Make {
        to: 0,
        kind: Kind(0),
        args: Sequence::new(alloc),
    })?;
    if is_dropped {
        body.push(Instr::Destroy {
            from: 0,
            at: Spot { line: 1, col: 1 },
        })?;
    }
    body.push(Instr::RetVoid)?;
    Code::new(
        names(alloc)?,
        kinds,
        Sequence::new(alloc),
        main_of(alloc, body)?,
        0,
    )
}

// Facts of one function, without labels.
fn no_labels(alloc: Global) -> Result<Facts, Memory> {
    let mut funcs = Sequence::new(alloc);
    funcs.push(FuncFacts {
        live: Sequence::new(alloc),
        labels: Sequence::new(alloc),
    })?;
    Facts::new(funcs)
}

#[test]
fn a_certified_code_is_verified_with_ample_memory(rt: HostRuntime) -> Result<(), Fail> {
    let code = seven(rt.alloc(), Instr::RetVoid).ok().ok_or("memory")?;
    let facts = no_labels(rt.alloc()).ok().ok_or("memory")?;
    assert!(rt; certified(rt.alloc(), &code, &facts).ok().ok_or("memory")?);
    let verified = verify(rt.alloc(), code, facts).ok().ok_or("fault")?;
    assert!(rt; verified.code.funcs.len() == 1);
    assert!(rt; verified.facts.funcs.len() == 1);
    Ok(())
}

#[test]
fn a_code_that_runs_past_its_end_is_refused_there(rt: HostRuntime) -> Result<(), Fail> {
    let code = seven(rt.alloc(), Instr::Tick).ok().ok_or("memory")?;
    let facts = no_labels(rt.alloc()).ok().ok_or("memory")?;
    let answer = verify(rt.alloc(), code, facts);
    assert!(rt; matches!(answer, Err(Fault::Is(VerifyFault { rule: 7, at: 2 }))));
    Ok(())
}

#[test]
fn a_fault_is_shown_with_its_rule_and_place(rt: HostRuntime) -> Result<(), Fail> {
    let fault = VerifyFault { rule: 7, at: 2 };
    let text = format!(in rt.alloc(); "{fault}")?;
    assert!(rt; text.as_str() == "rule 7 is broken at 2");
    Ok(())
}

#[test]
fn an_object_is_dropped_before_its_function_ends(rt: HostRuntime) -> Result<(), Fail> {
    let facts = no_labels(rt.alloc()).ok().ok_or("memory")?;
    let dropped = object(rt.alloc(), true).ok().ok_or("memory")?;
    assert!(rt;
        certified(rt.alloc(), &dropped, &facts)
            .ok()
            .ok_or("memory")?
    );
    let forgotten = object(rt.alloc(), false).ok().ok_or("memory")?;
    let answer = verify(rt.alloc(), forgotten, facts);
    assert!(rt; matches!(answer, Err(Fault::Is(VerifyFault { rule: 3, at: 1 }))));
    Ok(())
}
