use crate::making::{model_of, theory_of};
use larch_base::{Bytes, Memory};
use larch_models::{fits, holds};
use larch_models_meaning::FiniteModel;
use larch_term::Theory;
use std::alloc::Global;
use std::test::Fail;

const OPERATORS: &[u8] = b"__ + __\tN\tN\tN\ng\tN\tM\tN\n";

// Five variables, of which the first four have 16 values and the last 15: the same sum in two orders; and with a
// fifth variable of 16 values, which are too many.
const STATEMENTS: &[u8] = b"certificate 1\n\
    1 box - | #2(#1(#1(x:N,y:N),#1(z:N,w:N)),m:M)==#2(#1(#1(w:N,z:N),#1(y:N,x:N)),m:M)\n\
    2 box - | #1(#1(x:N,y:N),#1(z:N,w:N))==#1(#1(w:N,z:N),#1(y:N,v:N))\n";

// Sums modulo 16, and g, which gives its first argument.
fn model_text(alloc: Global) -> Result<Bytes, Memory> {
    let mut text = Bytes::new(alloc);
    text.append(b"model\nsort M 15\nsort N 16\nop 1")?;
    for place in 0..256u32 {
        put_value(alloc, &mut text, (place / 16 + place % 16) % 16)?;
    }
    text.append(b"\nop 2")?;
    for place in 0..240u32 {
        put_value(alloc, &mut text, place / 15)?;
    }
    text.append(b"\n")?;
    Ok(text)
}

fn put_value(alloc: Global, text: &mut Bytes, value: u32) -> Result<(), Memory> {
    let value = format!(in alloc; " {value}")?;
    text.append(value.as_bytes())
}

fn sums(alloc: Global) -> Result<Option<(Theory, FiniteModel)>, Memory> {
    let Some(theory) = theory_of(alloc, OPERATORS, STATEMENTS)? else {
        return Ok(None);
    };
    let text = model_text(alloc)?;
    match model_of(alloc, &theory, text.bytes())? {
        Some(model) => Ok(Some((theory, model))),
        None => Ok(None),
    }
}

// Whether each statement of a theory has few enough assignments, and whether the first holds.
fn judge(alloc: Global) -> Result<Option<(bool, bool, bool)>, Memory> {
    let Some((theory, model)) = sums(alloc)? else {
        return Ok(None);
    };
    let [first, second] = theory.statements.as_slice() else {
        return Ok(None);
    };
    let few = fits(alloc, &model, first)?;
    let many = fits(alloc, &model, second)?;
    let so = holds(alloc, &model, first)?;
    Ok(Some((few, many, so)))
}

#[test]
fn tries_a_million_assignments(rt: HostRuntime) -> Result<(), Fail> {
    let found = judge(rt.alloc())?;
    assert_eq!(rt; found, Some((true, false, true)));
    Ok(())
}
