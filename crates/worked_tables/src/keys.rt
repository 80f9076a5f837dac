//! Calls of `attr_pool`.

use attr_pool::pool::Pool;
use call_answers::Answers;
use mlir_tree::attr::Attr;
use mlir_tree::sign::Sign;
use mlir_tree::ty::Ty;
use shared_text::SharedText;
use std::alloc::AllocError;

const LONG: &[u8] = b"a name of more than twenty-two bytes";

fn tell_types(answers: &mut Answers, pool: &mut Pool) -> Result<(), AllocError> {
    let alloc = answers.alloc;
    answers.tell_value(
        "intern_ty(i32)",
        &pool.intern_ty(alloc, &Ty::int(Sign::Signless, 32))?.0,
    )?;
    answers.tell_value("intern_ty(index)", &pool.intern_ty(alloc, &Ty::index())?.0)?;
    answers.tell_value(
        "intern_ty(i32) again",
        &pool.intern_ty(alloc, &Ty::int(Sign::Signless, 32))?.0,
    )
}

fn tell_attributes(answers: &mut Answers, pool: &mut Pool) -> Result<(), AllocError> {
    let alloc = answers.alloc;
    answers.tell_value(
        "intern_attr(unit)",
        &pool.intern_attr(alloc, &Attr::unit())?.0,
    )?;
    answers.tell_value(
        "intern_attr(index)",
        &pool.intern_attr(alloc, &Attr::of_ty(Ty::index()))?.0,
    )?;
    answers.tell_value(
        "intern_attr(unit) again",
        &pool.intern_attr(alloc, &Attr::unit())?.0,
    )
}

fn tell_found(
    answers: &mut Answers,
    pool: &Pool,
    call: &str,
    name: &[u8],
) -> Result<(), AllocError> {
    let name = SharedText::from_slice(answers.alloc, name)?;
    match pool.find_name(&name) {
        Some(key) => answers.tell_value(call, &key.0),
        None => answers.tell(call, b"none"),
    }
}

fn tell_names(answers: &mut Answers, pool: &mut Pool) -> Result<(), AllocError> {
    let alloc = answers.alloc;
    answers.tell_value("intern_name(t.a)", &pool.intern_name(alloc, b"t.a")?.0)?;
    answers.tell_value(
        "intern_name(), of no bytes",
        &pool.intern_name(alloc, b"")?.0,
    )?;
    answers.tell_value("intern_name(a long one)", &pool.intern_name(alloc, LONG)?.0)?;
    answers.tell_value(
        "intern_name(t.a) again",
        &pool.intern_name(alloc, b"t.a")?.0,
    )?;
    tell_found(answers, pool, "find_name(t.a)", b"t.a")?;
    tell_found(answers, pool, "find_name(a long one)", LONG)?;
    tell_found(answers, pool, "find_name(t.b)", b"t.b")
}

pub fn tell(answers: &mut Answers) -> Result<(), AllocError> {
    let mut pool = Pool::new(answers.alloc);
    tell_types(answers, &mut pool)?;
    tell_attributes(answers, &mut pool)?;
    tell_names(answers, &mut pool)
}
