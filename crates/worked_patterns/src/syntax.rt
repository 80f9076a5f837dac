//! Calls of `pdll_syntax`.

use crate::spelling::patterns;
use call_answers::Answers;
use pdll_syntax::expr::Expr;
use pdll_syntax::fault::PatKind;
use pdll_syntax::file::{Decl, PatFile};
use pdll_syntax::stmt::{Body, Stmt, StmtForm};
use std::alloc::AllocError;

const FOLD: &[u8] = b"Constraint IsInt(a: Attr);
Rewrite AddInt(a: Attr, b: Attr) -> Attr;
Pattern Fold {
  let x = op<t.const> {value = a: Attr};
  let y = op<t.const> {value = b: Attr};
  let root = op<t.add>(x, y);
  IsInt(a);
  IsInt(b);
  replace root with op<t.const> {value = AddInt(a, b)};
}
";

fn tell_file(answers: &mut Answers, file: &PatFile) -> Result<(), AllocError> {
    let copy = file.copy(answers.alloc)?;
    answers.tell_value("PatFile::equal(the file, its copy)", &copy.equal(file))?;
    answers.tell_value("declarations of the copy", &copy.decls.len())?;
    let other = patterns(answers.alloc, b"Pattern => erase op<t.a>;")?;
    answers.tell_value("PatFile::equal(the file, another)", &other.equal(file))
}

// The statements in the braces of a pattern.
fn statements(decl: Option<&Decl>) -> &[Stmt] {
    match decl {
        Some(Decl::Pattern(pattern)) => match &pattern.body {
            Body::Braces(stmts, _) => stmts.as_slice(),
            _ => &[],
        },
        _ => &[],
    }
}

fn tell_statement(answers: &mut Answers, one: &Stmt, other: &Stmt) -> Result<(), AllocError> {
    answers.tell_value("Stmt::equal(the first statement, itself)", &one.equal(one))?;
    answers.tell_value(
        "Stmt::equal(the first statement, the second)",
        &one.equal(other),
    )
}

fn tell_expression(answers: &mut Answers, one: &Expr, other: &Expr) -> Result<(), AllocError> {
    let copy = one.copy(answers.alloc)?;
    answers.tell_value(
        "Expr::equal(the first expression, its copy)",
        &copy.equal(one),
    )?;
    answers.tell_value(
        "Expr::equal(the first expression, the second)",
        &copy.equal(other),
    )
}

fn tell_two(answers: &mut Answers, one: &Stmt, other: &Stmt) -> Result<(), AllocError> {
    tell_statement(answers, one, other)?;
    match (&one.form, &other.form) {
        (StmtForm::Let(_, _, Some(x)), StmtForm::Let(_, _, Some(y))) => {
            tell_expression(answers, x, y)
        }
        _ => answers.tell("the first two statements", b"not two values"),
    }
}

fn tell_parts(answers: &mut Answers, file: &PatFile) -> Result<(), AllocError> {
    match statements(file.decls.get(2)) {
        [one, other, ..] => tell_two(answers, one, other),
        _ => answers.tell("the first two statements", b"not there"),
    }
}

fn tell_codes(answers: &mut Answers) -> Result<(), AllocError> {
    answers.tell("PatKind::code_text(TooLong)", PatKind::TooLong.code_text())?;
    answers.tell(
        "PatKind::code_text(BenefitRange)",
        PatKind::BenefitRange.code_text(),
    )?;
    answers.tell(
        "PatKind::code_text(WrongPart)",
        PatKind::WrongPart.code_text(),
    )
}

pub fn tell(answers: &mut Answers) -> Result<(), AllocError> {
    let file = patterns(answers.alloc, FOLD)?;
    tell_file(answers, &file)?;
    tell_parts(answers, &file)?;
    tell_codes(answers)
}
