//! Calls of `pdll_sizes`, of declarations that are as large as they may be and of larger ones. The number that a line tells
//! is how many of the declarations are too large.

use crate::spelling::patterns;
use call_answers::Answers;
use pdll_sizes::Sizes;
use std::alloc::{AllocError, Global};

// A piece that stands many times between two texts.
struct Repeated {
    before: &'static [u8],
    piece: &'static [u8],
    behind: &'static [u8],
}

const STATEMENTS: Repeated = Repeated {
    before: b"Constraint C(a: Attr) { ",
    piece: b"a; ",
    behind: b"}",
};

// Those of the constraint of a parameter count at the parameter.
const BY_PARAMETER: Repeated = Repeated {
    before: b"Constraint D(a: Attr) { ",
    piece: b"a; ",
    behind: b"} Constraint C(a: [Attr, D]) { a; }",
};

// Those of a constraint count at each call.
const BY_CALLS: Repeated = Repeated {
    before: b"Constraint D(a: Attr) { ",
    piece: b"a; ",
    behind: b"} Constraint C(a: Attr) { D(a); D(a); }",
};

// One more stands behind them.
const OPERATIONS: Repeated = Repeated {
    before: b"Pattern { ",
    piece: b"op<t.a>; ",
    behind: b"erase op<t.b>; }",
};

// Two more stand before them.
const EXPRESSIONS: Repeated = Repeated {
    before: b"Constraint C(a: Attr) { D(a",
    piece: b", a",
    behind: b"); }",
};

// Each has a result, an operation, a list of operands that is left out and an entry without a value: four expressions.
const LEFT_OUT: Repeated = Repeated {
    before: b"Constraint C(a: Attr) { D(a",
    piece: b", op<t.a> {k} -> ().0",
    behind: b"); }",
};

// Each calls the one before it twice, and so has two statements more than twice those of that one.
const DOUBLED: Repeated = Repeated {
    before: b"",
    piece: b"Constraint C(a: Attr) { C(a); C(a); } ",
    behind: b"",
};

fn text_of(alloc: Global, given: &Repeated, times: usize) -> Result<Vec<u8>, AllocError> {
    let mut text = Vec::from_slice(alloc, given.before)?;
    for _ in 0..times {
        text.extend_from_slice(given.piece)?;
    }
    text.extend_from_slice(given.behind)?;
    Ok(text)
}

// How many declarations are too large.
fn too_large(alloc: Global, text: &[u8]) -> Result<usize, AllocError> {
    let file = patterns(alloc, text)?;
    let mut sizes = Sizes::new(alloc);
    let mut count: usize = 0;
    for decl in file.decls.as_slice() {
        count = count.saturating_add(usize::from(sizes.is_too_large(decl)));
        sizes.declare(decl)?;
    }
    Ok(count)
}

fn tell_times(
    answers: &mut Answers,
    what: &str,
    given: &Repeated,
    times: usize,
) -> Result<(), AllocError> {
    let text = text_of(answers.alloc, given, times)?;
    let count = too_large(answers.alloc, &text)?;
    let call = format!(in answers.alloc; "Sizes::is_too_large({times} {what})")?;
    answers.tell_value(call.as_str(), &count)
}

// Tells of as many as there may be, and of one more.
fn tell_limit(
    answers: &mut Answers,
    what: &str,
    given: &Repeated,
    most: u16,
) -> Result<(), AllocError> {
    tell_times(answers, what, given, usize::from(most))?;
    tell_times(answers, what, given, usize::from(most) + 1)
}

fn tell_statements(answers: &mut Answers) -> Result<(), AllocError> {
    tell_limit(answers, "statements", &STATEMENTS, 4096)?;
    tell_limit(
        answers,
        "statements for a parameter, and one",
        &BY_PARAMETER,
        4095,
    )?;
    tell_limit(answers, "statements for each of two calls", &BY_CALLS, 2047)
}

fn tell_expressions(answers: &mut Answers) -> Result<(), AllocError> {
    tell_limit(answers, "operations, and one", &OPERATIONS, 255)?;
    tell_limit(
        answers,
        "arguments and one, and their call",
        &EXPRESSIONS,
        65533,
    )?;
    tell_limit(
        answers,
        "arguments of four expressions, and two",
        &LEFT_OUT,
        16383,
    )
}

fn tell_doubled(answers: &mut Answers) -> Result<(), AllocError> {
    tell_limit(
        answers,
        "constraints that call the one before twice",
        &DOUBLED,
        11,
    )?;
    tell_times(
        answers,
        "constraints that call the one before twice",
        &DOUBLED,
        100,
    )
}

// Patterns of 60,012 expressions, of which 1,000,000 are the most of a file.
fn tell_file(answers: &mut Answers) -> Result<(), AllocError> {
    let alloc = answers.alloc;
    let mut text = text_of(
        alloc,
        &Repeated {
            before: b"Constraint C(a: Attr) { D(",
            piece: b"a, ",
            behind: b"a); } ",
        },
        19_999,
    )?;
    for _ in 0..18 {
        text.extend_from_slice(b"Pattern { C(a); C(a); C(a); erase op<t.b>; } ")?;
    }
    answers.tell_value(
        "Sizes::is_too_large(18 patterns of 60012 expressions)",
        &too_large(alloc, &text)?,
    )
}

pub fn tell(answers: &mut Answers) -> Result<(), AllocError> {
    tell_statements(answers)?;
    tell_expressions(answers)?;
    tell_doubled(answers)?;
    tell_file(answers)
}
