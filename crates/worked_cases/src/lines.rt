//! Reads the lines of a case.

use crate::case::{Case, Place, Wanted, Way};
use std::alloc::{AllocError, Global};

/// Why a case can't be read.
#[derive(Clone, Copy, Debug, PartialEq, Eq)]
pub enum Bad<'a> {
    Line(&'a str),
    Memory,
}

impl From<AllocError> for Bad<'_> {
    fn from(_: AllocError) -> Self {
        Bad::Memory
    }
}

// Reads as a number, or tells the line.
fn number<'a>(text: &str, line: &'a str) -> Result<usize, Bad<'a>> {
    text.parse::<usize>().map_err(|_| Bad::Line(line))
}

// Puts a piece of text as many times: a line, a text without a line feed, or bytes in hexadecimal.
fn put_piece<'a>(
    case: &mut Case,
    times: usize,
    mark: &str,
    text: &str,
    line: &'a str,
) -> Result<(), Bad<'a>> {
    for _ in 0..times {
        match mark {
            "|" => {
                case.put(text.as_bytes())?;
                case.put(b"\n")?;
            }
            "+" => case.put(text.as_bytes())?,
            "x" => put_bytes(case, text, line)?,
            _ => return Err(Bad::Line(line)),
        }
    }
    Ok(())
}

fn put_bytes<'a>(case: &mut Case, text: &str, line: &'a str) -> Result<(), Bad<'a>> {
    for digits in text.split_whitespace() {
        let Ok(byte) = u8::from_str_radix(digits, 16) else {
            return Err(Bad::Line(line));
        };
        case.put(&[byte])?;
    }
    Ok(())
}

fn halves(line: &str) -> (&str, &str) {
    line.split_once(' ').unwrap_or((line, ""))
}

fn way_of<'a>(text: &str, line: &'a str) -> Result<Way, Bad<'a>> {
    match text {
        "" => Ok(Way::Is),
        "has" => Ok(Way::Has),
        "ends" => Ok(Way::Ends),
        _ => Err(Bad::Line(line)),
    }
}

fn read_words(alloc: Global, case: &mut Case, text: &str) -> Result<(), AllocError> {
    case.words.clear();
    for word in text.split_whitespace() {
        case.words.push(String::from_str(alloc, word)?)?;
    }
    Ok(())
}

fn push_call(case: &mut Case, call: u32) -> Result<(), AllocError> {
    case.fail.push(call)?;
    Ok(())
}

fn read_fails<'a>(case: &mut Case, text: &str, line: &'a str) -> Result<(), Bad<'a>> {
    for word in text.split_whitespace() {
        let Ok(call) = word.parse::<u32>() else {
            return Err(Bad::Line(line));
        };
        push_call(case, call)?;
    }
    Ok(())
}

// Reads a line that isn't text.
fn read_setting<'a>(alloc: Global, case: &mut Case, line: &'a str) -> Result<(), Bad<'a>> {
    let (head, rest) = halves(line);
    match head {
        "words" => read_words(alloc, case, rest)?,
        "file" => case.begin_file(alloc, rest)?,
        "most" => case.most = number(rest, line)?,
        "fail" => read_fails(case, rest, line)?,
        "out-room" => case.out_room = number(rest, line)?,
        "log-room" => case.log_room = number(rest, line)?,
        "status" => match rest.parse::<u8>() {
            Ok(status) => case.status = Some(status),
            Err(_) => return Err(Bad::Line(line)),
        },
        "out" => {
            case.out.way = way_of(rest, line)?;
            case.place = Place::Out;
        }
        "log" => {
            case.log.way = way_of(rest, line)?;
            case.place = Place::Log;
        }
        _ => return Err(Bad::Line(line)),
    }
    Ok(())
}

fn read_line<'a>(alloc: Global, case: &mut Case, line: &'a str) -> Result<(), Bad<'a>> {
    let (head, rest) = halves(line);
    if let "|" | "+" | "x" = head {
        return put_piece(case, 1, head, rest, line);
    }
    match head.parse::<usize>() {
        Ok(times) => {
            let (mark, text) = halves(rest);
            put_piece(case, times, mark, text, line)
        }
        Err(_) => read_setting(alloc, case, line),
    }
}

/// The case that these lines tell.
pub fn read_case<'a>(alloc: Global, lines: &'a str) -> Result<Case, Bad<'a>> {
    let mut case = Case::new(alloc)?;
    for line in lines.lines() {
        if !line.is_empty() && !line.starts_with('#') {
            read_line(alloc, &mut case, line)?;
        }
    }
    case.complete(alloc)?;
    Ok(case)
}
