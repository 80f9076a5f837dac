//! Calls of `rw_outside`: files that are taken, and bytes that are put.

use call_answers::Answers;
use rw_outside::{
    BufferedSink, Failed, FileHost, Host, MemHost, MemSink, Sink, StreamSink, SureHost, SureSink,
    put_all, take_all,
};
use std::alloc::{AllocError, Global};
use std::fs;
use std::rt::Files;

// The file `five`.
fn one_file(alloc: Global) -> Result<Vec<(Vec<u8>, Vec<u8>)>, AllocError> {
    let mut files = Vec::new(alloc);
    let name = Vec::from_slice(alloc, b"five")?;
    files.push((name, Vec::from_slice(alloc, b"12345")?))?;
    Ok(files)
}

fn tell_taken<H: Host>(
    answers: &mut Answers,
    host: &mut H,
    call: &str,
    name: &str,
    limit: u8,
) -> Result<(), AllocError> {
    match take_all(answers.alloc, host, name, usize::from(limit)) {
        Ok(bytes) => answers.tell(call, &bytes),
        Err(err) => answers.tell_value(call, &err),
    }
}

fn tell_memory_files(answers: &mut Answers) -> Result<(), AllocError> {
    let alloc = answers.alloc;
    let mut host = MemHost::new(one_file(alloc)?, 2, Vec::new(alloc));
    tell_taken(answers, &mut host, "take_all(MemHost, five, 4)", "five", 4)?;
    tell_taken(answers, &mut host, "take_all(MemHost, five, 5)", "five", 5)?;
    tell_taken(answers, &mut host, "take_all(MemHost, six, 5)", "six", 5)
}

fn tell_sure_files(answers: &mut Answers) -> Result<(), AllocError> {
    let mut host = SureHost::new(one_file(answers.alloc)?);
    tell_taken(answers, &mut host, "take_all(SureHost, five, 4)", "five", 4)?;
    tell_taken(answers, &mut host, "take_all(SureHost, five, 5)", "five", 5)?;
    tell_taken(answers, &mut host, "take_all(SureHost, six, 5)", "six", 5)
}

fn tell_put<S: Sink>(
    answers: &mut Answers,
    sink: &mut S,
    call: &str,
    piece: &[u8],
) -> Result<(), AllocError> {
    let put = put_all(sink, piece);
    answers.tell_value(call, &put)
}

fn tell_memory_sink(answers: &mut Answers) -> Result<(), AllocError> {
    let mut sink = MemSink::new(answers.alloc, 3)?;
    tell_put(answers, &mut sink, "put_all(MemSink of 3, ab)", b"ab")?;
    tell_put(
        answers,
        &mut sink,
        "put_all(MemSink of 3 with ab, cd)",
        b"cd",
    )?;
    answers.tell("MemSink::bytes()", sink.bytes())
}

fn tell_sure_sink(answers: &mut Answers) -> Result<(), AllocError> {
    let mut sink = SureSink::new();
    tell_put(answers, &mut sink, "put_all(SureSink, ab)", b"ab")?;
    answers.tell_value("SureSink::totals()", &sink.totals())
}

fn put_pieces<S: Sink>(sink: &mut S) -> Result<(), Failed> {
    put_all(sink, b"ab")?;
    put_all(sink, b"cd")?;
    put_all(sink, b"e")?;
    put_all(sink, b"longer")?;
    put_all(sink, b"z")
}

// Puts pieces into a sink that gathers 4 bytes.
fn gather(sink: &mut MemSink, held: &mut Vec<u8>) -> Result<(), Failed> {
    let mut gathered = BufferedSink::new(sink, held);
    put_pieces(&mut gathered)?;
    gathered.flush()
}

fn tell_gathered(answers: &mut Answers) -> Result<(), AllocError> {
    let mut sink = MemSink::new(answers.alloc, 100)?;
    let mut held = Vec::with_capacity(answers.alloc, 4)?;
    answers.tell_value("BufferedSink::flush()", &gather(&mut sink, &mut held))?;
    answers.tell("MemSink::bytes() behind BufferedSink of 4", sink.bytes())
}

/// Tells of what is in memory.
pub fn tell(answers: &mut Answers) -> Result<(), AllocError> {
    tell_memory_files(answers)?;
    tell_sure_files(answers)?;
    tell_memory_sink(answers)?;
    tell_sure_sink(answers)?;
    tell_gathered(answers)
}

fn tell_stream<R: Files>(answers: &mut Answers, rt: &R) -> Result<(), AllocError> {
    let Ok(made) = fs::create(rt, "made") else {
        return answers.tell("fs::create(made)", b"no");
    };
    let mut sink = StreamSink::new(made);
    tell_put(
        answers,
        &mut sink,
        "put_all(StreamSink of made, written)",
        b"written",
    )
}

fn tell_files<H: Host>(answers: &mut Answers, host: &mut H) -> Result<(), AllocError> {
    tell_taken(answers, host, "take_all(FileHost, five, 5)", "five", 5)?;
    tell_taken(answers, host, "take_all(FileHost, five, 4)", "five", 4)?;
    tell_taken(answers, host, "take_all(FileHost, made, 7)", "made", 7)?;
    tell_taken(answers, host, "take_all(FileHost, made, 6)", "made", 6)?;
    tell_taken(answers, host, "take_all(FileHost, absent, 6)", "absent", 6)
}

/// Tells of real files and of a real stream.
pub fn tell_real<R: Files + Clone + Drop>(answers: &mut Answers, rt: &R) -> Result<(), AllocError> {
    tell_stream(answers, rt)?;
    let Ok(rt) = rt.clone() else {
        return Err(AllocError);
    };
    tell_files(answers, &mut FileHost::new(rt))
}
