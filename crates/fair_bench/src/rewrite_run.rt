//! The subcommand `rewrite`: reads a model and writes it in memory in both forms, and measures each beside a plain loop
//! over the same text. The main call is `run_rewrite`.

use crate::failure::Failure;
use crate::models::read_model;
use crate::outside::{print_text, read_file};
use crate::stamps::Stamp;
use aig_semantics::MAX_MODEL_BYTES;
use aiger_names::Model;
use std::alloc::Global;
use std::io;

/// The length of a text, and the nanoseconds of processor time that reading or writing it took, and that a plain loop
/// over it took.
#[derive(Clone, Copy)]
struct Measured {
    bytes: u64,
    work: u64,
    plain: u64,
    sum: u64,
}

/// What was measured of reading, of writing in ASCII, and of writing in binary, where the model has a binary text as it
/// stands.
#[derive(Clone, Copy)]
struct Report {
    reading: Measured,
    ascii: Measured,
    binary: Option<Measured>,
}

/// Reads the model in a file and writes it in memory. Standard output gets the lengths of the texts, and standard error
/// the times. Gives the number with which the program ends.
pub(crate) fn run_rewrite(rt: &HostRuntime, name: &str) -> Result<u8, Failure> {
    let report = measure_file(rt, name)?;
    print_lengths(rt, report)?;
    print_times(rt, report)?;
    Ok(0)
}

fn measure_file(rt: &HostRuntime, name: &str) -> Result<Report, Failure> {
    let bytes = read_file(rt, name, MAX_MODEL_BYTES)?;
    let plain = measure_loop(rt, &bytes)?;
    measure_model(rt, &bytes, plain)
}

// Measures a loop over a text. The work is not measured yet.
fn measure_loop(rt: &HostRuntime, bytes: &[u8]) -> Result<Measured, Failure> {
    let start = Stamp::now(rt)?;
    let sum = sum_of_numbers(bytes);
    let end = Stamp::now(rt)?;
    Ok(Measured {
        bytes: bytes.len() as u64,
        work: 0,
        plain: start.processor_to(end),
        sum,
    })
}

// The sum of the numbers in a text, to compare with: each byte is looked at once, and nothing is kept.
fn sum_of_numbers(bytes: &[u8]) -> u64 {
    let mut sum: u64 = 0;
    let mut number: u64 = 0;
    for byte in bytes {
        match byte {
            b'0'..=b'9' => {
                let digit = u64::from(byte.wrapping_sub(b'0'));
                number = number.wrapping_mul(10).wrapping_add(digit);
            }
            _ => {
                sum = sum.wrapping_add(number);
                number = 0;
            }
        }
    }
    sum.wrapping_add(number)
}

fn measure_model(rt: &HostRuntime, bytes: &[u8], plain: Measured) -> Result<Report, Failure> {
    let start = Stamp::now(rt)?;
    let model = read_model(rt.alloc(), bytes)?;
    let report = measure_both(rt, &model, start, plain);
    drop(model);
    report
}

// Measures the reading of a model that began at the start, and then its writing.
fn measure_both(
    rt: &HostRuntime,
    model: &Model,
    start: Stamp,
    plain: Measured,
) -> Result<Report, Failure> {
    let reading = measure_work(rt, start, plain)?;
    measure_writing(rt, model, reading)
}

// What was measured of the plain loop, with the work since the start.
fn measure_work(rt: &HostRuntime, start: Stamp, plain: Measured) -> Result<Measured, Failure> {
    let end = Stamp::now(rt)?;
    Ok(with_work(plain, start.processor_to(end)))
}

fn with_work(plain: Measured, work: u64) -> Measured {
    let mut measured = plain;
    measured.work = work;
    measured
}

fn measure_writing(rt: &HostRuntime, model: &Model, reading: Measured) -> Result<Report, Failure> {
    let ascii = measure_ascii(rt, model)?;
    let binary = measure_binary(rt, model)?;
    Ok(Report {
        reading,
        ascii,
        binary,
    })
}

fn measure_ascii(rt: &HostRuntime, model: &Model) -> Result<Measured, Failure> {
    let start = Stamp::now(rt)?;
    let text = aiger_ascii::write(rt.alloc(), model)?;
    measure_text(rt, start, &text)
}

// None where the model has no binary text as it stands.
fn measure_binary(rt: &HostRuntime, model: &Model) -> Result<Option<Measured>, Failure> {
    if !aiger_binary::is_ordered(model) {
        return Ok(None);
    }
    Ok(Some(measure_ordered(rt, model)?))
}

fn measure_ordered(rt: &HostRuntime, model: &Model) -> Result<Measured, Failure> {
    let start = Stamp::now(rt)?;
    let text = write_binary(rt.alloc(), model)?;
    measure_text(rt, start, &text)
}

fn write_binary(alloc: Global, model: &Model) -> Result<Vec<u8>, Failure> {
    if !aiger_binary::is_ordered(model) {
        return Err(Failure::BadInput);
    }
    Ok(aiger_binary::write(alloc, model)?)
}

// What a text took that was begun at the start, and a plain loop over it.
fn measure_text(rt: &HostRuntime, start: Stamp, text: &[u8]) -> Result<Measured, Failure> {
    let end = Stamp::now(rt)?;
    let plain = measure_loop(rt, text)?;
    Ok(with_work(plain, start.processor_to(end)))
}

fn print_lengths(rt: &HostRuntime, report: Report) -> Result<(), Failure> {
    print_length(rt, "read", report.reading)?;
    print_length(rt, "written in ASCII", report.ascii)?;
    match report.binary {
        Some(binary) => print_length(rt, "written in binary", binary),
        None => print_text(rt, "no binary text\n"),
    }
}

fn print_length(rt: &HostRuntime, what: &str, measured: Measured) -> Result<(), Failure> {
    let line = format!(in rt.alloc(); "bytes {what} {}\n", measured.bytes)?;
    print_text(rt, line.as_str())
}

fn print_times(rt: &HostRuntime, report: Report) -> io::Result<()> {
    print_time(rt, "read", report.reading)?;
    print_time(rt, "written in ASCII", report.ascii)?;
    match report.binary {
        Some(binary) => print_time(rt, "written in binary", binary),
        None => Ok(()),
    }
}

// The sum is printed too, so that the loop is run.
fn print_time(rt: &HostRuntime, what: &str, measured: Measured) -> io::Result<()> {
    eprintln!(rt; "nanoseconds {what} {}", measured.work)?;
    eprintln!(rt;
        "nanoseconds of a loop over what was {what} {}",
        measured.plain
    )?;
    eprintln!(rt; "sum of the numbers {what} {}", measured.sum)
}
