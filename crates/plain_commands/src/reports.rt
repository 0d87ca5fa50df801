//! The texts of searches of which a stated budget is spent. The main calls are `text_of_report`, `text_of_open` and
//! `text_of_depth`.

ghost use Rattle.std.specs.Prelude.{◌≡◌, ◌+◌, ◌^◌, ◌<◌, ◌≤◌, ◌++◌, OnOk, IfOk, codes, decimal, take, drop, length};
ghost use Rattle.plain_commands.specs.Texts.{limit_number, worker_text, workers_text, lasso_text, lassos_text};
ghost use Rattle.plain_commands.specs.Texts.{round_workers_in, first_property, unknown_text, open_text, depth_text};

use command_lines::ShortestRequest;
use edge::Spending;
use search_reports::Report;
use std::alloc::{AllocError, Global};
use text_grammar::push_number;
use wall_store::Served;

/// An answer of status 2.
pub(crate) fn text_of_report(alloc: Global, report: &Report) -> Result<Vec<u8>, AllocError>
    ensures { IfOk result (λ text. text.items ≡ unknown_text report.now) }
{
    let mut text = Vec::from_slice(alloc, b"2\nj")?;
    push_number(&mut text, u64::from(first_property(report.board.served())))?;
    text.extend_from_slice(b"\nc entries ")?;
    push_number(&mut text, report.board.entries().len() as u64)?;
    text.extend_from_slice(b" of ")?;
    push_number(&mut text, u64::from(report.board.limit()))?;
    text.extend_from_slice(b"\n")?;
    push_all(&mut text, report)?;
    text.extend_from_slice(b".\n")?;
    Ok(text)
}

// The workers of a report, of which the last ones are lasso workers.
fn push_all(text: &mut Vec<u8>, report: &Report) -> Result<(), AllocError>
    ensures { OnOk result (text.new.items ≡ text.old.items ++ workers_text 0 (take (round_workers_in report.now) report.now.workers)
        ++ lassos_text report.now.depth (round_workers_in report.now)
        (drop (round_workers_in report.now) report.now.workers) report.now.depths) }
{
    let workers = report.workers.as_slice();
    let depths = report.depths.as_slice();
    let rounds = workers.len().saturating_sub(depths.len());
    let (front, last) = workers.split_at(rounds);
    push_workers(text, front)?;
    push_lassos(text, report.depth, rounds, last, depths)
}

// The lasso workers from this number on, with what each of them has done.
fn push_lassos(
    text: &mut Vec<u8>,
    depth: u32,
    first: usize,
    workers: &[Spending],
    depths: &[u32],
) -> Result<(), AllocError>
    requires few { first + length workers.now < 2 ^ 64 }
    requires each { length workers.now ≤ length depths.now }
    ensures { OnOk result (text.new.items ≡ text.old.items ++ lassos_text depth first workers.now depths.now) }
{
    let mut w = first as u64;
    for i in 0..workers.len() {
        push_lasso(text, depth, w, &workers[i], depths[i])?;
        w += 1;
    }
    Ok(())
}

fn push_lasso(
    text: &mut Vec<u8>,
    depth: u32,
    w: u64,
    spent: &Spending,
    done: u32,
) -> Result<(), AllocError>
    ensures { OnOk result (text.new.items ≡ text.old.items ++ lasso_text depth w spent.now done) }
{
    text.extend_from_slice(b"c worker ")?;
    push_number(text, w)?;
    push_count(
        text,
        " conflicts ",
        spent.conflicts(),
        spent.conflict_limit(),
    )?;
    push_count(text, " depth ", u64::from(done), Some(u64::from(depth)))?;
    text.push(b'\n')?;
    Ok(())
}

/// The same of a search for rounds of a property, which counts as one worker whose list has no entries.
pub(crate) fn text_of_open(
    alloc: Global,
    property: u32,
    spent: &Spending,
) -> Result<Vec<u8>, AllocError>
    ensures { IfOk result (λ text. text.items ≡ open_text property spent.now) }
{
    let mut text = Vec::from_slice(alloc, b"2\nj")?;
    push_number(&mut text, u64::from(property))?;
    text.extend_from_slice(b"\nc entries 0 of 65536\n")?;
    push_worker(&mut text, 0, spent)?;
    text.extend_from_slice(b".\n")?;
    Ok(text)
}

/// The same of a search for a shortest lasso, which has done so many positions.
pub(crate) fn text_of_depth(
    alloc: Global,
    request: &ShortestRequest,
    done: u32,
    spent: &Spending,
) -> Result<Vec<u8>, AllocError>
    ensures { IfOk result (λ text. text.items ≡ depth_text request.now.property done request.now.depth spent.now) }
{
    let mut text = Vec::from_slice(alloc, b"2\nj")?;
    push_number(&mut text, u64::from(request.property))?;
    text.extend_from_slice(b"\nc entries 0 of 0\n")?;
    push_lasso(&mut text, request.depth, 0, spent, done)?;
    text.extend_from_slice(b".\n")?;
    Ok(text)
}

fn first_property(served: &[Served]) -> u32
    ensures { result ≡ first_property served.now }
{
    match served.first() {
        Some(first) => first.property,
        None => 0,
    }
}

fn push_workers(text: &mut Vec<u8>, workers: &[Spending]) -> Result<(), AllocError>
    ensures { OnOk result (text.new.items ≡ text.old.items ++ workers_text 0 workers.now) }
{
    for (w, spent) in workers.iter().enumerate() {
        push_worker(text, w as u64, spent)?;
    }
    Ok(())
}

fn push_worker(text: &mut Vec<u8>, w: u64, spent: &Spending) -> Result<(), AllocError>
    ensures { OnOk result (text.new.items ≡ text.old.items ++ worker_text w spent.now) }
{
    text.extend_from_slice(b"c worker ")?;
    push_number(text, w)?;
    push_count(
        text,
        " conflicts ",
        spent.conflicts(),
        spent.conflict_limit(),
    )?;
    push_count(text, " steps ", spent.steps(), spent.step_limit())?;
    text.push(b'\n')?;
    Ok(())
}

fn push_count(
    text: &mut Vec<u8>,
    words: &str,
    count: u64,
    limit: Option<u64>,
) -> Result<(), AllocError>
    ensures { OnOk result (text.new.items
        ≡ text.old.items ++ words.now ++ decimal count ++ codes " of " ++ decimal (limit_number limit)) }
{
    text.extend_from_slice(words.as_bytes())?;
    push_number(text, count)?;
    text.extend_from_slice(b" of ")?;
    push_number(text, limit_number(limit))?;
    Ok(())
}

fn limit_number(limit: Option<u64>) -> u64
    ensures { result ≡ limit_number limit }
{
    limit.unwrap_or(4_294_967_295)
}
