//! Threads that wait for each other in a circle.

ghost use Rattle.std.specs.Prelude.{◌≡◌, ◌++◌, IfOk, IsTrue, OnOk};
ghost use Rattle.script.specs.Script.{named};
ghost use Rattle.run_text.specs.Circle.{IsCircle, IsLink, Leads, circle_lines, link_line};

use crate::call_text::{put, put_name};
use crate::link::Link;
use crate::search::links_of;
use crate::waiting::{is_holder, object_of};
use history::header::Header;
use indexmap::IndexMap;
use script::Worker;
use std::alloc::{AllocError, Global};
use workers::Standing;

fn is_link(workers: &[Worker], standings: &[Standing], link: Link) -> bool
    ensures { IsTrue result → IsLink workers.now standings.now link }
{
    match object_of(workers, standings, link.waiter) {
        Some(object) => {
            object == link.object && is_holder(workers, standings, link.holder, object)
        }
        None => false,
    }
}

/// Returns whether links lead from one thread to another.
fn leads(workers: &[Worker], standings: &[Standing], from: usize, links: &[Link], to: usize) -> bool
    ensures { IsTrue result → Leads workers.now standings.now from links.now to }
{
    let [link, more @ ..] = links else {
        return from == to;
    };
    link.waiter == from
        && is_link(workers, standings, *link)
        && leads(workers, standings, link.holder, more, to)
}

fn is_circle(workers: &[Worker], standings: &[Standing], links: &[Link]) -> bool
    ensures { IsTrue result → IsCircle workers.now standings.now links.now }
{
    match links.first() {
        Some(first) => leads(workers, standings, first.waiter, links, first.waiter),
        None => true,
    }
}

/// Returns threads that wait for each other in a circle, or nothing. What the search finds is checked.
pub(crate) fn circle_of(
    alloc: Global,
    workers: &[Worker],
    standings: &[Standing],
) -> Result<Vec<Link>, AllocError>
    ensures { IfOk result (λ links. IsCircle workers.now standings.now links.items) }
{
    let links = links_of(alloc, workers, standings)?;
    if is_circle(workers, standings, &links) {
        Ok(links)
    } else {
        Ok(Vec::new(alloc))
    }
}

/// Appends the line of a link.
fn put_link(
    out: &mut Vec<u8>,
    objects: &IndexMap<String, Header>,
    link: Link,
) -> Result<(), AllocError>
    ensures { OnOk result (out.new.items
        ≡ out.old.items ++ link_line (named objects.now.entries) link) }
{
    put(out, b"circle: thread ", link.waiter as u64)?;
    out.extend_from_slice(b" waits for ")?;
    put_name(out, objects, link.object)?;
    put(out, b", held by thread ", link.holder as u64)?;
    out.extend_from_slice(b"\n")
}

/// Appends the lines of a circle.
pub(crate) fn put_circle(
    out: &mut Vec<u8>,
    objects: &IndexMap<String, Header>,
    links: &[Link],
) -> Result<(), AllocError>
    ensures { OnOk result (out.new.items
        ≡ out.old.items ++ circle_lines (named objects.now.entries) links.now) }
{
    let [link, more @ ..] = links else {
        return Ok(());
    };
    put_link(out, objects, *link)?;
    put_circle(out, objects, more)
}
