// What traces_main prints: lines of words, decimal numbers, and octets in hexadecimal.
#![tactic(auto)]

use answer::Destination;
use line::{Hex, Targets};
use outcome::{Outcome, Sent};
use row::{InstanceRow, RouteRow};
use std::io::Write;
use std::{fmt, io};
use tally::Tally;

// The first n octets of a buffer, where there are any.
pub fn buffer<W: Write>(out: &mut W, name: &[u8], s: &[u8], n: usize) -> io::Result<()> {
    // n beside s: a caller that cuts was tried, and the borrow checker covers no such cut of a node's field
    if n == 0 || s.len() < n {
        return Ok(());
    }
    // a name of octets, and no &str: what is taken may not shrink
    out.write_all(name)?;
    writeln!(out, "{}", Hex(&s[..n]))
}

// ---- an outcome

fn destination<W: Write>(out: &mut W, d: Destination) -> io::Result<()> {
    match d {
        Destination::Nowhere => write!(out, " nowhere"),
        Destination::Group => write!(out, " group"),
        Destination::Neighbour(a) => write!(out, " {}", Hex(&a)),
        Destination::Caller => write!(out, " caller"),
    }
}

fn sent<W: Write>(out: &mut W, name: &str, s: Sent) -> io::Result<()> {
    write!(out, "{name} {}", s.size)?;
    destination(out, s.to)
}

pub fn outcome<W: Write>(out: &mut W, number: u32, r: Outcome) -> io::Result<()> {
    // a name is a piece of its own, with the space before it: the output is not buffered, and each piece is a write
    write!(out, "call")?;
    write!(out, " {number} answer")?;
    write!(out, " {}", answer::number(r.answer))?;
    sent(out, " forward", r.forward)?;
    sent(out, " reply", r.reply)?;
    write!(out, " clock")?;
    write!(out, " {} number", r.clock)?;
    writeln!(out, " {}", r.seq)
}

pub fn tally<W: Write>(out: &mut W, t: &Tally) -> io::Result<()> {
    write!(out, "tally")?;
    for n in &t.counts {
        write!(out, " {n}")?;
    }
    writeln!(out)
}

// ---- rows

// Until when a row lives, if it has a deadline, after a space.
#[derive(Clone, Copy)]
struct Until(Option<u64>);

impl fmt::Display for Until {
    fn fmt<W: fmt::Write>(&self, f: &mut fmt::Formatter<W>) -> fmt::Result {
        match self.0 {
            Some(deadline) => write!(f, " {deadline}"),
            None => write!(f, " endless"),
        }
    }
}

// What 01 names for a request row, after a space.
#[derive(Clone, Copy)]
struct Request<'a>(&'a InstanceRow);

impl<'a> fmt::Display for Request<'a> {
    fn fmt<W: fmt::Write>(&self, f: &mut fmt::Formatter<W>) -> fmt::Result {
        // a name, since it is read so often
        let r = self.0;
        write!(f, " request")?;
        write!(f, " {} {} {}", r.instance, Hex(&r.dodagid), r.seq)?;
        write!(f, " {} {}", u8::from(r.s != 0), u8::from(r.h != 0))?;
        write!(
            f,
            " {} {} {}",
            r.rank,
            Hex(&r.neighbour),
            u8::from(r.replied != 0)
        )?;
        let until = Until(row::deadline(r.endless, r.deadline));
        let count = usize::from(r.count);
        write!(f, "{until} {count}{}", Targets(&r.targets[..count.min(8)]))
    }
}

// What 01 names for a reply row, after a space.
#[derive(Clone, Copy)]
struct Reply<'a>(&'a InstanceRow);

impl<'a> fmt::Display for Reply<'a> {
    fn fmt<W: fmt::Write>(&self, f: &mut fmt::Formatter<W>) -> fmt::Result {
        // a name, since it is read so often
        let r = self.0;
        let until = Until(row::deadline(r.endless, r.deadline));
        write!(f, " reply")?;
        write!(
            f,
            " {} {} {} {}{until}",
            r.instance,
            Hex(&r.dodagid),
            r.seq,
            r.rank
        )
    }
}

// A route, after its number.
#[derive(Clone, Copy)]
struct Route<'a>(&'a RouteRow);

impl<'a> fmt::Display for Route<'a> {
    fn fmt<W: fmt::Write>(&self, f: &mut fmt::Formatter<W>) -> fmt::Result {
        // a name, since it is read so often
        let r = self.0;
        let until = Until(row::deadline(r.endless, r.deadline));
        write!(
            f,
            "{} {} {}",
            Hex(&r.source),
            Hex(&r.destination),
            r.instance
        )?;
        write!(f, " {} {}{until}", Hex(&r.next), r.seq)
    }
}

// The instance rows that are live at the clock. A row's kind is the number that C writes into the record.
pub fn rows<W: Write>(out: &mut W, rows: &[InstanceRow], clock: u64) -> io::Result<()> {
    for (i, r) in rows.iter().enumerate() {
        if live::is_live(*r, clock) {
            write!(out, "row")?;
            if r.kind == 1 {
                writeln!(out, " {i}{}", Request(r))?;
            } else {
                writeln!(out, " {i}{}", Reply(r))?;
            }
        }
    }
    Ok(())
}

// The routes that are live at the clock.
pub fn routes<W: Write>(out: &mut W, routes: &[RouteRow], clock: u64) -> io::Result<()> {
    for (i, r) in routes.iter().enumerate() {
        if live::is_live_route(*r, clock) {
            write!(out, "route")?;
            writeln!(out, " {i} {}", Route(r))?;
        }
    }
    Ok(())
}
