// Reads messages from standard input, each after two octets of its length, and prints a line for each: what the reader finds in it.
#![tactic(auto)]

ghost use Rattle.std.specs.Prelude.{length};
ghost use Rattle.reader.specs.Reading.{Bounded};

use line::{Hex, Targets, read_full};
use plain::{Base, Discovery};
use reader::Reading;
use std::io;
use std::io::{Read, Write};

fn print_base<W: Write>(out: &mut W, b: Base) -> io::Result<()> {
    let g = u8::from(b.g);
    let dodagid = Hex(&b.dodagid);
    write!(
        out,
        " {} {} {} {g} {} {dodagid}",
        b.instance, b.version, b.rank, b.prf
    )
}

fn print_configuration<W: Write>(out: &mut W, configuration: Option<[u8; 14]>) -> io::Result<()> {
    write!(out, " ")?;
    match configuration {
        Some(c) => write!(out, "{}", Hex(&c)),
        None => write!(out, "-"),
    }
}

fn print_discovery<W: Write>(out: &mut W, d: Discovery) -> io::Result<()> {
    let flag = u8::from(d.flag);
    let h = u8::from(d.h);
    write!(
        out,
        " {flag} {h} {} {} {} {}",
        d.compr, d.l, d.limit, d.number
    )
}

fn print_kind<W: Write>(out: &mut W, reply: bool) -> io::Result<()> {
    if reply {
        write!(out, " rrep")
    } else {
        write!(out, " rreq")
    }
}

fn print_vector<W: Write>(out: &mut W, v: &[[u8; 16]]) -> io::Result<()> {
    write!(out, " {}", v.len())?;
    for a in v {
        write!(out, " {}", Hex(a))?;
    }
    Ok(())
}

// A message that is heard, with its vector's addresses restored.
#[tactic(auto, using(lemmas::proofs::Cases::cases), unfolding(heard::specs::Parsed::parsed_of))]
fn print_message<W: Write>(out: &mut W, msg: &[u8], r: Reading) -> io::Result<()>
    requires { Bounded (length msg.now) r }
{
    let p = heard::parsed(r);
    print_kind(out, heard::is_reply(r))?;
    print_base(out, p.base)?;
    print_configuration(out, p.configuration)?;
    print_discovery(out, p.discovery)?;
    print_vector(out, &heard::vector_of(msg, r)[..p.n])?;
    write!(out, " {}{}", p.count, Targets(&p.targets[..p.count]))
}

// One message: its number, then its answer and, where it is heard, its fields.
fn show<W: Write>(out: &mut W, number: u64, msg: &[u8]) -> io::Result<()> {
    let reading = reader::read(msg);
    let answer = heard::octets_answer(reading.err());
    write!(out, "{number} {}", answer::number(answer))?;
    if let Ok(r) = reading {
        print_message(out, msg, r)?;
    }
    writeln!(out)
}

// The next record of the input: whether there was a whole one.
fn show_next<R: Read, W: Write>(input: &mut R, out: &mut W, number: u64) -> io::Result<bool> {
    let mut head = [0u8; 2];
    if !read_full(input, &mut head)? {
        return Ok(false);
    }
    let mut buf = [0u8; 65536];
    let size = usize::from(u16::from_be_bytes(head));
    if !read_full(input, &mut buf[..size])? {
        return Ok(false);
    }
    show(out, number, &buf[..size])?;
    Ok(true)
}

fn main(rt: HostRuntime) -> io::Result<()> {
    let mut input = rt.reader();
    let mut out = io::writer(&rt);
    // a range with an end: a loop must end
    for number in 1u64..=65536 {
        if !show_next(&mut input, &mut out, number)? {
            break;
        }
    }
    out.flush()
}
