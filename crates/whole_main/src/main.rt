// 01's whole example through the node: prints answer, lengths and octets. Then the same with the downward link bad, and with the
// MinHopRankIncrease of 1 that a calibration sheet once gave.
#![tactic(auto)]

use message::Link;
use outcome::Outcome;
use own::Own;
use std::io;
use std::io::Write;

// The first n octets of a buffer, with a space before each, which line::Hex does not write. The space and the digits are one piece, as the
// output is not buffered.
fn print_octets<W: Write>(out: &mut W, s: &[u8], n: usize) -> io::Result<()> {
    // n beside s: a caller that cuts by get was tried, and the borrow checker covers no such part that is handed on
    for &x in s.iter().take(n) {
        let [high, low] = line::digits(x);
        out.write_all(&[b' ', high, low])?;
    }
    writeln!(out)
}

fn print_outcome<W: Write>(
    out: &mut W,
    r: Outcome,
    forward: &[u8],
    reply: &[u8],
) -> io::Result<()> {
    let answer = answer::number(r.answer);
    writeln!(
        out,
        "answer {answer} forward {} reply {}",
        r.forward.size, r.reply.size
    )?;
    print_octets(out, forward, r.forward.size)?;
    print_octets(out, reply, r.reply.size)
}

// Both own addresses fd00::2.
fn card() -> Own {
    Own {
        receiving: [0xfd, 0, 0, 0, 0, 0, 0, 0, 0, 0, 0, 0, 0, 0, 0, 2],
        sending: [0xfd, 0, 0, 0, 0, 0, 0, 0, 0, 0, 0, 0, 0, 0, 0, 2],
    }
}

// From the neighbour fe80::5, to the group, with an increase of 256.
fn link(downward: bool) -> Link {
    Link {
        neighbour: [0xfe, 0x80, 0, 0, 0, 0, 0, 0, 0, 0, 0, 0, 0, 0, 0, 5],
        upward: true,
        downward,
        increase: 256,
        group: true,
    }
}

// A fresh node of 4 rows a table is given one message at time 0.
fn run<W: Write>(out: &mut W, octets: &[u8], downward: bool) -> io::Result<()> {
    let mut instances = [row::no_row(); 4];
    let mut routes = [row::no_route(); 4];
    let mut forward = [0u8; 1236];
    let mut reply = [0u8; 1236];
    let r = calls::message(
        &mut instances,
        &mut routes,
        &mut forward,
        &mut reply,
        octets,
        card(),
        0,
        240,
        0,
        link(downward),
    );
    print_outcome(out, r, &forward, &reply)
}

fn main(rt: HostRuntime) -> io::Result<()> {
    let mut out = io::writer(&rt);
    let whole =
        b"\x81\x00\x03\x00\x20\x00\x00\x00\xfd\x00\x00\x00\x00\x00\x00\x00\x00\x00\x00\x00\x00\x00\x00\x01\x0b\x03\xc0\x87\xf0\x0d\x12\x00\x00\xfd\x00\x00\x00\x00\x00\x00\x00\x00\x00\x00\x00\x00\x00\x00\x09";
    let sheet =
        b"\x81\x00\x03\x00\x20\x00\x00\x00\xfd\x00\x00\x00\x00\x00\x00\x00\x00\x00\x00\x00\x00\x00\x00\x01\x04\x0e\x00\x00\x00\x00\x00\x00\x00\x01\x00\x00\x00\x01\x00\x01\x0b\x03\xc0\x87\xf0\x0d\x12\x00\x00\xfd\x00\x00\x00\x00\x00\x00\x00\x00\x00\x00\x00\x00\x00\x00\x09";
    run(&mut out, whole, true)?;
    run(&mut out, whole, false)?;
    run(&mut out, sheet, true)
}
