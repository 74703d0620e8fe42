// Runs recorded lists of calls from standard input and prints after each call what it came to: answer, lengths, destinations, clock, own
// number, octets and live rows; and the tally at the end of each list. trace_input has the form of a record. The kinds of records:
//   n           a fresh node: its own addresses, and how many instance rows and route rows it has
//   m           a received message: its time, its link facts, its octets
//   s           a start: its time, its fields, its targets
//   a b c d     handed in by the host: own addresses, lengths of the buffers, clock, own number
//   r t k       and: an instance row, a route, the tally's count of one answer
//   e           the end of the list
#![tactic(auto)]

use outcome::Outcome;
use own::Own;
use row::{InstanceRow, RouteRow};
use start::Asking;
use std::io;
use std::io::{Read, Write};
use tally::Tally;
use trace_input::Kind;

// What a node's host keeps for it by value: its settings, clock and own number, how much it lends of each buffer, and how many calls
// it made.
#[derive(Clone, Copy)]
struct Host {
    own: Own,
    clock: u64,
    seq: u8,
    // how much of each buffer is lent: numbers, and no Vec, as there is no heap
    forward: usize,
    reply: usize,
    calls: u32,
}

// A node on the tables that are lent to it, with its host's buffers and tally.
#[derive(Drop)]
struct Node<'a> {
    instances: &'a mut [InstanceRow],
    routes: &'a mut [RouteRow],
    forward: [u8; 2048],
    reply: [u8; 2048],
    host: Host,
    tally: Tally,
}

// What a start brings, after its time.
fn asking_at(o: &[u8]) -> Asking {
    Asking {
        instance: art::octet_at(o, 8),
        h: trace_input::flag_at(o, 9),
        compr: art::octet_at(o, 10),
        l: art::octet_at(o, 11),
        limit: art::octet_at(o, 12),
    }
}

impl<'a> Node<'a> {
    fn fresh(instances: &'a mut [InstanceRow], routes: &'a mut [RouteRow], own: Own) -> Node<'a> {
        Node {
            instances,
            routes,
            forward: [0; 2048],
            reply: [0; 2048],
            host: Host {
                own,
                clock: 0,
                seq: 240,
                forward: 1236,
                reply: 1236,
                calls: 0,
            },
            tally: Tally { counts: [0; 18] },
        }
    }

    // A received message: what the call comes to.
    fn message(&mut self, o: &[u8]) -> Outcome {
        // a copy: it is read five times below
        let h = self.host;
        // whole slices first: the borrow checker covers no part of a field that is an array
        let forward = &mut self.forward[..];
        let reply = &mut self.reply[..];
        calls::message(
            self.instances,
            self.routes,
            &mut forward[..h.forward.min(2048)],
            &mut reply[..h.reply.min(2048)],
            &o[trace_input::message_from(o)..],
            h.own,
            h.clock,
            h.seq,
            trace_input::eight_at(o, 0),
            trace_input::link_at(o),
        )
    }

    // A start: what the call comes to.
    fn start(&mut self, o: &[u8]) -> Outcome {
        // a copy: it is read five times below
        let h = self.host;
        // whole slices first: the borrow checker covers no part of a field that is an array
        let forward = &mut self.forward[..];
        let reply = &mut self.reply[..];
        let targets = trace_input::targets_at(o);
        calls::start(
            self.instances,
            self.routes,
            &mut forward[..h.forward.min(2048)],
            &mut reply[..h.reply.min(2048)],
            &targets[..trace_input::target_count(o)],
            h.own,
            h.clock,
            h.seq,
            trace_input::eight_at(o, 0),
            asking_at(o),
        )
    }

    // Counts a call and prints what it came to.
    fn tell<W: Write>(&mut self, out: &mut W, r: Outcome) -> io::Result<()> {
        tally::raise(&mut self.tally, outcome::answer_of(r));
        self.host.clock = r.clock;
        self.host.seq = r.seq;
        self.host.calls = self.host.calls.wrapping_add(1);
        trace_print::outcome(out, self.host.calls, r)?;
        trace_print::buffer(out, b"forward ", &self.forward, r.forward.size)?;
        trace_print::buffer(out, b"reply ", &self.reply, r.reply.size)?;
        trace_print::rows(out, self.instances, r.clock)?;
        trace_print::routes(out, self.routes, r.clock)
    }

    // One record: a call, or something handed in.
    fn turn<W: Write>(&mut self, out: &mut W, kind: Kind, o: &[u8]) -> io::Result<()> {
        match kind {
            Kind::Message => {
                let r = self.message(o);
                self.tell(out, r)?;
            }
            Kind::Start => {
                let r = self.start(o);
                self.tell(out, r)?;
            }
            Kind::Own => self.host.own = trace_input::own_at(o),
            Kind::Buffers => {
                self.host.forward = usize::from(trace_input::pair_at(o, 0));
                self.host.reply = usize::from(trace_input::pair_at(o, 2));
            }
            Kind::Clock => self.host.clock = trace_input::eight_at(o, 0),
            Kind::Number => self.host.seq = art::octet_at(o, 0),
            Kind::Row => trace_input::hand_in_row(self.instances, o),
            Kind::Route => trace_input::hand_in_route(self.routes, o),
            Kind::Count => trace_input::hand_in_count(&mut self.tally, o),
            Kind::Fresh | Kind::End | Kind::Other => {}
        }
        Ok(())
    }

    // The records of a list after its first, until its end.
    fn serve<R: Read, W: Write>(&mut self, input: &mut R, out: &mut W) -> io::Result<()> {
        let mut octets = [0u8; 2048];
        // a range with an end: a loop must end
        for _ in 0..65536 {
            let Some(head) = trace_input::read_record(input, &mut octets)? else {
                return Ok(());
            };
            if head.kind == Kind::End {
                return trace_print::tally(out, &self.tally);
            }
            self.turn(out, head.kind, &octets[..head.size])?;
        }
        Ok(())
    }
}

// One list on a fresh node: whether there was one.
fn list<R: Read, W: Write>(input: &mut R, out: &mut W, number: u64) -> io::Result<bool> {
    let mut octets = [0u8; 2048];
    let Some(head) = trace_input::read_record(input, &mut octets)? else {
        return Ok(false);
    };
    if head.kind != Kind::Fresh {
        return Ok(false);
    }
    let mut instances = [row::no_row(); 80];
    let mut routes = [row::no_route(); 80];
    let instances = &mut instances[..trace_input::rows_at(&octets, 32)];
    let routes = &mut routes[..trace_input::rows_at(&octets, 34)];
    write!(out, "list")?;
    writeln!(out, " {number}")?;
    let mut node = Node::fresh(instances, routes, trace_input::own_at(&octets));
    node.serve(input, out)?;
    Ok(true)
}

fn main(rt: HostRuntime) -> io::Result<()> {
    let mut input = rt.reader();
    let mut out = io::writer(&rt);
    // a range with an end: a loop must end
    for number in 1u64..=65536 {
        if !list(&mut input, &mut out, number)? {
            break;
        }
    }
    out.flush()
}
