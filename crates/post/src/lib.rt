// What is sent, written into its buffer.
#![tactic(auto)]

ghost use Rattle.std.specs.Prelude.{◌≤◌, ◌≡◌, true, length, take};
ghost use Rattle.lemmas.specs.Written.{Written};
ghost use Rattle.plain.specs.Octets.{octets_of, elided};
ghost use Rattle.own.specs.Settings.{settings_of};
ghost use Rattle.writer_option.specs.Sendable.{Sendable, short_prefixes};
ghost use Rattle.decision.specs.Decision.{post_message, post_path, post_octets, Writable, Fits};
ghost use Rattle.post.specs.With.{message_with};

use decision::Post;
use message::Parsed;
use own::Own;

// A message with the addresses of a vector.
#[tactic(auto, using(lemmas::proofs::Cases::cases))]
fn put_parsed(out: &mut [u8], p: &Parsed, vector: &[[u8; 16]]) -> usize
    requires { Sendable p.now.discovery (length vector.now) × (p.now.count ≤ 8) × (short_prefixes (take p.now.count p.now.targets) ≡ true) × (1236 ≤ length out.old) }
    ensures { Written (octets_of (message_with p.now vector.now)) out.old out.new result }
{
    writer::put_message(
        out,
        p.base,
        p.configuration,
        p.discovery,
        vector,
        &p.targets[..p.count],
    )
}

// A message, with our addresses added where it has grown.
#[tactic(auto, using(lemmas::proofs::Cases::cases, crate::proofs::Laws::grown_fits, crate::proofs::Laws::grown_is, crate::proofs::Laws::grown_sendable, crate::proofs::Laws::plain_is, crate::proofs::Laws::plain_sendable))]
fn put_dio(out: &mut [u8], o: &Own, p: &Parsed, has_grown: bool, vector: &[[u8; 16]; 16]) -> usize
    requires { Writable (settings_of o.now) p.now has_grown vector.now × (length vector.now ≡ 16) × (1236 ≤ length out.old) }
    ensures { Written (octets_of (post_message (settings_of o.now) p.now has_grown vector.now)) out.old out.new result }
{
    let received = p.n;
    if has_grown {
        let n = grown::grown_count(*o, false, received);
        let v = added::grown_vector(*o, false, received, n, vector);
        return put_parsed(out, p, &v[..n]);
    }
    put_parsed(out, p, &vector[..received])
}

// OrigNode's path, turned round where it came asymmetric.
#[tactic(auto, using(lemmas::proofs::Cases::cases, crate::proofs::Laws::turned_is, crate::proofs::Laws::straight_is))]
fn put_route_path(out: &mut [u8], n: usize, turned: bool, vector: &[[u8; 16]; 16]) -> usize
    requires { (n ≤ 16) × (1236 ≤ length out.old) }
    ensures { Written (elided 0 (post_path n turned vector.now)) out.old out.new result }
{
    let path = &vector[..n];
    if turned {
        return writer_octets::put_path(out, &addresses::reversed(path)[..n]);
    }
    writer_octets::put_path(out, path)
}

// What goes into a buffer: its octets at the front, the rest as it was.
#[tactic(auto, using(lemmas::proofs::Cases::cases, lemmas::proofs::Buffer::written_none), unfolding(decision::specs::Decision::post_octets))]
pub fn put_post(out: &mut [u8], o: &Own, p: &Post, vector: &[[u8; 16]; 16]) -> usize
    requires { Fits (settings_of o.now) p.now vector.now × (length vector.now ≡ 16) × (1236 ≤ length out.old) }
    ensures { Written (post_octets (settings_of o.now) p.now vector.now) out.old out.new result }
{
    match p {
        Post::Nothing => 0,
        Post::Dio { message, grown, .. } => put_dio(out, o, message, *grown, vector),
        Post::Path { n, turned } => put_route_path(out, *n, *turned, vector),
    }
}
