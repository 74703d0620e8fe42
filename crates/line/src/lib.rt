// What the programs' lines are made of: octets in hexadecimal, targets. And what fills a buffer from their input.
#![tactic(auto)]

ghost use Rattle.std.specs.Prelude.{◌≡◌, ◌<◌, IfOk, IsTrue, Some, false};
ghost use Rattle.std.specs.Fmt.{digit_glyph};
ghost use Rattle.std.specs.Io.KnownBytes.{Consumes};
ghost use Rattle.line.specs.Hex.{hex, two_digits};
ghost use Rattle.line.specs.Targets.{targets_text};

use plain::Target;
use std::io::{ErrorKind, Read};
use std::{fmt, io, str};

// The ASCII digit of a number below 16.
fn digit(x: u8) -> u8
    requires { x < 16 }
    ensures { result ≡ digit_glyph false x }
{
    if x < 10 { b'0' + x } else { b'a' - 10 + x }
}

// The two digits of an octet.
#[tactic(auto, unfolding(crate::specs::Hex::two_digits))]
pub fn digits(x: u8) -> [u8; 2]
    ensures { result ≡ two_digits x }
{
    [digit(x / 16), digit(x % 16)]
}

// Octets in hexadecimal, two digits each.
#[derive(Clone, Copy)]
pub struct Hex<'a>(pub &'a [u8]);

impl<'a> fmt::Display for Hex<'a> {
    ghost output = { λ h. Some (hex h.0.now) };

    fn fmt<W: fmt::Write>(&self, f: &mut fmt::Formatter<W>) -> fmt::Result {
        for &x in self.0 {
            // one piece, where `{x:02x}` makes two of an octet below 16: the programs' output is not buffered
            let two = digits(x);
            // digits are UTF-8, as is proved: from_utf8 was tried, and a run took up to half as many instructions again
            let text = unsafe { str::from_utf8_unchecked(&two) };
            f.write_str(text)?;
        }
        Ok(())
    }
}

// Targets, each after a space: Dest SeqNo, Prefix Length, address.
#[derive(Clone, Copy)]
pub struct Targets<'a>(pub &'a [Target]);

impl<'a> fmt::Display for Targets<'a> {
    ghost output = { λ ts. Some (targets_text ts.0.now) };

    fn fmt<W: fmt::Write>(&self, f: &mut fmt::Formatter<W>) -> fmt::Result {
        for t in self.0 {
            write!(f, " {}/{}/{}", t.seq, t.plen, Hex(&t.addr))?;
        }
        Ok(())
    }
}

// Fills a buffer: whether the input had as many octets. An input that ends is no error.
pub fn read_full<R: Read>(input: &mut R, buf: &mut [u8]) -> io::Result<bool>
    ensures { IfOk result (λ whole. IsTrue whole → Consumes (R.remaining input.old) (R.remaining input.new) buf.new) }
{
    match input.read_exact(buf) {
        Ok(()) => Ok(true),
        Err(e) if e.kind() == ErrorKind::UnexpectedEof => Ok(false),
        Err(e) => Err(e),
    }
}
