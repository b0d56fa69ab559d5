//! The pieces of texts: words and numbers.

ghost use Rattle.std.specs.Prelude.{◌≡◌, ◌<◌};
ghost use Rattle.std.specs.List.{flat_map};
ghost use Rattle.zms_dev.specs.Prints.{Prints};
ghost use Rattle.trace_text.specs.Numbers.{hex_digit, weight_text};
ghost use Rattle.trace_text.specs.Pieces.{piece_text};

use crate::printed::{Each, Printed};
use itoa::Buffer;
use zms_dev::{Failed, Sink, write_whole};

/// A piece of a text: bytes as they stand, a number in decimal digits, or a weight in sixteen hexadecimal ones.
#[derive(Clone, Copy)]
pub enum Piece<'a> {
    Text(&'a [u8]),
    Number(u64),
    Weight(u64),
}

fn digit(value: u8) -> u8
    requires { value < 16 }
    ensures { result ≡ hex_digit value }
{
    if value < 10 {
        b'0' + value
    } else {
        b'a' + (value - 10)
    }
}

/// A weight's sixteen hexadecimal digits, from its last to its first.
fn weight_digits(weight: u64) -> [u8; 16]
    ensures { result ≡ weight_text weight }
{
    let mut text = [0; 16];
    let mut rest = weight;
    let mut at = 16;
    while at > 0 {
        at -= 1;
        text[at] = digit((rest % 16) as u8);
        rest /= 16;
    }
    text
}

impl Printed for Piece<'_> {
    ghost text = { piece_text };

    fn write<S: Sink>(&self, sink: &mut S) -> Result<(), Failed> {
        match self {
            Piece::Text(text) => write_whole(sink, text),
            Piece::Number(n) => write_whole(sink, Buffer::new().format(*n).as_bytes()),
            Piece::Weight(weight) => write_whole(sink, &weight_digits(*weight)),
        }
    }
}

/// Writes one piece behind the other.
pub fn write_pieces<S: Sink>(sink: &mut S, pieces: &[Piece<'_>]) -> Result<(), Failed>
    ensures { Prints (S.state sink.old) (S.state sink.new) (flat_map piece_text pieces.now) result }
{
    Each(pieces).write(sink)
}
