//! Text to a sink, whole or up to its first fault.

ghost use Rattle.std.specs.Prelude.{◌≡◌, ◌≤◌, ◌++◌, OnOk, OnErr};
ghost use Rattle.p2c_outside.specs.Counts.{Rose};
ghost use Rattle.p2c_outside.specs.Told.{Gains};
ghost use Rattle.held_bytes.specs.Written.{GainsPart};

use p2c_outside::{Failed, Sink};

/// The most bytes that are offered or asked for at once.
pub const PIECE: usize = 4096;

/// Offers the whole text, in pieces.
pub fn offer<S: Sink>(sink: &mut S, text: &[u8]) -> Result<(), Failed>
    ensures whole { OnOk result (Gains (S.written sink.old) (S.written sink.new) text.now) }
    ensures no_fault { OnOk result (S.faults sink.new ≡ S.faults sink.old) }
    ensures part { OnErr result (GainsPart (S.written sink.old) (S.written sink.new) text.now) }
    ensures fault { OnErr result (Rose (S.faults sink.old) (S.faults sink.new)) }
{
    let mut at = 0;
    while at < text.len() {
        let rest = &text[at..];
        let count = sink.put(&rest[..rest.len().min(PIECE)])?;
        at += count;
    }
    Ok(())
}

/// Offers a text that stands in three parts.
pub fn offer_parts<S: Sink>(
    sink: &mut S,
    first: &[u8],
    second: &[u8],
    third: &[u8],
) -> Result<(), Failed>
    ensures whole { OnOk result (Gains (S.written sink.old) (S.written sink.new)
        (first.now ++ second.now ++ third.now)) }
    ensures no_fault { OnOk result (S.faults sink.new ≡ S.faults sink.old) }
    ensures part { OnErr result (GainsPart (S.written sink.old) (S.written sink.new)
        (first.now ++ second.now ++ third.now)) }
    ensures fault { OnErr result (Rose (S.faults sink.old) (S.faults sink.new)) }
{
    offer(sink, first)?;
    offer(sink, second)?;
    offer(sink, third)?;
    Ok(())
}
