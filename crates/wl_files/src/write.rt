//! A whole text into a sink.
ghost use Rattle.std.specs.Prelude.{◌≡◌, ◌≤◌, ◌<◌, ◌-◌, ℕ, length, IfOk, IsOk, OnOk, OnErr};
ghost use Rattle.std.specs.Io.KnownBytes.{WriteAppends};
ghost use Rattle.wl_files.specs.Causes.{CountsFaults};
ghost use Rattle.wl_files.specs.Sink.{Took, TookPart, IsCalmWrite};

use crate::sink::Sink;

/// A sink didn't take all of a text.
#[derive(Clone, Copy, PartialEq, Eq)]
pub struct WriteFault;

// Gives the front of a piece to a sink.
fn write_some<S: Sink>(sink: &mut S, piece: &[u8]) -> Result<usize, WriteFault>
    requires { 0 < length piece.now }
    ensures some { IfOk result (λ n. (0 < n) × (n ≤ length piece.now)) }
    ensures taken { WriteAppends
        (S.state sink.old).taken (S.state sink.new).taken result piece.now }
    ensures cause { CountsFaults (S.state sink.old).faults (S.state sink.new).faults result }
    ensures clean { OnOk result ((S.state sink.new).faults ≡ (S.state sink.old).faults) }
    ensures calm { (n : ℕ) → S.takes_more sink.old n → length piece.now ≤ n
        → IsCalmWrite (S.takes_more sink.new) n (length piece.now) result }
{
    match sink.write(piece) {
        Ok(count) if count > 0 => Ok(count),
        _ => Err(WriteFault),
    }
}

/// Gives all of a text to a sink, piece by piece, and takes no memory.
///
/// # Errors
/// `WriteFault` at the first call that fails or takes nothing; the sink then has the front of the
/// text.
pub fn write_all<S: Sink>(sink: &mut S, text: &[u8]) -> Result<(), WriteFault>
    ensures ok { OnOk result (Took (S.state sink.old) (S.state sink.new) text.now) }
    ensures part { OnErr result (TookPart (S.state sink.old) (S.state sink.new) text.now) }
    ensures cause { CountsFaults (S.state sink.old).faults (S.state sink.new).faults result }

    // A fault isn't tried again.
    ensures clean { OnOk result ((S.state sink.new).faults ≡ (S.state sink.old).faults) }

    // A sink that is known to take so much more takes it all without a fault.
    ensures calm { S.takes_more sink.old (length text.now)
        → IsOk result × ((S.state sink.new).faults ≡ (S.state sink.old).faults) }
{
    let mut rest = text;
    while !rest.is_empty() {
        let count = write_some(sink, rest)?;
        rest = rest.split_at(count).1;
    }
    Ok(())
}
