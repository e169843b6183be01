ghost use Rattle.std.specs.Prelude.{◌≡◌, ℕ, ◌<◌, ◌≤◌, List, IfOk, OnOk, OnErr, length};
ghost use Rattle.std.specs.declared.option.Option.{Option};
ghost use Rattle.std.specs.Io.KnownBytes.{WriteAppends, Appends};
ghost use Rattle.outside_world.specs.Causes.{HasCause};
ghost use Rattle.outside_world.specs.Bytes.{AppendsPrefix};

/// Why a sink took nothing.
#[derive(Clone, Copy, Debug, PartialEq, Eq)]
pub enum SinkFail {
    /// The outside failed; the sink has counted it.
    Failed,
}

/// Takes bytes, for results and for lines of refusal alike. A sink may tell what it took; it keeps a count of faults,
/// which never falls and stands still at 2^64 - 1.
pub trait Sink {
    /// The bytes that were taken, where the sink tells them.
    ghost taken: { Self → Option (List ℕ) };

    /// How often a put failed. It never falls.
    ghost faults: { Self → ℕ };

    /// Takes the front of a piece, at least one byte where there is one, and says how many. `Failed` comes only where
    /// the count of faults rose, and then nothing was taken.
    fn put(&mut self, bytes: &[u8]) -> Result<usize, SinkFail>
        ensures bound { IfOk result (λ count. count ≤ length bytes.now) }
        ensures some { IfOk result (λ count. 0 < length bytes.now → 0 < count) }
        ensures bytes { WriteAppends (taken self.old) (taken self.new) result bytes.now }
        ensures cause { HasCause (faults self.old) (faults self.new) result };
}

/// Puts the whole text, piece by piece. At `Err` the sink took a prefix of it.
pub fn put_all<K: Sink>(out: &mut K, text: &[u8]) -> Result<(), SinkFail>
    ensures ok { OnOk result (Appends (K.taken out.old) (K.taken out.new) text.now) }
    ensures err { OnErr result (AppendsPrefix (K.taken out.old) (K.taken out.new) text.now) }
    ensures cause { HasCause (K.faults out.old) (K.faults out.new) result }
{
    let mut rest = text;
    while !rest.is_empty() {
        let count = out.put(rest)?;
        rest = &rest[count..];
    }
    Ok(())
}
