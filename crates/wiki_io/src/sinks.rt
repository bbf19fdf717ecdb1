// Where bytes go to.
ghost use Rattle.std.specs.Prelude.{◌≡◌, ◌<◌, ◌≤◌, ℕ, List, Option, length, take};
ghost use Rattle.std.specs.Bool.{OnTrue, OnFalse};
ghost use Rattle.std.specs.Io.KnownBytes.{Appends};
ghost use Rattle.wiki_io.specs.Faults.{Rose};
ghost use Rattle.wiki_io.specs.Sink.{bytes_taken, TookFits};

/// What one `write` took.
#[derive(Clone, Copy, Debug, PartialEq, Eq)]
pub enum Took {
    /// So many bytes, at least one, from the piece's front.
    Bytes(usize),
    /// The write failed and took no byte.
    Failed,
}

/// An output. It may tell proofs what it has taken, and it counts its failures.
pub trait Sink {
    /// All bytes that the sink has taken, where it tells them.
    ghost taken: { Self → Option (List ℕ) };

    /// How often a write has failed, up to the last value of a `u64`.
    ghost faults: { Self → ℕ };

    /// Writes bytes from the front of the piece, some of them or all.
    fn write(&mut self, bytes: &[u8]) -> Took
        requires { 0 < length bytes.now }
        ensures fits { TookFits result (length bytes.now) }
        ensures bytes { Appends (taken self.old) (taken self.new) (bytes_taken result bytes.now) }
        ensures failed { result ≡ Took.Failed → Rose (faults self.old) (faults self.new) }
        ensures faults { faults self.old ≤ faults self.new };
}

/// Writes all bytes, in as many writes as it takes, and tells whether that was done.
/// Where it answers false, a write failed, and the sink took a front part of the bytes.
pub fn put<K: Sink>(sink: &mut K, bytes: &[u8]) -> bool
    ensures all { OnTrue result (Appends (K.taken sink.old) (K.taken sink.new) bytes.now) }
    ensures prefix { (n : ℕ) × (n ≤ length bytes.now)
        × Appends (K.taken sink.old) (K.taken sink.new) (take n bytes.now) }
    ensures failed { OnFalse result (Rose (K.faults sink.old) (K.faults sink.new)) }
    ensures faults { K.faults sink.old ≤ K.faults sink.new }
{
    let mut rest = bytes;
    while !rest.is_empty() {
        match sink.write(rest) {
            Took::Bytes(n) => rest = &rest[n..],
            Took::Failed => return false,
        }
    }
    true
}
