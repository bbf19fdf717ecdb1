// Where bytes come from.
ghost use Rattle.std.specs.Prelude.{◌≡◌, ◌<◌, ◌≤◌, ℕ, List, Option, length};
ghost use Rattle.std.specs.Io.KnownBytes.{Consumes, IsAtEnd};
ghost use Rattle.wiki_io.specs.Faults.{Rose};
ghost use Rattle.wiki_io.specs.Source.{bytes_got, GotFits};

/// What one `read` gave.
#[derive(Clone, Copy, Debug, PartialEq, Eq)]
pub enum Got {
    /// So many bytes, at least one, at the buffer's front.
    Bytes(usize),
    /// The input is at its end.
    End,
    /// The read failed and gave no byte.
    Failed,
}

/// An input. It may tell its bytes to proofs, and it counts its failures.
pub trait Source {
    /// The bytes that are left to read, where the source tells them.
    ghost left: { Self → Option (List ℕ) };

    /// How often a read has failed, up to the last value of a `u64`.
    ghost faults: { Self → ℕ };

    /// Reads the next bytes into the front of the buffer, some of them or all that fit.
    fn read(&mut self, buf: &mut [u8]) -> Got
        requires { 0 < length buf.old }
        ensures fits { GotFits result (length buf.old) }
        ensures bytes { Consumes (left self.old) (left self.new) (bytes_got result buf.new) }
        ensures end { result ≡ Got.End → IsAtEnd (left self.new) }
        ensures failed { result ≡ Got.Failed → Rose (faults self.old) (faults self.new) }
        ensures faults { faults self.old ≤ faults self.new };
}
