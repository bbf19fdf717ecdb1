// Connections: opened, bringing bytes and ending, all in one order, and bytes that are sent on them.
ghost use Rattle.std.specs.Prelude.{◌≡◌, ◌<◌, ◌≤◌, ◌++◌, ◌∷◌, [], ℕ, Bool, List, Option, IsTrue, length};
ghost use Rattle.wiki_io.specs.declared.links.Event.{Event};
ghost use Rattle.wiki_io.specs.Faults.{Rose};
ghost use Rattle.wiki_io.specs.Link.{is_among, without, can_all_come, connections_after_all, event_in, NextFits, with_more, piece_taken, IsOver};
ghost use Rattle.wiki_io.specs.Sink.{TookFits};

use crate::sinks::Took;
use wiki_base::Bytes;

/// What happens on connections. A connection is named by a number, which a later one may have again.
#[derive(Drop)]
pub enum Event {
    /// A connection is opened.
    Opened(u32),
    /// Bytes, at least one, come on a connection that is open.
    Piece(u32, Bytes),
    /// A connection that is open ends.
    Ended(u32),
}

/// What one `listen` came to.
#[derive(Clone, Copy, Debug, PartialEq, Eq)]
pub enum Listen {
    Ready,
    Failed,
}

/// What one `next` handed in.
#[derive(Clone, Copy, Debug, PartialEq, Eq)]
pub enum Next {
    /// A connection was opened.
    Opened(u32),
    /// So many bytes, at least one, came on the connection and stand at the buffer's front.
    Bytes(u32, usize),
    /// The connection ended.
    Ended(u32),
    /// Nothing comes any more.
    Over,
    /// The call failed and handed in nothing.
    Failed,
}

/// Connections to others. A link tells where it listens and which connections are open; it may tell proofs what it handed in
/// and took, and it counts its failures, those of `send` apart.
pub trait Link {
    /// Whether the link listens at an address.
    ghost listens_at: { Self → List ℕ → Bool };

    /// The events that were handed in, in order, where the link tells them.
    ghost handed: { Self → Option (List Event) };

    /// The events that are left, where the link tells them.
    ghost left: { Self → Option (List Event) };

    /// What was taken to be sent: pieces, each with its connection, in order, where the link tells them.
    ghost sent: { Self → Option (List (ℕ × List ℕ)) };

    /// The connections that are open, in the order of their opening.
    ghost connections: { Self → List ℕ };

    /// How often `listen` or `next` has failed, up to the last value of a `u64`.
    ghost faults: { Self → ℕ };

    /// How often `send` has failed, up to the last value of a `u64`.
    ghost send_faults: { Self → ℕ };

    /// Begins to listen at the address. Where that fails, it listens where it did before.
    fn listen(&mut self, address: &str) -> Listen
        ensures ready { result ≡ Listen.Ready → IsTrue (listens_at self.new address.now) }
        ensures unready { result ≡ Listen.Failed → listens_at self.new ≡ listens_at self.old }
        ensures failed { result ≡ Listen.Failed → Rose (faults self.old) (faults self.new) }
        ensures faults { faults self.old ≤ faults self.new }
        ensures handed { handed self.new ≡ handed self.old }
        ensures sent { sent self.new ≡ sent self.old }
        ensures connections { connections self.new ≡ connections self.old }
        ensures send_faults { send_faults self.new ≡ send_faults self.old };

    /// Waits for the next event and hands it in; bytes are put into the front of the buffer.
    fn next(&mut self, buf: &mut [u8]) -> Next
        requires { 0 < length buf.old }
        ensures fits { NextFits result (length buf.old) }
        ensures handed { handed self.new ≡ with_more (handed self.old) (event_in result buf.new) }
        ensures comes { IsTrue (can_all_come (connections self.old) (event_in result buf.new)) }
        ensures connections { connections self.new ≡ connections_after_all (connections self.old) (event_in result buf.new) }
        ensures listening { listens_at self.new ≡ listens_at self.old }
        ensures sent { sent self.new ≡ sent self.old }
        ensures over { result ≡ Next.Over → IsOver (left self.new) }
        ensures failed { result ≡ Next.Failed → Rose (faults self.old) (faults self.new) }
        ensures faults { faults self.old ≤ faults self.new }
        ensures send_faults { send_faults self.new ≡ send_faults self.old };

    /// Takes bytes from the front of the piece, some of them or all, to be sent on a connection that is open.
    fn send(&mut self, connection: u32, bytes: &[u8]) -> Took
        requires bytes { 0 < length bytes.now }
        requires is_open { IsTrue (is_among (connections self.old) connection) }
        ensures fits { TookFits result (length bytes.now) }
        ensures sent { sent self.new ≡ with_more (sent self.old) (piece_taken connection result bytes.now) }
        ensures handed { handed self.new ≡ handed self.old }
        ensures connections { connections self.new ≡ connections self.old }
        ensures listening { listens_at self.new ≡ listens_at self.old }
        ensures failed { result ≡ Took.Failed → Rose (send_faults self.old) (send_faults self.new) }
        ensures send_faults { send_faults self.old ≤ send_faults self.new }
        ensures faults { faults self.new ≡ faults self.old };

    /// Closes a connection, which isn't open afterwards. What was taken is still sent. It takes no memory.
    fn close(&mut self, connection: u32)
        ensures connections { connections self.new ≡ without connection (connections self.old) }
        ensures listening { listens_at self.new ≡ listens_at self.old }
        ensures handed { handed self.new ≡ handed self.old }
        ensures sent { sent self.new ≡ sent self.old }
        ensures faults { faults self.new ≡ faults self.old }
        ensures send_faults { send_faults self.new ≡ send_faults self.old };
}
