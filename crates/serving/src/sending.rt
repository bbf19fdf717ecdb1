// One response on a connection, which is closed then.
ghost use Rattle.std.specs.Prelude.{◌≡◌, ◌∷◌, [], IsTrue};
ghost use Rattle.wiki_io.specs.Link.{is_among, without};
ghost use Rattle.serving.specs.Delivering.{Delivers};

use wiki_io::{Link, Took};

/// Sends a response on a connection, as far as the link takes it, and closes the connection.
pub(crate) fn answer<L: Link>(link: &mut L, connection: u32, response: &[u8])
    requires { IsTrue (is_among (L.connections link.old) connection) }
    ensures delivers { Delivers ((connection, response.now) ∷ []) (L.sent link.old) (L.send_faults link.old) (L.sent link.new) (L.send_faults link.new) }
    ensures connections { L.connections link.new ≡ without connection (L.connections link.old) }
    ensures handed { L.handed link.new ≡ L.handed link.old }
    ensures listening { L.listens_at link.new ≡ L.listens_at link.old }
    ensures faults { L.faults link.new ≡ L.faults link.old }
{
    send_all(link, connection, response);
    link.close(connection);
}

// Sends the bytes, up to the first send that fails.
fn send_all<L: Link>(link: &mut L, connection: u32, bytes: &[u8])
    requires { IsTrue (is_among (L.connections link.old) connection) }
    ensures delivers { Delivers ((connection, bytes.now) ∷ []) (L.sent link.old) (L.send_faults link.old) (L.sent link.new) (L.send_faults link.new) }
    ensures connections { L.connections link.new ≡ L.connections link.old }
    ensures handed { L.handed link.new ≡ L.handed link.old }
    ensures listening { L.listens_at link.new ≡ L.listens_at link.old }
    ensures faults { L.faults link.new ≡ L.faults link.old }
{
    let mut rest = bytes;
    'pieces: while !rest.is_empty() {
        match link.send(connection, rest) {
            Took::Bytes(size) => rest = &rest[size..],
            Took::Failed => return,
        }
    }
}
