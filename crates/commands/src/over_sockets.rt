// The program with a link over sockets, and what these write.
ghost use Rattle.std.specs.Prelude.{◌≡◌, []};
ghost use Rattle.socket_link.specs.Deeds.{AreToldRight};
ghost use Rattle.commands.specs.Sockets.{network_over};
ghost use Rattle.commands.specs.Theorem.{stream, RunsLine};

use crate::running::program;
use command_line::CommandLine;
use socket_link::{SocketLink, Sockets};
use std::alloc::Global;
use wiki_io::{Sink, Source};

/// Runs the command that the words of the command line are over connections of sockets, as `program` does over any link. Where
/// the sockets tell what they did, each wrote a front of what was sent on its own connection, all of it unless it failed, the
/// time of the closed connection was over, or it had to make room.
pub fn program_over<C: CommandLine, S: Source, K: Sink, E: Sink, N: Sockets>(
    alloc: Global,
    line: &C,
    input: &mut S,
    output: &mut K,
    errors: &mut E,
    link: &mut SocketLink<N>,
) -> u8
    requires { link.old.connections.items ≡ [] }
    ensures theorem { RunsLine (C.words line.now) result
        (record {
          input = stream S.left S.faults input.old;
          output = stream K.taken K.faults output.old;
          link = network_over N.listens_at N.events N.deeds link.old.places.board.sockets link.old.faults link.old.send_faults link.old;
        })
        (stream E.taken E.faults errors.old)
        (record {
          input = stream S.left S.faults input.new;
          output = stream K.taken K.faults output.new;
          link = network_over N.listens_at N.events N.deeds link.new.places.board.sockets link.new.faults link.new.send_faults link.new;
        })
        (stream E.taken E.faults errors.new) }
    ensures right { ∥ AreToldRight (N.deeds link.new.places.board.sockets) ∥₁ }
{
    program(alloc, line, input, output, errors, link)
}
