//! Connections over which the board is asked for, and where what goes out is kept.
ghost use Rattle.std.specs.Prelude.{◌≡◌, ◌≢◌, [], IfErr, IfOk};
ghost use Rattle.std.specs.Net.Socket.{socket_port};
ghost use Rattle.clr_stream.specs.Counted.{counted_inner};
ghost use Rattle.clr_known.specs.Known.{board_request};

use crate::blank::Blank;
use crate::machine::Known;
use clr_edge::loopback::{Connection, Loopback};
use clr_stream::Counted;
use std::io;
use std::net::SocketAddr;

const BOARD_REQUEST: &[u8] = b"GET /board HTTP/1.1\r\n\r\n";

/// Port 1 is another program's.
impl<B: Blank + Drop> Loopback for Known<B> {
    ghost use Rattle.std.specs.Prelude.{◌≡◌, ◌≢◌, []};
    ghost use Rattle.std.specs.Net.Socket.{socket_port};
    ghost use Rattle.clr_stream.specs.Counted.{counted_inner};
    ghost use Rattle.clr_known.specs.Known.{board_request};

    type Listener = ();

    type Reader = Counted<&'static [u8]>;

    type Writer = Counted<Vec<u8>>;

    ghost refuses = { λ old address _ new. (new ≡ old) × (socket_port address ≡ 1) };

    ghost stands = { λ old address _ new. (new ≡ old) × (socket_port address ≢ 1) };

    ghost comes = { λ old _ _ connection new. (new ≡ old)
        × ((counted_inner connection.reader).now ≡ board_request)
        × ((counted_inner connection.writer).items ≡ []) };

    ghost misses = { λ _ _ _ _ _. ⊥ };

    ghost hangs_up = { λ old connection _ new.
        new ≡ record old { response = counted_inner connection.writer } };

    fn bind(&mut self, address: SocketAddr) -> io::Result<()>
        ensures stands { IfOk result (λ _.
            (self.new ≡ self.old) × (socket_port address ≢ 1)) }
        ensures refuses { IfErr result (λ _.
            (self.new ≡ self.old) × (socket_port address ≡ 1)) }
    {
        if address.port() == 1 {
            Err(io::ErrorKind::AddrInUse.into())
        } else {
            Ok(())
        }
    }

    fn accept(
        &mut self,
        _listener: &(),
        _deadline: Option<u16>,
        _tries: u8,
    ) -> io::Result<Connection<Counted<&'static [u8]>, Counted<Vec<u8>>>>
        ensures comes { IfOk result (λ connection. (self.new ≡ self.old)
            × ((counted_inner connection.reader).now ≡ board_request)
            × ((counted_inner connection.writer).items ≡ [])) }
        ensures misses { IfErr result (λ _. ⊥) }
    {
        Ok(Connection {
            reader: Counted::new(BOARD_REQUEST),
            writer: Counted::new(Vec::new(self.alloc)),
        })
    }

    fn hang_up(
        &mut self,
        connection: Connection<Counted<&'static [u8]>, Counted<Vec<u8>>>,
        _is_expected: bool,
    )
        ensures { self.new
            ≡ record self.old { response = counted_inner connection.entry.writer } }
    {
        let Connection { reader, writer } = connection;
        drop(reader);
        self.response = writer.into_inner();
    }
}
