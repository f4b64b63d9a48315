// A dial to a TCP port of this machine. No clause says what answers there.
ghost use Rattle.std.specs.Prelude.{◌≡◌, None};

use crate::local::local_address;
use crate::tcp_link::TcpLink;
use crate::{Dial, Dialed};
use std::net::Net;

/// A dial to ports of 127.0.0.1. It tells nothing but its faults, whose count stays at the last
/// value of its type once it is there.
#[derive(Drop)]
pub struct TcpDial<R> {
    net: R,
    faults: u64,
}

impl<R> TcpDial<R> {
    ghost use Rattle.gi_doors.specs.TcpState.{dial_faults};

    /// A dial with no fault counted.
    pub fn new(net: R) -> TcpDial<R>
        ensures { dial_faults result ≡ 0 }
    {
        TcpDial { net, faults: 0 }
    }
}

impl<R: Net> Dial for TcpDial<R> {
    ghost use Rattle.gi_doors.specs.TcpState.{tcp_dial_state};

    type L = TcpLink<R::Stream>;

    ghost state = { tcp_dial_state };

    ghost hung_were_given = { λ _. tt };

    fn dial(&mut self, port: u16) -> Dialed<TcpLink<R::Stream>> {
        match self.net.connect(local_address(port)) {
            Ok(stream) => Dialed::Link(TcpLink::new(stream)),
            Err(_) => {
                self.faults = self.faults.saturating_add(1);
                Dialed::Failed
            }
        }
    }

    fn hang_up(&mut self, _link: TcpLink<R::Stream>) {}
}
