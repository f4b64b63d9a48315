// A door on a TCP port of this machine. No clause says what comes there.
ghost use Rattle.std.specs.Prelude.{◌≡◌, None, false};
ghost use Rattle.gi_doors.specs.GivesFresh.{GivesFresh};
ghost use Rattle.gi_doors.specs.TcpLinkState.{link_state};

use crate::local::local_address;
use crate::tcp_link::TcpLink;
use crate::{Came, Door, Listened};
use std::net::{Net, OpenListener, OpenStream};

/// A door on a port of 127.0.0.1. It is never closed, and tells nothing but its faults, whose count
/// stays at the last value of its type once it is there. To accept is a fault before it listens.
#[derive(Drop)]
pub struct TcpDoor<R: Net> {
    net: R,
    listener: Option<R::Listener>,
    faults: u64,
}

impl<R: Net> TcpDoor<R> {
    ghost use Rattle.gi_doors.specs.TcpState.{door_faults};

    /// A door that doesn't listen yet, with no fault counted.
    pub fn new(net: R) -> TcpDoor<R>
        ensures { door_faults result ≡ 0 }
    {
        TcpDoor {
            net,
            listener: None,
            faults: 0,
        }
    }
}

impl<R: Net> Door for TcpDoor<R> {
    ghost use Rattle.gi_doors.specs.TcpState.{tcp_door_state};

    type L = TcpLink<R::Stream>;

    ghost state = { tcp_door_state };

    fn listen(&mut self, port: u16) -> Listened {
        match self.net.bind(local_address(port)) {
            Ok(listener) => {
                self.listener = Some(listener);
                Listened::Ready
            }
            Err(_) => {
                self.faults = self.faults.saturating_add(1);
                Listened::Failed
            }
        }
    }

    fn accept(&mut self) -> Came<TcpLink<R::Stream>> {
        let came = accept_from(&self.listener);
        if let Came::Failed = came {
            self.faults = self.faults.saturating_add(1);
        }
        came
    }

    fn hang_up(&mut self, _link: TcpLink<R::Stream>) {}
}

// Waits for the next connection, where there is a listener.
fn accept_from<L: OpenListener>(listener: &Option<L>) -> Came<TcpLink<L::Stream>>
where
    L::Stream: OpenStream,
    ensures { GivesFresh link_state result }
{
    match listener {
        Some(listener) => match listener.accept() {
            Ok((stream, _)) => Came::Link(TcpLink::new(stream)),
            Err(_) => Came::Failed,
        },
        None => Came::Failed,
    }
}
