// Addresses on this machine.
ghost use Rattle.gi_doors.specs.Local.{IsLocal};

use std::net::{IpAddr, Ipv4Addr, SocketAddr};

/// The address of a port on 127.0.0.1, which no other machine reaches.
pub(crate) fn local_address(port: u16) -> SocketAddr
    ensures { IsLocal result port }
{
    SocketAddr::new(IpAddr::V4(Ipv4Addr::new(127, 0, 0, 1)), port)
}
