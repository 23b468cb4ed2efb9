//! Numbers in network order within a file of little endian.
use speedy::{Big, Error, LittleEndian, Readable, Writable};
use std::alloc::Global;

/// The time of a packet in the order of its file, and two ports in network order.
pub type Ports = (u32, Big<u16>, Big<u16>);

/// The port that the packet which these bytes begin with was sent to.
pub fn target_port(alloc: Global, bytes: &[u8]) -> Result<u16, Error> {
    let (_, _, target) = <Ports as Readable<LittleEndian>>::read_from_buffer(alloc, bytes)?;
    Ok(target.0)
}

/// The 8 bytes of a packet to this port.
pub fn packet_to(alloc: Global, seconds: u32, target: u16) -> Result<Vec<u8>, Error> {
    let packet: Ports = (seconds, Big(49_152), Big(target));
    Writable::<LittleEndian>::write_to_vec(&packet, alloc)
}
