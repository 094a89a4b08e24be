//! A message as a frame, as it is on a serial line, and read back from there.
#![tactic(auto)]

use anyhow::Result;
use dg_frame::{Message, read, write};
use dg_serial::{Fed, Unstuff, stuff};

fn main(rt: HostRuntime) -> Result<()> {
    let packet = Message::Packet {
        source: 0x7E,
        image: 1,
        version: 1,
        page: 0,
        packet: 0,
        bytes: *b"abcdefghijklmnopqrstuvw",
    };
    let frame = write(&packet);
    let mut line = Vec::new(rt.alloc());
    stuff(frame.as_slice(), &mut line)?;
    let mut reader = Unstuff::new();
    for byte in &line {
        print!(rt; "{byte:02x}")?;
        if let Fed::Frame(bytes) = reader.feed(*byte) {
            let same = read(bytes.as_slice(), true) == Ok(packet);
            println!(rt; " read back: {same}")?;
        }
    }
    Ok(())
}
