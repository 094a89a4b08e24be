//! The lines of a report.

/// Why an event was refused.
#[derive(Clone, Copy, Debug, PartialEq, Eq)]
pub enum Cause {
    /// The mote is off.
    Off,
    /// No such frame was sent.
    Frame,
    /// The two motes are not neighbours.
    Link,
    /// The image is not declared.
    Image,
    /// The image has no bytes.
    Empty,
    /// The image has more bytes than a slot takes.
    TooLarge { length: u32 },
    /// Image 0 is golden, which is not injected.
    Reserved,
    /// A larger version is kept.
    Stale { version: u32 },
    /// The version is kept with another content.
    Taken,
    /// Only this many commits are left in the control sectors.
    Worn { room: u32 },
    /// The number of the kept order is not smaller.
    OldOrder { number: u32 },
}

/// A line of a report.
#[derive(Clone, Copy, Debug, PartialEq, Eq)]
pub enum Report {
    /// The order that a mote keeps has changed.
    Order {
        mote: u8,
        number: u32,
        image: u8,
        version: u32,
    },
    /// A mote no longer keeps anything of an image.
    Lost {
        mote: u8,
        image: u8,
    },
    /// A mote now keeps this version of an image, with this many complete pages.
    Have {
        mote: u8,
        image: u8,
        version: u32,
        pages: u8,
    },
    /// A start succeeded: what runs, the length of its image in bytes, and their CRC.
    Start {
        mote: u8,
        image: u8,
        version: u32,
        length: u32,
        crc: u16,
    },
    /// The power of a mote was cut, and it is off.
    Off {
        mote: u8,
    },
    /// A mote advertised what it has.
    SentAdvert {
        mote: u8,
    },
    /// A mote asked another for this many packets of a page.
    SentRequest {
        mote: u8,
        /// The mote that is asked.
        to: u16,
        image: u8,
        version: u32,
        page: u8,
        /// How many packets are asked for.
        count: u8,
    },
    /// A mote sent a packet of a page.
    SentData {
        mote: u8,
        image: u8,
        version: u32,
        page: u8,
        packet: u8,
    },
    /// An event at a mote was refused.
    Refused {
        mote: u8,
        cause: Cause,
    },
    /// An image was not declared, since its version has another name or content.
    Taken {
        image: u8,
        version: u32,
    },
    /// The script ended, after this many events.
    End {
        events: u32,
    },
    /// What a mote runs at the end.
    MoteOn {
        mote: u8,
        image: u8,
        version: u32,
    },
    MoteOff {
        mote: u8,
    },
    /// An image that a mote keeps at the end, with this many complete pages.
    Kept {
        mote: u8,
        image: u8,
        version: u32,
        pages: u8,
    },
}
