//! What words ask for.
use dg_control::Order;

/// A command, with its values.
#[derive(Debug, Drop)]
pub enum Command {
    /// Replays a script over boards.
    Replay {
        flashes: Vec<String>,
    },
    /// Runs motes for this many turns.
    Serve {
        turns: u32,
        seed: u32,
        flashes: Vec<String>,
    },
    /// Makes a chip with a golden image.
    Format {
        name: String,
        /// The commits that are counted as spent.
        used: u32,
        /// The form in which the chip is written, 1 or 2.
        form: u8,
        flash: String,
    },
    /// Puts an image into a chip.
    Inject {
        image: u8,
        version: u32,
        name: String,
        flash: String,
    },
    /// Keeps an order in a chip.
    Order {
        order: Order,
        flash: String,
    },
    /// Starts a chip.
    Boot {
        flash: String,
    },
    /// Reports what a chip keeps.
    Ping {
        flash: String,
    },
    /// Writes an image of a chip.
    Dump {
        image: u8,
        flash: String,
    },
    /// Writes a chip of form 1 in form 2.
    Migrate {
        flash: String,
    },
    /// Replays a schedule that a seed makes.
    Trial {
        motes: u8,
        pages: u8,
        seed: u32,
    },
    /// Makes a hash-chained image of a payload.
    Wrap,
    /// Tests an image of a chip against the root of its chain.
    Check {
        image: u8,
        /// The root, as 64 hex digits.
        root: String,
        flash: String,
    },
    /// Puts a hash-chained image into a chip, page by page against its root.
    Receive {
        image: u8,
        version: u32,
        name: String,
        /// The root, as 64 hex digits.
        root: String,
        flash: String,
    },
    /// Replays a script of small values that nodes spread.
    Drip,
    /// Runs a mote on a serial line.
    Base {
        id: u16,
        /// The milliseconds from one event to the next.
        step: u32,
        seed: u32,
        flash: String,
    },
}

/// What words ask for.
#[derive(Debug, Drop)]
pub enum Asked {
    /// A command.
    Command(Command),
    /// A text of help, which is not empty.
    Help(String),
    /// The version of the program.
    Version,
    /// The words are none of these.
    Usage,
}
