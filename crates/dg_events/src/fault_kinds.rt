//! The numbers of the causes by which motes refuse frames, in the order of their names in keys.
ghost use Rattle.std.specs.Prelude.{◌≡◌};
ghost use Rattle.dg_events.specs.RefusedFrames.{fault_number};

use dg_frame::FrameFault;

/// The names of the causes by which motes refuse frames.
pub const FAULTS: [&str; 5] = ["short", "kind", "length", "check", "range"];

/// The number of a frame's fault.
pub fn fault_kind(fault: FrameFault) -> usize
    ensures { result ≡ fault_number fault }
{
    match fault {
        FrameFault::Short => 0,
        FrameFault::Kind => 1,
        FrameFault::Length => 2,
        FrameFault::Check => 3,
        FrameFault::Range => 4,
    }
}
