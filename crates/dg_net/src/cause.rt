//! Why a link of this machine failed.
use std::io::ErrorKind;

/// Why a link of this machine failed, and at which port.
#[derive(Clone, Copy, Debug, PartialEq, Eq)]
pub enum LinkCause {
    /// Another program has the port.
    PortInUse { port: u16 },
    /// The system does not permit the use of the port.
    PortDenied { port: u16 },
    /// A socket could not be opened at the port for another reason.
    PortFailed { port: u16 },
    /// What was sent to the port was not sent whole.
    Send { port: u16 },
    /// A receive at the port failed.
    Receive { port: u16 },
}

/// Why a socket could not be opened at a port.
pub(crate) fn port_cause(kind: ErrorKind, port: u16) -> LinkCause {
    match kind {
        ErrorKind::AddrInUse => LinkCause::PortInUse { port },
        ErrorKind::PermissionDenied => LinkCause::PortDenied { port },
        _ => LinkCause::PortFailed { port },
    }
}
