//! The roles and messages of the text, by their places in it.

use rs_model::{Octets, Role};
use rs_typed::{Message, Party};

/// The kernel, K in the text.
pub const KERNEL_ROLE: Role = Role(0);

/// The source, S in the text.
pub const SOURCE_ROLE: Role = Role(1);

/// The sink, T in the text.
pub const SINK_ROLE: Role = Role(2);

/// K, with whom a role has to do.
pub type KernelParty = Party<0>;

/// S, with whom a role has to do.
pub type SourceParty = Party<1>;

/// T, with whom a role has to do.
pub type SinkParty = Party<2>;

/// `ready()`, by which copies are asked for.
pub type ReadyMessage = Message<0, ()>;

/// `copy(bytes)`.
pub type CopyMessage = Message<1, Octets>;

/// `stop()`, after which no copies come.
pub type StopMessage = Message<2, ()>;
