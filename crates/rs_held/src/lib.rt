//! What the calls of the library for C do: sessions, endpoints, monitors and texts behind handles that C holds, their roles and
//! labels by numbers.
#![tactic(auto)]

mod endpoint_handles;
pub mod endpoints;
pub mod laws;
mod monitor_handles;
pub mod monitors;
mod openings;
mod session_handles;
pub mod sessions;
mod text_handles;
pub mod texts;

pub use endpoint_handles::{EndpointHandle, HeldEndpoint};
pub use monitor_handles::{HeldMonitor, MonitorHandle};
pub use session_handles::{BegunSession, SessionHandle};
pub use text_handles::{KeptText, TextHandle};
