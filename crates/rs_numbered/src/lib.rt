//! What a session shows to programs that know it by numbers: names of roles and labels, states and their arms, values and messages,
//! and what each call answers.
#![tactic(auto)]

mod copies;
mod kinds;
pub mod laws;
mod messages;
mod monitors;
mod names;
mod states;
mod status_texts;
mod statuses;

pub use copies::hand_out;
pub use kinds::{kind_of, stand_in};
pub use messages::{MessageView, view_of};
pub use monitors::{may_send, received, sent};
pub use names::{name_at, number_of};
pub use states::{arm_at, standing};
pub use status_texts::status_text;
pub use statuses::CallStatus;
