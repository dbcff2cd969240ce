//! Rumpsteak for programs in C, and in whatever calls C. `bindings/c/rumpsteak.h` declares these functions, and says what their
//! callers keep.
#![tactic(auto)]

mod answers;
mod endpoints;
mod monitors;
mod sessions;
mod statuses;
mod texts;
mod versions;
