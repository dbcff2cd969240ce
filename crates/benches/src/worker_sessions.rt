//! The sessions that are run. None of them ends.

/// A session with its text.
#[derive(Clone, Copy)]
pub struct NamedText {
    pub name: &'static str,
    pub text: &'static str,
}

/// In the first session the roles act in turn: one waits while the other works. In the second both send before they take. In
/// the third two pairs of roles have nothing to do with each other.
pub const SESSIONS: [NamedText; 3] = [
    NamedText {
        name: "in turn",
        text: "roles A, B\nprotocol rec X. A->B:x(nat). B->A:y(nat). X\n",
    },
    NamedText {
        name: "at once",
        text: "roles A, B\nprotocol rec X. A->B:x(nat). B->A:y(nat). X\nmachine B: rec X. A!y(nat). A?x(nat). X\n",
    },
    NamedText {
        name: "two pairs",
        text: "roles A, B, C, D\nprotocol rec X. A->B:x(nat). C->D:y(nat). X\n",
    },
];
