//! Sessions that were opened, and the names in their texts.

ghost use Rattle.std.specs.Prelude.{◌≡◌, ◌<◌, IfNone, IfSome, IsUtf8, None, Some, length, min};
ghost use Rattle.rs_answers.specs.RefusalTexts as named;
ghost use Rattle.rs_model.specs.declared.limits.TheConstants.{MOST_CAPACITY};
ghost use Rattle.rs_open.specs.Opening.{HasNames};
ghost use Rattle.rs_safety.specs.Room.{room_of};
ghost use Rattle.rs_text.specs.Names.{place_of};

use rs_answers::{AcceptedDocument, label_name, role_name};
use rs_model::{Capacity, Label, Name, Names, Role};
use rs_safety::Accepted;
use rs_text::{find, find_role};
use std::marker::Model;

/// A session that was opened: its machines, which are safe, and the names in its text. It owns them.
#[derive(Drop)]
pub struct OpenSession {
    document: AcceptedDocument,
}

impl Model for OpenSession {
    ghost use Rattle.rs_answers.specs.declared.accepting.AcceptedDocument.{AcceptedDocument};
    ghost use Rattle.rs_open.specs.Opening.{HasNames};

    ghost Value = { AcceptedDocument };

    ghost view = { λ s. s.document };

    ghost invariant = { λ s. HasNames s.document };
}

fn text_of(word: &[u8]) -> &str
    requires { IsUtf8 word.now }
    ensures { result.now ≡ word.now }
{
    match str::from_utf8(word) {
        Ok(text) => text,
        Err(_) => unreachable!(),
    }
}

impl OpenSession {
    pub(crate) fn of(document: AcceptedDocument) -> OpenSession
        requires { HasNames document }
        ensures { result ≡ document }
    {
        OpenSession { document }
    }

    /// The machines with their protocol, projections and derivations, for all that asks for an accepted session.
    pub fn accepted(&self) -> &Accepted
        ensures { result.now ≡ self.now.session }
    {
        &self.document.session
    }

    /// The names in the text.
    pub fn names(&self) -> &Names
        ensures names { result.now ≡ self.now.names }
        ensures has { HasNames self.now }
    {
        &self.document.names
    }

    /// How many messages each ring must hold, so that no role can be held up by full rings.
    pub fn room(&self) -> u64
        ensures { result ≡ room_of self.now.session.derivations }
    {
        self.document.session.room()
    }

    /// How many messages each ring holds in a run: the room, but at most 1,024.
    pub fn capacity(&self) -> Capacity
        ensures { result ≡ min (room_of self.now.session.derivations) MOST_CAPACITY }
    {
        Capacity::at_most(self.room())
    }

    /// The names of the roles: role `r` has that at place `r`, and runs the machine at place `r`.
    pub fn roles(&self) -> &[Name]
        ensures roles { result.now ≡ self.now.names.roles }
        ensures has { HasNames self.now }
    {
        self.document.names.roles.as_slice()
    }

    /// The role with this name; None where the text has no such role.
    #[tactic(auto, using(crate::proofs::Words::found_below, crate::proofs::Words::found_there))]
    pub fn role(&self, name: &str) -> Option<Role>
        ensures some { IfSome result (λ role. place_of name.now self.now.names.roles ≡ Some role.0) }
        ensures named { IfSome result (λ role. named.role_name self.now.names role ≡ name.now) }
        ensures runs { IfSome result (λ role. role.0 < length self.now.session.machines) }
        ensures none { IfNone result (place_of name.now self.now.names.roles ≡ None) }
    {
        find_role(self.roles(), name.as_bytes())
    }

    /// The label with this name; None where the text has no such label.
    #[tactic(auto, using(crate::proofs::Words::found_below, crate::proofs::Words::found_there))]
    pub fn label(&self, name: &str) -> Option<Label>
        ensures some { IfSome result (λ label. place_of name.now self.now.names.labels ≡ Some label.0) }
        ensures named { IfSome result (λ label. named.label_name self.now.names label ≡ name.now) }
        ensures none { IfNone result (place_of name.now self.now.names.labels ≡ None) }
    {
        let place = find(self.document.names.labels.as_slice(), name.as_bytes())?;
        Some(Label(place as u16))
    }

    /// The name of the role, or no text where the session has no such role.
    #[tactic(auto, using(crate::proofs::Words::role_is_text))]
    pub fn name_of(&self, role: Role) -> &str
        ensures { result.now ≡ named.role_name self.now.names role }
    {
        text_of(role_name(self.names(), role))
    }

    /// The name of the label, or no text where the text has no such label.
    #[tactic(auto, using(crate::proofs::Words::label_is_text))]
    pub fn name_of_label(&self, label: Label) -> &str
        ensures { result.now ≡ named.label_name self.now.names label }
    {
        text_of(label_name(self.names(), label))
    }
}
