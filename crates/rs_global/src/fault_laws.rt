//! What the first fault of a text is, and that the reader tells it. The functions do nothing: each states a law.

ghost use Rattle.std.specs.Prelude.{◌≡◌, ◌≤◌, ℕ, List, Ok, Err, length};
ghost use Rattle.rs_model.specs.Data.{Names_data, Protocol_data};
ghost use Rattle.rs_text.specs.declared.faults.TextFault.{TextFault};
ghost use Rattle.rs_text.specs.declared.faults.TextKind.{TextKind};
ghost use Rattle.rs_text.specs.declared.faults.TextKind.TheVariants as kind;
ghost use Rattle.rs_text.specs.declared.faults.Wanted.{Wanted};
ghost use Rattle.rs_text.specs.Lexemes.{signs_of};
ghost use Rattle.rs_bodies.specs.declared.dialects.Dialect.TheVariants.{Talks};
ghost use Rattle.rs_bodies.specs.Faults.{Begins, IsUnexpected};
ghost use Rattle.rs_global.specs.Faults.{FirstFault};
ghost use Rattle.rs_global.specs.Answers.{ProtocolAnswer, ReadsAs};
ghost use Rattle.rs_global.specs.Spells.{SpellsProtocol};

/// Whatever fault the reader tells is the first fault of the text.
pub fn told_fault_is_the_first()
    ensures { (bytes : List ℕ) (at : ℕ) (fault : TextFault) → at ≤ length bytes → ReadsAs bytes at (Err fault) → FirstFault bytes at fault.kind fault.at }
{}

/// The first fault of a text is told.
pub fn first_fault_is_told()
    ensures { (bytes : List ℕ) (at : ℕ) (kind : TextKind) (offset : ℕ) → FirstFault bytes at kind offset → ReadsAs bytes at (Err (record { kind = kind; at = offset })) }
{}

/// A text has one first fault at most.
pub fn text_has_one_first_fault()
    ensures { (bytes : List ℕ) (at : ℕ) (kind other : TextKind) (offset place : ℕ) → FirstFault bytes at kind offset → FirstFault bytes at other place → (kind ≡ other) × (offset ≡ place) }
{}

/// A text from which a protocol is read has no first fault.
pub fn read_text_has_no_fault()
    ensures { (bytes : List ℕ) (at : ℕ) (answer : ProtocolAnswer) (kind : TextKind) (offset : ℕ) → ReadsAs bytes at (Ok answer) → FirstFault bytes at kind offset → ⊥ }
{}

/// The tokens before the first fault begin a protocol.
pub fn tokens_before_the_fault_begin_a_protocol()
    ensures { (bytes : List ℕ) (at : ℕ) (kind : TextKind) (offset : ℕ) (fault : FirstFault bytes at kind offset) → Begins Talks (signs_of fault.before) }
{}

/// Where another token is expected, the tokens up to that one begin a protocol and with it they begin none, and what is
/// wanted is what its place wants.
pub fn expected_is_unexpected()
    ensures { (bytes : List ℕ) (at : ℕ) (wanted : Wanted) (offset : ℕ) (fault : FirstFault bytes at (kind.Expected wanted) offset)
        → IsUnexpected Talks (signs_of fault.before) fault.token.sign wanted }
{}

/// A text that a tree spells is read.
pub fn spelt_text_is_read()
    ensures { (bytes : List ℕ) (at : ℕ) (names : Names_data) (protocol : Protocol_data) (until : ℕ) → SpellsProtocol bytes at names protocol until
        → (answer : ProtocolAnswer) × ReadsAs bytes at (Ok answer) }
{}

/// A text that a tree spells has no first fault.
pub fn spelt_text_has_no_fault()
    ensures { (bytes : List ℕ) (at : ℕ) (names : Names_data) (protocol : Protocol_data) (until : ℕ) (kind : TextKind) (offset : ℕ) → SpellsProtocol bytes at names protocol until
        → FirstFault bytes at kind offset → ⊥ }
{}
