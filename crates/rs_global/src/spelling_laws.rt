//! What a text spells is what the reader gives. The functions do nothing: each states a law.

ghost use Rattle.std.specs.Prelude.{◌≡◌, ◌≤◌, ◌⊎◌, ℕ, List, Ok, length};
ghost use Rattle.rs_model.specs.Data.{Names_data, Protocol_data};
ghost use Rattle.rs_text.specs.declared.faults.TextKind.{TextKind};
ghost use Rattle.rs_global.specs.Faults.{FirstFault};
ghost use Rattle.rs_global.specs.Answers.{ProtocolAnswer, ReadsAs};
ghost use Rattle.rs_global.specs.Spells.{SpellsProtocol};

/// Whatever protocol is read from a text, the text spells it.
pub fn read_text_is_spelt()
    ensures { (bytes : List ℕ) (at : ℕ) (answer : ProtocolAnswer) → at ≤ length bytes → ReadsAs bytes at (Ok answer) → SpellsProtocol bytes at answer.names answer.graph answer.until }
{}

/// Whatever protocol a text spells is read from it.
pub fn spelling_is_read()
    ensures { (bytes : List ℕ) (at : ℕ) (names : Names_data) (protocol : Protocol_data) (until : ℕ) → SpellsProtocol bytes at names protocol until
        → ReadsAs bytes at (Ok (record { names = names; graph = protocol; until = until })) }
{}

/// A text spells one protocol at most, by one list of names, as far as one offset.
pub fn text_spells_one_protocol()
    ensures { (bytes : List ℕ) (at : ℕ) (names others : Names_data) (protocol other : Protocol_data) (until stop : ℕ) → SpellsProtocol bytes at names protocol until
        → SpellsProtocol bytes at others other stop → (names ≡ others) × (protocol ≡ other) × (until ≡ stop) }
{}

/// Every text spells a protocol or has a first fault.
pub fn text_is_spelt_or_has_a_fault()
    ensures { (bytes : List ℕ) (at : ℕ) → at ≤ length bytes → ((names : Names_data) × (protocol : Protocol_data) × (until : ℕ) × SpellsProtocol bytes at names protocol until)
        ⊎ ((kind : TextKind) × (offset : ℕ) × FirstFault bytes at kind offset) }
{}
