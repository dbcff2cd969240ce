//! The answers that refuse, by the reason.

ghost use Rattle.std.specs.Prelude.{◌≡◌, ◌≤◌, IfOk, OnOk, codes, length};
ghost use Rattle.rs_text.specs.NamePlaces.{name_at};
ghost use Rattle.rs_text.specs.declared.faults.TextKind.TheVariants as kind;
ghost use Rattle.rs_answers.specs.Improves.{unknown_role};
ghost use Rattle.rs_answers.specs.RefusalTexts as spec;
ghost use Rattle.rs_answers.specs.Texts as texts;
ghost use Rattle.rs_answers.specs.declared.verdicts.Verdict.TheVariants as verdict;

use crate::answers::Answer;
use crate::texts::Piece::{self, Number, Words};
use crate::texts::{push_pieces, text_of};
use crate::verdicts::Verdict;
use crate::verifying::Blame;
use rs_derive::DeriveFault;
use rs_model::{Label, MachineFault, Name, Names, NoMemory, Role};
use rs_project::ProjFault;
use rs_search::SearchFault;
use rs_text::{Text, TextFault, TextKind, place};
use rs_wellformed::WfFault;
use std::alloc::Global;

/// The pieces, after the words that name their kind, and the end of the line.
pub fn line_of_answer(
    alloc: Global,
    kind: &[u8],
    what: &[Piece],
    verdict: Verdict,
) -> Result<Answer, NoMemory>
    ensures { IfOk result (λ a. a ≡ spec.line_of_answer kind.now (texts.pieces_text what.now) verdict) }
{
    let mut text = Text::new(alloc);
    text.push(kind)?;
    push_pieces(&mut text, what)?;
    text.push(b"\n")?;
    Ok(Answer { text, verdict })
}

/// The words are none of the program's.
pub fn usage(alloc: Global) -> Result<Answer, NoMemory>
    ensures { IfOk result (λ a. a ≡ spec.usage) }
{
    line_of_answer(alloc, b"usage", &[], Verdict::Usage)
}

/// A quantity passes its limit.
pub fn too_large(alloc: Global, what: &[Piece]) -> Result<Answer, NoMemory>
    ensures { IfOk result (λ a. a ≡ spec.too_large (texts.pieces_text what.now)) }
{
    line_of_answer(alloc, b"too large: ", what, Verdict::TooLarge)
}

/// The rings hold fewer messages than the room of the session.
pub fn too_small(alloc: Global, capacity: u16, room: u64) -> Result<Answer, NoMemory>
    ensures { IfOk result (λ a. a ≡ spec.too_small capacity room) }
{
    line_of_answer(
        alloc,
        b"room too small: ring ",
        &[Number(u64::from(capacity)), Words(b" room "), Number(room)],
        Verdict::RoomTooSmall,
    )
}

/// The text is at fault.
fn malformed_answer(alloc: Global, what: &[Piece]) -> Result<Answer, NoMemory>
    ensures { IfOk result (λ a. a ≡ spec.malformed_answer (texts.pieces_text what.now)) }
{
    line_of_answer(alloc, b"malformed ", what, Verdict::Malformed)
}

/// The roles line has no such role.
pub(crate) fn unknown_role(alloc: Global) -> Result<Answer, NoMemory>
    ensures { IfOk result (λ a. a ≡ unknown_role) }
{
    line_of_answer(alloc, b"unknown role", &[], Verdict::Malformed)
}

/// The protocol has no projection onto the role.
fn unprojectable_answer<'a>(
    alloc: Global,
    role: &'a [u8],
    what: &'a [u8],
) -> Result<Answer, NoMemory>
    ensures { IfOk result (λ a. a ≡ spec.unprojectable role.now what.now) }
{
    line_of_answer(
        alloc,
        b"unprojectable\n",
        &[Words(role), Words(b": "), Words(what)],
        Verdict::Unprojectable,
    )
}

/// The role's machine is refused.
fn refused_answer<'a>(alloc: Global, role: &'a [u8], what: &'a [u8]) -> Result<Answer, NoMemory>
    ensures { IfOk result (λ a. a ≡ spec.refused_answer role.now what.now) }
{
    line_of_answer(
        alloc,
        b"refused\n",
        &[Words(role), Words(b": "), Words(what)],
        Verdict::Refused,
    )
}

/// What is said, after line and column of the offset.
fn text_at_place(alloc: Global, bytes: &[u8], at: usize, what: &[u8]) -> Result<Answer, NoMemory>
    requires { at ≤ length bytes.now }
    ensures { IfOk result (λ a. a ≡ spec.text_at_place bytes.now at what.now) }
{
    let (line, column) = place(bytes, at);
    malformed_answer(
        alloc,
        &[
            Number(line as u64),
            Words(b":"),
            Number(column as u64),
            Words(b" "),
            Words(what),
        ],
    )
}

/// What is answered to the first fault of a text.
fn fault_answer(alloc: Global, bytes: &[u8], fault: TextFault) -> Result<Answer, NoMemory>
    requires { fault.at ≤ length bytes.now }
    ensures { IfOk result (λ a. a ≡ spec.fault_answer bytes.now fault.kind fault.at) }
{
    match fault.kind {
        TextKind::Expected(wanted) => {
            let what = text_of(
                alloc,
                &[Words(b"expected "), Words(wanted.text().as_bytes())],
            )?;
            text_at_place(alloc, bytes, fault.at, what.as_slice())
        }
        TextKind::UnknownRole => text_at_place(alloc, bytes, fault.at, b"unknown role"),
        TextKind::UnboundName => text_at_place(alloc, bytes, fault.at, b"unbound name"),
        TextKind::NameTwice => text_at_place(alloc, bytes, fault.at, b"name twice"),
        TextKind::TooDeep => too_large(alloc, &[Words(b"nesting")]),
        TextKind::TooManyRoles => too_large(alloc, &[Words(b"roles")]),
        TextKind::TooManyNodes => too_large(alloc, &[Words(b"nodes")]),
        TextKind::NoMemory => text_at_place(alloc, bytes, fault.at, b"no memory"),
        TextKind::Unguarded => text_at_place(alloc, bytes, fault.at, b"unguarded name"),
        TextKind::TooManyLabels => too_large(alloc, &[Words(b"labels")]),
        TextKind::BadByte => text_at_place(alloc, bytes, fault.at, b"bad byte"),
        TextKind::NumberTooLarge => text_at_place(alloc, bytes, fault.at, b"number too large"),
        TextKind::NameTooLong => too_large(alloc, &[Words(b"name")]),
        TextKind::TooManyActs => too_large(alloc, &[Words(b"acts")]),
    }
}

/// The answer to a text at fault; no answer if memory ran out.
pub fn answer_to_fault(alloc: Global, bytes: &[u8], fault: TextFault) -> Result<Answer, NoMemory>
    requires { fault.at ≤ length bytes.now }
    ensures answer { IfOk result (λ a. a ≡ spec.fault_answer bytes.now fault.kind fault.at) }
    ensures memory { OnOk result (fault.kind ≡ kind.NoMemory → ⊥) }
{
    match fault.kind {
        TextKind::NoMemory => Err(NoMemory),
        _ => fault_answer(alloc, bytes, fault),
    }
}

/// The name at the place, or nothing where there is none.
fn name_at(names: &[Name], place: usize) -> &[u8]
    ensures { result.now ≡ name_at names.now place }
{
    match names.get(place) {
        Some(name) => name.as_slice(),
        None => b"",
    }
}

/// The name of the label, or no bytes where it has none.
pub fn label_name(names: &Names, label: Label) -> &[u8]
    ensures { result.now ≡ spec.label_name names.now label }
{
    name_at(names.labels.as_slice(), usize::from(label.0))
}

/// The name of the role, or no bytes where it has none.
pub fn role_name(names: &Names, role: Role) -> &[u8]
    ensures { result.now ≡ spec.role_name names.now role }
{
    name_at(names.roles.as_slice(), usize::from(role.0))
}

/// What is answered to a protocol that isn't well formed, by its first fault.
pub fn wf_answer(alloc: Global, names: &Names, fault: WfFault) -> Result<Answer, NoMemory>
    ensures { IfOk result (λ a. a ≡ spec.wf_answer names.now fault) }
{
    match fault {
        WfFault::SelfTalk { node } => malformed_answer(
            alloc,
            &[
                Words(b"protocol: node "),
                Number(u64::from(node)),
                Words(b" talks to itself"),
            ],
        ),
        WfFault::NoArms { node } => malformed_answer(
            alloc,
            &[
                Words(b"protocol: no arms at node "),
                Number(u64::from(node)),
            ],
        ),
        WfFault::TooManyArms { .. } => too_large(alloc, &[Words(b"arms")]),
        WfFault::TwiceLabel { node, label } => malformed_answer(
            alloc,
            &[
                Words(b"protocol: label "),
                Words(label_name(names, label)),
                Words(b" twice at node "),
                Number(u64::from(node)),
            ],
        ),
        WfFault::BadNext { node } => malformed_answer(
            alloc,
            &[
                Words(b"protocol: bad next at node "),
                Number(u64::from(node)),
            ],
        ),
    }
}

/// The two members that don't merge.
fn clash_text(alloc: Global, a: u32, b: Option<u32>) -> Result<Text, NoMemory>
    ensures { IfOk result (λ text. text ≡ spec.clash_text a b) }
{
    match b {
        Some(b) => text_of(
            alloc,
            &[
                Words(b"nodes "),
                Number(u64::from(a)),
                Words(b" and "),
                Number(u64::from(b)),
                Words(b" do not merge"),
            ],
        ),
        None => text_of(
            alloc,
            &[
                Words(b"node "),
                Number(u64::from(a)),
                Words(b" and the end do not merge"),
            ],
        ),
    }
}

/// The answer to a protocol that has no projection onto a role; no answer if memory ran out.
pub fn proj_answer(alloc: Global, names: &Names, fault: ProjFault) -> Result<Answer, NoMemory>
    ensures answer { IfOk result (λ a. a ≡ spec.proj_answer names.now fault) }
    ensures memory { OnOk result (fault ≡ ProjFault.NoMemory → ⊥) }
{
    match fault {
        ProjFault::Unmergeable { role, a, b } => {
            let what = clash_text(alloc, a, b)?;
            unprojectable_answer(alloc, role_name(names, role), what.as_slice())
        }
        ProjFault::Unreached { role, node } => {
            let what = text_of(
                alloc,
                &[Words(b"unreached at node "), Number(u64::from(node))],
            )?;
            unprojectable_answer(alloc, role_name(names, role), what.as_slice())
        }
        ProjFault::TooManyStates { role } => too_large(
            alloc,
            &[Words(b"projection "), Words(role_name(names, role))],
        ),
        ProjFault::NoMemory => Err(NoMemory),
    }
}

/// What is wrong at a state.
fn state_text(alloc: Global, names: &Names, fault: MachineFault) -> Result<Text, NoMemory>
    ensures { IfOk result (λ text. text ≡ spec.state_text names.now fault) }
{
    match fault {
        MachineFault::TwiceLabel { state, label } => text_of(
            alloc,
            &[
                Words(b"label "),
                Words(label_name(names, label)),
                Words(b" twice at state "),
                Number(u64::from(state)),
            ],
        ),
        MachineFault::SelfPeer { state } => text_of(
            alloc,
            &[
                Words(b"state "),
                Number(u64::from(state)),
                Words(b" talks to itself"),
            ],
        ),
        MachineFault::BadNext { state } => text_of(
            alloc,
            &[Words(b"no such state at state "), Number(u64::from(state))],
        ),
        MachineFault::NoArms { state } => text_of(
            alloc,
            &[Words(b"no arms at state "), Number(u64::from(state))],
        ),
        MachineFault::UnknownPeer { state } => text_of(
            alloc,
            &[Words(b"unknown peer at state "), Number(u64::from(state))],
        ),
    }
}

/// What is answered to a machine that isn't well formed, by its role and its first fault.
pub fn machine_answer(
    alloc: Global,
    names: &Names,
    role: Role,
    fault: MachineFault,
) -> Result<Answer, NoMemory>
    ensures { IfOk result (λ a. a ≡ spec.machine_answer names.now role fault) }
{
    let what = state_text(alloc, names, fault)?;
    malformed_answer(
        alloc,
        &[
            Words(b"machine "),
            Words(role_name(names, role)),
            Words(b": "),
            Words(what.as_slice()),
        ],
    )
}

/// Whether some candidate of the search met a cut.
pub(crate) fn cut_text(cut: bool) -> &'static [u8]
    ensures { result.now ≡ spec.cut_text cut }
{
    if cut {
        b"not found, cut yes"
    } else {
        b"not found, cut no"
    }
}

/// The answer if the search finds no derivation of the role's machine; no answer if memory ran out.
pub fn search_answer(
    alloc: Global,
    names: &Names,
    role: Role,
    fault: SearchFault,
) -> Result<Answer, NoMemory>
    ensures answer { IfOk result (λ a. a ≡ spec.search_answer names.now role fault) }
    ensures memory { OnOk result (fault ≡ SearchFault.NoMemory → ⊥) }
{
    match fault {
        SearchFault::NotFound { cut } => refused_answer(
            alloc,
            role_name(names, role),
            cut_text(cut),
        ),
        SearchFault::Forgets { node } => {
            let what = text_of(
                alloc,
                &[Words(b"forgets at node "), Number(u64::from(node))],
            )?;
            refused_answer(alloc, role_name(names, role), what.as_slice())
        }
        SearchFault::TooLarge => too_large(
            alloc,
            &[Words(b"candidates "), Words(role_name(names, role))],
        ),
        SearchFault::NoMemory => Err(NoMemory),
    }
}

/// Why a role's own derivation is refused, in words.
fn blame_text(alloc: Global, blame: Blame) -> Result<Text, NoMemory>
    ensures { IfOk result (λ text. text ≡ spec.blame_text blame) }
{
    match blame {
        Blame::Missing => text_of(alloc, &[Words(b"no derivation")]),
        Blame::Fault(fault) => derive_text(alloc, fault),
    }
}

fn derive_text(alloc: Global, fault: DeriveFault) -> Result<Text, NoMemory>
    ensures { IfOk result (λ text. text ≡ spec.derive_text fault) }
{
    match fault {
        DeriveFault::BadStart => text_of(alloc, &[Words(b"bad start")]),
        DeriveFault::BadState { node } => at_node(alloc, b"bad state", node),
        DeriveFault::TooLongPending { node } => at_node(alloc, b"too long", node),
        DeriveFault::NoMove { node } => at_node(alloc, b"no move", node),
        DeriveFault::WrongNext { node, arm } => at_arm(alloc, b"wrong next", node, arm),
        DeriveFault::Forgets { node, arm } => at_arm(alloc, b"forgets", node, arm),
    }
}

fn at_node(alloc: Global, what: &[u8], node: u32) -> Result<Text, NoMemory>
    ensures { IfOk result (λ text. text ≡ spec.at_node what.now node) }
{
    text_of(
        alloc,
        &[Words(what), Words(b" at node "), Number(u64::from(node))],
    )
}

fn at_arm(alloc: Global, what: &[u8], node: u32, arm: u32) -> Result<Text, NoMemory>
    ensures { IfOk result (λ text. text ≡ spec.at_arm what.now node arm) }
{
    text_of(
        alloc,
        &[
            Words(what),
            Words(b" at node "),
            Number(u64::from(node)),
            Words(b" arm "),
            Number(u64::from(arm)),
        ],
    )
}

/// What is answered where the role's own derivation doesn't show that its machine may stand for its projection.
pub fn blame_answer(
    alloc: Global,
    names: &Names,
    role: Role,
    blame: Blame,
) -> Result<Answer, NoMemory>
    ensures { IfOk result (λ a. a ≡ spec.blame_answer names.now role blame) }
{
    let what = blame_text(alloc, blame)?;
    refused_answer(alloc, role_name(names, role), what.as_slice())
}
