//! The documents of the demos as values: what their texts spell.

ghost use Rattle.std.specs.Prelude.{◌≡◌, ◌+◌, ◌≤◌, ◌<◌, ◌++◌, ◌∷◌, [], length, map, true, IfOk, OnOk};
ghost use Rattle.rs_documents.specs.Parts.{no_parts};
ghost use Rattle.rs_documents.specs.Ready.{DocumentIsReady};
ghost use Rattle.rs_model.specs.declared.limits.TheConstants.{MOST_ROLES};
ghost use Rattle.rs_model.specs.declared.graph.Node.TheVariants as node;
ghost use Rattle.rs_model.specs.declared.machines.State.TheVariants as state;
ghost use Rattle.rs_model.specs.declared.demos.Demo.TheVariants as demo;
ghost use Rattle.rs_demos.specs.Sessions as spec;
ghost use Rattle.rs_demos.specs.Sessions.{has_session};
ghost use Rattle.rs_demos.specs.Texts.{document_of};

use crate::documents::push_role;
use crate::exchanges::{butterfly_exchanges, butterfly_pairs, ring_exchanges, ring_pairs};
use rs_derive::Derivation;
use rs_documents::Document;
use rs_model::{
    Arm, Arms, Demo, Label, Machine, Name, Names, NoMemory, Node, Protocol, Role, Sort, State,
};
use rs_text::Text;
use std::alloc::Global;

/// The document of a demo for this number of roles, which [`demo_document`](crate::demo_document) writes as a text. For a demo whose
/// roles are fixed the count means nothing. The one error is that memory was refused.
pub fn demo_session_document(alloc: Global, kind: Demo, count: u8) -> Result<Document, NoMemory>
    requires { has_session kind count ≡ true }
    ensures document { IfOk result (λ document. document ≡ document_of kind count) }
    ensures ready { IfOk result DocumentIsReady }
{
    let names = demo_names(alloc, kind, count)?;
    let derivations = no_derivations(alloc, names.roles.as_slice())?;
    Ok(Document {
        names,
        protocol: demo_protocol(alloc, kind, count)?,
        machines: written_machines(alloc, kind, count)?,
        derivations,
    })
}

/// A place without a derivation for each role.
fn no_derivations(alloc: Global, roles: &[Name]) -> Result<Vec<Option<Derivation>>, NoMemory>
    ensures { IfOk result (λ derivations. derivations.items ≡ no_parts roles.now) }
{
    Ok(roles.iter().map(|_| None).collect(alloc)?)
}

fn demo_names(alloc: Global, kind: Demo, count: u8) -> Result<Names, NoMemory>
    ensures { IfOk result (λ names. names ≡ spec.demo_names kind count) }
{
    Ok(match kind {
        Demo::Double => Names {
            roles: three_names(alloc, b"K", b"S", b"T")?,
            labels: three_names(alloc, b"ready", b"copy", b"stop")?,
        },
        Demo::Stream => Names {
            roles: vec![in alloc; Name::of(alloc, b"S")?, Name::of(alloc, b"T")?]?,
            labels: three_names(alloc, b"ready", b"value", b"stop")?,
        },
        Demo::Ring | Demo::Butterfly => Names {
            roles: role_names(alloc, count)?,
            labels: vec![in alloc; Name::of(alloc, b"v")?]?,
        },
    })
}

fn three_names(
    alloc: Global,
    first: &[u8],
    second: &[u8],
    third: &[u8],
) -> Result<Vec<Name>, NoMemory>
    ensures { IfOk result (λ names. names.items ≡ first.now ∷ second.now ∷ third.now ∷ []) }
{
    Ok(vec![in alloc;
        Name::of(alloc, first)?,
        Name::of(alloc, second)?,
        Name::of(alloc, third)?,
    ]?)
}

fn role_name(alloc: Global, role: u8) -> Result<Name, NoMemory>
    ensures { IfOk result (λ name. name ≡ spec.demo_role_name role) }
{
    let mut text = Text::new(alloc);
    push_role(&mut text, role)?;
    Name::of(alloc, text.as_slice())
}

fn role_names(alloc: Global, roles: u8) -> Result<Vec<Name>, NoMemory>
    ensures { IfOk result (λ names. names.items ≡ map spec.demo_role_name (spec.numbers_from 0 roles)) }
{
    let mut names = Vec::with_capacity(alloc, usize::from(roles))?;
    for role in 0..roles {
        names.push(role_name(alloc, role)?)?;
    }
    Ok(names)
}

fn arm(label: u16, sort: Sort, next: u32) -> Arm
    ensures { result ≡ spec.arm label sort next }
{
    Arm {
        label: Label(label),
        sort,
        next,
    }
}

fn one_arm(alloc: Global, only: Arm) -> Result<Arms, NoMemory>
    ensures { IfOk result (λ arms. arms ≡ only ∷ []) }
{
    let mut arms = Arms::new(alloc);
    arms.push(only)?;
    Ok(arms)
}

fn two_arms(alloc: Global, first: Arm, second: Arm) -> Result<Arms, NoMemory>
    ensures { IfOk result (λ arms. arms ≡ first ∷ second ∷ []) }
{
    let mut arms = one_arm(alloc, first)?;
    arms.push(second)?;
    Ok(arms)
}

fn talk(sender: u8, receiver: u8, arms: Arms) -> Node
    ensures { result ≡ node.Talk (spec.role sender) (spec.role receiver) arms }
{
    Node::Talk {
        sender: Role(sender),
        receiver: Role(receiver),
        arms,
    }
}

fn puts(peer: u8, arms: Arms) -> State
    ensures { result ≡ state.Puts (spec.role peer) arms }
{
    State::Puts {
        peer: Role(peer),
        arms,
    }
}

fn takes(peer: u8, arms: Arms) -> State
    ensures { result ≡ state.Takes (spec.role peer) arms }
{
    State::Takes {
        peer: Role(peer),
        arms,
    }
}

/// The machine of a role that starts in its first state.
fn machine(role: u8, states: Vec<State>) -> Machine
    ensures { result ≡ spec.machine role states.items }
{
    Machine {
        role: Role(role),
        states,
        start: 0,
    }
}

fn double_protocol(alloc: Global) -> Result<Protocol, NoMemory>
    ensures { IfOk result (λ protocol. protocol ≡ spec.double_protocol) }
{
    let piece_or_stop = two_arms(alloc, arm(1, Sort::Octets, 3), arm(2, Sort::Unit, 4))?;
    let nodes = vec![in alloc;
        talk(0, 1, one_arm(alloc, arm(0, Sort::Unit, 1))?),
        talk(2, 0, one_arm(alloc, arm(0, Sort::Unit, 2))?),
        talk(1, 0, piece_or_stop),
        talk(0, 2, one_arm(alloc, arm(1, Sort::Octets, 0))?),
        talk(0, 1, one_arm(alloc, arm(0, Sort::Unit, 5))?),
        talk(0, 2, one_arm(alloc, arm(2, Sort::Unit, 6))?),
        Node::Finished,
    ]?;
    Ok(Protocol {
        roles: 3,
        nodes,
        root: 0,
    })
}

fn double_kernel(alloc: Global) -> Result<Machine, NoMemory>
    ensures { IfOk result (λ machine. machine ≡ spec.double_kernel) }
{
    let piece_or_stop = two_arms(alloc, arm(1, Sort::Octets, 4), arm(2, Sort::Unit, 5))?;
    let states = vec![in alloc;
        puts(1, one_arm(alloc, arm(0, Sort::Unit, 1))?),
        puts(1, one_arm(alloc, arm(0, Sort::Unit, 2))?),
        takes(2, one_arm(alloc, arm(0, Sort::Unit, 3))?),
        takes(1, piece_or_stop),
        puts(2, one_arm(alloc, arm(1, Sort::Octets, 1))?),
        puts(2, one_arm(alloc, arm(2, Sort::Unit, 6))?),
        State::Done,
    ]?;
    Ok(machine(0, states))
}

fn stream_protocol(alloc: Global) -> Result<Protocol, NoMemory>
    ensures { IfOk result (λ protocol. protocol ≡ spec.stream_protocol) }
{
    let piece_or_stop = two_arms(alloc, arm(1, Sort::Octets, 0), arm(2, Sort::Unit, 2))?;
    let nodes = vec![in alloc;
        talk(1, 0, one_arm(alloc, arm(0, Sort::Unit, 1))?),
        talk(0, 1, piece_or_stop),
        Node::Finished,
    ]?;
    Ok(Protocol {
        roles: 2,
        nodes,
        root: 0,
    })
}

fn stream_source(alloc: Global) -> Result<Machine, NoMemory>
    ensures { IfOk result (λ machine. machine ≡ spec.stream_source) }
{
    let piece_or_stop = two_arms(alloc, arm(1, Sort::Octets, 1), arm(2, Sort::Unit, 3))?;
    let states = vec![in alloc;
        puts(1, one_arm(alloc, arm(1, Sort::Octets, 1))?),
        takes(1, one_arm(alloc, arm(0, Sort::Unit, 2))?),
        puts(1, piece_or_stop),
        takes(1, one_arm(alloc, arm(0, Sort::Unit, 4))?),
        State::Done,
    ]?;
    Ok(machine(0, states))
}

/// The one arm of a talk or a state of the ring and of the butterfly: `v(int)`.
fn number_arm(alloc: Global, next: u32) -> Result<Arms, NoMemory>
    ensures { IfOk result (λ arms. arms ≡ spec.arm 0 Sort.Whole next ∷ []) }
{
    one_arm(alloc, arm(0, Sort::Whole, next))
}

/// A protocol of exchanges, each a sender and a receiver, one after the other.
fn protocol_of(alloc: Global, roles: u8, exchanges: &[(u8, u8)]) -> Result<Protocol, NoMemory>
    requires { length exchanges.now ≤ 256 }
    ensures { IfOk result (λ protocol. protocol ≡ spec.protocol_of roles exchanges.now) }
{
    let mut nodes = Vec::with_capacity(alloc, exchanges.len() + 1)?;
    let mut next = 0;
    for exchange in exchanges {
        let (sender, receiver) = *exchange;
        next += 1;
        nodes.push(talk(sender, receiver, number_arm(alloc, next)?))?;
    }
    nodes.push(Node::Finished)?;
    Ok(Protocol {
        roles,
        nodes,
        root: 0,
    })
}

/// A send to a role and a receive from a role, after n other states.
fn push_pair(
    alloc: Global,
    states: &mut Vec<State>,
    pair: (u8, u8),
    before: u32,
) -> Result<(), NoMemory>
    requires { before ≤ 512 }
    ensures { OnOk result (states.new.items ≡ states.old.items ++ state.Puts (spec.role pair.0) (spec.arm 0 Sort.Whole (before + 1) ∷ []) ∷ state.Takes (spec.role pair.1)
        (spec.arm 0 Sort.Whole (before + 2) ∷ []) ∷ []) }
{
    let (to, from) = pair;
    states.push(puts(to, number_arm(alloc, before + 1)?))?;
    states.push(takes(from, number_arm(alloc, before + 2)?))?;
    Ok(())
}

/// A machine that sends to the first of each pair, and receives from the second, one pair after the other.
fn machine_of(alloc: Global, role: u8, pairs: &[(u8, u8)]) -> Result<Machine, NoMemory>
    requires { length pairs.now ≤ 256 }
    ensures { IfOk result (λ machine. machine ≡ spec.machine role (spec.states_from 0 pairs.now)) }
{
    let mut states = Vec::with_capacity(alloc, 2 * pairs.len() + 1)?;
    let mut before = 0;
    for pair in pairs {
        push_pair(alloc, &mut states, *pair, before)?;
        before += 2;
    }
    states.push(State::Done)?;
    Ok(machine(role, states))
}

fn ring_protocol(alloc: Global, roles: u8) -> Result<Protocol, NoMemory>
    requires { (1 ≤ roles) × (roles ≤ MOST_ROLES) }
    ensures { IfOk result (λ protocol. protocol ≡ spec.demo_protocol demo.Ring roles) }
{
    let exchanges = ring_exchanges(alloc, roles)?;
    protocol_of(alloc, roles, exchanges.as_slice())
}

fn butterfly_protocol(alloc: Global, roles: u8) -> Result<Protocol, NoMemory>
    requires { roles ≤ MOST_ROLES }
    ensures { IfOk result (λ protocol. protocol ≡ spec.demo_protocol demo.Butterfly roles) }
{
    let exchanges = butterfly_exchanges(alloc, roles)?;
    protocol_of(alloc, roles, exchanges.as_slice())
}

fn demo_protocol(alloc: Global, kind: Demo, count: u8) -> Result<Protocol, NoMemory>
    requires { has_session kind count ≡ true }
    ensures { IfOk result (λ protocol. protocol ≡ spec.demo_protocol kind count) }
{
    match kind {
        Demo::Double => double_protocol(alloc),
        Demo::Stream => stream_protocol(alloc),
        Demo::Ring => ring_protocol(alloc, count),
        Demo::Butterfly => butterfly_protocol(alloc, count),
    }
}

fn ring_machine(alloc: Global, roles: u8, role: u8) -> Result<Machine, NoMemory>
    requires { (role < roles) × (roles ≤ MOST_ROLES) }
    ensures { IfOk result (λ machine. machine ≡ spec.ring_machine roles role) }
{
    let pairs = ring_pairs(alloc, roles, role)?;
    machine_of(alloc, role, pairs.as_slice())
}

fn butterfly_machine(alloc: Global, roles: u8, role: u8) -> Result<Machine, NoMemory>
    requires { role < MOST_ROLES }
    ensures { IfOk result (λ machine. machine ≡ spec.butterfly_machine roles role) }
{
    let pairs = butterfly_pairs(alloc, roles, role)?;
    machine_of(alloc, role, pairs.as_slice())
}

/// A machine for each role of the ring but the first.
fn ring_machines(alloc: Global, roles: u8) -> Result<Vec<Option<Machine>>, NoMemory>
    requires { (1 ≤ roles) × (roles ≤ MOST_ROLES) }
    ensures { IfOk result (λ machines. machines.items ≡ spec.written_machines demo.Ring roles) }
{
    let mut machines = Vec::with_capacity(alloc, usize::from(roles))?;
    machines.push(None)?;
    for role in 1..roles {
        machines.push(Some(ring_machine(alloc, roles, role)?))?;
    }
    Ok(machines)
}

/// A machine for each role of the butterfly but the first.
fn butterfly_machines(alloc: Global, roles: u8) -> Result<Vec<Option<Machine>>, NoMemory>
    requires { (1 ≤ roles) × (roles ≤ MOST_ROLES) }
    ensures { IfOk result (λ machines. machines.items ≡ spec.written_machines demo.Butterfly roles) }
{
    let mut machines = Vec::with_capacity(alloc, usize::from(roles))?;
    machines.push(None)?;
    for role in 1..roles {
        machines.push(Some(butterfly_machine(alloc, roles, role)?))?;
    }
    Ok(machines)
}

fn written_machines(alloc: Global, kind: Demo, count: u8) -> Result<Vec<Option<Machine>>, NoMemory>
    requires { has_session kind count ≡ true }
    ensures { IfOk result (λ machines. machines.items ≡ spec.written_machines kind count) }
{
    match kind {
        Demo::Double => Ok(vec![in alloc; Some(double_kernel(alloc)?), None, None]?),
        Demo::Stream => Ok(vec![in alloc; Some(stream_source(alloc)?), None]?),
        Demo::Ring => ring_machines(alloc, count),
        Demo::Butterfly => butterfly_machines(alloc, count),
    }
}
