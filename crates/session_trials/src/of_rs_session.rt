//! Stages and tasks on documents.

ghost use Rattle.std.specs.Prelude.{◌≡◌, ◌++◌, ◌∷◌, [], None, IfOk, IfSome, length};
ghost use Rattle.rs_model.specs.Limits.{IsCapacity};
ghost use Rattle.rs_core.specs.Draws.{by_draws};
ghost use Rattle.rs_exec.specs.Polling.{HasStopped, IsTaskFrom, begun_by};
ghost use Rattle.rs_exec.specs.Tasks.{IsTaskOf};
ghost use Rattle.rs_session.specs.Stages.{AreFirst, IsEnded, sight_of_stage};
ghost use Rattle.rs_session.specs.declared.stages.Stage.TheVariants as kind;

use crate::documents::{TWICE, accepted_of};
use crate::transcripts::push_entries;
use futures::executor::block_on;
use futures::future::join;
use rs_core::{Actor, Entry, SeededActor};
use rs_exec::{RoleFuture, RoleTask, SessionTask, TaskName, Turn, Why};
use rs_model::{Label, NoMemory, Role, Value};
use rs_rings::{Closed, Loose};
use rs_safety::Accepted;
use rs_session::{CloseFault, Ended, Left, LeftFault, LeftOver, Session, Stage};
use rs_text::Text;
use std::alloc::{AllocGlobal, Global};
use std::io;
use std::marker::Brand;
use std::process::Abort;
use std::random::RandomSource;
use std::sync::Wait;
use std::test::Fail;

/// The session of accepted machines, and its first stages.
fn begun(alloc: Global, accepted: &Accepted, capacity: u16) -> Option<(Session, Vec<Stage>)>
    requires { IsCapacity capacity }
    ensures { IfSome result (λ begun. AreFirst begun.0 begun.1.items) }
{
    match Session::begin(alloc, accepted, capacity) {
        Ok(begun) => Some(begun),
        Err(_refused) => None,
    }
}

/// The session of a text, and its first stages.
pub(crate) fn begun_of(alloc: Global, text: &[u8], capacity: u16) -> Option<(Session, Vec<Stage>)>
    requires { IsCapacity capacity }
    ensures { IfSome result (λ begun. AreFirst begun.0 begun.1.items) }
{
    match accepted_of(alloc, text) {
        Some(accepted) => begun(alloc, &accepted, capacity),
        None => None,
    }
}

/// A session of two roles with a task for each.
struct Pair {
    session: Session,
    a: RoleTask<SeededActor>,
    b: RoleTask<SeededActor>,
}

/// A task with an actor for the role of a first stage.
fn task_of(rt: &impl Abort, alloc: Global, stage: Stage) -> RoleTask<SeededActor>
    requires nothing { (sight_of_stage stage).part.history ≡ [] }
    ensures stage { result.stage ≡ stage }
    ensures kept { result.kept ≡ None }
    ensures transcript { result.transcript ≡ [] }
{
    let role = stage.role();
    match RoleTask::new(alloc, stage, SeededActor::new(0, role), 100) {
        Ok(task) => task,
        Err(_) => panic!(rt; "no memory"),
    }
}

fn pair_of(rt: &impl Abort, alloc: Global, text: &[u8], capacity: u16) -> Pair
    requires { IsCapacity capacity }
    ensures a { IsTaskOf result.session result.a }
    ensures b { IsTaskOf result.session result.b }
    ensures a_from { IsTaskFrom by_draws (begun_by result.session result.a) result.a }
    ensures b_from { IsTaskFrom by_draws (begun_by result.session result.b) result.b }
{
    let Some((session, stages)) = begun_of(alloc, text, capacity) else {
        panic!(rt; "not accepted");
    };
    let mut stages = stages;
    if stages.len() != 2 {
        panic!(rt; "not two roles");
    }
    match (stages.pop(), stages.pop()) {
        (Some(b), Some(a)) => {
            stages.destroy_empty();
            Pair {
                session,
                a: task_of(rt, alloc, a),
                b: task_of(rt, alloc, b),
            }
        }
        _ => panic!(rt; "not two stages"),
    }
}

fn push_left(rt: &impl Abort, left: &mut Vec<Left>, one: Left)
    ensures { left.new.items ≡ left.old.items ++ one ∷ [] }
{
    match left.push(one) {
        Ok(()) => {}
        Err(_) => panic!(rt; "no memory"),
    }
}

/// What is left of a session whose two roles leave. The role A is handed in alone at first.
fn left_of(rt: &impl Abort, alloc: Global, pair: Pair) -> LeftOver
    requires a { IsTaskOf pair.session pair.a }
    requires b { IsTaskOf pair.session pair.b }
{
    let Pair { session, a, b } = pair;
    let (a, _, _) = a.leave();
    let (b, _, _) = b.leave();
    let mut left = Vec::new(alloc);
    push_left(rt, &mut left, a);
    match session.close_left(alloc, left) {
        Err(
            LeftFault::Missing {
                session,
                left,
                missing,
            },
        ) => {
            assert!(rt; missing == Role(1));
            let mut left = left;
            push_left(rt, &mut left, b);
            match session.close_left(alloc, left) {
                Ok(over) => over,
                Err(_) => panic!(rt; "a role is missing, or memory"),
            }
        }
        _ => panic!(rt; "no role is missing"),
    }
}

/// The loose parcels as `0 to 1 label 0.`.
fn is_loose(loose: &Loose, sender: u8, receiver: u8, label: u16) -> bool {
    loose.sender == Role(sender)
        && loose.receiver == Role(receiver)
        && loose.parcel.label == Label(label)
        && matches!(loose.parcel.value, Value::Unit)
}

#[test]
fn what_is_under_way_is_handed_out(rt: HostRuntime) {
    let alloc = rt.alloc();
    let mut pair = pair_of(&rt, alloc, TWICE, 2);
    assert!(rt; pair.a.turn(alloc, &pair.session) == Turn::Moved);
    assert!(rt; pair.b.turn(alloc, &pair.session) == Turn::Moved);
    let over = left_of(&rt, alloc, pair);
    assert!(rt; over.closed.roles() == 2);
    match over.loose.as_slice() {
        [x, y] => {
            assert!(rt; is_loose(x, 0, 1, 0));
            assert!(rt; is_loose(y, 1, 0, 1));
        }
        _ => assert!(rt; false, "two are under way"),
    }
}

pub(crate) fn ended_of(rt: &impl Abort, stage: Stage) -> Ended
    ensures { stage ≡ kind.Ended result }
{
    match stage {
        Stage::Ended(ended) => ended,
        _ => panic!(rt; "the role has not ended"),
    }
}

pub(crate) fn push_ended(rt: &impl Abort, ended: &mut Vec<Ended>, one: Ended)
    ensures { ended.new.items ≡ ended.old.items ++ one ∷ [] }
{
    match ended.push(one) {
        Ok(()) => {}
        Err(_) => panic!(rt; "no memory"),
    }
}

/// Closes the session of two roles that have ended. The role A is handed in alone at first.
fn closed_of(rt: &impl Abort, alloc: Global, session: Session, a: Ended, b: Ended) -> Closed
    requires a { IsEnded session a }
    requires b { IsEnded session b }
{
    let mut ended = Vec::new(alloc);
    push_ended(rt, &mut ended, a);
    match session.close(ended) {
        Err(fault) => {
            let CloseFault {
                session,
                ended,
                missing,
            } = fault;
            assert!(rt; missing == Role(1));
            let mut ended = ended;
            push_ended(rt, &mut ended, b);
            match session.close(ended) {
                Ok(closed) => closed,
                Err(_) => panic!(rt; "a role is missing"),
            }
        }
        Ok(_) => panic!(rt; "no role is missing"),
    }
}

/// One act of each role.
fn both_move(rt: &impl Abort, alloc: Global, pair: &mut Pair)
    requires a { IsTaskOf pair.old.session pair.old.a }
    requires b { IsTaskOf pair.old.session pair.old.b }
    ensures a { IsTaskOf pair.new.session pair.new.a }
    ensures b { IsTaskOf pair.new.session pair.new.b }
{
    assert!(rt; pair.a.turn(alloc, &pair.session) == Turn::Moved);
    assert!(rt; pair.b.turn(alloc, &pair.session) == Turn::Moved);
}

fn did(alloc: Global, entries: &[Entry]) -> Result<Text, NoMemory> {
    let mut text = Text::new(alloc);
    push_entries(&mut text, entries, &["A", "B", "none"], &["x", "y", "none"])?;
    Ok(text)
}

#[test]
fn a_session_closes(rt: HostRuntime) -> Result<(), Fail> {
    let alloc = rt.alloc();
    let mut pair = pair_of(&rt, alloc, TWICE, 2);
    both_move(&rt, alloc, &mut pair);
    both_move(&rt, alloc, &mut pair);
    both_move(&rt, alloc, &mut pair);
    both_move(&rt, alloc, &mut pair);
    assert!(rt; pair.a.turn(alloc, &pair.session) == Turn::Ended);
    assert!(rt; pair.b.turn(alloc, &pair.session) == Turn::Ended);
    let Pair { session, a, b } = pair;
    let (a, _, a_did) = a.into_parts();
    let (b, _, b_did) = b.into_parts();
    let closed = closed_of(&rt, alloc, session, ended_of(&rt, a), ended_of(&rt, b));
    assert!(rt; closed.roles() == 2);
    assert!(rt; did(alloc, a_did.as_slice())?.as_slice() == b"B!x.B!x.B?y.B?y.".as_slice());
    assert!(rt; did(alloc, b_did.as_slice())?.as_slice() == b"A!y.A!y.A?x.A?x.".as_slice());
    Ok(())
}

/// One executor polls the tasks of two roles, until neither goes on.
fn both_blocked_on<R: Wait + RandomSource + AllocGlobal, A: Actor, M: TaskName<A>, N: TaskName<A>>(
    rt: &R,
    alloc: Global,
    session: &Session,
    one: RoleTask<A>,
    other: RoleTask<A>,
) -> (io::Result<(Turn, Turn)>, RoleTask<A>, RoleTask<A>)
    requires session { (session.now ≡ M.begun.session) × (session.now ≡ N.begun.session) }
    requires one { IsTaskFrom A.behaviour M.begun one }
    requires other { IsTaskFrom A.behaviour N.begun other }
    ensures one { IsTaskFrom A.behaviour M.begun result.1 }
    ensures other { IsTaskFrom A.behaviour N.begun result.2 }
{
    let mut one = SessionTask::<A, M>::new(one);
    let mut other = SessionTask::<A, N>::new(other);
    let turns = block_on(
        rt,
        join(
            RoleFuture::new(alloc, &mut one, session),
            RoleFuture::new(alloc, &mut other, session),
        ),
    );
    (turns, one.into_task(), other.into_task())
}

/// The same, if what the second task began with is named first.
fn both_named<R: Wait + RandomSource + AllocGlobal, A: Actor, M: TaskName<A>>(
    rt: &R,
    alloc: Global,
    session: &Session,
    one: RoleTask<A>,
    other: RoleTask<A>,
) -> (io::Result<(Turn, Turn)>, RoleTask<A>, RoleTask<A>)
    requires session { session.now ≡ M.begun.session }
    requires one { IsTaskFrom A.behaviour M.begun one }
    requires other { IsTaskFrom A.behaviour (begun_by session.now other) other }
    ensures one { IsTaskFrom A.behaviour M.begun result.1 }
    ensures other { IsTaskFrom A.behaviour (begun_by session.now other) result.2 }
{
    both_blocked_on::<R, A, M, Brand>(rt, alloc, session, one, other)
}

/// Both roles play to their ends as two futures of one executor: the turns with which they are ready, and what is left.
fn both_polled<R: Wait + RandomSource + AllocGlobal + Abort>(
    rt: &R,
    alloc: Global,
    pair: Pair,
) -> (io::Result<(Turn, Turn)>, Pair)
    requires a { IsTaskFrom by_draws (begun_by pair.session pair.a) pair.a }
    requires b { IsTaskFrom by_draws (begun_by pair.session pair.b) pair.b }
    ensures a { IsTaskOf result.1.session result.1.a }
    ensures b { IsTaskOf result.1.session result.1.b }
{
    let Pair { session, a, b } = pair;
    let (turns, a, b) = both_named::<R, SeededActor, Brand>(rt, alloc, &session, a, b);
    (turns, Pair { session, a, b })
}

/// The texts of what the two roles did in a session that both have ended. It is closed.
fn played(rt: &impl Abort, alloc: Global, pair: Pair) -> Result<(Text, Text), NoMemory>
    requires a { IsTaskOf pair.session pair.a }
    requires b { IsTaskOf pair.session pair.b }
{
    let Pair { session, a, b } = pair;
    let (a, _, a_did) = a.into_parts();
    let (b, _, b_did) = b.into_parts();
    let closed = closed_of(rt, alloc, session, ended_of(rt, a), ended_of(rt, b));
    assert!(rt; closed.roles() == 2);
    Ok((did(alloc, a_did.as_slice())?, did(alloc, b_did.as_slice())?))
}

#[test]
fn one_executor_plays_a_session(rt: HostRuntime) -> Result<(), Fail> {
    let alloc = rt.alloc();
    let pair = pair_of(&rt, alloc, TWICE, 2);
    let (turns, pair) = both_polled(&rt, alloc, pair);
    let (a, b) = played(&rt, alloc, pair)?;
    assert!(rt; turns? == (Turn::Ended, Turn::Ended));
    assert!(rt; a.as_slice() == b"B!x.B!x.B?y.B?y.".as_slice());
    assert!(rt; b.as_slice() == b"A!y.A!y.A?x.A?x.".as_slice());
    Ok(())
}
