//! Two programs over queues of their own, each watched by a monitor: a camera that is one frame ahead, and a screen. Then acts that
//! their machines don't have, with the reasons why they are refused, and a log that departs from its machine.
#![tactic(auto)]

mod programs;

use programs::{Camera, Fault, Queue, Screen, Words};
use rs_core::Message;
use rs_documents::{Document, read_document};
use rs_model::{Label, Machine, Octets, Role, Value};
use rs_monitor::{Monitor, ProgramAct, Refusal, TracedMonitor, replay};
use rs_text::find;
use std::alloc::{Alloc, Global};
use std::process::ExitCode;

/// The screen says that it is ready, and the camera sends a frame, or that the film is over. The camera's machine sends each frame
/// before it takes the `ready` for the last one; the screen's is its projection. `check` accepts this text.
const TEXT: &[u8] =
    b"roles Camera, Screen\nprotocol rec X. Screen->Camera:ready(). Camera->Screen{frame(bytes). X, over(). end}\nmachine Camera: Screen!frame(bytes). rec X. Screen!{frame(bytes). Screen?ready(). X, over(). Screen?ready(). Screen?ready(). end}\nmachine Screen: rec X. Camera!ready(). Camera?{frame(bytes). X, over(). end}\n";

/// The film: one frame for each word.
const FRAMES: [&[u8]; 4] = [b"dawn", b"noon", b"dusk", b"night"];

/// More rounds than both programs need.
const ROUNDS: u32 = 100;

/// The number of the role with this name.
fn role_named(document: &Document, name: &str) -> Option<Role> {
    let place = find(document.names.roles.as_slice(), name.as_bytes())?;
    Some(Role(u8::try_from(place).ok()?))
}

/// The number of the label with this name.
fn label_named(document: &Document, name: &str) -> Option<Label> {
    let place = find(document.names.labels.as_slice(), name.as_bytes())?;
    Some(Label(u16::try_from(place).ok()?))
}

/// The numbers of the names in the text.
fn words_of(document: &Document) -> Option<Words> {
    Some(Words {
        camera: role_named(document, "Camera")?,
        screen: role_named(document, "Screen")?,
        ready: label_named(document, "ready")?,
        frame: label_named(document, "frame")?,
        over: label_named(document, "over")?,
    })
}

/// A copy of the role's machine in the text.
fn machine_of(alloc: Global, document: &Document, role: Role) -> Result<Machine, Fault> {
    match document.machines.get(role.0 as usize) {
        Some(Some(machine)) => Ok(machine.copy(alloc)?),
        _ => Err(Fault::NoSuchRole),
    }
}

/// The film's frames.
fn film_of(alloc: Global) -> Result<Vec<Octets>, Fault> {
    let mut film = Vec::new(alloc);
    for frame in FRAMES {
        film.push(Octets::of(alloc, frame)?)?;
    }
    Ok(film)
}

/// Prints the value of a message that the screen received, if it is a frame.
fn show<R: Print>(rt: &R, value: &Value) -> Result<(), Fault> {
    if let Value::Octets(frame) = value {
        println!(rt;
            "shown: {}",
            str::from_utf8(frame.as_slice()).unwrap_or("?")
        )?;
    }
    Ok(())
}

/// Prints whether a machine has ended, and how many acts were let through.
fn tell_end<R: Print>(rt: &R, name: &str, monitor: &Monitor) -> Result<(), Fault> {
    println!(rt;
        "{name}: ended {} acts {}",
        monitor.is_ended(),
        monitor.acts()
    )?;
    Ok(())
}

/// Prints what a monitor answered.
fn tell<R: Print>(rt: &R, act: &str, answer: Result<(), Refusal>) -> Result<(), Fault> {
    println!(rt; "{act}: {answer:?}")?;
    Ok(())
}

/// Plays the film: each round the camera has one turn and the screen has one.
fn play<R: Print + Alloc<A = Global>>(
    rt: &R,
    camera: &mut Camera,
    screen: &mut Screen,
    words: Words,
) -> Result<(), Fault> {
    let mut to_screen = Queue::new(rt.alloc());
    let mut to_camera = Queue::new(rt.alloc());
    for _ in 0..ROUNDS {
        camera.turn(words, &mut to_screen, &mut to_camera)?;
        if let Some(message) = screen.turn(words, &mut to_camera, &mut to_screen)? {
            show(rt, &message.value)?;
        }
    }
    Ok(())
}

/// Plays the film, and prints how it ended, and whether the camera's log is its machine's.
fn perform<R: Print + Alloc<A = Global>>(
    rt: &R,
    document: &Document,
    words: Words,
) -> Result<(), Fault> {
    let alloc = rt.alloc();
    let machine = machine_of(alloc, document, words.camera)?;
    let mut camera = Camera::new(TracedMonitor::new(alloc, machine), film_of(alloc)?);
    let mut screen = Screen::new(Monitor::new(machine_of(alloc, document, words.screen)?));
    play(rt, &mut camera, &mut screen, words)?;
    let watched = camera.monitor().monitor();
    tell_end(rt, "Camera", watched)?;
    tell_end(rt, "Screen", screen.monitor())?;
    let replayed = replay(watched.machine(), camera.monitor().trace());
    println!(rt; "the camera's log is its machine's: {}", replayed.is_ok())?;
    Ok(())
}

/// Prints what the monitor of a new camera answers to acts that its machine doesn't have at first.
fn refuse<R: Print>(
    rt: &R,
    camera: &mut Monitor,
    frame: &Value,
    words: Words,
) -> Result<(), Fault> {
    let unit = Value::Unit;
    let to_itself = camera.sent(words.camera, words.frame, frame);
    tell(rt, "send a frame to itself", to_itself)?;
    let ready = camera.received(words.screen, words.ready, &unit);
    tell(rt, "receive ready at first", ready)?;
    let over = camera.sent(words.screen, words.over, &unit);
    tell(rt, "send over at first", over)?;
    let empty = camera.sent(words.screen, words.frame, &unit);
    tell(rt, "send a frame without bytes", empty)?;
    tell_end(rt, "Camera", camera)
}

/// Prints what it answers to a film of one frame, to acts that are too late, and to one `ready` too many.
fn finish<R: Print>(
    rt: &R,
    camera: &mut Monitor,
    frame: &Value,
    words: Words,
) -> Result<(), Fault> {
    let unit = Value::Unit;
    tell(
        rt,
        "send a frame",
        camera.sent(words.screen, words.frame, frame),
    )?;
    tell(
        rt,
        "send over",
        camera.sent(words.screen, words.over, &unit),
    )?;
    let late = camera.may_send(words.screen, words.frame, frame);
    tell(rt, "send a frame after over", late)?;
    let strange = camera.received(words.screen, words.frame, frame);
    tell(rt, "receive a frame", strange)?;
    for _ in 0..3 {
        let ready = camera.received(words.screen, words.ready, &unit);
        tell(rt, "receive ready", ready)?;
    }
    tell_end(rt, "Camera", camera)
}

/// Prints what the monitor of a camera answers to acts that its machine has, and to others.
fn answer<R: Print + Alloc<A = Global>>(
    rt: &R,
    document: &Document,
    words: Words,
) -> Result<(), Fault> {
    let alloc = rt.alloc();
    let mut camera = Monitor::new(machine_of(alloc, document, words.camera)?);
    let frame = Value::Octets(Octets::of(alloc, b"dawn")?);
    refuse(rt, &mut camera, &frame, words)?;
    finish(rt, &mut camera, &frame, words)
}

/// An act of a log, whose message has no value.
fn received(peer: Role, label: Label) -> ProgramAct {
    ProgramAct::Received {
        peer,
        message: Message {
            label,
            value: Value::Unit,
        },
    }
}

/// The log of a screen that received `over` twice.
fn log_of(alloc: Global, words: Words) -> Result<Vec<ProgramAct>, Fault> {
    let mut log = Vec::new(alloc);
    log.push(ProgramAct::Sent {
        peer: words.camera,
        message: Message {
            label: words.ready,
            value: Value::Unit,
        },
    })?;
    log.push(received(words.camera, words.over))?;
    log.push(received(words.camera, words.over))?;
    Ok(log)
}

/// Prints at which act that log departs from the screen's machine.
fn depart<R: Print + Alloc<A = Global>>(
    rt: &R,
    document: &Document,
    words: Words,
) -> Result<(), Fault> {
    let machine = machine_of(rt.alloc(), document, words.screen)?;
    let log = log_of(rt.alloc(), words)?;
    if let Err(departure) = replay(&machine, log.as_slice()) {
        println!(rt; "{departure:?}")?;
    }
    Ok(())
}

fn run<R: Print + Alloc<A = Global>>(rt: &R) -> bool {
    let Ok(document) = read_document(rt.alloc(), TEXT) else {
        return false;
    };
    let Some(words) = words_of(&document) else {
        return false;
    };
    perform(rt, &document, words).is_ok()
        && answer(rt, &document, words).is_ok()
        && depart(rt, &document, words).is_ok()
}

fn main(rt: HostRuntime) -> ExitCode {
    ExitCode::from(if run(&rt) { 0 } else { 1 })
}
