//! The two programs, and the queues between them. Each act of a program goes through its monitor.
use rs_core::Message;
use rs_model::{Label, NoMemory, Octets, Role, State, Value};
use rs_monitor::{Monitor, Refusal, TraceFault, TracedMonitor};
use std::alloc::{AllocError, AllocFailed, Global};
use std::collections::VecDeque;
use std::io;

/// The numbers of the names in the text.
#[derive(Clone, Copy)]
pub struct Words {
    pub camera: Role,
    pub screen: Role,
    pub ready: Label,
    pub frame: Label,
    pub over: Label,
}

/// Why the film wasn't played.
#[derive(Drop, Debug)]
pub enum Fault {
    NoSuchRole,
    Refused(Refusal),
    NoMemory,
    Output,
}

impl From<NoMemory> for Fault {
    fn from(_refused: NoMemory) -> Fault {
        Fault::NoMemory
    }
}

impl From<AllocError> for Fault {
    fn from(_refused: AllocError) -> Fault {
        Fault::NoMemory
    }
}

impl<T: Drop> From<AllocFailed<T>> for Fault {
    fn from(_refused: AllocFailed<T>) -> Fault {
        Fault::NoMemory
    }
}

impl From<Refusal> for Fault {
    fn from(refusal: Refusal) -> Fault {
        Fault::Refused(refusal)
    }
}

impl From<TraceFault> for Fault {
    fn from(fault: TraceFault) -> Fault {
        match fault {
            TraceFault::Refused(refusal) => Fault::Refused(refusal),
            TraceFault::NoMemory => Fault::NoMemory,
        }
    }
}

impl From<io::Error> for Fault {
    fn from(_fault: io::Error) -> Fault {
        Fault::Output
    }
}

/// The queue from one program to another one: it neither loses nor reorders messages.
#[derive(Drop)]
pub struct Queue {
    messages: VecDeque<Message>,
}

impl Queue {
    /// Makes an empty queue. It has no bound.
    pub fn new(alloc: Global) -> Queue {
        Queue {
            messages: VecDeque::new(alloc),
        }
    }

    fn put(&mut self, message: Message) -> Result<(), Fault> {
        self.messages.push_back(message)?;
        Ok(())
    }

    fn take(&mut self) -> Option<Message> {
        self.messages.pop_front()
    }
}

/// Whether the state sends.
fn sends(state: Option<&State>) -> bool {
    matches!(state, Some(State::Puts { .. }))
}

/// Whether the state receives.
fn receives(state: Option<&State>) -> bool {
    matches!(state, Some(State::Takes { .. }))
}

/// The camera: it sends each frame of its film, and then that the film is over. Its monitor keeps its acts.
#[derive(Drop)]
pub struct Camera {
    monitor: TracedMonitor,
    film: VecDeque<Octets>,
}

impl Camera {
    /// Makes the camera that sends these frames. The monitor is that of its role.
    pub fn new(monitor: TracedMonitor, film: Vec<Octets>) -> Camera {
        Camera {
            monitor,
            film: VecDeque::from(film),
        }
    }

    /// The monitor that keeps its acts.
    pub fn monitor(&self) -> &TracedMonitor {
        &self.monitor
    }

    /// One turn: it sends if its state sends, and receives if its state receives and a message is there.
    pub fn turn(
        &mut self,
        words: Words,
        to_screen: &mut Queue,
        to_camera: &mut Queue,
    ) -> Result<(), Fault> {
        if sends(self.monitor.monitor().state()) {
            let (label, value) = match self.film.pop_front() {
                Some(frame) => (words.frame, Value::Octets(frame)),
                None => (words.over, Value::Unit),
            };
            self.monitor.sent(words.screen, label, &value)?;
            return to_screen.put(Message { label, value });
        }
        if receives(self.monitor.monitor().state()) {
            if let Some(message) = to_camera.take() {
                self.monitor
                    .received(words.screen, message.label, &message.value)?;
            }
        }
        Ok(())
    }
}

/// The screen: it says when it is ready, and shows each frame.
#[derive(Drop)]
pub struct Screen {
    monitor: Monitor,
}

impl Screen {
    /// Makes the screen. The monitor is that of its role.
    pub fn new(monitor: Monitor) -> Screen {
        Screen { monitor }
    }

    /// The monitor that keeps its acts.
    pub fn monitor(&self) -> &Monitor {
        &self.monitor
    }

    /// One turn, as the camera's. Returns the message that it received, if any.
    pub fn turn(
        &mut self,
        words: Words,
        to_camera: &mut Queue,
        to_screen: &mut Queue,
    ) -> Result<Option<Message>, Fault> {
        if sends(self.monitor.state()) {
            self.monitor.sent(words.camera, words.ready, &Value::Unit)?;
            to_camera.put(Message {
                label: words.ready,
                value: Value::Unit,
            })?;
            return Ok(None);
        }
        if receives(self.monitor.state()) {
            if let Some(message) = to_screen.take() {
                self.monitor
                    .received(words.camera, message.label, &message.value)?;
                return Ok(Some(message));
            }
        }
        Ok(None)
    }
}
