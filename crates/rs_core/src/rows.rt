//! Queues, and the row of those from one role.
ghost use Rattle.std.specs.Prelude.{◌≡◌, ◌<◌, ◌++◌, ◌∷◌, [], length, slice_index_or, slice_set, IfErr, OnErr, OnOk, IfOk, MatchOption, IfSome, Some, slice_get, replicate};

use crate::Message;
use rs_model::NoMemory;
use std::alloc::Global;
use std::collections::VecDeque;
use std::marker::Model;

/// Messages that are under way from one role to another, the oldest first.
#[derive(Drop)]
pub(crate) struct Queue {
    messages: VecDeque<Message>,
}

impl Model for Queue {
    ghost use Rattle.std.specs.Prelude.{List};
    ghost use Rattle.rs_core.specs.Configurations.{Message};

    ghost Value = { List Message };

    ghost view = { λ q. q.messages.items };
}

impl Queue {
    pub(crate) fn new(alloc: Global) -> Queue
        ensures { result ≡ [] }
    {
        Queue {
            messages: VecDeque::new(alloc),
        }
    }

    /// Adds a message behind the others; where memory is refused it comes back.
    pub(crate) fn push(&mut self, message: Message) -> Result<(), Message>
        ensures ok { OnOk result (self.new ≡ self.old ++ message ∷ []) }
        ensures err { IfErr result (λ m. m ≡ message) }
        ensures same { OnErr result (self.new ≡ self.old) }
    {
        match self.messages.push_back(message) {
            Ok(()) => Ok(()),
            Err(refused) => Err(refused.value),
        }
    }

    /// Takes the oldest message.
    pub(crate) fn pop(&mut self) -> Option<Message>
        ensures { MatchOption result ((self.old ≡ []) × (self.new ≡ [])) (λ m. self.old ≡ m ∷ self.new) }
    {
        self.messages.pop_front()
    }

    /// The oldest message.
    pub(crate) fn oldest(&self) -> Option<&Message>
        ensures none { MatchOption result (self.now ≡ []) (λ m. slice_get self.now 0 ≡ Some m.now) }
    {
        self.messages.front()
    }

    pub(crate) fn len(&self) -> usize
        ensures { result ≡ length self.now }
    {
        self.messages.len()
    }
}

/// The queues of one sender, one for each receiver.
#[derive(Drop)]
pub(crate) struct SenderQueues {
    pub queues: Vec<Queue>,
}

impl Model for SenderQueues {
    ghost use Rattle.std.specs.Prelude.{List};
    ghost use Rattle.rs_core.specs.Configurations.{Message};

    ghost Value = { List (List Message) };

    ghost view = { λ r. r.queues.items };
}

impl SenderQueues {
    /// Empty queues to so many receivers.
    pub(crate) fn new(alloc: Global, count: usize) -> Result<SenderQueues, NoMemory>
        ensures { IfOk result (λ r. r ≡ replicate count []) }
    {
        let mut queues = Vec::with_capacity(alloc, count)?;
        for _ in 0..count {
            queues.push(Queue::new(alloc))?;
        }
        Ok(SenderQueues { queues })
    }

    pub(crate) fn push(&mut self, to: usize, message: Message) -> Result<(), Message>
        requires { to < length self.old }
        ensures ok { OnOk result (self.new ≡ slice_set self.old to (slice_index_or self.old to [] ++ message ∷ [])) }
        ensures err { IfErr result (λ m. m ≡ message) }
        ensures same { OnErr result (self.new ≡ self.old) }
    {
        self.queues[to].push(message)
    }

    pub(crate) fn pop(&mut self, to: usize) -> Option<Message>
        requires { to < length self.old }
        ensures none { MatchOption result (slice_index_or self.old to [] ≡ []) (λ m. slice_index_or self.old to [] ≡ m ∷ slice_index_or self.new to []) }
        ensures set { self.new ≡ slice_set self.old to (slice_index_or self.new to []) }
    {
        self.queues[to].pop()
    }
}
