//! An auction of three roles, by two workers: a bidder is one bid ahead of the prices, an auctioneer keeps the best bid, and a
//! clerk keeps all notes.
#![tactic(auto)]

ghost use Rattle.std.specs.Prelude.{◌≡◌};

use rs_actors::{Collector, CommonTalker, Talker, TalkingActor, ValueSource};
use rs_core::Outcome;
use rs_exec::Ran;
use rs_model::{Crew, NoMemory, Role, Sort, Value};
use rs_open::open;
use rs_pool::NoGate;
use std::alloc::{Alloc, Global};
use std::io;
use std::process::ExitCode;
use std::sync::Wait;
use std::thread::Threads;

/// The bidder makes its first bid unasked, and stays one ahead of the prices.
const TEXT: &[u8] =
    b"roles Bidder, Auctioneer, Clerk\nprotocol rec X. Auctioneer->Bidder:price(nat). Bidder->Auctioneer{bid(nat). Auctioneer->Clerk:note(nat). X, leave(). Auctioneer->Clerk:close(). end}\nmachine Bidder: Auctioneer!bid(nat). rec X. Auctioneer!{bid(nat). Auctioneer?price(nat). X, leave(). Auctioneer?price(nat). Auctioneer?price(nat). end}\n";

/// It says the best bid as the price, and notes each bid.
#[derive(Drop, Debug)]
struct Auctioneer {
    best: u64,
    hand: u64,
    is_over: bool,
}

impl Talker for Auctioneer {
    ghost use Rattle.auction.specs.Auctioneers.{behind_value, next_word};

    ghost conduct = { record {
      at_hand = λ a. next_word a;
      behind_sending = λ a. record a { hand = a.best };
      behind_value = λ a v. behind_value a v;
    } };

    fn sort(&self) -> Sort {
        if self.is_over {
            Sort::Unit
        } else {
            Sort::Natural
        }
    }

    fn send(&mut self, _alloc: Global) -> Result<Value, NoMemory> {
        let value = if self.is_over {
            Value::Unit
        } else {
            Value::Natural(self.hand)
        };
        self.hand = self.best;
        Ok(value)
    }

    fn take(&mut self, _alloc: Global, value: &Value) -> Result<(), NoMemory> {
        match value {
            Value::Natural(bid) => {
                self.best = self.best.max(*bid);
                self.hand = *bid;
            }
            _ => self.is_over = true,
        }
        Ok(())
    }
}

/// What plays a role of this session.
type RoleActor = TalkingActor<CommonTalker<Auctioneer>>;

/// The actor of the role: the first is the bidder, the second the auctioneer, the third the clerk.
fn actor_for(alloc: Global, role: Role) -> Result<RoleActor, NoMemory> {
    let talker = match role {
        Role(0) => {
            let mut bids = Vec::new(alloc);
            for bid in [10u64, 25, 20, 40] {
                bids.push(Value::Natural(bid))?;
            }
            CommonTalker::Source(ValueSource::new(bids))
        }
        Role(1) => CommonTalker::Own(Auctioneer {
            best: 0,
            hand: 0,
            is_over: false,
        }),
        _ => CommonTalker::Collector(Collector::new(alloc)),
    };
    Ok(TalkingActor::new(talker))
}

/// Prints what the auctioneer and the clerk have at the end.
fn tells<R: Print>(rt: &R, talker: &CommonTalker<Auctioneer>) -> io::Result<()> {
    match talker {
        CommonTalker::Own(auctioneer) => println!(rt; "sold for {}", auctioneer.best),
        CommonTalker::Collector(clerk) => {
            for value in clerk.as_slice() {
                if let Value::Natural(number) = value {
                    println!(rt; "note {number}")?;
                }
            }
            Ok(())
        }
        _ => Ok(()),
    }
}

/// Runs the auction by these workers, and prints what comes of it: whether it ended.
fn run<R: Threads + Wait + Sync + Print + Alloc<A = Global>>(rt: &R, workers: Crew) -> bool {
    let alloc = rt.alloc();
    let session = match open(alloc, TEXT) {
        Ok(session) => session,
        Err(refused) => {
            let _ = print!(rt; "{refused}");
            return false;
        }
    };
    let actor = |role| actor_for(alloc, role);
    let Ok(Ran { run, closed: _ }) = session.run_by(rt, alloc, workers, &NoGate, 1_000, actor)
    else {
        return false;
    };
    if let Outcome::Stopped(role) = run.outcome {
        let _ = println!(rt; "stopped: {}", session.name_of(role));
        return false;
    }
    for actor in run.actors.as_slice() {
        if tells(rt, actor.talker()).is_err() {
            return false;
        }
    }
    true
}

fn main(rt: HostRuntime) -> ExitCode {
    let is_run = match Crew::new(2) {
        Some(workers) => run(&rt, workers),
        None => false,
    };
    ExitCode::from(if is_run { 0 } else { 1 })
}
