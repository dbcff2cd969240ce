//! What the sink does.

ghost use Rattle.std.specs.Prelude.{◌≡◌};
ghost use Rattle.rs_session.specs.Stages.{IsEnded};
ghost use Rattle.rs_typed.specs.Endpoints.{IsEndpoint};
ghost use Rattle.double_buffering.specs.Machines as spec;
ghost use Rattle.double_buffering.specs.declared.names.TheConstants.{SINK_ROLE};

use crate::played::Played;
use crate::sink::{Ready, Waiting};
use crate::waiting::{Came, receive_two, send};
use rs_session::Session;
use rs_typed::At;
use std::sync::Wait;

/// Appends each copy to the bytes, until K stops. Once memory is refused it appends no more.
pub fn play_sink<R: Wait>(rt: &R, session: &Session, at: At<Ready>, bytes: &mut Vec<u8>) -> Played
    requires { IsEndpoint session.now spec.sink at }
    ensures ended { IsEnded session.now result.ended }
    ensures role { result.ended.role ≡ SINK_ROLE }
{
    let mut is_whole = true;
    let mut ready = at;
    for _ in rt.forever() {
        let waiting = send::<0, Ready, R>(rt, session, ready, ());
        match receive_two::<Waiting, R>(rt, session, waiting) {
            Came::First(copy, next) => {
                is_whole = is_whole && bytes.extend_from_slice(copy.as_slice()).is_ok();
                ready = next;
            }
            Came::Second((), finished) => {
                return Played {
                    ended: finished.finish(),
                    is_whole,
                };
            }
        }
    }
    unreachable!()
}
