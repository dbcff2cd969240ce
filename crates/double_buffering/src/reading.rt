//! What the source does.

ghost use Rattle.std.specs.Prelude.{◌≡◌};
ghost use Rattle.rs_session.specs.Stages.{IsEnded};
ghost use Rattle.rs_typed.specs.Endpoints.{IsEndpoint};
ghost use Rattle.double_buffering.specs.Machines as spec;
ghost use Rattle.double_buffering.specs.declared.names.TheConstants.{SOURCE_ROLE};

use crate::played::Played;
use crate::source::{Asked, Leaving, Waiting};
use crate::waiting::{receive, send};
use rs_model::Octets;
use rs_session::Session;
use rs_typed::At;
use std::alloc::Global;
use std::sync::Wait;

/// The most bytes of one copy.
const PIECE: usize = 4_096;

/// Sends the bytes in pieces, one each time that K is ready, and then stops. If memory runs out, it stops at once.
pub fn play_source<R: Wait>(
    rt: &R,
    alloc: Global,
    session: &Session,
    at: At<Waiting>,
    bytes: &[u8],
) -> Played
    requires { IsEndpoint session.now spec.source at }
    ensures ended { IsEnded session.now result.ended }
    ensures role { result.ended.role ≡ SOURCE_ROLE }
{
    let mut is_whole = true;
    let mut left = bytes;
    let mut waiting = at;
    for _ in rt.forever() {
        let ((), asked) = receive::<Waiting, R>(rt, session, waiting);
        let (first, rest) = left.split_at(PIECE.min(left.len()));
        let piece = Octets::of(alloc, first);
        is_whole = is_whole && piece.is_ok();
        match piece {
            Ok(piece) if !first.is_empty() => {
                left = rest;
                waiting = send::<0, Asked, R>(rt, session, asked, piece);
            }
            _ => {
                let leaving = send::<1, Asked, R>(rt, session, asked, ());
                let ((), finished) = receive::<Leaving, R>(rt, session, leaving);
                return Played {
                    ended: finished.finish(),
                    is_whole,
                };
            }
        }
    }
    unreachable!()
}
