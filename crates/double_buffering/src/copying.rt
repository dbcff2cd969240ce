//! What the kernel does.

ghost use Rattle.std.specs.Prelude.{◌≡◌};
ghost use Rattle.rs_session.specs.Stages.{IsEnded};
ghost use Rattle.rs_typed.specs.Endpoints.{IsEndpoint};
ghost use Rattle.double_buffering.specs.Machines as spec;
ghost use Rattle.double_buffering.specs.declared.names.TheConstants.{KERNEL_ROLE};

use crate::kernel::{Asked, Begun, Copying, Fed, Ready, Stopping};
use crate::played::Played;
use crate::waiting::{Came, receive, receive_two, send};
use rs_model::{NoMemory, Octets};
use rs_session::Session;
use rs_typed::At;
use std::alloc::Global;
use std::sync::Wait;

/// Each byte b as 255 - b.
pub fn inverted(alloc: Global, bytes: &[u8]) -> Result<Octets, NoMemory> {
    let mut turned = Vec::with_capacity(alloc, bytes.len())?;
    for byte in bytes {
        turned.push(255 - *byte)?;
    }
    Ok(Octets::from(turned))
}

/// Asks S for copies, and hands them inverted to T, until S stops. If memory runs out, it hands on nothing.
pub fn play_kernel<R: Wait>(rt: &R, alloc: Global, session: &Session, at: At<Begun>) -> Played
    requires { IsEndpoint session.now spec.kernel at }
    ensures ended { IsEnded session.now result.ended }
    ensures role { result.ended.role ≡ KERNEL_ROLE }
{
    let mut is_whole = true;
    let mut ready = send::<0, Begun, R>(rt, session, at, ());
    for _ in rt.forever() {
        let asked = send::<0, Ready, R>(rt, session, ready, ());
        let ((), fed) = receive::<Asked, R>(rt, session, asked);
        match receive_two::<Fed, R>(rt, session, fed) {
            Came::First(copy, copying) => {
                let turned = match inverted(alloc, copy.as_slice()) {
                    Ok(turned) => turned,
                    Err(_) => {
                        is_whole = false;
                        Octets::from(Vec::new(alloc))
                    }
                };
                ready = send::<0, Copying, R>(rt, session, copying, turned);
            }
            Came::Second((), stopping) => {
                let finished = send::<0, Stopping, R>(rt, session, stopping, ());
                return Played {
                    ended: finished.finish(),
                    is_whole,
                };
            }
        }
    }
    unreachable!()
}
