//! Handles of sessions.

ghost use Rattle.std.specs.Prelude.{◌≡◌, None, Option, Some, option_map};
ghost use Rattle.rs_held.specs.Handles.{session_owns};
ghost use Rattle.rs_held.specs.declared.session_handles.BegunSession.{BegunSession};

use rs_endpoints::Endpoint;
use rs_handles::OwnedPointer;
use rs_open::OpenSession;
use std::alloc::Global;
use std::marker::Model;
use std::mem::replace;
use std::ptr;

/// A session that was opened and begun, and in role order the endpoints that weren't handed out.
#[derive(Drop)]
pub struct BegunSession {
    pub opened: OpenSession,
    pub endpoints: Vec<Option<Endpoint>>,
}

/// A handle of a session: null, or a session is begun behind it. For C it is a struct of one pointer.
#[repr(C)]
pub struct SessionHandle {
    at: *mut u8,
    alloc: Global,
    /// The session that is begun.
    pub ghost value: { Option BegunSession },
}

impl Model for SessionHandle {
    ghost also_owns = { λ h. session_owns h.alloc h.at h.value };
}

impl SessionHandle {
    /// Nothing is open.
    fn null(alloc: Global) -> SessionHandle
        ensures { result.value ≡ None }
    {
        SessionHandle {
            at: ptr::null_mut(),
            alloc,
        }
    }

    fn of_pointer(pointer: OwnedPointer<BegunSession, Global>) -> SessionHandle
        ensures { result.value ≡ Some pointer.value }
    {
        let OwnedPointer { at, alloc } = pointer;
        SessionHandle {
            at: at as *mut u8,
            alloc,
        }
    }

    fn into_pointer(self) -> Option<OwnedPointer<BegunSession, Global>>
        ensures { option_map (λ p. p.value) result ≡ self.value }
    {
        let SessionHandle { at, alloc } = self;
        if at == ptr::null_mut() {
            None
        } else {
            Some(OwnedPointer {
                at: at as *mut BegunSession,
                alloc,
            })
        }
    }

    /// What is open, in its box.
    fn into_box(self) -> Option<Box<BegunSession>>
        ensures { option_map (λ b. b.value) result ≡ self.value }
    {
        match self.into_pointer() {
            Some(pointer) => Some(pointer.into_box()),
            None => None,
        }
    }

    /// Takes out what is open; the handle is null from then on.
    pub fn take(&mut self, alloc: Global) -> Option<Box<BegunSession>>
        ensures taken { option_map (λ b. b.value) result ≡ self.old.value }
        ensures left { self.new.value ≡ None }
    {
        replace(self, SessionHandle::null(alloc)).into_box()
    }

    /// Opens what is in the box; what was open is dropped.
    pub fn put(&mut self, whole: Box<BegunSession>)
        ensures { self.new.value ≡ Some whole.value }
    {
        *self = SessionHandle::of_pointer(OwnedPointer::of(whole));
    }
}

impl Drop for SessionHandle {
    fn drop(self) {
        drop(self.into_box());
    }
}

unsafe impl Send for SessionHandle {}
