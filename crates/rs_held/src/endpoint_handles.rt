//! Handles of endpoints.

ghost use Rattle.std.specs.Prelude.{◌≡◌, None, Option, Some, option_map};
ghost use Rattle.rs_held.specs.Handles.{endpoint_owns};
ghost use Rattle.rs_held.specs.declared.endpoint_handles.HeldEndpoint.{HeldEndpoint};

use rs_endpoints::Endpoint;
use rs_handles::OwnedPointer;
use rs_model::Value;
use std::alloc::Global;
use std::marker::Model;
use std::mem::replace;
use std::ptr;

/// An endpoint, and the value that it received last; at first no value.
#[derive(Drop)]
pub struct HeldEndpoint {
    pub endpoint: Endpoint,
    pub last: Value,
}

/// A handle of an endpoint: null, or an endpoint is open behind it. For C it is a struct of one pointer.
#[repr(C)]
pub struct EndpointHandle {
    at: *mut u8,
    alloc: Global,
    /// The endpoint that is open.
    pub ghost value: { Option HeldEndpoint },
}

impl Model for EndpointHandle {
    ghost also_owns = { λ h. endpoint_owns h.alloc h.at h.value };
}

impl EndpointHandle {
    /// Nothing is open.
    fn null(alloc: Global) -> EndpointHandle
        ensures { result.value ≡ None }
    {
        EndpointHandle {
            at: ptr::null_mut(),
            alloc,
        }
    }

    fn of_pointer(pointer: OwnedPointer<HeldEndpoint, Global>) -> EndpointHandle
        ensures { result.value ≡ Some pointer.value }
    {
        let OwnedPointer { at, alloc } = pointer;
        EndpointHandle {
            at: at as *mut u8,
            alloc,
        }
    }

    fn into_pointer(self) -> Option<OwnedPointer<HeldEndpoint, Global>>
        ensures { option_map (λ p. p.value) result ≡ self.value }
    {
        let EndpointHandle { at, alloc } = self;
        if at == ptr::null_mut() {
            None
        } else {
            Some(OwnedPointer {
                at: at as *mut HeldEndpoint,
                alloc,
            })
        }
    }

    /// What is open, in its box.
    fn into_box(self) -> Option<Box<HeldEndpoint>>
        ensures { option_map (λ b. b.value) result ≡ self.value }
    {
        match self.into_pointer() {
            Some(pointer) => Some(pointer.into_box()),
            None => None,
        }
    }

    /// Takes out what is open; the handle is null from then on.
    pub fn take(&mut self, alloc: Global) -> Option<Box<HeldEndpoint>>
        ensures taken { option_map (λ b. b.value) result ≡ self.old.value }
        ensures left { self.new.value ≡ None }
    {
        replace(self, EndpointHandle::null(alloc)).into_box()
    }

    /// Opens what is in the box; what was open is dropped.
    pub fn put(&mut self, whole: Box<HeldEndpoint>)
        ensures { self.new.value ≡ Some whole.value }
    {
        *self = EndpointHandle::of_pointer(OwnedPointer::of(whole));
    }
}

impl Drop for EndpointHandle {
    fn drop(self) {
        drop(self.into_box());
    }
}

unsafe impl Send for EndpointHandle {}
