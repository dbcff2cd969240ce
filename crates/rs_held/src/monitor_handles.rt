//! Handles of monitors.

ghost use Rattle.std.specs.Prelude.{◌≡◌, None, Option, Some, option_map};
ghost use Rattle.rs_held.specs.Handles.{monitor_owns};
ghost use Rattle.rs_held.specs.declared.monitor_handles.HeldMonitor.{HeldMonitor};

use rs_handles::OwnedPointer;
use rs_monitor::Monitor;
use rs_open::OpenSession;
use std::alloc::Global;
use std::marker::Model;
use std::mem::replace;
use std::ptr;

/// The monitor of a role, and the session that was opened, with the names of its roles and labels.
#[derive(Drop)]
pub struct HeldMonitor {
    pub opened: OpenSession,
    pub monitor: Monitor,
}

/// A handle of a monitor: null, or a monitor is open behind it. For C it is a struct of one pointer.
#[repr(C)]
pub struct MonitorHandle {
    at: *mut u8,
    alloc: Global,
    /// The monitor that is open.
    pub ghost value: { Option HeldMonitor },
}

impl Model for MonitorHandle {
    ghost also_owns = { λ h. monitor_owns h.alloc h.at h.value };
}

impl MonitorHandle {
    /// Nothing is open.
    fn null(alloc: Global) -> MonitorHandle
        ensures { result.value ≡ None }
    {
        MonitorHandle {
            at: ptr::null_mut(),
            alloc,
        }
    }

    fn of_pointer(pointer: OwnedPointer<HeldMonitor, Global>) -> MonitorHandle
        ensures { result.value ≡ Some pointer.value }
    {
        let OwnedPointer { at, alloc } = pointer;
        MonitorHandle {
            at: at as *mut u8,
            alloc,
        }
    }

    fn into_pointer(self) -> Option<OwnedPointer<HeldMonitor, Global>>
        ensures { option_map (λ p. p.value) result ≡ self.value }
    {
        let MonitorHandle { at, alloc } = self;
        if at == ptr::null_mut() {
            None
        } else {
            Some(OwnedPointer {
                at: at as *mut HeldMonitor,
                alloc,
            })
        }
    }

    /// What is open, in its box.
    fn into_box(self) -> Option<Box<HeldMonitor>>
        ensures { option_map (λ b. b.value) result ≡ self.value }
    {
        match self.into_pointer() {
            Some(pointer) => Some(pointer.into_box()),
            None => None,
        }
    }

    /// Takes out what is open; the handle is null from then on.
    pub fn take(&mut self, alloc: Global) -> Option<Box<HeldMonitor>>
        ensures taken { option_map (λ b. b.value) result ≡ self.old.value }
        ensures left { self.new.value ≡ None }
    {
        replace(self, MonitorHandle::null(alloc)).into_box()
    }

    /// Opens what is in the box; what was open is dropped.
    pub fn put(&mut self, whole: Box<HeldMonitor>)
        ensures { self.new.value ≡ Some whole.value }
    {
        *self = MonitorHandle::of_pointer(OwnedPointer::of(whole));
    }
}

impl Drop for MonitorHandle {
    fn drop(self) {
        drop(self.into_box());
    }
}

unsafe impl Send for MonitorHandle {}
