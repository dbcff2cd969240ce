//! Handles of texts.

ghost use Rattle.std.specs.Prelude.{◌≡◌, None, Option, Some, option_map};
ghost use Rattle.rs_held.specs.Handles.{text_owns};
ghost use Rattle.rs_held.specs.declared.text_handles.KeptText.{KeptText};

use rs_handles::OwnedPointer;
use std::alloc::Global;
use std::marker::Model;
use std::mem::replace;
use std::ptr;

/// A text that a call left.
#[derive(Drop)]
pub struct KeptText {
    pub bytes: Vec<u8>,
}

/// A handle of a text: null, or a text is open behind it. For C it is a struct of one pointer.
#[repr(C)]
pub struct TextHandle {
    at: *mut u8,
    alloc: Global,
    /// The text that is open.
    pub ghost value: { Option KeptText },
}

impl Model for TextHandle {
    ghost also_owns = { λ h. text_owns h.alloc h.at h.value };
}

impl TextHandle {
    /// Nothing is open.
    fn null(alloc: Global) -> TextHandle
        ensures { result.value ≡ None }
    {
        TextHandle {
            at: ptr::null_mut(),
            alloc,
        }
    }

    fn of_pointer(pointer: OwnedPointer<KeptText, Global>) -> TextHandle
        ensures { result.value ≡ Some pointer.value }
    {
        let OwnedPointer { at, alloc } = pointer;
        TextHandle {
            at: at as *mut u8,
            alloc,
        }
    }

    fn into_pointer(self) -> Option<OwnedPointer<KeptText, Global>>
        ensures { option_map (λ p. p.value) result ≡ self.value }
    {
        let TextHandle { at, alloc } = self;
        if at == ptr::null_mut() {
            None
        } else {
            Some(OwnedPointer {
                at: at as *mut KeptText,
                alloc,
            })
        }
    }

    /// What is open, in its box.
    fn into_box(self) -> Option<Box<KeptText>>
        ensures { option_map (λ b. b.value) result ≡ self.value }
    {
        match self.into_pointer() {
            Some(pointer) => Some(pointer.into_box()),
            None => None,
        }
    }

    /// Takes out what is open; the handle is null from then on.
    pub fn take(&mut self, alloc: Global) -> Option<Box<KeptText>>
        ensures taken { option_map (λ b. b.value) result ≡ self.old.value }
        ensures left { self.new.value ≡ None }
    {
        replace(self, TextHandle::null(alloc)).into_box()
    }

    /// Opens what is in the box; what was open is dropped.
    pub fn put(&mut self, whole: Box<KeptText>)
        ensures { self.new.value ≡ Some whole.value }
    {
        *self = TextHandle::of_pointer(OwnedPointer::of(whole));
    }
}

impl Drop for TextHandle {
    fn drop(self) {
        drop(self.into_box());
    }
}

unsafe impl Send for TextHandle {}
