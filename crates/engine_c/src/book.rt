// The sixteen bytes by which a caller holds a workbook.
ghost use Rattle.std.specs.Prelude.{◌≡◌, None, Some, is_some, IfSome, IfNone, option_map};

use crate::handle::Handle;
use engine_face::Session;
use std::alloc::Global;
use std::mem;

/// A workbook that a caller holds, or none. Sixteen bytes of zeros hold none.
#[repr(C)]
#[derive(Drop)]
pub struct Book {
    is_open: bool,
    alloc: Global,
    pub handle: Handle,

    // Whether a workbook is held.
    ghost told: { is_open ≡ is_some handle.value },
}

impl Book {
    // Whether a workbook is held.
    pub(crate) fn is_open(&self) -> bool
        ensures { result ≡ is_some self.now.handle.value }
    {
        self.is_open
    }

    // What is needed to put something on the heap.
    pub(crate) fn alloc(&self) -> Global {
        self.alloc
    }

    // Takes the workbook out, after which none is held.
    pub(crate) fn take(&mut self) -> Option<Box<Session>>
        ensures taken { option_map (λ session. session.value) result ≡ self.old.handle.value }
        ensures closed { self.new.handle.value ≡ None }
    {
        if !self.is_open {
            return None;
        }
        let none = Book {
            is_open: false,
            alloc: self.alloc,
            handle: Handle::none(self.alloc),
        };
        let held = mem::replace(self, none);
        Some(held.handle.into_box())
    }

    // Puts a workbook in. One that was held is forgotten, so take it out first.
    pub(crate) fn put(&mut self, session: Box<Session>)
        ensures { self.new.handle.value ≡ Some session.value }
    {
        *self = Book {
            is_open: true,
            alloc: self.alloc,
            handle: Handle::of(session),
        };
    }
}
