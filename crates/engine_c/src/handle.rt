// A session on the heap that its owner holds by sixteen bytes, or none.
ghost use Rattle.std.specs.Prelude.{◌≡◌, None, Some, IsSome, Option};
ghost use Rattle.engine_face.specs.declared.session.Session.{Session};
ghost use Rattle.engine_c.specs.Handle.{handle_owns, maybe_coded};

mod parts;

use engine_face::Session;
use parts::Parts;
use std::alloc::Global;
use std::marker::Model;

/// The place of a session on the heap, or of nothing.
#[repr(C)]
#[derive(Drop)]
pub struct Handle {
    at: *mut u8,
    alloc: Global,
    pub ghost value: { Option Session } by { maybe_coded },
}

impl Model for Handle {
    ghost also_owns = { λ h. handle_owns h.alloc h.at h.value };
}

impl Handle {
    // The handle of nothing.
    pub(crate) fn none(alloc: Global) -> Handle
        ensures { result.value ≡ None }
    {
        Handle {
            at: std::ptr::null_mut(),
            alloc,
        }
    }

    // The handle of what was put on the heap.
    fn of_parts(parts: Parts<Session, Global>) -> Handle
        ensures { result.value ≡ Some parts.value }
    {
        let Parts { ptr, alloc } = parts;
        Handle {
            at: ptr as *mut u8,
            alloc,
        }
    }

    // What was put on the heap.
    fn into_parts(self) -> Parts<Session, Global>
        requires { IsSome self.value }
        ensures { Some result.value ≡ self.value }
    {
        let Handle { at, alloc } = self;
        Parts {
            ptr: at as *mut Session,
            alloc,
        }
    }

    // The handle of a session on the heap.
    pub(crate) fn of(session: Box<Session>) -> Handle
        ensures { result.value ≡ Some session.value }
    {
        Handle::of_parts(Parts::of(session))
    }

    // The session on the heap.
    pub(crate) fn into_box(self) -> Box<Session>
        requires { IsSome self.value }
        ensures { Some result.value ≡ self.value }
    {
        self.into_parts().into_box()
    }
}
