//! The handle of an object.

ghost use Rattle.std.specs.Prelude.{◌≡◌, Bool, true, false};
ghost use Rattle.c_handles.specs.declared.objects.opened.OpenObject.{OpenObject};
ghost use Rattle.c_handles.specs.Objects.Handles.{handle_owns, object_coded};

use crate::objects::loose::Loose;
use crate::objects::opened::OpenObject;
use std::alloc::Global;
use std::marker::Model;
use std::mem::replace;
use std::ptr::null_mut;

/// What C holds of an object: one pointer, of which it makes nothing but to hand it back. A null
/// pointer is the handle of nothing, with which C begins.
#[repr(C)]
#[derive(Drop)]
pub struct Handle {
    ptr: *mut u8,
    alloc: Global,
    /// Whether there is an object.
    pub ghost full: { Bool },
    /// The object, where there is one.
    pub ghost held: { OpenObject } by { object_coded },
}

impl Model for Handle {
    ghost also_owns = { λ h. handle_owns h.alloc h.ptr h.full h.held };
}

impl Handle {
    /// The handle of nothing.
    fn empty(alloc: Global) -> Handle
        ensures { result.full ≡ false }
    {
        Handle {
            ptr: null_mut(),
            alloc,
        }
    }

    /// The handle of what a box held.
    fn closed(loose: Loose<OpenObject, Global>) -> Handle
        ensures { (result.full ≡ true) × (result.held ≡ loose.value) }
    {
        let Loose { at, alloc } = loose;
        Handle {
            ptr: at as *mut u8,
            alloc,
        }
    }

    /// What the box held.
    fn opened(self) -> Loose<OpenObject, Global>
        requires { self.full ≡ true }
        ensures { result.value ≡ self.held }
    {
        let Handle { ptr, alloc } = self;
        Loose {
            at: ptr as *mut OpenObject,
            alloc,
        }
    }

    /// Takes the object, and leaves the handle of nothing.
    pub fn take(&mut self, alloc: Global) -> Box<OpenObject>
        requires { self.old.full ≡ true }
        ensures object { result.value ≡ self.old.held }
        ensures left { self.new.full ≡ false }
    {
        let full = replace(self, Handle::empty(alloc));
        full.opened().into_box()
    }

    /// Puts an object in, where there is none.
    pub fn put(&mut self, object: Box<OpenObject>)
        requires { self.old.full ≡ false }
        ensures { (self.new.full ≡ true) × (self.new.held ≡ object.value) }
    {
        let _before = replace(self, Handle::closed(Loose::of(object)));
    }
}
