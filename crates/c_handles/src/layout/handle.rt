//! The handle of a layout.

ghost use Rattle.std.specs.Prelude.{◌≡◌, Bool, true, false};
ghost use Rattle.c_handles.specs.declared.layout.planned.PlannedLayout.{PlannedLayout};
ghost use Rattle.c_handles.specs.Layout.Handles.{layout_own, layout_coded};

use crate::layout::planned::PlannedLayout;
use crate::objects::Loose;
use std::alloc::Global;
use std::marker::Model;
use std::mem::replace;
use std::ptr::null_mut;

/// What C holds of a layout: one pointer, of which it makes nothing but to hand it back. A null
/// pointer is the handle of nothing, with which C begins.
#[repr(C)]
#[derive(Drop)]
pub struct LayoutHandle {
    ptr: *mut u8,
    alloc: Global,
    /// Whether there is a layout.
    pub ghost full: { Bool },
    /// The layout, where there is one.
    pub ghost held: { PlannedLayout } by { layout_coded },
}

impl Model for LayoutHandle {
    ghost also_owns = { λ h. layout_own h.alloc h.ptr h.full h.held };
}

impl LayoutHandle {
    /// The handle of nothing.
    fn empty(alloc: Global) -> LayoutHandle
        ensures { result.full ≡ false }
    {
        LayoutHandle {
            ptr: null_mut(),
            alloc,
        }
    }

    /// The handle of what a box held.
    fn closed(loose: Loose<PlannedLayout, Global>) -> LayoutHandle
        ensures { (result.full ≡ true) × (result.held ≡ loose.value) }
    {
        let Loose { at, alloc } = loose;
        LayoutHandle {
            ptr: at as *mut u8,
            alloc,
        }
    }

    /// What the box held.
    fn opened(self) -> Loose<PlannedLayout, Global>
        requires { self.full ≡ true }
        ensures { result.value ≡ self.held }
    {
        let LayoutHandle { ptr, alloc } = self;
        Loose {
            at: ptr as *mut PlannedLayout,
            alloc,
        }
    }

    /// Takes the layout, and leaves the handle of nothing.
    pub fn take(&mut self, alloc: Global) -> Box<PlannedLayout>
        requires { self.old.full ≡ true }
        ensures layout { result.value ≡ self.old.held }
        ensures left { self.new.full ≡ false }
    {
        let full = replace(self, LayoutHandle::empty(alloc));
        full.opened().into_box()
    }

    /// Puts a layout in, where there is none.
    pub fn put(&mut self, layout: Box<PlannedLayout>)
        requires { self.old.full ≡ false }
        ensures { (self.new.full ≡ true) × (self.new.held ≡ layout.value) }
    {
        let _before = replace(self, LayoutHandle::closed(Loose::of(layout)));
    }
}
