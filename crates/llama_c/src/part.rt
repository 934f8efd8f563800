// The pointer of a handle.
ghost use Rattle.std.specs.Prelude.{◌≡◌, IsSome, Option, Some, None};
ghost use Rattle.views.specs.Prelude.{Table};
ghost use Rattle.llama_c.specs.Inner.Owned.{held_coded, part_owns};

use crate::box_parts::Parts;
use std::alloc::Global;
use std::marker::Model;
use views::View;

/// A pointer to a boxed view, which it owns, or one that says nothing. The type of the pointer lets the struct cross to C. Its own drop frees
/// nothing: a full one is taken apart by `into_parts` before it goes.
#[repr(C)]
#[derive(Drop)]
pub struct Part {
    at: *mut u8,
    alloc: Global,
    /// The table that the view holds.
    pub ghost held: { Option Table } by { held_coded },
}

impl Model for Part {
    ghost also_owns = { λ part. part_owns part.alloc part.at part.held };
}

impl Part {
    /// A pointer that owns nothing.
    pub fn empty(at: *mut u8, alloc: Global) -> Part
        ensures { result.held ≡ None }
    {
        Part { at, alloc }
    }

    /// The pointer of a box of a view.
    pub fn of_parts(parts: Parts<View, Global>) -> Part
        ensures { result.held ≡ Some parts.value }
    {
        let Parts { ptr, alloc } = parts;
        Part {
            at: ptr as *mut u8,
            alloc,
        }
    }

    /// The parts of that box.
    pub fn into_parts(self) -> Parts<View, Global>
        requires { IsSome self.held }
        ensures { Some result.value ≡ self.held }
    {
        let Part { at, alloc } = self;
        Parts {
            ptr: at as *mut View,
            alloc,
        }
    }
}
