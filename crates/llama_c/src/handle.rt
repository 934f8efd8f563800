// What C holds of a view.
ghost use Rattle.std.specs.Prelude.{◌≡◌, Some, None, is_some, option_map};

use crate::box_parts::Parts;
use crate::part::Part;
use std::alloc::Global;
use std::{mem, ptr};
use views::View;

/// A view that C holds, or none. All zeros are one that holds none.
#[repr(C)]
pub struct Handle {
    full: bool,
    pub part: Part,
    ghost tied: { full ≡ is_some part.held },
}

impl Handle {
    /// The handle of a view, or of none.
    pub fn new(alloc: Global, view: Option<Box<View>>) -> Handle
        ensures { result.part.held ≡ option_map (λ view. view.value) view }
    {
        match view {
            Some(view) => Handle {
                full: true,
                part: Part::of_parts(Parts::of(view)),
            },
            None => {
                let at = ptr::null_mut();
                let part = Part::empty(at, alloc);
                Handle { full: false, part }
            }
        }
    }

    /// Takes the view out, and leaves the handle empty.
    pub fn take(&mut self, alloc: Global) -> Option<Box<View>>
        ensures view { option_map (λ view. view.value) result ≡ self.old.part.held }
        ensures empty { self.new.part.held ≡ None }
    {
        mem::replace(self, Handle::new(alloc, None)).into_box()
    }

    /// The view of a handle.
    pub fn into_box(self) -> Option<Box<View>>
        ensures { option_map (λ view. view.value) result ≡ self.part.held }
    {
        let Handle { full, part } = self;
        if full {
            Some(part.into_parts().into_box())
        } else {
            None
        }
    }
}

impl Drop for Handle {
    fn drop(self) {
        drop(self.into_box());
    }
}
