// Views that are made and let go.
ghost use Rattle.std.specs.Prelude.{◌≡◌, pos, None, IfOk};
ghost use Rattle.c_lines.specs.Prelude.{Tells, opened_told, described, loaded};
ghost use Rattle.llama_c.specs.Calls.{IsMade};

use crate::answers::refused;
use crate::handle::Handle;
use c_lines::{DONE, Fault, Refusal, loaded_view, new_view, open_view};
use std::alloc::Global;
use std::marker::Brand;
use std::sync::ledger::Blank;
use views::{MakeView, View};

/// The version of the interface, 1.2.0: the last number is that of a mend, the one before it grows where a call is added, the first where one changes.
const VERSION: i32 = 10_200;

/// The version of the interface, as `LLY_VERSION` of the header that it was made with.
#[unsafe(no_mangle)]
pub extern "C" fn lly_version() -> i32
    ensures { result ≡ pos 10200 }
{
    VERSION
}

/// Lets the view go, and leaves the handle empty.
#[unsafe(no_mangle)]
pub extern "C" fn lly_drop(alloc: Global, view: &mut Handle)
    ensures { view.new.part.held ≡ None }
{
    *view = Handle::new(alloc, None);
}

/// Puts the view of zeros that two lines describe into the handle, in place of what it held. On a refusal the handle stays.
#[unsafe(no_mangle)]
pub extern "C" fn lly_new(
    alloc: Global,
    out: &mut Handle,
    first: &[u8],
    second: &[u8],
    fault: &mut Fault,
) -> i32
    ensures { IsMade (described first.now second.now) result out.old.part.held out.new.part.held fault.old fault.new }
{
    let made = new_view(alloc, first, second);
    put(alloc, out, made, fault)
}

/// Puts the view that two lines and a dataset describe into the handle, in place of what it held. On a refusal the handle stays.
#[unsafe(no_mangle)]
pub extern "C" fn lly_load(
    alloc: Global,
    out: &mut Handle,
    first: &[u8],
    second: &[u8],
    csv: &[u8],
    fault: &mut Fault,
) -> i32
    ensures { IsMade (loaded first.now second.now csv.now) result out.old.part.held out.new.part.held fault.old fault.new }
{
    let made = loaded_view::<Brand>(alloc, first, second, csv, Blank::new(1));
    put(alloc, out, made, fault)
}

/// Puts the view of which bytes are the file into the handle, in place of what it held. On a refusal the handle stays.
#[unsafe(no_mangle)]
pub extern "C" fn lly_open(alloc: Global, out: &mut Handle, bytes: &[u8], fault: &mut Fault) -> i32
    ensures { IsMade (opened_told bytes.now) result out.old.part.held out.new.part.held fault.old fault.new }
{
    let made = open_view::<Brand>(alloc, bytes, Blank::new(1));
    put(alloc, out, made, fault)
}

// Puts a view that was made into a handle, or tells why none was.
fn put(alloc: Global, out: &mut Handle, made: Result<View, Refusal>, fault: &mut Fault) -> i32
    ensures { IsMade made result out.old.part.held out.new.part.held fault.old fault.new }
{
    match boxed(alloc, made) {
        Ok(held) => {
            *out = Handle::new(alloc, Some(held));
            DONE
        }
        Err(refusal) => refused(refusal, fault),
    }
}

// A view that was made, in a block of its own.
fn boxed(alloc: Global, made: Result<View, Refusal>) -> Result<Box<View>, Refusal>
    ensures { Tells (λ held. held.value) made result }
{
    match in_block(alloc, made?) {
        Ok(held) => Ok(held),
        Err(_) => Err(Refusal::NoMemory),
    }
}

fn in_block(alloc: Global, view: View) -> Result<Box<View>, MakeView>
    ensures { IfOk result (λ held. held.value ≡ view) }
{
    Ok(Box::new(alloc, view)?)
}
