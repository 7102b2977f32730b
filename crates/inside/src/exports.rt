//! What C calls. A handle is C's from `spbags_new` up to `spbags_free`.
ghost use Rattle.std.specs.Prelude.{◌≡◌, map};
ghost use Rattle.std.specs.Mem.{type_size};
ghost use prog.Memory.{capped};
ghost use Rattle.std.specs.Borrow.{sem};
ghost use Rattle.std.specs.Ptr.{room_at};
ghost use Rattle.inside.specs.contracts.session.Session.{the_row};
ghost use Rattle.inside.specs.contracts.handle.Handle.{the_row as handle_row};
ghost use Rattle.inside.specs.Handles.{held, IsNewIn, InItsRoom};
ghost use Rattle.inside.specs.Sessions.{unpacked, HasStepped, HaveStepped, HasTakenBlock, HasForgotten, HasCounted};
ghost use Rattle.inside.specs.Sessions.{HasReported, HasNext};

use crate::handle::Handle;
use crate::session::Session;
use std::alloc::Global;

/// How many bytes C reserves for a session, at an address that 16 divides.
#[unsafe(no_mangle)]
pub extern "C" fn spbags_room() -> usize
    ensures { result ≡ capped (type_size the_row) }
{
    std::mem::size_of::<Session>()
}

/// Makes a session in this room, and its handle: it has taken no record, or it has stopped.
#[unsafe(no_mangle)]
pub unsafe extern "C" fn spbags_new(alloc: Global, room: *mut u8, handle: *mut Handle)
    requires* { sem 𝓛 (room_at the_row room) ∗ sem 𝓛 (room_at handle_row handle) }
    ensures* { sem 𝓛 (held handle_row handle (IsNewIn room)) }
{
    std::ptr::write(room as *mut Session, Session::new(alloc));
    std::ptr::write(handle, Handle { at: room })
}

/// Takes the next record.
#[unsafe(no_mangle)]
pub extern "C" fn spbags_step(handle: &mut Handle, kind: u8, location: u64) -> u8
    ensures { InItsRoom handle.old handle.new (λ old new. HasStepped old kind location new result) }
{
    handle.session().step(kind, location)
}

/// Takes so many records in turn, up to the first that it can't take, whose status it answers. A record is eight times
/// its location, plus its kind.
#[unsafe(no_mangle)]
pub extern "C" fn spbags_steps(handle: &mut Handle, records: &[u64]) -> u8
    ensures { InItsRoom handle.old handle.new (λ old new. HaveStepped old (map unpacked records.now) new result) }
{
    handle.session().steps(records)
}

/// Takes a strand's accesses to units of the even location's block: the reads of the units that the first mask has, and
/// then the writes of those of the second, each by ascending locations. It takes all of them or none.
#[unsafe(no_mangle)]
pub extern "C" fn spbags_block(handle: &mut Handle, location: u64, reads: u64, writes: u64) -> u8
    ensures { InItsRoom handle.old handle.new (λ old new. HasTakenBlock old location reads writes new result) }
{
    handle.session().block(location, reads, writes)
}

/// Begins a new life for these units of the location's block, whose locations are odd if this one is: what comes of
/// them later races with nothing that came before. Memory that nothing else needs is used again.
#[unsafe(no_mangle)]
pub extern "C" fn spbags_forget(handle: &mut Handle, location: u64, units: u64) -> u8
    ensures { InItsRoom handle.old handle.new (λ old new. HasForgotten old location units new result) }
{
    handle.session().forget(location, units)
}

/// How many locations have raced in any of their lives, which are those of the report if it were made now. A session
/// that takes no records any more answers 0.
#[unsafe(no_mangle)]
pub extern "C" fn spbags_race_count(handle: &mut Handle) -> usize
    ensures { InItsRoom handle.old handle.new (λ old new. (new ≡ old) × HasCounted old result) }
{
    handle.session().race_count()
}

/// Makes the text of the report.
#[unsafe(no_mangle)]
pub extern "C" fn spbags_report(handle: &mut Handle) -> u8
    ensures { InItsRoom handle.old handle.new (λ old new. HasReported old new result) }
{
    handle.session().report()
}

/// The next byte of that text, or what says that there is none.
#[unsafe(no_mangle)]
pub extern "C" fn spbags_next(handle: &mut Handle) -> u16
    ensures { InItsRoom handle.old handle.new (λ old new. HasNext old new result) }
{
    handle.session().next()
}

/// Frees a session. The room is C's again.
#[unsafe(no_mangle)]
pub unsafe extern "C" fn spbags_free(handle: Handle)
    ensures* { sem 𝓛 (room_at the_row handle.at) }
{
    let Handle { at } = handle;
    Session::close(std::ptr::read(at as *mut Session))
}
