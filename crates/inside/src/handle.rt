//! What C has of a session.
ghost use Rattle.std.specs.Prelude.{◌≡◌};
ghost use Rattle.std.specs.Borrow.{full_share, sem};
ghost use Rattle.std.specs.Ptr.{lies_at};
ghost use Rattle.inside.specs.declared.session.Session.{Session};
ghost use Rattle.inside.specs.contracts.session.Session.{the_row};

use crate::session::Session;
use std::marker::Model;

/// Where a session lies. C has it from `spbags_new` up to `spbags_free`, and changes nothing of it.
#[repr(C)]
pub struct Handle {
    pub(crate) at: *mut u8,
    pub(crate) ghost session: { Session } by { the_row.coded },
}

impl Model for Handle {
    ghost also_owns = { λ h. lies_at the_row full_share h.at h.session };
}

impl Handle {
    ghost use Rattle.inside.specs.Lending.{LendsSession};

    /// The session, which is the handle's with what is done to it.
    #[inline(always)]
    pub(crate) fn session(&mut self) -> &mut Session
        ensures* lends { sem 𝓛 (LendsSession self.entry result) }
        ensures now { result.now ≡ self.old.session }
    {
        unsafe { &mut *(self.at as *mut Session) }
    }
}
