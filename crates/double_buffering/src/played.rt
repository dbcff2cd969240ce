//! What is left of a role that was played.

ghost use Rattle.std.specs.Prelude.{◌≡◌};

use rs_session::Ended;

/// A role that has ended, and whether all went well: nothing was lost for want of memory.
pub struct Played {
    pub ended: Ended,
    pub is_whole: bool,
}

impl Played {
    /// The ended role alone.
    pub fn into_ended(self) -> Ended
        ensures { result ≡ self.ended }
    {
        let Played { ended, is_whole: _ } = self;
        ended
    }
}
