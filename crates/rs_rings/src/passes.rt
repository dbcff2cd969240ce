//! The right to act for roles: a seat of the table with the counts beside it.
ghost use Rattle.std.specs.Prelude.{◌≡◌, ◌<◌, length};
ghost use Rattle.rs_model.specs.declared.limits.TheConstants.{MOST_ROLES};
ghost use Rattle.rs_rings.specs.Acts.{parcels_sent};
ghost use Rattle.rs_rings.specs.Views.{SpeaksFor, history_in, state_in};

use crate::rows::Rows;
use crate::tables::RingSeat;
use rs_model::Role;
use std::marker::Model;

/// Speaks for a set of roles of one session over rings: only the holder of the pass can act for them.
///
/// It must be spent: [`Rings::join`](crate::Rings::join) gives its roles to another pass; `close`, `abandon` and `close_left`
/// end the session. So no role is lost, unless a program says so by [`Pass::give_up`].
pub struct Pass {
    pub(crate) seat: RingSeat,
    pub(crate) rows: Rows,
}

impl Model for Pass {
    ghost use Rattle.rs_rings.specs.Passes.{Pass_data};
    ghost use Rattle.rs_rings.specs.Rows.{IsBetweenCalls};

    ghost Value = { Pass_data };

    ghost view = { λ p. record { table = p.seat.table_id; view = p.seat.me.0 } };

    ghost invariant = { λ p. IsBetweenCalls p.seat.me p.rows.items };
}

impl Pass {
    /// The number of the state at which the role's machine stands.
    #[inline(always)]
    pub fn state(&self, role: Role) -> u32
        requires speaks { SpeaksFor self.now.view role.0 }
        ensures state { result ≡ state_in self.now.view role.0 }
    {
        self.rows.state(role)
    }

    /// How many messages the role has sent to the peer.
    pub fn sent(&self, role: Role, peer: Role) -> u64
        requires speaks { SpeaksFor self.now.view role.0 }
        requires peer { peer.0 < MOST_ROLES }
        ensures sent { result ≡ length (parcels_sent peer.0 (history_in self.now.view role.0)) }
    {
        self.rows.counts(role, peer).sent
    }

    /// Gives the roles of the pass up for good: nobody can act for them any more, and their session can't be ended.
    ///
    /// For roles whose holder the compiler can't watch, such as a program in another language.
    pub fn give_up(self) {
        let Pass { seat: _, rows: _ } = self;
    }
}
