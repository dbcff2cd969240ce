//! What the roles of the ring and of the butterfly exchange.

ghost use Rattle.std.specs.Prelude.{◌≡◌, ◌≤◌, ◌<◌, ◌++◌, length, IfOk, OnOk};
ghost use Rattle.rs_model.specs.declared.limits.TheConstants.{MOST_ROLES};
ghost use Rattle.rs_demos.specs.Sessions as spec;

use crate::documents::{is_clear, partner};
use rs_model::NoMemory;
use std::alloc::Global;

/// The exchanges of the ring, each a sender and a receiver.
pub(crate) fn ring_exchanges(alloc: Global, roles: u8) -> Result<Vec<(u8, u8)>, NoMemory>
    requires { (1 ≤ roles) × (roles ≤ MOST_ROLES) }
    ensures exchanges { IfOk result (λ exchanges. exchanges.items ≡ spec.ring_exchanges roles) }
    ensures bounded { IfOk result (λ exchanges. length exchanges.items ≤ 256) }
{
    let count = usize::from(roles);
    let mut exchanges = Vec::with_capacity(alloc, count * (count - 1))?;
    for round in 1..roles {
        push_ring_round(&mut exchanges, roles)?;
    }
    Ok(exchanges)
}

/// A round of the ring: each role sends to the next one.
fn push_ring_round(exchanges: &mut Vec<(u8, u8)>, roles: u8) -> Result<(), NoMemory>
    requires { roles ≤ MOST_ROLES }
    ensures { OnOk result (exchanges.new.items ≡ exchanges.old.items ++ spec.ring_round roles) }
{
    for role in 0..roles {
        exchanges.push((role, (role + 1) % roles))?;
    }
    Ok(())
}

/// To whom a role of the ring sends and from whom it receives, round by round.
pub(crate) fn ring_pairs(alloc: Global, roles: u8, role: u8) -> Result<Vec<(u8, u8)>, NoMemory>
    requires { (role < roles) × (roles ≤ MOST_ROLES) }
    ensures pairs { IfOk result (λ pairs. pairs.items ≡ spec.ring_pairs roles role) }
    ensures bounded { IfOk result (λ pairs. length pairs.items ≤ 256) }
{
    let pair = ((role + 1) % roles, (role + (roles - 1)) % roles);
    let mut pairs = Vec::with_capacity(alloc, usize::from(roles - 1))?;
    for round in 1..roles {
        pairs.push(pair)?;
    }
    Ok(pairs)
}

/// The exchanges of the butterfly, each a sender and a receiver.
pub(crate) fn butterfly_exchanges(alloc: Global, roles: u8) -> Result<Vec<(u8, u8)>, NoMemory>
    requires { roles ≤ MOST_ROLES }
    ensures exchanges { IfOk result (λ exchanges. exchanges.items ≡ spec.butterfly_exchanges roles) }
    ensures bounded { IfOk result (λ exchanges. length exchanges.items ≤ 256) }
{
    let mut exchanges = Vec::with_capacity(alloc, 4 * usize::from(roles))?;
    push_butterfly_round(&mut exchanges, roles, 1)?;
    push_butterfly_round(&mut exchanges, roles, 2)?;
    push_butterfly_round(&mut exchanges, roles, 4)?;
    push_butterfly_round(&mut exchanges, roles, 8)?;
    Ok(exchanges)
}

/// A round of the butterfly, where there is one of that bit.
fn push_butterfly_round(exchanges: &mut Vec<(u8, u8)>, roles: u8, step: u8) -> Result<(), NoMemory>
    requires roles { roles ≤ MOST_ROLES }
    requires step { (1 ≤ step) × (step ≤ 8) }
    ensures { OnOk result (exchanges.new.items ≡ exchanges.old.items ++ spec.butterfly_round roles step) }
{
    if step >= roles {
        return Ok(());
    }
    for role in 0..roles {
        push_both_ways(exchanges, step, role)?;
    }
    Ok(())
}

/// The exchange of a role whose bit is clear with the other.
fn push_both_ways(exchanges: &mut Vec<(u8, u8)>, step: u8, role: u8) -> Result<(), NoMemory>
    requires step { (1 ≤ step) × (step ≤ 8) }
    requires role { role < MOST_ROLES }
    ensures { OnOk result (exchanges.new.items ≡ exchanges.old.items ++ spec.both_ways step role) }
{
    if is_clear(step, role) {
        exchanges.push((role, role + step))?;
        exchanges.push((role + step, role))?;
    }
    Ok(())
}

/// To whom a role of the butterfly sends and from whom it receives, round by round.
pub(crate) fn butterfly_pairs(alloc: Global, roles: u8, role: u8) -> Result<Vec<(u8, u8)>, NoMemory>
    requires { role < MOST_ROLES }
    ensures pairs { IfOk result (λ pairs. pairs.items ≡ spec.butterfly_pairs roles role) }
    ensures bounded { IfOk result (λ pairs. length pairs.items ≤ 256) }
{
    let mut pairs = Vec::with_capacity(alloc, 4)?;
    push_butterfly_pair(&mut pairs, roles, role, 1)?;
    push_butterfly_pair(&mut pairs, roles, role, 2)?;
    push_butterfly_pair(&mut pairs, roles, role, 4)?;
    push_butterfly_pair(&mut pairs, roles, role, 8)?;
    Ok(pairs)
}

fn push_butterfly_pair(
    pairs: &mut Vec<(u8, u8)>,
    roles: u8,
    role: u8,
    step: u8,
) -> Result<(), NoMemory>
    requires role { role < MOST_ROLES }
    requires step { (1 ≤ step) × (step ≤ 8) }
    ensures { OnOk result (pairs.new.items ≡ pairs.old.items ++ spec.butterfly_pair roles role step) }
{
    if step < roles {
        let partner = partner(step, role);
        pairs.push((partner, partner))?;
    }
    Ok(())
}
