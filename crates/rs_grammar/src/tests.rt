//! A small grammar, read by its rows: the roles line, whose roles are counted.

ghost use Rattle.std.specs.Prelude.{◌≡◌, IfOk};
ghost use Rattle.std.specs.Option.{option_map};
ghost use Rattle.rs_grammar.specs.Code.{chosen_way, shown_way};
ghost use Rattle.rs_grammar.specs.Readings.{IsReadAs};
ghost use Rattle.rs_grammar.specs.RolesLine.{counting, roles_line};
ghost use Rattle.rs_grammar.specs.RolesLine as spec;
ghost use Rattle.rs_grammar.specs.Steps.{way_by};

use crate::{Builder, Chosen, Class, Keyword, Place, Symbol, read};
use rs_model::MOST_ROLES;
use rs_text::{Stop, TextFault, TextKind, TextToken, Wanted, fault};
use std::alloc::Global;
use std::marker::Model;
use std::test::Fail;

/// Counts roles.
#[derive(Drop)]
struct Counter {
    count: usize,
}

impl Model for Counter {
    ghost use Rattle.std.specs.Prelude.{ℕ};

    ghost Value = { ℕ };

    ghost view = { λ c. c.count };
}

fn line_way(token: &TextToken) -> Option<Chosen>
    ensures { option_map shown_way result ≡ option_map chosen_way (way_by spec.line_part.ways token.now.sign) }
{
    if Class::Keyword(Keyword::Roles).accepts(token) {
        Some(Chosen {
            action: 0,
            rest: &[
                Symbol::Terminal(Class::Role, Wanted::Role, 1),
                Symbol::Part(1),
            ],
        })
    } else {
        None
    }
}

fn more_way(token: &TextToken) -> Option<Chosen>
    ensures { option_map shown_way result ≡ option_map chosen_way (way_by spec.more_part.ways token.now.sign) }
{
    if Class::Comma.accepts(token) {
        Some(Chosen {
            action: 0,
            rest: &[
                Symbol::Terminal(Class::Role, Wanted::Role, 1),
                Symbol::Part(1),
            ],
        })
    } else if Class::Keyword(Keyword::Protocol).accepts(token) {
        Some(Chosen {
            action: 0,
            rest: &[],
        })
    } else {
        None
    }
}

impl<'a> Builder<'a> for Counter {
    ghost use Rattle.std.specs.Prelude.{refl, []};
    ghost use Rattle.rs_grammar.specs.RolesLine.{counting, roles_line};

    ghost grammar = { roles_line };

    ghost building = { counting };

    ghost names = { λ c. record { roles = []; labels = [] } };

    ghost readable = { refl };

    fn way(part: u8, token: &TextToken) -> Option<Chosen> {
        match part {
            0 => line_way(token),
            1 => more_way(token),
            _ => None,
        }
    }

    fn is_optional(_part: u8) -> bool {
        false
    }

    fn wanted(part: u8) -> Option<Wanted> {
        match part {
            0 => Some(Wanted::Roles),
            1 => Some(Wanted::CommaOrProtocol),
            _ => None,
        }
    }

    fn take(&mut self, action: u8, token: &TextToken<'a>, _bytes: &'a [u8]) -> Result<(), Stop> {
        if action != 1 {
            return Ok(());
        }
        if self.count >= MOST_ROLES {
            return fault(TextKind::TooManyRoles, token.from());
        }
        self.count += 1;
        Ok(())
    }
}

/// Counts the roles of a line, up to the offset of the token after it.
fn count(alloc: Global, bytes: &[u8]) -> Result<(usize, usize), Stop>
    ensures { IfOk result (λ r. IsReadAs roles_line counting 0 bytes.now 0 r.0 r.1) }
{
    let place = Place::new(alloc)?;
    let (counter, result) = read(place, Counter { count: 0 }, bytes, 0);
    Ok((counter.count, result?))
}

fn is_read(found: Result<(usize, usize), Stop>, roles: usize, until: usize) -> bool {
    match found {
        Ok(pair) => pair == (roles, until),
        Err(_) => false,
    }
}

fn is_fault(found: Result<(usize, usize), Stop>, kind: TextKind, at: usize) -> bool {
    match found {
        Err(Stop::Fault(fault)) => fault == TextFault { kind, at },
        _ => false,
    }
}

const MANY: &[u8] = b"roles a, b, c, d, e, f, g, h, i, j, k, l, m, n, o, p, q protocol";

#[test]
fn reads_by_rows(rt: HostRuntime) -> Result<(), Fail> {
    let alloc = rt.alloc();
    assert!(rt; is_read(count(alloc, b"roles A, B protocol X"), 2, 20));
    assert!(rt; is_read(count(alloc, b"roles roles protocol"), 1, 20));
    let wanted = TextKind::Expected(Wanted::CommaOrProtocol);
    assert!(rt; is_fault(count(alloc, b"roles A B"), wanted, 8));
    assert!(rt; is_fault(count(alloc, b"roles A, $"), TextKind::BadByte, 9));
    assert!(rt;
        is_fault(
            count(alloc, b"roles A,"),
            TextKind::Expected(Wanted::Role),
            8
        )
    );
    assert!(rt; is_fault(count(alloc, MANY), TextKind::TooManyRoles, 54));
    Ok(())
}
