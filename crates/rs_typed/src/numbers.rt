//! Natural numbers as payloads.

ghost use Rattle.std.specs.Prelude.{◌≡◌, ◌<◌, ◌≤◌, ◌^◌, IfSome, IfNone};

/// A number of the sort `nat`: at most 9,223,372,036,854,775,807.
#[derive(Clone, Copy, Debug)]
pub struct Nat {
    pub number: u64,
    ghost small: { number < 2 ^ 63 },
}

impl Nat {
    /// The number; none where it is above 9,223,372,036,854,775,807.
    pub fn of(number: u64) -> Option<Nat>
        ensures some { IfSome result (λ n. n.number ≡ number) }
        ensures none { IfNone result (2 ^ 63 ≤ number) }
    {
        if number <= i64::MAX as u64 {
            Some(Nat { number })
        } else {
            None
        }
    }

    /// The number.
    pub fn get(self) -> u64
        ensures number { result ≡ self.number }
        ensures small { result < 2 ^ 63 }
    {
        self.number
    }
}
