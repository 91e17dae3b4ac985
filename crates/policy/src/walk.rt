ghost use Rattle.std.specs.Prelude.{◌≡◌, ℕ, ◌<◌, List, unwrap_or, IfSome};
ghost use Rattle.std.specs.Iterator.{YieldsFirst, item_count};
ghost use Rattle.policy.specs.Members.{NextIn, members_from};

use std::marker::Model;

/// The lowest member from `low` on of a set with a bit for each task, if there is one.
pub fn next_in(set: u32, low: usize) -> Option<usize>
    ensures next { NextIn set low (unwrap_or result 32) }
    ensures found { IfSome result (λ i. i < 32) }
{
    if low >= 32 {
        return None;
    }
    let rest = set >> low;
    if rest == 0 {
        return None;
    }
    // stays: Rust has no From of a u32 for a usize.
    Some(low + rest.trailing_zeros() as usize)
}

/// The members of a set with a bit for each task that are still to come, the lowest first.
#[derive(Drop)]
pub struct Members {
    rest: u32,
}

impl Model for Members {
    ghost Value = { List ℕ };

    ghost view = { λ m. members_from m.rest 0 };
}

/// Goes through the members of a set with a bit for each task, the lowest first.
pub fn members_of(set: u32) -> Members
    ensures { result ≡ members_from set 0 }
{
    Members { rest: set }
}

impl Iterator for Members {
    type Item = usize;

    ghost next_gives = { YieldsFirst (λ rest. rest) };

    ghost remaining = { item_count (λ rest. rest) };

    fn next(&mut self) -> Option<usize> {
        let i = next_in(self.rest, 0)?;
        self.rest &= self.rest - 1;
        Some(i)
    }
}
