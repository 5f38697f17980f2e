//! Numbers that are published, and how often.
ghost use Rattle.std.specs.Prelude.{◌≡◌};

use publication::{PublisherOf, Sets};
use std::sync::Wait;
use td_base::Value;

/// A number, which stands for every list of that many numbers.
#[derive(Drop)]
pub struct SharedTally {
    pub number: u32,
}

impl Value for SharedTally {
    ghost use Rattle.std.specs.Prelude.{◌≡◌, length};

    type Element = u32;

    ghost last = { λ t. t.number };

    ghost stands = { λ t xs. length xs ≡ t.number };

    ghost places = { λ t. t.number };

    fn count(&self) -> u32 {
        self.number
    }

    ghost counts = { λ x xs h. h };
}

/// The tally of this number.
pub fn make_tally(number: u32) -> SharedTally
    ensures { result.number ≡ number }
{
    SharedTally { number }
}

/// Publishes this many values, each one more than the last, and returns how many succeeded.
pub fn publishes<R: Wait, T: Sets<SharedTally>>(
    rt: &R,
    publisher: &mut PublisherOf<SharedTally, T>,
    times: u32,
) -> u32
    ensures { publisher.new.pair ≡ publisher.old.pair }
{
    let mut done = 0u32;
    for _ in 0..times {
        let number = publisher.last().number;
        if number < 1_000_000 && publisher.publish(rt, make_tally(number + 1)).is_ok() {
            done = done.wrapping_add(1);
        }
    }
    done
}
