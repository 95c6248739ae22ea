ghost use Rattle.std.specs.Prelude.{◌≡◌, true, IfOk};
ghost use Rattle.tm_text.specs.SpelledLines.{spelled};
ghost use Rattle.tm_makers.specs.Buffers.{are_buffer_sizes};
ghost use Rattle.tm_makers.specs.LineForms.{is_within};
ghost use Rattle.tm_makers.specs.Plans.{is_in_range, lines_of_plan};

use crate::buffers::buffer;
use crate::coasters::coaster;
use crate::philosophers::philosophers;
use crate::readers::readers_and_writers;
use crate::rings::ring;
use std::alloc::Global;
use tm_base::NoMemory;
use tm_text::Exercise;

/// A ready-made exercise, with its sizes.
#[derive(Clone, Copy, Debug, PartialEq, Eq)]
pub enum Plan {
    /// The dining philosophers: 2 to 60 of them, who eat 1 to 100 times.
    Philosophers {
        n: u32,
        rounds: u32,
        way: Way,
    },
    /// The bounded buffer: 1 to 30 producers and consumers, 1 to 1,000 places, and 1 to 100 items of each
    /// producer. The consumers share all items out evenly, at most 100 for each.
    Buffer {
        producers: u32,
        consumers: u32,
        places: u32,
        items: u32,
        guard: Guard,
    },
    /// Readers and writers of one variable: 1 to 30 of each, who go in 1 to 100 times.
    Readers {
        readers: u32,
        writers: u32,
        rounds: u32,
    },
    /// The roller coaster: 1 to 60 seats and rides, with at most 60 passengers in all.
    Coaster {
        seats: u32,
        rides: u32,
    },
    /// A token that 2 to 60 threads hand round for 1 to 100 rounds.
    Ring {
        n: u32,
        rounds: u32,
    },
}

/// How the philosophers take their forks.
#[derive(Clone, Copy, Debug, PartialEq, Eq)]
pub enum Way {
    /// Each takes the one fork, and then the other, so that they may all wait for each other.
    Naive,
    /// The last one takes its forks in the other order.
    Asymmetric,
    /// There is one chair fewer than philosophers.
    Chairs,
}

/// What guards the buffer.
#[derive(Clone, Copy, Debug, PartialEq, Eq)]
pub enum Guard {
    Semaphores,
    Hoare,
    Mesa,
}

impl Plan {
    /// Whether the sizes are in their ranges.
    pub fn is_in_range(self) -> bool
        ensures { result ≡ is_in_range self }
    {
        match self {
            Plan::Philosophers { n, rounds, .. } => {
                is_within(2, 60, n) && is_within(1, 100, rounds)
            }
            Plan::Buffer {
                producers,
                consumers,
                places,
                items,
                ..
            } => are_buffer_sizes(producers, consumers, places, items),
            Plan::Readers {
                readers,
                writers,
                rounds,
            } => {
                is_within(1, 30, readers) && is_within(1, 30, writers) && is_within(1, 100, rounds)
            }
            Plan::Coaster { seats, rides } => {
                is_within(1, 60, seats) && is_within(1, 60, rides) && seats * rides <= 60
            }
            Plan::Ring { n, rounds } => is_within(2, 60, n) && is_within(1, 100, rounds),
        }
    }
}

/// Whether the number is one of these.
fn is_within(least: u32, most: u32, number: u32) -> bool
    ensures { result ≡ is_within least most number }
{
    least <= number && number <= most
}

/// Whether a buffer may have these sizes.
fn are_buffer_sizes(producers: u32, consumers: u32, places: u32, items: u32) -> bool
    ensures { result ≡ are_buffer_sizes producers consumers places items }
{
    is_within(1, 30, producers)
        && is_within(1, 30, consumers)
        && is_within(1, 1000, places)
        && is_within(1, 100, items)
        && producers * items % consumers == 0
        && producers * items / consumers <= 100
}

/// The exercise of the plan. `NoMemory` only where memory runs out.
pub fn make_exercise(alloc: Global, plan: Plan) -> Result<Exercise, NoMemory>
    requires in_range { is_in_range plan ≡ true }
    ensures made { IfOk result (λ x. spelled x ≡ lines_of_plan plan) }
{
    match plan {
        Plan::Philosophers { n, rounds, way } => philosophers(alloc, n, rounds, way),
        Plan::Buffer {
            producers,
            consumers,
            places,
            items,
            guard,
        } => buffer(alloc, producers, consumers, places, items, guard),
        Plan::Readers {
            readers,
            writers,
            rounds,
        } => readers_and_writers(alloc, readers, writers, rounds),
        Plan::Coaster { seats, rides } => coaster(alloc, seats, rides),
        Plan::Ring { n, rounds } => ring(alloc, n, rounds),
    }
}
