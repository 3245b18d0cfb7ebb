//! Infinite binary words that repeat from some place on, as the clocks of streams are.
//!
//! It stands on nothing else. Begin with `Word` in `word.rt` and with `specs/Bits.antt`, which says what the bits of a
//! word and their counts are. Then `specs/Shortest.antt` says which spelling of a word is the shortest, `specs/Stored.antt`
//! what every word in memory is, `specs/Sampling.antt` what `on` gives, `specs/Complement.antt` what `complement` gives, and
//! `specs/Items.antt` and `specs/Spelling.antt` how a word is spelled. `limit.rt` and `specs/Limits.antt` have the limits of all crates.
//! How bits are kept, 64 to a number, is in `limbs.rt`, how they are made in `packed.rt`, and how digits become 64 at once in `digits.rt`.
#![tactic(auto)]

mod delay;
mod digits;
mod error;
mod flip;
mod form;
mod index;
mod limbs;
mod limit;
mod multiple;
mod packed;
mod print;
mod read;
mod sampling;
mod shortest;
mod spelling;
mod walk;
mod word;

pub use delay::delayed;
pub use error::WordError;
pub use flip::{complement, turned};
pub use form::Stage;
pub use limit::Limit;
pub use multiple::{gcd, lcm};
pub use read::{Spelled, digits_spell_words};
pub use sampling::{on, sampled};
pub use std::alloc::AllocError as OutOfMemory;
pub use walk::Walk;
pub use word::{Word, words_are_stored};
