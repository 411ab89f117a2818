//! Exact fractions: the arithmetic under the linear programs.
//!
//! A fraction is kept in lowest terms with a positive denominator. An arithmetic adds, subtracts,
//! multiplies and divides fractions exactly, or refuses with [`Wide`] where a number that its method
//! works with does not fit, and counts the refusal. It never rounds.
#![tactic(auto)]

mod arith;
mod denominators;
mod exact;
mod fraction;
mod fraction_128;
mod fraction_64;
mod law;
mod parts;
mod steps;

pub use arith::{Arith, Common, CommonFault, Memory, Wide};
pub use exact::{Exact64, Exact128, Refusing};
pub use fraction::Fraction;
pub use fraction_64::Frac64;
pub use fraction_128::Frac128;
pub use law::laws;
pub use parts::{common_divisor, quotient};
pub use steps::Steps;
