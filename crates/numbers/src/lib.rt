//! Laws of whole numbers that the standard library lacks: products of signed numbers, numbers with no
//! common divisor, sums and quantifiers over the numbers below a bound. The crate has no code that
//! computes; its files of definitions and lemmas are cited by the crates above.
#![tactic(auto)]

ghost use Rattle.std.specs.Prelude.{◌≡◌, ◌≤ℤ◌, ℕ, ℤ, pos, ◌+ℤ◌, ◌*ℤ◌};
ghost use Rattle.numbers.specs.Sums.{sum_below};

/// Products of whole numbers distribute, may be grouped either way, and keep an order.
pub fn product_laws()
    ensures distributes { (a b c : ℤ) → a *ℤ (b +ℤ c) ≡ (a *ℤ b) +ℤ (a *ℤ c) }
    ensures groups { (a b c : ℤ) → (a *ℤ b) *ℤ c ≡ a *ℤ (b *ℤ c) }
    ensures keeps_order { (c a b : ℤ) → pos 0 ≤ℤ c → a ≤ℤ b → (c *ℤ a) ≤ℤ (c *ℤ b) }
{}

/// Sums add, take a factor out, and two of them may change places.
pub fn sum_laws()
    ensures added { (f g : ℕ → ℤ) (n : ℕ) → sum_below (λ i. f i +ℤ g i) n ≡ (sum_below f n) +ℤ (sum_below g n) }
    ensures scaled { (c : ℤ) (f : ℕ → ℤ) (n : ℕ) → sum_below (λ i. c *ℤ f i) n ≡ c *ℤ (sum_below f n) }
    ensures exchanged { (f : ℕ → ℕ → ℤ) (m n : ℕ) → sum_below (λ i. sum_below (f i) n) m ≡ sum_below (λ j. sum_below (λ i. f i j) m) n }
{}
