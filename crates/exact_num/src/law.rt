ghost use Rattle.std.specs.Prelude.{◌≡◌, ◌≢◌, ◌<◌, ◌⊎◌, ℕ, ℤ, List, ◌*ℤ◌, ◌+ℤ◌};
ghost use Rattle.std.specs.Int.{◌∣◌};
ghost use Rattle.exact_num.specs.Q.{ℚ};
ghost use Rattle.exact_num.specs.Ops.{zero_ℚ, one_ℚ, ◌+ℚ◌, ◌*ℚ◌, neg_ℚ, inv_ℚ};
ghost use Rattle.exact_num.specs.Order.{◌≤ℚ◌, ◌<ℚ◌};
ghost use Rattle.exact_num.specs.Sums.{sum_ℚ};
ghost use Rattle.exact_num.specs.Whole.{int_ℚ};
ghost use Rattle.exact_num.specs.Multiples.{Divides, least_den};

/// The values of fractions are an ordered field, finite sums of them behave as sums do, and the least
/// common denominator is a common one that divides each other. The files `Ops`, `Order`, `Sums`,
/// `Whole` and `Multiples` of the definitions have these laws and more as lemmas that a caller's proof
/// can cite.
pub fn laws()
    ensures value { (a b : ℚ) → a.num *ℤ b.den ≡ b.num *ℤ a.den → a ≡ b }
    ensures sum_either_way { (a b : ℚ) → a +ℚ b ≡ b +ℚ a }
    ensures sum_in_groups { (a b c : ℚ) → (a +ℚ b) +ℚ c ≡ a +ℚ (b +ℚ c) }
    ensures sum_with_zero { (a : ℚ) → a +ℚ zero_ℚ ≡ a }
    ensures sum_with_negative { (a : ℚ) → a +ℚ neg_ℚ a ≡ zero_ℚ }
    ensures product_either_way { (a b : ℚ) → a *ℚ b ≡ b *ℚ a }
    ensures product_in_groups { (a b c : ℚ) → (a *ℚ b) *ℚ c ≡ a *ℚ (b *ℚ c) }
    ensures product_with_one { (a : ℚ) → a *ℚ one_ℚ ≡ a }
    ensures product_with_inverse { (a : ℚ) → a ≢ zero_ℚ → a *ℚ inv_ℚ a ≡ one_ℚ }
    ensures distributes { (a b c : ℚ) → a *ℚ (b +ℚ c) ≡ (a *ℚ b) +ℚ (a *ℚ c) }
    ensures whole_sum { (m n : ℤ) → int_ℚ (m +ℤ n) ≡ int_ℚ m +ℚ int_ℚ n }
    ensures whole_product { (m n : ℤ) → int_ℚ (m *ℤ n) ≡ int_ℚ m *ℚ int_ℚ n }
    ensures total { (a b : ℚ) → (a ≤ℚ b) ⊎ (b ≤ℚ a) }
    ensures antisymmetric { (a b : ℚ) → a ≤ℚ b → b ≤ℚ a → a ≡ b }
    ensures transitive { (a b c : ℚ) → a ≤ℚ b → b ≤ℚ c → a ≤ℚ c }
    ensures strict_or_not { (a b : ℚ) → (a <ℚ b) ⊎ (b ≤ℚ a) }
    ensures kept_by_sums { (a b c : ℚ) → a ≤ℚ b → (a +ℚ c) ≤ℚ (b +ℚ c) }
    ensures strictly_kept_by_sums { (a b c : ℚ) → a <ℚ b → (a +ℚ c) <ℚ (b +ℚ c) }
    ensures kept_by_products { (a b c : ℚ) → a ≤ℚ b → zero_ℚ ≤ℚ c → (a *ℚ c) ≤ℚ (b *ℚ c) }
    ensures strictly_kept_by_products { (a b c : ℚ) → a <ℚ b → zero_ℚ <ℚ c → (a *ℚ c) <ℚ (b *ℚ c) }
    ensures added_sums { (f g : ℕ → ℚ) (n : ℕ) → sum_ℚ (λ i. f i +ℚ g i) n ≡ sum_ℚ f n +ℚ sum_ℚ g n }
    ensures scaled_sums { (c : ℚ) (f : ℕ → ℚ) (n : ℕ) → sum_ℚ (λ i. c *ℚ f i) n ≡ c *ℚ sum_ℚ f n }
    ensures exchanged_sums { (f : ℕ → ℕ → ℚ) (m n : ℕ) → sum_ℚ (λ i. sum_ℚ (f i) n) m ≡ sum_ℚ (λ j. sum_ℚ (λ i. f i j) m) n }
    ensures replaced_term { (f g : ℕ → ℚ) (r n : ℕ) → r < n → ((p : ℕ) → p < n → p ≢ r → g p ≡ f p) → sum_ℚ g n +ℚ f r ≡ sum_ℚ f n +ℚ g r }
    ensures common_denominator { (qs : List ℚ) → Divides (least_den qs) qs }
    ensures least_denominator { (qs : List ℚ) (d : ℕ) → Divides d qs → least_den qs ∣ d }
{}
