ghost use Rattle.std.specs.Prelude.{ℕ, ◌≤◌};
ghost use Rattle.ctt_reader.specs.Promised.{IsInstance};
ghost use Rattle.timed_solution.specs.Times.{AreTimes};
ghost use Rattle.measure_file.specs.Promised.{AreMeasures};
ghost use Rattle.measure_file.specs.Writing.{AreNumberedAsWritten};
ghost use Rattle.demo_files.specs.Generator.{instance_of, times_of, measures_of};
ghost use Rattle.demo_files.specs.Sizes.{IsSmall};

/// What holds of the input of at most 300 courses: the writers of the three files take its values, there are at most
/// 600 meetings and at most 3 of a course, its problem exists and its model passes no limit. It computes nothing.
pub fn demo_laws()
    ensures instance { (n : ℕ) → n ≤ 300 → IsInstance (instance_of n) }
    ensures times { (n : ℕ) → AreTimes (instance_of n) (times_of n).meetings }
    ensures measures { (n : ℕ) → AreMeasures (instance_of n) (measures_of n) }
    ensures numbered { (n : ℕ) → AreNumberedAsWritten (measures_of n) }
    ensures small { (n : ℕ) → n ≤ 300 → IsSmall n }
{}
