ghost use Rattle.std.specs.Prelude.{◌≡◌, ◌≤◌, IfOk};
ghost use Rattle.demo_files.specs.Generator.{instance_of, times_of, measures_of};

use crate::instance::demo_instance;
use crate::measures::demo_measures;
use crate::times::demo_times;
use ctt_reader::Instance;
use input_core::Memory;
use measure_file::Measures;
use std::alloc::Global;
use timed_solution::Times;

/// An input of `n` courses and 12 rooms in a week of 5 days of 8 periods: its instance, its times without rooms and
/// its measures. Course i has `1 + (i mod 3)` lectures and `10 + (i * 37 mod 190)` students; room r seats
/// `20 + 20 * r`; meeting j of course i is in slot `(i * 7 + j * 11) mod 40`; course i has 3 points for room
/// `i mod 12`. The three values are such as the writers of the files take (`demo_laws`).
pub fn demo_files(alloc: Global, n: u32) -> Result<(Instance, Times, Measures), Memory>
    requires some { 1 ≤ n }
    requires few { n ≤ 300 }
    ensures instance { IfOk result (λ files. files.0 ≡ instance_of n) }
    ensures times { IfOk result (λ files. files.1 ≡ times_of n) }
    ensures measures { IfOk result (λ files. files.2 ≡ measures_of n) }
{
    let times = demo_times(alloc, n)?;
    let measures = demo_measures(alloc, n)?;
    let instance = demo_instance(alloc, n)?;
    Ok((instance, times, measures))
}
