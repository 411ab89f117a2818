ghost use Rattle.reports.specs.Standing.{EachStandsOnce};

/// Each meeting of a legal choice stands once in a report: in its room, or among those without one. It computes
/// nothing.
pub fn report_laws()
    ensures { EachStandsOnce }
{}
