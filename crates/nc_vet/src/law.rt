//! The laws of verdicts and of profiles.

ghost use Rattle.nc_vet.specs.Laws.{HasOneFault, HasNoFault, HasOneReading, HasOneParting, KeepsValid};

/// A chunk determines its verdict: it has at most one fault besides lack of memory, a valid chunk has none, and valid
/// chunks with the same code have the same marks. Any code splits into whole instructions in at most one way. Calling
/// this law does nothing.
pub fn law_of_verdicts()
    ensures one_fault { HasOneFault }
    ensures no_fault { HasNoFault }
    ensures one_reading { HasOneReading }
    ensures one_parting { HasOneParting }
{}

/// Every chunk that was valid by the first profile is valid by the current one, with the same marks: instructions have been
/// added since, but none has been removed or has changed its effect on control. Accepted chunks need not be vetted again. A
/// chunk that was refused then may be accepted now, or refused for another fault. Calling this law does nothing.
pub fn law_of_profiles()
    ensures { KeepsValid }
{}
