//! The laws of readings and of objects.

ghost use Rattle.std.specs.Prelude.{ℕ, List};
ghost use Rattle.nc_reading.specs.Reading.{IsReadOneWay};
ghost use Rattle.nc_report.specs.Objects.{Part, IsJson};
ghost use Rattle.nc_output.specs.Shown.{IsShown};

/// Code has only one reading, so the code, the base and the limit determine which further faults are reported, and their numbers.
/// A call does nothing.
pub fn law_of_readings()
    ensures { IsReadOneWay }
{}

/// No text of JSON has a control byte, whatever bytes its strings have. A call does nothing.
pub fn law_of_objects()
    ensures { (part : Part) (text : List ℕ) → IsJson part text → IsShown text }
{}
