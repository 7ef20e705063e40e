//! Labels: names for addresses of code.

ghost use Rattle.std.specs.Prelude.{◌≡◌, [], IfSome, IfNone};
ghost use Rattle.std.specs.Option.{option_copied};
ghost use Rattle.nc_report.specs.Labels.{LabelsAscend, label_of};

use std::alloc::Global;
use std::marker::Model;

/// A name for an address.
#[derive(Drop)]
pub struct Label {
    /// The address.
    pub address: u32,
    /// The name, of any bytes.
    pub name: Vec<u8>,
}

/// Labels in ascending order of their addresses. An address between two labels belongs to the lower one.
#[derive(Drop)]
pub struct Labels {
    list: Vec<Label>,
}

impl Model for Labels {
    ghost use Rattle.std.specs.Prelude.{List};
    ghost use Rattle.nc_report.specs.declared.labels.Label.{Label};
    ghost use Rattle.nc_report.specs.Labels.{LabelsAscend};

    ghost Value = { List Label };

    ghost view = { λ l. l.list.items };

    ghost invariant = { λ l. LabelsAscend l.list.items };
}

impl Labels {
    /// No labels.
    pub fn none(alloc: Global) -> Labels
        ensures { result ≡ [] }
    {
        Labels {
            list: Vec::new(alloc),
        }
    }

    /// These labels, if they are in ascending order of their addresses. Of several with one address, the last names it.
    pub fn new(list: Vec<Label>) -> Option<Labels>
        ensures some { IfSome result (λ labels. labels ≡ list.items) }
        ensures none { IfNone result (¬ LabelsAscend list.items) }
    {
        if !list.is_sorted_by(|label, next| label.address <= next.address) {
            return None;
        }
        Some(Labels { list })
    }

    /// The label of an address, by binary search: the last one at the address or below it.
    pub(crate) fn of(&self, at: u32) -> Option<&Label>
        ensures { option_copied result ≡ label_of self.now at }
    {
        let count = self.list.partition_point(|label| label.address <= at);
        if count == 0 {
            return None;
        }
        Some(&self.list[count - 1])
    }
}
