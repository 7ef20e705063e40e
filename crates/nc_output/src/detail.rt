//! How much is written about a source, and in which form.

/// How much is written about a source.
#[derive(Clone, Copy, Debug, Drop, PartialEq, Eq)]
pub enum Detail {
    /// Nothing for an accepted source; only the verdict for a refused one.
    Brief,
    /// The verdict on each source; for a refused one also the name of the fault's address, if it has a label, the bundle of the
    /// fault, the target of a refused direct transfer, and what the fault means.
    Usual,
    /// As `Usual`; for a refused source also every other fault found by one reading of all of it, and the number of faults.
    All,
    /// As `Usual`; for an accepted source also the addresses outside it that its direct transfers target, with the number of
    /// transfers to each.
    Calls,
}

/// The form in which a report is written.
#[derive(Clone, Copy, Debug, Drop, PartialEq, Eq)]
pub enum Format {
    /// Lines of text.
    Text,
    /// A JSON object on one line.
    Json,
}

/// How much is written about a source, and in which form.
#[derive(Clone, Copy, Debug, Drop, PartialEq, Eq)]
pub struct Style {
    pub detail: Detail,
    pub format: Format,
}
