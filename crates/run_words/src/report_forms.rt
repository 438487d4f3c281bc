// What a report is written as.

/// What a run writes its report as.
#[derive(Clone, Copy, Debug)]
pub enum ReportForm {
    /// Lines of text.
    Text,
    /// A table, with commas between the fields of a row.
    Csv,
}
