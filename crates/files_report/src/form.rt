//! The forms of reports.

/// A form of a report.
#[derive(Clone, Copy, PartialEq, Eq)]
pub enum ReportForm {
    /// XML, as bison writes it.
    Xml,
    /// JSON.
    Json,
    /// A graph of the states in DOT, as bison draws it.
    Dot,
}

/// The names of the forms.
pub static REPORT_FORMS: [&str; 3] = ["dot", "json", "xml"];

impl ReportForm {
    /// Returns the form with a name, one of `REPORT_FORMS`, or `None` if there is none.
    pub fn of(name: &str) -> Option<ReportForm> {
        match name {
            "xml" => Some(ReportForm::Xml),
            "json" => Some(ReportForm::Json),
            "dot" => Some(ReportForm::Dot),
            _ => None,
        }
    }
}
