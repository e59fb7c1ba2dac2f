//! What must be shown of a run beside its report.

/// What must be shown of a run beside its report.
#[derive(Drop)]
pub struct Shown {
    /// Whether to say why a bad script is bad, what conditions say, and what was dropped.
    pub explain: bool,
    /// Whether to show what passes on standard error, in the order of events.
    pub trace: bool,
    /// The file that the PDUs of both directions go to, as a capture.
    pub pcap: Option<String>,
    /// The file that what passes goes to, as a chart.
    pub chart: Option<String>,
    /// Whether what passes in a script is kept, for whoever asks for it once the run is over.
    pub keeps: bool,
}

impl Shown {
    /// Returns `true` if something is asked for that is seen only by one who looks on.
    pub fn is_watched(&self) -> bool {
        self.explain || self.trace || self.keeps || self.pcap.is_some() || self.chart.is_some()
    }
}
