//! What a report tells of findings. The function does nothing of its own: its contract is the law.
ghost use Rattle.hm_report.specs.Marks.{FindingsShow};

/// A report has the text of a finding in a line exactly where an answer is a finding, where no note has a line feed.
pub fn findings_show()
    ensures { FindingsShow }
{}
