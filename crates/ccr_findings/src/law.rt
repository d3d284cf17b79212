//! The law of the faults that are found.
ghost use Rattle.ccr_findings.specs.Agreement.{AreThoseOfTheReader};

/// The faults that [`crate::faults_of`] finds are those of [`ccr_pipeline::read`]: the first is the one that it refuses
/// the text for, and there are none exactly where it reads the text.
pub fn faults_are_those_of_the_reader()
    ensures { AreThoseOfTheReader }
{}
