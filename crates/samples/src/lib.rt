// Worked examples, proved: one table, one statement over it.
#![tactic(auto)]

ghost use Rattle.samples.specs.Table.{SamplesStand};

// Holds that every sample is right. It does nothing when run.
pub fn samples_stand()
    ensures { SamplesStand }
{}
