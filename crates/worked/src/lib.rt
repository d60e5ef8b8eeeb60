// Worked readings: values worked out by hand, held against the definitions that the contracts of the other crates cite.
#![tactic(auto)]

ghost use Rattle.worked.specs.Worked.{WorkedReadings};
ghost use Rattle.worked.specs.Texts.{WorkedTexts};

// Does nothing: its contract is the list of worked readings, which so has to be proved.
pub fn worked_readings_stand()
    ensures { WorkedReadings }
{}

// As above, the list of worked texts.
pub fn worked_texts_stand()
    ensures { WorkedTexts }
{}
