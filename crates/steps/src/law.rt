//! What the definitions say about each text.

ghost use Rattle.std.specs.Prelude.{◌≡◌, ◌≢◌, [], ◌++◌, List, ℕ};
ghost use Rattle.frame.specs.declared.acts.Act.{Act};
ghost use Rattle.streams.specs.declared.limits.TheConstants.{LINE_BYTES};
ghost use Rattle.streams.specs.Reading.{IsReading, IsText, IsCutShort, Reading};
ghost use Rattle.streams.specs.Short.{HasShortLines};
ghost use Rattle.steps.specs.declared.header.StepsHeader.{StepsHeader};
ghost use Rattle.steps.specs.StepsText.{steps_form};

/// A text has one reading: it spells one header and one list of acts, or it has one first fault.
pub fn one_reading()
    ensures { (text : List ℕ) (a b : Reading StepsHeader Act) → IsReading steps_form text a →
        IsReading steps_form text b → a ≡ b }
{}

/// Each proper beginning of a steps text is cut short.
pub fn cut_short()
    ensures { (text : List ℕ) (h : StepsHeader) (acts : List Act) → IsText steps_form text h acts →
        (front more : List ℕ) → front ++ more ≡ text → more ≢ [] → IsCutShort steps_form front }
{}

/// No line of a steps text has 256 bytes or more.
pub fn lines_are_short()
    ensures { HasShortLines steps_form LINE_BYTES }
{}
