//! What the bars of a history are.

ghost use Rattle.std.specs.Prelude.{◌↔◌, ℕ, List};
ghost use Rattle.std.specs.List.{Contains};
ghost use Rattle.history.specs.Start.{Start};
ghost use Rattle.history.specs.declared.entry.Entry.{Entry};
ghost use Rattle.drawing.specs.Bars.{bars};
ghost use Rattle.drawing.specs.IsBar.{IsBar};
ghost use Rattle.drawing.specs.declared.bar.Bar.{Bar};

/// Whatever a history begins with, each bar is a longest stretch of entries after which a seat has the same
/// holds, waits in the queue, or waits on a condition. Each such stretch has its bar.
pub fn bars_are_the_longest_stretches()
    ensures { (s : Start) (from : ℕ) (h : List Entry) (b : Bar) →
        Contains (bars s from h) b ↔ IsBar s from h b }
{}
