ghost use Rattle.std.specs.Prelude.{ℕ, List};
ghost use Rattle.catalogue.specs.Releases.{ReleaseData};
ghost use Rattle.subscribers.specs.Hearing.{Event, HearsEachChangeOnce};

/// What was cleared for a subscriber, followed by what it holds, is what the history owes it: each
/// change once and in order. This is so for any sequence of subscribing, installing, refusing and
/// clearing that begins without subscribers.
pub fn hears_each_change_once()
    ensures { (H : List ReleaseData) (events : List Event) (number : ℕ)
        → HearsEachChangeOnce H events number }
{}
