ghost use Rattle.std.specs.Prelude.{List};
ghost use Rattle.td_base.specs.declared.report.Ask.{Ask};
ghost use Rattle.catalogue.specs.Releases.{ReleaseData};
ghost use Rattle.sync_core.specs.declared.heard_type.Heard.{Heard};
ghost use Rattle.sync_world.specs.Primaries.{Service};

/// A server whose releases are followed: which releases are sound, what a mirror receives from it
/// over a history of them, and what it serves.
pub trait Primary {
    ghost sound: { ReleaseData → Type 0 };

    ghost hears: { List ReleaseData → Ask → Heard → Type 0 };

    ghost service: { Service };
}

/// The primary that answers by the actions of this service.
pub struct Actions;

impl Primary for Actions {
    ghost use Rattle.zone_meaning.specs.Sound.{IsSound};
    ghost use Rattle.sync_world.specs.Hearing.{IsHeardOver, action_service};

    ghost sound = { IsSound };

    ghost hears = { IsHeardOver };

    ghost service = { action_service };
}
