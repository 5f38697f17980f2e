//! The law of entity tags, as the contract of a function that does nothing.
ghost use Rattle.std.specs.Prelude.{◌≡◌, ℕ, List, length};
ghost use Rattle.negotiate.specs.declared.choosing.Format.{Format};
ghost use Rattle.actions.specs.Bounds.{AreBounds};
ghost use Rattle.actions.specs.Formats.{format_data};
ghost use Rattle.actions.specs.Tags.{data_tag};
ghost use Rattle.actions.specs.declared.bounds.Bounds.{Bounds};

/// Two equal entity tags stand for the same content tag, the same format and the same bounds. So
/// data in one format and of one range never has the tag of another.
pub fn entity_tags_cover()
    ensures { (a b : List ℕ) (f g : Format) (p q : Bounds) → length a ≡ length b → AreBounds p
        → AreBounds q → data_tag a (format_data f).mark p ≡ data_tag b (format_data g).mark q
        → (a ≡ b) × (f ≡ g) × (p ≡ q) }
{}
