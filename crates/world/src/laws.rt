// Laws of worlds that are moved, for callers. Each is a function without a body.
ghost use Rattle.std.specs.Prelude.{◌≡◌, ℕ, ◌≤◌, []};
ghost use Rattle.lock_rules.specs.declared.limits.TheConstants.{MOST_OPENERS};
ghost use Rattle.world.specs.Reserved.{ReserveWhatIsLeft, StoreWhatWasPlanned};
ghost use Rattle.world.specs.World.{IsSound, WorldState};
ghost use Rattle.world.specs.Moves.{CameFrom, CountsLoads};

/// However a world that had no openers was moved, the answers of each opener count no more loads than it made.
pub fn answers_count_loads_that_were_made()
    ensures { (who : ℕ) (old new : WorldState) → 1 ≤ who → who ≤ MOST_OPENERS → old.openers ≡ [] → old.answers ≡ [] → CameFrom old new → CountsLoads who old new }
{}

/// The places that are reserved in a world are those of the events to come of the stores under way, whose plan was made as they were reserved.
pub fn reserved_places_are_of_the_stores_under_way()
    ensures left { (w : WorldState) → IsSound w → ReserveWhatIsLeft w }
    ensures planned { (w : WorldState) → IsSound w → StoreWhatWasPlanned w }
{}
