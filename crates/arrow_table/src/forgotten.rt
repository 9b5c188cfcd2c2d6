ghost use Rattle.std.specs.Prelude.{◌≡◌};

use state_sets::Arrow;
use std::marker::Model;
use std::snapshot::Snapshot;

/// Maps that a table kept once, as contracts see them: in memory there is nothing of them.
#[derive(Drop)]
pub struct Forgotten {
    maps: Snapshot<Vec<Arrow>>,
}

impl Model for Forgotten {
    ghost use Rattle.std.specs.Prelude.{List};
    ghost use Rattle.map_theory.specs.Maps.{StateMap};

    ghost Value = { List StateMap };

    ghost view = { λ s. s.maps.value.items };
}

impl Forgotten {
    /// What contracts see of these maps, without them.
    pub fn of(maps: &Vec<Arrow>) -> Forgotten
        ensures { result ≡ maps.now.items }
    {
        Forgotten {
            maps: Snapshot::of(maps),
        }
    }
}
