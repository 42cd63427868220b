// A handler that always answers the same.
ghost use Rattle.std.specs.Prelude.{◌≡◌};
ghost use Rattle.handlers.specs.Handlers.{fresh};

use crate::handler::{Handler, Notice, Strategy};
use expiring_map::Memory;
use meta_record::Damage;
use std::alloc::Global;
use std::marker::Model;

/// One answer to every question.
#[derive(Drop)]
pub struct Steady {
    strategy: Strategy,
    asked: Vec<Damage>,
    notices: Vec<Notice>,
}

impl Model for Steady {
    ghost use Rattle.handlers.specs.Handlers.{Handled};

    ghost Value = { Handled };

    ghost view = { λ s. record { strategy = s.strategy; asked = s.asked.items; notices = s.notices.items } };
}

impl Steady {
    /// It was asked and told nothing yet.
    pub fn new(alloc: Global, strategy: Strategy) -> Steady
        ensures { result ≡ fresh strategy }
    {
        Steady {
            strategy,
            asked: Vec::new(alloc),
            notices: Vec::new(alloc),
        }
    }
}

impl Handler for Steady {
    ghost rule = { λ s damage number. s.strategy };

    ghost told = { λ s. s.asked };

    ghost changes_told = { λ s. s.notices };

    fn on_damage(&mut self, damage: Damage) -> Result<Strategy, Memory> {
        self.asked.push(damage)?;
        Ok(self.strategy)
    }

    fn on_changed(&mut self, sequence: u32, checksum: u32) -> Result<(), Memory> {
        self.notices.push(Notice { sequence, checksum })?;
        Ok(())
    }
}

#[cfg(test)]
mod tests {
    use super::*;

    // A handler is used by its clauses alone, as of another type.
    fn ask_and_tell<H: Handler>(handler: &mut H) -> Result<Strategy, Memory> {
        handler.on_changed(1, 0x3a65_95d3)?;
        handler.on_changed(2, 0x4c99_85d1)?;
        let _ = handler.on_damage(Damage::Content)?;
        handler.on_damage(Damage::Checksum)
    }

    #[test]
    fn each_question_and_each_notice_is_kept_in_its_order(rt: HostRuntime) {
        let mut steady = Steady::new(rt.alloc(), Strategy::Recover);
        assert_eq!(rt; ask_and_tell(&mut steady), Ok(Strategy::Recover));
        assert_eq!(rt;
            steady.asked.as_slice(),
            [Damage::Content, Damage::Checksum].as_slice()
        );
        let notices = [
            Notice {
                sequence: 1,
                checksum: 0x3a65_95d3,
            },
            Notice {
                sequence: 2,
                checksum: 0x4c99_85d1,
            },
        ];
        assert_eq!(rt; steady.notices.as_slice(), notices.as_slice());
    }
}
