// Handlers that are kept for openers to come.
ghost use Rattle.std.specs.Prelude.{◌≡◌, [], All, IfOk};
ghost use Rattle.handlers.specs.Stock.{Draws};

use crate::handler::{Handler, Strategy};

/// Handlers of each strategy, as the caller made them.
#[derive(Drop)]
pub struct HandlerStock {
    discard: Vec<Box<dyn Handler + Send>>,
    recover: Vec<Box<dyn Handler + Send>>,
    leave: Vec<Box<dyn Handler + Send>>,
}

impl HandlerStock {
    /// A stock of these handlers. None of them was asked or told anything yet.
    pub fn new(
        discard: Vec<Box<dyn Handler + Send>>,
        recover: Vec<Box<dyn Handler + Send>>,
        leave: Vec<Box<dyn Handler + Send>>,
    ) -> HandlerStock
        requires discard { All (λ h. (told h ≡ []) × (changes_told h ≡ [])) discard.items }
        requires recover { All (λ h. (told h ≡ []) × (changes_told h ≡ [])) recover.items }
        requires leave { All (λ h. (told h ≡ []) × (changes_told h ≡ [])) leave.items }
        ensures discard { result.discard.items ≡ discard.items }
        ensures recover { result.recover.items ≡ recover.items }
        ensures leave { result.leave.items ≡ leave.items }
    {
        HandlerStock {
            discard,
            recover,
            leave,
        }
    }

    /// Takes the last handler of this strategy. `None` where none is left.
    pub fn draw(&mut self, kind: Strategy) -> Option<Box<dyn Handler + Send>>
        ensures discard { Draws kind Strategy.Discard self.old.discard.items self.new.discard.items result }
        ensures recover { Draws kind Strategy.Recover self.old.recover.items self.new.recover.items result }
        ensures leave { Draws kind Strategy.Leave self.old.leave.items self.new.leave.items result }
    {
        match kind {
            Strategy::Discard => self.discard.pop(),
            Strategy::Recover => self.recover.pop(),
            Strategy::Leave => self.leave.pop(),
        }
    }
}

#[cfg(test)]
mod tests {
    use super::*;
    use crate::steady::Steady;
    use meta_record::Damage;
    use std::alloc::{AllocError, Global};

    fn handlers(
        alloc: Global,
        strategy: Strategy,
    ) -> Result<Vec<Box<dyn Handler + Send>>, AllocError>
        ensures { IfOk result (λ all. All (λ h. (told h ≡ []) × (changes_told h ≡ [])) all.items) }
    {
        let mut all: Vec<Box<dyn Handler + Send>> = Vec::new(alloc);
        all.push(Box::new(alloc, Steady::new(alloc, strategy))?)?;
        Ok(all)
    }

    fn answer(
        drawn: Option<Box<dyn Handler + Send>>,
    ) -> Option<Result<Strategy, expiring_map::Memory>> {
        let mut handler = drawn?;
        Some(handler.on_damage(Damage::Length))
    }

    #[test]
    fn a_handler_is_drawn_from_the_list_of_its_strategy(rt: HostRuntime) -> Result<(), AllocError> {
        let alloc = rt.alloc();
        let mut stock = HandlerStock::new(
            handlers(alloc, Strategy::Discard)?,
            handlers(alloc, Strategy::Recover)?,
            handlers(alloc, Strategy::Leave)?,
        );
        for kind in [Strategy::Recover, Strategy::Leave, Strategy::Discard] {
            assert_eq!(rt; answer(stock.draw(kind)), Some(Ok(kind)));
            assert_eq!(rt; stock.draw(kind).is_none(), true);
        }
        Ok(())
    }
}
