// Drafts: opening, filing, striking and reopening.
ghost use Rattle.plan.specs.Calls.{OpenDoes, FileDoes, StrikeDoes, ReopenDoes};

use super::{Draft, Refusal, Settled};
use examining::{check_sizes, require};
use house::{Fact, Sizes};
use scale::Scale;

impl Draft {
    // A draft without facts.
    pub fn open() -> Draft
        ensures { OpenDoes result }
    {
        Draft { count: 0 }
    }

    // Files a fact: it goes behind the filed ones, and everything else stays. Refuses a size outside its limits, then a
    // fact outside the house, then a table shorter than the count, then a full one.
    pub fn file<S: Scale>(
        &mut self,
        sizes: Sizes,
        facts: &mut [Fact<S>],
        fact: Fact<S>,
    ) -> Result<(), Refusal>
        ensures { FileDoes sizes fact self.old facts.old result self.new facts.new }
    {
        check_sizes(sizes)?;
        require(fact.inside(sizes), Refusal::Outside { at: 0 })?;
        require(self.count <= facts.len(), Refusal::Short)?;
        require(self.count < facts.len(), Refusal::Full)?;
        // By index: after a loan of the table, as by `get_mut`, a proof no longer knows what it holds.
        facts[self.count] = fact;
        self.count += 1;
        Ok(())
    }

    // Strikes the fact at a place: the later ones move down by one, and the place that the last one had keeps what it
    // held. Refuses a table shorter than the count, then a place at or past the count.
    pub fn strike<S: Scale>(&mut self, facts: &mut [Fact<S>], at: usize) -> Result<(), Refusal>
        ensures { StrikeDoes at self.old facts.old result self.new facts.new }
    {
        require(self.count <= facts.len(), Refusal::Short)?;
        require(at < self.count, Refusal::NoFact)?;
        facts.copy_within(at + 1..self.count, at);
        self.count -= 1;
        Ok(())
    }
}

impl Settled {
    // Gives the draft back, with its facts.
    pub fn reopen(self) -> Draft
        ensures { ReopenDoes self result }
    {
        let Settled { count } = self;
        Draft { count }
    }
}
