// Plans settled through the calls: a house of three nodes, its contradiction, and what a planner must not do.
#![tactic(auto)]

use book::{Book, Stair, Stairs};
use house::{Body, Cell, Condition, Edge, Fact, House, Kind, Rule, Sizes, Test};
use life::{Answer, Call, replay};
use plan::Clash;
use scale::{Recorded, Scale, Thousandths};

#[cfg(test)]
mod tests {
    use super::*;
    use std::process::Abort;
    use std::test::Fail;

    // The thousandths from low to high.
    fn range(low: u16, high: u16) -> Thousandths {
        Thousandths::range(low, high).unwrap_or(Thousandths::none())
    }

    // What is known of a node's one moving label at the hours from and to.
    fn known(component: u16, bound: Thousandths, from: u8, to: u8) -> Fact<Thousandths> {
        Fact {
            component,
            label: 1,
            bound,
            from,
            to,
        }
    }

    // The cell of a node's one moving label at an hour.
    fn cell(hour: u8, component: u16) -> Cell {
        Cell {
            hour,
            component,
            label: 1,
        }
    }

    // A look at that cell.
    fn look(hour: u8, component: u16) -> Call<Thousandths> {
        Call::Look(cell(hour, component))
    }

    // Whether an answer shows a bound.
    fn shows(rt: &impl Abort, answer: Answer<Thousandths>, bound: Thousandths) -> Result<(), Fail> {
        let Answer::Seen(seen) = answer else {
            return Err(Fail::new("no bound was seen"));
        };
        assert_eq!(rt; seen.to_bytes(), bound.to_bytes());
        Ok(())
    }

    // The tables of the house of three nodes: 0 and 1 feed 2, which is served; where at least half of its feeders are
    // low, it is at 200 or less an hour later.
    #[derive(Drop)]
    struct ThreeNodes {
        edges: [Edge; 2],
        fixed: [Thousandths; 5],
        tests: [Test<Thousandths>; 2],
        conditions: [Condition; 1],
        rules: [Rule; 1],
    }

    impl ThreeNodes {
        // With the condition on feeders, and the bound within which a feeder is low.
        fn new(source: Option<u8>, low: Thousandths) -> ThreeNodes {
            let loose = Thousandths::loose();
            let served = range(1000, 1000);
            ThreeNodes {
                edges: [Edge { from: 0, to: 2 }, Edge { from: 1, to: 2 }],
                fixed: [loose, loose, served, loose, loose],
                tests: [
                    Test {
                        label: 0,
                        bound: served,
                    },
                    Test {
                        label: 1,
                        bound: low,
                    },
                ],
                conditions: [Condition {
                    kind: Kind::Test,
                    a: 0,
                    b: 0,
                }],
                rules: [Rule {
                    target: 1,
                    delay: 1,
                    onto: Some(0),
                    along: None,
                    source,
                    body: Body { first: 1, count: 1 },
                    formula: 0,
                }],
            }
        }

        // The house that they make, with hours 0 and 1.
        fn house(&self) -> House<'_, Thousandths> {
            House {
                sizes: Sizes {
                    nodes: 3,
                    edges: 2,
                    fixed: 1,
                    moving: 1,
                    last: 1,
                },
                edges: &self.edges,
                fixed: &self.fixed,
                tests: &self.tests,
                conditions: &self.conditions,
                constraints: &[],
                rules: &self.rules,
            }
        }
    }

    // Plays calls on a fresh plan of such a house.
    fn play_on(
        calls: &[Call<Thousandths>],
        rt: &HostRuntime,
        tables: &ThreeNodes,
    ) -> Result<Vec<Answer<Thousandths>>, Fail> {
        let steps = [Stair {
            formula: 0,
            share: 500,
            bound: range(0, 200),
        }];
        let book: Stairs<Thousandths> = Stairs::over(&steps);
        let mut facts = [known(0, range(7, 7), 0, 0); 4];
        let mut course = [range(3, 3); 10];
        Ok(replay(
            rt.alloc(),
            &tables.house(),
            &book,
            calls,
            &mut facts,
            &mut course,
        )?)
    }

    // Plays calls where every feeder counts, and is low at 100 or less.
    fn play(
        calls: &[Call<Thousandths>],
        rt: &HostRuntime,
    ) -> Result<Vec<Answer<Thousandths>>, Fail> {
        play_on(calls, rt, &ThreeNodes::new(None, range(0, 100)))
    }

    #[test]
    fn a_shutdown_settles(rt: HostRuntime) -> Result<(), Fail> {
        let calls = [
            Call::File(known(0, range(0, 100), 0, 0)),
            Call::File(known(1, range(900, 1000), 0, 0)),
            Call::Settle,
            look(1, 0),
            look(1, 1),
            look(1, 2),
            look(0, 2),
        ];
        let answers = play(&calls, &rt)?;
        assert!(rt; answers.len() == 7);
        assert!(rt; matches!(answers[2], Answer::Settled));
        shows(&rt, answers[3], range(0, 100))?;
        shows(&rt, answers[4], range(900, 1000))?;
        shows(&rt, answers[5], range(0, 200))?;
        shows(&rt, answers[6], range(0, 1000))
    }

    #[test]
    fn a_contradiction_is_struck(rt: HostRuntime) -> Result<(), Fail> {
        let calls = [
            Call::File(known(0, range(0, 100), 0, 0)),
            Call::File(known(1, range(900, 1000), 0, 0)),
            Call::File(known(2, range(300, 1000), 1, 1)),
            Call::Settle,
            look(0, 0),
            Call::Strike(2),
            Call::Settle,
        ];
        let answers = play(&calls, &rt)?;
        assert!(rt; answers.len() == 7);
        let Answer::Contradiction(clash) = answers[3] else {
            return Err(Fail::new("no contradiction"));
        };
        let named = Clash {
            cell: cell(1, 2),
            place: 7,
        };
        assert_eq!(rt; clash, named);
        shows(&rt, answers[4], range(0, 1000))?;
        assert!(rt; matches!(answers[6], Answer::Settled));
        Ok(())
    }

    #[test]
    fn a_new_fact_can_loosen(rt: HostRuntime) -> Result<(), Fail> {
        // The fact at hour 1 ends the carrying from hour 0.
        let calls = [
            Call::File(known(0, range(0, 100), 0, 0)),
            Call::Settle,
            look(1, 0),
            Call::Reopen,
            look(1, 0),
            Call::File(known(0, range(0, 1000), 1, 1)),
            Call::Settle,
            look(1, 0),
            Call::Entails(known(0, range(0, 100), 0, 0)),
            Call::Entails(known(0, range(0, 100), 1, 1)),
        ];
        let answers = play(&calls, &rt)?;
        assert!(rt; answers.len() == 10);
        shows(&rt, answers[2], range(0, 100))?;
        shows(&rt, answers[4], range(0, 100))?;
        shows(&rt, answers[7], range(0, 1000))?;
        assert!(rt; matches!(answers[8], Answer::Entailed(true)));
        assert!(rt; matches!(answers[9], Answer::Entailed(false)));
        Ok(())
    }

    #[test]
    fn a_strike_can_loosen(rt: HostRuntime) -> Result<(), Fail> {
        let calls = [
            Call::File(known(0, range(0, 100), 0, 1)),
            Call::Settle,
            Call::File(known(0, range(0, 50), 0, 0)),
            Call::Reopen,
            Call::Strike(0),
            Call::Settle,
            look(1, 0),
            look(2, 0),
        ];
        let answers = play(&calls, &rt)?;
        assert!(rt; answers.len() == 8);
        assert!(rt; matches!(answers[2], Answer::Misplaced));
        assert!(rt; matches!(answers[5], Answer::Settled));
        shows(&rt, answers[6], range(0, 1000))?;
        let Answer::Refused(refusal) = answers[7] else {
            return Err(Fail::new("an hour past the last was seen"));
        };
        assert!(rt; refusal.number() == 15 && refusal.place() == 0);
        Ok(())
    }

    #[test]
    fn who_is_not_eligible_does_not_count(rt: HostRuntime) -> Result<(), Fail> {
        // No feeder is served, so none is eligible, though one is low; and a void test is met by nobody.
        let calls = [
            Call::File(known(0, range(0, 100), 0, 0)),
            Call::Settle,
            look(1, 2),
        ];
        let served_only = play_on(&calls, &rt, &ThreeNodes::new(Some(0), range(0, 100)))?;
        assert!(rt; served_only.len() == 3);
        shows(&rt, served_only[2], range(0, 1000))?;
        let never_low = play_on(&calls, &rt, &ThreeNodes::new(None, Thousandths::none()))?;
        assert!(rt; never_low.len() == 3);
        shows(&rt, never_low[2], range(0, 1000))
    }

    #[test]
    fn the_smallest_house(rt: HostRuntime) -> Result<(), Fail> {
        let house = House {
            sizes: Sizes {
                nodes: 1,
                edges: 0,
                fixed: 0,
                moving: 1,
                last: 0,
            },
            edges: &[],
            fixed: &[],
            tests: &[],
            conditions: &[],
            constraints: &[],
            rules: &[],
        };
        let steps: [Stair<Thousandths>; 0] = [];
        let book: Stairs<Thousandths> = Stairs::over(&steps);
        let fact = Fact {
            component: 0,
            label: 0,
            bound: range(5, 6),
            from: 0,
            to: 0,
        };
        let only = Cell {
            hour: 0,
            component: 0,
            label: 0,
        };
        let calls = [Call::File(fact), Call::Settle, Call::Look(only)];
        let mut facts = [fact; 1];
        let mut course = [Thousandths::loose(); 1];
        let answers = replay(rt.alloc(), &house, &book, &calls, &mut facts, &mut course)?;
        assert!(rt; answers.len() == 3);
        shows(&rt, answers[2], range(5, 6))
    }
}
