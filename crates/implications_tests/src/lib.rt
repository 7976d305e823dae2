// Tests of attribute sets, contexts and implications on a context from the textbook of Ganter and Wille, "Formal Concept Analysis", 1999:
// living beings and water. Attributes: 0 needs water to live, 1 lives in water, 2 lives on land, 3 needs chlorophyll, 4 has two seed leaves,
// 5 has one seed leaf, 6 can move around, 7 has limbs, 8 suckles its offspring.
#![tactic(auto)]

#[cfg(test)]
mod tests {
    use attributes::{AttributeCount, AttributeSet};
    use contexts::{Context, Implication};
    use implications::Implications;
    use std::test::Fail;

    // leech, bream, frog, dog, spike-weed, reed, bean, maize; each crate of tests has its own, to be read alone
    const BEINGS: [u64; 8] = [
        0b0_0100_0011,
        0b0_1100_0011,
        0b0_1100_0111,
        0b1_1100_0101,
        0b0_0010_1011,
        0b0_0010_1111,
        0b0_0001_1101,
        0b0_0010_1101,
    ];

    // what can move needs water; what has limbs can move; what suckles lives on land and has limbs
    const RULES: [u64; 6] = [
        0b0_0100_0000,
        0b0_0000_0001,
        0b0_1000_0000,
        0b0_0100_0000,
        0b1_0000_0000,
        0b0_1000_0100,
    ];

    fn nine() -> Result<AttributeCount, Fail> {
        Ok(AttributeCount::try_from(9)?)
    }

    fn set(number: u64) -> Result<AttributeSet, Fail> {
        Ok(AttributeSet::from_number(nine()?, number).ok_or("an attribute that is not there")?)
    }

    fn implication(premise: u64, conclusion: u64) -> Result<Implication, Fail> {
        Ok(Implication {
            premise: set(premise)?,
            conclusion: set(conclusion)?,
        })
    }

    fn beings() -> Result<Context<'static>, Fail> {
        Ok(Context {
            n: nine()?,
            objects: &BEINGS,
        })
    }

    fn rules() -> Result<Implications<'static>, Fail> {
        Ok(Implications {
            n: nine()?,
            numbers: &RULES,
        })
    }

    #[test]
    fn beings_in_common(rt: HostRuntime) -> Result<(), Fail> {
        let beings = beings()?;
        for (asked, answer, note) in [
            (0, 0b0_0000_0001, "all need water"),
            (0b0_0000_1000, 0b0_0000_1001, "chlorophyll"),
            (0b0_1000_0000, 0b0_1100_0001, "limbs"),
            (0b0_0000_0110, 0b0_0000_0111, "in water and on land"),
            (0b1_0000_0000, 0b1_1100_0101, "the dog"),
            (
                0b0_0011_0000,
                0b1_1111_1111,
                "no plant has both kinds of seed leaves",
            ),
        ] {
            assert_eq!(rt; u64::from(beings.common(set(asked)?)), answer, "{note}");
        }
        Ok(())
    }

    #[test]
    fn beings_break(rt: HostRuntime) -> Result<(), Fail> {
        let beings = beings()?;
        let limbs_move = implication(0b0_1000_0000, 0b0_0100_0000)?;
        let water_moves = implication(0b0_0000_0010, 0b0_0100_0000)?;
        assert!(rt; beings.holds(limbs_move));
        assert!(rt; !beings.holds(water_moves));
        assert_eq!(rt; beings.first_counterexample(limbs_move), None);
        assert_eq!(rt;
            beings.first_counterexample(water_moves),
            Some(4),
            "spike-weed"
        );
        Ok(())
    }

    #[test]
    fn rules_close(rt: HostRuntime) -> Result<(), Fail> {
        let rules = rules()?;
        assert_eq!(rt;
            u64::from(rules.close(set(0b1_0000_0000)?)),
            0b1_1100_0101,
            "two passes"
        );
        assert_eq!(rt; u64::from(rules.close(set(0b0_0000_1000)?)), 0b0_0000_1000);
        assert_eq!(rt; rules.first_broken(set(0b0_1000_0000)?), Some(1));
        assert_eq!(rt; rules.first_broken(set(0b0_1100_0001)?), None);
        assert!(rt; rules.follows(implication(0b1_0000_0000, 0b0_0100_0001)?));
        assert!(rt; !rules.follows(implication(0b0_0100_0000, 0b0_1000_0000)?));
        Ok(())
    }

    #[test]
    fn sets_compare(rt: HostRuntime) -> Result<(), Fail> {
        let n = nine()?;
        let two = set(0b0_0000_0100)?;
        let one_two = set(0b0_0000_0110)?;
        let zero = set(0b0_0000_0001)?;
        assert!(rt; two < one_two && one_two < zero && !(zero < two));
        assert!(rt; !(two < two) && two.contains(2) && !two.contains(1) && !two.contains(200));
        assert_eq!(rt; u64::from(two.with(8).join(zero)), 0b1_0000_0101);
        assert_eq!(rt; one_two.meet(two).missing(n), 8);
        assert!(rt; AttributeSet::from_number(n, 512).is_none());
        assert!(rt; AttributeCount::try_from(13).is_err());
        Ok(())
    }
}
