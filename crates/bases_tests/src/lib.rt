// Tests of bases and comparisons: on the textbook context of living beings and water (implications_tests has its attributes), and on lists.
#![tactic(auto)]

#[cfg(test)]
mod tests {
    use attributes::AttributeCount;
    use bases::{BASE_LENGTH, Refusal, base_of_context, base_of_list, implications_of};
    use comparisons::compare;
    use implications::Implications;
    use reading::{behind_list, context_from_bytes, list_from_bytes};
    use std::process::Abort;
    use std::test::Fail;

    // leech, bream, frog, dog, spike-weed, reed, bean, maize; each crate of tests has its own, to be read alone
    const BEINGS: [u64; 10] = [
        9,
        8,
        0b0_0100_0011,
        0b0_1100_0011,
        0b0_1100_0111,
        0b1_1100_0101,
        0b0_0010_1011,
        0b0_0010_1111,
        0b0_0001_1101,
        0b0_0010_1101,
    ];

    // The reply and how many implications were written, as text; the output held 7 everywhere.
    fn told(
        rt: &(impl Abort + AllocGlobal),
        reply: Result<(), Refusal>,
        base: &[u64],
        text: &str,
        note: &str,
    ) -> Result<(), Fail> {
        assert!(rt; base.len() > 2);
        let told = match reply {
            Ok(()) => format!(in rt.alloc(); "written {} of {}", base[1], base[0])?,
            Err(refusal) => {
                assert!(rt;
                    base.starts_with(&[7, 7, 7]),
                    "a refusal leaves the output: {note}"
                );
                format!(in rt.alloc(); "{refusal}")?
            }
        };
        assert_eq!(rt; told.as_str(), text, "{note}");
        Ok(())
    }

    fn context_told(
        rt: &(impl Abort + AllocGlobal),
        context: &[u64],
        length: usize,
        text: &str,
        note: &str,
    ) -> Result<(), Fail> {
        let mut base = vec![in rt.alloc(); 7u64; length]?;
        let reply = base_of_context(context, base.as_mut_slice());
        told(rt, reply, base.as_slice(), text, note)
    }

    fn list_told(
        rt: &(impl Abort + AllocGlobal),
        list: &[u64],
        text: &str,
        note: &str,
    ) -> Result<(), Fail> {
        let mut base = vec![in rt.alloc(); 7u64; BASE_LENGTH]?;
        let reply = base_of_list(list, base.as_mut_slice());
        told(rt, reply, base.as_slice(), text, note)
    }

    // The implication at a place of a list of so many attributes, as text.
    fn at(
        rt: &(impl Abort + AllocGlobal),
        n: u64,
        row: &[u64],
        place: usize,
        text: &str,
    ) -> Result<(), Fail> {
        let list = Implications {
            n: AttributeCount::try_from(n)?,
            numbers: implications_of(row),
        };
        let implication = list.nth(place).ok_or("the list is shorter")?;
        let told = format!(in rt.alloc(); "{implication}")?;
        assert_eq!(rt; told.as_str(), text);
        Ok(())
    }

    #[test]
    fn beings(rt: HostRuntime) -> Result<(), Fail> {
        context_told(&rt, &BEINGS, BASE_LENGTH, "written 10 of 9", "beings")?;
        let mut base = vec![in rt.alloc(); 7u64; BASE_LENGTH + 1]?;
        base_of_context(&BEINGS, base.as_mut_slice())?;
        at(&rt, 9, base.as_slice(), 0, "-: 0")?;
        at(&rt, 9, base.as_slice(), 1, "0 8: 0 2 6 7 8")?;
        at(&rt, 9, base.as_slice(), 8, "0 1 3: 0 1 3 5")?;
        at(&rt, 9, base.as_slice(), 9, "0 1 2 6 7 8: 0 1 2 3 4 5 6 7 8")?;
        assert!(rt; base.len() > 22);
        assert_eq!(rt; base[22], 7, "what stands behind the list is as it was");
        Ok(())
    }

    // The yard of the worked dialogue: the base is what that dialogue confirms.
    #[test]
    fn worked_yard(rt: HostRuntime) -> Result<(), Fail> {
        let yard = [5, 6, 0b00111, 0b01001, 0b01111, 0b11001, 0b00000, 0b00100];
        let mut base = vec![in rt.alloc(); 7u64; BASE_LENGTH]?;
        base_of_context(&yard, base.as_mut_slice())?;
        let list = Implications {
            n: AttributeCount::try_from(5)?,
            numbers: implications_of(base.as_slice()),
        };
        let text = format!(in rt.alloc(); "{list}")?;
        assert_eq!(rt; text.as_str(), "4: 0 3 4\n3: 0 3\n1: 0 1 2\n0 2: 0 1 2\n");
        Ok(())
    }

    #[test]
    fn contexts_at_the_limits(rt: HostRuntime) -> Result<(), Fail> {
        context_told(&rt, &[0, 0], BASE_LENGTH, "written 0 of 0", "no attributes")?;
        context_told(
            &rt,
            &[3, 0],
            BASE_LENGTH,
            "written 1 of 3",
            "no object has any",
        )?;
        context_told(
            &rt,
            &[1, 2, 0, 1],
            BASE_LENGTH,
            "written 0 of 1",
            "one object without and one with it",
        )?;
        context_told(
            &rt,
            &[12, 1, 4095, 99999],
            BASE_LENGTH,
            "written 1 of 12",
            "behind the rows anything may stand",
        )?;
        context_told(
            &rt,
            &[5, 0],
            BASE_LENGTH - 1,
            "refused 1 at 8193",
            "the output is too short",
        )?;
        context_told(&rt, &[13, 1], 100, "refused 1 at 100", "1 is told before 2")?;
        context_told(
            &rt,
            &[13, 1],
            BASE_LENGTH,
            "refused 2 at 0",
            "2 is told before 8",
        )?;
        context_told(
            &rt,
            &[13],
            BASE_LENGTH,
            "refused 2 at 0",
            "2 is told before a count that is missing",
        )?;
        context_told(&rt, &[], BASE_LENGTH, "refused 8 at 0", "nothing is lent")?;
        context_told(&rt, &[4], BASE_LENGTH, "refused 8 at 0", "no count")?;
        context_told(
            &rt,
            &[4, 3, 1, 2],
            BASE_LENGTH,
            "refused 8 at 2",
            "cut short",
        )?;
        context_told(
            &rt,
            &[4, 9, 1, 16],
            BASE_LENGTH,
            "refused 8 at 1",
            "an attribute that is not there",
        )
    }

    #[test]
    fn too_many_rows(rt: HostRuntime) -> Result<(), Fail> {
        let mut row = vec![in rt.alloc(); 1u64; 5000]?;
        row[1] = 4096;
        context_told(
            &rt,
            row.as_slice(),
            BASE_LENGTH,
            "written 1 of 1",
            "as many as there may be",
        )?;
        row[1] = 4097;
        context_told(
            &rt,
            row.as_slice(),
            BASE_LENGTH,
            "refused 8 at 4096",
            "one more",
        )?;
        row[4000] = 2;
        context_told(
            &rt,
            row.as_slice(),
            BASE_LENGTH,
            "refused 8 at 3998",
            "the first row at fault",
        )
    }

    #[test]
    fn lists_at_the_limits(rt: HostRuntime) -> Result<(), Fail> {
        list_told(&rt, &[3, 0], "written 0 of 3", "no rules")?;
        list_told(&rt, &[3, 1, 1, 1], "written 0 of 3", "says nothing")?;
        list_told(
            &rt,
            &[3, 2, 1, 2, 1, 4],
            "written 1 of 3",
            "two with one premise",
        )?;
        list_told(
            &rt,
            &[3, 2, 1, 2, 1],
            "refused 8 at 1",
            "cut short in the middle",
        )?;
        list_told(
            &rt,
            &[3, 1, 1, 8],
            "refused 8 at 0",
            "a conclusion that is not there",
        )?;
        list_told(
            &rt,
            &[3, 1, 8, 1],
            "refused 8 at 0",
            "a premise that is not there",
        )?;
        list_told(&rt, &[14, 0], "refused 2 at 0", "too many attributes")
    }

    // 80 implications over 12 attributes, where eleven say the same: each attribute brings every later one, and some say it again.
    #[test]
    fn eighty_reduce_to_eleven(rt: HostRuntime) -> Result<(), Fail> {
        let mut list = vec![in rt.alloc(); 12u64; 1]?;
        list.push(80)?;
        for earlier in 0..11u64 {
            for later in earlier + 1..12u64 {
                list.push(1u64 << earlier)?;
                list.push(1u64 << later)?;
            }
        }
        for earlier in 0..7u64 {
            list.push(5u64 << earlier)?;
            list.push(2048)?;
            list.push(1u64 << earlier)?;
            list.push(3u64 << earlier)?;
        }
        assert_eq!(rt; list.len(), 162);
        list_told(&rt, list.as_slice(), "written 11 of 12", "eighty rules")?;
        let mut base = vec![in rt.alloc(); 7u64; BASE_LENGTH]?;
        base_of_list(list.as_slice(), base.as_mut_slice())?;
        at(&rt, 12, base.as_slice(), 0, "10: 10 11")?;
        compared(
            &rt,
            12,
            implications_of(list.as_slice()),
            implications_of(base.as_slice()),
            "same",
        )
    }

    fn compared(
        rt: &(impl Abort + AllocGlobal),
        n: u64,
        one: &[u64],
        other: &[u64],
        text: &str,
    ) -> Result<(), Fail> {
        let n = AttributeCount::try_from(n)?;
        let told = format!(in rt.alloc(); "{}", compare(n, one, other))?;
        assert_eq!(rt; told.as_str(), text);
        Ok(())
    }

    #[test]
    fn comparisons(rt: HostRuntime) -> Result<(), Fail> {
        compared(&rt, 3, &[], &[], "same")?;
        compared(&rt, 3, &[1, 1], &[], "same")?;
        compared(&rt, 3, &[1, 6], &[1, 2, 1, 4], "same")?;
        compared(
            &rt,
            3,
            &[1, 2, 2, 4],
            &[1, 2],
            "not in the second: 1: 2, as 1",
        )?;
        compared(&rt, 3, &[1, 2], &[1, 6], "not in the first: 0: 1 2, as 0 1")?;
        compared(
            &rt,
            3,
            &[1, 2, 2, 4],
            &[1, 2, 4, 1],
            "not in the second: 1: 2, as 1\nnot in the first: 2: 0, as 2",
        )
    }

    #[test]
    fn bytes_to_rows(rt: HostRuntime) -> Result<(), Fail> {
        let context = context_from_bytes(rt.alloc(), 12, &[0x11, 0x02, 0x02, 0x00, 0x01])?;
        assert!(rt; context.as_slice() == [12, 3, 0x102, 65536].as_slice());
        let bytes = [0, 1, 0x01, 0x02, 0x00, 0x03, 0, 2, 0, 0, 0];
        let first = list_from_bytes(rt.alloc(), 9, &bytes)?;
        assert!(rt; first.as_slice() == [9, 1, 0x102, 3].as_slice());
        let second = list_from_bytes(rt.alloc(), 9, behind_list(&bytes))?;
        assert!(rt; second.as_slice() == [9, 2, 0].as_slice());
        let third = list_from_bytes(rt.alloc(), 9, behind_list(behind_list(&bytes)))?;
        assert!(rt; third.as_slice() == [9].as_slice());
        Ok(())
    }
}
