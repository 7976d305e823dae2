// Tests of the exploration on examples.
#![tactic(auto)]

#[cfg(test)]
mod tests {
    use exploration::{ROW_LENGTH, open, question, take_answer};
    use std::process::Abort;
    use std::test::Fail;

    // The number and the place of the refusal to open a row of a length.
    fn refused(
        rt: &(impl Abort + AllocGlobal),
        length: usize,
        n: u64,
        number: u64,
        place: u64,
    ) -> Result<(), Fail> {
        let mut row = vec![in rt.alloc(); 7u64; length]?;
        let opened = open(row.as_mut_slice(), n);
        let opened = opened.map_err(|refusal| (refusal.number(), refusal.place()));
        assert_eq!(rt; opened, Err((number, place)));
        Ok(())
    }

    // The first question about n attributes, as text.
    fn first_question(rt: &(impl Abort + AllocGlobal), n: u64, text: &str) -> Result<(), Fail> {
        let mut row = vec![in rt.alloc(); 7u64; ROW_LENGTH + 1]?;
        assert!(rt; open(row.as_mut_slice(), n).is_ok());
        let asked = format!(in rt.alloc(); "{}", question(row.as_slice()))?;
        assert_eq!(rt; asked.as_str(), text);
        Ok(())
    }

    #[test]
    fn opening_refuses(rt: HostRuntime) -> Result<(), Fail> {
        refused(&rt, 0, 5, 1, 0)?;
        refused(&rt, ROW_LENGTH - 1, 13, 1, 12290)?;
        refused(&rt, ROW_LENGTH, 13, 2, 0)
    }

    #[test]
    fn opening_asks(rt: HostRuntime) -> Result<(), Fail> {
        first_question(&rt, 0, "finished")?;
        first_question(&rt, 1, "all with - have 0?")?;
        first_question(&rt, 12, "all with - have 0 1 2 3 4 5 6 7 8 9 10 11?")
    }

    #[test]
    fn opening_writes(rt: HostRuntime) -> Result<(), Fail> {
        let mut row = vec![in rt.alloc(); 7u64; ROW_LENGTH]?;
        assert!(rt; open(row.as_mut_slice(), 13).is_err());
        assert!(rt; row.starts_with(&[7]), "a refusal leaves the row");
        open(row.as_mut_slice(), 12)?;
        assert!(rt;
            row.starts_with(&[12, 0, 0, 7]),
            "what stands behind the counts is as it was"
        );
        Ok(())
    }

    // A row of n attributes with these implications, two numbers each, and these examples.
    fn row(
        rt: &HostRuntime,
        n: u64,
        implications: &[u64],
        examples: &[u64],
    ) -> Result<Vec<u64>, Fail> {
        let mut row = vec![in rt.alloc(); 0u64; ROW_LENGTH]?;
        write(
            &mut row,
            0,
            &[n, implications.len() as u64 / 2, examples.len() as u64],
        );
        write(&mut row, 3, implications);
        write(&mut row, 8195, examples);
        Ok(row)
    }

    fn write(row: &mut Vec<u64>, at: usize, numbers: &[u64]) {
        for (slot, number) in row.iter_mut().skip(at).zip(numbers) {
            *slot = *number;
        }
    }

    // What is asked in a row, as text.
    fn asks(rt: &(impl Abort + AllocGlobal), row: Vec<u64>, text: &str) -> Result<(), Fail> {
        let asked = format!(in rt.alloc(); "{}", question(row.as_slice()))?;
        assert_eq!(rt; asked.as_str(), text);
        Ok(())
    }

    // Rows that no exploration reaches: what is asked was found by going through all sets.
    #[test]
    fn arbitrary_rows(rt: HostRuntime) -> Result<(), Fail> {
        let r = &rt;
        asks(
            r,
            row(r, 4, &[2, 8, 5, 2], &[11, 4])?,
            "all with 3 have 0 1 3?",
        )?;
        asks(
            r,
            row(r, 4, &[0, 4, 4, 1], &[6, 3])?,
            "all with 0 2 have 0 1 2 3?",
        )?;
        asks(r, row(r, 3, &[7, 7], &[5, 5])?, "all with - have 0 2?")?;
        asks(
            r,
            row(r, 5, &[1, 2, 2, 4, 4, 31], &[0])?,
            "all with 4 have 0 1 2 3 4?",
        )?;
        asks(r, row(r, 3, &[0, 7], &[])?, "finished")?;
        asks(
            r,
            row(r, 6, &[1, 2, 4, 8, 16, 32, 2, 16], &[51, 12, 48, 0])?,
            "all with 5 have 4 5?",
        )
    }

    #[test]
    fn bad_rows(rt: HostRuntime) -> Result<(), Fail> {
        let r = &rt;
        asks(r, Vec::new(r.alloc()), "refused 1 at 0")?;
        asks(r, row(r, 13, &[], &[])?, "refused 2 at 0")?;
        asks(r, row(r, 3, &[1, 8], &[8])?, "refused 2 at 4")?;
        asks(r, row(r, 3, &[1, 7], &[0, 8])?, "refused 2 at 8196")?;
        let mut counts = row(r, 13, &[], &[])?;
        write(&mut counts, 1, &[4097, 4097]);
        asks(r, counts, "refused 1 at 1")?;
        let mut counts = row(r, 13, &[], &[])?;
        write(&mut counts, 1, &[4096, 4097]);
        asks(r, counts, "refused 1 at 2")
    }

    // The reply to an answer, as text, and how many implications and examples the row counts then.
    fn replies(
        rt: &(impl Abort + AllocGlobal),
        row: &mut Vec<u64>,
        answer: &[u64],
        text: &str,
        counts: [u64; 2],
    ) -> Result<(), Fail> {
        let reply = format!(in rt.alloc(); "{}", take_answer(row.as_mut_slice(), answer))?;
        assert_eq!(rt; reply.as_str(), text);
        assert!(rt; row.get(1..3) == Some(&counts));
        Ok(())
    }

    #[test]
    fn answers_of_every_shape(rt: HostRuntime) -> Result<(), Fail> {
        let mut known = row(&rt, 2, &[2, 3], &[1])?;
        replies(&rt, &mut known, &[], "refused 3 at 0", [1, 1])?;
        replies(&rt, &mut known, &[1], "refused 3 at 1", [1, 1])?;
        replies(&rt, &mut known, &[2, 0], "refused 3 at 0", [1, 1])?;
        replies(&rt, &mut known, &[0, 1], "refused 3 at 1", [1, 1])?;
        replies(&rt, &mut known, &[1, 4], "refused 3 at 1", [1, 1])?;
        replies(&rt, &mut known, &[1, 1], "refused 5 at 1", [1, 1])?;
        replies(&rt, &mut known, &[1, 2], "refused 6 at 0", [1, 1])?;
        replies(&rt, &mut known, &[1, 0, 9], "finished", [1, 2])?;
        replies(&rt, &mut known, &[0, 0], "refused 4 at 0", [1, 2])
    }

    // Rows that no exploration fills: each kind of answer needs room of its own kind only.
    #[test]
    fn full_rows(rt: HostRuntime) -> Result<(), Fail> {
        let mut known = row(&rt, 2, &[], &[])?;
        write(&mut known, 1, &[4096, 0]);
        replies(&rt, &mut known, &[0, 0], "refused 7 at 1", [4096, 0])?;
        replies(&rt, &mut known, &[1, 0], "all with 1 have 0 1?", [4096, 1])?;
        write(&mut known, 1, &[0, 4096]);
        replies(&rt, &mut known, &[1, 2], "refused 7 at 2", [0, 4096])?;
        replies(&rt, &mut known, &[0, 0], "all with 0 have 0 1?", [1, 4096])
    }
}
