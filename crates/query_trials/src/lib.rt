// Queries that are run on an image with keys of 8 bits, the sheet of docs/FORMAT.md with six sites,
// and answers written by hand; and the largest input that can be loaded.
#![tactic(auto)]

#[cfg(test)]
mod bytes {
    use accept::accept::accept;
    use accept::image::Image;
    use keys::Key;
    use query::input::load;
    use query::lines::Lines;
    use query::response::respond;
    use query::site::Site;
    use std::alloc::AllocError;
    use std::test::Fail;

    const INPUT: &str = "          8          2          6
         66    4194304          0          1
      24610          0          2          2
         11
         12
         13
         14
         15
         16
          1          1       1001
          1          2       1002
          2          1       1003
          2          2 4294967295
          3          1       1005
          3          2       1006
178
180/7
255/3
188
300
300/9
10.0.0.1
9/9
4294967295/4294967295
x

9";

    const ANSWERS: &str = "178: 176/6 at place 2: dam 2, borehole 1, logger 1003
180/7: 180/7 at place 3: dam 2, borehole 2, logger 4294967295
255/3: 192/2 at place 1: dam 1, borehole 2, logger 1002
188: no match
300: fault 15, no key of this width
300/9: fault 15, no key of this width
10.0.0.1: fault 15, no key of this width
9/9: fault 12, LengthExceedsKey: the prefix is longer than the key
4294967295/4294967295: fault 15, no key of this width
line 10: fault 15, no query
line 11: fault 15, no query
9: 0/1 at place 0: dam 1, borehole 1, logger 1001
";

    // The answer to a line, by keys of this kind.
    fn answer<K: Key + Drop>(
        rt: &HostRuntime,
        image: &Image<Site>,
        number: u64,
        line: &[u8],
    ) -> Result<String, AllocError> {
        match respond::<K>(image, number, line) {
            Ok(answered) => format!(in rt.alloc(); "{answered}\n"),
            Err(no_query) => format!(in rt.alloc(); "{no_query}\n"),
        }
    }

    #[test]
    fn queries(rt: HostRuntime) -> Result<(), Fail> {
        let Ok(input) = load(rt.alloc(), INPUT.as_bytes()) else {
            return Err(Fail::new("no input"));
        };
        let nodes = input.sheet.nodes.as_slice();
        let sites = input.sites.as_slice();
        let Ok(()) = accept::<u8, Site>(nodes, sites) else {
            return Err(Fail::new("not accepted"));
        };
        let image = Image::new::<u8>(nodes, sites);
        let mut answers = String::new(rt.alloc());
        for (number, line) in (1u64..).zip(Lines::of(input.queries)) {
            answers.push_str(answer::<u8>(&rt, &image, number, line)?.as_str())?;
        }
        assert_eq!(rt; answers.as_str(), ANSWERS);
        let wider = answer::<u16>(&rt, &image, 1, b"300/17")?;
        assert_eq!(rt;
            wider.as_str(),
            "300/17: fault 13, KeyWidthDiffers: the key is not as wide as the keys of the image\n"
        );
        Ok(())
    }
}

#[cfg(test)]
mod largest {
    use query::input::load;
    use query::site::Site;
    use std::fmt::Write;
    use std::test::Fail;

    // A line as std pads it.
    fn push_line(text: &mut String, numbers: &[u32]) -> Result<(), Fail> {
        for n in numbers {
            write!(text, "{n:>11}")?;
        }
        text.push('\n')?;
        Ok(())
    }

    #[test]
    fn input(rt: HostRuntime) -> Result<(), Fail> {
        let mut text = String::new(rt.alloc());
        push_line(&mut text, &[32, 512, 1024])?;
        for i in 0..512 {
            push_line(&mut text, &[u32::MAX, i, 0, u32::MAX])?;
        }
        for i in 0..1024 {
            push_line(&mut text, &[i])?;
        }
        for i in 0..1024 {
            push_line(&mut text, &[i, u32::MAX - i, u32::MAX])?;
        }
        text.push_str("4294967295/4294967295")?;
        let Ok(input) = load(rt.alloc(), text.as_bytes()) else {
            return Err(Fail::new("not loaded"));
        };
        assert_eq!(rt; input.sheet.nodes.len(), 512);
        assert_eq!(rt; input.sheet.values.len(), 1024);
        let last = Site {
            dam: 1023,
            borehole: u32::MAX - 1023,
            logger: u32::MAX,
        };
        assert_eq!(rt; input.sites.len(), 1024);
        assert_eq!(rt; input.sites.last(), Some(&last));
        assert!(rt; input.queries == b"4294967295/4294967295".as_slice());
        Ok(())
    }
}
