// Examples that are run.
#![tactic(auto)]

#[cfg(test)]
mod acceptance {
    use accept::accept::accept;
    use nodes::error::ArchiveError;
    use nodes::node::Node;
    use std::array;

    // A chain of nodes down to depth 30, where this data bitmap stands.
    fn chain(data_bitmap: u32) -> [Node; 7] {
        array::from_fn(|i| Node {
            data_bitmap: if i == 6 { data_bitmap } else { 0 },
            child_bitmap: if i == 6 { 0 } else { 1 },
            data_idx: 0,
            children_idx: i as u32 + 1,
        })
    }

    #[test]
    fn last_slots_of_32_bits(rt: HostRuntime) {
        assert_eq!(rt; accept::<u32, u8>(&chain(127), &[0u8; 7]), Ok(()));
    }

    #[test]
    fn slot_past_32_bits(rt: HostRuntime) {
        assert_eq!(rt;
            accept::<u32, u8>(&chain(128), &[0u8; 1]),
            Err(ArchiveError::DepthExceedsPrefixRepr)
        );
    }
}

#[cfg(test)]
mod sheets {
    use coverage::AddressCount;
    use judge::judge;
    use judge::report::Report;
    use nodes::error::ArchiveError;
    use sheet::error::ReadError;
    use sheet::head::Head;
    use std::test::Fail;

    #[test]
    fn accepted(rt: HostRuntime) {
        let text =
            "         16          1          0\n          0          0          0          1\n";
        let report = Report {
            head: Head {
                width: 16,
                nodes: 1,
                values: 0,
            },
            addresses: AddressCount::Number(0),
        };
        assert_eq!(rt; judge(rt.alloc(), text.as_bytes()), Ok(report));
    }

    // The whole key space and its lower half.
    #[test]
    fn all_covered(rt: HostRuntime) -> Result<(), Fail> {
        let text = "          8          1          2
          3          0          0          1
         11
         12
";
        let Ok(report) = judge(rt.alloc(), text.as_bytes()) else {
            return Err(Fail::new("not accepted"));
        };
        assert_eq!(rt; report.addresses, AddressCount::Whole);
        assert_eq!(rt;
            format!(in rt.alloc(); "{report}")?.as_str(),
            "keys of 8 bits, 1 nodes, 2 values; all addresses covered"
        );
        Ok(())
    }

    #[test]
    fn malformed(rt: HostRuntime) {
        let texts = [
            "",
            "         64          0          0\n",
            "          8        513          0\n",
            "          8          0       1025\n",
            "         08          0          0\n",
            "          8          0          0",
            "          8          0          0\n\n",
            "8                   0          0\n",
            "          8          0          1\n 4294967296\n",
            "          8          0          1\n          1",
        ];
        let malformed = ReadError::Fault(ArchiveError::SheetMalformed);
        for text in texts {
            assert_eq!(rt;
                judge(rt.alloc(), text.as_bytes()),
                Err(malformed),
                "{}",
                text
            );
        }
    }

    #[test]
    fn faults_pass_unchanged(rt: HostRuntime) {
        let no_root = "          8          0          0\n";
        assert_eq!(rt;
            judge(rt.alloc(), no_root.as_bytes()),
            Err(ReadError::Fault(ArchiveError::MissingRootNode))
        );
        let empty_root =
            "          8          1          0\n          0          0          0          0\n";
        assert_eq!(rt;
            judge(rt.alloc(), empty_root.as_bytes()),
            Err(ReadError::Fault(ArchiveError::NodeListInconsistent))
        );
    }
}

#[cfg(test)]
mod writing {
    use coverage::AddressCount;
    use judge::judge;
    use judge::report::Report;
    use nodes::error::{ArchiveError, NoSuchFault};
    use sheet::error::ReadError;
    use sheet::head::Head;
    use sheet::line::{append_lines, append_row};
    use sheet::reading::read;
    use sheet::writing::write;
    use std::fmt::Write;
    use std::test::Fail;

    // Node `i` of 512 under keys of 16 bits. The root has all its children; of these the first 14
    // have all theirs and one value, the next has all but one and one value, and the others have
    // three values; and their children have two.
    fn node(i: u16) -> [u32; 4] {
        let i = u32::from(i);
        match i {
            0 => [0, u32::MAX, 0, 1],
            1..=14 => [1 << 30, u32::MAX, i - 1, 32 * i + 1],
            15 => [1 << 30, u32::MAX >> 1, 14, 481],
            16..=32 => [7 << 15, 0, 3 * (i - 16) + 15, 512],
            _ => [3 << 15, 0, 2 * (i - 33) + 66, 512],
        }
    }

    // A line as std pads it.
    fn push_line(text: &mut String, numbers: &[u32]) -> Result<(), Fail> {
        for n in numbers {
            write!(text, "{n:>11}")?;
        }
        text.push('\n')?;
        Ok(())
    }

    #[test]
    fn largest_sheet(rt: HostRuntime) -> Result<(), Fail> {
        let mut text = String::new(rt.alloc());
        push_line(&mut text, &[16, 512, 1024])?;
        for i in 0..512 {
            push_line(&mut text, &node(i))?;
        }
        for i in 0..1024 {
            push_line(&mut text, &[u32::MAX - i])?;
        }
        let Ok(sheet) = read(rt.alloc(), text.as_bytes()) else {
            return Err(Fail::new("not read"));
        };
        let written = write(rt.alloc(), &sheet)?;
        assert!(rt; written.as_slice() == text.as_bytes());
        let report = Report {
            head: Head {
                width: 16,
                nodes: 512,
                values: 1024,
            },
            addresses: AddressCount::Number(12048),
        };
        assert_eq!(rt; judge(rt.alloc(), written.as_slice()), Ok(report));
        Ok(())
    }

    #[test]
    fn appended_lines(rt: HostRuntime) -> Result<(), Fail> {
        let mut text = Vec::new(rt.alloc());
        append_row(&mut text, &[4294967295, 0, 4294967295, 1000000000])?;
        append_lines::<u32, 1>(&mut text, &[7, 4294967295])?;
        let lines = " 4294967295          0 4294967295 1000000000\n          7\n 4294967295\n";
        assert!(rt; text.as_slice() == lines.as_bytes());
        Ok(())
    }

    #[test]
    fn texts_of_errors(rt: HostRuntime) -> Result<(), Fail> {
        let alloc = rt.alloc();
        let unread = ReadError::Fault(ArchiveError::SheetMalformed);
        let unknown = NoSuchFault(u32::MAX);
        assert_eq!(rt;
            format!(in alloc; "{unread}; {}; {unknown}", ReadError::OutOfMemory)?.as_str(),
            "SheetMalformed: the sheet is not in its form; out of memory; no fault has the number 4294967295"
        );
        Ok(())
    }
}

#[cfg(test)]
mod images {
    use accept::accept::accept;
    use accept::image::Image;
    use coverage::{AddressCount, address_count, is_covered_in_aggregate};
    use matches::{get, get_lpm, get_spm, value};
    use nodes::error::ArchiveError;
    use nodes::node::Node;
    use prefix::pair::Pair;
    use std::test::Fail;

    // Two nodes and six values under keys of 8 bits.
    fn six_blocks() -> ([Node; 2], [u32; 6]) {
        (
            [
                Node::from([66, 4_194_304, 0, 1]),
                Node::from([24_610, 0, 2, 2]),
            ],
            [11, 12, 13, 14, 15, 16],
        )
    }

    #[test]
    fn covered_blocks(rt: HostRuntime) -> Result<(), Fail> {
        let (nodes, values) = six_blocks();
        if let Err(_) = accept::<u8, u32>(&nodes, &values) {
            return Err(Fail::new("not accepted"));
        }
        let image = Image::new::<u8>(&nodes, &values);
        let filled = Pair {
            repr: 177u8,
            len: 5,
        };
        assert_eq!(rt; is_covered_in_aggregate(&image, &filled), Ok(true));
        let half_filled = Pair {
            repr: 176u8,
            len: 4,
        };
        assert_eq!(rt; is_covered_in_aggregate(&image, &half_filled), Ok(false));
        assert_eq!(rt; address_count(&image), AddressCount::Number(200));
        Ok(())
    }

    #[test]
    fn refused_queries(rt: HostRuntime) -> Result<(), Fail> {
        let (nodes, values) = six_blocks();
        if let Err(_) = accept::<u8, u32>(&nodes, &values) {
            return Err(Fail::new("not accepted"));
        }
        let image = Image::new::<u8>(&nodes, &values);
        let long = Pair {
            repr: 178u8,
            len: 9,
        };
        assert_eq!(rt; get(&image, &long), Err(ArchiveError::LengthExceedsKey));
        assert_eq!(rt; get_lpm(&image, &long), Err(ArchiveError::LengthExceedsKey));
        assert_eq!(rt; get_spm(&image, &long), Err(ArchiveError::LengthExceedsKey));
        assert_eq!(rt;
            is_covered_in_aggregate(&image, &long),
            Err(ArchiveError::LengthExceedsKey)
        );
        let wide = Pair {
            repr: 178u32,
            len: 40,
        };
        assert_eq!(rt; get(&image, &wide), Err(ArchiveError::KeyWidthDiffers));
        assert_eq!(rt; get_lpm(&image, &wide), Err(ArchiveError::KeyWidthDiffers));
        assert_eq!(rt; get_spm(&image, &wide), Err(ArchiveError::KeyWidthDiffers));
        assert_eq!(rt;
            is_covered_in_aggregate(&image, &wide),
            Err(ArchiveError::KeyWidthDiffers)
        );
        assert_eq!(rt; value(&image, 6), Err(ArchiveError::NoSuchPlace));
        Ok(())
    }
}
