ghost use Rattle.judge.specs.Reports.{report_text};
ghost use Rattle.std.specs.Prelude.{Some};

use coverage::AddressCount;
use sheet::head::Head;
use std::fmt;

// What is told of an accepted sheet: its head, and how many addresses its image matches.
#[derive(Clone, Copy, PartialEq, Eq, Debug)]
pub struct Report {
    pub head: Head,
    pub addresses: AddressCount,
}

impl fmt::Display for Report {
    ghost output = { λ r. Some (report_text r) };

    fn fmt<W: fmt::Write>(&self, f: &mut fmt::Formatter<W>) -> fmt::Result {
        let Head {
            width,
            nodes,
            values,
        } = self.head;
        write!(f, "keys of {width} bits, {nodes} nodes, {values} values; ")?;
        match self.addresses {
            AddressCount::Number(count) => write!(f, "{count} addresses covered"),
            AddressCount::Whole => f.write_str("all addresses covered"),
        }
    }
}
