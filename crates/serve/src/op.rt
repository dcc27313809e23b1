// The operations that are measured.
ghost use Rattle.std.specs.Prelude.{◌≡◌, Some};
ghost use Rattle.serve.specs.Ops.{name_of, Named};

use std::fmt;
use std::str::FromStr;

#[derive(Clone, Copy, PartialEq, Eq)]
pub enum Op {
    Acceptance,
    Exact,
    Longest,
    LongestValue,
    LongestValueChained,
    Shortest,
    Covered,
    CoveredWide,
    Count,
}

impl Op {
    fn name(self) -> &'static str
        ensures { result.now ≡ name_of self }
    {
        match self {
            Op::Acceptance => "acceptance",
            Op::Exact => "exact",
            Op::Longest => "longest",
            Op::LongestValue => "longest_value",
            Op::LongestValueChained => "longest_value_chained",
            Op::Shortest => "shortest",
            Op::Covered => "covered",
            Op::CoveredWide => "covered_wide",
            Op::Count => "count",
        }
    }
}

impl fmt::Display for Op {
    ghost output = { λ op. Some (name_of op) };

    fn fmt<W: fmt::Write>(&self, f: &mut fmt::Formatter<W>) -> fmt::Result {
        f.write_str(self.name())
    }
}

// A name that no operation has.
pub struct UnknownOp;

impl FromStr for Op {
    type Err = UnknownOp;

    ghost from_str_gives = { Named };

    #[tactic(auto, using(crate::proofs::Names::no_operation))]
    fn from_str(name: &str) -> Result<Op, UnknownOp> {
        match name {
            "acceptance" => Ok(Op::Acceptance),
            "exact" => Ok(Op::Exact),
            "longest" => Ok(Op::Longest),
            "longest_value" => Ok(Op::LongestValue),
            "longest_value_chained" => Ok(Op::LongestValueChained),
            "shortest" => Ok(Op::Shortest),
            "covered" => Ok(Op::Covered),
            "covered_wide" => Ok(Op::CoveredWide),
            "count" => Ok(Op::Count),
            _ => Err(UnknownOp),
        }
    }
}
