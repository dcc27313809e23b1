// The answers of a pass, and what is kept of them in their order: a sum, or a digest, which tells
// apart what a sum does not.
ghost use Rattle.std.specs.Prelude.{◌≡◌, ◌+◌, ◌%◌, ◌^◌, ℕ, Option};
ghost use Rattle.serve.specs.declared.tally.Answer.{Answer};
ghost use Rattle.serve.specs.Answers.{added, summed, hashed, digested};

#[derive(Clone, Copy)]
pub enum Answer {
    // Whether the lists were refused.
    Verdict { refused: bool },
    Value(u32),
    Entry { address: u64, len: u8, value: u32 },
    Covered(bool),
    // How many addresses, the largest number for all.
    Count(u64),
}

impl Answer {
    // What it adds to a sum.
    #[inline(always)]
    fn adds(self) -> u64
        ensures { result ≡ added self % 2 ^ 64 }
    {
        match self {
            Answer::Verdict { refused } => u64::from(refused),
            Answer::Value(value) => u64::from(value) + 1,
            Answer::Entry {
                address,
                len,
                value,
            } => address
                .wrapping_add(u64::from(len))
                .wrapping_add(u64::from(value)),
            Answer::Covered(covered) => u64::from(covered),
            Answer::Count(count) => count,
        }
    }
}

// What is kept of the answers so far, as a number.
pub trait Tally: Copy {
    ghost kept: { Self → ℕ };

    ghost after: { ℕ → Option Answer → ℕ };

    // With one more answer, or with none where nothing was found.
    fn with(self, answer: Option<Answer>) -> Self
        ensures { kept result ≡ after (kept self) answer };

    fn number(self) -> u64
        ensures { result ≡ kept self };
}

// The sum, which wraps. An absent answer adds nothing.
#[derive(Clone, Copy, PartialEq, Eq)]
pub struct Sum(pub u64);

impl Tally for Sum {
    ghost kept = { λ sum. sum.0 };

    ghost after = { summed };

    #[inline(always)]
    fn with(self, answer: Option<Answer>) -> Sum {
        match answer {
            None => self,
            Some(answer) => Sum(self.0.wrapping_add(answer.adds())),
        }
    }

    #[inline(always)]
    fn number(self) -> u64 {
        self.0
    }
}

// The word of an absent answer.
const ABSENT: u64 = u64::MAX;

// The 64-bit FNV-1a hash, by words in place of bytes.
#[derive(Clone, Copy)]
pub struct Digest {
    state: u64,
}

impl Digest {
    pub(crate) fn new() -> Digest
        ensures { result.state ≡ 14695981039346656037 }
    {
        Digest {
            state: 0xcbf2_9ce4_8422_2325,
        }
    }

    #[inline(always)]
    fn word(self, word: u64) -> Digest
        ensures { result.state ≡ hashed self.state word }
    {
        Digest {
            state: (self.state ^ word).wrapping_mul(0x100_0000_01b3),
        }
    }
}

impl Tally for Digest {
    ghost kept = { λ digest. digest.state };

    ghost after = { digested };

    #[inline(always)]
    fn with(self, answer: Option<Answer>) -> Digest {
        match answer {
            None => self.word(ABSENT),
            Some(Answer::Verdict { refused }) => self.word(u64::from(refused)),
            Some(Answer::Value(value)) => self.word(u64::from(value)),
            Some(
                Answer::Entry {
                    address,
                    len,
                    value,
                },
            ) => self
                .word(address)
                .word(u64::from(len))
                .word(u64::from(value)),
            Some(Answer::Covered(covered)) => self.word(u64::from(covered)),
            Some(Answer::Count(count)) => self.word(count),
        }
    }

    #[inline(always)]
    fn number(self) -> u64 {
        self.state
    }
}
